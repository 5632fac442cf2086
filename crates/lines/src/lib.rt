// What a record tells, as a line of text, put at a place of a lent text: byte by byte and with the place, for the reason that `words`
// gives.
#![tactic(auto)]

ghost use Rattle.std.specs.Prelude.{◌≡◌, ◌+◌, ◌≤◌, leb, length};
ghost use Rattle.lines.specs.Lines.{row_line, nodes_line, refusal_line, again_line, line_of, entries_in, line_room};
ghost use Rattle.words.specs.Putting.{Put};

use state::Out;

// Room for every line, which `put_line` asks.
const LINE_ROOM: usize = 2_048;

// Whether a text of so many bytes has room for any line behind a place.
pub fn has_room(bytes: usize, at: usize) -> bool
    requires { at ≤ bytes }
    ensures { result ≡ leb (at + line_room) bytes }
{
    LINE_ROOM <= bytes - at
}

// ASK: `N node distance parent first`.
fn put_row(text: &mut [u8], at: usize, node: u16, dist: u32, parent: u16, first: u16) -> usize
    requires { at + line_room ≤ length text.old }
    ensures { Put text.old at (row_line node dist parent first) text.new result }
{
    let end = words::put_byte(text, at, b'N');
    let end = words::put_word(text, end, node as u64);
    let end = words::put_word(text, end, dist as u64);
    let end = words::put_link(text, end, parent);
    let end = words::put_link(text, end, first);
    words::put_byte(text, end, b'\n')
}

// APPLY: `A count`, then the changed nodes.
fn put_changed(text: &mut [u8], at: usize, nodes: &[u16]) -> usize
    requires room { at + line_room ≤ length text.old }
    requires few { length nodes.now ≤ 256 }
    ensures { Put text.old at (nodes_line nodes.now) text.new result }
{
    let letter = words::put_byte(text, at, b'A');
    let mut end = words::put_word(text, letter, nodes.len() as u64);
    for i in 0..nodes.len() {
        end = words::put_word(text, end, nodes[i] as u64);
    }
    words::put_byte(text, end, b'\n')
}

// A refusal: `R number place`.
fn put_refusal(text: &mut [u8], at: usize, number: u16, place: usize) -> usize
    requires { at + line_room ≤ length text.old }
    ensures { Put text.old at (refusal_line number place) text.new result }
{
    let end = words::put_byte(text, at, b'R');
    let end = words::put_word(text, end, number as u64);
    let end = words::put_word(text, end, place as u64);
    words::put_byte(text, end, b'\n')
}

// A link named twice: `R 9 place earlier`.
fn put_again(text: &mut [u8], at: usize, place: usize, earlier: usize) -> usize
    requires { at + line_room ≤ length text.old }
    ensures { Put text.old at (again_line place earlier) text.new result }
{
    let end = words::put_byte(text, at, b'R');
    let end = words::put_word(text, end, 9);
    let end = words::put_word(text, end, place as u64);
    let end = words::put_word(text, end, earlier as u64);
    words::put_byte(text, end, b'\n')
}

// The line of what a record tells, at a place of the text; the place behind it. `earlier` is for refusal 9 alone.
pub fn put_line(
    text: &mut [u8],
    at: usize,
    out: Out,
    list: &[u16],
    place: usize,
    earlier: usize,
) -> usize
    requires room { at + line_room ≤ length text.old }
    requires few { entries_in out ≤ 256 }
    requires listed { entries_in out ≤ length list.now }
    ensures { Put text.old at (line_of out list.now place earlier) text.new result }
{
    match out {
        Out::Nothing => at,
        Out::Row {
            node,
            dist,
            parent,
            first,
        } => put_row(text, at, node, dist, parent, first),
        Out::Changed { count } => put_changed(text, at, &list[..count]),
        Out::Refused { number: 9 } => put_again(text, at, place, earlier),
        Out::Refused { number } => put_refusal(text, at, number, place),
    }
}
