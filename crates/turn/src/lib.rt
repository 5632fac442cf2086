// One turn of a stream: the item at a place is read, does what it does, and its line is put into a lent text.
#![tactic(auto)]

ghost use Rattle.std.specs.Prelude.{◌≡◌, true, ◌+◌, ◌≤◌, length};
ghost use Rattle.session.specs.Holding.{Holds, lists};
ghost use Rattle.lines.specs.Lines.{line_room};
ghost use Rattle.earlier.specs.Earlier.{earlier_of};
ghost use Rattle.turn.specs.Turns.{is_again, Turned};

use session::Lists;
use state::{Out, State};
use stream::Item;

// A stream for the program has no more bytes.
const MOST_BYTES: usize = 32_768;

// Where the turns so far have led.
#[derive(Clone, Copy)]
pub struct Turn {
    pub state: State,
    // The place of the next item.
    pub next: usize,
    // The place in the text behind the last line.
    pub end: usize,
    // Whether there is a next turn: none at the end of the stream and none after a refusal. `Turns` tells where the turns have led
    // then too, so this stands beside `next`, which is no `Option`.
    pub more: bool,
}

// The place of the earlier record with the same link, which is looked for where it is told: where a link is named twice.
fn earlier(stream: &[u8], place: usize, item: Item, out: Out) -> usize
    ensures { is_again out ≡ true → result ≡ earlier_of stream.now place item }
{
    match out {
        Out::Refused { number: 9 } => earlier::earlier_of(stream, place, item),
        _ => 0,
    }
}

// The turn behind the turns so far. A stream that is too long is told at once, whatever the place. The text and the place behind
// its last line stay two: a text of any length is taken that has room for a line. Six slices stand beside `Lists` for a caller
// whose lists lie apart, so that it copies none.
pub fn take_turn_lent(
    stream: &[u8],
    so_far: Turn,
    starts: &mut [u16],
    ends: &mut [u16],
    costs: &mut [u16],
    changed: &mut [u16],
    newcosts: &mut [u16],
    list: &mut [u16],
    text: &mut [u8],
) -> Turn
    requires holds { Holds so_far.state (lists starts.old ends.old costs.old changed.old newcosts.old list.old) }
    requires room { so_far.end + line_room ≤ length text.old }
    ensures { Turned stream.now so_far.next so_far.state (lists starts.old ends.old costs.old changed.old newcosts.old list.old) text.old so_far.end result (lists starts.new ends.new costs.new changed.new newcosts.new list.new) text.new }
{
    let place = so_far.next;
    let at = so_far.end;
    if stream.len() > MOST_BYTES {
        let refusal = Out::Refused { number: 24 };
        let end = lines::put_line(text, at, refusal, list, MOST_BYTES, 0);
        return Turn {
            end,
            more: false,
            ..so_far
        };
    }
    let read = stream::read_at(stream, place);
    let done = session::step_lent(
        so_far.state,
        read.item,
        starts,
        ends,
        costs,
        changed,
        newcosts,
        list,
    );
    let before = earlier(stream, place, read.item, done.out);
    let end = lines::put_line(text, at, done.out, list, place, before);
    Turn {
        state: done.state,
        next: read.next,
        end,
        more: state::goes_on(read.item, done.out),
    }
}

// The same over lists that lie in one struct.
pub fn take_turn(stream: &[u8], so_far: Turn, lists: &mut Lists, text: &mut [u8]) -> Turn
    requires holds { Holds so_far.state lists.old }
    requires room { so_far.end + line_room ≤ length text.old }
    ensures { Turned stream.now so_far.next so_far.state lists.old text.old so_far.end result lists.new text.new }
{
    take_turn_lent(
        stream,
        so_far,
        &mut lists.starts,
        &mut lists.ends,
        &mut lists.costs,
        &mut lists.changed,
        &mut lists.newcosts,
        &mut lists.list,
        text,
    )
}
