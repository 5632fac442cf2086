// The reader of the record stream: what stands at a place of a lent stream, and the place after it.
#![tactic(auto)]

ghost use Rattle.std.specs.Prelude.{◌≡◌, ◌+◌, ◌≤◌, length};
ghost use Rattle.stream.specs.Records.{body_length, bytes_in, number_at, number_of, record_at, stands, GivenAt};

// What stands at a place: a record, the end, or a refusal with the place of its kind byte.
#[derive(Clone, Copy)]
pub enum Item {
    Network { nodes: u16, root: u16 },
    Link { start: u16, end: u16, cost: u16 },
    Change { link: u16, cost: u16 },
    Apply,
    Ask { node: u16 },
    End,
    UnknownKind(usize),
    CutShort(usize),
}

#[derive(Clone, Copy)]
pub struct Read {
    pub item: Item,
    // The place past a record; at the end and after a refusal, the same place again.
    pub next: usize,
}

// How long the body of a record is, where a record has that kind.
fn body_length(kind: u8) -> Option<usize>
    ensures { result ≡ body_length kind }
{
    // The scope wants ranges for the kinds, so the last arm is no `_`.
    match kind {
        1 | 3 => Some(4),
        2 => Some(6),
        4 => Some(0),
        5 => Some(2),
        0 | 6..=255 => None,
    }
}

// The number whose two bytes start at a place, high byte first.
fn number_at(stream: &[u8], place: usize) -> u16
    requires { place + 2 ≤ length stream.now }
    ensures { result ≡ number_at stream.now place }
{
    u16::from_be_bytes([stream[place], stream[place + 1]])
}

// The record of a kind whose kind byte stands at a place and whose body is whole.
fn record_at(kind: u8, stream: &[u8], place: usize) -> Item
    requires { place + 1 + bytes_in (body_length kind) ≤ length stream.now }
    ensures { result ≡ record_at kind stream.now place }
{
    match kind {
        1 => Item::Network {
            nodes: number_at(stream, place + 1),
            root: number_at(stream, place + 3),
        },
        2 => Item::Link {
            start: number_at(stream, place + 1),
            end: number_at(stream, place + 3),
            cost: number_at(stream, place + 5),
        },
        3 => Item::Change {
            link: number_at(stream, place + 1),
            cost: number_at(stream, place + 3),
        },
        4 => Item::Apply,
        5 => Item::Ask {
            node: number_at(stream, place + 1),
        },
        _ => Item::UnknownKind(place),
    }
}

fn stay(item: Item, place: usize) -> Read
    ensures { result ≡ stands item place }
{
    Read { item, next: place }
}

// What stands at a place, whatever the stream and the place are.
pub fn read_at(stream: &[u8], place: usize) -> Read
    ensures { GivenAt stream.now place result }
{
    if stream.len() <= place {
        return stay(Item::End, place);
    }
    let kind = stream[place];
    let body = place + 1;
    let Some(length) = body_length(kind) else {
        return stay(Item::UnknownKind(place), place);
    };
    if stream.len() - body < length {
        return stay(Item::CutShort(place), place);
    }
    let item = record_at(kind, stream, place);
    Read {
        item,
        next: body + length,
    }
}

// The refusal's number in the scope's table, and 0 where nothing is refused.
pub fn number(item: Item) -> u16
    ensures { result ≡ number_of item }
{
    match item {
        Item::UnknownKind(_) => 21,
        Item::CutShort(_) => 22,
        _ => 0,
    }
}
