// The earlier CHANGE record with the same link, as a stream's refusal 9 tells it: the one place where a row's record is asked
// for, so nothing is kept of places while records are read.
#![tactic(auto)]

ghost use Rattle.std.specs.Prelude.{◌≡◌};
ghost use Rattle.earlier.specs.Earlier.{behind, earlier_change, earlier_of};

use stream::Item;

// What is found behind an item: an APPLY leaves nothing, a CHANGE of the link is found where nothing was.
fn behind(item: Item, at: usize, link: u16, found: Option<usize>) -> Option<usize>
    ensures { result ≡ behind item at link found }
{
    match item {
        Item::Change { link: named, .. } if named == link => found.or(Some(at)),
        Item::Apply => None,
        _ => found,
    }
}

// The place of the first CHANGE of the link behind the last APPLY before a place, where there is one.
pub fn earlier_change(stream: &[u8], place: usize, link: u16) -> Option<usize>
    ensures { result ≡ earlier_change stream.now place link }
{
    let mut found = None;
    let mut at = 0;
    while at < place {
        let read = stream::read_at(stream, at);
        found = behind(read.item, at, link, found);
        if read.next <= at {
            return found;
        }
        at = read.next;
    }
    found
}

// The same of an item, whose place it is: that place itself where there is none, and 0 where it is no CHANGE. A line is told with
// this number (`turn`'s `Turns`), so it is no `Option`.
pub fn earlier_of(stream: &[u8], place: usize, item: Item) -> usize
    ensures { result ≡ earlier_of stream.now place item }
{
    let Item::Change { link, .. } = item else {
        return 0;
    };
    earlier_change(stream, place, link).unwrap_or(place)
}
