// Answers and records as plain numbers, for programs in other languages.
#![tactic(auto)]

ghost use Rattle.std.specs.Prelude.{◌≡◌, [], ◌∷◌};
ghost use Rattle.stream.specs.Records.{read_at};
ghost use Rattle.rules.specs.Answers.{told, count_in, number_in, value_in, second_in};
ghost use Rattle.plain.specs.Readings.{HandedBack, parts_of};

use rules::Refusal;
use stream::Item;

// The number, with both values written: what C takes has no Result.
pub fn tell<A: Copy>(answer: Result<A, Refusal>, values: &mut [u16; 2]) -> u16
    ensures number { result ≡ number_in (told answer) }
    ensures values { values.new ≡ value_in (told answer) ∷ second_in (told answer) ∷ [] }
{
    *values = [rules::value(answer), rules::second(answer)];
    rules::number(answer)
}

// The same of an answer that counts, with its count written, 0 where it refuses.
pub fn tell_count(answer: Result<usize, Refusal>, count: &mut usize, values: &mut [u16; 2]) -> u16
    ensures number { result ≡ number_in (told answer) }
    ensures values { values.new ≡ value_in (told answer) ∷ second_in (told answer) ∷ [] }
    ensures count { count.new ≡ count_in answer }
{
    *count = answer.unwrap_or(0);
    tell(answer, values)
}

// A record as other languages take it: its kind, and its numbers, 32 bits wide, with 0 in the places that it doesn't have. Where there
// is none, all of it is 0.
#[derive(Clone, Copy)]
struct Parts {
    kind: u8,
    numbers: [u32; 3],
}

impl From<Item> for Parts {
    ghost from_gives = { λ item parts. parts ≡ parts_of item };

    fn from(item: Item) -> Parts {
        let (kind, numbers) = match item {
            Item::Network { nodes, root } => (1, [u32::from(nodes), u32::from(root), 0]),
            Item::Link { start, end, cost } => (
                2,
                [u32::from(start), u32::from(end), u32::from(cost)],
            ),
            Item::Change { link, cost } => (3, [u32::from(link), u32::from(cost), 0]),
            Item::Apply => (4, [0, 0, 0]),
            Item::Ask { node } => (5, [u32::from(node), 0, 0]),
            Item::End | Item::UnknownKind(_) | Item::CutShort(_) => (0, [0, 0, 0]),
        };
        Parts { kind, numbers }
    }
}

// What stands at a place of a stream: its kind, its numbers and the next place, with the refusal's number handed back.
pub fn read(
    bytes: &[u8],
    place: usize,
    kind: &mut u8,
    numbers: &mut [u32; 3],
    next: &mut usize,
) -> u16
    ensures { HandedBack (read_at bytes.now place) result kind.new numbers.new next.new }
{
    let read = stream::read_at(bytes, place);
    let Parts {
        kind: told,
        numbers: three,
    } = Parts::from(read.item);
    *kind = told;
    *numbers = three;
    *next = read.next;
    stream::number(read.item)
}
