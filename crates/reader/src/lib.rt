// The reader of the record stream as a struct that carries the stream together with its place, thin over
// `stream::read_at`.
#![tactic(auto)]

ghost use Rattle.std.specs.Prelude.{◌≡◌};
ghost use Rattle.reader.specs.Reading.{at_start, HandsOn};

use stream::Item;

#[derive(Clone, Copy)]
pub struct Reader<'a> {
    pub stream: &'a [u8],
    pub place: usize,
}

// What the reader gives, and the reader moved on.
#[derive(Clone, Copy)]
pub struct Step<'a> {
    pub reader: Reader<'a>,
    pub item: Item,
}

impl<'a> Reader<'a> {
    // The reader at the start of a stream.
    pub fn new(stream: &'a [u8]) -> Reader<'a>
        ensures { result ≡ at_start stream.entry }
    {
        Reader { stream, place: 0 }
    }

    // The next record, the end or a refusal. At the end and after a refusal the place stands still.
    pub fn next(self) -> Step<'a>
        ensures { HandsOn self.entry result }
    {
        let read = stream::read_at(self.stream, self.place);
        Step {
            reader: Reader {
                place: read.next,
                ..self
            },
            item: read.item,
        }
    }

    pub fn place(self) -> usize
        ensures { result ≡ self.entry.place }
    {
        self.place
    }
}
