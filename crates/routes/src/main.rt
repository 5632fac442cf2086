// Reads a record stream from standard input and prints a line for what each record tells. What is printed is worked out by
// `turns::fill`, text after text; here it is only read and written.
#![tactic(auto)]

ghost use Rattle.printed.specs.Prints.{Written};

use session::Lists;
use state::State;
use turn::Turn;

const STDIN: i32 = 0;

const STDOUT: i32 = 1;

// Once a write has failed nothing more is written.
fn write(writing: bool, text: &[u8]) -> bool {
    writing && io::write_all(STDOUT, text)
}

// What the stream prints, written part after part. No contract speaks of what a process writes; this one says that the
// parts handed to `write`, one behind the other, are what the stream prints.
fn run(stream: &[u8])
    ensures { Written stream.now }
{
    let mut lists = Lists {
        starts: [0; 4096],
        ends: [0; 4096],
        costs: [0; 4096],
        changed: [0; 256],
        newcosts: [0; 256],
        list: [0; 256],
    };
    let mut text = [0; 32_768];
    let mut turn = Turn {
        state: State::start(),
        next: 0,
        end: 0,
        more: true,
    };
    let mut writing = true;
    while turn.more {
        turn = turns::fill(stream, turn.next, turn.state, &mut lists, &mut text);
        writing = write(writing, &text[..turn.end]);
    }
}

// A byte more than a stream may have, so that one that is too long is known as such.
fn main() {
    let mut bytes = [0u8; 32_769];
    let n = io::read_full(STDIN, &mut bytes);
    run(&bytes[..n]);
}
