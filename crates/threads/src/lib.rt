// The rows of a batch on 512 threads, by the numbers of their links: a row is compared with those on its own thread alone.
#![tactic(auto)]

ghost use Rattle.std.specs.Prelude.{◌≡◌, List, ℕ, None, ◌+◌, ◌<◌, length, get_or};
ghost use Rattle.rules.specs.Columns.{most_rows};
ghost use Rattle.threads.specs.Threads.{thread_of, Threaded, EarliestOf};

// For each thread one more than its last row, and for each row one more than the row before it on its thread; 0 says that
// there is none. No options: they would take twice the memory.
#[derive(Drop)]
pub struct Threads {
    pub ends: [u16; 512],
    pub before: [u16; 256],
}

// Which of 512 threads a link's row is on: two rows of one link are on one thread, and of the rows that name each a link
// of their own at most eight are.
fn thread_of(link: u16) -> usize
    ensures { result ≡ thread_of link }
{
    link as usize % 512
}

impl Threads {
    // No row yet.
    pub fn new() -> Threads
        ensures { (changed : List ℕ) → Threaded changed result 0 }
    {
        Threads {
            ends: [0; 512],
            before: [0; 256],
        }
    }

    // The earliest of the first `rows` rows that names the link. Only rows on the link's thread are compared, from its last on:
    // the loop goes from row to row as the thread does.
    pub fn earliest_row(&self, changed: &[u16], rows: usize, link: u16) -> Option<usize>
        requires { Threaded changed.now self.now rows }
        ensures { EarliestOf changed.now rows link result }
    {
        let thread = thread_of(link);
        let mut at = self.ends[thread] as usize;
        while 0 < at {
            let row = at - 1;
            if changed[row] == link {
                return Some(row);
            }
            at = self.before[row] as usize;
        }
        None
    }

    // One row more, which names no link of those before it.
    pub fn add_row(&mut self, changed: &[u16], row: usize)
        requires threaded { Threaded changed.now self.old row }
        requires is_row { row < length changed.now }
        requires room { row < most_rows }
        requires other_link { EarliestOf changed.now row (get_or changed.now row 0) None }
        ensures { Threaded changed.now self.new (row + 1) }
    {
        let thread = thread_of(changed[row]);
        self.before[row] = self.ends[thread];
        self.ends[thread] = row as u16 + 1;
    }
}
