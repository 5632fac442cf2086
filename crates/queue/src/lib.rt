// A queue of at most 256 nodes, by the numbers that they wait with, with no heap.
#![tactic(auto)]

ghost use Rattle.std.specs.Prelude.{◌≡◌, true, ◌↔◌, ◌+◌, ◌≤◌, ◌<◌, length, get_or, set, replicate};
ghost use Rattle.queue.specs.Queue.{empty, key_of, Least, Heaped, NoneWaits, Popped};

use std::marker::Model;

// The key of a node that doesn't wait.
const EMPTY: u64 = u64::MAX;

// A waiting node's key is its distance and its number, so that nearer nodes come first, and stands at the node's own place.
// Above the keys stand the least of each four of them, at places 0 to 63 of `mins`, and the least of each eight of those, at
// places 64 to 71.
#[derive(Drop)]
pub struct Queue {
    keys: [u64; 256],
    mins: [u64; 72],
}

impl Model for Queue {
    ghost use Rattle.std.specs.Prelude.{List, ℕ};

    ghost Value = { List ℕ };

    ghost view = { λ q. q.keys };

    ghost use Rattle.queue.specs.Queue.{Heaped};

    ghost invariant = { λ q. Heaped q.keys q.mins };
}

// The least of four keys.
fn least_of_four(keys: &[u64], from: usize) -> u64
    requires { from + 4 ≤ length keys.now }
    ensures { Least keys.now from (from + 4) result }
{
    keys[from]
        .min(keys[from + 1])
        .min(keys[from + 2].min(keys[from + 3]))
}

// The least of eight keys, of two fours: each size is a tree of comparisons of its own.
fn least_of_eight(keys: &[u64], from: usize) -> u64
    requires { from + 8 ≤ length keys.now }
    ensures { Least keys.now from (from + 8) result }
{
    least_of_four(keys, from).min(least_of_four(keys, from + 4))
}

impl Queue {
    // No node waits.
    pub fn new() -> Queue
        ensures { result ≡ replicate 256 empty }
    {
        Queue {
            keys: [EMPTY; 256],
            mins: [EMPTY; 72],
        }
    }

    pub fn is_empty(&self) -> bool
        ensures { (result ≡ true) ↔ NoneWaits self.now }
    {
        least_of_eight(&self.mins, 64) == EMPTY
    }

    // The node waits with this distance, which is no farther than the one that it waited with. Three numbers are stored,
    // whatever they are.
    pub fn put(&mut self, node: usize, distance: u32)
        requires node { node < 256 }
        requires nearer { key_of distance node ≤ get_or self.old node 0 }
        ensures { self.new ≡ set self.old node (key_of distance node) }
    {
        let key = distance as u64 * 256 + node as u64;
        self.keys[node] = key;
        let four = node / 4;
        let least = key.min(self.mins[four]);
        self.mins[four] = least;
        let eight = 64 + node / 32;
        self.mins[eight] = least.min(self.mins[eight]);
    }

    // The nearest node that waits, which waits no longer.
    pub fn pop(&mut self) -> Option<usize>
        ensures { Popped self.old result self.new }
    {
        let key = least_of_eight(&self.mins, 64);
        if key == EMPTY {
            return None;
        }
        let node = (key % 256) as usize;
        self.keys[node] = EMPTY;
        let four = node / 4;
        self.mins[four] = least_of_four(&self.keys, four * 4);
        let eight = node / 32;
        self.mins[64 + eight] = least_of_eight(&self.mins, eight * 8);
        Some(node)
    }
}
