// Whether a link still carries a node after costs have changed, and a node that waits to be lifted.
#![tactic(auto)]

ghost use Rattle.std.specs.Prelude.{◌<◌};
ghost use Rattle.rules.specs.Columns.{most_nodes};
ghost use Rattle.usable.specs.Standing.{net_at};
ghost use Rattle.basics.specs.Tells.{Tells};
ghost use Rattle.offer.specs.Offer.{Lined};
ghost use Rattle.afoot.specs.Finding.{Carries};
ghost use Rattle.carries.specs.Waiting.{Enough, Waiting};

use queue::Queue;
use usable::Net;

// From a reached node at distance `from`, a link of this cost offers no more than `to`. The sum is made in 64 bits, where
// it can't wrap.
fn enough(mark: u32, from: u32, cost: u32, to: u32) -> bool
    ensures { Tells (Enough mark from cost to) result }
{
    from < mark && from as u64 + cost as u64 <= to as u64
}

// The link, which may be any number, carries node `v`. Whether it is usable is asked last.
pub fn carries(net: &Net, link: u16, v: usize, dist: &[u32; 256]) -> bool
    requires { v < most_nodes }
    ensures { Tells (Carries (net_at net.now.table) dist.now link v) result }
{
    let table = &net.table;
    let k = link as usize;
    if table.starts.len() <= k || table.end(k) != v {
        return false;
    }
    let from = table.start(k);
    enough(table.profile.mark, dist[from], table.cost(k), dist[v]) && net.usable(k)
}

// Node `v` waits to be lifted, if it is reached. The distances stand beside the queue, as in `lift`: they are only read here, and
// `&mut Search` would promise less.
pub fn note(mark: u32, v: usize, dist: &[u32; 256], queue: &mut Queue)
    requires lined { Lined mark dist.now queue.old }
    requires node { v < most_nodes }
    ensures { Waiting mark dist.now queue.old v queue.new }
{
    let d = dist[v];
    if d < mark {
        queue.put(v, d);
    }
}
