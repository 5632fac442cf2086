// The keeping rule, once every node's distance is right.
#![tactic(auto)]

ghost use Rattle.std.specs.Prelude.{◌<◌};
ghost use Rattle.rules.specs.Columns.{most_nodes};
ghost use Rattle.basics.specs.Tells.{Tells};
ghost use Rattle.usable.specs.Standing.{net_at, dist_in};
ghost use Rattle.keep.specs.Kept.{Exact, Holds, Kept, AllKept, StandsBy, StandingLinks};

use rules::NO_LINK;
use usable::Net;

// From a node at distance `from`, a link of this cost gives a reached node exactly the distance `own`. The sum is made in
// 64 bits, where it can't wrap.
fn exact(mark: u32, from: u32, cost: u32, own: u32) -> bool
    ensures { Tells (Exact mark from cost own) result }
{
    own != mark && from != mark && from as u64 + cost as u64 == own as u64
}

// Link `old`, which may be any number, is tight for node `v`. Whether it is usable is asked last. (As one `&&` of all four tests
// its proof didn't close.)
fn holds(net: &Net, dist: &[u32; 256], v: usize, old: u16) -> bool
    requires { v < most_nodes }
    ensures { Tells (Holds (net_at net.now.table) (dist_in net.now.table.profile dist.now) v old) result }
{
    let table = &net.table;
    let k = old as usize;
    if table.starts.len() <= k || table.end(k) != v {
        return false;
    }
    let from = dist[table.start(k)];
    exact(table.profile.mark, from, table.cost(k), dist[v]) && net.usable(k)
}

// A node's old link where that is tight, else what was found. The old link may be any number. Where nothing was found
// nothing needs to be asked.
fn kept(net: &Net, dist: &[u32; 256], v: usize, old: u16, found: u16) -> u16
    requires node { v < most_nodes }
    requires stands { StandsBy (net_at net.now.table) (dist_in net.now.table.profile dist.now) v old found }
    ensures { Kept (Holds (net_at net.now.table) (dist_in net.now.table.profile dist.now) v) old found result }
{
    if found == NO_LINK {
        if dist[v] == net.table.profile.mark {
            return found;
        }
        return old;
    }
    if holds(net, dist, v, old) { old } else { found }
}

// Every node keeps its link where that is tight, and else takes what was found. An old link may be any number; but where
// nothing was found, a reached node's is known to be tight.
pub fn keep_tight(net: &Net, dist: &[u32; 256], found: &[u16; 256], parent: &mut [u16; 256])
    requires { StandingLinks (net_at net.now.table) (dist_in net.now.table.profile dist.now) found.now parent.old }
    ensures { AllKept (net_at net.now.table) (dist_in net.now.table.profile dist.now) found.now parent.old parent.new }
{
    for v in 0..256 {
        parent[v] = kept(net, dist, v, parent[v], found[v]);
    }
}
