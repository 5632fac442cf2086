// The pass over the links by which a tree is judged: which nodes a link offers less than they have.
#![tactic(auto)]

ghost use Rattle.std.specs.Prelude.{◌≡◌, ◌≤◌, ◌<◌, length};
ghost use Rattle.rules.specs.Columns.{most_nodes, no_ceiling};
ghost use Rattle.asked.specs.Asked.{Kept};
ghost use Rattle.usable.specs.Standing.{table_at, net_at, dist_in};
ghost use Rattle.offends.specs.Offends.{bar, Bars, Low, offers_by, offends_by, CalmTo, LeastOffendedOf};

use rules::Profile;
use usable::{Net, Table};

const NODES: usize = 256;

// The sum that an offer has to stay below, to be less than what a node at this distance has or to reach it: the distance,
// or the ceiling where the node is unreached or stands beyond it.
fn bar(mark: u32, ceiling: u64, dist: u32) -> u64
    ensures { result ≡ bar mark ceiling dist }
{
    if dist == mark {
        ceiling
    } else {
        u64::from(dist).min(ceiling)
    }
}

// The same of every node, so that one comparison tells of a link what its ends' distances mean.
fn bars(profile: Profile, dist: &[u32; 256]) -> [u64; 256]
    ensures { Bars profile.mark profile.ceiling dist.now most_nodes result }
{
    let mut bars = [0; 256];
    for v in 0..NODES {
        bars[v] = bar(profile.mark, profile.ceiling, dist[v]);
    }
    bars
}

// Link k offers its end less than it has, or enters it though it is unreached, if it is usable.
fn link_offers(table: &Table, bars: &[u64; 256], k: usize) -> bool
    requires link { k < length table.now.starts.now }
    requires low { Low bars.now }
    ensures { result ≡ offers_by (table_at table.now) bars.now k }
{
    let sum = bars[table.start(k)] + u64::from(table.cost(k));
    sum < bars[table.end(k)]
}

// It does, and is usable, which is asked last. That the bars are low (`Low`) is a clause, since an array of 64-bit numbers is what
// one comparison needs.
fn link_offends(net: &Net, bars: &[u64; 256], asked: &mut [u16; 256], k: usize) -> bool
    requires link { k < length net.now.table.starts.now }
    requires low { Low bars.now }
    requires kept { Kept (table_at net.now.table) asked.old }
    ensures offends { result ≡ offends_by (net_at net.now.table) bars.now k }
    ensures kept { Kept (table_at net.now.table) asked.new }
{
    link_offers(&net.table, bars, k) && asked::usable(net, asked, k)
}

// The first link that is up and would offend if it were usable. In a tree that fits there is none, unless a link has no link
// back, and this is all that is asked.
fn first_offering(table: &Table, bars: &[u64; 256]) -> Option<usize>
    requires { Low bars.now }
    ensures { CalmTo (table_at table.now) bars.now result }
{
    for k in 0..table.starts.len() {
        if table.up(k) && link_offers(table, bars, k) {
            return Some(k);
        }
    }
    None
}

// The smallest node that a usable link from a reached node offers less than it has.
pub fn least_offended(table: &Table, dist: &[u32; 256]) -> Option<usize>
    requires { table.now.profile.ceiling ≤ no_ceiling }
    ensures { LeastOffendedOf (net_at table.now) (dist_in table.now.profile dist.now) (length table.now.starts.now) result }
{
    let bars = bars(table.profile, dist);
    let first = first_offering(table, &bars)?;
    let net = Net {
        table: *table,
        at: &heads::first_links(table.starts),
    };
    let mut asked = [rules::NO_LINK; 256];
    let mut least: Option<usize> = None;
    for k in first..table.starts.len() {
        if link_offends(&net, &bars, &mut asked, k) {
            let end = table.end(k);
            least = Some(least.unwrap_or(end).min(end));
        }
    }
    least
}
