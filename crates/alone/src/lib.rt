// The pass over the rows by which a tree is judged: which are right by themselves, what links offer left aside.
#![tactic(auto)]

ghost use Rattle.std.specs.Prelude.{◌≡◌, ◌<◌, length, get_or};
ghost use Rattle.rules.specs.Keep.{one};
ghost use Rattle.rules.specs.Columns.{most_nodes, no_link, some_leads, rows_in};
ghost use Rattle.rules.specs.Lent.{arrays_of};
ghost use Rattle.usable.specs.Standing.{table_at, net_at, dist_in, first_in};
ghost use Rattle.backed.specs.Backed.{LedBack};
ghost use Rattle.alone.specs.Alone.{empty_at, tight_by, first_of, hung_by, hung_alone, row_alone, FirstWrongOf};

use rules::{Arrays, Row};
use usable::Table;

const NODES: usize = 256;

// A row with this distance, and neither a parent nor a first link.
fn empty_at(wanted: u32, row: Row) -> bool
    ensures { result ≡ empty_at no_link wanted row.dist row.parent row.first }
{
    row == Row {
        dist: wanted,
        parent: rules::NO_LINK,
        first: rules::NO_LINK,
    }
}

// A usable link to `end`, of this cost, from a node at distance `from`, would be tight for node `v` at distance `dist`.
fn tight_by(mark: u32, v: usize, dist: u32, end: usize, cost: u32, from: u32) -> bool
    ensures { result ≡ tight_by mark v dist end cost from }
{
    end == v && from != mark && u64::from(from) + u64::from(cost) == u64::from(dist)
}

// The first link of a node whose parent link is `parent`, which starts at a node whose first link is `first`. The same of a table
// (`firsts::first_by`) asks what is known here, whether the number is a link's, and would be no plainer.
fn first_by(root: usize, parent: u16, start: usize, first: u16) -> u16
    ensures { result ≡ first_of root parent start first }
{
    if start == root { parent } else { first }
}

// Link `by` hangs node `v`, and makes its first link what it is. Whether it is usable is asked last.
fn hung_by(table: &Table, tree: &Arrays, by: u16, v: usize, mark: u8) -> bool
    requires link { by < length table.now.starts.now }
    requires node { v < most_nodes }
    requires marked { mark ≡ one (some_leads (table_at table.now) v (get_or table.now.starts.now by 0)) }
    ensures { result ≡ hung_by (net_at table.now) (dist_in table.now.profile tree.now.dist.now) (first_in tree.now.first.now) by v }
{
    let k = by as usize;
    let from = table.start(k);
    tight_by(
        table.profile.mark,
        v,
        tree.dist[v],
        table.end(k),
        table.cost(k),
        tree.dist[from],
    ) && tree.first[v] == first_by(table.root, by, from, tree.first[from])
        && backed::usable_by(table, k, mark)
}

// The row of a reached node `v` hangs it by its parent link, and has the right first link. What the marks say (`LedBack`) is a clause
// here and below: it is of table and tree together.
fn hung(table: &Table, tree: &Arrays, backed: &[u8; 257], v: usize) -> bool
    requires node { v < most_nodes }
    requires backed { LedBack (table_at table.now) tree.now.parent.now backed.now }
    ensures { result ≡ hung_alone (net_at table.now) (rows_in table.now.profile (arrays_of tree.now)) v }
{
    let by = tree.parent[v];
    if table.nodes <= v
        || table.profile.ceiling <= u64::from(tree.dist[v])
        || table.starts.len() <= by as usize
    {
        return false;
    }
    hung_by(table, tree, by, v, backed[v])
}

// The row of node `v` is right, what links offer it left aside.
fn row_right(table: &Table, tree: &Arrays, backed: &[u8; 257], v: usize) -> bool
    requires node { v < most_nodes }
    requires backed { LedBack (table_at table.now) tree.now.parent.now backed.now }
    ensures { result ≡ row_alone (net_at table.now) (rows_in table.now.profile (arrays_of tree.now)) v }
{
    let row = tree.row(v);
    if v == table.root {
        empty_at(0, row)
    } else if row.dist == table.profile.mark {
        empty_at(table.profile.mark, row)
    } else {
        hung(table, tree, backed, v)
    }
}

// The smallest of the 256 nodes whose row is wrong, what links offer it left aside.
pub fn first_bad_row(table: &Table, tree: &Arrays) -> Option<usize>
    ensures { FirstWrongOf (net_at table.now) (rows_in table.now.profile (arrays_of tree.now)) result }
{
    let backed = backed::led_back(table, tree.parent);
    for v in 0..NODES {
        if !row_right(table, tree, &backed, v) {
            return Some(v);
        }
    }
    None
}
