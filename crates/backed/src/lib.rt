// Which nodes' parent links have a link back, told of all nodes at once by one pass over the links.
#![tactic(auto)]

ghost use Rattle.std.specs.Prelude.{◌≡◌, ◌&&◌, cond, ◌<◌, eqb, length};
ghost use Rattle.rules.specs.Columns.{most_nodes};
ghost use Rattle.usable.specs.Standing.{table_at, net_at};
ghost use Rattle.backed.specs.Backed.{above, Above, LedBack, usable_by};

use usable::Table;

const NODES: usize = 256;

// No node has this number.
const NO_NODE: u16 = 65_535;

// Where a node's parent link starts, and 65,535 where it has none. No option: it is compared with the end of every link.
fn above(starts: &[u16], link: u16) -> u16
    ensures { result ≡ above starts.now link }
{
    starts.get(link as usize).copied().unwrap_or(NO_NODE)
}

// The same of every node.
fn all_above(starts: &[u16], parent: &[u16; 256]) -> [u16; 256]
    ensures { Above starts.now parent.now most_nodes result }
{
    let mut up = [NO_NODE; 256];
    for v in 0..NODES {
        up[v] = above(starts, parent[v]);
    }
    up
}

// Where a link marks that it leads from its start to the node above: at the start, or where nobody reads it.
fn place(from: u16, end: u16, above: u16, up: bool) -> usize
    ensures { result ≡ cond (eqb end above && up) from most_nodes }
{
    if end == above && up {
        from as usize
    } else {
        NODES
    }
}

// For each node whether its parent link has a link back, found by one pass over the links: 0 where it has none. The place
// past the last node takes what says nothing, so that each link makes one store and asks nothing.
pub fn led_back(table: &Table, parent: &[u16; 256]) -> [u8; 257]
    ensures { LedBack (table_at table.now) parent.now result }
{
    let above = all_above(table.starts, parent);
    let mut marks = [0; 257];
    for k in 0..table.starts.len() {
        let at = place(
            table.starts[k],
            table.ends[k],
            above[table.start(k)],
            table.up(k),
        );
        marks[at] = 1;
    }
    marks
}

// A link is usable, where its mark tells whether it has a link back: 0 where it has none.
pub fn usable_by(table: &Table, k: usize, mark: u8) -> bool
    requires { k < length table.now.starts.now }
    ensures { result ≡ usable_by mark ((net_at table.now).cost k) }
{
    mark != 0 && table.up(k)
}
