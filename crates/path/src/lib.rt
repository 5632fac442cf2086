// The path to a node: the links from the root to it, found from the node upward.
#![tactic(auto)]

ghost use Rattle.std.specs.Prelude.{◌≡◌, ◌<◌, length};
ghost use Rattle.rules.specs.Columns.{most_nodes};
ghost use Rattle.path.specs.Climb.{climb_in, Climbable, Counted, FilledFrom, Traces};

use rules::{Arrays, Links};

// How many links lead from the root to the node, and `below` more. Recursive, as is `fill`: the distance falls with each of them.
fn depth(links: &Links, tree: &Arrays, node: usize, below: usize) -> usize
    requires { Climbable (climb_in links.now tree.now) node below }
    ensures { Counted (climb_in links.now tree.now) node below result }
{
    if node == links.root {
        return below;
    }
    let up = links.starts[tree.parent[node] as usize] as usize;
    depth(links, tree, up, below + 1)
}

// Writes the node's n links, the last one first. Its list is as long as a path can be: a list of any length as parameter
// would take 32 bytes of the stack at each step.
fn fill(links: &Links, tree: &Arrays, node: usize, n: usize, path: &mut [u16; 256])
    requires is_node { node < most_nodes }
    requires counted { Counted (climb_in links.now tree.now) node 0 n }
    ensures { FilledFrom (climb_in links.now tree.now) node n path.old path.new }
{
    if node != links.root {
        let link = tree.parent[node];
        let last = n - 1;
        path[last] = link;
        let up = links.starts[link as usize] as usize;
        fill(links, tree, up, last, path);
    }
}

// The path of a reached node, by a local array with its length (fixed memory, no heap), at the front of the list where there is room for it, and how many links it has; else nothing
// is written.
pub fn trace(links: &Links, tree: &Arrays, node: usize, list: &mut [u16]) -> Option<usize>
    requires { Climbable (climb_in links.now tree.now) node 0 }
    ensures { Traces (climb_in links.now tree.now) node list.old result list.new }
{
    let n = depth(links, tree, node, 0);
    if list.len() < n {
        return None;
    }
    let mut path = [0u16; 256];
    fill(links, tree, node, n, &mut path);
    list[..n].copy_from_slice(&path[..n]);
    Some(n)
}
