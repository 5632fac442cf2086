// The list of changed nodes.
#![tactic(auto)]

ghost use Rattle.std.specs.Prelude.{◌≤◌, length};
ghost use Rattle.rules.specs.Columns.{most_nodes};
ghost use Rattle.rules.specs.Lent.{arrays_of};
ghost use Rattle.changed.specs.Listed.{ListedBelow};

use rules::Arrays;

// The changed nodes below `nodes`, in rising order, at the front of the list, whose other places stay; their count.
#[tactic(auto, using(crate::proofs::Laws::count_few, crate::proofs::Laws::listed_none))]
pub fn list_changed(nodes: usize, old: &Arrays, new: &Arrays, list: &mut [u16]) -> usize
    requires few_nodes { nodes ≤ most_nodes }
    requires room { nodes ≤ length list.old }
    ensures { ListedBelow (arrays_of old.now) (arrays_of new.now) nodes list.old list.new result }
{
    // The place of the next entry, which no loop gives.
    let mut count: usize = 0;
    for node in 0..nodes {
        if old.row(node) != new.row(node) {
            list[count] = node as u16;
            count += 1;
        }
    }
    count
}
