// Update, over a lent table and lent arrays. These three stay three parameters wherever they are written: what they hold
// when a struct of three `&mut` arrays ends isn't known to the proof.
#![tactic(auto)]

ghost use Rattle.std.specs.Prelude.{◌≡◌};
ghost use Rattle.rules.specs.Answers.{told, count_in};
ghost use Rattle.rules.specs.Columns.{arrays};
ghost use Rattle.rules.specs.Lent.{table_of};
ghost use Rattle.rules.specs.Jobs.{Updated};
ghost use Rattle.rules.specs.Refusals.{accepted, judge_update};
ghost use Rattle.batch.specs.Rows.{rows_of};

use batch::Columns;
use rules::{Arrays, Links, Refusal};

// An accepted batch: its costs are written, the next tree is grown from the old one, and the changed nodes are listed and
// counted. For that the old rows are kept beside.
fn apply(
    links: &Links,
    costs: &mut [u16],
    batch: &Columns,
    dist: &mut [u32; 256],
    parent: &mut [u16; 256],
    first: &mut [u16; 256],
    list: &mut [u16],
) -> usize
    requires { judge_update (table_of links.now costs.old) (arrays dist.old parent.old first.old) (rows_of batch.now) list.old ≡ accepted }
    ensures { Updated (table_of links.now costs.old) (arrays dist.old parent.old first.old) (rows_of batch.now) list.old accepted (arrays dist.new parent.new first.new) costs.new list.new result }
{
    let old_dist = *dist;
    let old_parent = *parent;
    let old_first = *first;
    let old = Arrays {
        dist: &old_dist,
        parent: &old_parent,
        first: &old_first,
    };
    batch::write_costs(batch, costs);
    let table = links::judged(links, costs);
    grow::regrow(&table, &batch.links[..batch.len()], dist, parent, first);
    let new = Arrays {
        dist,
        parent,
        first,
    };
    changed::list_changed(links.nodes, &old, &new, list)
}

// Refusals 1 to 9 and 12. An accepted batch writes its costs and lists the changed nodes, which are counted; a refused one
// leaves tree, costs and list as they came.
pub fn update(
    links: &Links,
    costs: &mut [u16],
    batch: &Columns,
    dist: &mut [u32; 256],
    parent: &mut [u16; 256],
    first: &mut [u16; 256],
    list: &mut [u16],
) -> Result<usize, Refusal>
    ensures { Updated (table_of links.now costs.old) (arrays dist.old parent.old first.old) (rows_of batch.now) list.old (told result) (arrays dist.new parent.new first.new) costs.new list.new (count_in result) }
{
    let tree = Arrays {
        dist,
        parent,
        first,
    };
    judge::judge_update(links, costs, &tree, batch, list)?;
    Ok(apply(links, costs, batch, dist, parent, first, list))
}
