// The path to one node, over a lent table and a lent tree.
#![tactic(auto)]

ghost use Rattle.rules.specs.Answers.{told, count_in};
ghost use Rattle.rules.specs.Jobs.{Pathed};
ghost use Rattle.rules.specs.Lent.{table_of, arrays_of};

use rules::{Arrays, Links, Refusal};

// Refusals 1 to 6 and 10 to 12. The links from the root to the node stand at the front of the list then, and are counted.
pub fn path(
    links: &Links,
    costs: &[u16],
    tree: &Arrays,
    node: usize,
    list: &mut [u16],
) -> Result<usize, Refusal>
    ensures { Pathed (table_of links.now costs.now) (arrays_of tree.now) node list.old (told result) list.new (count_in result) }
{
    judge::judge_asked(links, costs, tree, node)?;
    path::trace(links, tree, node, list).ok_or(Refusal::ListTooShort)
}
