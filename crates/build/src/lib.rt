// Fresh build, over a lent table and lent arrays. The arrays are three parameters, for the reason that `update` gives.
#![tactic(auto)]

ghost use Rattle.std.specs.Prelude.{◌≡◌};
ghost use Rattle.rules.specs.Answers.{told};
ghost use Rattle.rules.specs.Columns.{empty_tree, arrays};
ghost use Rattle.rules.specs.Lent.{table_of};
ghost use Rattle.rules.specs.Jobs.{Built};

use rules::{Links, NO_LINK, Refusal, UNREACHED};

// Every node unreached, and no links.
fn clear(dist: &mut [u32; 256], parent: &mut [u16; 256], first: &mut [u16; 256])
    ensures { arrays dist.new parent.new first.new ≡ empty_tree }
{
    *dist = [UNREACHED; 256];
    *parent = [NO_LINK; 256];
    *first = [NO_LINK; 256];
}

// Refusals 1 to 5; a refused build leaves the empty tree. Whatever the arrays held is forgotten.
pub fn build(
    links: &Links,
    costs: &[u16],
    dist: &mut [u32; 256],
    parent: &mut [u16; 256],
    first: &mut [u16; 256],
) -> Result<(), Refusal>
    ensures { Built (table_of links.now costs.now) (told result) (arrays dist.new parent.new first.new) }
{
    clear(dist, parent, first);
    links::judge_links(links, costs)?;
    grow::grow(&links::judged(links, costs), dist, parent, first);
    Ok(())
}
