// Judging a tree: refusals 1 to 6. The smallest node that breaks a rule is the smaller of two, each found by one pass: the
// smallest that a link offers less than it has, and the smallest whose row is wrong by itself.
#![tactic(auto)]

ghost use Rattle.std.specs.Prelude.{◌≡◌, ◌≤◌, ◌<◌};
ghost use Rattle.rules.specs.Columns.{no_ceiling};
ghost use Rattle.rules.specs.Refusals.{accepted, judge_links, judge_tree, judge_tree_in};
ghost use Rattle.rules.specs.Answers.{told};
ghost use Rattle.rules.specs.Lent.{table_of, arrays_of};
ghost use Rattle.usable.specs.Standing.{table_at};

use rules::{Arrays, Links, Refusal};
use usable::Table;

// Refusal 6, where the links are judged already.
fn judge_tree(table: &Table, tree: &Arrays) -> Result<(), Refusal>
    requires links { judge_links (table_at table.now) ≡ accepted }
    requires far { 0 < table.now.profile.mark }
    requires low { table.now.profile.ceiling ≤ no_ceiling }
    ensures { told result ≡ judge_tree_in table.now.profile (table_at table.now) (arrays_of tree.now) }
{
    let row = alone::first_bad_row(table, tree);
    let offended = offends::least_offended(table, tree.dist);
    match (row, offended) {
        (Some(row), Some(offended)) => Err(Refusal::TreeUnfit(row.min(offended) as u16)),
        (Some(row), None) => Err(Refusal::TreeUnfit(row as u16)),
        (None, Some(offended)) => Err(Refusal::TreeUnfit(offended as u16)),
        (None, None) => Ok(()),
    }
}

// The smallest refusal number that applies, or acceptance, whatever is given.
pub fn judge_rows(links: &Links, costs: &[u16], tree: &Arrays) -> Result<(), Refusal>
    ensures { told result ≡ judge_tree (table_of links.now costs.now) (arrays_of tree.now) }
{
    links::judge_links(links, costs)?;
    judge_tree(&links::judged(links, costs), tree)
}
