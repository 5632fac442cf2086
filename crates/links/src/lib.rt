// Judging a table of links: refusals 1 to 5; and the table that is left to work over.
#![tactic(auto)]

ghost use Rattle.std.specs.Prelude.{◌≡◌};
ghost use Rattle.rules.specs.Answers.{told};
ghost use Rattle.rules.specs.Lent.{table_of};
ghost use Rattle.rules.specs.Columns.{Proper, narrow};
ghost use Rattle.rules.specs.Refusals.{judge_links};
ghost use Rattle.usable.specs.Standing.{table_at};

use costs::Costs;
use rules::{Links, Refusal};
use usable::Table;

// The smallest refusal number that applies, or acceptance, whatever is given.
pub fn judge_links(links: &Links, costs: &[u16]) -> Result<(), Refusal>
    ensures { told result ≡ judge_links (table_of links.now costs.now) }
{
    let Links {
        nodes,
        root,
        starts,
        ends,
    } = *links;
    if nodes == 0 || 256 < nodes {
        return Err(Refusal::WrongNodeCount);
    }
    if nodes <= root {
        return Err(Refusal::WrongRoot);
    }
    if starts.len() != ends.len() || starts.len() != costs.len() || 4096 < starts.len() {
        return Err(Refusal::WrongColumns);
    }
    if each::wrong_links(nodes as u16, starts, ends) == 0 {
        return Ok(());
    }
    each::judge_each(nodes, starts, ends)
}

// A judged table, by the numbers of 16-bit costs.
pub fn judged<'a, 'b: 'a>(links: &Links<'b>, costs: &'a [u16]) -> Table<'a>
    requires { Proper (table_of links.now costs.now) }
    ensures profile { result.profile ≡ narrow }
    ensures table { table_at result ≡ table_of links.now costs.now }
{
    Table {
        profile: rules::narrow(),
        nodes: links.nodes,
        root: links.root,
        starts: links.starts,
        ends: links.ends,
        costs: Costs::Narrow(costs),
    }
}
