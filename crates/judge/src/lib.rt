// The refusals of an update and of a path, over a lent table and a lent tree.
#![tactic(auto)]

ghost use Rattle.std.specs.Prelude.{◌≡◌};
ghost use Rattle.rules.specs.Answers.{told};
ghost use Rattle.rules.specs.Refusals.{judge_update, judge_asked};
ghost use Rattle.rules.specs.Lent.{table_of, arrays_of};
ghost use Rattle.batch.specs.Rows.{rows_of};

use batch::Columns;
use rules::{Arrays, Links, Refusal, UNREACHED};

// Refusals 1 to 9 and 12, in their order.
pub fn judge_update(
    links: &Links,
    costs: &[u16],
    old: &Arrays,
    batch: &Columns,
    list: &[u16],
) -> Result<(), Refusal>
    ensures { told result ≡ judge_update (table_of links.now costs.now) (arrays_of old.now) (rows_of batch.now) list.now }
{
    fit::judge_rows(links, costs, old)?;
    batch::judge_batch(links.starts.len(), batch)?;
    if list.len() < links.nodes {
        return Err(Refusal::ListTooShort);
    }
    Ok(())
}

// Refusals 1 to 6, 10 and 11, in their order.
pub fn judge_asked(links: &Links, costs: &[u16], tree: &Arrays, node: usize) -> Result<(), Refusal>
    ensures { told result ≡ judge_asked (table_of links.now costs.now) (arrays_of tree.now) node }
{
    fit::judge_rows(links, costs, tree)?;
    if links.nodes <= node {
        return Err(Refusal::AskedNoNode);
    }
    if tree.dist[node] == UNREACHED {
        return Err(Refusal::AskedUnreached);
    }
    Ok(())
}
