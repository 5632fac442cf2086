// A batch of cost changes, in two lent columns: judging its rows, refusals 7 to 9, and writing its costs.
#![tactic(auto)]

ghost use Rattle.std.specs.Prelude.{◌≡◌, ◌≤◌, ◌<◌, length};
ghost use Rattle.rules.specs.Columns.{applied, most_links, most_rows};
ghost use Rattle.batch.specs.Rows.{rows_of, change_at, RowsJudged, BatchJudged, Named};

use rules::{Change, Refusal};
use threads::Threads;

// A batch by its columns, the links and their new costs: a row is a place that both have. Two columns and not a trait over
// both forms of a batch: the search for the changed nodes takes the links alone, as a slice.
#[derive(Clone, Copy)]
pub struct Columns<'a> {
    pub links: &'a [u16],
    pub costs: &'a [u16],
}

impl<'a> Columns<'a> {
    // How many rows the columns have.
    pub fn len(&self) -> usize
        ensures { result ≡ length (rows_of self.now) }
    {
        self.links.len().min(self.costs.len())
    }

    fn row(&self, place: usize) -> Change
        requires { place < length (rows_of self.now) }
        ensures { result ≡ change_at self.now place }
    {
        Change {
            link: self.links[place],
            cost: self.costs[place],
        }
    }
}

// One pass: the first bad row decides. The rows passed are kept on threads, so that each is compared with few others.
fn judge_rows(links: usize, batch: &Columns) -> Result<(), Refusal>
    requires few_links { links ≤ most_links }
    requires few_rows { length (rows_of batch.now) ≤ most_rows }
    ensures { RowsJudged links (rows_of batch.now) result }
{
    let mut threads = Threads::new();
    for row in 0..batch.len() {
        let link = batch.row(row).link;
        if links <= link as usize {
            return Err(Refusal::RowNamesNoLink(row as u16));
        }
        if let Some(earlier) = threads.earliest_row(batch.links, row, link) {
            return Err(Refusal::RowNamesLinkAgain(row as u16, earlier as u16));
        }
        threads.add_row(batch.links, row);
    }
    Ok(())
}

// The refusal of a batch that stands to a tree that fits, or acceptance.
pub fn judge_batch(links: usize, batch: &Columns) -> Result<(), Refusal>
    requires { links ≤ most_links }
    ensures { BatchJudged links (rows_of batch.now) result }
{
    if 256 < batch.len() {
        return Err(Refusal::TooManyRows);
    }
    judge_rows(links, batch)
}

// Writes the rows' costs into the cost column, whose other places stay.
pub fn write_costs(batch: &Columns, costs: &mut [u16])
    requires { Named (length costs.old) (rows_of batch.now) }
    ensures { costs.new ≡ applied (rows_of batch.now) costs.old }
{
    for i in 0..batch.len() {
        let row = batch.row(i);
        costs[row.link as usize] = row.cost;
    }
}
