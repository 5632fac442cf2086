// A batch that comes as a lent slice of rows, gathered into two columns, which is what the jobs' inner parts take.
#![tactic(auto)]

mod rows;

ghost use Rattle.std.specs.Prelude.{◌≡◌, ◌<◌, set};
ghost use Rattle.gather.specs.Most.{most_read};
ghost use Rattle.gather.specs.Gathering.{Gathered};

pub use rows::{MOST_READ, Rows};
use rules::Change;

// One row stored in place, by its link and its cost: the columns are lent, so that no row copies them.
fn put(links: &mut [u16; MOST_READ], costs: &mut [u16; MOST_READ], at: usize, link: u16, cost: u16)
    requires { at < most_read }
    ensures links { links.new ≡ set links.old at link }
    ensures costs { costs.new ≡ set costs.old at cost }
{
    links[at] = link;
    costs[at] = cost;
}

// The first rows of a batch, of too many just enough to tell. Each is read from the slice and put by its link and its cost: the search
// for the changed nodes takes the links alone, as a slice. Two local arrays and no `Rows` that grows: its ghost field would have to
// be shown at each row.
pub fn gather(batch: &[Change]) -> Rows
    ensures { Gathered batch.now result }
{
    let count = batch.len().min(MOST_READ);
    let mut link = [0u16; MOST_READ];
    let mut cost = [0u16; MOST_READ];
    for (i, row) in batch[..count].iter().enumerate() {
        put(&mut link, &mut cost, i, row.link, row.cost);
    }
    Rows { link, cost, count }
}
