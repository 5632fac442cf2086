// The rows gathered of a batch, in two columns.

ghost use Rattle.std.specs.Prelude.{◌≤◌};
ghost use Rattle.gather.specs.Most.{most_read};

use batch::Columns;

// One row more than a batch may have: a batch that has it is refused, whatever stands behind it.
pub const MOST_READ: usize = 257;

// The first `count` places of both columns are rows (fixed memory, no heap). There is room for one row more than a batch may have, by which a
// batch of too many rows is told.
#[derive(Clone, Copy)]
pub struct Rows {
    pub link: [u16; MOST_READ],
    pub cost: [u16; MOST_READ],
    pub count: usize,
    pub ghost few: { count ≤ most_read },
}

impl Rows {
    ghost use Rattle.std.specs.Prelude.{◌≡◌};
    ghost use Rattle.batch.specs.Rows.{rows_of};
    ghost use Rattle.gather.specs.Gathering.{batch_of};

    // The rows as the jobs' inner parts take them.
    pub fn columns<'a>(&'a self) -> Columns<'a>
        ensures { rows_of result ≡ batch_of self.now }
    {
        Columns {
            links: &self.link[..self.count],
            costs: &self.cost[..self.count],
        }
    }
}
