// What a job refuses, what a batch holds and what numbers a profile has. What they mean stands in specs/.
#![tactic(auto)]

ghost use Rattle.std.specs.Prelude.{◌≡◌};
ghost use Rattle.rules.specs.Columns.{narrow, arrays, Whole};
ghost use Rattle.rules.specs.Answers.{number_of, value_of, second_of};

// The distance of an unreached node, and "no link" where a link number is expected.
pub const UNREACHED: u32 = 16_777_215;

pub const NO_LINK: u16 = 65_535;

// The refusals of the scope's table, with the values that they carry. A job answers `Ok(())` where it refuses nothing.
#[derive(Clone, Copy, PartialEq, Eq)]
pub enum Refusal {
    WrongNodeCount,
    WrongRoot,
    WrongColumns,
    // The first link whose start or end is no node, or that leads from a node to itself.
    WrongEnds(u16),
    // The first link whose start is below the one before it.
    WrongOrder(u16),
    // The smallest node that breaks a rule.
    TreeUnfit(u16),
    TooManyRows,
    // The first bad row: it names no link, or a link of an earlier row, and then the earliest such row.
    RowNamesNoLink(u16),
    RowNamesLinkAgain(u16, u16),
    AskedNoNode,
    AskedUnreached,
    ListTooShort,
}

// A table of links as it is lent, its costs aside, since an update writes those: the node count, the root, and where each link starts and ends. Any numbers
// may stand in it.
#[derive(Clone, Copy)]
pub struct Links<'a> {
    pub nodes: usize,
    pub root: usize,
    pub starts: &'a [u16],
    pub ends: &'a [u16],
}

// A node's row in a tree: its distance, its parent link and its first link.
#[derive(Clone, Copy, PartialEq, Eq)]
pub struct Row {
    pub dist: u32,
    pub parent: u16,
    pub first: u16,
}

// A tree as its three arrays are lent. Any numbers may stand in it.
#[derive(Clone, Copy)]
pub struct Arrays<'a> {
    pub dist: &'a [u32; 256],
    pub parent: &'a [u16; 256],
    pub first: &'a [u16; 256],
    pub ghost whole: { Whole (arrays dist.now parent.now first.now) },
}

impl<'a> Arrays<'a> {
    ghost use Rattle.std.specs.Prelude.{◌≡◌, ◌<◌};
    ghost use Rattle.rules.specs.Columns.{most_nodes};
    ghost use Rattle.rules.specs.Lent.{arrays_of, row_at};

    // The row of a node.
    pub fn row(&self, node: usize) -> Row
        requires { node < most_nodes }
        ensures { result ≡ row_at (arrays_of self.now) node }
    {
        Row {
            dist: self.dist[node],
            parent: self.parent[node],
            first: self.first[node],
        }
    }
}

// The numbers by which a table's costs are read: the largest cost, the sum from which on a path is no route, and the
// distance of an unreached node.
#[derive(Clone, Copy)]
pub struct Profile {
    pub most: u32,
    pub ceiling: u64,
    pub mark: u32,
}

// The profile of 16-bit costs.
pub fn narrow() -> Profile
    ensures { result ≡ narrow }
{
    Profile {
        most: 65_535,
        ceiling: 8_589_934_592,
        mark: UNREACHED,
    }
}

// A row of a batch.
#[derive(Clone, Copy)]
pub struct Change {
    pub link: u16,
    pub cost: u16,
}

// The refusal's number in the scope's table, and 0 where nothing is refused: by a match, since `as` gives no number of an enum with
// values. What an accepted job hands back beside is its own: a count, or nothing.
pub fn number<A: Copy>(answer: Result<A, Refusal>) -> u16
    ensures { result ≡ number_of answer }
{
    match answer {
        Ok(_) => 0,
        Err(Refusal::WrongNodeCount) => 1,
        Err(Refusal::WrongRoot) => 2,
        Err(Refusal::WrongColumns) => 3,
        Err(Refusal::WrongEnds(_)) => 4,
        Err(Refusal::WrongOrder(_)) => 5,
        Err(Refusal::TreeUnfit(_)) => 6,
        Err(Refusal::TooManyRows) => 7,
        Err(Refusal::RowNamesNoLink(_)) => 8,
        Err(Refusal::RowNamesLinkAgain(_, _)) => 9,
        Err(Refusal::AskedNoNode) => 10,
        Err(Refusal::AskedUnreached) => 11,
        Err(Refusal::ListTooShort) => 12,
    }
}

// What the refusal carries, and 0 where it carries nothing.
pub fn value<A: Copy>(answer: Result<A, Refusal>) -> u16
    ensures { result ≡ value_of answer }
{
    match answer {
        Err(Refusal::WrongEnds(link) | Refusal::WrongOrder(link)) => link,
        Err(Refusal::TreeUnfit(node)) => node,
        Err(Refusal::RowNamesNoLink(row) | Refusal::RowNamesLinkAgain(row, _)) => row,
        _ => 0,
    }
}

// The second value that the refusal carries, and 0 where it carries none.
pub fn second<A: Copy>(answer: Result<A, Refusal>) -> u16
    ensures { result ≡ second_of answer }
{
    match answer {
        Err(Refusal::RowNamesLinkAgain(_, earlier)) => earlier,
        _ => 0,
    }
}
