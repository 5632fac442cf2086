// A column of costs, of 16 or of 32 bits, as one list of numbers: whoever works over costs takes any width.
#![tactic(auto)]

ghost use Rattle.std.specs.Prelude.{◌≡◌, ℕ, ◌≤◌, ◌<◌, ◌^◌, length, get_or, set, map};
ghost use Rattle.costs.specs.Costs.{costs_of, in_use, Stored};

// A cost of some width.
pub trait Cost: Copy {
    ghost number: { Self → ℕ };

    ghost limit: { ℕ };

    // The cost as a number.
    fn number(self) -> u32
        ensures { result ≡ number self };

    // The cost that is this number.
    fn from_number(n: u32) -> Self
        requires { n < limit }
        ensures { number result ≡ n };
}

impl Cost for u16 {
    ghost number = { λ cost. cost };

    ghost limit = { 2 ^ 16 };

    fn number(self) -> u32 {
        self as u32
    }

    fn from_number(n: u32) -> u16 {
        n as u16
    }
}

impl Cost for u32 {
    ghost number = { λ cost. cost };

    ghost limit = { 2 ^ 32 };

    fn number(self) -> u32 {
        self
    }

    fn from_number(n: u32) -> u32 {
        n
    }
}

// A lent column of costs, of either width.
#[derive(Clone, Copy)]
pub enum Costs<'a> {
    Narrow(&'a [u16]),
    Wide(&'a [u32]),
}

impl<'a> Costs<'a> {
    // The cost at a place.
    pub fn at(&self, k: usize) -> u32
        requires { k < length (costs_of self.now) }
        ensures { result ≡ get_or (costs_of self.now) k 0 }
    {
        match *self {
            Costs::Narrow(column) => read(column, k),
            Costs::Wide(column) => read(column, k),
        }
    }
}

// The cost at a place.
fn read<C: Cost>(column: &[C], k: usize) -> u32
    requires { k < length column.now }
    ensures { result ≡ get_or (map C.number column.now) k 0 }
{
    column[k].number()
}

// Writes a cost at a place, where the column can hold it.
pub fn store<C: Cost>(column: &mut [C], k: usize, cost: u32)
    requires { (k < length column.old) × (cost < C.limit) }
    ensures { map C.number column.new ≡ set (map C.number column.old) k cost }
{
    column[k] = C::from_number(cost);
}

// Writes a cost at a place of the column in use, of two that are lent: the wide one where it has places, else the narrow one. It is
// for a caller that doesn't know which; one that does calls `store`.
pub fn store_in_use(narrow: &mut [u16], wide: &mut [u32], k: usize, cost: u32)
    requires within { k < length (in_use narrow.old wide.old) }
    requires fits { length wide.old ≡ 0 → cost < 2 ^ 16 }
    ensures { Stored narrow.old wide.old k cost narrow.new wide.new }
{
    if wide.len() == 0 {
        store(narrow, k, cost);
    } else {
        store(wide, k, cost);
    }
}
