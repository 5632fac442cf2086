// Judging links one by one: refusals 4 and 5.
#![tactic(auto)]

ghost use Rattle.std.specs.Prelude.{◌≡◌, ◌||◌, cond, [], ◌≤◌, ltb, length};
ghost use Rattle.rules.specs.Answers.{told};
ghost use Rattle.rules.specs.Columns.{most_links, table};
ghost use Rattle.rules.specs.Refusals.{accepted, judge_each, wrong_ends};

use rules::Refusal;

// The start or the end is no node, or the link leads from a node to itself.
pub fn wrong_ends(nodes: usize, start: u16, end: u16) -> bool
    ensures { result ≡ wrong_ends nodes start end }
{
    nodes <= start as usize || nodes <= end as usize || start == end
}

// 1 where a link's ends are wrong or it starts below the one before it, and 0 where it is right.
fn fault(nodes: u16, start: u16, end: u16, previous: u16) -> u16
    ensures { result ≡ cond (wrong_ends nodes start end || ltb start previous) 1 0 }
{
    u16::from(wrong_ends(nodes as usize, start, end) || start < previous)
}

// How many links are wrong, of which only what 0 means is promised. A count and not `any`: no link ends the pass and the
// count has 16 bits like the columns, so that the compiler judges several links at once, which is faster.
pub fn wrong_links(nodes: u16, starts: &[u16], ends: &[u16]) -> u16
    requires same_length { length starts.now ≡ length ends.now }
    requires few_links { length starts.now ≤ most_links }
    ensures { result ≡ 0 → accepted ≡ judge_each (table nodes 0 starts.now ends.now []) }
{
    let mut count: u16 = 0;
    // Nothing is below 0, so link 0, with none before it, never counts as a fall.
    let mut previous: u16 = 0;
    for i in 0..starts.len() {
        count += fault(nodes, starts[i], ends[i], previous);
        previous = starts[i];
    }
    count
}

// One pass, for a table with a wrong link: the first with wrong ends decides; a start below the one before it is
// remembered till the end.
pub fn judge_each(nodes: usize, starts: &[u16], ends: &[u16]) -> Result<(), Refusal>
    requires same_length { length starts.now ≡ length ends.now }
    requires few_links { length starts.now ≤ most_links }
    ensures { told result ≡ judge_each (table nodes 0 starts.now ends.now []) }
{
    // The first link that starts below the one before it.
    let mut fall: Option<u16> = None;
    let mut previous: u16 = 0;
    for link in 0..starts.len() {
        let start = starts[link];
        if wrong_ends(nodes, start, ends[link]) {
            return Err(Refusal::WrongEnds(link as u16));
        }
        if start < previous {
            fall = fall.or(Some(link as u16));
        }
        previous = start;
    }
    match fall {
        Some(link) => Err(Refusal::WrongOrder(link)),
        None => Ok(()),
    }
}
