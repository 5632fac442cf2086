// A LINK and a CHANGE: judged when they are read, and entered into the lent columns where they are accepted. A refusal
// leaves every column as it was.
#![tactic(auto)]

ghost use Rattle.std.specs.Prelude.{◌≡◌, ◌-◌, ◌≤◌, length, get_or, take};
ghost use Rattle.rules.specs.Answers.{told};
ghost use Rattle.rules.specs.Columns.{most_links, most_rows};
ghost use Rattle.enter.specs.More.{entered, FirstNaming, LinkJudged, RowJudged};

use rules::Refusal;

// The start of the last link; 0 where there is none, since nothing is below 0.
fn last_start(starts: &[u16]) -> u16
    ensures { result ≡ get_or starts.now (length starts.now - 1) 0 }
{
    starts.last().copied().unwrap_or(0)
}

// Refusals 3 to 5 of the table with one link more: the links so far are accepted, so this one and the start before it
// tell what the whole table would.
fn judge_link(nodes: usize, starts: &[u16], start: u16, end: u16) -> Result<(), Refusal>
    ensures { LinkJudged nodes starts.now start end result }
{
    let place = starts.len();
    if 4096 <= place {
        return Err(Refusal::WrongColumns);
    }
    if each::wrong_ends(nodes, start, end) {
        return Err(Refusal::WrongEnds(place as u16));
    }
    if start < last_start(starts) {
        return Err(Refusal::WrongOrder(place as u16));
    }
    Ok(())
}

// LINK: the link behind the links so far, where the table takes it. The columns are lent one by one: of a struct of three `&mut`
// arrays no proof knows what they hold at its end (see `update`).
pub fn enter_link(
    nodes: usize,
    links: usize,
    start: u16,
    end: u16,
    cost: u16,
    starts: &mut [u16],
    ends: &mut [u16],
    costs: &mut [u16],
) -> Result<(), Refusal>
    requires few_links { links ≤ most_links }
    requires starts_room { length starts.old ≡ most_links }
    requires ends_room { length ends.old ≡ most_links }
    requires costs_room { length costs.old ≡ most_links }
    ensures judged { LinkJudged nodes (take links starts.old) start end result }
    ensures starts { starts.new ≡ entered (told result) starts.old links start }
    ensures ends { ends.new ≡ entered (told result) ends.old links end }
    ensures costs { costs.new ≡ entered (told result) costs.old links cost }
{
    judge_link(nodes, &starts[..links], start, end)?;
    starts[links] = start;
    ends[links] = end;
    costs[links] = cost;
    Ok(())
}

// The first of the rows that names the link.
fn first_naming(changed: &[u16], link: u16) -> Option<usize>
    ensures { FirstNaming changed.now link result }
{
    changed.iter().position(|row| *row == link)
}

// Refusals 7 to 9 of the rows with one more.
fn judge_change(links: usize, changed: &[u16], link: u16) -> Result<(), Refusal>
    ensures { RowJudged links changed.now link result }
{
    let place = changed.len();
    if 256 <= place {
        return Err(Refusal::TooManyRows);
    }
    if links <= link as usize {
        return Err(Refusal::RowNamesNoLink(place as u16));
    }
    if let Some(earlier) = first_naming(changed, link) {
        return Err(Refusal::RowNamesLinkAgain(place as u16, earlier as u16));
    }
    Ok(())
}

// CHANGE: the row behind the rows that wait, where they take it.
pub fn enter_change(
    links: usize,
    rows: usize,
    link: u16,
    cost: u16,
    changed: &mut [u16],
    newcosts: &mut [u16],
) -> Result<(), Refusal>
    requires few_rows { rows ≤ most_rows }
    requires links_room { length changed.old ≡ most_rows }
    requires costs_room { length newcosts.old ≡ most_rows }
    ensures judged { RowJudged links (take rows changed.old) link result }
    ensures links { changed.new ≡ entered (told result) changed.old rows link }
    ensures costs { newcosts.new ≡ entered (told result) newcosts.old rows cost }
{
    judge_change(links, &changed[..rows], link)?;
    changed[rows] = link;
    newcosts[rows] = cost;
    Ok(())
}
