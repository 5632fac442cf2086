// What each record of the stream does: to the state that is kept between records, and what it tells.
#![tactic(auto)]

ghost use Rattle.std.specs.Prelude.{◌≡◌, false, List, ℕ, [], ◌≤◌, length};
ghost use Rattle.rules.specs.Columns.{table, most_links, most_rows};
ghost use Rattle.rules.specs.Refusals.{judge_links};
ghost use Rattle.order.specs.Order.{is_unread};
ghost use Rattle.state.specs.States.{networked};
ghost use Rattle.session.specs.Holding.{Columns, TableStands, TreeStands, Lent, tree_in, Holds, lists};
ghost use Rattle.session.specs.Steps.{Begun, Applied, Ready, Stepped};
ghost use Rattle.session.specs.Parts.{LinkTaken, RowTaken};

use order::Phase;
use rules::Links;
use state::{Done, Out, State};
use stream::Item;
use tree::Tree;

// What is lent to a session: the columns of the links, the rows that wait for APPLY, and the nodes that APPLY lists.
// How many of each are there, the state says: fixed memory, no heap.
#[derive(Drop)]
pub struct Lists {
    pub starts: [u16; 4096],
    pub ends: [u16; 4096],
    pub costs: [u16; 4096],
    pub changed: [u16; 256],
    pub newcosts: [u16; 256],
    pub list: [u16; 256],
}

// NETWORK: refusals 1 and 2, which are those of a table with no links yet.
fn network(state: State, nodes: u16, root: u16) -> Done
    ensures { result ≡ networked (judge_links (table nodes root [] [] [])) state nodes root }
{
    let links = Links {
        nodes: nodes as usize,
        root: root as usize,
        starts: &[],
        ends: &[],
    };
    let answer = links::judge_links(&links, &[]);
    match answer {
        Ok(()) => state.network(links.nodes, links.root),
        Err(_) => state.refuse(rules::number(answer)),
    }
}

// LINK: refusals 3 to 5 of the table with this link as its last. The lists that it doesn't take may hold anything.
fn link(
    state: State,
    start: u16,
    end: u16,
    cost: u16,
    starts: &mut [u16],
    ends: &mut [u16],
    costs: &mut [u16],
) -> Done
    requires few_links { state.links ≤ most_links }
    requires columns { Columns starts.old ends.old costs.old }
    ensures { (changed newcosts list : List ℕ) → LinkTaken state (lists starts.old ends.old costs.old changed newcosts list) start end cost result (lists starts.new ends.new costs.new changed newcosts list) }
{
    let answer = enter::enter_link(
        state.nodes,
        state.links,
        start,
        end,
        cost,
        starts,
        ends,
        costs,
    );
    match answer {
        Ok(()) => state.link(),
        Err(_) => state.refuse(rules::number(answer)),
    }
}

// The first record after the LINKs: a fresh tree over the table that they made.
fn begin(state: State, starts: &[u16], ends: &[u16], costs: &[u16]) -> State
    requires { TableStands state starts.now ends.now costs.now }
    ensures { Begun state starts.now ends.now costs.now result }
{
    let links = state.links;
    let table = Links {
        nodes: state.nodes,
        root: state.root,
        starts: &starts[..links],
        ends: &ends[..links],
    };
    state.begin(Tree::build(&table, &costs[..links]).tree)
}

// CHANGE: refusals 7 to 9 of the rows that wait with this one as the last. The lists that it doesn't take may hold anything.
fn change(state: State, link: u16, cost: u16, changed: &mut [u16], newcosts: &mut [u16]) -> Done
    requires few_rows { state.rows ≤ most_rows }
    requires changed_long { length changed.old ≡ most_rows }
    requires newcosts_long { length newcosts.old ≡ most_rows }
    ensures { (starts ends costs list : List ℕ) → RowTaken state (lists starts ends costs changed.old newcosts.old list) link cost result (lists starts ends costs changed.new newcosts.new list) }
{
    let answer = enter::enter_change(state.links, state.rows, link, cost, changed, newcosts);
    match answer {
        Ok(()) => state.change(),
        Err(_) => state.refuse(rules::number(answer)),
    }
}

// APPLY: the update by the rows that wait. They were judged as they came, so it is never refused.
fn apply(
    state: State,
    starts: &[u16],
    ends: &[u16],
    costs: &mut [u16],
    changed: &[u16],
    newcosts: &[u16],
    list: &mut [u16],
) -> Done
    requires stands { TreeStands state starts.now ends.now costs.old changed.now newcosts.now }
    requires lent { Lent changed.now newcosts.now list.old }
    ensures { Applied state starts.now ends.now costs.old changed.now newcosts.now list.old result costs.new list.new }
{
    let links = state.links;
    let rows = state.rows;
    let table = Links {
        nodes: state.nodes,
        root: state.root,
        starts: &starts[..links],
        ends: &ends[..links],
    };
    let batch = batch::Columns {
        links: &changed[..rows],
        costs: &newcosts[..rows],
    };
    let next = state
        .tree
        .update_columns(&table, &mut costs[..links], &batch, list);
    state.apply(next.tree, next.answer.unwrap_or(0))
}

// The state that CHANGE, APPLY and ASK meet.
fn ready(
    state: State,
    starts: &[u16],
    ends: &[u16],
    costs: &[u16],
    changed: &[u16],
    newcosts: &[u16],
    list: &[u16],
) -> State
    requires holds { Holds state (lists starts.now ends.now costs.now changed.now newcosts.now list.now) }
    requires read { is_unread state.phase ≡ false }
    ensures ready { Ready state (lists starts.now ends.now costs.now changed.now newcosts.now list.now) result }
    ensures stands { tree_in result (lists starts.now ends.now costs.now changed.now newcosts.now list.now) }
{
    if state.phase == Phase::Linking {
        return begin(state, starts, ends, costs);
    }
    state
}

// What an item of the stream does. The place of a refusal is known to whoever read the item. Six slices stand beside `Lists` for a
// caller whose lists lie apart, so that it copies none.
pub fn step_lent(
    state: State,
    item: Item,
    starts: &mut [u16],
    ends: &mut [u16],
    costs: &mut [u16],
    changed: &mut [u16],
    newcosts: &mut [u16],
    list: &mut [u16],
) -> Done
    requires { Holds state (lists starts.old ends.old costs.old changed.old newcosts.old list.old) }
    ensures { Stepped state (lists starts.old ends.old costs.old changed.old newcosts.old list.old) item result (lists starts.new ends.new costs.new changed.new newcosts.new list.new) }
{
    if !order::in_order(state.phase, item) {
        return state.refuse(23);
    }
    match item {
        Item::Network { nodes, root } => network(state, nodes, root),
        Item::Link { start, end, cost } => link(state, start, end, cost, starts, ends, costs),
        Item::Change { link, cost } => {
            let at = ready(state, starts, ends, costs, changed, newcosts, list);
            change(at, link, cost, changed, newcosts)
        }
        Item::Apply => {
            let at = ready(state, starts, ends, costs, changed, newcosts, list);
            apply(at, starts, ends, costs, changed, newcosts, list)
        }
        Item::Ask { node } => {
            let at = ready(state, starts, ends, costs, changed, newcosts, list);
            Done {
                state: at,
                out: at.ask(node),
            }
        }
        Item::End => Done {
            state,
            out: Out::Nothing,
        },
        Item::UnknownKind(_) => state.refuse(21),
        Item::CutShort(_) => state.refuse(22),
    }
}

// The same over lists that lie in one struct.
pub fn step(state: State, item: Item, lists: &mut Lists) -> Done
    requires { Holds state lists.old }
    ensures { Stepped state lists.old item result lists.new }
{
    step_lent(
        state,
        item,
        &mut lists.starts,
        &mut lists.ends,
        &mut lists.costs,
        &mut lists.changed,
        &mut lists.newcosts,
        &mut lists.list,
    )
}
