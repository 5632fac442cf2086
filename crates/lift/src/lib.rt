// Which distances still stand after costs have changed: a node whose parent link no longer carries it goes to
// unreached, and so does every node that hangs on it. What holds of parents, distances and queue between two steps (`Rooted`,
// `Parents`, `Lined`, `Naming`) are clauses: each is of several values that are lent apart.
#![tactic(auto)]

ghost use Rattle.std.specs.Prelude.{◌≡◌, ◌≢◌, ◌<◌, length, get_or};
ghost use Rattle.rules.specs.Columns.{most_nodes, no_link};
ghost use Rattle.usable.specs.Standing.{net_at};
ghost use Rattle.heads.specs.Heads.{HeadIn};
ghost use Rattle.basics.specs.Tells.{Tells};
ghost use Rattle.offer.specs.Offer.{Lined};
ghost use Rattle.afoot.specs.Afoot.{Back, Naming};
ghost use Rattle.lift.specs.Loose.{Rooted, Parents, Leaves, Noted, AllStand, StandBut, StandApart, Liftable, Lifted, Fates, LiftedRows};

use offer::Search;
use queue::Queue;
use rules::NO_LINK;
use usable::Net;

// Node v, which isn't the root, waits if it is reached and its parent link doesn't carry it.
fn note_if_loose(net: &Net, v: usize, parent: &[u16; 256], dist: &[u32; 256], queue: &mut Queue)
    requires lined { Lined net.now.table.profile.mark dist.now queue.old }
    requires node { v < most_nodes }
    requires not_root { v ≢ net.now.table.root }
    ensures { Noted (net_at net.now.table) parent.now dist.now queue.old (λ u. u ≡ v) queue.new }
{
    if !carries::carries(net, parent[v], v, dist) {
        carries::note(net.table.profile.mark, v, dist, queue);
    }
}

// Each reached node but the root that its parent link doesn't carry waits.
fn note_loose(net: &Net, parent: &[u16; 256], dist: &[u32; 256], queue: &mut Queue)
    requires { Liftable (net_at net.now.table) dist.now queue.old }
    ensures { AllStand (net_at net.now.table) parent.now dist.now queue.new }
{
    for v in 0..256 {
        if v != net.table.root {
            note_if_loose(net, v, parent, dist, queue);
        }
    }
}

// The link, which may be any number, leaves node u.
fn leaves(starts: &[u16], link: u16, u: u16) -> bool
    ensures { Tells (Leaves starts.now link u) result }
{
    let k = link as usize;
    k < starts.len() && starts[k] == u
}

// A link's cost has changed: the node that hangs by it is asked.
fn note_end(net: &Net, link: u16, parent: &[u16; 256], dist: &[u32; 256], queue: &mut Queue)
    requires parents { Parents (net_at net.now.table) parent.now }
    requires lined { Lined net.now.table.profile.mark dist.now queue.old }
    requires link { link < length net.now.table.starts.now }
    ensures { Noted (net_at net.now.table) parent.now dist.now queue.old (λ u. link ≡ get_or parent.now u no_link) queue.new }
{
    let end = net.table.end(link as usize);
    if parent[end] == link {
        note_if_loose(net, end, parent, dist, queue);
    }
}

// And so is the node that hangs by a link back over it, which is its start: that link may have lost its last link back.
fn note_start(net: &Net, link: u16, parent: &[u16; 256], dist: &[u32; 256], queue: &mut Queue)
    requires parents { Parents (net_at net.now.table) parent.now }
    requires lined { Lined net.now.table.profile.mark dist.now queue.old }
    requires link { link < length net.now.table.starts.now }
    ensures { Noted (net_at net.now.table) parent.now dist.now queue.old (λ u. Back (net_at net.now.table) link (get_or parent.now u no_link)) queue.new }
{
    let table = &net.table;
    let k = link as usize;
    let start = table.start(k);
    if leaves(table.starts, parent[start], table.ends[k]) {
        note_if_loose(net, start, parent, dist, queue);
    }
}

// Each reached node waits whose parent link a row touches and that it carries no longer. Of the others nothing is asked.
fn note_rows(net: &Net, changed: &[u16], parent: &[u16; 256], dist: &[u32; 256], queue: &mut Queue)
    requires parents { Parents (net_at net.now.table) parent.now }
    requires naming { Naming (length net.now.table.starts.now) changed.now }
    requires stand { StandApart (net_at net.now.table) parent.now changed.now 0 dist.now queue.old }
    ensures { AllStand (net_at net.now.table) parent.now dist.now queue.new }
{
    for i in 0..changed.len() {
        note_end(net, changed[i], parent, dist, queue);
        note_start(net, changed[i], parent, dist, queue);
    }
}

// Node u went to unreached: each reached node that hangs on it waits. Links that leave one node follow each other.
fn note_hung_on(
    net: &Net,
    u: usize,
    first: u16,
    parent: &[u16; 256],
    dist: &[u32; 256],
    queue: &mut Queue,
)
    requires rooted { Rooted (net_at net.now.table) parent.now }
    requires first { HeadIn net.now.table.starts.now u first }
    requires stand { StandBut (net_at net.now.table) parent.now u dist.now queue.old }
    ensures { AllStand (net_at net.now.table) parent.now dist.now queue.new }
{
    let table = &net.table;
    for k in first as usize..table.starts.len() {
        if table.start(k) != u {
            return;
        }
        let end = table.end(k);
        let link = parent[end];
        if link == k as u16 {
            carries::note(table.profile.mark, end, dist, queue);
        }
    }
}

// Until no node waits: the waiting node of least distance goes to unreached, and loses its first link. By that a lifted
// node is known.
fn lift_noted(net: &Net, parent: &[u16; 256], search: &mut Search, first: &mut [u16; 256])
    requires rooted { Rooted (net_at net.now.table) parent.now }
    requires stand { AllStand (net_at net.now.table) parent.now search.old.dist search.old.queue }
    ensures lifted { Lifted (net_at net.now.table) parent.now search.new.dist search.new.queue }
    ensures fates { Fates (net_at net.now.table) search.old.dist search.new.dist first.new }
    ensures found { search.new.found ≡ search.old.found }
    ensures asked { search.new.asked ≡ search.old.asked }
{
    while let Some(u) = search.queue.pop() {
        search.dist[u] = net.table.profile.mark;
        first[u] = NO_LINK;
        note_hung_on(net, u, net.at[u], parent, &search.dist, &mut search.queue);
    }
}

// Every node's parent link is asked. What is left has a walk at most as long as its distance, over these costs and
// whatever links the parents are.
pub fn lift(net: &Net, parent: &[u16; 256], search: &mut Search, first: &mut [u16; 256])
    requires rooted { Rooted (net_at net.now.table) parent.now }
    requires liftable { Liftable (net_at net.now.table) search.old.dist search.old.queue }
    ensures lifted { Lifted (net_at net.now.table) parent.now search.new.dist search.new.queue }
    ensures found { search.new.found ≡ search.old.found }
    ensures asked { search.new.asked ≡ search.old.asked }
{
    note_loose(net, parent, &search.dist, &mut search.queue);
    lift_noted(net, parent, search, first);
}

// The same where only the parent links that the rows touch are asked, since every other carries its node. Tells whether a
// node was lifted.
pub fn lift_rows(
    net: &Net,
    changed: &[u16],
    parent: &[u16; 256],
    search: &mut Search,
    first: &mut [u16; 256],
) -> bool
    requires parents { Parents (net_at net.now.table) parent.now }
    requires naming { Naming (length net.now.table.starts.now) changed.now }
    requires stand { StandApart (net_at net.now.table) parent.now changed.now 0 search.old.dist search.old.queue }
    ensures lifted { Lifted (net_at net.now.table) parent.now search.new.dist search.new.queue }
    ensures rows { LiftedRows (net_at net.now.table) search.old.dist first.old search.new.dist first.new result }
    ensures found { search.new.found ≡ search.old.found }
    ensures asked { search.new.asked ≡ search.old.asked }
{
    note_rows(net, changed, parent, &search.dist, &mut search.queue);
    if search.queue.is_empty() {
        return false;
    }
    lift_noted(net, parent, search, first);
    true
}
