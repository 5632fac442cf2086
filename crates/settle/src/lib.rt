// The loop that finds the least sums of costs, whoever starts it: take the waiting node of least distance, and offer
// its distance plus the cost over each link that leaves it; a node that takes an offer waits. Beside the distances stand
// the links that the offers came by. In the numbers that the loop is given the mark is the ceiling.
#![tactic(auto)]

ghost use Rattle.std.specs.Prelude.{◌≡◌, ◌+◌, ◌<◌, length};
ghost use Rattle.usable.specs.Standing.{net_at};
ghost use Rattle.level.specs.Level.{Level};
ghost use Rattle.offer.specs.Searching.{Ready};
ghost use Rattle.afoot.specs.Afoot.{Seeded, Calm, Partly, Every, Untouched, Naming, Afoot, Settled};
ghost use Rattle.afoot.specs.Finding.{Taken, Served, Heard, CalmOr, Comes};

use offer::Search;
use rules::NO_LINK;
use usable::Net;

// Each link that leaves node u is offered. The sum is made in 64 bits, where it can't wrap.
fn offer_from(net: &Net, search: &mut Search, u: usize)
    requires ready { Ready net.now.table search.old }
    requires taken { Taken (net_at net.now.table) u search.old.dist search.old.queue }
    ensures ready { Ready net.now.table search.new }
    ensures served { Served (net_at net.now.table) u search.old.dist search.old.queue search.old.found search.new.dist search.new.queue search.new.found }
{
    let near = search.dist[u] as u64;
    for k in net.at[u] as usize..net.table.starts.len() {
        if net.table.start(k) != u {
            return;
        }
        search.offer(net, k as u16, near + net.table.cost(k) as u64);
    }
}

// Until no node waits. With each node that is taken, its first link is guessed from those of the nodes taken before it.
// Nothing is promised of guesses: whoever hangs the nodes asks in one pass whether they are right.
pub fn settle(net: &Net, search: &mut Search, guesses: &mut [u16; 256])
    requires ready { Ready net.now.table search.old }
    requires level { Level (net_at net.now.table) }
    requires afoot { Afoot (net_at net.now.table) search.old.dist search.old.queue }
    ensures ready { Ready net.now.table search.new }
    ensures settled { Settled (net_at net.now.table) search.new.dist search.new.queue }
    ensures comes { Comes (net_at net.now.table) search.old.dist search.old.queue search.old.found search.new.dist search.new.found }
{
    // A copy of its own, which no write to the search can change, so that its parts stay in registers.
    let own = *net;
    while let Some(u) = search.queue.pop() {
        guesses[u] = firsts::first_by(&own.table, guesses, search.found[u]);
        offer_from(&own, search, u);
    }
}

// Each link into a node without a first link is offered, if nodes were lifted: those are among them.
pub fn offer_into(net: &Net, search: &mut Search, lifted: bool, first: &[u16; 256])
    requires ready { Ready net.now.table search.old }
    requires seeded { Seeded (net_at net.now.table) search.old.dist search.old.queue }
    ensures ready { Ready net.now.table search.new }
    ensures heard { Heard (net_at net.now.table) (Calm (net_at net.now.table) search.old.dist search.old.queue) search.old.dist search.old.queue search.old.found (CalmOr (net_at net.now.table) search.old.dist search.old.queue lifted first.now) search.new.dist search.new.queue search.new.found }
{
    if !lifted {
        return;
    }
    for k in 0..net.table.starts.len() {
        if first[net.table.end(k)] == NO_LINK {
            search.offer_link(net, k as u16);
        }
    }
}

// The link of the i-th row is offered, and each that leads back over it: what the row did to its link may bring those up.
// They are among the links that leave its end, which follow each other.
fn offer_row(net: &Net, search: &mut Search, changed: &[u16], i: usize)
    requires ready { Ready net.now.table search.old }
    requires partly { Partly (net_at net.now.table) (Untouched (net_at net.now.table) changed.now i) search.old.dist search.old.queue }
    requires naming { Naming (length net.now.table.starts.now) changed.now }
    requires row { i < length changed.now }
    ensures ready { Ready net.now.table search.new }
    ensures heard { Heard (net_at net.now.table) (Untouched (net_at net.now.table) changed.now i) search.old.dist search.old.queue search.old.found (Untouched (net_at net.now.table) changed.now (i + 1)) search.new.dist search.new.queue search.new.found }
{
    let row = changed[i] as usize;
    let table = &net.table;
    let start = table.start(row);
    let end = table.end(row);
    search.offer_link(net, changed[i]);
    for k in net.at[end] as usize..table.starts.len() {
        if table.start(k) != end {
            return;
        }
        if table.end(k) == start {
            search.offer_link(net, k as u16);
        }
    }
}

// The links of all rows and those back over them are offered.
pub fn offer_rows(net: &Net, search: &mut Search, changed: &[u16])
    requires ready { Ready net.now.table search.old }
    requires partly { Partly (net_at net.now.table) (Untouched (net_at net.now.table) changed.now 0) search.old.dist search.old.queue }
    requires naming { Naming (length net.now.table.starts.now) changed.now }
    ensures ready { Ready net.now.table search.new }
    ensures heard { Heard (net_at net.now.table) (Untouched (net_at net.now.table) changed.now 0) search.old.dist search.old.queue search.old.found Every search.new.dist search.new.queue search.new.found }
{
    for i in 0..changed.len() {
        offer_row(net, search, changed, i);
    }
}
