// The arrays of a whole tree: grown from the root, or regrown from what still stands of an old tree after costs have
// changed. All are seeds of one loop that settles distances and finds links. What is found is a built tree's parents;
// after a change a node whose old link is tight keeps that. The loop leaves guesses in `first`; after a change the old
// first links are the guesses of the nodes that don't move. Inside, the mark is the ceiling: the public functions show
// that this makes no other tree (`Level` is a clause of what they call). The arrays that are written are three parameters, for the reason that `update` gives.
#![tactic(auto)]

ghost use Rattle.std.specs.Prelude.{◌≡◌, length};
ghost use Rattle.rules.specs.Columns.{arrays};
ghost use Rattle.usable.specs.Standing.{table_at, net_at};
ghost use Rattle.level.specs.Level.{Level, Ample, leveled};
ghost use Rattle.offer.specs.Searching.{Ready, Unused};
ghost use Rattle.afoot.specs.Afoot.{Seeded, Calm, Every, Naming};
ghost use Rattle.afoot.specs.Finding.{Heard};
ghost use Rattle.lift.specs.Loose.{Rooted};
ghost use Rattle.grow.specs.Grown.{Grown, Old, Fitted, Regrown, Apart, Begun, Reseeded};

use offer::Search;
use rules::NO_LINK;
use usable::{Net, Table};

// Every reached node but the root takes its tight link of smallest number.
fn grow_level(table: &Table, dist: &mut [u32; 256], parent: &mut [u16; 256], first: &mut [u16; 256])
    requires { Level (net_at table.now) }
    ensures { Grown table.now.profile (table_at table.now) (arrays dist.new parent.new first.new) }
{
    let at = heads::first_links(table.starts);
    let net = Net {
        table: *table,
        at: &at,
    };
    let mut search = Search::new();
    search.dist = [table.profile.mark; 256];
    search.seed(table.root);
    *first = [NO_LINK; 256];
    settle::settle(&net, &mut search, first);
    *dist = search.dist;
    *parent = search.found;
    firsts::renew_firsts(table, dist, parent, first);
}

// The loop, from a seed that left an old tree's parents as they were; then these, where they are tight.
fn finish(net: &Net, search: &mut Search, parent: &mut [u16; 256], first: &mut [u16; 256])
    requires ready { Ready net.now.table search.old }
    requires level { Level (net_at net.now.table) }
    requires begun { Begun (net_at net.now.table) parent.old search.old.dist search.old.queue search.old.found }
    requires rooted { Rooted (net_at net.now.table) parent.old }
    ensures { Regrown net.now.table.profile (table_at net.now.table) parent.old (arrays search.new.dist parent.new first.new) }
{
    settle::settle(net, search, first);
    keep::keep_tight(net, &search.dist, &search.found, parent);
    firsts::renew_firsts(&net.table, &search.dist, parent, first);
}

// The links into lifted nodes are offered, and those that the rows touch: no other can offer less.
fn offer_touched(net: &Net, changed: &[u16], search: &mut Search, lifted: bool, first: &[u16; 256])
    requires ready { Ready net.now.table search.old }
    requires seeded { Seeded (net_at net.now.table) search.old.dist search.old.queue }
    requires naming { Naming (length net.now.table.starts.now) changed.now }
    requires apart { Apart (net_at net.now.table) changed.now search.old.dist search.old.queue lifted first.now }
    ensures ready { Ready net.now.table search.new }
    ensures heard { Heard (net_at net.now.table) (Calm (net_at net.now.table) search.old.dist search.old.queue) search.old.dist search.old.queue search.old.found Every search.new.dist search.new.queue search.new.found }
{
    settle::offer_into(net, search, lifted, first);
    settle::offer_rows(net, search, changed);
}

// The seed after a batch: what the rows' links no longer carry is lifted, and what the batch touched is offered. Tells
// whether the loop has to run: not where no node was lifted and none took an offer.
fn reseed(
    net: &Net,
    changed: &[u16],
    parent: &[u16; 256],
    search: &mut Search,
    first: &mut [u16; 256],
) -> bool
    requires level { Level (net_at net.now.table) }
    requires fitted { Fitted net.now.table.profile (table_at net.now.table) changed.now (arrays search.old.dist parent.now first.old) }
    requires unused { Unused search.old }
    ensures ready { Ready net.now.table search.new }
    ensures begun { Begun (net_at net.now.table) parent.now search.new.dist search.new.queue search.new.found }
    ensures reseeded { Reseeded (net_at net.now.table) parent.now search.old.dist first.old search.new.dist first.new search.new.queue result }
{
    let lifted = lift::lift_rows(net, changed, parent, search, first);
    offer_touched(net, changed, search, lifted, first);
    lifted || !search.queue.is_empty()
}

// The next tree, where the arrays come in as one that fitted before, and `changed` names the links whose cost is another.
fn regrow_level(
    table: &Table,
    changed: &[u16],
    dist: &mut [u32; 256],
    parent: &mut [u16; 256],
    first: &mut [u16; 256],
)
    requires level { Level (net_at table.now) }
    requires fitted { Fitted table.now.profile (table_at table.now) changed.now (arrays dist.old parent.old first.old) }
    ensures { Regrown table.now.profile (table_at table.now) parent.old (arrays dist.new parent.new first.new) }
{
    let at = heads::first_links(table.starts);
    let net = Net {
        table: *table,
        at: &at,
    };
    let mut search = Search::new();
    search.dist = *dist;
    if reseed(&net, changed, parent, &mut search, first) {
        finish(&net, &mut search, parent, first);
    }
    *dist = search.dist;
}

// The seed that assumes nothing of the tree: every parent is asked, and every link is offered.
fn reseed_all(net: &Net, parent: &[u16; 256], search: &mut Search, first: &mut [u16; 256])
    requires level { Level (net_at net.now.table) }
    requires old { Old net.now.table.profile (table_at net.now.table) (arrays search.old.dist parent.now first.old) }
    requires unused { Unused search.old }
    ensures ready { Ready net.now.table search.new }
    ensures begun { Begun (net_at net.now.table) parent.now search.new.dist search.new.queue search.new.found }
{
    lift::lift(net, parent, search, first);
    *first = [NO_LINK; 256];
    settle::offer_into(net, search, true, first);
}

// The next tree from arrays that needn't have fitted any.
fn mend_level(table: &Table, dist: &mut [u32; 256], parent: &mut [u16; 256], first: &mut [u16; 256])
    requires level { Level (net_at table.now) }
    requires old { Old table.now.profile (table_at table.now) (arrays dist.old parent.old first.old) }
    ensures { Regrown table.now.profile (table_at table.now) parent.old (arrays dist.new parent.new first.new) }
{
    let at = heads::first_links(table.starts);
    let net = Net {
        table: *table,
        at: &at,
    };
    let mut search = Search::new();
    search.dist = *dist;
    reseed_all(&net, parent, &mut search, first);
    finish(&net, &mut search, parent, first);
    *dist = search.dist;
}

// The table by numbers in which the mark is the ceiling.
fn at_level<'a>(table: &Table<'a>) -> Table<'a>
    ensures profile { result.profile ≡ leveled table.now.profile }
    ensures table { table_at result ≡ table_at table.now }
{
    Table {
        profile: level::leveled(table.profile),
        nodes: table.nodes,
        root: table.root,
        starts: table.starts,
        ends: table.ends,
        costs: table.costs,
    }
}

// The tree of a fresh build. Whatever the arrays held is forgotten.
pub fn grow(table: &Table, dist: &mut [u32; 256], parent: &mut [u16; 256], first: &mut [u16; 256])
    requires { Ample (net_at table.now) }
    ensures { Grown table.now.profile (table_at table.now) (arrays dist.new parent.new first.new) }
{
    grow_level(&at_level(table), dist, parent, first);
}

// The next tree under these costs, where the arrays come in as one that fitted before, and `changed` names the links whose
// cost is another.
pub fn regrow(
    table: &Table,
    changed: &[u16],
    dist: &mut [u32; 256],
    parent: &mut [u16; 256],
    first: &mut [u16; 256],
)
    requires ample { Ample (net_at table.now) }
    requires fitted { Fitted table.now.profile (table_at table.now) changed.now (arrays dist.old parent.old first.old) }
    ensures { Regrown table.now.profile (table_at table.now) parent.old (arrays dist.new parent.new first.new) }
{
    regrow_level(&at_level(table), changed, dist, parent, first);
}

// The next tree under these costs from arrays that needn't have fitted any.
pub fn mend(table: &Table, dist: &mut [u32; 256], parent: &mut [u16; 256], first: &mut [u16; 256])
    requires ample { Ample (net_at table.now) }
    requires old { Old table.now.profile (table_at table.now) (arrays dist.old parent.old first.old) }
    ensures { Regrown table.now.profile (table_at table.now) parent.old (arrays dist.new parent.new first.new) }
{
    mend_level(&at_level(table), dist, parent, first);
}
