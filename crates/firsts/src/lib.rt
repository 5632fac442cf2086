// The first link of every node that hangs, once the parents are right.
#![tactic(auto)]

ghost use Rattle.std.specs.Prelude.{◌≡◌};
ghost use Rattle.basics.specs.Tells.{Tells};
ghost use Rattle.rules.specs.Columns.{most_nodes};
ghost use Rattle.firsts.specs.FirstLinks.{Has, Rising, FirstBy, Standing, FirstLink, Known, Spread, FirstLinks};

use rules::NO_LINK;
use usable::Table;

// What a node's first link is by its parent link: that link where it starts at the root, else the first link of the node
// where it starts; a number that is no link's stays, as that of none does.
pub fn first_by(table: &Table, first: &[u16; 256], link: u16) -> u16
    ensures { FirstBy table.now.root table.now.starts.now first.now link result }
{
    let k = link as usize;
    if table.starts.len() <= k {
        return link;
    }
    let up = table.start(k);
    if up == table.root { link } else { first[up] }
}

// A table, each node's distance, and its parent link, by which it hangs from the root.
#[derive(Clone, Copy)]
struct Ways<'a> {
    table: &'a Table<'a>,
    dist: &'a [u32; 256],
    parent: &'a [u16; 256],
    ghost rising: { Rising table.now.root table.now.starts.now dist.now parent.now },
}

impl<'a> Ways<'a> {
    // Whether the first links that came in, which may be any numbers, are right. Each is compared with that of the node
    // above alone: where none differs, all are right, since every way up ends at the root. The first that differs ends it.
    fn firsts_stand(&self, first: &[u16; 256]) -> bool
        ensures { Tells (Standing self.now.table.now.root self.now.table.now.starts.now self.now.parent.now most_nodes first.now) result }
    {
        for v in 0..256 {
            if first[v] != first_by(self.table, first, self.parent[v]) {
                return false;
            }
        }
        true
    }

    // The first link of a node, found by going up to the root or to a node whose first link is known. Each step leads to
    // a nearer node: the distances tell that the way ends.
    fn climb(&self, first: &[u16; 256], node: usize) -> u16
        requires known { Known self.now.table.now.root self.now.table.now.starts.now self.now.parent.now first.now }
        requires hangs { Has self.now.parent.now node }
        ensures { FirstLink self.now.table.now.root self.now.table.now.starts.now self.now.parent.now node result }
    {
        let mut v = node;
        loop {
            let link = self.parent[v];
            let up = self.table.start(link as usize);
            if up == self.table.root {
                return link;
            }
            let known = first[up];
            if known != NO_LINK {
                return known;
            }
            v = up;
        }
    }

    // Writes a node's first link into it and into every node on the same way up: a loop by the distances, as above, and no range.
    fn spread(&self, first: &mut [u16; 256], node: usize, link: u16)
        requires known { Known self.now.table.now.root self.now.table.now.starts.now self.now.parent.now first.old }
        requires link { FirstLink self.now.table.now.root self.now.table.now.starts.now self.now.parent.now node link }
        ensures { Spread self.now.table.now.root self.now.table.now.starts.now self.now.parent.now node first.old first.new }
    {
        let mut v = node;
        loop {
            first[v] = link;
            v = self.table.start(self.parent[v] as usize);
            if v == self.table.root || first[v] != NO_LINK {
                return;
            }
        }
    }

    // The first link of every node that has a parent. Once a node's first link is known, no climb goes past it, so each
    // node is gone over twice at most.
    fn first_links(&self, first: &mut [u16; 256])
        requires { Known self.now.table.now.root self.now.table.now.starts.now self.now.parent.now first.old }
        ensures { FirstLinks self.now.table.now.root self.now.table.now.starts.now self.now.parent.now self.now.table.now.nodes first.new }
    {
        for v in 0..self.table.nodes {
            if self.parent[v] != NO_LINK && first[v] == NO_LINK {
                let link = self.climb(first, v);
                self.spread(first, v, link);
            }
        }
    }
}

// The first link of every node that has a parent: left as they came in, with any numbers, where all are right, as after
// most batches, and else found anew.
pub fn renew_firsts(table: &Table, dist: &[u32; 256], parent: &[u16; 256], first: &mut [u16; 256])
    requires { Rising table.now.root table.now.starts.now dist.now parent.now }
    ensures { FirstLinks table.now.root table.now.starts.now parent.now table.now.nodes first.new }
{
    let ways = Ways {
        table,
        dist,
        parent,
    };
    if ways.firsts_stand(first) {
        return;
    }
    *first = [NO_LINK; 256];
    ways.first_links(first);
}
