// A table of links that was judged, and whether a link of it is usable: the one place that asks it. Whoever can settle a
// matter without asking does so first.
#![tactic(auto)]

ghost use Rattle.rules.specs.Columns.{Proper, table};
ghost use Rattle.costs.specs.Costs.{costs_of};
ghost use Rattle.heads.specs.Heads.{Heads};

use costs::Costs;
use rules::Profile;

// A table that judging accepted, with the numbers by which its costs are read.
#[derive(Clone, Copy)]
pub struct Table<'a> {
    pub profile: Profile,
    pub nodes: usize,
    pub root: usize,
    pub starts: &'a [u16],
    pub ends: &'a [u16],
    pub costs: Costs<'a>,
    pub ghost proper: { Proper (table nodes root starts.now ends.now (costs_of costs)) },
}

// The same with, for each node, the first link that leaves it.
#[derive(Clone, Copy)]
pub struct Net<'a> {
    pub table: Table<'a>,
    pub at: &'a [u16; 256],
    pub ghost heads: { Heads table.starts.now at.now },
}

impl<'a> Table<'a> {
    ghost use Rattle.std.specs.Prelude.{◌≡◌, ◌<◌, length, get_or, ltb};
    ghost use Rattle.rules.specs.Columns.{most_nodes, leads, some_leads};
    ghost use Rattle.heads.specs.Heads.{HeadIn};
    ghost use Rattle.usable.specs.Standing.{table_at, net_at};

    // The node that a link starts at.
    pub fn start(&self, k: usize) -> usize
        requires { k < length self.now.starts.now }
        ensures start { result ≡ (net_at self.now).start k }
        ensures node { result < most_nodes }
    {
        self.starts[k] as usize
    }

    // The node that it ends at.
    pub fn end(&self, k: usize) -> usize
        requires { k < length self.now.starts.now }
        ensures end { result ≡ (net_at self.now).end k }
        ensures node { result < most_nodes }
    {
        self.ends[k] as usize
    }

    pub fn cost(&self, k: usize) -> u32
        requires { k < length self.now.starts.now }
        ensures { result ≡ (net_at self.now).cost k }
    {
        self.costs.at(k)
    }

    // A link of cost 0 is down, whatever leads back.
    pub fn up(&self, k: usize) -> bool
        requires { k < length self.now.starts.now }
        ensures { result ≡ ltb 0 ((net_at self.now).cost k) }
    {
        0 < self.cost(k)
    }

    // Link k leads from one node to another, and is up.
    fn leads(&self, from: u16, to: u16, k: usize) -> bool
        requires { k < length self.now.starts.now }
        ensures { result ≡ leads (table_at self.now) from to k }
    {
        self.starts[k] == from && self.ends[k] == to && self.up(k)
    }

    // Some link does. Links that leave one node follow each other, from `head` on.
    pub fn some_leads(&self, head: u16, from: u16, to: u16) -> bool
        requires { HeadIn self.now.starts.now from head }
        ensures { result ≡ some_leads (table_at self.now) from to }
    {
        for k in head as usize..self.starts.len() {
            if self.starts[k] != from {
                return false;
            }
            if self.leads(from, to, k) {
                return true;
            }
        }
        false
    }
}

impl<'a> Net<'a> {
    ghost use Rattle.std.specs.Prelude.{◌≡◌, ◌<◌, length};
    ghost use Rattle.rules.specs.Tests.{usable};
    ghost use Rattle.usable.specs.Standing.{net_at};

    // A link is usable when its cost isn't 0 and some link back from its end to its start has a cost that isn't 0.
    pub fn usable(&self, k: usize) -> bool
        requires { k < length self.now.table.starts.now }
        ensures { result ≡ usable (net_at self.now.table) k }
    {
        let table = &self.table;
        table.up(k) && table.some_leads(self.at[table.end(k)], table.ends[k], table.starts[k])
    }
}
