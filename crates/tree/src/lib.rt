// The tree of shortest routes, which travels by value, and the jobs over it, which lend its arrays to those that do the work.
#![tactic(auto)]

ghost use Rattle.std.specs.Prelude.{◌≡◌};
ghost use Rattle.rules.specs.Answers.{told, count_in};
ghost use Rattle.rules.specs.Columns.{empty_tree};
ghost use Rattle.rules.specs.Lent.{table_of, arrays_of as lent_of};
ghost use Rattle.rules.specs.Refusals.{judge_tree};
ghost use Rattle.rules.specs.Jobs.{Built, Updated, Pathed};
ghost use Rattle.batch.specs.Rows.{rows_of};
ghost use Rattle.tree.specs.Value.{arrays_of, with_row};

use batch::Columns;
use rules::{Arrays, Change, Links, NO_LINK, Refusal, Row, UNREACHED};

// For each of 256 nodes a distance, a parent link and a first link. Any numbers may stand in it: every job judges it.
#[derive(Clone, Copy)]
pub struct Tree {
    pub dist: [u32; 256],
    pub parent: [u16; 256],
    pub first: [u16; 256],
}

// What a fresh build hands back: the empty tree where it refuses.
#[derive(Clone, Copy)]
pub struct FreshTree {
    pub tree: Tree,
    pub answer: Result<(), Refusal>,
}

// What an update hands back: how many nodes changed, and where it refuses the tree as it came.
#[derive(Clone, Copy)]
pub struct NextTree {
    pub tree: Tree,
    pub answer: Result<usize, Refusal>,
}

impl Tree {
    // Every node unreached, and no links.
    pub fn empty() -> Tree
        ensures { arrays_of result ≡ empty_tree }
    {
        Tree {
            dist: [UNREACHED; 256],
            parent: [NO_LINK; 256],
            first: [NO_LINK; 256],
        }
    }

    // The tree with one node's row set; a node that the tree has no row for changes nothing.
    pub fn set_row(mut self, node: usize, row: Row) -> Tree
        ensures { arrays_of result ≡ with_row (arrays_of self) node row.dist row.parent row.first }
    {
        if node < 256 {
            self.dist[node] = row.dist;
            self.parent[node] = row.parent;
            self.first[node] = row.first;
        }
        self
    }

    // The arrays, lent.
    fn arrays<'a>(&'a self) -> Arrays<'a>
        ensures { lent_of result ≡ arrays_of self.now }
    {
        Arrays {
            dist: &self.dist,
            parent: &self.parent,
            first: &self.first,
        }
    }

    // Judging a tree: refusals 1 to 6.
    pub fn judge(self, links: &Links, costs: &[u16]) -> Result<(), Refusal>
        ensures { told result ≡ judge_tree (table_of links.now costs.now) (arrays_of self) }
    {
        fit::judge_rows(links, costs, &self.arrays())
    }

    // Fresh build: refusals 1 to 5; a refused build hands back the empty tree.
    pub fn build(links: &Links, costs: &[u16]) -> FreshTree
        ensures { Built (table_of links.now costs.now) (told result.answer) (arrays_of result.tree) }
    {
        let mut tree = Tree::empty();
        let answer = build::build(
            links,
            costs,
            &mut tree.dist,
            &mut tree.parent,
            &mut tree.first,
        );
        FreshTree { tree, answer }
    }

    // Update: refusals 1 to 9 and 12. An accepted batch writes its costs and lists the changed nodes, which are counted; a
    // refused one leaves tree, costs and list as they came.
    pub fn update(
        self,
        links: &Links,
        costs: &mut [u16],
        batch: &[Change],
        list: &mut [u16],
    ) -> NextTree
        ensures { Updated (table_of links.now costs.old) (arrays_of self) batch.now list.old (told result.answer) (arrays_of result.tree) costs.new list.new (count_in result.answer) }
    {
        let rows = gather::gather(batch);
        self.update_columns(links, costs, &rows.columns(), list)
    }

    // The same, for a batch that comes as two columns, a link and a new cost for each row.
    pub fn update_columns(
        mut self,
        links: &Links,
        costs: &mut [u16],
        batch: &Columns,
        list: &mut [u16],
    ) -> NextTree
        ensures { Updated (table_of links.now costs.old) (arrays_of self) (rows_of batch.now) list.old (told result.answer) (arrays_of result.tree) costs.new list.new (count_in result.answer) }
    {
        let answer = update::update(
            links,
            costs,
            batch,
            &mut self.dist,
            &mut self.parent,
            &mut self.first,
            list,
        );
        NextTree { tree: self, answer }
    }

    // Path: refusals 1 to 6 and 10 to 12. The links from the root to the node stand at the front of the list then, and are
    // counted.
    pub fn path(
        self,
        links: &Links,
        costs: &[u16],
        node: usize,
        list: &mut [u16],
    ) -> Result<usize, Refusal>
        ensures { Pathed (table_of links.now costs.now) (arrays_of self) node list.old (told result) list.new (count_in result) }
    {
        route::path(links, costs, &self.arrays(), node, list)
    }
}
