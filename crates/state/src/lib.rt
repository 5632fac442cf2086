// What is kept between records, what a record tells, and what becomes of the state.
#![tactic(auto)]

ghost use Rattle.std.specs.Prelude.{◌≡◌, ◌≤◌, ◌<◌};
ghost use Rattle.rules.specs.Refusals.{accepted};
ghost use Rattle.stream.specs.Records.{is_record};
ghost use Rattle.state.specs.States.{unread, refusing, networked, linked, changing, begun, applied, asked, is_refusal, goes_on};

use order::Phase;
use stream::Item;
use tree::Tree;

// What is kept between records, beside the lent columns: how many links stand in them, how many rows wait for APPLY,
// and the tree, which means something while routing.
#[derive(Clone, Copy)]
pub struct State {
    pub phase: Phase,
    pub nodes: usize,
    pub root: usize,
    pub links: usize,
    pub rows: usize,
    pub tree: Tree,
}

// What a record tells. The changed nodes themselves stand in the lent list.
#[derive(Clone, Copy)]
pub enum Out {
    Nothing,
    Row {
        node: u16,
        dist: u32,
        parent: u16,
        first: u16,
    },
    Changed {
        count: usize,
    },
    // The scope's number, and no enum: `networked`, `linked` and `changing` (specs/States.antt) hand on the number of a verdict,
    // whatever it is, and the theorems of `outcomes` speak of it.
    Refused {
        number: u16,
    },
}

#[derive(Clone, Copy)]
pub struct Done {
    pub state: State,
    pub out: Out,
}

impl State {
    // Nothing read yet.
    pub fn start() -> State
        ensures { result ≡ unread }
    {
        State {
            phase: Phase::Unread,
            nodes: 0,
            root: 0,
            links: 0,
            rows: 0,
            tree: Tree::empty(),
        }
    }

    // A refusal leaves the state as it is.
    pub fn refuse(self, number: u16) -> Done
        ensures { result ≡ refusing self number }
    {
        Done {
            state: self,
            out: Out::Refused { number },
        }
    }

    // NETWORK, accepted: no links yet.
    pub fn network(self, nodes: usize, root: usize) -> Done
        ensures { result ≡ networked accepted self nodes root }
    {
        Done {
            state: State {
                phase: Phase::Linking,
                nodes,
                root,
                links: 0,
                rows: 0,
                ..self
            },
            out: Out::Nothing,
        }
    }

    // LINK, accepted: one link more.
    pub fn link(mut self) -> Done
        requires { self.links < 4096 }
        ensures { result ≡ linked accepted self }
    {
        self.links += 1;
        Done {
            state: self,
            out: Out::Nothing,
        }
    }

    // CHANGE, accepted: one more row waits.
    pub fn change(mut self) -> Done
        requires { self.rows < 256 }
        ensures { result ≡ changing accepted self }
    {
        self.rows += 1;
        Done {
            state: self,
            out: Out::Nothing,
        }
    }

    // The first record after the LINKs: a fresh tree.
    pub fn begin(self, tree: Tree) -> State
        ensures { result ≡ begun self tree }
    {
        State {
            phase: Phase::Routing,
            tree,
            ..self
        }
    }

    // APPLY: the next tree and how many nodes changed. No row waits then.
    pub fn apply(mut self, tree: Tree, count: usize) -> Done
        ensures { result ≡ applied self tree count }
    {
        self.tree = tree;
        self.rows = 0;
        Done {
            state: self,
            out: Out::Changed { count },
        }
    }

    // ASK: refusal 10, or the node's row.
    pub fn ask(self, node: u16) -> Out
        requires { self.nodes ≤ 256 }
        ensures { result ≡ asked self node }
    {
        let place = node as usize;
        if self.nodes <= place {
            return Out::Refused { number: 10 };
        }
        Out::Row {
            node,
            dist: self.tree.dist[place],
            parent: self.tree.parent[place],
            first: self.tree.first[place],
        }
    }
}

// Whether there is more after an item: not at the end, and not after a refusal.
pub fn goes_on(item: Item, out: Out) -> bool
    ensures { result ≡ goes_on item out }
{
    let ends = matches!(item, Item::End | Item::UnknownKind(_) | Item::CutShort(_));
    let refuses = matches!(out, Out::Refused { .. });
    !ends && !refuses
}
