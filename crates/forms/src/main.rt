// The two forms that C can't call, run on cases: `Tree::update` with its lent slice of rows, and the `Reader`, which
// carries the stream together with its place. A line for each call: of an update the refusal's number, the two values that it
// carries and the count, the rows of the tree that aren't empty (node:distance,parent,first), the cost column and the lent
// list; of the reader what it gives, by number, and where it then stands. tests/forms.py works the expected lines out.
#![tactic(auto)]

use reader::Reader;
use rules::{Change, Links, NO_LINK, Refusal, UNREACHED};
use stream::{Item, Read};
use tree::{NextTree, Tree};

const STARTS: [u16; 8] = [0, 0, 1, 1, 2, 2, 2, 3];

const ENDS: [u16; 8] = [1, 2, 0, 2, 0, 1, 3, 2];

const COSTS: [u16; 8] = [4, 7, 4, 2, 7, 2, 1, 1];

// What stands in a list before it is lent: no node of the cases.
const LIST: [u16; 6] = [7001, 7002, 7003, 7004, 7005, 7006];

// ---- the two forms

// The links of all cases.
fn links() -> Links<'static> {
    Links {
        nodes: 4,
        root: 0,
        starts: &STARTS,
        ends: &ENDS,
    }
}

// The rows lent as a slice.
fn by_rows(t: Tree, costs: &mut [u16], rows: [Change; 2], list: &mut [u16]) -> NextTree {
    t.update(&links(), costs, &rows, list)
}

// What a reader gives that is asked once and `more` times again, and the place at which it then stands.
fn asked(stream: &[u8], more: usize) -> Read {
    let mut step = Reader::new(stream).next();
    for _ in 0..more {
        step = step.reader.next();
    }
    Read {
        item: step.item,
        next: step.reader.place(),
    }
}

// ---- a line, printed through `io`, which has no Display

fn bar() {
    io::write_all(1, b" |");
}

fn line_end() {
    io::write_all(1, b"\n");
}

fn say_name(name: &[u8]) {
    io::write_all(1, name);
    io::write_all(1, b":");
}

fn say_number(n: u64) {
    io::write_all(1, b" ");
    io::print_decimal(1, n);
}

fn say_entry(n: u16) {
    say_number(n as u64);
}

fn say_column(column: &[u16]) {
    bar();
    for entry in column {
        say_entry(*entry);
    }
}

fn say_link(link: u16) {
    io::write_all(1, b",");
    if link == NO_LINK {
        io::write_all(1, b"-");
        return;
    }
    io::print_decimal(1, link as u64);
}

fn say_row(node: usize, dist: u32, parent: u16, first: u16) {
    if dist == UNREACHED && parent == NO_LINK && first == NO_LINK {
        return;
    }
    say_number(node as u64);
    io::write_all(1, b":");
    io::print_decimal(1, dist as u64);
    say_link(parent);
    say_link(first);
}

fn say_rows(t: Tree) {
    bar();
    for v in 0..256 {
        say_row(v, t.dist[v], t.parent[v], t.first[v]);
    }
}

fn say_answer(answer: Result<usize, Refusal>) {
    say_number(rules::number(answer) as u64);
    say_number(rules::value(answer) as u64);
    say_number(rules::second(answer) as u64);
    say_number(answer.unwrap_or(0) as u64);
}

// ---- batches

fn row(link: u16, cost: u16) -> Change {
    Change { link, cost }
}

// A batch of two rows, from a tree and the costs that stand.
fn step(name: &[u8], t: Tree, costs: &mut [u16], rows: [Change; 2]) -> Tree {
    let mut list = LIST;
    let next = by_rows(t, costs, rows, &mut list);
    say_name(name);
    say_answer(next.answer);
    say_rows(next.tree);
    say_column(costs);
    say_column(&list);
    line_end();
    next.tree
}

// From P1; the second row leaves link 2's cost as it is.
fn from_p1(name: &[u8], p1: Tree, link: u16, cost: u16) {
    let mut costs = COSTS;
    step(name, p1, &mut costs, [row(link, cost), row(2, 4)]);
}

fn in_sequence(p1: Tree) {
    let mut costs = COSTS;
    let p2 = step(b"P2", p1, &mut costs, [row(3, 5), row(0, 2)]);
    let p4 = step(b"P4", p2, &mut costs, [row(3, 6), row(2, 4)]);
    step(b"P5", p4, &mut costs, [row(3, 5), row(2, 4)]);
}

fn each_from_p1(p1: Tree) {
    from_p1(b"P6", p1, 1, 6);
    from_p1(b"P7", p1, 1, 5);
    from_p1(b"P8", p1, 0, 0);
    from_p1(b"P9", p1, 6, 0);
    from_p1(b"P10", p1, 7, 0);
    from_p1(b"a link again", p1, 2, 9);
    from_p1(b"no such link", p1, 8, 1);
}

// ---- streams

fn say_item(item: Item) {
    match item {
        Item::Network { nodes, root } => {
            say_number(1);
            say_entry(nodes);
            say_entry(root);
        }
        Item::Link { start, end, cost } => {
            say_number(2);
            say_entry(start);
            say_entry(end);
            say_entry(cost);
        }
        Item::Change { link, cost } => {
            say_number(3);
            say_entry(link);
            say_entry(cost);
        }
        Item::Apply => {
            say_number(4);
        }
        Item::Ask { node } => {
            say_number(5);
            say_entry(node);
        }
        Item::End => {
            say_number(0);
        }
        Item::UnknownKind(place) => {
            say_number(21);
            say_number(place as u64);
        }
        Item::CutShort(place) => {
            say_number(22);
            say_number(place as u64);
        }
    }
}

fn read(name: &[u8], stream: &[u8], times: usize) {
    for more in 0..times {
        let read = asked(stream, more);
        say_name(name);
        say_item(read.item);
        bar();
        say_number(read.next as u64);
        line_end();
    }
}

fn whole_and_cut() {
    let whole = [
        1u8, 0, 4, 0, 0, 2, 0, 0, 0, 1, 255, 255, 3, 1, 2, 3, 4, 4, 5, 0, 3,
    ];
    read(b"whole", &whole, 7);
    read(b"empty", &whole[..0], 2);
    read(b"cut by a byte", &whole[..20], 6);
    read(b"cut in a link", &whole[..11], 3);
    read(b"a kind byte alone", &whole[..6], 3);
}

fn damaged() {
    read(b"kind 0", &[5, 0, 1, 0, 4], 3);
    read(b"kind 6", &[4, 6, 4], 3);
    read(b"kind 255", &[255], 2);
}

fn main() {
    let p1 = Tree::build(&links(), &COSTS).tree;
    in_sequence(p1);
    each_from_p1(p1);
    whole_and_cut();
    damaged();
}
