// Whether a link is usable, asked of many links that leave one node: for each end the last answer is kept, and for which
// start. So of thousands of links between two nodes one alone goes looking for a link back.
#![tactic(auto)]

ghost use Rattle.std.specs.Prelude.{◌≡◌, ◌<◌, length};
ghost use Rattle.rules.specs.Columns.{most_nodes, some_leads};
ghost use Rattle.rules.specs.Tests.{usable};
ghost use Rattle.heads.specs.Heads.{HeadIn};
ghost use Rattle.usable.specs.Standing.{table_at, net_at};
ghost use Rattle.asked.specs.Asked.{kept, Kept};

use usable::{Net, Table};

// An answer as it is kept, with its node in one number of 16 bits: fixed memory.
fn kept(start: u16, answer: bool) -> u16
    requires { start < most_nodes }
    ensures { result ≡ kept start answer }
{
    start * 2 + u16::from(answer)
}

// Some link that is up leads from `end` to `start`. The answers kept are a plain array, and `Kept` is a clause: a struct that held
// the table beside them would have to say at each call that the table stays, a clause for a clause.
fn leads_back(table: &Table, head: u16, asked: &mut [u16; 256], start: u16, end: u16) -> bool
    requires kept { Kept (table_at table.now) asked.old }
    requires start { start < most_nodes }
    requires end { end < most_nodes }
    requires head { HeadIn table.now.starts.now end head }
    ensures leads { result ≡ some_leads (table_at table.now) end start }
    ensures kept { Kept (table_at table.now) asked.new }
{
    let node = end as usize;
    let last = asked[node];
    if last == kept(start, true) {
        return true;
    }
    if last == kept(start, false) {
        return false;
    }
    let answer = table.some_leads(head, end, start);
    asked[node] = kept(start, answer);
    answer
}

// Link k is usable.
pub fn usable(net: &Net, asked: &mut [u16; 256], k: usize) -> bool
    requires kept { Kept (table_at net.now.table) asked.old }
    requires link { k < length net.now.table.starts.now }
    ensures usable { result ≡ usable (net_at net.now.table) k }
    ensures kept { Kept (table_at net.now.table) asked.new }
{
    let table = &net.table;
    table.up(k)
        && leads_back(
            table,
            net.at[table.end(k)],
            asked,
            table.starts[k],
            table.ends[k],
        )
}
