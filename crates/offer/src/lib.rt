// The offer of a link: its start's distance plus its cost, to its end. An offer that is less is taken and brings its link,
// and the end waits; an equal one may lower the link found. In these numbers the mark is the ceiling: a sum that reaches
// it is less than no distance.
#![tactic(auto)]

ghost use Rattle.std.specs.Prelude.{◌≡◌, ◌<◌, length, set, replicate};
ghost use Rattle.rules.specs.Columns.{most_nodes};
ghost use Rattle.usable.specs.Standing.{net_at};
ghost use Rattle.queue.specs.Queue.{empty, key_of};
ghost use Rattle.offer.specs.Offer.{Offered, Noted, Lowered, Told};
ghost use Rattle.offer.specs.Searching.{Ready, Unused};

use queue::Queue;
use rules::NO_LINK;
use usable::Net;

// What a search works on: each node's distance so far, the nodes that wait, the link found for each, and the answers kept
// on links back. What is known of it and a net is a clause, `Ready`: a struct that held the net too would have to say at each
// call that the net stays.
#[derive(Drop)]
pub struct Search {
    pub dist: [u32; 256],
    pub queue: Queue,
    pub found: [u16; 256],
    pub asked: [u16; 256],
}

impl Search {
    // No node waits, and nothing was found or asked. Whoever starts it sets the distances in place.
    pub fn new() -> Search
        ensures { Unused result }
    {
        Search {
            dist: [u32::MAX; 256],
            queue: Queue::new(),
            found: [NO_LINK; 256],
            asked: [NO_LINK; 256],
        }
    }

    // The root's distance is 0, and it waits.
    pub fn seed(&mut self, root: usize)
        requires root { root < most_nodes }
        requires none { self.old.queue ≡ replicate 256 empty }
        ensures { self.new ≡ record self.old { dist = set self.old.dist root 0; queue = set self.old.queue root (key_of 0 root) } }
    {
        self.dist[root] = 0;
        self.queue.put(root, 0);
    }

    // The sum is offered to a link's end: one that is less is taken, and its link found. Whether the link is usable is asked
    // last.
    fn offer_less(&mut self, net: &Net, link: u16, sum: u64)
        requires ready { Ready net.now.table self.old }
        requires link { link < length net.now.table.starts.now }
        ensures ready { Ready net.now.table self.new }
        ensures offered { Offered (net_at net.now.table) link sum self.old.dist self.old.queue self.new.dist self.new.queue }
        ensures noted { Noted (net_at net.now.table) link sum self.old.dist self.old.found self.new.found }
    {
        let k = link as usize;
        let node = net.table.end(k);
        if sum < self.dist[node] as u64 {
            let up = asked::usable(net, &mut self.asked, k);
            if up {
                self.dist[node] = sum as u32;
                self.found[node] = link;
                self.queue.put(node, sum as u32);
            }
        }
    }

    // The same, and a sum that equals the distance of a reached node may lower the link found.
    fn heed(&mut self, net: &Net, link: u16, sum: u64)
        requires ready { Ready net.now.table self.old }
        requires link { link < length net.now.table.starts.now }
        ensures ready { Ready net.now.table self.new }
        ensures offered { Offered (net_at net.now.table) link sum self.old.dist self.old.queue self.new.dist self.new.queue }
        ensures noted { Noted (net_at net.now.table) link sum self.old.dist self.old.found self.new.found }
        ensures lowered { Lowered (net_at net.now.table) link sum self.old.dist self.new.found }
    {
        let k = link as usize;
        let node = net.table.end(k);
        if sum != self.dist[node] as u64 {
            self.offer_less(net, link, sum);
            return;
        }
        if link < self.found[node] && sum < net.table.profile.mark as u64 {
            if asked::usable(net, &mut self.asked, k) {
                self.found[node] = link;
            }
        }
    }

    // The same of any sum, for the loop: most are more than the end has, and that is told at once, before anything is handed
    // on.
    pub fn offer(&mut self, net: &Net, link: u16, sum: u64)
        requires ready { Ready net.now.table self.old }
        requires link { link < length net.now.table.starts.now }
        ensures ready { Ready net.now.table self.new }
        ensures offered { Offered (net_at net.now.table) link sum self.old.dist self.old.queue self.new.dist self.new.queue }
        ensures noted { Noted (net_at net.now.table) link sum self.old.dist self.old.found self.new.found }
        ensures lowered { Lowered (net_at net.now.table) link sum self.old.dist self.new.found }
    {
        let node = net.table.end(link as usize);
        if sum <= self.dist[node] as u64 {
            self.heed(net, link, sum);
        }
    }

    // A link is offered, unless its start is unreached: nothing is ever added to the mark. The sum is made in 64 bits, where
    // it can't wrap.
    pub fn offer_link(&mut self, net: &Net, link: u16)
        requires ready { Ready net.now.table self.old }
        requires link { link < length net.now.table.starts.now }
        ensures ready { Ready net.now.table self.new }
        ensures told { Told (net_at net.now.table) link self.old.dist self.old.queue self.old.found self.new.dist self.new.queue self.new.found }
    {
        let k = link as usize;
        let near = self.dist[net.table.start(k)];
        if near < net.table.profile.mark {
            self.heed(net, link, near as u64 + net.table.cost(k) as u64);
        }
    }
}
