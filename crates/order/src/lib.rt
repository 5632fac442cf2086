// Which records may come, and when.
#![tactic(auto)]

ghost use Rattle.std.specs.Prelude.{◌≡◌};
ghost use Rattle.order.specs.Order.{in_order};

use stream::Item;

// NETWORK comes first; then LINKs; then, from the first other record on, no more of these.
#[derive(Clone, Copy, PartialEq, Eq)]
pub enum Phase {
    Unread,
    Linking,
    Routing,
}

// Whether the item may come now; 23 is the refusal of one that may not.
pub fn in_order(phase: Phase, item: Item) -> bool
    ensures { result ≡ in_order phase item }
{
    match item {
        Item::Network { .. } => phase == Phase::Unread,
        Item::Link { .. } => phase == Phase::Linking,
        Item::Change { .. } | Item::Apply | Item::Ask { .. } | Item::End => phase != Phase::Unread,
        Item::UnknownKind(_) | Item::CutShort(_) => true,
    }
}
