//! Items of a set.
ghost use Rattle.std.specs.Prelude.{◌≡◌, ◌↔◌, IsTrue};
ghost use Rattle.flatgrammar.specs.Positions.{In};

use flatgrammar::Item;

/// Returns whether two items are equal.
pub(crate) fn same(a: Item, b: Item) -> bool
    ensures { IsTrue result ↔ (a ≡ b) }
{
    a.node == b.node && a.step == b.step && a.origin == b.origin
}

/// Returns whether an item stands in a list.
pub(crate) fn holds(set: &[Item], item: Item) -> bool
    ensures { IsTrue result ↔ In item set.now }
{
    for other in set {
        if same(item, *other) {
            return true;
        }
    }
    false
}
