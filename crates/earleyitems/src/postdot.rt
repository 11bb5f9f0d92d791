//! The items of a set by what comes after their dot: a call, or symbols.
ghost use Rattle.std.specs.Prelude.{◌≡◌, ◌++◌, ◌∷◌, ℕ, List, [], IsTrue, IfOk};
ghost use Rattle.flatgrammar.specs.TableViews.{call_of};
ghost use Rattle.flatgrammar.specs.declared.flat_item.Item as code_item;
ghost use Rattle.flatgrammar.specs.declared.tables.Tables as code_flat;
ghost use Rattle.earleyitems.specs.Chosen.{items_of, ReadsSome, AreChosen, AreCallers};
ghost use Rattle.earleyitems.specs.ItemOwners.{IsOwner, AreCallersOwned, AreReadersOwned};

use flatgrammar::Item;
use ruletable::Memory;
use std::alloc::Global;

/// An item with its owner.
#[derive(Clone, Copy)]
pub(crate) struct OwnedItem {
    /// The item.
    pub(crate) item: Item,
    /// The index of its prediction in the set of its origin.
    pub(crate) owner: usize,
}

/// An item that calls a target.
#[derive(Clone, Copy)]
pub(crate) struct CallingItem {
    /// The item.
    pub(crate) at: OwnedItem,
    /// The target that it calls.
    pub(crate) target: usize,
    /// The step after the call.
    pub(crate) next: usize,
}

/// The items of a set by the symbol after their dot. An item that only completes is in neither list.
#[derive(Drop)]
pub(crate) struct Postdot {
    /// The items that call a target.
    pub(crate) callers: Vec<CallingItem>,
    /// The items that may read a symbol.
    pub(crate) readers: Vec<OwnedItem>,
}

impl Postdot {
    /// Returns no items. It takes no memory.
    pub(crate) fn new(alloc: Global) -> Postdot {
        Postdot {
            callers: Vec::new(alloc),
            readers: Vec::new(alloc),
        }
    }
}

/// Adds an item if it calls; what it calls is given.
pub(crate) fn keep_caller(
    at: OwnedItem,
    called: Option<(usize, usize)>,
    callers: &mut Vec<CallingItem>,
) -> Result<(), Memory>
    ensures chosen { IfOk result (λ done. (flat : code_flat.Tables) (seen : List code_item.Item)
        → called ≡ call_of flat at.item → AreCallers flat seen callers.old.items
        → AreCallers flat (seen ++ at.item ∷ []) callers.new.items) }
    ensures owners { IfOk result (λ done. (flat : code_flat.Tables) (rows : List (List ℕ))
        → IsOwner flat rows at.item at.owner → AreCallersOwned flat rows callers.old.items
        → AreCallersOwned flat rows callers.new.items) }
{
    match called {
        Some((target, next)) => {
            callers.push(CallingItem { at, target, next })?;
            Ok(())
        }
        None => Ok(()),
    }
}

/// Adds an item if it may read a symbol, as is given.
pub(crate) fn keep_reader(
    at: OwnedItem,
    reads: bool,
    readers: &mut Vec<OwnedItem>,
) -> Result<(), Memory>
    ensures chosen { IfOk result (λ done. (flat : code_flat.Tables) (seen : List code_item.Item)
        → (ReadsSome flat at.item → IsTrue reads) → AreChosen (ReadsSome flat) seen (items_of readers.old.items)
        → AreChosen (ReadsSome flat) (seen ++ at.item ∷ []) (items_of readers.new.items)) }
    ensures owners { IfOk result (λ done. (flat : code_flat.Tables) (rows : List (List ℕ))
        → IsOwner flat rows at.item at.owner → AreReadersOwned flat rows readers.old.items
        → AreReadersOwned flat rows readers.new.items) }
{
    if reads {
        readers.push(at)?;
    }
    Ok(())
}
