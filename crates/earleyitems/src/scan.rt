//! Scans a symbol.
ghost use Rattle.std.specs.Prelude.{◌≡◌, ◌↔◌, ◌+◌, ◌^◌, ◌<◌, ◌≤◌, ℕ, true, IsTrue, IfOk, length, map, slice_get, []};
ghost use Rattle.std.specs.Prelude.{List, slice_index_or};
ghost use Rattle.std.specs.Prelude.{◌∷◌};
ghost use Rattle.flatgrammar.specs.NodeSteps.{IfSomeSet};
ghost use Rattle.flatgrammar.specs.Positions.{In, AreDifferent};
ghost use Rattle.flatgrammar.specs.declared.closure.DottedRule as code_dot;
ghost use Rattle.earleyitems.specs.ItemSets.{Adds};
ghost use Rattle.earleyitems.specs.ScannedItems.{IsScannedItem, AreScannedItems};
ghost use Rattle.earleyitems.specs.Chosen.{items_of, ReadsSome, AreChosen};
ghost use Rattle.flatgrammar.specs.TableViews.{read_of};
ghost use Rattle.flatgrammar.specs.ItemClosures.{closure_of, item_at, AreDotLists, AreOwners};
ghost use Rattle.earleyitems.specs.ItemOwners.{IsOwner, AreItemsOwned, AreReadersOwned};
ghost use Rattle.earleyitems.specs.SetViews.{expand, view};
ghost use Rattle.earleyitems.specs.EarleySets.{predictions_of};

use crate::earley_set::EarleySet;
use crate::items::Items;
use crate::postdot::OwnedItem;
use crate::sets::Record;
use flatgrammar::{DottedRule, Item, Tables, readers, reads};
use ruletable::{Letter, Memory};

/// Scans a symbol for an item.
fn scan_item(
    flat: &Tables,
    value: u32,
    item: Item,
    owner: usize,
    set: &mut Items,
) -> Result<(), Memory>
    ensures added { IfOk result (λ done. AreScannedItems flat.now value (item ∷ []) set.old.items set.new.items) }
    ensures owners { IfOk result (λ done. (rows : List (List ℕ)) → IsOwner flat.now rows item owner
        → AreItemsOwned flat.now rows set.old → AreItemsOwned flat.now rows set.new) }
{
    if reads(flat, item, value) {
        set.push(
            Item {
                node: item.node,
                step: item.step + 1,
                origin: item.origin,
            },
            owner,
        )?;
    }
    Ok(())
}

/// Scans a symbol for some items.
fn scan_items(flat: &Tables, value: u32, from: &[OwnedItem], set: &mut Items) -> Result<(), Memory>
    ensures added { IfOk result (λ done. AreScannedItems flat.now value (items_of from.now) set.old.items
        set.new.items) }
    ensures owners { IfOk result (λ done. (rows : List (List ℕ)) → AreReadersOwned flat.now rows from.now
        → AreItemsOwned flat.now rows set.old → AreItemsOwned flat.now rows set.new) }
{
    for at in from {
        scan_item(flat, value, at.item, at.owner, set)?;
    }
    Ok(())
}

/// Scans a symbol for the dotted rules of a closure.
fn scan_dots(
    flat: &Tables,
    value: u32,
    from: &[DottedRule],
    origin: usize,
    owner: usize,
    set: &mut Items,
) -> Result<(), Memory>
    ensures added { IfOk result (λ done. AreScannedItems flat.now value (map (item_at origin) from.now) set.old.items
        set.new.items) }
    ensures owners { IfOk result (λ done. (rows : List (List ℕ))
        → ((p : code_dot.DottedRule) → In p from.now → IsOwner flat.now rows (item_at origin p) owner)
        → AreItemsOwned flat.now rows set.old → AreItemsOwned flat.now rows set.new) }
{
    for dot in from {
        scan_item(
            flat,
            value,
            Item {
                node: dot.node,
                step: dot.step,
                origin,
            },
            owner,
            set,
        )?;
    }
    Ok(())
}

/// Scans a symbol for the closures of predictions.
fn scan_predictions(
    flat: &Tables,
    value: u32,
    records: &[Record],
    origin: usize,
    set: &mut Items,
) -> Result<(), Memory>
    requires lists { AreDotLists flat.now }
    requires owners { AreOwners flat.now }
    ensures added { IfOk result
        (λ done. AreScannedItems flat.now value (expand (closure_of flat.now) origin (predictions_of
        records.now)) set.old.items set.new.items) }
    ensures owners { IfOk result
        (λ done. (rows : List (List ℕ)) → slice_index_or rows origin [] ≡ predictions_of records.now
        → AreItemsOwned flat.now rows set.old → AreItemsOwned flat.now rows set.new) }
{
    for (owner, record) in records.iter().enumerate() {
        let readers = readers(flat, record.prediction, value);
        scan_dots(flat, value, readers, origin, owner, set)?;
    }
    Ok(())
}

/// Scans a symbol: adds the items that a set has after it, where there are none. Of its items those that read are
/// given.
pub(crate) fn scan<L: Letter>(
    flat: &Tables,
    letter: L,
    from: &EarleySet<'_>,
    readers: &[OwnedItem],
    origin: usize,
    set: &mut Items,
) -> Result<(), Memory>
    requires lists { AreDotLists flat.now }
    requires readers { AreChosen (ReadsSome flat.now) from.now.items (items_of readers.now) }
    requires different { AreDifferent (view flat.now origin from.now) }
    requires empty { set.old.items ≡ [] }
    requires owners { AreOwners flat.now }
    ensures added { IfOk result (λ done. Adds (IsScannedItem flat.now (L.number letter) (view flat.now origin
        from.now)) set.old.items set.new.items) }
    ensures owners { IfOk result (λ done. (rows : List (List ℕ)) → slice_index_or rows origin [] ≡ from.now.predictions
        → AreReadersOwned flat.now rows readers.now → AreItemsOwned flat.now rows set.old
        → AreItemsOwned flat.now rows set.new) }
{
    let value = letter.value();
    scan_predictions(flat, value, from.records(), origin, set)?;
    scan_items(flat, value, readers, set)?;
    Ok(())
}
