//! The waiting lists of a set: for each prediction the items that its completion adds.
ghost use Rattle.std.specs.Prelude.{◌≡◌, ◌+◌, ◌++◌, ◌∷◌, ℕ, List, [], length, map, drop, slice_index_or, Some, IfOk};
ghost use Rattle.flatgrammar.specs.ItemClosures.{closure_of, AreAsks, AreOwners, AreDotLists};
ghost use Rattle.flatgrammar.specs.Positions.{In};
ghost use Rattle.flatgrammar.specs.declared.dot_list.Ask as code_ask;
ghost use Rattle.flatgrammar.specs.TableViews.{call_of};
ghost use Rattle.flatgrammar.specs.declared.tables.Tables as code_flat;
ghost use Rattle.flatgrammar.specs.declared.flat_item.Item as code_item;
ghost use Rattle.earleyitems.specs.EarleySets.{part_of, predictions_of, firsts_of, the_record, GoesOn, IsPart};
ghost use Rattle.earleyitems.specs.EarleySets.{AreSamePredictions};
ghost use Rattle.earleyitems.specs.ItemOwners.{IsOwner, AreCallersOwned, AreWaitersOwned};
ghost use Rattle.earleyitems.specs.SetViews.{expand, full};
ghost use Rattle.earleyitems.specs.Waiting.{call_site_at, item_from, AreWaiting};
ghost use Rattle.earleyitems.specs.Chosen.{callers_of, Calls, AreCalls, AreChosen};

use crate::postdot::CallingItem;
use crate::predictions::Predictions;
use crate::sets::{IndexRange, Record};
use flatgrammar::{Ask, Item, Tables, asks};
use ruletable::Memory;

/// An entry of the waiting list of a prediction. A completion of the predicted target adds the item, and looks for no
/// callers (Aycock and Horspool 2002).
#[derive(Clone, Copy)]
pub(crate) struct Waiter {
    /// The item after the call.
    pub(crate) item: Item,
    /// The index of the item's prediction in the set of its origin.
    pub(crate) owner: usize,
    /// One more than the index of the next entry, or 0.
    pub(crate) next: usize,
}

// Puts an item on the waiting list of the prediction that is called before it.
fn list_item(
    predictions: &Predictions,
    target: usize,
    item: Item,
    owner: usize,
    records: &mut [Record],
    waiters: &mut Vec<Waiter>,
) -> Result<(), Memory>
    requires { length records.old ≡ length predictions.now }
    ensures long { length records.new ≡ length records.old }
    ensures same { AreSamePredictions records.old records.new }
    ensures on { GoesOn waiters.old.items waiters.new.items }
    ensures more { IfOk result (λ done. (flat : code_flat.Tables) (seen : List code_item.Item) (step : ℕ)
        → call_of flat (item_from item step) ≡ Some (target, item.step) →
        AreWaiting flat seen predictions.now (firsts_of records.old) waiters.old.items →
        AreWaiting flat (seen ++ item_from item step ∷ []) predictions.now (firsts_of records.new) waiters.new.items) }
    ensures owners { IfOk result
        (λ done. (flat : code_flat.Tables) (rows : List (List ℕ)) → IsOwner flat rows item owner
        → AreWaitersOwned flat rows waiters.old.items → AreWaitersOwned flat rows waiters.new.items) }
{
    let Some(index) = predictions.find(target) else {
        return Ok(());
    };
    let next = records[index].first;
    waiters.push(Waiter { item, owner, next })?;
    records[index].first = waiters.len();
    Ok(())
}

// Puts the items after the call sites of a closure on the waiting lists.
fn list_call_sites(
    predictions: &Predictions,
    from: &[Ask],
    origin: usize,
    owner: usize,
    records: &mut [Record],
    waiters: &mut Vec<Waiter>,
) -> Result<(), Memory>
    requires { length records.old ≡ length predictions.now }
    ensures long { length records.new ≡ length records.old }
    ensures same { AreSamePredictions records.old records.new }
    ensures on { GoesOn waiters.old.items waiters.new.items }
    ensures more { IfOk result (λ done. (flat : code_flat.Tables) (seen : List code_item.Item) → AreAsks flat from.now →
        AreWaiting flat seen predictions.now (firsts_of records.old) waiters.old.items →
        AreWaiting flat (seen ++ map (call_site_at origin) from.now) predictions.now (firsts_of records.new)
        waiters.new.items) }
    ensures owners { IfOk result (λ done. (flat : code_flat.Tables) (rows : List (List ℕ))
        → ((site : code_ask.Ask) → In site from.now → IsOwner flat rows (call_site_at origin site) owner)
        → AreWaitersOwned flat rows waiters.old.items → AreWaitersOwned flat rows waiters.new.items) }
{
    for site in from {
        let item = Item {
            node: site.dot.node,
            step: site.next,
            origin,
        };
        list_item(predictions, site.target, item, owner, records, waiters)?;
    }
    Ok(())
}

// Puts the items after the call sites of the closures of the predictions on the waiting lists.
fn list_closures(
    flat: &Tables,
    predictions: &Predictions,
    list: &[usize],
    number: usize,
    records: &mut [Record],
    waiters: &mut Vec<Waiter>,
) -> Result<(), Memory>
    requires long { length records.old ≡ length predictions.now }
    requires lists { AreDotLists flat.now }
    requires owners { AreOwners flat.now }
    ensures long { length records.new ≡ length records.old }
    ensures same { AreSamePredictions records.old records.new }
    ensures on { GoesOn waiters.old.items waiters.new.items }
    ensures more { IfOk result (λ done. (seen : List code_item.Item)
        → AreWaiting flat.now seen predictions.now (firsts_of records.old) waiters.old.items →
        AreWaiting flat.now (seen ++ expand (closure_of flat.now) number list.now) predictions.now
        (firsts_of records.new)
        waiters.new.items) }
    ensures owners { IfOk result (λ done. (rows : List (List ℕ)) → slice_index_or rows number [] ≡ list.now
        → AreWaitersOwned flat.now rows waiters.old.items → AreWaitersOwned flat.now rows waiters.new.items) }
{
    for (owner, prediction) in list.iter().enumerate() {
        list_call_sites(
            predictions,
            asks(flat, *prediction),
            number,
            owner,
            records,
            waiters,
        )?;
    }
    Ok(())
}

// Puts the items after those that call on the waiting lists.
fn list_callers(
    predictions: &Predictions,
    callers: &[CallingItem],
    records: &mut [Record],
    waiters: &mut Vec<Waiter>,
) -> Result<(), Memory>
    requires { length records.old ≡ length predictions.now }
    ensures on { GoesOn waiters.old.items waiters.new.items }
    ensures long { length records.new ≡ length records.old }
    ensures same { AreSamePredictions records.old records.new }
    ensures more { IfOk result (λ done. (flat : code_flat.Tables) (seen : List code_item.Item)
        → AreCalls flat callers.now → AreWaiting flat seen predictions.now (firsts_of records.old) waiters.old.items →
        AreWaiting flat (seen ++ callers_of callers.now) predictions.now (firsts_of records.new) waiters.new.items) }
    ensures owners { IfOk result (λ done. (flat : code_flat.Tables) (rows : List (List ℕ))
        → AreCallersOwned flat rows callers.now → AreWaitersOwned flat rows waiters.old.items
        → AreWaitersOwned flat rows waiters.new.items) }
{
    for caller in callers {
        let item = Item {
            node: caller.at.item.node,
            step: caller.next,
            origin: caller.at.item.origin,
        };
        list_item(
            predictions,
            caller.target,
            item,
            caller.at.owner,
            records,
            waiters,
        )?;
    }
    Ok(())
}

// Fills the waiting list of each prediction. Of the items those that call are given.
fn list_all(
    flat: &Tables,
    predictions: &Predictions,
    callers: &[CallingItem],
    number: usize,
    records: &mut [Record],
    waiters: &mut Vec<Waiter>,
) -> Result<(), Memory>
    requires lists { AreDotLists flat.now }
    requires owners { AreOwners flat.now }
    requires callers { AreCalls flat.now callers.now }
    requires long { length records.old ≡ length predictions.now }
    requires none { (h : ℕ) → slice_index_or (firsts_of records.old) h 0 ≡ 0 }
    ensures long { length records.new ≡ length records.old }
    ensures same { AreSamePredictions records.old records.new }
    ensures on { GoesOn waiters.old.items waiters.new.items }
    ensures more { IfOk result (λ done. (items : List code_item.Item)
        → AreChosen (Calls flat.now) items (callers_of callers.now)
        → AreWaiting flat.now (full (closure_of flat.now) number predictions.now items) predictions.now
        (firsts_of records.new)
        waiters.new.items) }
    ensures owners { IfOk result (λ done. (rows : List (List ℕ)) → slice_index_or rows number [] ≡ predictions.now
        → AreCallersOwned flat.now rows callers.now → AreWaitersOwned flat.now rows waiters.old.items
        → AreWaitersOwned flat.now rows waiters.new.items) }
{
    list_closures(
        flat,
        predictions,
        predictions.list(),
        number,
        records,
        waiters,
    )?;
    list_callers(predictions, callers, records, waiters)?;
    Ok(())
}

// Adds the records of a set's predictions with empty waiting lists.
#[inline(always)]
fn add_records(predictions: &[usize], records: &mut Vec<Record>) -> Result<(), Memory>
    ensures more { GoesOn records.old.items records.new.items }
    ensures are { IfOk result (λ done. records.new.items ≡ records.old.items
        ++ map (λ prediction. the_record prediction 0) predictions.now) }
{
    records.reserve(predictions.len())?;
    for prediction in predictions {
        records.push_reserved(Record {
            prediction: *prediction,
            first: 0,
        });
    }
    Ok(())
}

/// Adds the records of a set's predictions, and fills the waiting list of each, after those of other sets. Returns
/// where the records stand. `callers` are those items that call.
#[inline(always)]
pub(crate) fn list_waiters(
    flat: &Tables,
    predictions: &Predictions,
    callers: &[CallingItem],
    number: usize,
    records: &mut Vec<Record>,
    waiters: &mut Vec<Waiter>,
) -> Result<IndexRange, Memory>
    requires lists { AreDotLists flat.now }
    requires owners { AreOwners flat.now }
    requires callers { AreCalls flat.now callers.now }
    ensures records { GoesOn records.old.items records.new.items }
    ensures waiters { GoesOn waiters.old.items waiters.new.items }
    ensures part { IfOk result (λ part. IsPart part (length records.new.items)) }
    ensures predictions { IfOk result (λ part. predictions_of (part_of records.new.items part) ≡ predictions.now) }
    ensures waiting { IfOk result (λ part. (items : List code_item.Item)
        → AreChosen (Calls flat.now) items (callers_of callers.now)
        → AreWaiting flat.now (full (closure_of flat.now) number predictions.now items) predictions.now
        (firsts_of (part_of records.new.items part)) waiters.new.items) }
    ensures owners { IfOk result (λ part. (rows : List (List ℕ)) → slice_index_or rows number [] ≡ predictions.now
        → AreCallersOwned flat.now rows callers.now → AreWaitersOwned flat.now rows waiters.old.items
        → AreWaitersOwned flat.now rows waiters.new.items) }
{
    let from = records.len();
    add_records(predictions.list(), records)?;
    list_all(
        flat,
        predictions,
        callers,
        number,
        &mut records[from..],
        waiters,
    )?;
    Ok(IndexRange {
        from,
        to: records.len(),
    })
}
