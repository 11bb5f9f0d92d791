//! Fills an item set.
ghost use Rattle.std.specs.Prelude.{◌≡◌, ◌↔◌, ◌+◌, ◌^◌, ◌<◌, ◌≤◌, true, IsTrue, IfOk, IfSome, length, map, slice_get};
ghost use Rattle.std.specs.Prelude.{Some, None, List, [], ◌∷◌, ◌++◌, ℕ};
ghost use Rattle.flatgrammar.specs.Positions.{In, AreDifferent};
ghost use Rattle.flatgrammar.specs.NodeSteps.{flat_of};
ghost use Rattle.flatgrammar.specs.TableViews.{GiveTargets, AreNulls, null_of, call_of, done_of, takes_of};
ghost use Rattle.earleyitems.specs.Closed.{Hold, HoldAll, Keeps, IsClosed};
ghost use Rattle.earleyitems.specs.Worklist.{AdvancesNullable};
ghost use Rattle.earleyitems.specs.ItemSets.{Adds, IsAdvanced, waiting_in, IsCompleted};
ghost use Rattle.flatgrammar.specs.ItemClosures.{closure_of, item_at, begin_count, IsPrediction, IsLate, AreTables};
ghost use Rattle.flatgrammar.specs.ItemClosures.{AreAlone, AreOwners};
ghost use Rattle.flatgrammar.specs.declared.closure.DottedRule as code_dot;
ghost use Rattle.earleyitems.specs.Waiting.{Chain, AreWaiting, AreWaitingAll, BeginHere, BeginAll};
ghost use Rattle.flatgrammar.specs.declared.flat_item.Item as code_item;
ghost use Rattle.flatgrammar.specs.declared.tables.Tables as code_flat;
ghost use Rattle.earleyitems.specs.Chosen.{items_of, ReadsSome, AreChosen, AreCallers};
ghost use Rattle.earleyitems.specs.ItemOwners.{prediction_rows, prediction_rows_with, IsOwner, IsOwnerThere};
ghost use Rattle.earleyitems.specs.ItemOwners.{HavePredictions, AreItemsOwned};
ghost use Rattle.earleyitems.specs.ItemOwners.{AreReadersOwned, AreCallersOwned, AreFirstOwned, AreSetsOwned};
ghost use Rattle.earleyitems.specs.SetViews.{expand, full, view, views, IsPredictedTarget, MovesOverNullable};
ghost use Rattle.earleyitems.specs.SetViews.{IsAddedFor, IsWorklist};

use crate::items::Items;
use crate::postdot::{OwnedItem, Postdot, keep_caller, keep_reader};
use crate::predictions::Predictions;
use crate::sets::Sets;
use crate::waiters::Waiter;
use flatgrammar::{
    DottedRule, Item, Operation, Tables, call, calls, dots, null, operation_of, passes, sole_caller,
};
use ruletable::Memory;

/// Adds the items of a waiting list from a link on.
#[inline(always)]
fn complete_listed(waiters: &[Waiter], first: usize, set: &mut Items) -> Result<(), Memory>
    requires { (items : List code_item.Item) × (Chain waiters.now first items) }
    ensures added { IfOk result (λ done. (items : List code_item.Item) → Chain waiters.now first items
        → Adds (λ a. In a items) set.old.items set.new.items) }
    ensures owners { IfOk result (λ done. (flat : code_flat.Tables) (rows : List (List ℕ))
        → AreFirstOwned flat rows waiters.now first → AreItemsOwned flat rows set.old
        → AreItemsOwned flat rows set.new) }
{
    let mut at = first;
    while at > 0 {
        let wait = waiters[at - 1];
        set.add(wait.item, wait.owner)?;
        at = set.skip_from(waiters, wait.next);
    }
    Ok(())
}

/// Completes an item's target: advances the one dotted rule that alone calls the target, or else the target's waiting
/// list in the set of the item's origin. Where that is the set in work, nothing waits.
#[inline(always)]
fn complete_target(flat: &Tables, sets: &Sets, at: OwnedItem, set: &mut Items) -> Result<(), Memory>
    requires alone { AreAlone flat.now }
    requires begun { BeginAll flat.now sets.now }
    requires waiting { AreWaitingAll flat.now sets.now }
    requires owners { AreOwners flat.now }
    requires owner { IsOwnerThere flat.now sets.now at.item at.owner }
    requires owned { AreSetsOwned flat.now sets.now }
    ensures added { IfOk result (λ done. Adds (IsAdvanced flat.now at.item.node
        (waiting_in (views flat.now 0 sets.now) [] at.item.origin)) set.old.items set.new.items) }
    ensures owners { IfOk result (λ done. (rows : List (List ℕ)) → HavePredictions rows (prediction_rows sets.now)
        → IsOwner flat.now rows at.item at.owner → AreItemsOwned flat.now rows set.old
        → AreItemsOwned flat.now rows set.new) }
{
    let Some(kept_set) = sets.get(at.item.origin) else {
        return Ok(());
    };
    if let Some(inlined) = sole_caller(flat, at.item.node) {
        let item = Item {
            node: inlined.node,
            step: inlined.next,
            origin: at.item.origin,
        };
        set.add(item, at.owner)?;
        return Ok(());
    }
    let first = kept_set.records()[at.owner].first;
    complete_listed(sets.waiters(), first, set)?;
    Ok(())
}

/// Completes an item that is done, as is given.
#[inline(always)]
fn complete(
    flat: &Tables,
    sets: &Sets,
    at: OwnedItem,
    done: bool,
    set: &mut Items,
) -> Result<(), Memory>
    requires done { done ≡ done_of flat.now at.item }
    requires alone { AreAlone flat.now }
    requires begun { BeginAll flat.now sets.now }
    requires waiting { AreWaitingAll flat.now sets.now }
    requires owners { AreOwners flat.now }
    requires owner { IsOwnerThere flat.now sets.now at.item at.owner }
    requires owned { AreSetsOwned flat.now sets.now }
    ensures added { IfOk result (λ done. Adds (IsCompleted flat.now (views flat.now 0 sets.now) [] at.item)
        set.old.items set.new.items) }
    ensures owners { IfOk result (λ done. (rows : List (List ℕ)) → HavePredictions rows (prediction_rows sets.now)
        → IsOwner flat.now rows at.item at.owner → AreItemsOwned flat.now rows set.old
        → AreItemsOwned flat.now rows set.new) }
{
    if done {
        complete_target(flat, sets, at, set)?;
    }
    Ok(())
}

/// Predicts the target that an item calls, which is given.
fn predict(called: Option<(usize, usize)>, predictions: &mut Predictions) -> Result<(), Memory>
    ensures { IfOk result (λ done. (flat : code_flat.Tables) (item : code_item.Item) → called ≡ call_of flat item
        → Adds (IsPredictedTarget flat item) predictions.old predictions.new) }
{
    if let Some((target, _)) = called {
        predictions.add(target)?;
    }
    Ok(())
}

/// Advances an item over a nullable target that it calls, which is given, but for an iteration that takes a symbol, as
/// is given.
fn advance_nullable(
    flat: &Tables,
    item: Item,
    called: Option<(usize, usize)>,
    takes: bool,
    owner: usize,
    set: &mut Items,
) -> Result<(), Memory>
    requires called { called ≡ call_of flat.now item }
    requires takes { takes ≡ takes_of flat.now item }
    ensures added { IfOk result (λ done. Adds (MovesOverNullable flat.now item) set.old.items set.new.items) }
    ensures owners { IfOk result (λ done. (rows : List (List ℕ)) → IsOwner flat.now rows item owner
        → AreItemsOwned flat.now rows set.old → AreItemsOwned flat.now rows set.new) }
{
    if let Some((target, step)) = called {
        if !takes && null(flat, target) && step != item.step {
            set.add(
                Item {
                    node: item.node,
                    step,
                    origin: item.origin,
                },
                owner,
            )?;
        }
    }
    Ok(())
}

/// Advances an item over a nullable target, and completes one that is done. What its dotted rule does is given.
fn advance(
    flat: &Tables,
    sets: &Sets,
    at: OwnedItem,
    operation: Operation,
    set: &mut Items,
) -> Result<(), Memory>
    requires called { operation.called ≡ call_of flat.now at.item }
    requires done { operation.done ≡ done_of flat.now at.item }
    requires takes { operation.takes ≡ takes_of flat.now at.item }
    requires alone { AreAlone flat.now }
    requires begun { BeginAll flat.now sets.now }
    requires waiting { AreWaitingAll flat.now sets.now }
    requires owners { AreOwners flat.now }
    requires owner { IsOwnerThere flat.now sets.now at.item at.owner }
    requires owned { AreSetsOwned flat.now sets.now }
    ensures added { IfOk result (λ done. Adds (IsAddedFor flat.now (views flat.now 0 sets.now) at.item) set.old.items
        set.new.items) }
    ensures owners { IfOk result (λ done. (rows : List (List ℕ)) → HavePredictions rows (prediction_rows sets.now)
        → IsOwner flat.now rows at.item at.owner → AreItemsOwned flat.now rows set.old
        → AreItemsOwned flat.now rows set.new) }
{
    advance_nullable(
        flat,
        at.item,
        operation.called,
        operation.takes,
        at.owner,
        set,
    )?;
    complete(flat, sets, at, operation.done, set)?;
    Ok(())
}

/// Adds predictions, each once. `Memory` if an allocation fails.
fn predict_all(calls: &[usize], predictions: &mut Predictions) -> Result<(), Memory>
    ensures { IfOk result (λ done. Adds (λ t. In t calls.now) predictions.old predictions.new) }
{
    for prediction in calls {
        predictions.add(*prediction)?;
    }
    Ok(())
}

/// Adds dotted rules with an origin.
fn add_dots(dots: &[DottedRule], origin: usize, owner: usize, set: &mut Items) -> Result<(), Memory>
    ensures added { IfOk result (λ done. Adds (λ a. In a (map (item_at origin) dots.now)) set.old.items
        set.new.items) }
    ensures owners { IfOk result (λ done. (flat : code_flat.Tables) (rows : List (List ℕ))
        → ((p : code_dot.DottedRule) → In p dots.now → IsOwner flat rows (item_at origin p) owner)
        → AreItemsOwned flat rows set.old → AreItemsOwned flat rows set.new) }
{
    for dot in dots {
        set.add(
            Item {
                node: dot.node,
                step: dot.step,
                origin,
            },
            owner,
        )?;
    }
    Ok(())
}

/// Works on one item: predicts what it calls, keeps it for later sets, advances and completes it.
fn process_item(
    flat: &Tables,
    sets: &Sets,
    at: OwnedItem,
    predictions: &mut Predictions,
    items: &mut Items,
    postdot: &mut Postdot,
) -> Result<(), Memory>
    requires alone { AreAlone flat.now }
    requires begun { BeginAll flat.now sets.now }
    requires waiting { AreWaitingAll flat.now sets.now }
    requires owners { AreOwners flat.now }
    requires owner { IsOwnerThere flat.now sets.now at.item at.owner }
    requires owned { AreSetsOwned flat.now sets.now }
    ensures predictions { IfOk result
        (λ done. Adds (IsPredictedTarget flat.now at.item) predictions.old predictions.new) }
    ensures items { IfOk result (λ done. Adds (IsAddedFor flat.now (views flat.now 0 sets.now) at.item) items.old.items
        items.new.items) }
    ensures callers { IfOk result (λ done. (seen : List code_item.Item)
        → AreCallers flat.now seen postdot.old.callers.items
        → AreCallers flat.now (seen ++ at.item ∷ []) postdot.new.callers.items) }
    ensures readers { IfOk result (λ done. (seen : List code_item.Item)
        → AreChosen (ReadsSome flat.now) seen (items_of postdot.old.readers.items)
        → AreChosen (ReadsSome flat.now) (seen ++ at.item ∷ []) (items_of postdot.new.readers.items)) }
    ensures owners { IfOk result (λ done. (rows : List (List ℕ)) → HavePredictions rows (prediction_rows sets.now)
        → IsOwner flat.now rows at.item at.owner → AreItemsOwned flat.now rows items.old
        → AreItemsOwned flat.now rows items.new) }
    ensures caller_owners { IfOk result (λ done. (rows : List (List ℕ)) → IsOwner flat.now rows at.item at.owner
        → AreCallersOwned flat.now rows postdot.old.callers.items
        → AreCallersOwned flat.now rows postdot.new.callers.items) }
    ensures reader_owners { IfOk result (λ done. (rows : List (List ℕ)) → IsOwner flat.now rows at.item at.owner
        → AreReadersOwned flat.now rows postdot.old.readers.items
        → AreReadersOwned flat.now rows postdot.new.readers.items) }
{
    let operation = operation_of(flat, at.item);
    predict(operation.called, predictions)?;
    keep_caller(at, operation.called, &mut postdot.callers)?;
    keep_reader(at, operation.reads, &mut postdot.readers)?;
    advance(flat, sets, at, operation, items)?;
    Ok(())
}

/// Works on one prediction: predicts what its closure calls, and adds what its closure advances over nullable targets.
fn process_prediction(
    flat: &Tables,
    prediction: usize,
    origin: usize,
    owner: usize,
    predictions: &mut Predictions,
    items: &mut Items,
) -> Result<(), Memory>
    ensures predictions { IfOk result
        (λ done. Adds (λ t. In t (closure_of flat.now prediction).calls) predictions.old predictions.new) }
    ensures items { IfOk result (λ done. Adds (λ a. In a (map (item_at origin) (closure_of flat.now prediction).passes))
        items.old.items items.new.items) }
    ensures owners { IfOk result (λ done. (rows : List (List ℕ))
        → ((p : code_dot.DottedRule) → In p (closure_of flat.now prediction).passes
        → IsOwner flat.now rows (item_at origin p) owner)
        → AreItemsOwned flat.now rows items.old → AreItemsOwned flat.now rows items.new) }
{
    predict_all(calls(flat, prediction), predictions)?;
    add_dots(passes(flat, prediction), origin, owner, items)?;
    Ok(())
}

/// Predicts, completes and advances over nullable targets until nothing can be added; each item and prediction is
/// worked on once. Returns the number of items of its closures. `Memory` if that is no number of 64 bits, or if an
/// allocation fails.
pub(crate) fn fill(
    flat: &Tables,
    sets: &Sets,
    predictions: &mut Predictions,
    items: &mut Items,
    postdot: &mut Postdot,
) -> Result<usize, Memory>
    requires targets { GiveTargets (flat_of flat.now) flat.now.targets.items }
    requires nulls { AreNulls (flat_of flat.now) flat.now.nulls.items }
    requires tables { AreTables flat.now }
    requires alone { AreAlone flat.now }
    requires waiting { AreWaitingAll flat.now sets.now }
    requires begun { (line : List ℕ) × HoldAll (flat_of flat.now) line (views flat.now 0 sets.now)
        × IsWorklist flat.now line (views flat.now 0 sets.now) 0 0 predictions.old items.old.items }
    requires owners { AreOwners flat.now }
    requires owned { AreSetsOwned flat.now sets.now }
    requires items_owned { AreItemsOwned flat.now (prediction_rows_with sets.now predictions.old) items.old }
    ensures held { IfOk result
        (λ closures. (line : List ℕ) → HoldAll (flat_of flat.now) line (views flat.now 0 sets.now)
        → IsWorklist flat.now line (views flat.now 0 sets.now) 0 0 predictions.old items.old.items
        → Hold (flat_of flat.now) line (length (views flat.now 0 sets.now))
        (full (closure_of flat.now) (length (views flat.now 0 sets.now)) predictions.new items.new.items)) }
    ensures different { IfOk result (λ closures. AreDifferent
        (full (closure_of flat.now) (length (views flat.now 0 sets.now)) predictions.new items.new.items)) }
    ensures keeps { IfOk result (λ closures. Keeps
        (full (closure_of flat.now) (length (views flat.now 0 sets.now)) predictions.old items.old.items)
        (full (closure_of flat.now) (length (views flat.now 0 sets.now)) predictions.new items.new.items)) }
    ensures closed { IfOk result (λ closures. IsClosed flat.now (views flat.now 0 sets.now)
        (full (closure_of flat.now) (length (views flat.now 0 sets.now)) predictions.new items.new.items)) }
    ensures callers { IfOk result (λ closures. AreCallers flat.now items.new.items postdot.new.callers.items) }
    ensures closures { IfOk result
        (λ closures. (j : ℕ) → closures ≡ length (expand (closure_of flat.now) j predictions.new)) }
    ensures readers { IfOk result (λ closures. AreChosen (ReadsSome flat.now) items.new.items
        (items_of postdot.new.readers.items)) }
    ensures caller_owners { IfOk result (λ closures. AreCallersOwned flat.now
        (prediction_rows_with sets.now predictions.new) postdot.new.callers.items) }
    ensures reader_owners { IfOk result (λ closures. AreReadersOwned flat.now
        (prediction_rows_with sets.now predictions.new) postdot.new.readers.items) }
{
    postdot.callers.clear();
    postdot.readers.clear();
    let mut item_index = 0;
    let mut prediction_index = 0;
    let mut closures = 0usize;
    loop {
        if item_index < items.len() {
            let item = items.at(item_index);
            let owner = items.owner(item_index);
            process_item(
                flat,
                sets,
                OwnedItem { item, owner },
                predictions,
                items,
                postdot,
            )?;
            item_index += 1;
        } else if prediction_index < predictions.len() {
            let prediction = predictions.at(prediction_index);
            let Some(sum) = closures.checked_add(dots(flat, prediction).len()) else {
                return Err(Memory);
            };
            closures = sum;
            process_prediction(
                flat,
                prediction,
                sets.len(),
                prediction_index,
                predictions,
                items,
            )?;
            prediction_index += 1;
        } else {
            return Ok(closures);
        }
    }
}
