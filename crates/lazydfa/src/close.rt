//! Where one continuation goes on without a symbol.
ghost use Rattle.std.specs.Prelude.{◌≡◌, ◌↔◌, ◌||◌, ◌<◌, ◌≤◌, ◌∷◌, ◌+◌, ℕ, true, List, [], IsTrue, IfOk, IfSome};
ghost use Rattle.std.specs.Prelude.{length, slice_get, Some, Contains};
ghost use Rattle.flatgrammar.specs.Flat.{Dot};
ghost use Rattle.flatgrammar.specs.ItemClosures.{begin_count};
ghost use Rattle.lazydfa.specs.Conts.{AreKept, AreOlder, Adds, IsAdded, stack_of, Begun, IsIdOf, CallMoves, last_of};
ghost use Rattle.lazydfa.specs.Conts.{after, Goes, EndsAlone, IsClosure};

use crate::conts::{Cont, Conts, id_of};
use flatgrammar::{Item, Tables, begin_steps, operation_of};
use ruletable::Memory;

/// A set of ids of continuations, which is also the worklist of a closure.
///
/// It is a sparse set: `dots[id]` may say anything unless `items` has `id` at that index. So emptying it clears
/// `items` alone. No contract relies on `dots`.
#[derive(Drop)]
pub(crate) struct Ids {
    /// The members, in the order in which they were added.
    pub(crate) items: Vec<usize>,
    /// Of each id where it may stand in `items`.
    pub(crate) dots: Vec<usize>,
    /// The most members that a closure may visit.
    pub(crate) most: usize,
}

/// Forgets all ids.
pub(crate) fn empty(ids: &mut Ids)
    ensures { ids.new.items.items ≡ [] }
{
    ids.items.clear();
}

fn stands(ids: &Ids, id: usize) -> bool
    ensures { IsTrue result → Contains ids.now.items.items id }
{
    match ids.dots.get(id) {
        Some(dot) => match ids.items.get(*dot) {
            Some(found) => *found == id,
            None => false,
        },
        None => false,
    }
}

// Notes where a number stands. `Memory` if an allocation fails.
fn note_dot(dots: &mut Vec<usize>, id: usize, dot: usize) -> Result<(), Memory> {
    if id >= dots.len() {
        dots.resize(id.saturating_mul(2).saturating_add(64), 0usize)?;
    }
    if id < dots.len() {
        dots[id] = dot;
    }
    Ok(())
}

/// Adds an id, if it does not stand there.
pub(crate) fn add(ids: &mut Ids, id: usize) -> Result<(), Memory>
    ensures { IfOk result (λ done. IsAdded ids.old.items.items ids.new.items.items id) }
{
    if stands(ids, id) {
        return Ok(());
    }
    let dot = ids.items.len();
    ids.items.push(id)?;
    note_dot(&mut ids.dots, id, dot)?;
    Ok(())
}

/// Adds the continuations where a target begins, before what is below.
pub(crate) fn enter(
    tables: &Tables,
    target: usize,
    below: usize,
    conts: &mut Conts,
    ids: &mut Ids,
) -> Result<(), Memory>
    requires within { below ≤ length conts.old.items.items }
    requires older { AreOlder conts.old.items.items }
    ensures kept { IfOk result (λ done. AreKept conts.old.items.items conts.new.items.items) }
    ensures adds { IfOk result (λ done. Adds conts.new.items.items (Begun target (begin_count tables.now target)
        (stack_of conts.old.items.items below)) ids.old.items.items ids.new.items.items) }
{
    for step in 0..begin_steps(tables, target) {
        let id = id_of(
            conts,
            Cont {
                node: target,
                step,
                next: below,
            },
        )?;
        add(ids, id)?;
    }
    Ok(())
}

/// Returns whether nothing is left to do at a dotted rule.
pub(crate) fn is_last(tables: &Tables, node: usize, step: usize) -> bool
    ensures { result ≡ last_of tables.now (Dot.at node step) }
{
    let operation = operation_of(
        tables,
        Item {
            node,
            step,
            origin: 0,
        },
    );
    operation.called.is_none() && operation.done && !operation.reads
}

/// Returns the id of what is left to do in a node, before what is below.
pub(crate) fn after(
    tables: &Tables,
    node: usize,
    next: usize,
    below: usize,
    conts: &mut Conts,
) -> Result<usize, Memory>
    requires within { below ≤ length conts.old.items.items }
    requires older { AreOlder conts.old.items.items }
    ensures kept { IfOk result (λ id. AreKept conts.old.items.items conts.new.items.items) }
    ensures is { IfOk result (λ id. IsIdOf conts.new.items.items id (after tables.now node next
        (stack_of conts.old.items.items below))) }
{
    if is_last(tables, node, next) {
        return Ok(below);
    }
    id_of(
        conts,
        Cont {
            node,
            step: next,
            next: below,
        },
    )
}

/// Adds the continuations where what a dotted rule calls begins, before what is left to do after it.
fn call_on(tables: &Tables, cont: Cont, conts: &mut Conts, ids: &mut Ids) -> Result<(), Memory>
    requires within { cont.next ≤ length conts.old.items.items }
    requires older { AreOlder conts.old.items.items }
    ensures kept { IfOk result (λ done. AreKept conts.old.items.items conts.new.items.items) }
    ensures adds { IfOk result (λ done. Adds conts.new.items.items (CallMoves tables.now cont.node cont.step
        (stack_of conts.old.items.items cont.next)) ids.old.items.items ids.new.items.items) }
{
    let operation = operation_of(
        tables,
        Item {
            node: cont.node,
            step: cont.step,
            origin: 0,
        },
    );
    if let Some((target, next)) = operation.called {
        let below = after(tables, cont.node, next, cont.next, conts)?;
        enter(tables, target, below, conts, ids)?;
    }
    Ok(())
}

/// Returns the continuation of an id.
pub(crate) fn cont_at(conts: &Conts, id: usize) -> Cont
    requires some { 0 < id }
    requires within { id ≤ length conts.now.items.items }
    requires older { AreOlder conts.now.items.items }
    ensures next { result.next ≤ length conts.now.items.items }
    ensures is { stack_of conts.now.items.items id ≡ Dot.at result.node result.step
        ∷ stack_of conts.now.items.items result.next }
{
    conts.items[id - 1]
}

/// Adds the continuations that follow one without a symbol, and returns whether that one completes the bottom of a
/// stack. `Memory` if an allocation fails.
fn expand(tables: &Tables, id: usize, conts: &mut Conts, ids: &mut Ids) -> Result<bool, Memory>
    requires within { id ≤ length conts.old.items.items }
    requires older { AreOlder conts.old.items.items }
    ensures kept { IfOk result (λ ended. AreKept conts.old.items.items conts.new.items.items) }
    ensures adds { IfOk result (λ ended. Adds conts.new.items.items (Goes tables.now
        (stack_of conts.old.items.items id)) ids.old.items.items ids.new.items.items) }
    ensures ended { IfOk result (λ ended. IsTrue ended ↔ EndsAlone tables.now (stack_of conts.old.items.items id)) }
{
    if id == 0 {
        return Ok(false);
    }
    let cont = cont_at(conts, id);
    call_on(tables, cont, conts, ids)?;
    let operation = operation_of(
        tables,
        Item {
            node: cont.node,
            step: cont.step,
            origin: 0,
        },
    );
    if !operation.done {
        return Ok(false);
    }
    if cont.next == 0 {
        return Ok(true);
    }
    add(ids, cont.next)?;
    Ok(false)
}

/// Returns whether one of two facts holds.
pub(crate) fn either(a: bool, b: bool) -> bool
    ensures { result ≡ (a || b) }
{
    a || b
}

/// Closes a set of ids under calls and returns: adds all continuations that follow without a symbol. Returns whether
/// one of them completes the bottom of a stack; `None` if the set has more ids than a closure may visit. `Memory` if an
/// allocation fails.
pub(crate) fn close(
    tables: &Tables,
    conts: &mut Conts,
    ids: &mut Ids,
) -> Result<Option<bool>, Memory>
    requires within { (id : ℕ) → Contains ids.old.items.items id → id ≤ length conts.old.items.items }
    requires older { AreOlder conts.old.items.items }
    ensures kept { IfOk result (λ reported. AreKept conts.old.items.items conts.new.items.items) }
    ensures closure { IfOk result (λ reported. IfSome reported (IsClosure tables.now conts.old.items.items
        ids.old.items.items
        conts.new.items.items ids.new.items.items)) }
{
    let mut ended = false;
    let mut count = 0;
    let most = ids.most;
    for _ in 0..most {
        if count >= ids.items.len() {
            return Ok(Some(ended));
        }
        let id = ids.items[count];
        let now = expand(tables, id, conts, ids)?;
        ended = either(now, ended);
        count += 1;
    }
    Ok(None)
}
