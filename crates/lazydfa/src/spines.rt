//! Continuations that are moved from one suffix to another.
ghost use Rattle.std.specs.Prelude.{◌≡◌, ◌≤◌, ◌++◌, ◌∷◌, ℕ, true, List, [], IfOk, length, Contains};
ghost use Rattle.lazydfa.specs.Conts.{AreKept, AreOlder, IsIdOf, stack_of};
ghost use Rattle.lazydfa.specs.Spines.{AreMoved, IsMoveOn, MovesOn, positions_of};

use crate::close::cont_at;
use crate::conts::{Cont, Conts, id_of};
use ruletable::Memory;

/// A change of the suffix below continuations.
#[derive(Clone, Copy)]
pub(crate) struct Move {
    /// The id of the suffix that they stand on.
    pub(crate) off: usize,
    /// The id of the suffix to put them on.
    pub(crate) on: usize,
}

/// Takes the dotted rules of a continuation down to one below it, from the top on; returns whether it stands on that
/// one. `Memory` if an allocation fails.
fn take_spine(conts: &Conts, top: usize, off: usize, spine: &mut Vec<Cont>) -> Result<bool, Memory>
    requires within { top ≤ length conts.now.items.items }
    requires older { AreOlder conts.now.items.items }
    ensures { IfOk result (λ yes. yes ≡ true → stack_of conts.now.items.items top ≡ positions_of spine.new.items
        ++ stack_of conts.now.items.items off) }
{
    spine.clear();
    let mut id = top;
    for _ in 0..conts.items.len() {
        if id == off {
            return Ok(true);
        }
        if id == 0 {
            return Ok(false);
        }
        let cont = cont_at(conts, id);
        spine.push(cont)?;
        id = cont.next;
    }
    Ok(id == off)
}

/// Puts dotted rules on a suffix, and returns the id of the new continuation. `Memory` if an allocation fails.
fn put_spine(conts: &mut Conts, spine: &mut Vec<Cont>, on: usize) -> Result<usize, Memory>
    requires within { on ≤ length conts.old.items.items }
    requires older { AreOlder conts.old.items.items }
    ensures kept { IfOk result (λ id. AreKept conts.old.items.items conts.new.items.items) }
    ensures is { IfOk result (λ id. IsIdOf conts.new.items.items id (positions_of spine.old.items
        ++ stack_of conts.old.items.items on)) }
{
    let mut id = on;
    while let Some(cont) = spine.pop() {
        id = id_of(
            conts,
            Cont {
                node: cont.node,
                step: cont.step,
                next: id,
            },
        )?;
    }
    Ok(id)
}

/// Moves a continuation to another suffix, and adds its new id; returns whether it stands on the suffix `off`.
/// `Memory` if an allocation fails.
fn move_one(
    conts: &mut Conts,
    top: usize,
    way: Move,
    spine: &mut Vec<Cont>,
    ids: &mut Vec<usize>,
) -> Result<bool, Memory>
    requires within { top ≤ length conts.old.items.items }
    requires on { way.on ≤ length conts.old.items.items }
    requires older { AreOlder conts.old.items.items }
    ensures kept { IfOk result (λ yes. AreKept conts.old.items.items conts.new.items.items) }
    ensures moved { IfOk result (λ yes. yes ≡ true → MovesOn conts.old.items.items top way.off conts.new.items.items
        ids.old.items ids.new.items way.on) }
{
    if !take_spine(conts, top, way.off, spine)? {
        return Ok(false);
    }
    let id = put_spine(conts, spine, way.on)?;
    ids.push(id)?;
    Ok(true)
}

/// Moves continuations to another suffix, and adds their new ids; returns whether all stand on the suffix `off`.
/// `Memory` if an allocation fails.
pub(crate) fn move_all(
    conts: &mut Conts,
    tops: &[usize],
    way: Move,
    spine: &mut Vec<Cont>,
    ids: &mut Vec<usize>,
) -> Result<bool, Memory>
    requires within { (id : ℕ) → Contains tops.now id → id ≤ length conts.old.items.items }
    requires off { way.off ≤ length conts.old.items.items }
    requires on { way.on ≤ length conts.old.items.items }
    requires older { AreOlder conts.old.items.items }
    ensures kept { IfOk result (λ yes. AreKept conts.old.items.items conts.new.items.items) }
    ensures moved { IfOk result (λ yes. yes ≡ true → AreMoved conts.old.items.items tops.now way.off
        conts.new.items.items ids.old.items ids.new.items way.on) }
{
    for top in tops {
        if !move_one(conts, *top, way, spine, ids)? {
            return Ok(false);
        }
    }
    Ok(true)
}
