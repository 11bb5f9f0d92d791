//! Transitions.
ghost use Rattle.std.specs.Prelude.{◌≡◌, ◌↔◌, ◌≤◌, ◌++◌, ◌∷◌, ℕ, true, false, List, [], IsTrue, IfOk, IfSome, length};
ghost use Rattle.std.specs.Prelude.{Contains};
ghost use Rattle.lazydfa.specs.Conts.{AreKept, AreOlder, Adds, ReadsOn, ReadsFrom, TopReads, AreReaders};
ghost use Rattle.lazydfa.specs.Conts.{stack_of};
ghost use Rattle.lazydfa.specs.Kernels.{AreClosedTops};

use crate::close::{Ids, add, close, cont_at};
use crate::conts::{Cont, Conts, id_of};
use flatgrammar::{Item, Tables, operation_of, reads};
use ruletable::Memory;
use std::alloc::Global;

/// A closure: the stacks that a transition leads to, closed under calls and returns.
#[derive(Drop)]
pub(crate) struct Closure {
    /// The ids of the stacks whose top reads a symbol.
    pub(crate) tops: Vec<usize>,
    /// Whether the augmented start may end.
    pub(crate) ended: bool,
}

/// Adds the continuation after one, if that reads the symbol.
fn read_on(
    tables: &Tables,
    id: usize,
    value: u32,
    conts: &mut Conts,
    ids: &mut Ids,
) -> Result<(), Memory>
    requires within { id ≤ length conts.old.items.items }
    requires older { AreOlder conts.old.items.items }
    ensures kept { IfOk result (λ done. AreKept conts.old.items.items conts.new.items.items) }
    ensures adds { IfOk result (λ done. Adds conts.new.items.items (ReadsOn tables.now value
        (stack_of conts.old.items.items id)) ids.old.items.items ids.new.items.items) }
{
    if id == 0 {
        return Ok(());
    }
    let cont = cont_at(conts, id);
    if !reads(
        tables,
        Item {
            node: cont.node,
            step: cont.step,
            origin: 0,
        },
        value,
    ) {
        return Ok(());
    }
    let next = id_of(
        conts,
        Cont {
            node: cont.node,
            step: cont.step + 1,
            next: cont.next,
        },
    )?;
    add(ids, next)?;
    Ok(())
}

/// Adds the continuations after those that read a symbol.
pub(crate) fn read_all(
    tables: &Tables,
    tops: &[usize],
    value: u32,
    conts: &mut Conts,
    ids: &mut Ids,
) -> Result<(), Memory>
    requires within { (id : ℕ) → Contains tops.now id → id ≤ length conts.old.items.items }
    requires older { AreOlder conts.old.items.items }
    ensures kept { IfOk result (λ done. AreKept conts.old.items.items conts.new.items.items) }
    ensures adds { IfOk result (λ done. Adds conts.new.items.items (ReadsFrom tables.now value conts.old.items.items
        tops.now) ids.old.items.items ids.new.items.items) }
{
    for top in tops {
        read_on(tables, *top, value, conts, ids)?;
    }
    Ok(())
}

/// Returns whether something is read on top of a continuation.
pub(crate) fn top_reads(tables: &Tables, id: usize, conts: &Conts) -> bool
    requires within { id ≤ length conts.now.items.items }
    requires older { AreOlder conts.now.items.items }
    ensures { IsTrue result ↔ TopReads tables.now (stack_of conts.now.items.items id) }
{
    if id == 0 {
        return false;
    }
    let cont = cont_at(conts, id);
    operation_of(
        tables,
        Item {
            node: cont.node,
            step: cont.step,
            origin: 0,
        },
    )
    .reads
}

/// Adds an id if that is asked for.
fn keep(asked: bool, id: usize, tops: &mut Vec<usize>) -> Result<(), Memory>
    ensures kept { IfOk result (λ done. asked ≡ true → tops.new.items ≡ tops.old.items ++ id ∷ []) }
    ensures left { IfOk result (λ done. asked ≡ false → tops.new.items ≡ tops.old.items) }
{
    if asked {
        tops.push(id)?;
    }
    Ok(())
}

/// Returns of ids those on whose top something is read.
pub(crate) fn readers(
    alloc: Global,
    tables: &Tables,
    conts: &Conts,
    ids: &[usize],
) -> Result<Vec<usize>, Memory>
    requires within { (id : ℕ) → Contains ids.now id → id ≤ length conts.now.items.items }
    requires older { AreOlder conts.now.items.items }
    ensures { IfOk result (λ tops. AreReaders tables.now conts.now.items.items ids.now tops.items) }
{
    let mut tops = Vec::new(alloc);
    for id in ids {
        keep(top_reads(tables, *id, conts), *id, &mut tops)?;
    }
    Ok(tops)
}

/// Returns the closure of ids; `None` if that visits more ids than it may. `Memory` if an allocation fails.
pub(crate) fn close_on(
    alloc: Global,
    tables: &Tables,
    conts: &mut Conts,
    ids: &mut Ids,
) -> Result<Option<Closure>, Memory>
    requires within { (id : ℕ) → Contains ids.old.items.items id → id ≤ length conts.old.items.items }
    requires older { AreOlder conts.old.items.items }
    ensures kept { IfOk result (λ reported. AreKept conts.old.items.items conts.new.items.items) }
    ensures is { IfOk result (λ reported. IfSome reported (λ closure. AreClosedTops tables.now conts.old.items.items
        ids.old.items.items
        conts.new.items.items closure.tops.items closure.ended)) }
{
    let Some(ended) = close(tables, conts, ids)? else {
        return Ok(None);
    };
    let tops = readers(alloc, tables, conts, &ids.items)?;
    Ok(Some(Closure { tops, ended }))
}
