//! Walks: where continuations go without a symbol and into no rule.
ghost use Rattle.std.specs.Prelude.{◌↔◌, ◌≤◌, ℕ, IsTrue, IfOk, IfSome, length, Contains};
ghost use Rattle.lazydfa.specs.Conts.{AreKept, AreOlder, Adds, EndsAlone, stack_of};
ghost use Rattle.lazydfa.specs.NameWalks.{IsWalked, WalkCalls, WalkGoes};

use crate::close::{Ids, add, after, cont_at, either, enter};
use crate::conts::{Cont, Conts, id_of};
use flatgrammar::{Item, Tables, called_node, is_name, null, operation_of};
use ruletable::Memory;

/// Adds the continuations where a dotted rule goes by a call: into a node that is no name, or past a nullable name.
fn call_into(tables: &Tables, cont: Cont, conts: &mut Conts, ids: &mut Ids) -> Result<(), Memory>
    requires within { cont.next ≤ length conts.old.items.items }
    requires older { AreOlder conts.old.items.items }
    ensures kept { IfOk result (λ done. AreKept conts.old.items.items conts.new.items.items) }
    ensures adds { IfOk result (λ done. Adds conts.new.items.items (WalkCalls tables.now cont.node cont.step
        (stack_of conts.old.items.items cont.next)) ids.old.items.items ids.new.items.items) }
{
    let item = Item {
        node: cont.node,
        step: cont.step,
        origin: 0,
    };
    let Some((node, next)) = called_node(tables, item) else {
        return Ok(());
    };
    if !is_name(tables, node) {
        let below = after(tables, cont.node, next, cont.next, conts)?;
        return enter(tables, node, below, conts, ids);
    }
    if !null(tables, node) {
        return Ok(());
    }
    let id = id_of(
        conts,
        Cont {
            node: cont.node,
            step: next,
            next: cont.next,
        },
    )?;
    add(ids, id)
}

/// Adds the continuations where one goes without a symbol and into no rule. Returns whether that one completes the
/// bottom of a stack. `Memory` if an allocation fails.
fn walk_on(tables: &Tables, id: usize, conts: &mut Conts, ids: &mut Ids) -> Result<bool, Memory>
    requires within { id ≤ length conts.old.items.items }
    requires older { AreOlder conts.old.items.items }
    ensures kept { IfOk result (λ ended. AreKept conts.old.items.items conts.new.items.items) }
    ensures adds { IfOk result (λ ended. Adds conts.new.items.items (WalkGoes tables.now
        (stack_of conts.old.items.items id)) ids.old.items.items ids.new.items.items) }
    ensures ended { IfOk result (λ ended. IsTrue ended ↔ EndsAlone tables.now (stack_of conts.old.items.items id)) }
{
    if id == 0 {
        return Ok(false);
    }
    let cont = cont_at(conts, id);
    call_into(tables, cont, conts, ids)?;
    let operation = operation_of(
        tables,
        Item {
            node: cont.node,
            step: cont.step,
            origin: 0,
        },
    );
    if !operation.done {
        return Ok(false);
    }
    if cont.next == 0 {
        return Ok(true);
    }
    add(ids, cont.next)?;
    Ok(false)
}

/// Adds to a set of ids all continuations where they go without a symbol and into no rule. Returns whether one of them
/// completes the bottom of a stack; `None` if the set has more ids than a closure may visit. `Memory` if an allocation
/// fails.
pub(crate) fn walk(
    tables: &Tables,
    conts: &mut Conts,
    ids: &mut Ids,
) -> Result<Option<bool>, Memory>
    requires within { (id : ℕ) → Contains ids.old.items.items id → id ≤ length conts.old.items.items }
    requires older { AreOlder conts.old.items.items }
    ensures kept { IfOk result (λ reported. AreKept conts.old.items.items conts.new.items.items) }
    ensures walked { IfOk result (λ reported. IfSome reported (IsWalked tables.now conts.old.items.items
        ids.old.items.items
        conts.new.items.items ids.new.items.items)) }
{
    let mut ended = false;
    let mut count = 0;
    let most = ids.most;
    for _ in 0..most {
        if count >= ids.items.len() {
            return Ok(Some(ended));
        }
        let id = ids.items[count];
        let now = walk_on(tables, id, conts, ids)?;
        ended = either(now, ended);
        count += 1;
    }
    Ok(None)
}
