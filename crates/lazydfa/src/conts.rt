//! Continuations.
ghost use Rattle.std.specs.Prelude.{◌≡◌, ◌↔◌, ◌<◌, ◌≤◌, ◌∷◌, ◌+◌, ◌^◌, ℕ, IsTrue, IfOk, IfSome, length, slice_get};
ghost use Rattle.std.specs.Prelude.{Some};
ghost use Rattle.flatgrammar.specs.Flat.{Dot};
ghost use Rattle.lazydfa.specs.Conts.{AreKept, AreOlder, IsIdOf, stack_of};

use crate::chains::HashChains;
use ruletable::Memory;

/// A continuation: a dotted rule to go on with, on top of the return stack `next`.
///
/// Continuations are nodes of a graph-structured stack. Stacks with equal tails share them by id. The id of entry `k`
/// is `k + 1`, and 0 is the id of the empty stack. An entry's `next` is lower than its own id.
#[derive(Clone, Copy)]
pub(crate) struct Cont {
    /// The node of the dotted rule.
    pub(crate) node: usize,
    /// The step at which the node goes on.
    pub(crate) step: usize,
    /// The id of the continuation to return to, or 0.
    pub(crate) next: usize,
}

fn same(a: Cont, b: Cont) -> bool
    ensures { IsTrue result ↔ (a ≡ b) }
{
    a.node == b.node && a.step == b.step && a.next == b.next
}

/// Returns the hash of a continuation.
pub(crate) fn hash_of_cont(cont: Cont) -> usize {
    let mixed = cont.node.wrapping_mul(0x9E37_79B9).wrapping_add(cont.next);
    mixed.wrapping_mul(0x85EB_CA6B).wrapping_add(cont.step)
}

/// Returns the id of an equal continuation, if it is found in its chain.
fn find(conts: &[Cont], chains: &HashChains, cont: Cont) -> Option<usize>
    ensures { IfSome result (λ id. (k : ℕ) × (id ≡ k + 1) × (slice_get conts.now k ≡ Some cont)) }
{
    let mut id = chains.last(hash_of_cont(cont));
    for _ in 0..conts.len() {
        if id == 0 || id > conts.len() {
            return None;
        }
        if same(conts[id - 1], cont) {
            return Some(id);
        }
        id = chains.before(id);
    }
    None
}

/// The continuations by id, each once. They are hash-consed, so equal stacks have equal ids.
#[derive(Drop)]
pub(crate) struct Conts {
    /// The continuation of id `k + 1` is entry `k`.
    pub(crate) items: Vec<Cont>,
    /// Hash chains that find an equal continuation.
    pub(crate) chains: HashChains,
}

// Adds the last continuation to chains. Where there are fewer chains than continuations, more of them are made.
fn chain_last(conts: &[Cont], chains: &mut HashChains) -> Result<(), Memory> {
    if chains.restart(conts.len().saturating_mul(2).max(1024))? {
        for cont in conts {
            chains.add(hash_of_cont(*cont))?;
        }
        return Ok(());
    }
    match conts.last() {
        Some(cont) => chains.add(hash_of_cont(*cont)),
        None => Ok(()),
    }
}

/// Returns the id of a continuation, which is added if it is not found. `Memory` if an allocation fails.
pub(crate) fn id_of(conts: &mut Conts, cont: Cont) -> Result<usize, Memory>
    requires within { cont.next ≤ length conts.old.items.items }
    requires older { AreOlder conts.old.items.items }
    ensures kept { IfOk result (λ id. AreKept conts.old.items.items conts.new.items.items) }
    ensures is { IfOk result (λ id. IsIdOf conts.new.items.items id (Dot.at cont.node cont.step
        ∷ stack_of conts.old.items.items cont.next)) }
{
    if let Some(id) = find(&conts.items, &conts.chains, cont) {
        return Ok(id);
    }
    conts.items.push(cont)?;
    chain_last(&conts.items, &mut conts.chains)?;
    Ok(conts.items.len())
}
