//! Kernels: what is left to do after a symbol, and the states that they lead to.
ghost use Rattle.std.specs.Prelude.{◌≡◌, ◌≤◌, ℕ, IsTrue, IfOk, IfSome, length, Contains};
ghost use Rattle.lazydfa.specs.Conts.{AreOlder, stack_of};
ghost use Rattle.lazydfa.specs.Kernels.{AreLeadsNoted, IsKernel, IsLeadKnown, IsLeftOver};

use crate::cache::hash_of_tops;
use crate::chains::HashChains;
use crate::close::{cont_at, is_last};
use crate::conts::Conts;
use flatgrammar::Tables;
use ruletable::Memory;
use std::alloc::Global;

/// The state that a kernel leads to.
///
/// A kernel is what is left to do after a symbol. Its closure is the next state. All alternatives of a choice lead to
/// one kernel where they end. So the closure after a choice is taken once, and not once for each alternative.
#[derive(Drop)]
pub(crate) struct KernelLead {
    /// The ids of the kernel, in the order in which they were found.
    pub(crate) kernel: Vec<usize>,
    /// The number of the state.
    pub(crate) to: usize,
}

/// The leads known so far.
#[derive(Drop)]
pub(crate) struct KernelLeads {
    /// The leads, in the order in which they were noted.
    pub(crate) items: Vec<KernelLead>,
    /// Hash chains that find the lead of an equal kernel.
    pub(crate) chains: HashChains,
}

// Returns the id of what is left to do of a continuation: where nothing is left to do on top, that is what is below.
fn left_of(tables: &Tables, conts: &Conts, id: usize) -> usize
    requires within { id ≤ length conts.now.items.items }
    requires older { AreOlder conts.now.items.items }
    ensures within { result ≤ length conts.now.items.items }
    ensures is { IsLeftOver tables.now (stack_of conts.now.items.items id) (stack_of conts.now.items.items result) }
{
    if id == 0 {
        return id;
    }
    let cont = cont_at(conts, id);
    if cont.next == 0 {
        return id;
    }
    if !is_last(tables, cont.node, cont.step) {
        return id;
    }
    cont.next
}

/// Returns the kernel of the ids that were read. `Memory` if an allocation fails.
pub(crate) fn kernel_of(
    alloc: Global,
    tables: &Tables,
    conts: &Conts,
    ids: &[usize],
) -> Result<Vec<usize>, Memory>
    requires within { (id : ℕ) → Contains ids.now id → id ≤ length conts.now.items.items }
    requires older { AreOlder conts.now.items.items }
    ensures { IfOk result (λ kernel. IsKernel tables.now conts.now.items.items ids.now kernel.items) }
{
    let mut kernel = Vec::new(alloc);
    for id in ids {
        kernel.push(left_of(tables, conts, *id))?;
    }
    Ok(kernel)
}

// Returns whether a lead is that of a kernel.
fn is_of(lead: &KernelLead, kernel: &[usize]) -> bool
    ensures { IsTrue result → lead.now.kernel.items ≡ kernel.now }
{
    lead.kernel.as_slice() == kernel
}

/// Returns the number of the state that a kernel leads to, if its lead is found in its chain; the entry k + 1 is of
/// lead k.
pub(crate) fn find_lead(leads: &KernelLeads, kernel: &[usize]) -> Option<usize>
    ensures { IfSome result (IsLeadKnown leads.now.items.items kernel.now) }
{
    let mut entry = leads.chains.last(hash_of_tops(kernel));
    for _ in 0..leads.items.len() {
        if entry == 0 || entry > leads.items.len() {
            return None;
        }
        if is_of(&leads.items[entry - 1], kernel) {
            return Some(leads.items[entry - 1].to);
        }
        entry = leads.chains.before(entry);
    }
    None
}

// Adds the last lead to chains. Where there are fewer chains than leads, more of them are made.
fn chain_last(leads: &[KernelLead], chains: &mut HashChains) -> Result<(), Memory> {
    if chains.restart(leads.len().saturating_mul(2).max(64))? {
        for lead in leads {
            chains.add(hash_of_tops(&lead.kernel))?;
        }
        return Ok(());
    }
    match leads.last() {
        Some(lead) => chains.add(hash_of_tops(&lead.kernel)),
        None => Ok(()),
    }
}

/// Notes that a kernel leads to a state. `Memory` if an allocation fails.
pub(crate) fn note_lead(
    leads: &mut KernelLeads,
    kernel: Vec<usize>,
    to: usize,
) -> Result<(), Memory>
    ensures { IfOk result (λ done. AreLeadsNoted leads.old.items.items leads.new.items.items kernel.items to) }
{
    leads.items.push(KernelLead { kernel, to })?;
    chain_last(&leads.items, &mut leads.chains)
}
