//! By which rules the judged one reaches a name.
ghost use Rattle.std.specs.Prelude.{◌≡◌, ◌≤◌, ◌↔◌, ℕ, List, length, slice_get, Option, None, Some, MatchOption, IfOk};
ghost use Rattle.std.specs.Prelude.{option_copied};
ghost use Rattle.fixpoint.specs.StepRows.{rows_of, AreStepsWithin};
ghost use Rattle.ruletable.specs.Rules.{names_of};
ghost use Rattle.fixpoint.specs.ShortChains.{AreChains, ChainTo, IsChainIfReached};
ghost use Rattle.abnfread.specs.AbnfViews.{rules_of};
ghost use Rattle.abnfread.specs.Element.{Rule};
ghost use Rattle.abnfcheck.specs.NameChains.{AreLast, AreNameChains, IsNameChain, names_at};

use crate::name_ids::name_ids;
use abnfread::Elem;
use fixpoint::{Chains, chains_from, slices};
use ruletable::{Memory, NameCase, RuleTable};
use std::alloc::{AllocError, Global};

/// The names of a grammar, and the chains by which the judged rule reaches them.
#[derive(Drop)]
pub struct NameChains {
    /// The names of the rules, then those that no rule has.
    pub names: RuleTable<()>,
    /// The id of the name of the judged rule.
    pub judged: usize,
    /// The chains from that of the judged rule, if there is a name.
    pub chains: Option<Chains>,
}

/// The first id and the last ids of a chain of names.
#[derive(Drop)]
pub struct ChainEnds {
    /// The first id and the last ones, in order.
    pub ids: Vec<usize>,
    /// How many ids stand between them in the chain.
    pub left: usize,
}

// Returns the chains from the judged number, if it has a row.
fn judged_chains(
    alloc: Global,
    rows: &[Vec<usize>],
    judged: usize,
) -> Result<Option<Chains>, Memory>
    requires { AreStepsWithin (rows_of rows.now) }
    ensures { IfOk result (λ chains. MatchOption chains (length (rows_of rows.now) ≤ judged)
        (AreChains (rows_of rows.now) judged)) }
{
    if judged >= rows.len() {
        return Ok(None);
    }
    let steps = slices(alloc, rows)?;
    let chains = chains_from(alloc, &steps, judged)?;
    Ok(Some(chains))
}

/// Returns the names of a grammar, and the chains by which the rule with the name `rule`, or else the first, reaches
/// them.
///
/// # Errors
/// `Memory` if an allocation fails.
pub fn name_chains(
    alloc: Global,
    rules: &RuleTable<Elem>,
    rule: Option<&str>,
) -> Result<NameChains, Memory>
    requires { rules.now.names ≡ NameCase.Fold }
    ensures { IfOk result (λ found. AreNameChains (rules_of rules.now) (option_copied rule.entry) found) }
{
    let ids = name_ids(alloc, rules, rule)?;
    let chains = judged_chains(alloc, &ids.rows, ids.judged)?;
    Ok(NameChains {
        names: ids.names,
        judged: ids.judged,
        chains,
    })
}

// Returns the entry of a number in a list, if it has one.
fn entry_of(list: &[Option<usize>], n: usize) -> Option<usize>
    ensures { (u : ℕ) → (slice_get list.now n ≡ Some (Some u)) ↔ (result ≡ Some u) }
{
    match list.get(n) {
        Some(entry) => *entry,
        None => None,
    }
}

// Returns the ends of the chain from a number to another, if one reaches it: the first number, and at most `last` of
// those after it, the last ones.
fn ends_to(
    alloc: Global,
    chains: &Chains,
    first: usize,
    to: usize,
    last: usize,
) -> Result<Option<ChainEnds>, AllocError>
    ensures { IfOk result (λ ends. (rows : List (List ℕ)) → AreChains rows first chains.now
        → MatchOption ends (IsChainIfReached rows first to None)
        (λ e. (ids : List ℕ) × ChainTo rows first to ids × AreLast last ids e)) }
{
    let Some(count) = entry_of(&chains.far, to) else {
        return Ok(None);
    };
    let mut ids = Vec::new(alloc);
    let mut at = to;
    for _step in 0..count.min(last) {
        let Some(before) = entry_of(&chains.backs, at) else {
            return Ok(None);
        };
        ids.push(at)?;
        at = before;
    }
    ids.push(first)?;
    ids.reverse();
    Ok(Some(ChainEnds {
        ids,
        left: count.saturating_sub(last),
    }))
}

impl NameChains {
    /// Returns the ends of the chain to a name, if one reaches it: the id of the judged rule, and at most `last` of the
    /// ids after it, the last ones. The time does not depend on the length of the chain.
    ///
    /// # Errors
    /// `Memory` if an allocation fails.
    pub fn chain_ends(
        &self,
        alloc: Global,
        name: &[u8],
        last: usize,
    ) -> Result<Option<ChainEnds>, Memory>
        ensures { IfOk result (λ ends. (rules : List Rule) (given : Option (List ℕ))
            → AreNameChains rules given self.now → MatchOption ends (IsNameChain rules given name.now None)
            (λ e. (ids : List ℕ) × IsNameChain rules given name.now (Some (names_at (names_of self.now.names) ids))
            × AreLast last ids e)) }
    {
        let Some(id) = self.names.find(name)? else {
            return Ok(None);
        };
        let Some(chains) = &self.chains else {
            return Ok(None);
        };
        Ok(ends_to(alloc, chains, self.judged, id, last)?)
    }
}

/// Says that at most one chain of names reaches a name from the judged rule's. It does nothing.
pub fn one_name_chain()
    ensures { (rules : List Rule) (given : Option (List ℕ)) (name : List ℕ) (a b : Option (List (List ℕ)))
        → IsNameChain rules given name a → IsNameChain rules given name b → a ≡ b }
{}
