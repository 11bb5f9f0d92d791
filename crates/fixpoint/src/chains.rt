//! Shortest chains from a number.
ghost use Rattle.std.specs.Prelude.{◌≡◌, ℕ, ◌<◌, List, length, IfOk, option_map};
ghost use Rattle.fixpoint.specs.StepRows.{slices_of, AreStepsWithin};
ghost use Rattle.fixpoint.specs.Fills.{EntryIs};
ghost use Rattle.fixpoint.specs.ShortChains.{AreChains, IsChainIfReached, IsRoundIfAny};

use crate::backs::backs_of;
use crate::distances::distances;
use crate::rounds::nearest_before;
use std::alloc::{AllocError, Global};

/// Of all numbers how far they are from one, and which number stands before each.
#[derive(Drop)]
pub struct Chains {
    /// Of each number the number of steps of a shortest chain to it, if one reaches it.
    pub far: Vec<Option<usize>>,
    /// Of each number the least one that is a step nearer, if there is one.
    pub backs: Vec<Option<usize>>,
}

/// Returns the shortest chains of steps from `from`.
///
/// `steps[n]` lists the numbers to which steps lead from `n`. The time is linear in rows and steps.
///
/// # Errors
/// `AllocError` if an allocation fails.
pub fn chains_from(alloc: Global, steps: &[&[usize]], from: usize) -> Result<Chains, AllocError>
    requires within { AreStepsWithin (slices_of steps.now) }
    requires from { from < length steps.now }
    ensures { IfOk result (λ chains. AreChains (slices_of steps.now) from chains) }
{
    let far = distances(alloc, steps, from)?;
    let backs = backs_of(alloc, steps, &far)?;
    Ok(Chains { far, backs })
}

/// Returns the entry of a number in a list, if it has one.
pub(crate) fn reported(list: &[Option<usize>], n: usize) -> Option<usize>
    ensures { EntryIs list.now n result }
{
    match list.get(n) {
        Some(reported) => *reported,
        None => None,
    }
}

impl Chains {
    /// Returns the chain to a number, with both ends, if one reaches it: of the shortest ones that which has the least
    /// number before each.
    ///
    /// # Errors
    /// `AllocError` if an allocation fails.
    pub fn chain_to(&self, alloc: Global, n: usize) -> Result<Option<Vec<usize>>, AllocError>
        ensures { IfOk result (λ chain. (rows : List (List ℕ)) (s : ℕ) → AreChains rows s self.now
            → IsChainIfReached rows s n (option_map (λ v. v.items) chain)) }
    {
        let Some(count) = reported(&self.far, n) else {
            return Ok(None);
        };
        let mut chain = Vec::new(alloc);
        let mut at = n;
        for _step in 0..count {
            let Some(before) = reported(&self.backs, at) else {
                return Ok(None);
            };
            chain.push(at)?;
            at = before;
        }
        chain.push(at)?;
        chain.reverse();
        Ok(Some(chain))
    }

    /// Returns the numbers of a shortest cycle through `from`, if steps lead back to it. It begins with `from`, and
    /// does not repeat it. Of the shortest cycles it returns the one with the least number before each. `steps` are
    /// those of the chains.
    ///
    /// # Errors
    /// `AllocError` if an allocation fails.
    pub fn way_back(
        &self,
        alloc: Global,
        steps: &[&[usize]],
        from: usize,
    ) -> Result<Option<Vec<usize>>, AllocError>
        ensures { IfOk result (λ chain. AreChains (slices_of steps.now) from self.now
            → IsRoundIfAny (slices_of steps.now) from (option_map (λ v. v.items) chain)) }
    {
        match nearest_before(&self.far, steps, from) {
            Some(last) => self.chain_to(alloc, last.number),
            None => Ok(None),
        }
    }
}
