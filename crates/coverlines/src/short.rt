//! Shortest lists of symbols.
ghost use Rattle.std.specs.Prelude.{◌≡◌, ℕ, List, IfOk};
ghost use Rattle.abnfread.specs.Element.{Element, Elements, Rule, append, more, none};
ghost use Rattle.coverlines.specs.Shortest.{Admitted, IsShortest, Spells, SpellsAll, SpellsSome, SpellsTimes};
ghost use Rattle.coverlines.specs.declared.bounds.LineBounds.{LineBounds as the_bounds};

use crate::bounds::LineBounds;
use ruletable::Memory;
use std::alloc::Global;

/// Returns the shorter one of two lists; the first, if they are as long.
pub(crate) fn shorter(best: Option<Vec<u32>>, next: Option<Vec<u32>>) -> Option<Vec<u32>>
    ensures { (b : the_bounds) (rules : List Rule) (es : Elements) (e : Element) (limit : ℕ)
        → IsShortest (SpellsSome b rules es) limit best → IsShortest (Spells b rules e) limit next
        → IsShortest (SpellsSome b rules (append es (more e none))) limit result }
{
    let Some(first) = best else {
        return next;
    };
    let Some(second) = next else {
        return Some(first);
    };
    if second.len() < first.len() {
        Some(second)
    } else {
        Some(first)
    }
}

/// Returns one list and then another, if they are there and have at most `limit` symbols together.
pub(crate) fn joined(
    limit: usize,
    all: Option<Vec<u32>>,
    next: Option<Vec<u32>>,
) -> Result<Option<Vec<u32>>, Memory>
    ensures { IfOk result (λ r. (b : the_bounds) (rules : List Rule) (es : Elements) (e : Element)
        → IsShortest (SpellsAll b rules es) limit all → IsShortest (Spells b rules e) limit next
        → IsShortest (SpellsAll b rules (append es (more e none))) limit r) }
{
    let Some(front) = all else {
        return Ok(None);
    };
    let Some(back) = next else {
        return Ok(None);
    };
    if limit < front.len() + back.len() {
        return Ok(None);
    }
    let mut both = front;
    both.extend_from_slice(&back)?;
    Ok(Some(both))
}

/// Returns a list so many times, if it is there and that has at most `limit` symbols.
pub(crate) fn repeated(
    alloc: Global,
    limit: usize,
    word: Option<Vec<u32>>,
    count: u64,
) -> Result<Option<Vec<u32>>, Memory>
    ensures { IfOk result (λ r. (b : the_bounds) (rules : List Rule) (e : Element)
        → IsShortest (Spells b rules e) limit word → IsShortest (SpellsTimes b rules e count) limit r) }
{
    if count == 0 {
        return Ok(Some(Vec::new(alloc)));
    }
    let Some(round) = word else {
        return Ok(None);
    };
    if round.is_empty() {
        return Ok(Some(round));
    }
    let mut all = Vec::new(alloc);
    for _ in 0..count {
        if limit < all.len() + round.len() {
            return Ok(None);
        }
        all.extend_from_slice(&round)?;
    }
    Ok(Some(all))
}

/// Returns a list, if it may stand in a line.
pub(crate) fn admitted(bounds: LineBounds, word: Vec<u32>) -> Option<Vec<u32>>
    ensures { IsShortest (Admitted bounds (λ w. w ≡ word.items)) bounds.limit result }
{
    if bounds.admits(&word) {
        Some(word)
    } else {
        None
    }
}
