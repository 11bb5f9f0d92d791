//! The ways of elements that are goals.
ghost use Rattle.std.specs.Prelude.{◌≡◌, ◌∷◌, ◌++◌, [], IfOk};
ghost use Rattle.abnfread.specs.AbnfViews.{element_of};
ghost use Rattle.coverlines.specs.MissedGoals.{chosen_below, has_letters as the_has_letters};
ghost use Rattle.coverlines.specs.MissedGoals.{round_ways as the_round_ways};
ghost use Rattle.coverlines.specs.MissedGoals.{way_if, ways_of};

use crate::way::GoalWay;
use abnfread::Elem;
use ruletable::Memory;
use std::alloc::Global;

// Returns whether a text has a US-ASCII letter.
fn has_letters(text: &[u8]) -> bool
    ensures { result ≡ the_has_letters text.now }
{
    for byte in text {
        if byte.is_ascii_alphabetic() {
            return true;
        }
    }
    false
}

// Adds a way, if the condition holds.
fn push_if(ways: &mut Vec<GoalWay>, holds: bool, way: GoalWay) -> Result<(), Memory>
    ensures { IfOk result (λ _. ways.new.items ≡ ways.old.items ++ way_if holds way) }
{
    if !holds {
        return Ok(());
    }
    ways.push(way)?;
    Ok(())
}

// Returns the ways of an alternation of so many alternatives.
fn chosen_ways(alloc: Global, count: usize) -> Result<Vec<GoalWay>, Memory>
    ensures { IfOk result (λ ways. ways.items ≡ chosen_below count) }
{
    let mut ways = Vec::new(alloc);
    for i in 0..count {
        ways.push(GoalWay::Chosen(i))?;
    }
    Ok(ways)
}

// Returns the ways of a repetition.
fn round_ways(alloc: Global, least: u32, most: Option<u32>) -> Result<Vec<GoalWay>, Memory>
    ensures { IfOk result (λ ways. ways.items ≡ the_round_ways least most) }
{
    let mut ways = Vec::new(alloc);
    ways.push(GoalWay::Rounds(u64::from(least)))?;
    let Some(most) = most else {
        ways.push(GoalWay::Rounds(u64::from(least) + 1))?;
        return Ok(ways);
    };
    push_if(&mut ways, most != least, GoalWay::Rounds(u64::from(most)))?;
    push_if(&mut ways, least == 0 && 1 < most, GoalWay::Rounds(1))?;
    Ok(ways)
}

// Returns two ways.
fn both_ways(alloc: Global, first: GoalWay, second: GoalWay) -> Result<Vec<GoalWay>, Memory>
    ensures { IfOk result (λ ways. ways.items ≡ first ∷ second ∷ []) }
{
    let mut ways = Vec::new(alloc);
    ways.push(first)?;
    ways.push(second)?;
    Ok(ways)
}

// Returns a text's or a list's own way, and the other case if the condition holds.
fn text_ways(alloc: Global, other: bool) -> Result<Vec<GoalWay>, Memory>
    ensures { IfOk result (λ ways. ways.items ≡ GoalWay.Same ∷ way_if other GoalWay.OtherCase) }
{
    let mut ways = Vec::new(alloc);
    ways.push(GoalWay::Same)?;
    push_if(&mut ways, other, GoalWay::OtherCase)?;
    Ok(ways)
}

/// Returns the ways of an element that are goals.
pub(crate) fn goal_ways(alloc: Global, e: &Elem) -> Result<Vec<GoalWay>, Memory>
    ensures { IfOk result (λ ways. ways.items ≡ ways_of (element_of e.now)) }
{
    match e {
        Elem::Text { folds, text } => text_ways(alloc, *folds && has_letters(text)),
        Elem::Values(_) => text_ways(alloc, false),
        Elem::Range { .. } => both_ways(alloc, GoalWay::First, GoalWay::Last),
        Elem::Alt(alternatives) => chosen_ways(alloc, alternatives.len()),
        Elem::Rep { least, most, .. } => round_ways(alloc, *least, *most),
        Elem::Opt(_) => both_ways(alloc, GoalWay::Taken, GoalWay::LeftOut),
        Elem::Concat(_) | Elem::Name(_) | Elem::Prose(_) => Ok(Vec::new(alloc)),
    }
}
