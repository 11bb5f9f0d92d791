//! Goals that no line reaches.
ghost use Rattle.std.specs.Prelude.{◌≡◌, ◌+◌, ◌<◌, ◌≤◌, ◌↔◌, List, IfOk, IsTrue, length};
ghost use Rattle.abnfread.specs.AbnfViews.{element_of, elements_of, rules_of};
ghost use Rattle.abnfread.specs.Element.{Alt, Concat, Rule};
ghost use Rattle.coverlines.specs.KnownWords.{AreKnownOf, AreWords};
ghost use Rattle.coverlines.specs.MissedGoals.{AreMissed, goals_from, goals_in, own_goals};
ghost use Rattle.coverlines.specs.MissedSteps.{AddsGoals, HasMadeIn, HasMadeWithin, IsRoomInside};
ghost use Rattle.coverlines.specs.MissedSteps.{room_of_context};
ghost use Rattle.coverlines.specs.RuleContexts.{AreShortestContexts};

use crate::context::LineContext;
use crate::made::{MadeWord, made_words};
use crate::named::named_rules;
use crate::sites::other_rounds;
use crate::way::{CoverGoal, GoalWay};
use crate::ways::goal_ways;
use crate::words::{Words, shortest_all};
use abnfread::Elem;
use ruletable::{Memory, NameCase, RuleTable};
use std::alloc::Global;

// Returns how many symbols stand round an operand: those round the whole and those of both lists, if all are there and
// a line has at most `limit` symbols.
fn room_inside(
    limit: usize,
    room: Option<usize>,
    front: &Option<Vec<u32>>,
    back: &Option<Vec<u32>>,
) -> Option<usize>
    ensures { IsRoomInside limit room front.now back.now result }
{
    let Some(outer) = room else {
        return None;
    };
    let Some(before) = front else {
        return None;
    };
    let Some(after) = back else {
        return None;
    };
    if limit < outer || limit - outer < before.len() + after.len() {
        return None;
    }
    Some(outer + (before.len() + after.len()))
}

// Returns whether so many symbols and so many others have at most `limit` together.
fn has_space(limit: usize, room: usize, len: usize) -> bool
    ensures { IsTrue result ↔ (room + len ≤ limit) }
{
    room <= limit && len <= limit - room
}

// Returns whether a list is made in that way, and fits in a line with so many other symbols.
fn is_fitting(one: &MadeWord, way: GoalWay, limit: usize, room: usize) -> bool
    ensures { IsTrue result ↔ ((one.now.way ≡ way) × (room + length one.now.word.items ≤ limit)) }
{
    one.way == way && has_space(limit, room, one.word.len())
}

// Returns whether one of the lists is made in that way, and fits in a line with so many other symbols.
fn has_fitting(made: &[MadeWord], way: GoalWay, limit: usize, room: usize) -> bool
    ensures { IsTrue result ↔ HasMadeWithin made.now way limit room }
{
    for one in made {
        if is_fitting(one, way, limit, room) {
            return true;
        }
    }
    false
}

// Returns whether the element makes a list in that way, and so many symbols round it leave space for it in a line.
fn fits(made: &[MadeWord], way: GoalWay, limit: usize, room: Option<usize>) -> bool
    ensures { IsTrue result ↔ HasMadeIn made.now way limit room }
{
    match room {
        Some(room) => has_fitting(made, way, limit, room),
        None => false,
    }
}

// Adds the goals of an element itself that no line reaches.
fn add_own<'a>(
    alloc: Global,
    words: &Words<'_>,
    rule: usize,
    e: &'a Elem,
    room: Option<usize>,
    found: &mut Vec<CoverGoal<'a>>,
) -> Result<(), Memory>
    requires { AreWords words.now }
    ensures { IfOk result (λ _. (rules : List Rule) → AreKnownOf words.now rules
        → AddsGoals words.now.bounds rules rule (element_of e.now) room (own_goals (element_of e.now)) found.old.items
        found.new.items) }
{
    let made = made_words(alloc, words, e)?;
    let ways = goal_ways(alloc, e)?;
    for way in &ways {
        if fits(&made, *way, words.bounds.limit, room) {
            continue;
        }
        found.push(CoverGoal {
            rule,
            elem: e,
            way: *way,
        })?;
    }
    Ok(())
}

// Adds the goals within members that no line reaches.
#[cycle(missed)]
fn add_in_members<'a>(
    alloc: Global,
    words: &Words<'_>,
    rule: usize,
    members: &'a [Elem],
    room: Option<usize>,
    found: &mut Vec<CoverGoal<'a>>,
) -> Result<(), Memory>
    requires { AreWords words.now }
    ensures { IfOk result (λ _. (rules : List Rule) → AreKnownOf words.now rules
        → AddsGoals words.now.bounds rules rule (Concat (elements_of members.now)) room
        (goals_from 0 (elements_of members.now)) found.old.items found.new.items) }
{
    for (i, member) in members.iter().enumerate() {
        let front = shortest_all(alloc, words, &members[..i])?;
        let back = shortest_all(alloc, words, &members[i + 1..])?;
        let inner = room_inside(words.bounds.limit, room, &front, &back);
        add_missed(alloc, words, rule, member, inner, found)?;
    }
    Ok(())
}

// Adds the goals within alternatives that no line reaches.
#[cycle(missed)]
fn add_in_alternatives<'a>(
    alloc: Global,
    words: &Words<'_>,
    rule: usize,
    alternatives: &'a [Elem],
    room: Option<usize>,
    found: &mut Vec<CoverGoal<'a>>,
) -> Result<(), Memory>
    requires { AreWords words.now }
    ensures { IfOk result (λ _. (rules : List Rule) → AreKnownOf words.now rules
        → AddsGoals words.now.bounds rules rule (Alt (elements_of alternatives.now)) room
        (goals_from 0 (elements_of alternatives.now)) found.old.items found.new.items) }
{
    for alternative in alternatives {
        add_missed(alloc, words, rule, alternative, room, found)?;
    }
    Ok(())
}

// Adds the goals within an element that no line reaches, where so many symbols stand round it, or no line has it.
#[cycle(missed)]
fn add_missed<'a>(
    alloc: Global,
    words: &Words<'_>,
    rule: usize,
    e: &'a Elem,
    room: Option<usize>,
    found: &mut Vec<CoverGoal<'a>>,
) -> Result<(), Memory>
    requires { AreWords words.now }
    ensures { IfOk result (λ _. (rules : List Rule) → AreKnownOf words.now rules
        → AddsGoals words.now.bounds rules rule (element_of e.now) room (goals_in (element_of e.now)) found.old.items
        found.new.items) }
{
    add_own(alloc, words, rule, e, room, found)?;
    match e {
        Elem::Concat(members) => add_in_members(alloc, words, rule, members, room, found),
        Elem::Alt(alternatives) => add_in_alternatives(
            alloc,
            words,
            rule,
            alternatives,
            room,
            found,
        ),
        Elem::Rep {
            least,
            most,
            operand,
        } => {
            let front = Some(Vec::new(alloc));
            let back = other_rounds(alloc, words, *least, *most, operand)?;
            let inner = room_inside(words.bounds.limit, room, &front, &back);
            add_missed(alloc, words, rule, operand, inner, found)
        }
        Elem::Opt(operand) => add_missed(alloc, words, rule, operand, room, found),
        Elem::Text { .. } => Ok(()),
        Elem::Values(_) => Ok(()),
        Elem::Range { .. } => Ok(()),
        Elem::Name(_) => Ok(()),
        Elem::Prose(_) => Ok(()),
    }
}

// Returns how many symbols a context has, if there is one.
fn context_room(context: &Option<LineContext>) -> Option<usize>
    ensures { result ≡ room_of_context context.now }
{
    match context {
        Some(context) => Some(context.len()),
        None => None,
    }
}

/// Returns the goals of the rules to which names lead that no line reaches, in the order of rules and of sites.
pub(crate) fn missed_goals<'a>(
    alloc: Global,
    rules: &'a RuleTable<Elem>,
    words: &Words<'_>,
    contexts: &[Option<LineContext>],
    judged: usize,
) -> Result<Vec<CoverGoal<'a>>, Memory>
    requires names { rules.now.names ≡ NameCase.Fold }
    requires judged { judged < length rules.now.rules }
    requires words { AreWords words.now }
    requires known { AreKnownOf words.now (rules_of rules.now) }
    requires contexts { AreShortestContexts words.now.bounds (rules_of rules.now) judged contexts.now }
    ensures { IfOk result (λ missed. AreMissed words.now.bounds (rules_of rules.now) judged missed.items) }
{
    let named = named_rules(alloc, rules, judged)?;
    let mut found = Vec::new(alloc);
    for id in 0..rules.len() {
        let is_named = named[id];
        if !is_named {
            continue;
        }
        let room = context_room(&contexts[id]);
        add_missed(alloc, words, id, rules.body(id), room, &mut found)?;
    }
    Ok(found)
}
