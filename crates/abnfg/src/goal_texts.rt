//! What the lines that reach goals are for, as texts.
ghost use Rattle.std.specs.Prelude.{◌≡◌, ◌++◌, IfOk, OnOk, decimal};
ghost use Rattle.abnfg.specs.CoverGoals.{
  alternative_of,
  cover_text,
  goal_text,
  missed_count,
  missed_line,
  missed_lines,
  reached_line,
  reached_lines,
  subject_of,
  closing_words,
  opening_words,
  rounds_text,
};
ghost use Rattle.abnfread.specs.AbnfViews.{element_of, rules_of};

use abnfread::Elem;
use coverlines::{CoverGoal, CoverLine, GoalWay};
use diagnostics::push_number;
use refusedlines::{LineUnit, elem_text, rule_name, unit_word};
use ruletable::{Memory, RuleTable};
use std::alloc::Global;

// Returns the alternative of that number; the element itself if it has none.
fn alternative(e: &Elem, i: usize) -> &Elem
    ensures { element_of result.now ≡ alternative_of (element_of e.now) i }
{
    match e {
        Elem::Alt(alternatives) => {
            if i < alternatives.len() {
                &alternatives[i]
            } else {
                e
            }
        }
        _ => e,
    }
}

// Returns the element that a goal names: the alternative that is taken, or else the element itself.
fn subject<'a>(goal: &CoverGoal<'a>) -> &'a Elem
    ensures { element_of result.now ≡ subject_of (element_of goal.now.elem.now) goal.now.way }
{
    match goal.way {
        GoalWay::Chosen(i) => alternative(goal.elem, i),
        _ => goal.elem,
    }
}

// Adds how many rounds a repetition takes.
fn push_rounds(out: &mut Vec<u8>, way: GoalWay) -> Result<(), Memory>
    ensures { OnOk result (out.new.items ≡ out.old.items ++ rounds_text way) }
{
    match way {
        GoalWay::Rounds(count) => push_number(out, count as usize),
        _ => Ok(()),
    }
}

// Returns the words before the element that a goal names.
fn words_before(way: GoalWay) -> &'static [u8]
    ensures { result.now ≡ opening_words way }
{
    match way {
        GoalWay::Chosen(_) => b"alternative ",
        GoalWay::Rounds(_) => b" turns of ",
        GoalWay::First => b"first of ",
        GoalWay::Last => b"last of ",
        GoalWay::OtherCase => b"other case of ",
        GoalWay::Taken | GoalWay::LeftOut | GoalWay::Same => b"",
    }
}

// Returns the words after it.
fn words_after(way: GoalWay) -> &'static [u8]
    ensures { result.now ≡ closing_words way }
{
    match way {
        GoalWay::Taken => b" taken",
        GoalWay::LeftOut => b" left out",
        _ => b"",
    }
}

// Adds the text of a goal: what an element does, and in which rule. `Memory` if an allocation fails.
fn push_goal(
    alloc: Global,
    out: &mut Vec<u8>,
    rules: &RuleTable<Elem>,
    goal: &CoverGoal<'_>,
) -> Result<(), Memory>
    ensures { OnOk result (out.new.items ≡ out.old.items ++ goal_text (rules_of rules.now) goal.now) }
{
    let text = elem_text(alloc, subject(goal))?;
    push_rounds(out, goal.way)?;
    out.extend_from_slice(words_before(goal.way))?;
    out.extend_from_slice(&text)?;
    out.extend_from_slice(words_after(goal.way))?;
    out.extend_from_slice(b" in ")?;
    out.extend_from_slice(rule_name(rules, goal.rule))?;
    Ok(())
}

// Adds the line that says what a line or a record of that number is for. `Memory` if an allocation fails.
fn push_reached(
    alloc: Global,
    out: &mut Vec<u8>,
    unit: LineUnit,
    rules: &RuleTable<Elem>,
    number: usize,
    goal: &CoverGoal<'_>,
) -> Result<(), Memory>
    ensures { OnOk result (out.new.items ≡ out.old.items ++ reached_line unit (rules_of rules.now) number goal.now) }
{
    out.extend_from_slice(unit_word(unit))?;
    push_number(out, number)?;
    out.extend_from_slice(b": ")?;
    push_goal(alloc, out, rules, goal)?;
    out.extend_from_slice(b"\n")?;
    Ok(())
}

// Adds the line that says that no line reaches a goal. `Memory` if an allocation fails.
fn push_missed(
    alloc: Global,
    out: &mut Vec<u8>,
    rules: &RuleTable<Elem>,
    goal: &CoverGoal<'_>,
) -> Result<(), Memory>
    ensures { OnOk result (out.new.items ≡ out.old.items ++ missed_line (rules_of rules.now) goal.now) }
{
    out.extend_from_slice(b"in no line: ")?;
    push_goal(alloc, out, rules, goal)?;
    out.extend_from_slice(b"\n")?;
    Ok(())
}

// Adds what each of some lines or records is for. They have the numbers from 1 on. `Memory` if an allocation fails.
fn push_all_reached(
    alloc: Global,
    out: &mut Vec<u8>,
    unit: LineUnit,
    rules: &RuleTable<Elem>,
    lines: &[CoverLine<'_>],
) -> Result<(), Memory>
    ensures { OnOk result (out.new.items ≡ out.old.items ++ reached_lines unit (rules_of rules.now) 1 lines.now) }
{
    for (index, line) in lines.iter().enumerate() {
        push_reached(alloc, out, unit, rules, index + 1, &line.goal)?;
    }
    Ok(())
}

// Adds that no line reaches these goals. `Memory` if an allocation fails.
fn push_all_missed(
    alloc: Global,
    out: &mut Vec<u8>,
    rules: &RuleTable<Elem>,
    missed: &[CoverGoal<'_>],
) -> Result<(), Memory>
    ensures { OnOk result (out.new.items ≡ out.old.items ++ missed_lines (rules_of rules.now) missed.now) }
{
    for goal in missed {
        push_missed(alloc, out, rules, goal)?;
    }
    Ok(())
}

// Adds how many goals no line reaches, if there are some.
fn push_count(out: &mut Vec<u8>, count: usize) -> Result<(), Memory>
    ensures { OnOk result (out.new.items ≡ out.old.items ++ missed_count count) }
{
    if count == 0 {
        return Ok(());
    }
    push_number(out, count)?;
    out.extend_from_slice(b" goals are in no line\n")?;
    Ok(())
}

/// Returns what each of some lines or records is for, which have the numbers from 1 on, and then the goals that no line
/// reaches, and their number. `Memory` if an allocation fails.
pub(crate) fn explain_cover(
    alloc: Global,
    unit: LineUnit,
    rules: &RuleTable<Elem>,
    lines: &[CoverLine<'_>],
    missed: &[CoverGoal<'_>],
) -> Result<Vec<u8>, Memory>
    ensures { IfOk result (λ text. text.items ≡ cover_text unit (rules_of rules.now) lines.now missed.now) }
{
    let mut out = Vec::new(alloc);
    push_all_reached(alloc, &mut out, unit, rules, lines)?;
    push_all_missed(alloc, &mut out, rules, missed)?;
    push_count(&mut out, missed.len())?;
    Ok(out)
}
