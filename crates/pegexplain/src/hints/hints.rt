//! The hints on a grammar's rules.
ghost use Rattle.std.specs.Prelude.{◌≡◌, ◌++◌, [], map, IfOk, OnOk};
ghost use Rattle.pegread.specs.PegViews.{pattern_of, patterns_of, rules_of};
ghost use Rattle.pegexplain.specs.CodeHints.{IsIndexed, alternatives_found, hint_found, known_literal, null_in};
ghost use Rattle.pegexplain.specs.CodeHints.{sure_in};
ghost use Rattle.pegexplain.specs.HiddenAlternatives.{
  alternative_hints,
  hiding,
  hint_if,
  hints_in,
  marks_in,
  marks_in_all,
  member_hints,
};
ghost use Rattle.pegexplain.specs.PegHints.{hints_of};

use crate::hints::alternatives::{Earlier, Hidden, alternative_of, hiding_of, push_alternative};
use crate::hints::known::KnownRules;
use crate::hints::marks::add_marks;
use diagnostics::MentionKind;
use pegread::Expr;
use ruletable::{Memory, NameCase, RuleTable};
use std::alloc::Global;

/// A hint on an alternative that is never taken.
#[derive(Clone, Copy)]
pub(crate) struct Hint<'a> {
    /// The name of the rule.
    pub(crate) rule: &'a [u8],
    /// The body of the rule.
    pub(crate) body: &'a Expr,
    /// How many marks of the body stand before the alternative.
    pub(crate) position: usize,
    /// The alternative.
    pub(crate) hidden: Hidden<'a>,
}

/// A rule in which alternatives are looked for.
#[derive(Clone, Copy)]
struct Within<'a> {
    /// All rules.
    known: KnownRules<'a>,
    /// The name of the rule.
    rule: &'a [u8],
    /// Its body.
    body: &'a Expr,
}

// Adds the hint on an alternative before which so many marks stand, if any marks stand in it and it is never taken.
fn push_hint<'a>(
    alloc: Global,
    within: &Within<'a>,
    before: &Earlier<'a>,
    e: &'a Expr,
    position: usize,
    found: &mut Vec<Hint<'a>>,
) -> Result<(), Memory>
    requires { IsIndexed before.now }
    ensures { OnOk result (map hint_found found.new.items ≡ map hint_found found.old.items
        ++ hint_if within.now.rule.now (pattern_of within.now.body.now) position (marks_in (pattern_of e.now))
        (hiding (known_literal within.now.known) (sure_in within.now.known) (null_in within.now.known)
        (alternatives_found before.now.all.items) (pattern_of e.now))) }
{
    let mut marks = Vec::new(alloc);
    add_marks(e, &mut marks)?;
    if marks.is_empty() {
        return Ok(());
    }
    if let Some(hidden) = hiding_of(&within.known, before, e)? {
        found.push(Hint {
            rule: within.rule,
            body: within.body,
            position,
            hidden,
        })?;
    }
    Ok(())
}

// Adds the hints on the alternatives in an expression, after marks, and its marks.
#[cycle(hinting)]
fn add_hints<'a>(
    alloc: Global,
    within: &Within<'a>,
    e: &'a Expr,
    marks: &mut Vec<MentionKind>,
    found: &mut Vec<Hint<'a>>,
) -> Result<(), Memory>
    ensures marks { OnOk result (marks.new.items ≡ marks.old.items ++ marks_in (pattern_of e.now)) }
    ensures hints { OnOk result (map hint_found found.new.items ≡ map hint_found found.old.items
        ++ hints_in (known_literal within.now.known) (sure_in within.now.known) (null_in within.now.known)
        within.now.rule.now (pattern_of within.now.body.now) marks.old.items (pattern_of e.now)) }
{
    match e {
        Expr::Seq(members) => add_member_hints(alloc, within, members, marks, found),
        Expr::Choice(alternatives) => {
            add_alternative_hints(alloc, within, alternatives, marks, found)
        }
        Expr::Star(operand)
        | Expr::Plus(operand)
        | Expr::Opt(operand)
        | Expr::And(operand)
        | Expr::Not(operand) => add_hints(alloc, within, operand, marks, found),
        Expr::Any
        | Expr::Bytes(_)
        | Expr::Set(_)
        | Expr::Name(_)
        | Expr::Act(_)
        | Expr::Open
        | Expr::Close => add_marks(e, marks),
    }
}

// Adds those in the members of a sequence.
#[cycle(hinting)]
fn add_member_hints<'a>(
    alloc: Global,
    within: &Within<'a>,
    members: &'a [Expr],
    marks: &mut Vec<MentionKind>,
    found: &mut Vec<Hint<'a>>,
) -> Result<(), Memory>
    ensures marks { OnOk result (marks.new.items ≡ marks.old.items ++ marks_in_all (patterns_of members.now)) }
    ensures hints { OnOk result (map hint_found found.new.items ≡ map hint_found found.old.items
        ++ member_hints (known_literal within.now.known) (sure_in within.now.known) (null_in within.now.known)
        within.now.rule.now (pattern_of within.now.body.now) marks.old.items (patterns_of members.now)) }
{
    for member in members {
        add_hints(alloc, within, member, marks, found)?;
    }
    Ok(())
}

// Adds those on alternatives and in them.
#[cycle(hinting)]
fn add_alternative_hints<'a>(
    alloc: Global,
    within: &Within<'a>,
    alternatives: &'a [Expr],
    marks: &mut Vec<MentionKind>,
    found: &mut Vec<Hint<'a>>,
) -> Result<(), Memory>
    ensures marks { OnOk result (marks.new.items ≡ marks.old.items ++ marks_in_all (patterns_of alternatives.now)) }
    ensures hints { OnOk result (map hint_found found.new.items ≡ map hint_found found.old.items
        ++ alternative_hints (known_literal within.now.known) (sure_in within.now.known) (null_in within.now.known)
        within.now.rule.now (pattern_of within.now.body.now) marks.old.items [] (patterns_of alternatives.now)) }
{
    let mut before = Earlier {
        all: Vec::new(alloc),
        sure: None,
        dot: None,
        literals: RuleTable::new(alloc, NameCase::Exact),
        sizes: Vec::new(alloc),
    };
    for alternative in alternatives {
        push_hint(alloc, within, &before, alternative, marks.len(), found)?;
        add_hints(alloc, within, alternative, marks, found)?;
        let described = alternative_of(&within.known, alternative)?;
        push_alternative(alloc, &mut before, described)?;
    }
    Ok(())
}

// Adds the hints on a rule.
fn add_rule_hints<'a>(
    alloc: Global,
    known: KnownRules<'a>,
    rule: &'a [u8],
    body: &'a Expr,
    found: &mut Vec<Hint<'a>>,
) -> Result<(), Memory>
    ensures { OnOk result (map hint_found found.new.items ≡ map hint_found found.old.items
        ++ hints_in (known_literal known.entry) (sure_in known.entry) (null_in known.entry) rule.now
        (pattern_of body.now) [] (pattern_of body.now)) }
{
    let within = Within { known, rule, body };
    let mut marks = Vec::new(alloc);
    add_hints(alloc, &within, body, &mut marks, found)
}

/// Returns the hints on the rules, in order.
///
/// `Memory` if an allocation fails.
pub(crate) fn all_hints<'a>(alloc: Global, known: KnownRules<'a>) -> Result<Vec<Hint<'a>>, Memory>
    ensures { IfOk result (λ v. map hint_found v.items ≡ hints_of (known_literal known.entry) (sure_in known.entry)
        (null_in known.entry) (rules_of known.entry.rules.now)) }
{
    let mut found = Vec::new(alloc);
    let rules = known.rules;
    for id in 0..rules.len() {
        add_rule_hints(alloc, known, rules.name(id), rules.body(id), &mut found)?;
    }
    Ok(found)
}
