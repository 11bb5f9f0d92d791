//! Alternatives that are taken wherever later ones would be.
ghost use Rattle.std.specs.Prelude.{◌≡◌, ◌==◌, ◌++◌, ◌∷◌, [], ℕ, List, option_map, if◌then◌else◌, IfOk, OnOk};
ghost use Rattle.diagnostics.specs.NumberLists.{numbers_for};
ghost use Rattle.std.specs.List.{starts_with};
ghost use Rattle.pegread.specs.PegViews.{pattern_of};
ghost use Rattle.ruletable.specs.declared.table.NameCase.TheVariants.{Exact};
ghost use Rattle.pegexplain.specs.CodeHints.{
  IsIndexed,
  IsSized,
  alternative_found,
  alternatives_found,
  earlier_position,
  first_at,
  hidden_found,
  hides,
  is_literal,
  known_literal,
  null_in,
  sure_in,
};
ghost use Rattle.pegexplain.specs.HiddenAlternatives.{
  described,
  first_member as the_first_member,
  hidden_by,
  hiding,
  is_any as is_a_dot,
  is_prefix as begins,
  shown_of,
  why_by,
};

use crate::hints::known::{KnownRules, fails_nowhere, literal_of, may_take_nothing};
use crate::hints::why::Why;
use diagnostics::{add_number, numbers_of};
use pegread::Expr;
use ruletable::{Memory, RuleTable};
use std::alloc::Global;

/// An alternative, and what it takes.
#[derive(Clone, Copy)]
pub(crate) struct Alternative<'a> {
    /// The alternative.
    pub(crate) e: &'a Expr,
    /// Whether it fails nowhere.
    pub(crate) sure: bool,
    /// The literal that it is, or that its rule is.
    pub(crate) literal: Option<&'a [u8]>,
}

/// The alternatives of a choice before another one. The first that hides it is found in time that does not depend on
/// their number.
#[derive(Drop)]
pub(crate) struct Earlier<'a> {
    /// The alternatives, in order.
    pub(crate) all: Vec<Alternative<'a>>,
    /// Where the first one stands that fails nowhere.
    pub(crate) sure: Option<usize>,
    /// Where the first dot stands.
    pub(crate) dot: Option<usize>,
    /// Where those of each literal stand.
    pub(crate) literals: RuleTable<Vec<usize>>,
    /// The sizes of the literals.
    pub(crate) sizes: Vec<usize>,
}

/// An alternative that is never taken.
#[derive(Clone, Copy)]
pub(crate) struct Hidden<'a> {
    /// What is shown of it.
    pub(crate) later: &'a Expr,
    /// The alternative before it that is taken first.
    pub(crate) earlier: &'a Expr,
    /// Why that is taken.
    pub(crate) why: Why,
}

/// Returns an alternative, and what it takes.
///
/// `Memory` if an allocation fails.
pub(crate) fn alternative_of<'a>(
    known: &KnownRules<'a>,
    e: &'a Expr,
) -> Result<Alternative<'a>, Memory>
    ensures { IfOk result (λ a. alternative_found a ≡ described (known_literal known.now) (sure_in known.now)
        (null_in known.now) (pattern_of e.now)) }
{
    let sure = fails_nowhere(known, e)?;
    let literal = literal_of(known, e)?;
    Ok(Alternative { e, sure, literal })
}

// The first member of a sequence, and any other expression itself.
fn first_member(e: &Expr) -> &Expr
    ensures { pattern_of result.now ≡ the_first_member (pattern_of e.now) }
{
    match e {
        Expr::Seq(members) => match members.split_first() {
            Some((member, _)) => member,
            None => e,
        },
        _ => e,
    }
}

// Whether an expression is a dot.
fn is_any(e: &Expr) -> bool
    ensures { result ≡ is_a_dot (pattern_of e.now) }
{
    match e {
        Expr::Any => true,
        _ => false,
    }
}

// Whether the first of two literals is a prefix of the other.
fn is_prefix(front: Option<&[u8]>, whole: Option<&[u8]>) -> bool
    ensures { result ≡ begins (option_map (λ b. b.now) front.entry) (option_map (λ b. b.now) whole.entry) }
{
    match (front, whole) {
        (Some(front), Some(whole)) => whole.starts_with(front),
        _ => false,
    }
}

// Why an alternative is taken wherever a later one would be, which may take nothing or not, and begins with a literal.
fn why_hidden(earlier: &Alternative<'_>, null: bool, whole: Option<&[u8]>) -> Option<Why>
    ensures { result ≡ why_by earlier.now.sure (is_a_dot (pattern_of earlier.now.e.now))
        (option_map (λ b. b.now) earlier.now.literal) null (option_map (λ b. b.now) whole.entry) }
{
    if earlier.sure {
        return Some(Why::NeverFails);
    }
    if is_any(earlier.e) && !null {
        return Some(Why::TakesAny);
    }
    if is_prefix(earlier.literal, whole) {
        Some(Why::Prefix)
    } else {
        None
    }
}

// What is shown of an alternative that is hidden for that reason.
fn shown_expr(why: Why, e: &Expr) -> &Expr
    ensures { pattern_of result.now ≡ shown_of why (pattern_of e.now) }
{
    match why {
        Why::NeverFails | Why::TakesAny => e,
        Why::Prefix => first_member(e),
    }
}

// Adds the position of an alternative to those of its literal, if it has one, and the size of that.
fn push_literal(
    alloc: Global,
    literals: &mut RuleTable<Vec<usize>>,
    sizes: &mut Vec<usize>,
    literal: Option<&[u8]>,
    position: usize,
) -> Result<(), Memory>
    ensures names { OnOk result (literals.new.names ≡ literals.old.names) }
    ensures added { OnOk result (literals.old.names ≡ Exact → (bytes : List ℕ) → numbers_for literals.new bytes
        ≡ numbers_for literals.old bytes
        ++ (if is_literal bytes (option_map (λ b. b.now) literal.entry) then position ∷ [] else [])) }
    ensures sizes { OnOk result (IsSized sizes.old.items sizes.new.items (option_map (λ b. b.now) literal.entry)) }
{
    let Some(literal) = literal else {
        return Ok(());
    };
    add_number(alloc, literals, literal, position)?;
    if sizes.contains(&literal.len()) {
        return Ok(());
    }
    sizes.push(literal.len())?;
    Ok(())
}

/// Adds an alternative.
///
/// `Memory` if an allocation fails.
pub(crate) fn push_alternative<'a>(
    alloc: Global,
    before: &mut Earlier<'a>,
    alternative: Alternative<'a>,
) -> Result<(), Memory>
    ensures all { OnOk result (alternatives_found before.new.all.items ≡ alternatives_found before.old.all.items
        ++ alternative_found alternative.entry ∷ []) }
    ensures indexed { OnOk result (IsIndexed before.old → IsIndexed before.new) }
{
    let position = before.all.len();
    before.sure = before.sure.or(alternative.sure.then_some(position));
    before.dot = before.dot.or(is_any(alternative.e).then_some(position));
    push_literal(
        alloc,
        &mut before.literals,
        &mut before.sizes,
        alternative.literal,
        position,
    )?;
    before.all.push(alternative)?;
    Ok(())
}

// The earlier of two positions.
fn earlier_of(a: Option<usize>, b: Option<usize>) -> Option<usize>
    ensures { result ≡ earlier_position a b }
{
    match (a, b) {
        (Some(a), Some(b)) => Some(a.min(b)),
        (Some(a), None) => Some(a),
        (None, b) => b,
    }
}

// Where the first of the alternatives stands whose literal is a prefix of another one.
fn first_prefix(before: &Earlier<'_>, whole: Option<&[u8]>) -> Result<Option<usize>, Memory>
    requires { IsIndexed before.now }
    ensures { IfOk result (λ at. at ≡ first_at (λ a. begins a.literal (option_map (λ b. b.now) whole.entry))
        (alternatives_found before.now.all.items)) }
{
    let Some(whole) = whole else {
        return Ok(None);
    };
    let mut found = None;
    for size in &before.sizes {
        if *size <= whole.len() {
            let numbers = numbers_of(&before.literals, &whole[..*size])?;
            found = earlier_of(found, numbers.first().copied());
        }
    }
    Ok(found)
}

// Where the first of the alternatives stands that hides one, which may take nothing or not, and begins with a literal.
fn first_hiding(
    before: &Earlier<'_>,
    null: bool,
    whole: Option<&[u8]>,
) -> Result<Option<usize>, Memory>
    requires { IsIndexed before.now }
    ensures { IfOk result (λ at. at ≡ first_at (hides null (option_map (λ b. b.now) whole.entry))
        (alternatives_found before.now.all.items)) }
{
    let prefix = first_prefix(before, whole)?;
    let any = earlier_of(before.sure, prefix);
    if null {
        return Ok(any);
    }
    Ok(earlier_of(any, before.dot))
}

/// Returns by which of the alternatives before it one is never taken, if it never is.
///
/// `Memory` if an allocation fails.
pub(crate) fn hiding_of<'a>(
    known: &KnownRules<'a>,
    before: &Earlier<'a>,
    e: &'a Expr,
) -> Result<Option<Hidden<'a>>, Memory>
    requires { IsIndexed before.now }
    ensures { IfOk result (λ found. option_map hidden_found found ≡ hiding (known_literal known.now) (sure_in known.now)
        (null_in known.now) (alternatives_found before.now.all.items) (pattern_of e.now)) }
{
    let null = may_take_nothing(known, e)?;
    let whole = literal_of(known, first_member(e))?;
    let Some(position) = first_hiding(before, null, whole)? else {
        return Ok(None);
    };
    let Some(earlier) = before.all.get(position) else {
        return Ok(None);
    };
    match why_hidden(earlier, null, whole) {
        Some(why) => Ok(Some(Hidden {
            later: shown_expr(why, e),
            earlier: earlier.e,
            why,
        })),
        None => Ok(None),
    }
}
