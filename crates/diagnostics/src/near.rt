//! Names that are one slip away from another one.
ghost use Rattle.std.specs.Prelude.{◌≡◌, ◌&&◌, ◌++◌, ℕ, List, Option, nat_le, length, take, option_map, IfOk, OnOk};
ghost use Rattle.std.specs.Str.{str_to_ascii_lowercase};
ghost use Rattle.ruletable.specs.Rules.{find_in, names_of};
ghost use Rattle.diagnostics.specs.EditTests.{is_edit_at, has_one_at_most, is_swapped as are_swapped};
ghost use Rattle.diagnostics.specs.EditTests.{is_within_one as are_within_one};
ghost use Rattle.diagnostics.specs.NearNames.{IsMeant, is_before_limit, meant_line, meant_reported};

use crate::picture::push_cut;
use ruletable::{Memory, RuleTable};
use std::alloc::Global;

/// Of how many names that no rule has the rule is reported that is perhaps meant.
const MAX_MEANT: usize = 16;

/// How many bytes a name has at least that is near another one.
const LEAST_NEAR: usize = 3;

// Returns a name in lower case.
fn lower_case(alloc: Global, name: &[u8]) -> Result<Vec<u8>, Memory>
    ensures { IfOk result (λ lower. lower.items ≡ str_to_ascii_lowercase name.now) }
{
    let mut lower = Vec::from_slice(alloc, name)?;
    lower.make_ascii_lowercase();
    Ok(lower)
}

// Whether a name has at most one byte.
fn is_short(a: &[u8]) -> bool
    ensures { result ≡ has_one_at_most a.now }
{
    match a.split_first() {
        Some((_, rest)) => rest.is_empty(),
        None => true,
    }
}

// Whether two names begin with the same two bytes in another order, and are the same from there on.
fn is_swapped(x: u8, xs: &[u8], y: u8, ys: &[u8]) -> bool
    ensures { result ≡ are_swapped x xs.now y ys.now }
{
    let Some((v, rest)) = xs.split_first() else {
        return false;
    };
    let Some((w, other)) = ys.split_first() else {
        return false;
    };
    x == *w && *v == y && rest == other
}

// Whether one edit at their fronts, or none, makes two names one.
fn is_edit(a: &[u8], b: &[u8]) -> bool
    ensures { result ≡ is_edit_at a.now b.now }
{
    let Some((x, xs)) = a.split_first() else {
        return is_short(b);
    };
    let Some((y, ys)) = b.split_first() else {
        return is_short(a);
    };
    xs == ys || a == ys || xs == b || is_swapped(*x, xs, *y, ys)
}

// Whether one edit, or none, makes two names one.
fn is_within_one(a: &[u8], b: &[u8]) -> bool
    ensures { result ≡ are_within_one a.now b.now }
{
    let both = a.len().min(b.len());
    for i in 0..both {
        if a[i] != b[i] {
            return is_edit(&a[i..], &b[i..]);
        }
    }
    is_edit(&a[both..], &b[both..])
}

// Whether two names are near, of which one is given in lower case.
fn is_near(alloc: Global, lower: &[u8], name: &[u8]) -> Result<bool, Memory>
    ensures { IfOk result (λ near. near ≡ (nat_le 3 (length lower.now) && (nat_le 3 (length name.now)
        && are_within_one lower.now (str_to_ascii_lowercase name.now)))) }
{
    if lower.len() < LEAST_NEAR || name.len() < LEAST_NEAR {
        return Ok(false);
    }
    let other = lower_case(alloc, name)?;
    Ok(is_within_one(lower, &other))
}

/// Returns whether a name is among the first `MAX_MEANT` of a table that follow so many.
///
/// # Errors
/// `Memory` if an allocation fails.
pub fn is_early(names: &RuleTable<()>, count: usize, name: &[u8]) -> Result<bool, Memory>
    ensures { IfOk result (λ early. early ≡ is_before_limit count (find_in names.now name.now)) }
{
    match names.find(name)? {
        Some(id) => Ok(id.saturating_sub(count) < MAX_MEANT),
        None => Ok(false),
    }
}

// Returns the first of the names of so many rules that is perhaps meant by a name.
fn meant_rule<'a, E>(
    alloc: Global,
    rules: &'a RuleTable<E>,
    count: usize,
    name: &[u8],
) -> Result<Option<&'a [u8]>, Memory>
    ensures { IfOk result (λ found. IsMeant name.now (take count (names_of rules.now))
        (option_map (λ b. b.now) found)) }
{
    let lower = lower_case(alloc, name)?;
    for id in 0..rules.len().min(count) {
        let rule = rules.name(id);
        if is_near(alloc, &lower, rule)? {
            return Ok(Some(rule));
        }
    }
    Ok(None)
}

// Adds the line of a rule that is meant.
fn push_meant_name(out: &mut Vec<u8>, rule: &[u8]) -> Result<(), Memory>
    ensures { OnOk result (out.new.items ≡ out.old.items ++ meant_line rule.now) }
{
    out.extend_from_slice(b"  perhaps '")?;
    push_cut(out, rule)?;
    out.extend_from_slice(b"' is meant\n")?;
    Ok(())
}

/// Adds the line of the first of so many rules that is perhaps meant by a name, if there is one: one insertion,
/// deletion or replacement of a byte, or one swap of neighbours, makes the name that of the rule, and both have three
/// bytes or more. ASCII letters compare without case.
///
/// # Errors
/// `Memory` if an allocation fails; a part of the line may be added then.
pub fn push_meant<E>(
    alloc: Global,
    out: &mut Vec<u8>,
    rules: &RuleTable<E>,
    count: usize,
    name: &[u8],
) -> Result<(), Memory>
    ensures { OnOk result ((found : Option (List ℕ)) × IsMeant name.now (take count (names_of rules.now)) found
        × (out.new.items ≡ out.old.items ++ meant_reported found)) }
{
    match meant_rule(alloc, rules, count, name)? {
        Some(rule) => push_meant_name(out, rule),
        None => Ok(()),
    }
}
