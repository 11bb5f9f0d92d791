//! Values, and runs of them that are no rules.
ghost use Rattle.std.specs.Prelude.{◌≡◌, Bool, IfOk, map, slice_index_or};
ghost use Rattle.std.specs.List.{list_any};
ghost use Rattle.rfcvalues.specs.AssignedValues.{AreValueMarks, has_same_names as has_same, is_no_abnf as no_abnf};
ghost use Rattle.rfcvalues.specs.AssignedValues.{is_test_vector as is_vector};
ghost use Rattle.rfcvalues.specs.GroundedNeeds.{assigns_value};
ghost use Rattle.rfcvalues.specs.RuleSketches.{rule_sketched};

use crate::grounded::grounded_rules;
use crate::sketch::RuleSketch;
use rfcforms::items_after;
use ruletable::{Memory, NameCase, RuleTable, Span};
use std::alloc::Global;

// A name's position in a text is of no use here.
const NOWHERE: Span = Span { start: 0, end: 0 };

/// Returns of each rule whether it assigns a value. The rules are those of all texts.
///
/// A name is grounded if it is that of a core rule, of a rule with a mark, or of a rule with a grounded name among its
/// words. A rule assigns a value if it has neither a mark nor a grounded name. So does one that ends like a statement,
/// or is written without blanks.
///
/// # Errors
/// `Memory` if an allocation fails.
pub fn are_values(alloc: Global, rules: &[RuleSketch]) -> Result<Vec<bool>, Memory>
    ensures { IfOk result (λ marks. AreValueMarks (map rule_sketched rules.now) marks.items) }
{
    let grounded = grounded_rules(alloc, rules)?;
    let mut left = grounded.as_slice();
    let mut values = Vec::new(alloc);
    for rule in rules {
        values.push(is_value(is_first_marked(left), rule))?;
        left = items_after(left, 1);
    }
    Ok(values)
}

fn is_first_marked(marks: &[bool]) -> bool
    ensures { result ≡ slice_index_or marks.now 0 Bool.false }
{
    marks.first().copied().unwrap_or(false)
}

// Whether a rule that is grounded or not assigns a value.
fn is_value(is_grounded: bool, rule: &RuleSketch) -> bool
    ensures { result ≡ assigns_value is_grounded (rule_sketched rule.now) }
{
    !is_grounded || rule.is_statement || rule.is_compact
}

// Whether two of the rules have the same name.
fn has_same_names(alloc: Global, rules: &[RuleSketch]) -> Result<bool, Memory>
    ensures { IfOk result (λ found. found ≡ has_same (map rule_sketched rules.now)) }
{
    let mut names: RuleTable<()> = RuleTable::new(alloc, NameCase::Fold);
    for rule in rules {
        if names.find(&rule.name)?.is_some() {
            return Ok(true);
        }
        names.define(&rule.name, (), NOWHERE)?;
    }
    Ok(false)
}

fn has_statement(run: &[RuleSketch]) -> bool
    ensures { result ≡ list_any (λ rule. rule.is_statement) run.now }
{
    run.iter().any(|rule| rule.is_statement)
}

// Whether the rule does not read, or has a word in hexadecimal digits.
fn is_test_vector(rule: &RuleSketch) -> bool
    ensures { result ≡ is_vector (rule_sketched rule.now) }
{
    !rule.reads || rule.has_hex
}

fn has_test_vector(run: &[RuleSketch]) -> bool
    ensures { result ≡ list_any (λ rule. is_vector (rule_sketched rule)) run.now }
{
    run.iter().any(|rule| is_test_vector(rule))
}

/// Returns whether values one after another are no ABNF.
///
/// They are none if one ends like a statement. Two or more are none if one does not read or has a word in hexadecimal
/// digits, or two have the same name.
///
/// # Errors
/// `Memory` if an allocation fails.
pub fn is_no_abnf(alloc: Global, run: &[RuleSketch]) -> Result<bool, Memory>
    ensures { IfOk result (λ found. found ≡ no_abnf (map rule_sketched run.now)) }
{
    if has_statement(run) {
        return Ok(true);
    }
    if run.len() < 2 {
        return Ok(false);
    }
    if has_test_vector(run) {
        return Ok(true);
    }
    has_same_names(alloc, run)
}
