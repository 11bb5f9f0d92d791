//! Copies elements and rules without the parts that derive no line.
ghost use Rattle.std.specs.Prelude.{◌≡◌, ◌↔◌, ◌++◌, ℕ, Bool, List, IsTrue, IfOk, is_some, option_to_list};
ghost use Rattle.abnfread.specs.Element.{Element, Elements, Rule};
ghost use Rattle.abnfread.specs.Element as e;
ghost use Rattle.abnfread.specs.AbnfViews.{element_of, elements_of, rules_of};
ghost use Rattle.abnfcheck.specs.Derivable.{AtMost};
ghost use Rattle.abnfcheck.specs.RuleMarks.{AreProductive};
ghost use Rattle.fixpoint.specs.NumberMarks.{IsMarked};
ghost use Rattle.ruletable.specs.Letters.{has};
ghost use Rattle.ruletable.specs.declared.alphabet.Alphabet.{Alphabet};
ghost use Rattle.lowering.specs.Pruned.{KeepsSome, IsLeft, IsLeftBody, ArePruned, some_element};

use abnfread::Elem;
use ruletable::{Alphabet, Memory, NameCase, RuleTable};
use std::alloc::Global;

// Returns the productive part of a text: the text, since bytes are symbols of each alphabet.
fn prune_text(alloc: Global, folds: bool, text: &[u8]) -> Result<Option<Elem>, Memory>
    ensures { IfOk result (λ left. (alphabet : Alphabet) (rules : List Rule)
        → IsLeft (has alphabet) rules (e.Text folds text.now) (some_element left)) }
{
    let text = Vec::from_slice(alloc, text)?;
    Ok(Some(Elem::Text { folds, text }))
}

// Returns the productive part of a list of values: itself, if each is that of a symbol.
fn prune_values(alloc: Global, alphabet: Alphabet, values: &[u32]) -> Result<Option<Elem>, Memory>
    ensures { IfOk result (λ left. (rules : List Rule) → IsLeft (has alphabet) rules (e.Values values.now)
        (some_element left)) }
{
    let mut copied = Vec::new(alloc);
    for value in values {
        if !alphabet.has(*value) {
            return Ok(None);
        }
        copied.push(*value)?;
    }
    Ok(Some(Elem::Values(copied)))
}

// Returns the productive part of a range: itself, if it holds a symbol.
fn prune_range(alphabet: Alphabet, low: u32, high: u32) -> Option<Elem>
    ensures { (rules : List Rule) → IsLeft (has alphabet) rules (e.Range low high) (some_element result) }
{
    if alphabet.has_between(low, high) {
        Some(Elem::Range { low, high })
    } else {
        None
    }
}

// Returns whether the bounds of a repetition allow some number of iterations.
fn is_within(least: u32, most: Option<u32>) -> bool
    ensures { IsTrue result ↔ AtMost least most }
{
    match most {
        Some(most) => least <= most,
        None => true,
    }
}

// Returns the productive part of a repetition, from that of its operand. Without an operand no iteration is left.
fn prune_repeat(
    alloc: Global,
    least: u32,
    most: Option<u32>,
    operand: Option<Elem>,
) -> Result<Option<Elem>, Memory>
    ensures { IfOk result (λ left. (test : ℕ → Bool) (rules : List Rule) (el : Element) →
        IsLeft test rules el (some_element operand) → IsLeft test rules (e.Rep least most el) (some_element left)) }
{
    if !is_within(least, most) {
        return Ok(None);
    }
    match operand {
        Some(operand) => {
            let operand = Box::new(alloc, operand)?;
            Ok(Some(Elem::Rep {
                least,
                most,
                operand,
            }))
        }
        None => if least == 0 {
            Ok(Some(Elem::Concat(Vec::new(alloc))))
        } else {
            Ok(None)
        }
    }
}

// Returns the productive part of an option, from that of its operand.
fn prune_option(alloc: Global, operand: Option<Elem>) -> Result<Option<Elem>, Memory>
    ensures { IfOk result (λ left. (test : ℕ → Bool) (rules : List Rule) (el : Element) →
        IsLeft test rules el (some_element operand) → IsLeft test rules (e.Opt el) (some_element left)) }
{
    match operand {
        Some(operand) => {
            let operand = Box::new(alloc, operand)?;
            Ok(Some(Elem::Opt(operand)))
        }
        None => Ok(Some(Elem::Concat(Vec::new(alloc)))),
    }
}

// Adds the productive part of a member. Returns whether there is one.
fn push_left(kept: &mut Vec<Elem>, left: Option<Elem>) -> Result<bool, Memory>
    ensures { IfOk result (λ some. (some ≡ is_some left)
        × (kept.new.items ≡ kept.old.items ++ option_to_list left)) }
{
    match left {
        Some(left) => {
            kept.push(left)?;
            Ok(true)
        }
        None => Ok(false),
    }
}

// Returns the productive part of an alternation, from those of its alternatives.
fn alt_of(alternatives: Vec<Elem>) -> Option<Elem>
    ensures { (test : ℕ → Bool) (rules : List Rule) (es : Elements) →
        KeepsSome test rules es (elements_of alternatives.items) → IsLeft test rules (e.Alt es) (some_element result) }
{
    if alternatives.is_empty() {
        None
    } else {
        Some(Elem::Alt(alternatives))
    }
}

// Returns whether that id is marked.
fn is_marked(marks: &[bool], id: usize) -> bool
    ensures { IsTrue result ↔ IsMarked marks.now id }
{
    match marks.get(id) {
        Some(marked) => *marked,
        None => false,
    }
}

// Returns the productive part of a name: itself, if its rule is marked.
fn prune_name(
    alloc: Global,
    rules: &RuleTable<Elem>,
    marks: &[bool],
    name: &[u8],
) -> Result<Option<Elem>, Memory>
    requires { rules.now.names ≡ NameCase.Fold }
    ensures { IfOk result (λ left. (alphabet : Alphabet) → AreProductive alphabet (rules_of rules.now) marks.now
        → IsLeft (has alphabet) (rules_of rules.now) (e.Name name.now) (some_element left)) }
{
    let found = rules.find(name)?;
    if is_marked(marks, found.unwrap_or(rules.len())) {
        let name = Vec::from_slice(alloc, name)?;
        Ok(Some(Elem::Name(name)))
    } else {
        Ok(None)
    }
}

// Returns the productive part of an element: a copy without the rest, or nothing if it is not productive.
#[cycle(pruning)]
fn prune(
    alloc: Global,
    alphabet: Alphabet,
    rules: &RuleTable<Elem>,
    marks: &[bool],
    e: &Elem,
) -> Result<Option<Elem>, Memory>
    requires folds { rules.now.names ≡ NameCase.Fold }
    requires marks { AreProductive alphabet (rules_of rules.now) marks.now }
    ensures { IfOk result (λ left. IsLeft (has alphabet) (rules_of rules.now) (element_of e.now) (some_element left)) }
{
    match e {
        Elem::Text { folds, text } => prune_text(alloc, *folds, text),
        Elem::Values(values) => prune_values(alloc, alphabet, values),
        Elem::Range { low, high } => Ok(prune_range(alphabet, *low, *high)),
        Elem::Concat(members) => prune_concat(alloc, alphabet, rules, marks, members),
        Elem::Alt(alternatives) => prune_alt(alloc, alphabet, rules, marks, alternatives),
        Elem::Rep {
            least,
            most,
            operand,
        } => {
            let operand = prune(alloc, alphabet, rules, marks, operand)?;
            prune_repeat(alloc, *least, *most, operand)
        }
        Elem::Opt(operand) => {
            let operand = prune(alloc, alphabet, rules, marks, operand)?;
            prune_option(alloc, operand)
        }
        Elem::Name(name) => prune_name(alloc, rules, marks, name),
        Elem::Prose(_) => Ok(None),
    }
}

// Returns the productive part of a concatenation: those of its members, in order, if all are productive.
#[cycle(pruning)]
fn prune_concat(
    alloc: Global,
    alphabet: Alphabet,
    rules: &RuleTable<Elem>,
    marks: &[bool],
    members: &[Elem],
) -> Result<Option<Elem>, Memory>
    requires folds { rules.now.names ≡ NameCase.Fold }
    requires marks { AreProductive alphabet (rules_of rules.now) marks.now }
    ensures { IfOk result (λ left. IsLeft (has alphabet) (rules_of rules.now) (e.Concat (elements_of members.now))
        (some_element left)) }
{
    let mut kept = Vec::new(alloc);
    for member in members {
        let left = prune(alloc, alphabet, rules, marks, member)?;
        let some = push_left(&mut kept, left)?;
        if !some {
            return Ok(None);
        }
    }
    Ok(Some(Elem::Concat(kept)))
}

// Returns the productive part of an alternation: those of its productive alternatives, in order.
#[cycle(pruning)]
fn prune_alt(
    alloc: Global,
    alphabet: Alphabet,
    rules: &RuleTable<Elem>,
    marks: &[bool],
    alternatives: &[Elem],
) -> Result<Option<Elem>, Memory>
    requires folds { rules.now.names ≡ NameCase.Fold }
    requires marks { AreProductive alphabet (rules_of rules.now) marks.now }
    ensures { IfOk result (λ left. IsLeft (has alphabet) (rules_of rules.now) (e.Alt (elements_of alternatives.now))
        (some_element left)) }
{
    let mut kept = Vec::new(alloc);
    for alternative in alternatives {
        let left = prune(alloc, alphabet, rules, marks, alternative)?;
        push_left(&mut kept, left)?;
    }
    Ok(alt_of(kept))
}

// Returns the productive part of a body, or prose, which derives nothing.
fn prune_body(
    alloc: Global,
    alphabet: Alphabet,
    rules: &RuleTable<Elem>,
    marks: &[bool],
    body: &Elem,
) -> Result<Elem, Memory>
    requires folds { rules.now.names ≡ NameCase.Fold }
    requires marks { AreProductive alphabet (rules_of rules.now) marks.now }
    ensures { IfOk result (λ left. IsLeftBody (has alphabet) (rules_of rules.now) (element_of body.now)
        (element_of left)) }
{
    match prune(alloc, alphabet, rules, marks, body)? {
        Some(left) => Ok(left),
        None => Ok(Elem::Prose(Vec::new(alloc))),
    }
}

/// Returns the rules with the productive parts of their bodies, from the marks of the productive rules. `Memory` if an
/// allocation fails.
pub(crate) fn prune_rules(
    alloc: Global,
    alphabet: Alphabet,
    rules: &RuleTable<Elem>,
    marks: &[bool],
) -> Result<RuleTable<Elem>, Memory>
    requires folds { rules.now.names ≡ NameCase.Fold }
    requires marks { AreProductive alphabet (rules_of rules.now) marks.now }
    ensures folds { IfOk result (λ left. left.names ≡ NameCase.Fold) }
    ensures pruned { IfOk result (λ left. ArePruned (has alphabet) (rules_of rules.now) (rules_of left)) }
{
    let mut left = RuleTable::new(alloc, NameCase::Fold);
    for id in 0..rules.len() {
        let body = prune_body(alloc, alphabet, rules, marks, rules.body(id))?;
        left.define(rules.name(id), body, rules.span(id))?;
    }
    Ok(left)
}
