//! The grammar that an automaton judges by, if alternatives begin with the name of their own rule.
ghost use Rattle.std.specs.Prelude.{IfOk, IfSome};
ghost use Rattle.abnfrun.specs.JudgedAlike.{DeriveAlike};

use abnfcheck::{SoundAbnf, reached_grammar, unrolled_grammar};
use abnfread::Elem;
use ruletable::{Memory, RuleTable};
use std::alloc::Global;

// Returns whether an element is that name. Names compare without case (RFC 5234, section 2.1).
fn is_name(e: &Elem, name: &[u8]) -> bool {
    match e {
        Elem::Name(found) => found.eq_ignore_ascii_case(name),
        _ => false,
    }
}

// Returns whether an alternative is that name, or begins with it and does not end with it. Loops in place of
// `s = s s / "a"` nest as deep as a line is long.
fn is_left_recursive(alternative: &Elem, name: &[u8]) -> bool {
    let Elem::Concat(members) = alternative else {
        return is_name(alternative, name);
    };
    match (members.first(), members.last()) {
        (Some(first), Some(last)) => is_name(first, name) && !is_name(last, name),
        _ => false,
    }
}

// Returns whether a body has such an alternative.
fn is_left_recursive_body(body: &Elem, name: &[u8]) -> bool {
    let Elem::Alt(alternatives) = body else {
        return false;
    };
    for alternative in alternatives {
        if is_left_recursive(alternative, name) {
            return true;
        }
    }
    false
}

// Returns whether a rule has an alternative that is the rule's own name, or begins with it and does not end with it.
// No answer depends on it.
fn has_left_recursion(rules: &RuleTable<Elem>) -> bool {
    for id in 0..rules.len() {
        if is_left_recursive_body(rules.body(id), rules.name(id)) {
            return true;
        }
    }
    false
}

/// Returns a grammar of the rules that the judged rule reaches, with loops in place of left recursion. It derives the
/// same lines. `None` if no alternative of these rules is the name of its rule, or begins with it and does not end
/// with it. `Memory` if an allocation fails.
pub(crate) fn loop_grammar(alloc: Global, grammar: &SoundAbnf) -> Result<Option<SoundAbnf>, Memory>
    ensures { IfOk result (λ made. IfSome made (DeriveAlike grammar.now)) }
{
    if !has_left_recursion(grammar.rules()) {
        return Ok(None);
    }
    let kept = reached_grammar(alloc, grammar)?;
    if !has_left_recursion(kept.rules()) {
        return Ok(None);
    }
    let made = unrolled_grammar(alloc, &kept)?;
    Ok(Some(made))
}
