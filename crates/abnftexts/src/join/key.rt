//! Keys of rules: what rules that are the same have in common, and others do not.
ghost use Rattle.std.specs.Prelude.{◌≡◌, ◌++◌, ◌∷◌, IfOk, OnOk};
ghost use Rattle.abnfread.specs.AbnfViews.{element_of, elements_of};
ghost use Rattle.abnftexts.specs.GivenRules.{text_rule};
ghost use Rattle.abnftexts.specs.RuleKeys.{element_key, exact_key, folded_key, members_key, numbers_key};
ghost use Rattle.abnftexts.specs.RuleKeys.{rule_key as key_of_rule};

use crate::join::given::GivenRule;
use abnfread::Elem;
use diagnostics::push_number;
use ruletable::Memory;
use std::alloc::Global;

// Adds a mark, and a text as it is.
fn push_exact(key: &mut Vec<u8>, mark: u8, text: &[u8]) -> Result<(), Memory>
    ensures { OnOk result (key.new.items ≡ key.old.items ++ exact_key mark text.now) }
{
    key.push(mark)?;
    key.extend_from_slice(text)?;
    key.push(b'\n')?;
    Ok(())
}

// Adds a mark, and a text in lower case.
fn push_folded(key: &mut Vec<u8>, mark: u8, text: &[u8]) -> Result<(), Memory>
    ensures { OnOk result (key.new.items ≡ key.old.items ++ folded_key mark text.now) }
{
    key.push(mark)?;
    for b in text {
        key.push(b.to_ascii_lowercase())?;
    }
    key.push(b'\n')?;
    Ok(())
}

// Adds a mark, and numbers.
fn push_numbers(key: &mut Vec<u8>, mark: u8, numbers: &[u32]) -> Result<(), Memory>
    ensures { OnOk result (key.new.items ≡ key.old.items ++ numbers_key mark numbers.now) }
{
    key.push(mark)?;
    for number in numbers {
        push_number(key, *number as usize)?;
        key.push(b'.')?;
    }
    Ok(())
}

// Adds the key of an element.
#[cycle(keying)]
fn push_element(key: &mut Vec<u8>, e: &Elem) -> Result<(), Memory>
    ensures { OnOk result (key.new.items ≡ key.old.items ++ element_key (element_of e.now)) }
{
    match e {
        Elem::Text { folds: true, text } => push_folded(key, b'"', text),
        Elem::Text { folds: false, text } => push_exact(key, b'\'', text),
        Elem::Values(values) => push_numbers(key, b'%', values),
        Elem::Range { low, high } => push_numbers(key, b'-', &[*low, *high]),
        Elem::Concat(members) => push_members(key, b'(', members),
        Elem::Alt(alternatives) => push_members(key, b'/', alternatives),
        Elem::Rep {
            least,
            most,
            operand,
        } => {
            push_numbers(key, b'*', &[*least, most.unwrap_or(u32::MAX)])?;
            push_element(key, operand)
        }
        Elem::Opt(operand) => {
            key.push(b'[')?;
            push_element(key, operand)
        }
        Elem::Name(name) => push_folded(key, b'n', name),
        Elem::Prose(text) => push_exact(key, b'<', text),
    }
}

// Adds a mark, and the keys of these elements.
#[cycle(keying)]
fn push_members(key: &mut Vec<u8>, mark: u8, members: &[Elem]) -> Result<(), Memory>
    ensures { OnOk result (key.new.items ≡ key.old.items ++ mark ∷ members_key (elements_of members.now)) }
{
    key.push(mark)?;
    for member in members {
        push_element(key, member)?;
    }
    key.push(b')')?;
    Ok(())
}

/// Returns the key of a rule.
///
/// `Memory` if an allocation fails.
pub(crate) fn rule_key(alloc: Global, rule: &GivenRule) -> Result<Vec<u8>, Memory>
    ensures { IfOk result (λ key. key.items ≡ key_of_rule (text_rule rule.now)) }
{
    let mut key = Vec::new(alloc);
    let mark = if rule.adds {
        b'+'
    } else if rule.is_prose {
        b'<'
    } else {
        b'='
    };
    push_folded(&mut key, mark, &rule.name)?;
    push_element(&mut key, &rule.body)?;
    Ok(key)
}
