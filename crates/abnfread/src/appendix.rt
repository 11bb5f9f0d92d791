//! The core rules (RFC 5234, appendix B.1).
ghost use Rattle.std.specs.Prelude.{◌≡◌, ◌<◌, map, slice_get, Some, IfOk};
ghost use Rattle.ruletable.specs.declared.table.NameCase.TheVariants.{Fold};
ghost use Rattle.abnfread.specs.CoreParts.{part_element};
ghost use Rattle.abnfread.specs.CoreRules.{pair as pair_of, lwsp as lwsp_of, core_list, core_names, core_bodies};
ghost use Rattle.abnfread.specs.Element.{Concat, Alt, Name};
ghost use Rattle.abnfread.specs.AbnfViews.{element_of, elements, rules_of};

use crate::elem::Elem;
use ruletable::{Memory, NameCase, RuleTable, Span};
use std::alloc::Global;

/// An element of a body in the appendix: a text, a value, a range, a name, or the concatenation of two names.
#[derive(Clone, Copy)]
enum AppendixElement {
    Text(&'static [u8]),
    Value(u32),
    Range(u32, u32),
    Name(&'static [u8]),
    Names(&'static [u8], &'static [u8]),
}

/// Returns the sixteen core rules, whose names compare without case. Their spans are empty, at 0.
///
/// # Errors
/// `Memory` if an allocation fails.
pub fn core_rules(alloc: Global) -> Result<RuleTable<Elem>, Memory>
    ensures names { IfOk result (λ core. core.names ≡ Fold) }
    ensures rules { IfOk result (λ core. rules_of core ≡ core_list) }
{
    let mut rules = RuleTable::new(alloc, NameCase::Fold);
    for id in 0..16 {
        let body = core_body(alloc, id)?;
        rules.define(core_name(id), body, Span { start: 0, end: 0 })?;
    }
    Ok(rules)
}

// Returns the name of the core rule with that id.
fn core_name(id: usize) -> &'static [u8]
    requires { id < 16 }
    ensures { slice_get core_names id ≡ Some result.now }
{
    match id {
        0 => b"ALPHA",
        1 => b"BIT",
        2 => b"CHAR",
        3 => b"CR",
        4 => b"CRLF",
        5 => b"CTL",
        6 => b"DIGIT",
        7 => b"DQUOTE",
        8 => b"HEXDIG",
        9 => b"HTAB",
        10 => b"LF",
        11 => b"LWSP",
        12 => b"OCTET",
        13 => b"SP",
        14 => b"VCHAR",
        _ => b"WSP",
    }
}

/// Returns the body of the core rule with that id.
pub(crate) fn core_body(alloc: Global, id: usize) -> Result<Elem, Memory>
    requires { id < 16 }
    ensures { IfOk result (λ e. slice_get core_bodies id ≡ Some (element_of e)) }
{
    match id {
        0 => one_of(
            alloc,
            &[
                AppendixElement::Range(65, 90),
                AppendixElement::Range(97, 122),
            ],
        ),
        1 => one_of(
            alloc,
            &[AppendixElement::Text(b"0"), AppendixElement::Text(b"1")],
        ),
        2 => element(alloc, AppendixElement::Range(1, 127)),
        3 => element(alloc, AppendixElement::Value(13)),
        4 => element(alloc, AppendixElement::Names(b"CR", b"LF")),
        5 => one_of(
            alloc,
            &[AppendixElement::Range(0, 31), AppendixElement::Value(127)],
        ),
        6 => element(alloc, AppendixElement::Range(48, 57)),
        7 => element(alloc, AppendixElement::Value(34)),
        8 => one_of(
            alloc,
            &[
                AppendixElement::Name(b"DIGIT"),
                AppendixElement::Text(b"A"),
                AppendixElement::Text(b"B"),
                AppendixElement::Text(b"C"),
                AppendixElement::Text(b"D"),
                AppendixElement::Text(b"E"),
                AppendixElement::Text(b"F"),
            ],
        ),
        9 => element(alloc, AppendixElement::Value(9)),
        10 => element(alloc, AppendixElement::Value(10)),
        11 => lwsp(alloc),
        12 => element(alloc, AppendixElement::Range(0, 255)),
        13 => element(alloc, AppendixElement::Value(32)),
        14 => element(alloc, AppendixElement::Range(33, 126)),
        _ => one_of(
            alloc,
            &[AppendixElement::Name(b"SP"), AppendixElement::Name(b"HTAB")],
        ),
    }
}

fn name(alloc: Global, name: &[u8]) -> Result<Elem, Memory>
    ensures { IfOk result (λ e. element_of e ≡ Name name.now) }
{
    Ok(Elem::Name(Vec::from_slice(alloc, name)?))
}

// Returns the concatenation of two names.
fn two_names(alloc: Global, first: &[u8], second: &[u8]) -> Result<Elem, Memory>
    ensures { IfOk result (λ e. element_of e ≡ Concat (pair_of (Name first.now) (Name second.now))) }
{
    let mut names = Vec::new(alloc);
    names.push(name(alloc, first)?)?;
    names.push(name(alloc, second)?)?;
    Ok(Elem::Concat(names))
}

// Returns an element of a body.
fn element(alloc: Global, part: AppendixElement) -> Result<Elem, Memory>
    ensures { IfOk result (λ e. element_of e ≡ part_element part) }
{
    match part {
        AppendixElement::Text(text) => {
            let text = Vec::from_slice(alloc, text)?;
            Ok(Elem::Text { folds: true, text })
        }
        AppendixElement::Value(value) => Ok(Elem::Values(Vec::from_slice(alloc, &[value])?)),
        AppendixElement::Range(low, high) => Ok(Elem::Range { low, high }),
        AppendixElement::Name(text) => name(alloc, text),
        AppendixElement::Names(first, second) => two_names(alloc, first, second),
    }
}

// Returns the alternation of these elements.
fn one_of(alloc: Global, parts: &[AppendixElement]) -> Result<Elem, Memory>
    ensures { IfOk result (λ e. element_of e ≡ Alt (elements (map part_element parts.now))) }
{
    let mut all = Vec::new(alloc);
    for it in parts {
        all.push(element(alloc, *it)?)?;
    }
    Ok(Elem::Alt(all))
}

// Returns white space, with line ends before further white space.
fn lwsp(alloc: Global) -> Result<Elem, Memory>
    ensures { IfOk result (λ e. element_of e ≡ lwsp_of) }
{
    let space = one_of(
        alloc,
        &[
            AppendixElement::Name(b"WSP"),
            AppendixElement::Names(b"CRLF", b"WSP"),
        ],
    )?;
    let operand = Box::new(alloc, space)?;
    Ok(Elem::Rep {
        least: 0,
        most: None,
        operand,
    })
}
