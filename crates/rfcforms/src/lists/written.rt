//! Lists as they are written out.
ghost use Rattle.std.specs.Prelude.{◌≡◌, ◌++◌, List, ℕ, decimal, map, IfOk, OnOk};
ghost use Rattle.rfcforms.specs.Lists.{CutsLines, Expands, PushesList, PushesPart, count_shown, further_written};
ghost use Rattle.rfcforms.specs.Lists.{is_one as is_alone, less_one as one_less, first_size, list_found};
ghost use Rattle.rfcforms.specs.Lists.{most_shown, received, sent, some_sent};

use crate::lists::element::{element_in, on_one_line};
use crate::lists::list::{ListPart, from_element, list_at};
use crate::lists::mark::{MarkSearch, mark_in};
use crate::parts::{items_after, items_before};
use itoa::Buffer;
use ruletable::Memory;
use std::alloc::Global;

/// How lists are written out.
#[derive(Clone, Copy)]
pub enum ListForm {
    /// For recipients, which ignore counts and empty elements.
    Receive,
    /// For senders.
    Send,
}

// Adds the number in decimal digits.
fn push_decimal(out: &mut Vec<u8>, n: usize) -> Result<(), Memory>
    ensures { OnOk result (out.new.items ≡ out.old.items ++ decimal n) }
{
    let mut buffer = Buffer::new();
    let digits = buffer.format(n);
    out.extend_from_slice(digits.as_bytes())?;
    Ok(())
}

// Adds a count, or nothing for none.
fn push_least(out: &mut Vec<u8>, least: usize) -> Result<(), Memory>
    ensures { OnOk result (out.new.items ≡ out.old.items ++ count_shown least) }
{
    if least == 0 {
        return Ok(());
    }
    push_decimal(out, least)
}

// Adds a greatest count, if there is one.
fn push_most(out: &mut Vec<u8>, most: Option<usize>) -> Result<(), Memory>
    ensures { OnOk result (out.new.items ≡ out.old.items ++ most_shown most) }
{
    match most {
        Some(n) => push_decimal(out, n),
        None => Ok(()),
    }
}

// Adds so many further elements.
fn push_further(
    out: &mut Vec<u8>,
    least: usize,
    most: Option<usize>,
    element: &[u8],
) -> Result<(), Memory>
    ensures { OnOk result (out.new.items ≡ out.old.items ++ further_written least most element.now) }
{
    out.extend_from_slice(b" ")?;
    push_least(out, least)?;
    out.extend_from_slice(b"*")?;
    push_most(out, most)?;
    out.extend_from_slice(b"( OWS \",\" OWS ")?;
    out.extend_from_slice(element)?;
    out.extend_from_slice(b" )")?;
    Ok(())
}

// The greatest count without one element.
fn less_one(most: Option<usize>) -> Option<usize>
    ensures { result ≡ one_less most }
{
    match most {
        Some(n) => Some(n.saturating_sub(1)),
        None => None,
    }
}

// Whether a list has one element at most.
fn is_one(most: Option<usize>) -> bool
    ensures { result ≡ is_alone most }
{
    match most {
        Some(n) => n == 1,
        None => false,
    }
}

// Adds a list with some element as senders write it.
fn push_some(
    out: &mut Vec<u8>,
    least: usize,
    most: Option<usize>,
    element: &[u8],
    copy: &[u8],
) -> Result<(), Memory>
    ensures { OnOk result (out.new.items ≡ out.old.items ++ some_sent least most element.now copy.now) }
{
    out.extend_from_slice(element)?;
    if is_one(most) {
        return Ok(());
    }
    push_further(out, least.saturating_sub(1), less_one(most), copy)
}

// Adds a list as senders write it.
fn push_sent(out: &mut Vec<u8>, list: &ListPart<'_>, copy: &[u8]) -> Result<(), Memory>
    ensures { OnOk result (out.new.items
        ≡ out.old.items ++ sent list.now.least list.now.most list.now.element.now copy.now) }
{
    if list.least != 0 {
        return push_some(out, list.least, list.most, list.element, copy);
    }
    out.extend_from_slice(b"[ ")?;
    push_some(out, 1, list.most, list.element, copy)?;
    out.extend_from_slice(b" ]")?;
    Ok(())
}

// Adds a list as recipients accept it.
fn push_received(out: &mut Vec<u8>, element: &[u8], copy: &[u8]) -> Result<(), Memory>
    ensures { OnOk result (out.new.items ≡ out.old.items ++ received element.now copy.now) }
{
    out.extend_from_slice(b"[ ")?;
    out.extend_from_slice(element)?;
    out.extend_from_slice(b" ] *( OWS \",\" OWS [ ")?;
    out.extend_from_slice(copy)?;
    out.extend_from_slice(b" ] )")?;
    Ok(())
}

// Adds a list.
fn push_list(
    alloc: Global,
    out: &mut Vec<u8>,
    form: ListForm,
    list: &ListPart<'_>,
) -> Result<(), Memory>
    ensures { OnOk result (PushesList form (list_found list.now) out.old.items out.new.items) }
{
    let copy = on_one_line(alloc, list.element)?;
    match form {
        ListForm::Receive => push_received(out, list.element, &copy),
        ListForm::Send => push_sent(out, list, &copy),
    }
}

// Returns how many bytes the first line has, with the LF that ends it.
fn line_size(text: &[u8]) -> usize
    ensures { result ≡ first_size text.now }
{
    let mut size = 1;
    let mut rest = text;
    while let Some((first, tail)) = rest.split_first() {
        if *first == b'\n' {
            break;
        }
        rest = tail;
        size += 1;
    }
    size
}

// Adds what is written for the first bytes of a text, and returns what follows these.
fn push_part<'a>(
    alloc: Global,
    out: &mut Vec<u8>,
    form: ListForm,
    text: &'a [u8],
) -> Result<&'a [u8], Memory>
    ensures { IfOk result (λ rest. PushesPart form text.now out.old.items out.new.items rest.now) }
{
    let MarkSearch::Mark { count, position } = mark_in(text) else {
        out.extend_from_slice(text)?;
        return Ok(&[]);
    };
    let search = element_in(from_element(text, position));
    if let Some(list) = list_at(text, count, position, search) {
        out.extend_from_slice(items_before(text, count))?;
        push_list(alloc, out, form, &list)?;
        return Ok(list.rest);
    }
    let line = items_after(text, position);
    let size = line_size(line);
    out.extend_from_slice(items_before(text, position))?;
    out.extend_from_slice(items_before(line, size))?;
    Ok(items_after(line, size))
}

/// Returns a grammar's text with its lists (RFC 9110, section 5.6.1) written out.
///
/// A list is `n#m`, digits or nothing before and after `#`, and directly after it an element: a name, a text, numbers,
/// prose, or what stands in brackets. `n` is not above `m`, and `m` is not 0. The element holds no list. For recipients
/// each is written as `[ e ] *( OWS "," OWS [ e ] )`, and for senders by its counts. The first element stands as it is,
/// and the second has its tokens on one line. So each other byte stays on its line.
///
/// # Errors
/// `Memory` if an allocation fails.
pub fn expanded_text(alloc: Global, form: ListForm, text: &[u8]) -> Result<Vec<u8>, Memory>
    ensures { IfOk result (λ new. Expands form text.now new.items) }
{
    let mut new = Vec::new(alloc);
    let mut rest = text;
    while !rest.is_empty() {
        rest = push_part(alloc, &mut new, form, rest)?;
    }
    Ok(new)
}

/// Returns the lines of a text, without the LF that ends each.
///
/// # Errors
/// `Memory` if an allocation fails.
pub fn text_parts(alloc: Global, text: &[u8]) -> Result<Vec<&[u8]>, Memory>
    ensures { IfOk result (λ parts. CutsLines text.now (map (λ p. p.now) parts.items)) }
{
    let mut parts = Vec::new(alloc);
    let mut rest = text;
    while !rest.is_empty() {
        let size = line_size(rest);
        parts.push(items_before(rest, size.saturating_sub(1)))?;
        rest = items_after(rest, size);
    }
    Ok(parts)
}

/// Says that a text has one text with its lists written out, and one list of lines.
pub fn one_expansion()
    ensures expanded { (form : ListForm) (text a b : List ℕ) → Expands form text a → Expands form text b → a ≡ b }
    ensures lines { (text : List ℕ) (a b : List (List ℕ)) → CutsLines text a → CutsLines text b → a ≡ b }
{}
