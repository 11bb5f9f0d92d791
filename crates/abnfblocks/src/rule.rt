//! The lines of a rule, and the cuts among them.
ghost use Rattle.std.specs.Prelude.{◌≡◌, ◌++◌, ◌<◌, ◌≤◌, length, map, min, drop, [], ◌∷◌, IfOk, OnOk};
ghost use Rattle.abnfblocks.specs.RuleLines.{margin_of};
ghost use Rattle.abnfblocks.specs.TextLines.{numbered};
ghost use Rattle.abnfblocks.specs.RuleCuts.{belongs as belongs_to, blanks_first, can_end as ends_before, ends_cut};
ghost use Rattle.abnfblocks.specs.RuleCuts.{full_size as size_full, lines_text, rule_size as size_in, slash_first};

use crate::rfctext::{TextLine, bare_len};
use crate::rule_line::{is_comment, is_inner_line, is_rule_line, is_slash_line, margin};
use ruletable::Memory;
use std::alloc::Global;

// Whether the line belongs to the rule of that margin, where that line stands before it.
fn belongs(margin_size: usize, before: &TextLine<'_>, line: &TextLine<'_>) -> bool
    ensures { result ≡ belongs_to margin_size (numbered before.now) (numbered line.now) }
{
    if is_rule_line(line.bytes) {
        return false;
    }
    line.kind.is_blank()
        || is_comment(line.bytes)
        || margin_size < margin(line.bytes)
        || (is_inner_line(line.bytes) && !before.kind.is_blank())
}

/// Returns how many lines the rule has that the first line begins.
pub(crate) fn rule_size(lines: &[TextLine<'_>]) -> usize
    requires { 0 < length lines.now }
    ensures size { result ≡ size_in (map numbered lines.now) }
    ensures some { 0 < result }
    ensures within { result ≤ length lines.now }
{
    let margin_size = margin(lines[0].bytes);
    let mut size = 1;
    while size < lines.len() && belongs(margin_size, &lines[size - 1], &lines[size]) {
        size += 1;
    }
    size
}

/// Returns how many blank lines begin the list.
pub fn blank_count(lines: &[TextLine<'_>]) -> usize
    ensures count { result ≡ blanks_first (map numbered lines.now) }
    ensures within { result ≤ length lines.now }
{
    let mut count = 0;
    while count < lines.len() && lines[count].kind.is_blank() {
        count += 1;
    }
    count
}

// Whether the first of these lines begins with `/`.
fn begins_slash(lines: &[TextLine<'_>]) -> bool
    ensures { result ≡ slash_first (map numbered lines.now) }
{
    match lines.first() {
        Some(line) => is_slash_line(line.bytes),
        None => false,
    }
}

// Whether a rule can end before these lines.
fn can_end(rest: &[TextLine<'_>]) -> bool
    ensures { result ≡ ends_before (map numbered rest.now) }
{
    let blanks = blank_count(rest);
    blanks == rest.len() || (blanks > 0 && !begins_slash(&rest[blanks..]))
}

/// Returns whether so many lines of a rule are a cut.
pub(crate) fn is_cut(rule: &[TextLine<'_>], size: usize) -> bool
    requires some { 0 < size }
    requires within { size ≤ length rule.now }
    ensures { result ≡ ends_cut (map numbered rule.now) size }
{
    if size > 1 && rule[size - 1].kind.is_blank() {
        return false;
    }
    can_end(&rule[size..])
}

/// Returns how many lines a rule has up to the last one that is not blank. The first line is not.
pub(crate) fn full_size(rule: &[TextLine<'_>]) -> usize
    requires { 0 < length rule.now }
    ensures size { result ≡ size_full (map numbered rule.now) }
    ensures some { 0 < result }
    ensures within { result ≤ length rule.now }
{
    1 + bare_len(&rule[1..])
}

/// Returns the lines as one text, each without that margin, or without its own where that is smaller, and with LF.
///
/// # Errors
/// `Memory` if an allocation fails.
pub fn joined_text(
    alloc: Global,
    margin_size: usize,
    lines: &[TextLine<'_>],
) -> Result<Vec<u8>, Memory>
    ensures { IfOk result (λ text. text.items ≡ lines_text margin_size (map numbered lines.now)) }
{
    let mut text = Vec::new(alloc);
    for line in lines {
        push_line(&mut text, margin_size, line.bytes)?;
    }
    Ok(text)
}

// Adds a line without that margin, and LF.
fn push_line(text: &mut Vec<u8>, margin_size: usize, line: &[u8]) -> Result<(), Memory>
    ensures { OnOk result (text.new.items
        ≡ text.old.items ++ (drop (min margin_size (margin_of line.now)) line.now ++ 10 ∷ [])) }
{
    let size = margin_size.min(margin(line));
    text.extend_from_slice(&line[size..])?;
    text.push(b'\n')?;
    Ok(())
}
