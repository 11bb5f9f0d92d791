//! The lines that explain a message.
ghost use Rattle.std.specs.Prelude.{◌≡◌, ◌≤◌, length, map, option_map};
ghost use Rattle.findings.specs.ExplainingLines.{chain_in, count_explaining, first_report, is_explaining as explains};

use crate::numbers::{LeadingNumber, reported_after};

/// Returns whether a line explains a message before it.
pub(crate) fn is_explaining(line: &[u8]) -> bool
    ensures { result ≡ explains line.now }
{
    match line.first() {
        Some(b) => *b == b' ',
        None => false,
    }
}

/// Returns how many of the first lines explain the message before them.
pub(crate) fn explaining_count(lines: &[&[u8]]) -> usize
    ensures count { result ≡ count_explaining (map (λ l. l.now) lines.now) }
    ensures within { result ≤ length lines.now }
{
    let mut count = 0;
    for line in lines {
        if !is_explaining(line) {
            return count;
        }
        count += 1;
    }
    count
}

/// Returns the first of the lines that give a line of the grammar: its number, and what is reported of it.
pub(crate) fn first_reported_line<'a>(more: &[&'a [u8]]) -> Option<LeadingNumber<'a>>
    ensures number { option_map (λ n. n.number) result
        ≡ option_map (λ n. n.number) (first_report (map (λ l. l.now) more.now)) }
    ensures report { option_map (λ n. n.rest.now) result
        ≡ option_map (λ n. n.report) (first_report (map (λ l. l.now) more.now)) }
{
    for line in more {
        if let Some(report) = reported_after(line, b"  line ") {
            return Some(report);
        }
    }
    None
}

/// Returns by which rules the judged one reaches the rule of a message, if a line says so.
pub(crate) fn chain_of<'a>(more: &[&'a [u8]]) -> Option<&'a [u8]>
    ensures { option_map (λ l. l.now) result ≡ chain_in (map (λ l. l.now) more.now) }
{
    for line in more {
        if let Some(words) = line.strip_prefix(b"  ") {
            if words.starts_with(b"reached by ") {
                return Some(words);
            }
        }
    }
    None
}
