//! The rules that are found among the lines of a text.
ghost use Rattle.std.specs.Prelude.{◌≡◌, ℕ, List, map, IfOk};
ghost use Rattle.abnfblocks.specs.TextLines.{NumberedLine, numbered};
ghost use Rattle.abnfblocks.specs.FoundRules.{AreFound, found_line, rule_starts};

use crate::look::look_at;
use crate::rfctext::TextLine;
use crate::rule::rule_size;
use crate::rule_line::is_rule_line;
use abnfread::one_reading;
use ruletable::{Memory, ReadFault};
use std::alloc::Global;

/// The result of the search at a line that begins a rule. Lines count from 0, as they stand in the list.
#[derive(Clone, Copy)]
pub enum RuleSearch {
    /// So many lines from the first one on are ABNF.
    Rule {
        first: usize,
        count: usize,
    },
    /// No cut of the rule is ABNF. Its longest cut has so many lines. The fault is that of these lines, where the first
    /// one is line 1.
    NotAbnf {
        first: usize,
        count: usize,
        fault: ReadFault,
    },
}

/// Finds the rules among the lines of a text, in order: one entry for each line that begins a rule.
///
/// A line begins a rule if a rule's name and `=` stand after its margin. The rule has all lines up to the next one that
/// begins a rule, or that does not continue the rule. Blank lines, comments and lines of a larger margin continue it.
/// So does a line that begins with `/`, `|`, `)` or `]`, unless a blank line stands before it. A cut of the rule ends
/// with a line that is not blank, and only blank lines follow it, or at least one and then a line without `/`. The
/// longest cut that `read_definitions` reads without the margin is the rule. If none reads, the rule is not ABNF.
///
/// # Errors
/// `Memory` if an allocation fails.
pub fn find_rules(alloc: Global, lines: &[TextLine<'_>]) -> Result<Vec<RuleSearch>, Memory>
    ensures { IfOk result (λ found. AreFound 0 (map numbered lines.now) found.items) }
{
    let mut found = Vec::new(alloc);
    for first in 0..lines.len() {
        if is_rule_line(lines[first].bytes) {
            let rest = &lines[first..];
            let size = rule_size(rest);
            let it = look_at(alloc, first, &rest[..size])?;
            found.push(it)?;
        }
    }
    Ok(found)
}

/// Says that at most one list is found among lines, from a position on. It has one entry for each line that begins a
/// rule, in their order.
pub fn one_finding()
    ensures one { (i : ℕ) (lines : List NumberedLine) (a b : List RuleSearch) → AreFound i lines a → AreFound i lines b
        → a ≡ b }
    ensures each { (i : ℕ) (lines : List NumberedLine) (found : List RuleSearch) → AreFound i lines found
        → map found_line found ≡ rule_starts i lines }
{
    one_reading();
}
