//! What distinguishes a rule from lines that assign values.
ghost use Rattle.std.specs.Prelude.{◌≡◌, ◌≤◌, ◌&&◌, length, map, IfOk};
ghost use Rattle.lexer.specs.TokenLists.{tok_of};
ghost use Rattle.rfcvalues.specs.RuleSketches.{IsSketch, byte_at as byte_there, is_tight as tight, name_first};
ghost use Rattle.rfcvalues.specs.RuleSketches.{is_odd as odd, rule_seen, rule_sketched, sign_position as signed_at};

use crate::hex::has_hex_word;
use crate::line::{ends_statement, is_gap};
use crate::words::{WordsEnd, is_odd, names_among, rule_tokens};
use abnfread::AbnfKind;
use lexer::Token;
use rfcforms::{items_after, items_before};
use ruletable::Memory;
use std::alloc::Global;

/// A rule as it is found.
#[derive(Clone, Copy)]
pub struct SeenRule<'a> {
    /// Its first line.
    pub first: &'a [u8],
    /// Its lines up to the end of the cut that reads, or all, without the margin.
    pub text: &'a [u8],
    /// Whether they read.
    pub reads: bool,
    /// Whether a list is written out in them.
    pub has_list: bool,
}

/// What distinguishes a rule from lines that assign values.
#[derive(Drop)]
pub struct RuleSketch {
    /// Its name.
    pub name: Vec<u8>,
    /// The names among its words.
    pub uses: Vec<Vec<u8>>,
    /// Whether a mark shows that it is a rule.
    pub is_marked: bool,
    /// Whether its first line ends like a statement.
    pub is_statement: bool,
    /// Whether nothing stands beside `=`, and it is one text, or goes wrong, but not at `|` or `#`.
    pub is_compact: bool,
    /// Whether it reads.
    pub reads: bool,
    /// Whether a word in hexadecimal digits follows `=`.
    pub has_hex: bool,
}

// How many bytes stand before the first `=`.
fn sign_position(text: &[u8]) -> usize
    ensures position { result ≡ signed_at text.now }
    ensures within { result ≤ length text.now }
{
    let mut size = 0;
    let mut rest = text;
    while let Some((first, tail)) = rest.split_first() {
        if *first == b'=' {
            break;
        }
        rest = tail;
        size += 1;
    }
    size
}

// The byte at that position, or a space past the end.
fn byte_at(line: &[u8], n: usize) -> u8
    ensures { result ≡ byte_there line.now n }
{
    line.get(n).copied().unwrap_or(b' ')
}

// Whether no blank stands before the first `=` of a line, and neither a blank nor `/` after it.
fn is_tight(line: &[u8]) -> bool
    ensures { result ≡ tight line.now }
{
    let n = sign_position(line);
    let after = byte_at(line, n + 1);
    !is_gap(byte_at(line, n.saturating_sub(1))) && !is_gap(after) && after != b'/'
}

// The name that begins a text.
fn first_name(text: &[u8]) -> &[u8]
    ensures { result.now ≡ name_first text.now }
{
    let mut size = 0;
    let mut rest = text;
    while let Some((first, tail)) = rest.split_first() {
        if !first.is_ascii_alphanumeric() && *first != b'-' {
            break;
        }
        rest = tail;
        size += 1;
    }
    items_before(text, size)
}

// Whether a rule with that first line and these words is written without blanks, and is one text, or goes wrong.
fn is_compact(line: &[u8], end: WordsEnd, words: &[Token<'_, AbnfKind>]) -> bool
    ensures { result ≡ (tight line.now && odd end (map tok_of words.now)) }
{
    is_tight(line) && is_odd(end, words)
}

/// Returns what distinguishes a rule from lines that assign values.
///
/// The words of a rule are its tokens after `=` or `=/`. If it does not read, they end before the token with which it
/// goes wrong. A mark is `=/`, or a text, a number, prose, `/`, or a repeat with `*` before another, among the words.
/// In a rule that reads it is a bracket or a list too, and in another one a byte of `| # " < % '` with which it goes
/// wrong.
///
/// # Errors
/// `Memory` if an allocation fails.
pub fn rule_sketch(alloc: Global, rule: SeenRule<'_>) -> Result<RuleSketch, Memory>
    ensures { IfOk result (λ sketch. IsSketch (rule_seen rule.entry) (rule_sketched sketch)) }
{
    let all = rule_tokens(alloc, rule)?;
    let words = items_after(&all.tokens, 2);
    let name = Vec::from_slice(alloc, first_name(rule.text))?;
    let uses = names_among(alloc, words)?;
    let sign = sign_position(rule.text);
    Ok(RuleSketch {
        name,
        uses,
        is_marked: all.has_mark(rule.has_list),
        is_statement: ends_statement(rule.first),
        is_compact: is_compact(rule.first, all.end, words),
        reads: rule.reads,
        has_hex: has_hex_word(items_after(rule.text, sign + 1)),
    })
}
