//! Where names stand as words.
ghost use Rattle.std.specs.Prelude.{◌≡◌, not, true};
ghost use Rattle.std.specs.Char.{is_ascii_alphanumeric};
ghost use Rattle.ruletable.specs.Rules.{same_name};
ghost use Rattle.findings.specs.NameColumns.{begins_with_word, blanks_from, column_of, is_end_of_word};
ghost use Rattle.findings.specs.NameColumns.{is_word_byte as in_word, may_begin_after};
ghost use Rattle.findings.specs.NameColumns.{word_from};

use ruletable::NameCase;

/// The column before which names and first words are looked for: a long line costs no more than a short one.
const MAX_COLUMN: usize = 4096;

// Returns whether a byte belongs to names or quotes: no name ends before it or begins after it.
pub(crate) fn is_word_byte(b: u8) -> bool
    ensures { result ≡ in_word b }
{
    b.is_ascii_alphanumeric() || b == b'-' || b == b'_' || b == b'"' || b == b'\''
}

// Returns whether no name goes on with the bytes.
fn is_word_end(after: &[u8]) -> bool
    ensures { result ≡ is_end_of_word after.now }
{
    match after.first() {
        Some(b) => !is_word_byte(*b),
        None => true,
    }
}

// Returns whether two names are of one rule.
fn is_same_name(names: NameCase, a: &[u8], b: &[u8]) -> bool
    ensures { result ≡ same_name names a.now b.now }
{
    match names {
        NameCase::Exact => a == b,
        NameCase::Fold => a.eq_ignore_ascii_case(b),
    }
}

// Returns whether the bytes begin with a name that ends there.
fn begins_with_name(names: NameCase, bytes: &[u8], name: &[u8]) -> bool
    ensures { result ≡ begins_with_word names name.now bytes.now }
{
    if bytes.len() < name.len() {
        return false;
    }
    let (front, after) = bytes.split_at(name.len());
    is_same_name(names, front, name) && is_word_end(after)
}

// Returns whether a name may begin after a byte, before which one may begin or not. In ABNF digits repeat an element.
fn is_free_after(names: NameCase, is_free: bool, b: u8) -> bool
    ensures { result ≡ may_begin_after names is_free b }
{
    match names {
        NameCase::Exact => !is_word_byte(b),
        NameCase::Fold => !is_word_byte(b) || (is_free && b.is_ascii_digit()),
    }
}

// Returns the column at which a name stands first in a line, as a word, before `MAX_COLUMN`.
fn word_column(names: NameCase, line: &[u8], name: &[u8]) -> Option<usize>
    ensures { result ≡ word_from names name.now 1 true line.now }
{
    let mut column = 1;
    let mut is_free = true;
    let mut rest = line;
    while let Some((first, tail)) = rest.split_first() {
        if column == MAX_COLUMN {
            return None;
        }
        if is_free && begins_with_name(names, rest, name) {
            return Some(column);
        }
        is_free = is_free_after(names, is_free, *first);
        rest = tail;
        column += 1;
    }
    None
}

/// Returns the column of the first byte of a line that is no blank, at most `MAX_COLUMN`.
pub(crate) fn text_column(line: &[u8]) -> usize
    ensures { result ≡ blanks_from 1 line.now }
{
    let mut column = 1;
    let mut rest = line;
    while let Some((first, tail)) = rest.split_first() {
        if column == MAX_COLUMN {
            return column;
        }
        if *first != b' ' && *first != b'\t' {
            return column;
        }
        rest = tail;
        column += 1;
    }
    column
}

/// Returns the column at which a name stands first in a line, as a word; or that of its first byte that is no blank.
pub(crate) fn name_column(names: NameCase, line: &[u8], name: &[u8]) -> usize
    ensures { result ≡ column_of names line.now name.now }
{
    match word_column(names, line, name) {
        Some(column) => column,
        None => text_column(line),
    }
}
