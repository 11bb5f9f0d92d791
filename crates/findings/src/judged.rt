//! The rule by which a grammar in ABNF judges lines.
ghost use Rattle.std.specs.Prelude.{◌≡◌, ◌≤◌, length, map};
ghost use Rattle.findings.specs.FirstRules.{first_rule_name as the_first, name_in_front, size_of_word};

use crate::words::is_word_byte;

// Returns how many bytes stand before the first that belongs to no name.
fn word_size(bytes: &[u8]) -> usize
    ensures size { result ≡ size_of_word bytes.now }
    ensures within { result ≤ length bytes.now }
{
    let mut size = 0;
    let mut rest = bytes;
    while let Some((first, tail)) = rest.split_first() {
        if !is_word_byte(*first) {
            break;
        }
        rest = tail;
        size += 1;
    }
    size
}

// Returns the name that begins a line, after blanks; no bytes where none does.
fn name_at_front(line: &[u8]) -> &[u8]
    ensures { result.now ≡ name_in_front line.entry.now }
{
    let mut rest = line;
    while let Some((first, tail)) = rest.split_first() {
        if first.is_ascii_alphabetic() {
            return &rest[..word_size(rest)];
        }
        if *first != b' ' && *first != b'\t' {
            break;
        }
        rest = tail;
    }
    &[]
}

/// Returns the name that begins the first line that begins with a name: that of the first rule of a grammar in ABNF.
pub(crate) fn first_rule_name<'a>(lines: &[&'a [u8]]) -> &'a [u8]
    ensures { result.now ≡ the_first (map (λ l. l.now) lines.now) }
{
    for line in lines {
        let name = name_at_front(line);
        if !name.is_empty() {
            return name;
        }
    }
    &[]
}
