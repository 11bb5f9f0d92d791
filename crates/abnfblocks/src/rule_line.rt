//! The first bytes of lines: margins, names of rules and other marks.
ghost use Rattle.std.specs.Prelude.{◌≡◌, ◌≤◌, length};
ghost use Rattle.std.specs.List.{prefix_len};
ghost use Rattle.abnfread.specs.AbnfSlices.{continues_name};
ghost use Rattle.abnfblocks.specs.RuleLines.{is_margin, margin_of, rest_after_margin, begins_rule_line, begins_comment};
ghost use Rattle.abnfblocks.specs.RuleLines.{begins_inner, begins_slash};
ghost use Rattle.abnfblocks.specs.RuleLines.{begins_by as begins, begins_letter as letter_begins, rest_after_name};

// Whether the byte belongs to a margin: a space or a tab.
pub(crate) fn is_space(b: u8) -> bool
    ensures { result ≡ is_margin b }
{
    b == b' ' || b == b'\t'
}

// Whether the byte goes on with a rule's name.
fn is_inner(b: u8) -> bool
    ensures { result ≡ continues_name b }
{
    b.is_ascii_alphanumeric() || b == b'-'
}

/// Returns the margin of a line: how many spaces and tabs begin it.
pub fn margin(line: &[u8]) -> usize
    ensures margin { result ≡ margin_of line.now }
    ensures within { result ≤ length line.now }
{
    let mut size = 0;
    let mut rest = line;
    while let Some((first, tail)) = rest.split_first() {
        if !is_space(*first) {
            break;
        }
        rest = tail;
        size += 1;
    }
    size
}

// How many bytes of a name begin the text.
fn name_size(text: &[u8]) -> usize
    ensures size { result ≡ prefix_len continues_name text.now }
    ensures within { result ≤ length text.now }
{
    let mut size = 0;
    let mut rest = text;
    while let Some((first, tail)) = rest.split_first() {
        if !is_inner(*first) {
            break;
        }
        rest = tail;
        size += 1;
    }
    size
}

// Returns the line after its margin.
pub(crate) fn after_margin(line: &[u8]) -> &[u8]
    ensures { result.now ≡ rest_after_margin line.now }
{
    &line[margin(line)..]
}

// Returns the text after the bytes of a name.
fn after_name(text: &[u8]) -> &[u8]
    ensures { result.now ≡ rest_after_name text.now }
{
    &text[name_size(text)..]
}

// Whether the byte begins the text.
pub(crate) fn begins_by(text: &[u8], byte: u8) -> bool
    ensures { result ≡ begins byte text.now }
{
    match text.first() {
        Some(b) => *b == byte,
        None => false,
    }
}

// Whether a letter begins the text.
pub(crate) fn begins_letter(text: &[u8]) -> bool
    ensures { result ≡ letter_begins text.now }
{
    match text.first() {
        Some(b) => b.is_ascii_alphabetic(),
        None => false,
    }
}

// Returns whether the line begins with a comment, after its margin.
pub(crate) fn is_comment(line: &[u8]) -> bool
    ensures { result ≡ begins_comment line.now }
{
    begins_by(after_margin(line), b';')
}

// Returns whether the line begins with `/`, after its margin.
pub(crate) fn is_slash_line(line: &[u8]) -> bool
    ensures { result ≡ begins_slash line.now }
{
    begins_by(after_margin(line), b'/')
}

// Returns whether the line begins with `/`, `|`, `)` or `]`, after its margin.
pub(crate) fn is_inner_line(line: &[u8]) -> bool
    ensures { result ≡ begins_inner line.now }
{
    let text = after_margin(line);
    begins_by(text, b'/') || begins_by(text, b'|') || begins_by(text, b')') || begins_by(text, b']')
}

// Returns whether the line begins with a rule's name and `=`, after its margin.
pub(crate) fn is_rule_line(line: &[u8]) -> bool
    ensures { result ≡ begins_rule_line line.now }
{
    let text = after_margin(line);
    begins_letter(text) && begins_by(after_margin(after_name(text)), b'=')
}
