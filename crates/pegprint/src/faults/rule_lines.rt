//! Lines that begin a rule by their form: blanks, a name, in which dashes may stand, blanks, and `<-`.
ghost use Rattle.std.specs.Prelude.{◌≡◌, ◌+◌, ◌≤◌, length, option_map};
ghost use Rattle.diagnostics.specs.LaterFaults.{IsFirstAt};
ghost use Rattle.pegprint.specs.PegRuleLines.{IsMost, goes_next};
ghost use Rattle.pegprint.specs.PegRuleLines.{past_blanks, past_name};
ghost use Rattle.pegprint.specs.PegRuleLines.{has_dash as holds_dash, leading_name as name_at_front};
ghost use Rattle.pegprint.specs.PegRuleLines.{name_defined as defined_at};
ghost use Rattle.pegprint.specs.PegRuleLines.{begins_line as starts_line, begins_name as starts_name};
ghost use Rattle.pegprint.specs.PegRuleLines.{begins_rule as starts_rule, is_name_byte, indent as blanks_at};
ghost use Rattle.pegprint.specs.PegRuleLines.{is_blank as blank, is_break as breaks, is_rule_line as rule_line};

fn is_blank(b: u8) -> bool
    ensures { result ≡ blank b }
{
    b == b' ' || b == b'\t'
}

fn is_break(b: u8) -> bool
    ensures { result ≡ breaks b }
{
    b == b'\n' || b == b'\r'
}

// Returns whether a byte may stand in a name where names are looked for.
fn goes_on(b: u8) -> bool
    ensures { result ≡ is_name_byte b }
{
    b.is_ascii_alphanumeric() || b == b'_' || b == b'-'
}

// Returns a text without the spaces and tabs before it.
fn after_blanks(text: &[u8]) -> &[u8]
    ensures same { result.now ≡ past_blanks text.entry.now }
    ensures within { length result.now ≤ length text.entry.now }
{
    let mut rest = text;
    while let Some((first, tail)) = rest.split_first() {
        if !is_blank(*first) {
            break;
        }
        rest = tail;
    }
    rest
}

// Returns a text without the bytes of a name before it.
fn after_name(text: &[u8]) -> &[u8]
    ensures same { result.now ≡ past_name text.entry.now }
    ensures within { length result.now ≤ length text.entry.now }
{
    let mut rest = text;
    while let Some((first, tail)) = rest.split_first() {
        if !goes_on(*first) {
            break;
        }
        rest = tail;
    }
    rest
}

fn begins_name(text: &[u8]) -> bool
    ensures { result ≡ starts_name text.now }
{
    match text.first() {
        Some(b) => b.is_ascii_alphabetic() || *b == b'_',
        None => false,
    }
}

// Returns whether a text begins with a name, blanks and `<-`.
fn begins_rule(text: &[u8]) -> bool
    ensures { result ≡ starts_rule text.now }
{
    begins_name(text) && after_blanks(after_name(text)).starts_with(b"<-")
}

// Returns whether a line begins at a position of a text.
fn begins_line(text: &[u8], at: usize) -> bool
    requires { at ≤ length text.now }
    ensures { result ≡ starts_line text.now at }
{
    at == 0 || is_break(text[at - 1])
}

// Returns whether a line begins at a position of a text, and begins a rule by its form.
fn is_rule_line(text: &[u8], at: usize) -> bool
    requires { at ≤ length text.now }
    ensures { result ≡ rule_line text.now at }
{
    begins_line(text, at) && begins_rule(after_blanks(&text[at..]))
}

// Returns the bytes of a name before a text.
fn leading_name(text: &[u8]) -> &[u8]
    ensures { result.now ≡ name_at_front text.now }
{
    &text[..text.len() - after_name(text).len()]
}

fn has_dash(name: &[u8]) -> bool
    ensures { result ≡ holds_dash name.now }
{
    name.iter().any(|b| *b == b'-')
}

/// Returns the name that the line at a position of a text defines, if it begins a rule by its form: blanks, a name,
/// blanks, and `<-`. No dash stands in the name.
pub fn name_defined(text: &[u8], at: usize) -> Option<&[u8]>
    requires { at ≤ length text.now }
    ensures { option_map (λ n. n.now) result ≡ defined_at text.now at }
{
    if !is_rule_line(text, at) {
        return None;
    }
    let name = leading_name(after_blanks(&text[at..]));
    if has_dash(name) {
        return None;
    }
    Some(name)
}

// Returns how many blanks stand at a position of a text.
fn indent(text: &[u8], at: usize) -> usize
    requires { at ≤ length text.now }
    ensures same { result ≡ blanks_at text.now at }
    ensures within { at + result ≤ length text.now }
{
    let line = &text[at..];
    line.len() - after_blanks(line).len()
}

/// Returns how many blanks the first line of a text has that begins a rule by its form, or 0.
pub(crate) fn greatest_indent(text: &[u8]) -> usize
    ensures { IsMost text.now result }
{
    for at in 0..text.len() {
        if is_rule_line(text, at) {
            return indent(text, at);
        }
    }
    0
}

// Returns whether a line at a position begins a rule by its form, with at most so many blanks, and with its name so
// many bytes after another position, or further on.
fn is_next(text: &[u8], most: usize, start: usize, ahead: usize, at: usize) -> bool
    requires order { start ≤ at }
    requires within { at ≤ length text.now }
    ensures { result ≡ goes_next text.now most start ahead at }
{
    if !is_rule_line(text, at) {
        return false;
    }
    let blanks = indent(text, at);
    blanks <= most && ahead <= at - start + blanks
}

/// Returns where the first such line begins after that other position.
pub(crate) fn next_rule_line(text: &[u8], most: usize, start: usize, ahead: usize) -> Option<usize>
    requires { start ≤ length text.now }
    ensures { IsFirstAt (goes_next text.now most start ahead) (start + 1) (length text.now) result }
{
    for at in start + 1..text.len() {
        if is_next(text, most, start, ahead, at) {
            return Some(at);
        }
    }
    None
}
