//! Forms of names that other notations give another meaning: `0x41` and `[a-z]`.
ghost use Rattle.std.specs.Prelude.{◌≡◌, ◌≤◌, length};
ghost use Rattle.std.specs.Char.{is_ascii_hexdigit};
ghost use Rattle.std.specs.List.{list_all};
ghost use Rattle.diagnostics.specs.UseForms.{are_pairs as all_pairs, byte_before, is_after_zero as after_zero};
ghost use Rattle.diagnostics.specs.UseForms.{is_bracketed as in_brackets, is_byte as same_byte, is_x_hex as x_hex};
ghost use Rattle.diagnostics.specs.UseForms.{use_form as the_form};

/// What a mention is in other notations, by the bytes right around it.
#[derive(Clone, Copy)]
pub enum UseForm {
    /// Nothing else.
    Plain,
    /// A code point, as `x41` in `0x41`.
    CodePoint,
    /// A range, as `a-z` in `[a-z]`.
    Range,
}

// Returns the byte right before a position.
fn byte_before(text: &[u8], at: usize) -> Option<u8>
    ensures { result ≡ byte_before text.now at }
{
    if at == 0 {
        return None;
    }
    text.get(at - 1).copied()
}

fn is_byte(byte: u8, found: Option<u8>) -> bool
    ensures { result ≡ same_byte byte found }
{
    match found {
        Some(b) => b == byte,
        None => false,
    }
}

// Whether `0` stands right before a position, and no digit and no `*` before that.
fn is_after_zero(text: &[u8], at: usize) -> bool
    ensures { result ≡ after_zero text.now at }
{
    if !is_byte(b'0', byte_before(text, at)) {
        return false;
    }
    match byte_before(text, at.saturating_sub(1)) {
        Some(b) => !(b.is_ascii_digit() || b == b'*'),
        None => true,
    }
}

fn are_hexadecimal(digits: &[u8]) -> bool
    ensures { result ≡ list_all is_ascii_hexdigit digits.now }
{
    digits.iter().all(|b| b.is_ascii_hexdigit())
}

// Whether a name is `x` and hexadecimal digits.
fn is_x_hex(name: &[u8]) -> bool
    ensures { result ≡ x_hex name.now }
{
    match name.split_first() {
        Some((first, digits)) => { *first == b'x' && !digits.is_empty() && are_hexadecimal(digits) }
        None => false,
    }
}

// Whether a name is made of pairs of letters or digits, each with `-` between them.
fn are_pairs(name: &[u8]) -> bool
    ensures { result ≡ all_pairs name.now }
{
    let mut rest = name;
    while let [first, b'-', last, others @ ..] = rest {
        if !(first.is_ascii_alphanumeric() && last.is_ascii_alphanumeric()) {
            return false;
        }
        rest = others;
    }
    rest.is_empty()
}

// Whether `[` stands right before a name at a position, and `]` right after it.
fn is_bracketed(text: &[u8], at: usize, name: &[u8]) -> bool
    requires { at ≤ length text.now }
    ensures { result ≡ in_brackets text.now at name.now }
{
    is_byte(b'[', byte_before(text, at)) && is_byte(b']', text.get(at + name.len()).copied())
}

/// Returns the form of a name at a position of a text.
pub(crate) fn form_at(text: &[u8], at: usize, name: &[u8]) -> UseForm
    requires { at ≤ length text.now }
    ensures { result ≡ the_form text.now at name.now }
{
    if is_after_zero(text, at) && is_x_hex(name) {
        UseForm::CodePoint
    } else if is_bracketed(text, at, name) && are_pairs(name) {
        UseForm::Range
    } else {
        UseForm::Plain
    }
}
