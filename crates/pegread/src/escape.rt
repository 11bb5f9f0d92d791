//! The characters of literals and classes: bytes as they are, and escapes.
ghost use Rattle.std.specs.Prelude.{◌≡◌, ◌≢◌, ℕ, ◌+◌, ◌≤◌, [], ◌∷◌, MatchOption};
ghost use Rattle.pegread.specs.Chars.{code, Octal, Hex, Letter, DigitFirst, NoDigit, Char, SpellsNone};

/// Returns the byte that is spelled at the front of a text, and what follows its spelling. The spelling is the longest
/// that peg(1) knows there. Returns `None` exactly for the empty text and for a backslash alone.
pub fn next_char(text: &[u8]) -> Option<(u8, &[u8])>
    ensures { MatchOption result (SpellsNone text.now) (λ x. Char text.now x.1.now x.0) }
{
    let (first, tail) = text.split_first()?;
    if *first == b'\\' {
        next_escape(tail)
    } else {
        Some((*first, tail))
    }
}

// Returns what a backslash and the text after it spell.
fn next_escape(text: &[u8]) -> Option<(u8, &[u8])>
    ensures { MatchOption result (text.now ≡ []) (λ x. Char (code "\\" ∷ text.now) x.1.now x.0) }
{
    let (first, tail) = text.split_first()?;
    if *first == b'x' {
        return Some(hex_escape(tail));
    }
    if let Some(value) = octal_digit(*first) {
        return Some(octal_escape(value, tail));
    }
    match letter_byte(*first) {
        Some(byte) => Some((byte, tail)),
        None => Some((*first, tail)),
    }
}

// Returns what `\x` and the text after it spell: without a digit, an `x`.
fn hex_escape(text: &[u8]) -> (u8, &[u8])
    ensures { Char (code "\\" ∷ code "x" ∷ text.now) result.1.now result.0 }
{
    let Some((high, after)) = next_hex(text) else {
        return (b'x', text);
    };
    match next_hex(after) {
        Some((low, rest)) => (high * 16 + low, rest),
        None => (high, after),
    }
}

// Returns what a backslash, the octal digit of that value and the text after it spell. A third digit counts only where
// the first is at most 3.
fn octal_escape(first: u8, text: &[u8]) -> (u8, &[u8])
    requires { first ≤ 7 }
    ensures { Char (code "\\" ∷ (code "0" + first) ∷ text.now) result.1.now result.0 }
{
    let Some((second, after)) = next_octal(text) else {
        return (first, text);
    };
    let two = first * 8 + second;
    if first > 3 {
        return (two, after);
    }
    match next_octal(after) {
        Some((third, rest)) => (two * 8 + third, rest),
        None => (two, after),
    }
}

// Returns the value of the octal digit that begins a text, and what follows it.
fn next_octal(text: &[u8]) -> Option<(u8, &[u8])>
    ensures { MatchOption result (NoDigit Octal text.now) (λ x. (x.0 ≤ 7) × DigitFirst Octal text.now x.1.now x.0) }
{
    let (first, tail) = text.split_first()?;
    let value = octal_digit(*first)?;
    Some((value, tail))
}

// Returns the value of the hexadecimal digit that begins a text, and what follows it.
fn next_hex(text: &[u8]) -> Option<(u8, &[u8])>
    ensures { MatchOption result (NoDigit Hex text.now) (λ x. (x.0 ≤ 15) × DigitFirst Hex text.now x.1.now x.0) }
{
    let (first, tail) = text.split_first()?;
    let value = hex_digit(*first)?;
    Some((value, tail))
}

fn octal_digit(b: u8) -> Option<u8>
    ensures { MatchOption result ((n : ℕ) → Octal b n → ⊥) (λ n. (b ≡ 48 + n) × (n ≤ 7)) }
{
    match b {
        b'0'..=b'7' => Some(b - b'0'),
        _ => None,
    }
}

fn hex_digit(b: u8) -> Option<u8>
    ensures { MatchOption result ((n : ℕ) → Hex b n → ⊥) (λ n. (n ≤ 15) × Hex b n) }
{
    match b {
        b'0'..=b'9' => Some(b - b'0'),
        b'A'..=b'F' => Some(b - b'A' + 10),
        b'a'..=b'f' => Some(b - b'a' + 10),
        _ => None,
    }
}

// Returns the byte that a letter after a backslash stands for.
fn letter_byte(b: u8) -> Option<u8>
    ensures { MatchOption result ((c : ℕ) → Letter b c → ⊥) (λ c. Letter b c) }
{
    match b {
        b'a' => Some(7),
        b'b' => Some(8),
        b'e' => Some(27),
        b'f' => Some(12),
        b'n' => Some(10),
        b'r' => Some(13),
        b't' => Some(9),
        b'v' => Some(11),
        _ => None,
    }
}
