//! Where tokens and white space end.
ghost use Rattle.std.specs.Prelude.{◌≡◌, ℕ, ◌≤◌, List, ◌∷◌, length, MatchOption};
ghost use Rattle.lexer.specs.SliceEnds.{NoPiece};
ghost use Rattle.pegread.specs.Chars.{code};
ghost use Rattle.pegread.specs.Slices.{starts_name, continues_name, is_blank, ends_line, Names, Closes, Body, Comment};
ghost use Rattle.pegread.specs.Slices.{Piece, White, First, StandsNone};
ghost use Rattle.pegread.specs.Kinds.{is_sign, is_closed};

use crate::kind::Kind;
use lexer::after_byte;

fn is_start(b: u8) -> bool
    ensures { result ≡ starts_name b }
{
    b.is_ascii_alphabetic() || b == b'_'
}

fn is_inner(b: u8) -> bool
    ensures { result ≡ continues_name b }
{
    b.is_ascii_alphanumeric() || b == b'_'
}

fn is_white(b: u8) -> bool
    ensures { result ≡ is_blank b }
{
    b == b' ' || b == b'\t' || b == b'\n' || b == b'\r'
}

fn is_newline(b: u8) -> bool
    ensures { result ≡ ends_line b }
{
    b == b'\n' || b == b'\r'
}

// Returns what follows a name's bytes.
fn after_name(text: &[u8]) -> &[u8]
    ensures names { Names text.now result.now }
    ensures longest { (r : List ℕ) → Names text.now r → length result.now ≤ length r }
{
    let mut rest = text;
    while let Some((first, tail)) = rest.split_first() {
        if !is_inner(*first) {
            break;
        }
        rest = tail;
    }
    rest
}

// Returns what follows the next `mark` that no escape takes.
fn after_mark(text: &[u8], mark: u8) -> Option<&[u8]>
    ensures { MatchOption result ((r : List ℕ) → Closes mark text.now r → ⊥) (λ rest. Closes mark text.now rest.now) }
{
    let mut rest = text;
    while let Some((first, tail)) = rest.split_first() {
        if *first == mark {
            return Some(tail);
        }
        if *first == b'\\' {
            let (_, after) = tail.split_first()?;
            rest = after;
        } else {
            rest = tail;
        }
    }
    None
}

// Returns what follows the brace that matches one before the text.
fn after_brace(text: &[u8]) -> Option<&[u8]>
    ensures { MatchOption result ((r : List ℕ) → Body text.now r → ⊥) (λ rest. Body text.now rest.now) }
{
    let mut depth: usize = 0;
    let mut rest = text;
    while let Some((first, tail)) = rest.split_first() {
        if *first == b'{' {
            depth += 1;
        } else if *first == b'}' {
            if depth == 0 {
                return Some(tail);
            }
            depth -= 1;
        }
        rest = tail;
    }
    None
}

// Returns what follows a comment: the end of the line, or of the text.
fn after_comment(text: &[u8]) -> &[u8]
    ensures comment { Comment text.now result.now }
    ensures shorter { length result.now ≤ length text.now }
{
    let mut rest = text;
    while let Some((first, tail)) = rest.split_first() {
        if is_newline(*first) {
            break;
        }
        rest = tail;
    }
    rest
}

// Returns what follows the white space.
pub(crate) fn after_blanks(text: &[u8]) -> &[u8]
    ensures white { White text.now result.now }
    ensures all { NoPiece Piece result.now }
{
    let mut rest = text;
    while let Some((first, tail)) = rest.split_first() {
        if is_white(*first) {
            rest = tail;
        } else if *first == b'#' {
            rest = after_comment(tail);
        } else {
            break;
        }
    }
    rest
}

// Returns the kind of the token that a `<` begins, and what follows it.
fn angle_token(tail: &[u8]) -> (Kind, &[u8])
    ensures { First result.0 (code "<" ∷ tail.now) result.1.now }
{
    match after_byte(tail, b'-') {
        Some(rest) => (Kind::Arrow, rest),
        None => (Kind::Begin, tail),
    }
}

// Returns the kind of the token that the byte is, whatever follows it.
fn sign_kind(b: u8) -> Option<Kind>
    ensures { MatchOption result ((r : List ℕ) → StandsNone is_sign (b ∷ r))
        (λ kind. (r : List ℕ) → First kind (b ∷ r) r) }
{
    match b {
        b'>' => Some(Kind::EndCap),
        b'/' => Some(Kind::Slash),
        b'&' => Some(Kind::Amp),
        b'!' => Some(Kind::Bang),
        b'?' => Some(Kind::Quest),
        b'*' => Some(Kind::Star),
        b'+' => Some(Kind::Plus),
        b'.' => Some(Kind::Dot),
        b'(' => Some(Kind::LParen),
        b')' => Some(Kind::RParen),
        _ => None,
    }
}

// Returns the kind of the token that a mark of its own closes, and what follows it.
fn closed_token(first: u8, tail: &[u8]) -> Option<(Kind, &[u8])>
    ensures { MatchOption result (StandsNone is_closed (first ∷ tail.now))
        (λ token. First token.0 (first ∷ tail.now) token.1.now) }
{
    if first == b'\'' || first == b'"' {
        Some((Kind::Literal, after_mark(tail, first)?))
    } else if first == b'[' {
        Some((Kind::Class, after_mark(tail, b']')?))
    } else if first == b'{' {
        Some((Kind::Action, after_brace(tail)?))
    } else {
        None
    }
}

// Returns the kind of the first token of a text that no white space begins, and what follows it.
pub(crate) fn first_of(text: &[u8]) -> (Kind, &[u8])
    requires { NoPiece Piece text.now }
    ensures { First result.0 text.now result.1.now }
{
    let Some((first, tail)) = text.split_first() else {
        return (Kind::End, text);
    };
    if *first == b'<' {
        angle_token(tail)
    } else if is_start(*first) {
        (Kind::Ident, after_name(tail))
    } else if let Some(kind) = sign_kind(*first) {
        (kind, tail)
    } else if let Some(token) = closed_token(*first, tail) {
        token
    } else {
        (Kind::Bad, &text[text.len()..])
    }
}
