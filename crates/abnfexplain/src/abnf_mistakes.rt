//! The usual mistakes in a grammar in ABNF.
ghost use Rattle.std.specs.Prelude.{◌≡◌, ◌≤◌, codes, length, map};
ghost use Rattle.std.specs.Option.{option_map};
ghost use Rattle.diagnostics.specs.CodePoints.{quote_rows};
ghost use Rattle.diagnostics.specs.FactRows.{row_of};
ghost use Rattle.abnfread.specs.MarkedTokens.{marked_of};
ghost use Rattle.abnfexplain.specs.AbnfMistakeRows.{mistake_of};
ghost use Rattle.abnfexplain.specs.AbnfMistakes.{bytes_after_blanks, comes_next, ends_in_cr, first_mistake, has_byte};
ghost use Rattle.abnfexplain.specs.AbnfMistakes.{has_bytes, has_earlier, has_kind, has_marks, has_word, is_after};
ghost use Rattle.abnfexplain.specs.AbnfMistakes.{is_mistake, mistakes, point_mistake, text_mistake};
ghost use Rattle.abnfexplain.specs.AbnfMistakes.{shown_mistake as the_mistake};

use TokenMarks::{Any, First, Tight, Within};
use abnfread::AbnfKind::{
    Adds, Bad, End, Is, LBrack, LParen, Name, Num, Prose, RBrack, RParen, Repeat, Slash, Text,
};
use abnfread::{AbnfKind, MarkedToken};
use diagnostics::{Fact, facts, find_fact, is_utf16, point_facts};

/// Which marks a token has.
#[derive(Clone, Copy)]
pub(crate) enum TokenMarks {
    /// Any.
    Any,
    /// No white space before it.
    Tight,
    /// No white space before it, and it is not the first of a line that begins a rule.
    Within,
    /// It is the first of a line that begins a rule.
    First,
}

/// A mistake: what shows it, and what is reported.
#[derive(Clone, Copy)]
pub(crate) struct Mistake {
    /// Kinds of the token that decides; any, if there are none.
    pub(crate) kinds: &'static [AbnfKind],
    /// Its marks.
    pub(crate) marks: TokenMarks,
    /// Its first bytes.
    pub(crate) begins: &'static [u8],
    /// Spaces and tabs may follow these.
    pub(crate) blanks: bool,
    /// One of these bytes follows; any, if there are none.
    pub(crate) next: &'static [u8],
    /// The token may end there.
    pub(crate) ends: bool,
    /// Kinds of the token before; any token or none, if there are none.
    pub(crate) before: &'static [AbnfKind],
    /// How that token ends.
    pub(crate) word: &'static [u8],
    /// That token has no other bytes.
    pub(crate) whole: bool,
    /// Kinds of the token before that one; any token or none, if there are none.
    pub(crate) earlier: &'static [AbnfKind],
    /// The text that is reported.
    pub(crate) reported: &'static [u8],
}

// Kinds of what begins an element.
const BEGIN_ELEMENTS: &[AbnfKind] = &[Name, Text, Num, Prose, LParen, LBrack];

// Kinds of what ends an element.
const OPERANDS: &[AbnfKind] = &[Name, Text, Num, Prose, RParen, RBrack];

const ALL_BUT_BAD: &[AbnfKind] = &[
    Name, Is, Adds, Slash, LParen, RParen, LBrack, RBrack, Repeat, Text, Num, Prose, End,
];

// The fact that each token shows.
const EACH_TOKEN: Mistake = Mistake {
    kinds: &[],
    marks: Any,
    begins: b"",
    blanks: false,
    next: b"",
    ends: false,
    before: &[],
    word: b"",
    whole: false,
    earlier: &[],
    reported: b"",
};

// Makes an array of mistakes. Before what is reported of each stand the fields that differ from those of `EACH_TOKEN`.
macro_rules! mistakes {
    ($({ $($field:ident: $value:expr),+ } => $reported:literal,)*) => {
        [$(Mistake { $($field: $value,)+ reported: $reported, ..EACH_TOKEN }),*]
    };
}

static MISTAKES: [Mistake; 17] = mistakes![
    { kinds: &[Bad], begins: b"\r" } => b"lines end with LF or CR LF, not CR",
    { marks: Tight, begins: b"\"", before: &[Text], word: b"\\\"" }
        => b"a double quote is DQUOTE: texts have no escapes",
    { kinds: &[Slash], marks: Tight, before: &[Slash] } => b"comments begin with \";\"",
    { kinds: &[Bad], marks: First, begins: b"#" } => b"comments begin with \";\"",
    { kinds: &[Bad], begins: b"#", next: b" \t\r\n#!", ends: true } => b"comments begin with \";\"",
    { kinds: &[Name], marks: Tight, before: &[Num] } => b"a number is %x, %d or %b and digits",
    { kinds: &[Repeat], marks: Tight, next: b"0123456789", before: &[Num] }
        => b"a number is %x, %d or %b and digits",
    { kinds: ALL_BUT_BAD, before: &[Repeat] } => b"a repetition stands before its element: 2*3DIGIT",
    { kinds: &[Repeat], marks: Tight, before: OPERANDS } => b"a repetition stands before its element: 2*3DIGIT",
    { kinds: &[Bad], begins: b"{", next: b",0123456789" } => b"a repetition stands before its element: 2*3DIGIT",
    { kinds: BEGIN_ELEMENTS, marks: Within, before: OPERANDS } => b"elements have white space between them",
    { kinds: &[Bad], marks: Tight, begins: b"+", before: &[Name], word: b"U", whole: true }
        => b"a code point is written %x41",
    { kinds: &[Bad], marks: Tight, begins: b"+", before: &[Name], word: b"u", whole: true }
        => b"a code point is written %x41",
    { kinds: &[Bad], begins: b"-", blanks: true, next: b"%\"0123456789ABCDEFabcdef", before: &[Num, Text] }
        => b"a range is written %x30-39",
    { kinds: &[Bad], begins: b"..", before: &[Num, Text] } => b"a range is written %x30-39",
    { kinds: &[Bad], begins: b"-", before: &[Repeat, Name], earlier: &[LBrack] }
        => b"a range is written %x30-39",
    { kinds: &[Bad], begins: b"-", before: OPERANDS } => b"ABNF has no exceptions",
];

static QUOTE_FACTS: [Fact; 8] = facts![
    b"\xE2\x80\x98" => b"U+2018 is a curly quote: texts stand in \"",
    b"\xE2\x80\x99" => b"U+2019 is a curly quote: texts stand in \"",
    b"\xE2\x80\x9A" => b"U+201A is a curly quote: texts stand in \"",
    b"\xE2\x80\x9B" => b"U+201B is a curly quote: texts stand in \"",
    b"\xE2\x80\x9C" => b"U+201C is a curly quote: texts stand in \"",
    b"\xE2\x80\x9D" => b"U+201D is a curly quote: texts stand in \"",
    b"\xE2\x80\x9E" => b"U+201E is a curly quote: texts stand in \"",
    b"\xE2\x80\x9F" => b"U+201F is a curly quote: texts stand in \"",
];

fn all_mistakes() -> &'static [Mistake]
    ensures { map mistake_of result.now ≡ mistakes }
{
    &MISTAKES
}

fn quote_facts() -> &'static [Fact]
    ensures { map row_of result.now ≡ quote_rows (codes "texts stand in \"") }
{
    &QUOTE_FACTS
}

// Returns whether a kind is one of a list, by the numbers of the variants.
fn has_kind(kinds: &[AbnfKind], kind: AbnfKind) -> bool
    ensures { result ≡ has_kind kinds.now kind }
{
    kinds.iter().any(|it| *it as u8 == kind as u8)
}

fn has_marks(marks: TokenMarks, gap: bool, first: bool) -> bool
    ensures { result ≡ has_marks marks gap first }
{
    match marks {
        Any => true,
        Tight => !gap,
        Within => !gap && !first,
        First => first,
    }
}

/// Returns a text without the spaces and tabs before it.
pub(crate) fn bytes_after_blanks(text: &[u8]) -> &[u8]
    ensures same { result.now ≡ bytes_after_blanks text.now }
    ensures within { length result.now ≤ length text.now }
{
    let mut rest = text;
    while let [b' ' | b'\t', others @ ..] = rest {
        rest = others;
    }
    rest
}

fn has_byte(text: &[u8], byte: u8) -> bool
    ensures { result ≡ has_byte text.now byte }
{
    text.iter().any(|b| *b == byte)
}

// Whether one of these bytes comes next.
fn comes_next(next: &[u8], ends: bool, text: &[u8]) -> bool
    ensures { result ≡ comes_next next.now ends text.now }
{
    if next.is_empty() {
        return true;
    }
    if text.is_empty() {
        return ends;
    }
    has_byte(next, text[0])
}

// Whether a token's bytes are those of the row.
fn has_bytes(row: &Mistake, slice: &[u8]) -> bool
    ensures { result ≡ has_bytes (mistake_of row.now) slice.now }
{
    if !slice.starts_with(row.begins) {
        return false;
    }
    let rest = &slice[row.begins.len()..];
    if row.blanks {
        return comes_next(row.next, row.ends, bytes_after_blanks(rest));
    }
    comes_next(row.next, row.ends, rest)
}

// Whether a token ends with that word, or is it.
fn has_word(word: &[u8], whole: bool, slice: &[u8]) -> bool
    ensures { result ≡ has_word word.now whole slice.now }
{
    let at = slice.len().saturating_sub(word.len());
    slice[at..].starts_with(word) && (!whole || slice.len() == word.len())
}

// Whether the token before is that of the row.
fn is_after(row: &Mistake, before: Option<MarkedToken<'_>>) -> bool
    ensures { result ≡ is_after (mistake_of row.now) (option_map marked_of before.entry) }
{
    if row.before.is_empty() {
        return true;
    }
    match before {
        Some(it) => {
            has_kind(row.before, it.token.kind) && has_word(row.word, row.whole, it.token.slice)
        }
        None => false,
    }
}

// Whether the token before that one is that of the row.
fn has_earlier(row: &Mistake, earlier: Option<MarkedToken<'_>>) -> bool
    ensures { result ≡ has_earlier (mistake_of row.now) (option_map marked_of earlier.entry) }
{
    let Some(earlier) = earlier else {
        return row.earlier.is_empty();
    };
    row.earlier.is_empty() || has_kind(row.earlier, earlier.token.kind)
}

// Whether the token that decides is that of the row, and the two before it.
fn is_mistake(
    row: &Mistake,
    earlier: Option<MarkedToken<'_>>,
    before: Option<MarkedToken<'_>>,
    token: MarkedToken<'_>,
) -> bool
    ensures { result ≡ is_mistake (mistake_of row.now) (option_map marked_of earlier.entry)
        (option_map marked_of before.entry) (marked_of token.entry) }
{
    (row.kinds.is_empty() || has_kind(row.kinds, token.token.kind))
        && has_marks(row.marks, token.gap, token.first)
        && has_bytes(row, token.token.slice)
        && is_after(row, before)
        && has_earlier(row, earlier)
}

// Returns the report of the first row that applies.
fn first_mistake(
    rows: &[Mistake],
    earlier: Option<MarkedToken<'_>>,
    before: Option<MarkedToken<'_>>,
    token: MarkedToken<'_>,
) -> Option<&'static [u8]>
    ensures { option_map (λ w. w.now) result ≡ first_mistake (map mistake_of rows.now)
        (option_map marked_of earlier.entry) (option_map marked_of before.entry) (marked_of token.entry) }
{
    for row in rows {
        if is_mistake(row, earlier, before, token) {
            return Some(row.reported);
        }
    }
    None
}

// Whether a text has a CR and no LF.
fn ends_in_cr(text: &[u8]) -> bool
    ensures { result ≡ ends_in_cr text.now }
{
    has_byte(text, b'\r') && !has_byte(text, b'\n')
}

// Returns the fact that a whole text shows, where no token begins and at the end.
fn text_mistake(text: &[u8], kind: AbnfKind) -> Option<&'static [u8]>
    ensures { option_map (λ w. w.now) result ≡ text_mistake text.now kind }
{
    match kind {
        Bad => {
            if is_utf16(text) {
                return Some(b"the text is UTF-16, not UTF-8");
            }
            None
        }
        End => {
            if ends_in_cr(text) {
                return Some(b"lines end with LF or CR LF, not CR");
            }
            None
        }
        _ => None,
    }
}

// Returns the fact that a code point shows which is mistaken for a character of ABNF.
fn point_mistake(token: MarkedToken<'_>) -> Option<&'static [u8]>
    ensures { option_map (λ w. w.now) result ≡ point_mistake token.entry.token.kind token.entry.token.slice.now }
{
    match token.token.kind {
        Bad => {
            if let Some(reported) = find_fact(quote_facts(), token.token.slice) {
                return Some(reported);
            }
            find_fact(point_facts(), token.token.slice)
        }
        _ => None,
    }
}

/// Returns the mistake that the token that decides shows, by the text and the two tokens before.
pub(crate) fn shown_mistake(
    text: &[u8],
    earlier: Option<MarkedToken<'_>>,
    before: Option<MarkedToken<'_>>,
    token: MarkedToken<'_>,
) -> Option<&'static [u8]>
    ensures { option_map (λ w. w.now) result ≡ the_mistake text.now (option_map marked_of earlier.entry)
        (option_map marked_of before.entry) (marked_of token.entry) }
{
    if let Some(reported) = text_mistake(text, token.token.kind) {
        return Some(reported);
    }
    if let Some(reported) = first_mistake(all_mistakes(), earlier, before, token) {
        return Some(reported);
    }
    point_mistake(token)
}
