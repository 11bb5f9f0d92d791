//! The phrases for what can stand at a position in ABNF.
ghost use Rattle.std.specs.Prelude.{◌≡◌, true, map, IfOk};
ghost use Rattle.std.specs.List.{list_all, list_any};
ghost use Rattle.diagnostics.specs.ReportedPhrases.{AreAllReported, reports};
ghost use Rattle.abnfexplain.specs.AbnfExpected.{phrases};
ghost use Rattle.abnfexplain.specs.AbnfPhraseRows.{phrase_of};
ghost use Rattle.abnfexplain.specs.AbnfPositions.{position_allows};

use crate::abnf_stand::{Form, Position};
use abnfread::AbnfKind;
use ruletable::Memory;
use std::alloc::Global;

/// A phrase of an explanation for some tokens.
#[derive(Clone, Copy)]
pub(crate) struct Phrase {
    /// The words of the phrase.
    pub(crate) words: &'static [u8],
    /// The tokens that it means.
    pub(crate) forms: &'static [Form],
    /// Tokens that another phrase means too.
    pub(crate) bars: &'static [Form],
}

static PHRASES: [Phrase; 10] = [
    Phrase {
        words: b"an element",
        forms: &[
            Form {
                kind: AbnfKind::Name,
                gap: true,
                first: false,
            },
            Form {
                kind: AbnfKind::Text,
                gap: true,
                first: false,
            },
            Form {
                kind: AbnfKind::Num,
                gap: true,
                first: false,
            },
            Form {
                kind: AbnfKind::Prose,
                gap: true,
                first: false,
            },
            Form {
                kind: AbnfKind::LParen,
                gap: true,
                first: false,
            },
            Form {
                kind: AbnfKind::LBrack,
                gap: true,
                first: false,
            },
            Form {
                kind: AbnfKind::Repeat,
                gap: true,
                first: false,
            },
            Form {
                kind: AbnfKind::Name,
                gap: false,
                first: false,
            },
            Form {
                kind: AbnfKind::Text,
                gap: false,
                first: false,
            },
            Form {
                kind: AbnfKind::Num,
                gap: false,
                first: false,
            },
            Form {
                kind: AbnfKind::Prose,
                gap: false,
                first: false,
            },
            Form {
                kind: AbnfKind::LParen,
                gap: false,
                first: false,
            },
            Form {
                kind: AbnfKind::LBrack,
                gap: false,
                first: false,
            },
            Form {
                kind: AbnfKind::Repeat,
                gap: false,
                first: false,
            },
        ],
        bars: &[],
    },
    Phrase {
        words: b"white space and an element",
        forms: &[
            Form {
                kind: AbnfKind::Name,
                gap: true,
                first: false,
            },
            Form {
                kind: AbnfKind::Text,
                gap: true,
                first: false,
            },
            Form {
                kind: AbnfKind::Num,
                gap: true,
                first: false,
            },
            Form {
                kind: AbnfKind::Prose,
                gap: true,
                first: false,
            },
            Form {
                kind: AbnfKind::LParen,
                gap: true,
                first: false,
            },
            Form {
                kind: AbnfKind::LBrack,
                gap: true,
                first: false,
            },
            Form {
                kind: AbnfKind::Repeat,
                gap: true,
                first: false,
            },
        ],
        bars: &[Form {
            kind: AbnfKind::Name,
            gap: false,
            first: false,
        }],
    },
    Phrase {
        words: b"an element right behind it",
        forms: &[
            Form {
                kind: AbnfKind::Name,
                gap: false,
                first: false,
            },
            Form {
                kind: AbnfKind::Text,
                gap: false,
                first: false,
            },
            Form {
                kind: AbnfKind::Num,
                gap: false,
                first: false,
            },
            Form {
                kind: AbnfKind::Prose,
                gap: false,
                first: false,
            },
            Form {
                kind: AbnfKind::LParen,
                gap: false,
                first: false,
            },
            Form {
                kind: AbnfKind::LBrack,
                gap: false,
                first: false,
            },
        ],
        bars: &[Form {
            kind: AbnfKind::Repeat,
            gap: false,
            first: false,
        }],
    },
    Phrase {
        words: b"\"=\"",
        forms: &[
            Form {
                kind: AbnfKind::Is,
                gap: true,
                first: false,
            },
            Form {
                kind: AbnfKind::Is,
                gap: false,
                first: false,
            },
        ],
        bars: &[],
    },
    Phrase {
        words: b"\"=/\"",
        forms: &[
            Form {
                kind: AbnfKind::Adds,
                gap: true,
                first: false,
            },
            Form {
                kind: AbnfKind::Adds,
                gap: false,
                first: false,
            },
        ],
        bars: &[],
    },
    Phrase {
        words: b"\"/\"",
        forms: &[
            Form {
                kind: AbnfKind::Slash,
                gap: true,
                first: false,
            },
            Form {
                kind: AbnfKind::Slash,
                gap: false,
                first: false,
            },
        ],
        bars: &[],
    },
    Phrase {
        words: b"\")\"",
        forms: &[
            Form {
                kind: AbnfKind::RParen,
                gap: true,
                first: false,
            },
            Form {
                kind: AbnfKind::RParen,
                gap: false,
                first: false,
            },
        ],
        bars: &[],
    },
    Phrase {
        words: b"\"]\"",
        forms: &[
            Form {
                kind: AbnfKind::RBrack,
                gap: true,
                first: false,
            },
            Form {
                kind: AbnfKind::RBrack,
                gap: false,
                first: false,
            },
        ],
        bars: &[],
    },
    Phrase {
        words: b"a rule",
        forms: &[
            Form {
                kind: AbnfKind::Name,
                gap: true,
                first: true,
            },
            Form {
                kind: AbnfKind::Name,
                gap: false,
                first: true,
            },
        ],
        bars: &[],
    },
    Phrase {
        words: b"the end of the text",
        forms: &[
            Form {
                kind: AbnfKind::End,
                gap: true,
                first: false,
            },
            Form {
                kind: AbnfKind::End,
                gap: false,
                first: false,
            },
        ],
        bars: &[],
    },
];

fn allows_all(position: &Position, forms: &[Form]) -> bool
    ensures { result ≡ list_all (position_allows position.now) forms.now }
{
    for form in forms {
        if !position.allows(*form) {
            return false;
        }
    }
    true
}

fn allows_any(position: &Position, forms: &[Form]) -> bool
    ensures { result ≡ list_any (position_allows position.now) forms.now }
{
    for form in forms {
        if position.allows(*form) {
            return true;
        }
    }
    false
}

fn is_reported(position: &Position, phrase: &Phrase) -> bool
    ensures { result ≡ reports (position_allows position.now) (phrase_of phrase.now) }
{
    allows_all(position, phrase.forms) && !allows_any(position, phrase.bars)
}

fn all_phrases() -> &'static [Phrase]
    ensures { map phrase_of result.now ≡ phrases }
{
    &PHRASES
}

// The words of the phrases of a table that are reported.
fn reported_of(
    alloc: Global,
    position: &Position,
    table: &[Phrase],
) -> Result<Vec<&'static [u8]>, Memory>
    ensures { IfOk result (λ v. AreAllReported (λ k. position_allows position.now k ≡ true) (map phrase_of table.now)
        (map (λ w. w.now) v.items)) }
{
    let mut reported = Vec::new(alloc);
    for phrase in table {
        if is_reported(position, phrase) {
            reported.push(phrase.words)?;
        }
    }
    Ok(reported)
}

/// Returns the words of the phrases for what can stand there, in their order.
///
/// # Errors
/// `Memory` if an allocation fails.
pub(crate) fn reported_phrases(
    alloc: Global,
    position: &Position,
) -> Result<Vec<&'static [u8]>, Memory>
    ensures { IfOk result (λ v. AreAllReported (λ k. position_allows position.now k ≡ true) phrases
        (map (λ w. w.now) v.items)) }
{
    reported_of(alloc, position, all_phrases())
}
