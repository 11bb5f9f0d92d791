//! The phrases for what can stand at a position.
ghost use Rattle.std.specs.Prelude.{◌≡◌, ◌≤◌, true, map, IfOk};
ghost use Rattle.std.specs.List.{list_all, list_any};
ghost use Rattle.lexer.specs.GrammarLimits.{max_open};
ghost use Rattle.diagnostics.specs.ReportedPhrases.{AreAllReported, reports};
ghost use Rattle.pegprint.specs.PegExpected.{phrases};
ghost use Rattle.pegprint.specs.PegStands.{allows};
ghost use Rattle.pegprint.specs.PhraseRows.{phrase_of};

use crate::faults::stand::Position;
use pegread::Kind;
use ruletable::Memory;
use std::alloc::Global;

/// A phrase of an explanation for some kinds of tokens.
#[derive(Clone, Copy)]
pub(crate) struct Phrase {
    /// The words of the phrase.
    pub(crate) words: &'static [u8],
    /// The kinds that it means.
    pub(crate) kinds: &'static [Kind],
    /// Kinds that another phrase means too.
    pub(crate) bars: &'static [Kind],
}

static PHRASES: [Phrase; 12] = [
    Phrase {
        words: b"a name",
        kinds: &[Kind::Ident],
        bars: &[Kind::Literal],
    },
    Phrase {
        words: b"\"<-\"",
        kinds: &[Kind::Arrow],
        bars: &[],
    },
    Phrase {
        words: b"an element",
        kinds: &[
            Kind::Ident,
            Kind::Literal,
            Kind::Class,
            Kind::Dot,
            Kind::LParen,
            Kind::Begin,
            Kind::EndCap,
            Kind::Action,
        ],
        bars: &[],
    },
    Phrase {
        words: b"an element but an action",
        kinds: &[
            Kind::Ident,
            Kind::Literal,
            Kind::Class,
            Kind::Dot,
            Kind::LParen,
            Kind::Begin,
            Kind::EndCap,
        ],
        bars: &[Kind::Action],
    },
    Phrase {
        words: b"\"&\"",
        kinds: &[Kind::Amp],
        bars: &[],
    },
    Phrase {
        words: b"\"!\"",
        kinds: &[Kind::Bang],
        bars: &[],
    },
    Phrase {
        words: b"\"?\"",
        kinds: &[Kind::Quest],
        bars: &[],
    },
    Phrase {
        words: b"\"*\"",
        kinds: &[Kind::Star],
        bars: &[],
    },
    Phrase {
        words: b"\"+\"",
        kinds: &[Kind::Plus],
        bars: &[],
    },
    Phrase {
        words: b"\"/\"",
        kinds: &[Kind::Slash],
        bars: &[],
    },
    Phrase {
        words: b"\")\"",
        kinds: &[Kind::RParen],
        bars: &[],
    },
    Phrase {
        words: b"the end of the text",
        kinds: &[Kind::End],
        bars: &[],
    },
];

fn allows_all(position: Position, kinds: &[Kind]) -> bool
    requires { position.depth ≤ max_open }
    ensures { result ≡ list_all (allows position) kinds.now }
{
    for kind in kinds {
        if !position.allows(*kind) {
            return false;
        }
    }
    true
}

fn allows_any(position: Position, kinds: &[Kind]) -> bool
    requires { position.depth ≤ max_open }
    ensures { result ≡ list_any (allows position) kinds.now }
{
    for kind in kinds {
        if position.allows(*kind) {
            return true;
        }
    }
    false
}

fn is_reported(position: Position, phrase: &Phrase) -> bool
    requires { position.depth ≤ max_open }
    ensures { result ≡ reports (allows position) (phrase_of phrase.now) }
{
    allows_all(position, phrase.kinds) && !allows_any(position, phrase.bars)
}

fn all_phrases() -> &'static [Phrase]
    ensures { map phrase_of result.now ≡ phrases }
{
    &PHRASES
}

// The words of the phrases of a table that are reported.
fn reported_of(
    alloc: Global,
    position: Position,
    table: &[Phrase],
) -> Result<Vec<&'static [u8]>, Memory>
    requires { position.depth ≤ max_open }
    ensures { IfOk result (λ v. AreAllReported (λ k. allows position k ≡ true) (map phrase_of table.now)
        (map (λ w. w.now) v.items)) }
{
    let mut reported = Vec::new(alloc);
    for phrase in table {
        if is_reported(position, phrase) {
            reported.push(phrase.words)?;
        }
    }
    Ok(reported)
}

/// Returns the words of the phrases for what can stand there, in their order.
///
/// # Errors
/// `Memory` if an allocation fails.
pub(crate) fn reported_phrases(
    alloc: Global,
    position: Position,
) -> Result<Vec<&'static [u8]>, Memory>
    requires { position.depth ≤ max_open }
    ensures { IfOk result (λ v. AreAllReported (λ k. allows position k ≡ true) phrases (map (λ w. w.now) v.items)) }
{
    reported_of(alloc, position, all_phrases())
}
