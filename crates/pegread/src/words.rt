//! The words that tokens stand for.
ghost use Rattle.std.specs.Prelude.{MatchOption, IfOk};
ghost use Rattle.pegread.specs.Marks.{IsCut};
ghost use Rattle.pegread.specs.Steps.{word_of};
ghost use Rattle.lexer.specs.TokenLists.{tok_of};
ghost use Rattle.pegread.specs.Words as words;
ghost use Rattle.pegread.specs.Words.{Says};

use crate::class::class_set;
use crate::kind::Kind;
use crate::literal::literal_bytes;
use lexer::{Token, inside};
use ruletable::{ByteSet, Memory, Span};
use std::alloc::Global;

/// A token as far as a grammar goes: its kind, with a name and where it stands, a literal's bytes, a class's members,
/// or an action's template.
#[derive(Drop)]
pub(crate) enum Word<'a> {
    Ident(&'a [u8], Span),
    Arrow,
    Begin,
    EndCap,
    Slash,
    Amp,
    Bang,
    Quest,
    Star,
    Plus,
    Dot,
    LParen,
    RParen,
    Literal(Vec<u8>),
    Class(ByteSet),
    Action(Vec<u8>),
    End,
}

/// Reads the word that a token stands for; `None` for `Bad`, which stands for none.
///
/// # Errors
/// `Memory` if an allocation fails.
pub(crate) fn word_in(alloc: Global, token: Token<'_, Kind>) -> Result<Option<Word<'_>>, Memory>
    requires { IsCut token.kind token.slice.now }
    ensures { IfOk result (λ said. MatchOption said ((w : words.Word) → Says (tok_of token.entry) w → ⊥)
        (λ w. Says (tok_of token.entry) (word_of w))) }
{
    match token.kind {
        Kind::Ident => Ok(Some(Word::Ident(token.slice, token.span))),
        Kind::Arrow => Ok(Some(Word::Arrow)),
        Kind::Begin => Ok(Some(Word::Begin)),
        Kind::EndCap => Ok(Some(Word::EndCap)),
        Kind::Slash => Ok(Some(Word::Slash)),
        Kind::Amp => Ok(Some(Word::Amp)),
        Kind::Bang => Ok(Some(Word::Bang)),
        Kind::Quest => Ok(Some(Word::Quest)),
        Kind::Star => Ok(Some(Word::Star)),
        Kind::Plus => Ok(Some(Word::Plus)),
        Kind::Dot => Ok(Some(Word::Dot)),
        Kind::LParen => Ok(Some(Word::LParen)),
        Kind::RParen => Ok(Some(Word::RParen)),
        Kind::Literal => Ok(Some(Word::Literal(literal_bytes(alloc, token.slice)?))),
        Kind::Class => Ok(Some(Word::Class(class_set(token.slice)))),
        Kind::Action => {
            // the text within its outer braces
            let template = Vec::from_slice(alloc, inside(token.slice))?;
            Ok(Some(Word::Action(template)))
        }
        Kind::Bad => Ok(None),
        Kind::End => Ok(Some(Word::End)),
    }
}
