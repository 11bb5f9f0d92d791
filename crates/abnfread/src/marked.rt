//! The tokens of a whole text, with their marks.
ghost use Rattle.std.specs.Prelude.{List};
ghost use Rattle.lexer.specs.TokenLists.{Tok};
ghost use Rattle.abnfread.specs.MarkedIteration.{AreLeft};
ghost use Rattle.abnfread.specs.MarkedTokens.{AreTokens, Marked, AreMarked, marks, margin};

use crate::indent::indent_at;
use crate::kind::AbnfKind;
use crate::marks::AbnfTokenIter;
use lexer::{Kind, tokens};

/// Returns the tokens of a grammar's text, with their marks.
///
/// It takes no memory, and what the tokens lend is the text's.
pub fn abnf_tokens(text: &[u8]) -> AbnfTokenIter<'_>
    ensures left { (ts : List (Tok AbnfKind)) → AreTokens text.now ts
        → AreLeft result (marks text.now (margin text.now ts) 0 ts) }
    ensures all { (ms : List Marked) → AreLeft result ms → AreMarked text.now ms }
{
    AbnfKind::are_cut();
    let start = text.len() - AbnfKind::after_white(text).len();
    AbnfTokenIter::new(text, tokens(text), indent_at(text, start))
}
