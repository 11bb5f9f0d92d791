//! A caller of `lexer`.
ghost use Rattle.std.specs.Prelude.{◌≡◌, List, length};
ghost use Rattle.pegread.specs.Tokens.{Tok, AreTokens};

use lexer::{have_tokens, tokens};
use pegread::Kind;

/// Returns how many tokens a grammar's text has, the end counted.
pub fn count_tokens(text: &[u8]) -> usize
    ensures { (ts : List Tok) × AreTokens (length text.now) text.now ts × (length ts ≡ result) }
{
    have_tokens::<Kind>(text);
    tokens::<Kind>(text).count()
}
