//! The tokens of a text, kept in order.
ghost use Rattle.std.specs.Prelude.{length, map, IfOk};
ghost use Rattle.lexer.specs.TokenLists.{AreTokens, tok_of};

use lexer::{Kind, Token, tokens};
use ruletable::Memory;
use std::alloc::Global;

/// Returns the tokens of a text, in order. `Memory` if an allocation fails.
pub(crate) fn kept_tokens<K: Kind>(alloc: Global, text: &[u8]) -> Result<Vec<Token<'_, K>>, Memory>
    ensures { IfOk result (λ kept. AreTokens K.white K.first K.is_end (length text.now) text.now
        (map tok_of kept.items)) }
{
    let mut kept = Vec::new(alloc);
    for token in tokens::<K>(text) {
        kept.push(token)?;
    }
    Ok(kept)
}
