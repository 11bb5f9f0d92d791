//! The tokens of a whole text.
ghost use Rattle.std.specs.Prelude.{◌≡◌, ◌++◌, ◌∷◌, [], ℕ, List, length, All, true, IfOk, IfErr};
ghost use Rattle.lexer.specs.Pieces.{AreInOrder, IsLongest, LiesIn, MakeUp};
ghost use Rattle.lexer.specs.TokenLists.{AreTokens, IsAtStart, Tok};

use crate::kind::Kind;
use crate::token_iter::{Token, TokenIter};
use ruletable::ReadFault;
use std::marker::PhantomData;

/// Returns the tokens of a text. It takes no memory, and what the tokens lend is the text's.
pub fn tokens<K: Kind>(text: &[u8]) -> TokenIter<'_, K>
    ensures { IsAtStart result text.now }
{
    TokenIter {
        rest: text,
        start: 0,
        ended: false,
        kinds: PhantomData,
    }
}

/// Adds a token to the list if it is to be kept.
///
/// # Errors
/// `Memory` if an allocation fails.
pub fn keep<'a, K: Kind>(
    keeps: bool,
    token: Token<'a, K>,
    kept: &mut Vec<Token<'a, K>>,
) -> Result<(), ReadFault>
    ensures added { IfOk result (λ _. keeps ≡ true → kept.new.items ≡ kept.old.items ++ token.entry ∷ []) }
    ensures fault { IfErr result (λ f. f ≡ ReadFault.Memory) }
{
    if !keeps {
        return Ok(());
    }
    match kept.push(token) {
        Ok(()) => Ok(()),
        Err(_) => Err(ReadFault::Memory),
    }
}

/// Says that a text has at most one list of tokens.
pub fn one_list<K: Kind>()
    ensures { (text : List ℕ) → (a b : List (Tok K)) → AreTokens K.white K.first K.is_end (length text) text a
        → AreTokens K.white K.first K.is_end (length text) text b → a ≡ b }
{
    K::are_cut();
}

/// Says that a text has a list of tokens. It goes over them, and takes no memory.
pub fn have_tokens<K: Kind>(text: &[u8])
    ensures { (ts : List (Tok K)) × AreTokens K.white K.first K.is_end (length text.now) text.now ts }
{
    for _token in tokens::<K>(text) {}
}

/// Says that a text is its tokens' slices with white space between them, in order. Each slice lies where its span says,
/// and is the longest token that begins there, or none begins there.
pub fn tokens_make_up<K: Kind>()
    ensures pieces { (text : List ℕ) (ts : List (Tok K)) → AreTokens K.white K.first K.is_end (length text) text ts
        → MakeUp K.white ts text }
    ensures slices { (text : List ℕ) (ts : List (Tok K)) → AreTokens K.white K.first K.is_end (length text) text ts
        → All (LiesIn text) ts }
    ensures order { (text : List ℕ) (ts : List (Tok K)) → AreTokens K.white K.first K.is_end (length text) text ts
        → AreInOrder 0 ts }
    ensures longest { (text : List ℕ) (ts : List (Tok K)) → AreTokens K.white K.first K.is_end (length text) text ts
        → All (IsLongest K.stands text) ts }
{
    K::are_cut();
}
