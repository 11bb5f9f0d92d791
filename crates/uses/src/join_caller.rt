//! A caller of `abnftexts`.
ghost use Rattle.std.specs.Prelude.{◌≡◌, [], ◌∷◌, IfOk};
ghost use Rattle.abnftexts.specs.JoinedGrammar.{AreTextsJoined, GrammarJoined};

use abnftexts::{ListForm, SourceText, join_texts};
use ruletable::Memory;
use std::alloc::Global;

/// Returns the grammar that one text gives, with comments that name lines of it. Lists are written out in that form.
pub fn grammar_in(
    alloc: Global,
    name: &[u8],
    bytes: &[u8],
    lists: Option<ListForm>,
) -> Result<Vec<u8>, Memory>
    ensures { IfOk result (λ grammar. (joined : GrammarJoined)
        × AreTextsJoined lists (record { name = name.now; bytes = bytes.now } ∷ []) joined
        × (grammar.items ≡ joined.grammar)) }
{
    let texts = [SourceText { name, bytes }];
    let joined = join_texts(alloc, &texts, lists)?;
    Ok(joined.grammar)
}
