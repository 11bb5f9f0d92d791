//! Explains notes by a grammar's text.
ghost use Rattle.std.specs.Prelude.{◌≡◌, ◌++◌, ℕ, List, length, map, IfOk, OnOk, option_copied};
ghost use Rattle.lexer.specs.TokenLists.{AreTokens, tok_of};
ghost use Rattle.ruletable.specs.Notes.{said, said_of};
ghost use Rattle.diagnostics.specs.ExplainedNotes.{ArePositions, AreReportedBy};

use crate::noteplaces::heads::heads_of;
use crate::noteplaces::kept::kept_tokens;
use crate::noteplaces::lines::{heads_named, push_by_heads};
use crate::noteplaces::mentions::mentions_of;
use crate::noteplaces::name_index::index_names;
use crate::noteplaces::positions::Positions;
use crate::noteplaces::prose::{first_prose, push_prose};
use crate::noteplaces::sign::Signs;
use crate::noteplaces::uses::push_used;
use lexer::{Kind, Token, one_list};
use ruletable::{LineRule, Memory, NameCase, Note, NoteKind};
use std::alloc::Global;

/// Returns where a text with these tokens defines its rules, and what their bodies mention.
///
/// # Errors
/// `Memory` if an allocation fails.
pub fn positions_by<K: Kind, S: Signs<K>>(
    alloc: Global,
    text: &[u8],
    tokens: &[Token<'_, K>],
    rule: LineRule,
    names: NameCase,
) -> Result<Positions, Memory>
    requires { AreTokens K.white K.first K.is_end (length text.now) text.now (map tok_of tokens.now) }
    ensures { IfOk result (λ positions. ArePositions K.white K.first K.is_end S.sign_of rule names text.now positions) }
{
    K::are_cut();
    one_list::<K>();
    let heads = heads_of::<K, S>(alloc, text, tokens, rule)?;
    let mentions = mentions_of::<K, S>(alloc, text, tokens, rule)?;
    let index = index_names(alloc, &heads, &mentions, names)?;
    Ok(Positions {
        names,
        heads,
        mentions,
        index,
    })
}

/// Returns where a text defines its rules, and what their bodies mention. It cuts the text into tokens once.
///
/// # Errors
/// `Memory` if an allocation fails.
pub fn positions_of<K: Kind, S: Signs<K>>(
    alloc: Global,
    text: &[u8],
    rule: LineRule,
    names: NameCase,
) -> Result<Positions, Memory>
    ensures { IfOk result (λ positions. ArePositions K.white K.first K.is_end S.sign_of rule names text.now positions) }
{
    let tokens = kept_tokens::<K>(alloc, text)?;
    positions_by::<K, S>(alloc, text, &tokens, rule, names)
}

// Adds the lines that explain a note of the kind on a name.
fn push_lines(
    alloc: Global,
    out: &mut Vec<u8>,
    positions: &Positions,
    start: Option<&str>,
    kind: NoteKind,
    name: &[u8],
) -> Result<(), Memory>
    ensures { OnOk result ((why : List ℕ) × AreReportedBy positions.now (option_copied start.entry)
        (said kind name.now) why
        × (out.new.items ≡ out.old.items ++ why)) }
{
    match kind {
        NoteKind::Undefined => push_used(alloc, out, positions, start, name),
        NoteKind::Prose => {
            let found = first_prose(alloc, positions, name)?;
            push_prose(out, found)
        }
        _ => {
            let heads = heads_named(alloc, positions, name)?;
            push_by_heads(alloc, out, &heads, kind)
        }
    }
}

/// Returns the lines that explain a note on the grammar. A name may be given for the start rule.
///
/// - On a rule that is defined again: where it is first defined, and where it is defined again.
/// - On a name that no rule has: its first use.
/// - On a rule with prose: its first prose.
/// - Notes of other kinds have no lines.
///
/// # Errors
/// `Memory` if an allocation fails.
pub fn explain_note(
    alloc: Global,
    positions: &Positions,
    start: Option<&str>,
    note: &Note,
) -> Result<Vec<u8>, Memory>
    ensures { IfOk result
        (λ why. AreReportedBy positions.now (option_copied start.entry) (said_of note.now) why.items) }
{
    let mut out = Vec::new(alloc);
    push_lines(
        alloc,
        &mut out,
        positions,
        start,
        note.kind,
        note.name.as_slice(),
    )?;
    Ok(out)
}
