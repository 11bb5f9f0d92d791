//! Explanations of notes on a grammar in ABNF.
ghost use Rattle.std.specs.Prelude.{◌≡◌, ◌++◌, ℕ, List, Option, length, option_copied, option_map, IfOk, OnOk};
ghost use Rattle.ruletable.specs.Notes.{said_of};
ghost use Rattle.ruletable.specs.declared.table.NameCase.TheVariants.{Fold};
ghost use Rattle.abnfread.specs.AbnfViews.{rules_of};
ghost use Rattle.abnfread.specs.Element.{Rule};
ghost use Rattle.abnfcheck.specs.NameChains.{AreNameChains, IsNameChain};
ghost use Rattle.abnfexplain.specs.AbnfNoteLines.{AreAbnfPositions};
ghost use Rattle.abnfexplain.specs.ChainLines.{chain_reported};
ghost use Rattle.abnfrun.specs.AbnfExplainedNotes.{
  AreAllRules,
  AreNotePositions,
  AreProseLines,
  AreUndefinedLines,
  ExplainsAbnfNote,
  IsMeantLine,
  IsPerhapsLine,
  IsReachAfter,
  between_brackets as inside,
  named_line,
};

use crate::abnf_positions::AbnfPositions;
use abnfcheck::{AllRules, NameChains, name_chains};
use abnfexplain::{MAX_LAST, push_chain};
use abnfread::Elem;
use diagnostics::{
    Mention, Positions, UseForm, explain_note, first_prose, is_early, push_meant, used_form,
};
use ruletable::{Memory, Note, NoteKind, RuleTable};
use std::alloc::Global;

/// Returns where a text says what explains notes on its grammar, by where it defines rules and mentions them. It takes
/// the text's rules, with the core rules that it leaves alone, and holds them.
///
/// `Memory` if an allocation fails; the rules are dropped then.
pub(crate) fn note_positions(
    alloc: Global,
    positions: Positions,
    all: AllRules,
    start: Option<&str>,
) -> Result<AbnfPositions, Memory>
    requires { (text : List ℕ) × AreAbnfPositions text positions × AreAllRules text all.rules all.count }
    ensures positions { IfOk result (λ found. (text : List ℕ) → AreAbnfPositions text positions
        → AreAllRules text all.rules all.count → AreNotePositions text (option_copied start.entry) found) }
    ensures rules { IfOk result (λ found. found.all ≡ all) }
{
    let chains = name_chains(alloc, &all.rules, start)?;
    Ok(AbnfPositions {
        positions,
        chains,
        all,
    })
}

// Adds the line of the chain to a name, if one reaches it.
fn push_reached(
    alloc: Global,
    out: &mut Vec<u8>,
    chains: &NameChains,
    name: &[u8],
) -> Result<(), Memory>
    ensures { OnOk result ((rules : List Rule) (given : Option (List ℕ)) → AreNameChains rules given chains.now
        → (chain : Option (List (List ℕ))) × IsNameChain rules given name.now chain
        × (out.new.items ≡ out.old.items ++ chain_reported chain)) }
{
    if let Some(ends) = chains.chain_ends(alloc, name, MAX_LAST)? {
        push_chain(out, &chains.names, &ends.ids, ends.left)?;
    }
    Ok(())
}

// Adds the line of the rule that is perhaps meant by a name that no rule has, if the name is among the first ones, of
// so many rules.
fn push_near(
    alloc: Global,
    out: &mut Vec<u8>,
    chains: &NameChains,
    count: usize,
    name: &[u8],
) -> Result<(), Memory>
    ensures { OnOk result ((rules : List Rule) (given : Option (List ℕ)) → AreNameChains rules given chains.now
        → count ≡ length rules → (line : List ℕ) × IsMeantLine rules given name.now line
        × (out.new.items ≡ out.old.items ++ line)) }
{
    if !is_early(&chains.names, count, name)? {
        return Ok(());
    }
    push_meant(alloc, out, &chains.names, count, name)?;
    Ok(())
}

// Adds the line of what is perhaps meant by a name that no rule has, by the form of its use: how a code point or a
// range is written, or the one of so many rules.
fn push_perhaps(
    alloc: Global,
    out: &mut Vec<u8>,
    form: UseForm,
    chains: &NameChains,
    count: usize,
    name: &[u8],
) -> Result<(), Memory>
    ensures { OnOk result ((rules : List Rule) (given : Option (List ℕ)) → AreNameChains rules given chains.now
        → count ≡ length rules → (line : List ℕ) × IsPerhapsLine form rules given name.now line
        × (out.new.items ≡ out.old.items ++ line)) }
{
    match form {
        UseForm::CodePoint => {
            out.extend_from_slice(b"  a code point is written %x41\n")?;
            Ok(())
        }
        UseForm::Range => {
            out.extend_from_slice(b"  a range is written %x30-39\n")?;
            Ok(())
        }
        UseForm::Plain => push_near(alloc, out, chains, count, name),
    }
}

// Adds the lines that follow those of a note on a name that no rule has.
fn push_undefined(
    alloc: Global,
    out: &mut Vec<u8>,
    found: &AbnfPositions,
    start: Option<&str>,
    name: &[u8],
) -> Result<(), Memory>
    ensures { OnOk result ((text : List ℕ) → AreNotePositions text (option_copied start.entry) found.now
        → (line : List ℕ) × AreUndefinedLines text (option_copied start.entry) name.now line
        × (out.new.items ≡ out.old.items ++ line)) }
{
    let form = used_form(alloc, &found.positions, start, name)?;
    push_perhaps(alloc, out, form, &found.chains, found.all.rules.len(), name)?;
    push_reached(alloc, out, &found.chains, name)?;
    Ok(())
}

// Returns what stands between the brackets of prose.
fn between_brackets(prose: &[u8]) -> &[u8]
    ensures { result.now ≡ inside prose.entry.now }
{
    let Some((_, rest)) = prose.split_first() else {
        return prose;
    };
    match rest.split_last() {
        Some((_, name)) => name,
        None => rest,
    }
}

// Adds the line of prose that is the name of one of the rules.
fn push_named(
    out: &mut Vec<u8>,
    rules: &RuleTable<Elem>,
    prose: Option<&Mention>,
) -> Result<(), Memory>
    requires { rules.now.names ≡ Fold }
    ensures { OnOk result (out.new.items ≡ out.old.items
        ++ named_line (rules_of rules.now) (option_map (λ m. m.now.text.items) prose.entry)) }
{
    let Some(prose) = prose else {
        return Ok(());
    };
    let is_rule = rules.find(between_brackets(&prose.text))?.is_some();
    if !is_rule {
        return Ok(());
    }
    out.extend_from_slice(b"  without < and > this is the rule of that name\n")?;
    Ok(())
}

// Adds the lines that follow those of a note on a rule that holds prose.
fn push_after_prose(
    alloc: Global,
    out: &mut Vec<u8>,
    found: &AbnfPositions,
    name: &[u8],
) -> Result<(), Memory>
    ensures { OnOk result ((text : List ℕ) (start : Option (List ℕ)) → AreNotePositions text start found.now
        → (lines : List ℕ) × AreProseLines text start name.now lines × (out.new.items ≡ out.old.items ++ lines)) }
{
    let prose = first_prose(alloc, &found.positions, name)?;
    push_named(out, &found.all.rules, prose)?;
    push_reached(alloc, out, &found.chains, name)
}

// Adds the lines that follow those of a note, if any do.
fn push_after(
    alloc: Global,
    out: &mut Vec<u8>,
    found: &AbnfPositions,
    start: Option<&str>,
    note: &Note,
) -> Result<(), Memory>
    ensures { OnOk result ((text : List ℕ) → AreNotePositions text (option_copied start.entry) found.now
        → (line : List ℕ) × IsReachAfter text (option_copied start.entry) note.now.kind note.now.name.items line
        × (out.new.items ≡ out.old.items ++ line)) }
{
    let name = note.name.as_slice();
    match note.kind {
        NoteKind::Undefined => push_undefined(alloc, out, found, start, name),
        NoteKind::Prose => push_after_prose(alloc, out, found, name),
        _ => Ok(()),
    }
}

/// Returns the lines that explain a note: those of positions, what is perhaps meant by a name that no rule has, whether
/// prose is the name of a rule, and by which rules the judged one reaches that name or a rule that holds prose.
///
/// `Memory` if an allocation fails.
pub(crate) fn explain_reached(
    alloc: Global,
    positions: &AbnfPositions,
    start: Option<&str>,
    note: &Note,
) -> Result<Vec<u8>, Memory>
    ensures { IfOk result (λ why. (text : List ℕ) → AreNotePositions text (option_copied start.entry) positions.now
        → ExplainsAbnfNote text (option_copied start.entry) (said_of note.now) why.items) }
{
    let mut why = explain_note(alloc, &positions.positions, start, note)?;
    push_after(alloc, &mut why, positions, start, note)?;
    Ok(why)
}
