//! Opens a grammar: reads its text, checks it, and makes the messages on it.
ghost use Rattle.std.specs.Prelude.{◌≡◌, ℕ, List, IfErr, IfOk, IfSome, map, option_copied};
ghost use Rattle.ruletable.specs.Notes.{said_of};
ghost use Rattle.toolrun.specs.AskedPositions.{AreAsked};
ghost use Rattle.toolrun.specs.ReportedNotes.{HintedNotes};

use crate::language::{Checked, Language, ReadText};
use crate::notes::text_of;
use crate::reported::{HintText, reported_hints};
use crate::settings::Settings;
use ruletable::{Memory, Note, ReadFault};
use std::alloc::Global;

/// A grammar that was read and checked.
#[derive(Drop)]
pub(crate) struct CheckedText<R, J, P> {
    /// The result of the checks.
    pub(crate) checked: Checked<R, J>,
    /// Where its text defines rules and mentions them, if explanations are asked for.
    pub(crate) positions: Option<P>,
}

/// Reads a grammar's text, and checks it from the start rule that settings name, or from the first rule. Fails by the
/// text's fault, or if an allocation fails.
pub(crate) fn read_checked<L: Language>(
    alloc: Global,
    text: &[u8],
    settings: &Settings<'_, L::Options>,
) -> Result<CheckedText<L::Rules, L::Judged, L::TextPositions>, ReadFault>
    ensures checked { IfOk result (λ c. L.is_checked text.now (option_copied settings.now.start)
        (map said_of c.checked.notes.items) c.checked.rules c.checked.judged) }
    ensures rules { IfOk result (λ c. L.are_rules text.now c.checked.rules) }
    ensures belongs { IfOk result (λ c. IfSome c.checked.judged (L.belongs c.checked.rules)) }
    ensures positions { IfOk result (λ c. AreAsked L.are_text_positions settings.now.explain text.now c.positions) }
    ensures fault { IfErr result (λ f. L.has_fault text.now f) }
{
    L::follows();
    let ReadText { grammar, positions } = L::read(alloc, text, settings.explain)?;
    match L::check(alloc, grammar, settings.start) {
        Ok(checked) => Ok(CheckedText { checked, positions }),
        Err(Memory) => Err(ReadFault::Memory),
    }
}

/// The result of opening a grammar.
#[derive(Drop)]
pub struct Opened<R, J> {
    /// The notes on it, in order.
    pub notes: Vec<Note>,
    /// The text of the notes, as a run writes it: each explained, with hints after them, if settings ask for that.
    pub diagnostics: Vec<u8>,
    /// Its rules.
    pub rules: R,
    /// The analysis of these that a run needs, unless a note rejects the grammar.
    pub judged: Option<J>,
}

/// Returns the text of the notes on a grammar, explained and with hints after them if settings ask for that. It takes
/// the text's rules, and returns them. `Memory` if an allocation fails.
fn diagnostics_of<L: Language>(
    alloc: Global,
    found: Option<L::TextPositions>,
    settings: &Settings<'_, L::Options>,
    rules: L::Rules,
    notes: &[Note],
) -> Result<(Vec<u8>, L::Rules), Memory>
    requires { (text : List ℕ) × AreAsked L.are_text_positions settings.now.explain text found
        × L.are_rules text rules }
    ensures diagnostics { IfOk result (λ r. (text : List ℕ)
        → AreAsked L.are_text_positions settings.now.explain text found → L.are_rules text rules
        → HintedNotes settings.now (L.explains_note text) (L.are_hints text settings.now) (map said_of notes.now)
        r.0.items) }
    ensures rules { IfOk result (λ r. r.1 ≡ rules) }
{
    let Some(found) = found else {
        let text = text_of(alloc, notes)?;
        return Ok((text, rules));
    };
    match reported_hints::<L>(alloc, found, settings, rules, notes) {
        HintText::Whole(text, rules) => Ok((text, rules)),
        HintText::Part(_) => Err(Memory),
    }
}

/// Reads a grammar's text, checks it from the start rule that settings name, or from the first rule, and makes the text
/// of the notes on it. Fails by the text's fault, or if an allocation fails.
pub fn open<L: Language>(
    alloc: Global,
    text: &[u8],
    settings: &Settings<'_, L::Options>,
) -> Result<Opened<L::Rules, L::Judged>, ReadFault>
    ensures checked { IfOk result (λ o. L.is_checked text.now (option_copied settings.now.start)
        (map said_of o.notes.items) o.rules o.judged) }
    ensures diagnostics { IfOk result (λ o. HintedNotes settings.now (L.explains_note text.now)
        (L.are_hints text.now settings.now) (map said_of o.notes.items) o.diagnostics.items) }
    ensures belongs { IfOk result (λ o. IfSome o.judged (L.belongs o.rules)) }
    ensures fault { IfErr result (λ f. L.has_fault text.now f) }
{
    L::follows();
    let CheckedText { checked, positions } = read_checked::<L>(alloc, text, settings)?;
    let Checked {
        notes,
        rules,
        judged,
    } = checked;
    match diagnostics_of::<L>(alloc, positions, settings, rules, notes.as_slice()) {
        Ok((diagnostics, rules)) => Ok(Opened {
            notes,
            diagnostics,
            rules,
            judged,
        }),
        Err(Memory) => Err(ReadFault::Memory),
    }
}
