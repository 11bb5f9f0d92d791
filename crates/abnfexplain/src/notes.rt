//! Explanations of notes.
ghost use Rattle.std.specs.Prelude.{◌≡◌, ℕ, List, Option, IfErr, IfOk};
ghost use Rattle.ruletable.specs.Notes.{Said};
ghost use Rattle.abnfread.specs.AbnfReading.{IsFaultOf, Reads};
ghost use Rattle.abnfread.specs.AbnfTable.{IsCoreTable, IsTableOf};
ghost use Rattle.abnfread.specs.Element.{Definition};
ghost use Rattle.abnfexplain.specs.AbnfNoteLines.{AreAbnfPositions, ExplainsNote, IsFirstProse, IsUsedForm};
ghost use Rattle.diagnostics.specs.declared.noteplaces.forms.UseForm.{UseForm};
ghost use Rattle.abnfexplain.specs.AbnfNoteLines.{sign_of as the_sign};

use abnfread::{Abnf, AbnfKind, KeptAbnf, read_kept_abnf};
use diagnostics::{Positions, Sign, Signs, positions_by, positions_of};
use lexer::one_list;
use ruletable::{LineRule, Memory, NameCase, ReadFault};
use std::alloc::Global;

/// The roles of the tokens of ABNF in the definitions of a grammar.
pub struct AbnfSigns;

impl Signs<AbnfKind> for AbnfSigns {
    ghost sign_of = { the_sign };

    fn sign(kind: AbnfKind) -> Sign {
        match kind {
            AbnfKind::Name => Sign::Name,
            AbnfKind::Is => Sign::Defines,
            AbnfKind::Adds => Sign::Adds,
            AbnfKind::Prose => Sign::Prose,
            AbnfKind::Num => Sign::Number,
            AbnfKind::Repeat => Sign::Repeats,
            _ => Sign::Other,
        }
    }
}

/// Returns where a grammar's text defines its rules.
///
/// # Errors
/// `Memory` if an allocation fails.
pub fn abnf_positions(alloc: Global, text: &[u8]) -> Result<Positions, Memory>
    ensures { IfOk result (λ positions. AreAbnfPositions text.now positions) }
{
    positions_of::<AbnfKind, AbnfSigns>(alloc, text, LineRule::Lf, NameCase::Fold)
}

/// A grammar that was read, and where its text defines rules and mentions them.
#[derive(Drop)]
pub struct AbnfText {
    /// The grammar.
    pub abnf: Abnf,
    /// Where its text defines rules and mentions them.
    pub positions: Positions,
}

/// Reads a grammar's text, and returns where it defines rules and mentions them. It cuts the text into tokens once.
///
/// # Errors
/// Those of `read_abnf`.
pub fn read_abnf_text(alloc: Global, text: &[u8]) -> Result<AbnfText, ReadFault>
    ensures found { IfOk result (λ r. (definitions : List Definition) × Reads text.now definitions
        × IsTableOf definitions r.abnf.rules r.abnf.redefined.items r.abnf.extended.items) }
    ensures core { IfOk result (λ r. IsCoreTable r.abnf.core) }
    ensures positions { IfOk result (λ r. AreAbnfPositions text.now r.positions) }
    ensures fault { IfErr result (λ f. IsFaultOf text.now f) }
{
    let KeptAbnf { abnf, tokens } = read_kept_abnf(alloc, text)?;
    match positions_by::<AbnfKind, AbnfSigns>(alloc, text, &tokens, LineRule::Lf, NameCase::Fold) {
        Ok(positions) => Ok(AbnfText { abnf, positions }),
        Err(Memory) => Err(ReadFault::Memory),
    }
}

/// Says that at most one text explains a note on the grammar of a text, that at most one prose is a rule's first, and
/// that the use by which a name is noted has one form.
pub fn one_note_explanation_of_abnf()
    ensures lines { (text : List ℕ) (start : Option (List ℕ)) (note : Said) (a b : List ℕ)
        → ExplainsNote text start note a → ExplainsNote text start note b → a ≡ b }
    ensures prose { (text name : List ℕ) (a b : Option (List ℕ)) → IsFirstProse text name a → IsFirstProse text name b
        → a ≡ b }
    ensures form { (text : List ℕ) (start : Option (List ℕ)) (name : List ℕ) (a b : UseForm)
        → IsUsedForm text start name a → IsUsedForm text start name b → a ≡ b }
{
    one_list::<AbnfKind>();
}
