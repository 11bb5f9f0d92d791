//! Hints on grammars.
ghost use Rattle.std.specs.Prelude.{◌≡◌, ℕ, Bool, List, Option, IfOk};
ghost use Rattle.abnfexplain.specs.AbnfNoteLines.{AreAbnfPositions};
ghost use Rattle.abnfhints.specs.AbnfHints.{AreAbnfHints};
ghost use Rattle.abnfhints.specs.declared.line_end.LineEnd.{LineEnd};
ghost use Rattle.abnfread.specs.AbnfViews.{rules_of};
ghost use Rattle.abnfread.specs.Element.{Rule};
ghost use Rattle.ruletable.specs.Letters.{has};

use crate::barren::{barren_names, push_all_barren};
use crate::hinted::Hinted;
use crate::lineless::push_judged;
use crate::marks::marks_of;
use crate::reversed::{push_all_reversed, reversed_among};
use abnfread::AbnfKind;
use lexer::one_list;
use ruletable::{Memory, NameCase};
use std::alloc::Global;

/// How many hints of a kind are reported.
pub const MAX_HINTS: usize = 16;

/// Returns the hints on a grammar, as they are reported:
///
/// - on rules of the file that derive nothing, by their order;
/// - on ranges and repetitions whose numbers are reversed, by the order of the text;
/// - on the judged rule, if it derives something, but no line.
///
/// Nobody knows which texts a rule derives that reaches prose or a name without a rule. So there is no hint on it of
/// the first and the last kind. Of each kind the first 16 are reported, and how many more there are. Hints never reject
/// a grammar.
///
/// # Errors
/// `Memory` if an allocation fails.
pub fn abnf_hints(alloc: Global, hinted: &Hinted<'_>) -> Result<Vec<u8>, Memory>
    requires rules { hinted.now.rules.now.names ≡ NameCase.Fold }
    requires positions { hinted.now.positions.now.names ≡ NameCase.Fold }
    ensures { IfOk result (λ hints. (text : List ℕ) → AreAbnfPositions text hinted.now.positions.now
        → AreAbnfHints (has hinted.now.letters) (rules_of hinted.now.rules.now) hinted.now.count hinted.now.judged
        hinted.now.end text hints.items) }
{
    let marks = marks_of(alloc, hinted)?;
    let barren = barren_names(alloc, hinted, &marks)?;
    let reversed = reversed_among(alloc, &hinted.positions.mentions)?;
    let mut out = Vec::new(alloc);
    push_all_barren(alloc, &mut out, hinted.positions, &barren)?;
    push_all_reversed(&mut out, hinted.positions, &reversed)?;
    push_judged(alloc, &mut out, hinted, &marks)?;
    Ok(out)
}

/// Says that there is at most one text of the hints on a grammar.
pub fn one_text_of_abnf_hints()
    ensures { (has : ℕ → Bool) (rules : List Rule) (count : ℕ) (judged : Option ℕ) (end : LineEnd)
        (text a b : List ℕ) → AreAbnfHints has rules count judged end text a
        → AreAbnfHints has rules count judged end text b → a ≡ b }
{
    one_list::<AbnfKind>();
}
