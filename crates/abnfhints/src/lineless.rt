//! Whether the judged rule derives a line.
ghost use Rattle.std.specs.Prelude.{◌≡◌, ◌↔◌, ◌++◌, ℕ, [], List, length, slice_index_or, IsTrue, IfOk, OnOk};
ghost use Rattle.abnfread.specs.AbnfViews.{rules_of};
ghost use Rattle.abnfcheck.specs.AbnfGrammar.{IsSound};
ghost use Rattle.abnfcheck.specs.AbnfUses.{rule_names};
ghost use Rattle.abnfcheck.specs.RuleMarks.{AreProductive};
ghost use Rattle.abnfhints.specs.AbnfHints.{DerivesOnlyWith, IsReportedOfJudged, end_reported, lineless_reported};
ghost use Rattle.abnfhints.specs.LineEnds.{end_byte};
ghost use Rattle.ruletable.specs.Letters.{has};
ghost use Rattle.fixpoint.specs.IdMarks.{AreMarks};

use crate::hinted::Hinted;
use crate::line_end::LineEnd;
use crate::marks::{Marks, is_marked};
use crate::without::rules_without;
use abnfcheck::productive_rules;
use diagnostics::push_cut;
use ruletable::{Memory, NameCase};
use std::alloc::Global;

// Returns the byte that ends a line, as it is reported, and the options by which a line may hold it.
fn reported_end(end: LineEnd) -> &'static [u8]
    ensures { result.now ≡ end_reported end }
{
    match end {
        LineEnd::Lf => {
            b"%x0A\n  with -k, a line keeps its %x0A\n  with -z, records end with %x00 and may hold %x0A\n"
        }
        LineEnd::Nul => b"%x00\n",
    }
}

// Returns whether the rule of that id derives something, but nothing without the byte that ends a line.
fn is_lineless(alloc: Global, hinted: &Hinted<'_>, marks: &Marks, id: usize) -> Result<bool, Memory>
    requires folds { hinted.now.rules.now.names ≡ NameCase.Fold }
    requires sound { AreMarks (IsSound (rules_of hinted.now.rules.now)) (length (rules_of hinted.now.rules.now))
        marks.now.sound.items }
    requires productive { AreProductive hinted.now.letters (rules_of hinted.now.rules.now) marks.now.productive.items }
    ensures { IfOk result (λ is. IsTrue is ↔ DerivesOnlyWith (has hinted.now.letters)
        (rules_of hinted.now.rules.now) (end_byte hinted.now.end) id) }
{
    if !is_marked(&marks.sound, id) || !is_marked(&marks.productive, id) {
        return Ok(false);
    }
    let left = rules_without(alloc, hinted.end.byte(), hinted.rules)?;
    let kept = productive_rules(alloc, &left, hinted.letters)?;
    Ok(!is_marked(&kept, id))
}

// Adds that a rule derives no line.
fn push_lineless(out: &mut Vec<u8>, end: LineEnd, name: &[u8]) -> Result<(), Memory>
    ensures { OnOk result (out.new.items ≡ out.old.items ++ lineless_reported end name.now) }
{
    out.extend_from_slice(b"rule '")?;
    push_cut(out, name)?;
    out.extend_from_slice(b"' derives no line\n  all that it derives holds ")?;
    out.extend_from_slice(reported_end(end))?;
    Ok(())
}

/// Adds what is reported of the judged rule, if there is one.
///
/// `Memory` if an allocation fails.
pub(crate) fn push_judged(
    alloc: Global,
    out: &mut Vec<u8>,
    hinted: &Hinted<'_>,
    marks: &Marks,
) -> Result<(), Memory>
    requires folds { hinted.now.rules.now.names ≡ NameCase.Fold }
    requires sound { AreMarks (IsSound (rules_of hinted.now.rules.now)) (length (rules_of hinted.now.rules.now))
        marks.now.sound.items }
    requires productive { AreProductive hinted.now.letters (rules_of hinted.now.rules.now) marks.now.productive.items }
    ensures { OnOk result ((last : List ℕ) × IsReportedOfJudged (has hinted.now.letters) (rules_of hinted.now.rules.now)
        hinted.now.end hinted.now.judged last × (out.new.items ≡ out.old.items ++ last)) }
{
    let Some(id) = hinted.judged else {
        return Ok(());
    };
    if id < hinted.rules.len() && is_lineless(alloc, hinted, marks, id)? {
        push_lineless(out, hinted.end, hinted.rules.name(id))?;
    }
    Ok(())
}
