//! Hints on a grammar in ABNF, as settings ask for them.
ghost use Rattle.std.specs.Prelude.{◌≡◌, ◌<◌, ℕ, List, length, IfOk, option_copied};
ghost use Rattle.abnfcheck.specs.AbnfNotes.{judged_in};
ghost use Rattle.abnfread.specs.AbnfViews.{rules_of};
ghost use Rattle.abnfrun.specs.AbnfExplainedNotes.{AreNotePositions};
ghost use Rattle.abnfrun.specs.AbnfTextHints.{AreTextHints, end_for, hinted_rule, id_of_rule};

use crate::abnf_positions::AbnfPositions;
use crate::options::AbnfSettings;
use abnfhints::{Hinted, LineEnd, abnf_hints};
use abnfread::Elem;
use ruletable::{Memory, NameCase, RuleTable};
use std::alloc::Global;

// Returns the id of the judged rule, if there is one. `Memory` if an allocation fails.
fn judged_rule(rules: &RuleTable<Elem>, start: Option<&str>) -> Result<Option<usize>, Memory>
    requires { rules.now.names ≡ NameCase.Fold }
    ensures { IfOk result (λ id. 0 < length (rules_of rules.now)
        → id ≡ id_of_rule (rules_of rules.now) (judged_in (option_copied start.entry) (rules_of rules.now))) }
{
    match start {
        Some(name) => rules.find(name.as_bytes()),
        None => Ok(Some(0)),
    }
}

// Returns the id of the rule that is reported if it derives no line, if there is one. `Memory` if an allocation fails.
fn hinted_id(rules: &RuleTable<Elem>, settings: &AbnfSettings<'_>) -> Result<Option<usize>, Memory>
    requires { rules.now.names ≡ NameCase.Fold }
    ensures { IfOk result (λ id. 0 < length (rules_of rules.now) → id ≡ hinted_rule settings.now.options.keeps
        (id_of_rule (rules_of rules.now) (judged_in (option_copied settings.now.start) (rules_of rules.now)))) }
{
    if settings.options.keeps {
        return Ok(None);
    }
    judged_rule(rules, settings.start)
}

// Returns the end of a line.
fn line_end(nul: bool) -> LineEnd
    ensures { result ≡ end_for nul }
{
    if nul { LineEnd::Nul } else { LineEnd::Lf }
}

/// Returns the hints on the grammar of a text by its positions, as settings ask for them. `Memory` if an allocation
/// fails.
pub(crate) fn hints_of(
    alloc: Global,
    positions: &AbnfPositions,
    settings: &AbnfSettings<'_>,
) -> Result<Vec<u8>, Memory>
    ensures { IfOk result (λ reported. (text : List ℕ) → AreNotePositions text
        (option_copied settings.now.start) positions.now
        → AreTextHints text settings.now reported.items) }
{
    let judged = hinted_id(&positions.all.rules, settings)?;
    let hinted = Hinted {
        positions: &positions.positions,
        rules: &positions.all.rules,
        count: positions.all.count,
        judged,
        letters: settings.options.letters,
        end: line_end(settings.options.nul),
    };
    abnf_hints(alloc, &hinted)
}
