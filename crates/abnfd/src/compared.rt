//! The comparison of two grammars' texts, and the report on it.
ghost use Rattle.std.specs.Prelude.{◌≡◌, ◌++◌, [], Bool, IfOk, Some, option_copied, slice_get};
ghost use Rattle.abnfd.specs.ComparedTexts.{AreCompared, IsComparison, IsReportOn, IsVerdictOn};

use crate::alike::unchanged_pairs;
use crate::answer::{comparison_status, comparison_text};
use crate::refusals::asked_refusals;
use crate::side::{Side, open_side};
use abnfcheck::SoundAbnf;
use rulelines::{Alone, Comparison, compare};
use ruletable::{Alphabet, Memory};
use std::alloc::Global;
use toolrun::Status;

/// How grammars are compared.
#[derive(Clone, Copy)]
pub(crate) struct CompareSettings<'a> {
    /// Whether all rules are compared, by name.
    pub(crate) all: bool,
    /// Whether it is explained why a rule rejects a line, unless all rules are compared.
    pub(crate) explain: bool,
    /// The compared rule of the old grammar; its first rule if there is no name.
    pub(crate) old_rule: Option<&'a str>,
    /// The compared rule of the new grammar; its first rule if there is no name.
    pub(crate) new_rule: Option<&'a str>,
    /// The alphabet of lines.
    pub(crate) letters: Alphabet,
    /// How many pairs of states a search goes over, and how many entries the states of a grammar have.
    pub(crate) budget: usize,
}

/// The answer to a comparison: what is written on the output, and the status.
#[derive(Drop)]
pub(crate) struct ComparisonAnswer {
    /// The text.
    pub(crate) text: Vec<u8>,
    /// The status.
    pub(crate) status: Status,
}

/// The report on a comparison.
#[derive(Drop)]
pub(crate) struct Report {
    /// The messages on both grammars.
    pub(crate) reported: Vec<u8>,
    /// The answer.
    pub(crate) answer: ComparisonAnswer,
}

/// Returns whether an old rule is paired with that new one.
pub(crate) fn is_partner(partners: &[Option<usize>], id: usize, other: usize) -> bool
    ensures { result ≡ Bool.true → slice_get partners.now id ≡ Some (Some other) }
{
    match partners.get(id) {
        Some(Some(partner)) => *partner == other,
        _ => false,
    }
}

// Returns what is found of two rules that are alike: they derive the same lines.
fn nothing_alone() -> Comparison
    ensures old { result.old_alone ≡ Alone.Never }
    ensures new { result.new_alone ≡ Alone.Never }
{
    Comparison {
        old_alone: Alone::Never,
        new_alone: Alone::Never,
    }
}

// Returns what is found of the judged rules of two grammars. There is no search if they are unchanged. `Memory` if an
// allocation fails.
fn found_between(
    alloc: Global,
    settings: &CompareSettings<'_>,
    old: &SoundAbnf,
    new: &SoundAbnf,
) -> Result<Comparison, Memory>
    ensures { IfOk result (IsComparison settings.now.letters old.now new.now) }
{
    let partners = unchanged_pairs(alloc, old.rules(), new.rules())?;
    if is_partner(&partners, old.judged(), new.judged()) {
        return Ok(nothing_alone());
    }
    compare(alloc, settings.letters, old, new, settings.budget)
}

// Compares two grammars, and explains the difference if that is asked. `Memory` if an allocation fails.
fn compared(
    alloc: Global,
    settings: &CompareSettings<'_>,
    old: &SoundAbnf,
    new: &SoundAbnf,
) -> Result<ComparisonAnswer, Memory>
    ensures { IfOk result (λ a. IsVerdictOn settings.now.explain settings.now.letters (Some old.now) (Some new.now)
        a.text.items a.status) }
{
    let found = found_between(alloc, settings, old, new)?;
    let mut text = comparison_text(alloc, settings.letters, &found)?;
    let why = asked_refusals(alloc, settings, old, new, &found)?;
    text.extend_from_slice(why.as_slice())?;
    Ok(ComparisonAnswer {
        text,
        status: comparison_status(&found),
    })
}

/// Answers where a grammar is rejected: nothing is written.
pub(crate) fn rejected(alloc: Global) -> ComparisonAnswer
    ensures text { result.text.items ≡ [] }
    ensures status { result.status ≡ Status.Refused }
{
    ComparisonAnswer {
        text: Vec::new(alloc),
        status: Status::Refused,
    }
}

// Answers for two grammars: they are compared, unless one is rejected. `Memory` if an allocation fails.
fn answer_to(
    alloc: Global,
    settings: &CompareSettings<'_>,
    old: &Side,
    new: &Side,
) -> Result<ComparisonAnswer, Memory>
    ensures { IfOk result (λ a. IsVerdictOn settings.now.explain settings.now.letters old.now.grammar new.now.grammar
        a.text.items a.status) }
{
    match &old.grammar {
        Some(before) => match &new.grammar {
            Some(after) => compared(alloc, settings, before, after),
            None => Ok(rejected(alloc)),
        },
        None => Ok(rejected(alloc)),
    }
}

/// Returns the messages on both grammars, the old one's first. `Memory` if an allocation fails.
pub(crate) fn both_reported(alloc: Global, old: &[u8], new: &[u8]) -> Result<Vec<u8>, Memory>
    ensures { IfOk result (λ reported. reported.items ≡ old.now ++ new.now) }
{
    let mut reported = Vec::new(alloc);
    reported.extend_from_slice(old)?;
    reported.extend_from_slice(new)?;
    Ok(reported)
}

// Reports on two grammars. `Memory` if an allocation fails.
fn report_on(
    alloc: Global,
    settings: &CompareSettings<'_>,
    old: &Side,
    new: &Side,
) -> Result<Report, Memory>
    ensures { IfOk result (λ r. (r.reported.items ≡ old.now.reported.items ++ new.now.reported.items)
        × IsVerdictOn settings.now.explain settings.now.letters old.now.grammar new.now.grammar r.answer.text.items
        r.answer.status) }
{
    let reported = both_reported(alloc, old.reported.as_slice(), new.reported.as_slice())?;
    let answer = answer_to(alloc, settings, old, new)?;
    Ok(Report { reported, answer })
}

// Compares an old grammar with the text of a new one. `Memory` if an allocation fails.
fn compare_with(
    alloc: Global,
    settings: &CompareSettings<'_>,
    old: &Side,
    new: &[u8],
) -> Result<Report, Memory>
    ensures { IfOk result (λ r. IsReportOn settings.now.explain settings.now.letters
        (option_copied settings.now.new_rule) old.now.reported.items old.now.grammar new.now r.reported.items
        r.answer.text.items r.answer.status) }
{
    let new = open_side(alloc, b"new: ", new, settings.new_rule)?;
    report_on(alloc, settings, old, &new)
}

/// Compares the texts of two grammars: reports the messages on both, and what is known of the lines that each rule
/// alone derives, unless a grammar is rejected. `Memory` if an allocation fails.
pub(crate) fn compare_texts(
    alloc: Global,
    settings: &CompareSettings<'_>,
    old: &[u8],
    new: &[u8],
) -> Result<Report, Memory>
    ensures { IfOk result (λ r. AreCompared settings.now.explain settings.now.letters
        (option_copied settings.now.old_rule) (option_copied settings.now.new_rule) old.now new.now r.reported.items
        r.answer.text.items r.answer.status) }
{
    let old = open_side(alloc, b"old: ", old, settings.old_rule)?;
    compare_with(alloc, settings, &old, new)
}
