//! The comparison of all rules that two texts define, by name.
ghost use Rattle.std.specs.Prelude.{◌≡◌, ◌↔◌, ℕ, ◌<◌, Bool, List, [], ◌∷◌, ◌++◌, IfOk, OnOk};
ghost use Rattle.std.specs.Prelude.{Contains, None, option_copied, slice_index_or};
ghost use Rattle.abnfcheck.specs.AbnfGrammar.{IsSoundGrammar};
ghost use Rattle.abnfd.specs.ComparedSides.{IsReadText};
ghost use Rattle.abnfd.specs.ComparedTexts.{AreLinesKnown};
ghost use Rattle.abnfd.specs.ComparisonText.{verdict_between, verdict_status};
ghost use Rattle.abnfd.specs.RulesByName.{AreAccepted, AreBothChecked, AreChecked, AreComparedByName, EndsAs};
ghost use Rattle.abnfd.specs.RulesByName.{HasChecked, HasRows, IsAnswerByName, IsAskedReport, IsTextRules};
ghost use Rattle.abnfd.specs.RulesByName.{is_named as has_name, missing_in, named_in, names_text, row_text};
ghost use Rattle.abnfd.specs.RulesByName.{status_word};
ghost use Rattle.abnfread.specs.AbnfViews.{rules_of};
ghost use Rattle.abnfread.specs.Element.{id_of};
ghost use Rattle.rulelines.specs.declared.comparison.Comparison.{Comparison};
ghost use Rattle.ruletable.specs.Faults.{fault_text};
ghost use Rattle.ruletable.specs.Rules.{names_of};

use crate::alike::unchanged_pairs;
use crate::answer::comparison_status;
use crate::compared::{
    CompareSettings, ComparisonAnswer, Report, both_reported, compare_texts, is_partner, rejected,
};
use crate::files::Texts;
use crate::side::{faulty_text, side_notes};
use abnfcheck::{JudgedAbnf, SoundAbnf, copied_rules, judge_abnf, sound_rules};
use abnfread::{Abnf, Elem, read_abnf};
use cli::greater_status;
use fixpoint::names_of_rules;
use rulelines::compare;
use ruletable::{Memory, NameCase, ReadFault, RuleTable};
use std::alloc::Global;
use toolrun::Status;

/// The rules of a text that has no fault.
#[derive(Drop)]
pub(crate) struct CheckedRules {
    /// The names that the text defines.
    pub(crate) names: RuleTable<()>,
    /// The rules of the text, and then the core rules that it leaves alone.
    pub(crate) rules: RuleTable<Elem>,
    /// Marks on the rules by which lines can be judged.
    pub(crate) sound: Vec<bool>,
}

/// The rules of two texts.
#[derive(Drop)]
pub(crate) struct BothRules {
    /// The old rules.
    pub(crate) old: CheckedRules,
    /// The new rules.
    pub(crate) new: CheckedRules,
    /// Of each old rule the id of the new one that is the same text, if there is one.
    pub(crate) partners: Vec<Option<usize>>,
}

/// A text, and the messages on it.
#[derive(Drop)]
struct TextRules {
    /// The messages, each after the name of the side.
    reported: Vec<u8>,
    /// The rules, unless the text has a fault.
    checked: Option<CheckedRules>,
}

// Returns whether one of the first `count` rules is defined again.
fn redefines(again: &[usize], count: usize) -> bool
    ensures { (result ≡ Bool.true) ↔ ((id : ℕ) × (id < count) × Contains again.now id) }
{
    for id in again {
        if *id < count {
            return true;
        }
    }
    false
}

// Marks the rules by which lines can be judged: none if a rule is defined again. `Memory` if an allocation fails.
fn accepted_rules(
    alloc: Global,
    rules: &RuleTable<Elem>,
    redefines: bool,
) -> Result<Vec<bool>, Memory>
    requires { rules.now.names ≡ NameCase.Fold }
    ensures { IfOk result (λ sound. AreAccepted (rules_of rules.now) redefines sound.items) }
{
    if redefines {
        return Ok(Vec::new(alloc));
    }
    sound_rules(alloc, rules)
}

// Checks a grammar that was read. `Memory` if an allocation fails.
fn checked_rules(alloc: Global, side: &[u8], abnf: Abnf) -> Result<TextRules, Memory>
    ensures { IfOk result (λ t. (text : List ℕ) → IsReadText text abnf → IsTextRules side.now text t) }
{
    let names = names_of_rules(alloc, &abnf.rules, NameCase::Fold)?;
    let again = redefines(abnf.redefined.as_slice(), abnf.rules.len());
    let JudgedAbnf {
        notes,
        all,
        judged: _,
    } = judge_abnf(alloc, abnf, None)?;
    let reported = side_notes(alloc, side, notes.as_slice())?;
    let sound = accepted_rules(alloc, &all.rules, again)?;
    Ok(TextRules {
        reported,
        checked: Some(CheckedRules {
            names,
            rules: all.rules,
            sound,
        }),
    })
}

// Returns what a text that has a fault comes to: the message alone. `Memory` if an allocation fails.
fn faulty_rules(alloc: Global, side: &[u8], fault: &ReadFault) -> Result<TextRules, Memory>
    ensures { IfOk result (λ t. (t.reported.items ≡ side.now ++ fault_text fault.now) × (t.checked ≡ None)) }
{
    let reported = faulty_text(alloc, side, fault)?;
    Ok(TextRules {
        reported,
        checked: None,
    })
}

// Reads and checks a text. `side` names it, and stands before each message. `Memory` if an allocation fails.
fn open_text(alloc: Global, side: &[u8], text: &[u8]) -> Result<TextRules, Memory>
    ensures { IfOk result (IsTextRules side.now text.now) }
{
    match read_abnf(alloc, text) {
        Ok(abnf) => checked_rules(alloc, side, abnf),
        Err(fault) => match fault {
            ReadFault::Memory => Err(Memory),
            _ => faulty_rules(alloc, side, &fault),
        },
    }
}

// Returns the id of the rule of that name, or the number of rules.
fn rule_id(rules: &RuleTable<Elem>, name: &[u8]) -> Result<usize, Memory>
    requires { rules.now.names ≡ NameCase.Fold }
    ensures { IfOk result (λ id. id ≡ id_of (rules_of rules.now) name.now) }
{
    let found = rules.find(name)?;
    Ok(found.unwrap_or(rules.len()))
}

// Returns whether an id is marked.
fn is_marked(marks: &[bool], id: usize) -> bool
    ensures { result ≡ slice_index_or marks.now id Bool.false }
{
    match marks.get(id) {
        Some(mark) => *mark,
        None => false,
    }
}

// Returns the status of the comparison of two rules by a search. `Memory` if an allocation fails.
fn searched_status(
    alloc: Global,
    settings: &CompareSettings<'_>,
    both: &BothRules,
    id: usize,
    new_id: usize,
) -> Result<Status, Memory>
    requires old { IsSoundGrammar (record { rules = both.now.old.rules; judged = id }) }
    requires new { IsSoundGrammar (record { rules = both.now.new.rules; judged = new_id }) }
    ensures { IfOk result (λ status. (found : Comparison)
        × AreLinesKnown settings.now.letters (rules_of both.now.old.rules)
        id (rules_of both.now.new.rules) new_id found
        × (status ≡ verdict_status (verdict_between found.old_alone found.new_alone))) }
{
    let old = SoundAbnf::new(copied_rules(alloc, &both.old.rules)?, id);
    let new = SoundAbnf::new(copied_rules(alloc, &both.new.rules)?, new_id);
    let found = compare(alloc, settings.letters, &old, &new, settings.budget)?;
    Ok(comparison_status(&found))
}

// Returns the status of the comparison of the rules with that name. `Memory` if an allocation fails.
fn status_of(
    alloc: Global,
    settings: &CompareSettings<'_>,
    both: &BothRules,
    name: &[u8],
) -> Result<Status, Memory>
    requires { (old new : List ℕ) × AreBothChecked old new both.now }
    ensures { IfOk result (λ status. (old new : List ℕ) → AreBothChecked old new both.now
        → EndsAs settings.now.letters old new name.now status) }
{
    let id = rule_id(&both.old.rules, name)?;
    let old_passes = is_marked(both.old.sound.as_slice(), id);
    if !old_passes {
        return Ok(Status::Refused);
    }
    let new_id = rule_id(&both.new.rules, name)?;
    let new_passes = is_marked(both.new.sound.as_slice(), new_id);
    if !new_passes {
        return Ok(Status::Refused);
    }
    let is_unchanged = is_partner(both.partners.as_slice(), id, new_id);
    if is_unchanged {
        return Ok(Status::Done);
    }
    searched_status(alloc, settings, both, id, new_id)
}

// Adds the word for a status.
fn push_word(status: Status, out: &mut Vec<u8>) -> Result<(), Memory>
    ensures { OnOk result (out.new.items ≡ out.old.items ++ status_word status) }
{
    match status {
        Status::Done => out.extend_from_slice(b"same")?,
        Status::NoMatch => out.extend_from_slice(b"differ")?,
        Status::Overlong => out.extend_from_slice(b"not known")?,
        _ => out.extend_from_slice(b"rejected")?,
    }
    Ok(())
}

// Compares the rules with that name, adds their line, and returns its status. `Memory` if an allocation fails.
fn push_row(
    alloc: Global,
    settings: &CompareSettings<'_>,
    both: &BothRules,
    name: &[u8],
    out: &mut Vec<u8>,
) -> Result<Status, Memory>
    requires { (old new : List ℕ) × AreBothChecked old new both.now }
    ensures { IfOk result (λ status. ((old new : List ℕ) → AreBothChecked old new both.now
        → EndsAs settings.now.letters old new name.now status)
        × (out.new.items ≡ out.old.items ++ row_text name.now status)) }
{
    let status = status_of(alloc, settings, both, name)?;
    out.extend_from_slice(name)?;
    out.extend_from_slice(b": ")?;
    push_word(status, out)?;
    out.extend_from_slice(b"\n")?;
    Ok(status)
}

// Returns whether a name is one of a table's. `Memory` if an allocation fails.
fn is_named(names: &RuleTable<()>, name: &[u8]) -> Result<bool, Memory>
    requires { names.now.names ≡ NameCase.Fold }
    ensures { IfOk result (λ named. named ≡ has_name (names_of names.now) name.now) }
{
    let id = names.find(name)?;
    Ok(id.is_some())
}

// Compares the rules with that name if the new text defines it: adds their line, and returns its status, else `Done`.
// `Memory` if an allocation fails.
fn push_if_shared(
    alloc: Global,
    settings: &CompareSettings<'_>,
    both: &BothRules,
    name: &[u8],
    out: &mut Vec<u8>,
) -> Result<Status, Memory>
    requires { (old new : List ℕ) × AreBothChecked old new both.now }
    ensures { IfOk result (λ status. (line : List ℕ) × ((old new : List ℕ) → AreBothChecked old new both.now
        → HasRows settings.now.letters old new (named_in (names_of both.now.new.names) (name.now ∷ [])) line status)
        × (out.new.items ≡ out.old.items ++ line)) }
{
    let is_shared = is_named(&both.new.names, name)?;
    if !is_shared {
        return Ok(Status::Done);
    }
    push_row(alloc, settings, both, name, out)
}

// Returns a line for each rule that both texts define, in the order of the old one, and the greatest status of a line.
// `Memory` if an allocation fails.
fn shared_rows(
    alloc: Global,
    settings: &CompareSettings<'_>,
    both: &BothRules,
) -> Result<ComparisonAnswer, Memory>
    requires { (old new : List ℕ) × AreBothChecked old new both.now }
    ensures { IfOk result (λ a. (old new : List ℕ) → AreBothChecked old new both.now
        → HasRows settings.now.letters old new
        (named_in (names_of both.now.new.names) (names_of both.now.old.names)) a.text.items a.status) }
{
    let mut text = Vec::new(alloc);
    let mut most = Status::Done;
    for id in 0..both.old.names.len() {
        let status = push_if_shared(alloc, settings, both, both.old.names.name(id), &mut text)?;
        most = greater_status(most, status);
    }
    Ok(ComparisonAnswer { text, status: most })
}

// Adds a line of a name after the mark, unless the table has it. `Memory` if an allocation fails.
fn push_if_missing(
    mark: &[u8],
    names: &RuleTable<()>,
    name: &[u8],
    out: &mut Vec<u8>,
) -> Result<(), Memory>
    requires { names.now.names ≡ NameCase.Fold }
    ensures { OnOk result (out.new.items ≡ out.old.items
        ++ names_text mark.now (missing_in (names_of names.now) (name.now ∷ []))) }
{
    let is_there = is_named(names, name)?;
    if is_there {
        return Ok(());
    }
    out.extend_from_slice(mark)?;
    out.extend_from_slice(name)?;
    out.extend_from_slice(b"\n")?;
    Ok(())
}

// Adds a line for each name that the first of two tables alone has, after the mark. `Memory` if an allocation fails.
fn push_missing(
    mark: &[u8],
    names: &RuleTable<()>,
    others: &RuleTable<()>,
    out: &mut Vec<u8>,
) -> Result<(), Memory>
    requires { others.now.names ≡ NameCase.Fold }
    ensures { OnOk result (out.new.items ≡ out.old.items
        ++ names_text mark.now (missing_in (names_of others.now) (names_of names.now))) }
{
    for id in 0..names.len() {
        push_if_missing(mark, others, names.name(id), out)?;
    }
    Ok(())
}

// Answers for the rules of two texts: compares those that both have, and lists the other names. `Memory` if an
// allocation fails.
fn answer_to_rules(
    alloc: Global,
    settings: &CompareSettings<'_>,
    both: &BothRules,
) -> Result<ComparisonAnswer, Memory>
    requires { (old new : List ℕ) × AreBothChecked old new both.now }
    ensures { IfOk result (λ a. (old new : List ℕ) → AreBothChecked old new both.now
        → IsAnswerByName settings.now.letters old new a.text.items a.status) }
{
    let ComparisonAnswer { text, status } = shared_rows(alloc, settings, both)?;
    let mut text = text;
    push_missing(b"< ", &both.old.names, &both.new.names, &mut text)?;
    push_missing(b"> ", &both.new.names, &both.old.names, &mut text)?;
    Ok(ComparisonAnswer { text, status })
}

// Pairs the unchanged rules of two texts, and answers for all rules. `Memory` if an allocation fails.
fn answer_to_both(
    alloc: Global,
    settings: &CompareSettings<'_>,
    old: CheckedRules,
    new: CheckedRules,
) -> Result<ComparisonAnswer, Memory>
    requires { (old_text new_text : List ℕ) × AreChecked old_text old × AreChecked new_text new }
    ensures { IfOk result (λ a. (old_text new_text : List ℕ) → AreChecked old_text old → AreChecked new_text new
        → IsAnswerByName settings.now.letters old_text new_text a.text.items a.status) }
{
    let partners = unchanged_pairs(alloc, &old.rules, &new.rules)?;
    let both = BothRules { old, new, partners };
    answer_to_rules(alloc, settings, &both)
}

// Answers for the rules of an old text and of a new one, unless that has a fault. `Memory` if an allocation fails.
fn answer_with(
    alloc: Global,
    settings: &CompareSettings<'_>,
    old: CheckedRules,
    new: Option<CheckedRules>,
) -> Result<ComparisonAnswer, Memory>
    requires { (old_text new_text : List ℕ) × AreChecked old_text old × HasChecked new_text new }
    ensures { IfOk result (λ a. (old_text new_text : List ℕ) → AreChecked old_text old → HasChecked new_text new
        → IsAnswerByName settings.now.letters old_text new_text a.text.items a.status) }
{
    match new {
        Some(new) => answer_to_both(alloc, settings, old, new),
        None => Ok(rejected(alloc)),
    }
}

// Answers for the rules of two texts, unless one has a fault. `Memory` if an allocation fails.
fn answer_by_name(
    alloc: Global,
    settings: &CompareSettings<'_>,
    old: Option<CheckedRules>,
    new: Option<CheckedRules>,
) -> Result<ComparisonAnswer, Memory>
    requires { (old_text new_text : List ℕ) × HasChecked old_text old × HasChecked new_text new }
    ensures { IfOk result (λ a. (old_text new_text : List ℕ) → HasChecked old_text old → HasChecked new_text new
        → IsAnswerByName settings.now.letters old_text new_text a.text.items a.status) }
{
    match old {
        Some(old) => answer_with(alloc, settings, old, new),
        None => Ok(rejected(alloc)),
    }
}

// Compares the rules of two texts by name: reports the messages on both, and how each comparison ends. `Memory` if an
// allocation fails.
fn compare_by_name(
    alloc: Global,
    settings: &CompareSettings<'_>,
    texts: &Texts,
) -> Result<Report, Memory>
    ensures { IfOk result (λ r. AreComparedByName settings.now.letters texts.now.old.items texts.now.new.items
        r.reported.items r.answer.text.items r.answer.status) }
{
    let old = open_text(alloc, b"old: ", texts.old.as_slice())?;
    let new = open_text(alloc, b"new: ", texts.new.as_slice())?;
    let reported = both_reported(alloc, old.reported.as_slice(), new.reported.as_slice())?;
    let answer = answer_by_name(alloc, settings, old.checked, new.checked)?;
    Ok(Report { reported, answer })
}

/// Compares two texts as the settings ask for: all rules by name, or one of each. `Memory` if an allocation fails.
pub(crate) fn compare_asked(
    alloc: Global,
    settings: &CompareSettings<'_>,
    texts: &Texts,
) -> Result<Report, Memory>
    ensures { IfOk result (λ r. IsAskedReport settings.now.explain settings.now.letters
        (option_copied settings.now.old_rule) (option_copied settings.now.new_rule) texts.now.old.items
        texts.now.new.items settings.now.all r.reported.items r.answer.text.items r.answer.status) }
{
    if settings.all {
        compare_by_name(alloc, settings, texts)
    } else {
        compare_texts(alloc, settings, texts.old.as_slice(), texts.new.as_slice())
    }
}
