//! The grammar of several texts.
ghost use Rattle.std.specs.Prelude.{◌≡◌, ◌||◌, length, map, nat_lt, IfOk};
ghost use Rattle.std.specs.List.{list_any};
ghost use Rattle.abnftexts.specs.GivenRules.{text_rule};
ghost use Rattle.abnftexts.specs.JoinedGrammar.{AreTextsJoined, has_lines};
ghost use Rattle.abnftexts.specs.JoinedViews.{IsGatheredJoined, IsStandingJoined, grammar_joined};
ghost use Rattle.abnftexts.specs.RulesGathered.{lines_placed, named_text, reported_rule, rules_gathered};

use crate::gathered::{Gathered, RulePosition, RuleReport, SourceText};
use crate::join::{Clash, GivenRule, find_clashes, find_fates, find_order};
use crate::listed::listed_text;
use crate::printed::{printed_text, push_clashes, push_none};
use crate::renamed::name_rules;
use crate::shown::shown_texts;
use crate::stands::kept_standing;
use crate::taken::take_texts;
use crate::undefined::push_undefined;
use crate::uses::uses_in;
use rfcforms::ListForm;
use ruletable::Memory;
use std::alloc::Global;

/// The form in which a joined grammar is written.
#[derive(Clone, Copy)]
pub enum JoinForm {
    /// Its rules as their texts have them.
    Plain,
    /// Its canonical text.
    Canonical,
    /// A line for each rule that the texts give, with what becomes of it.
    Listed,
}

/// The grammar that several texts make up.
#[derive(Drop)]
pub struct JoinedTexts {
    /// The rules that stand, as their texts have them, in the order in which they are printed.
    pub grammar: Vec<u8>,
    /// The reports of rules that are no ABNF, which stand first on the error output.
    pub reports: Vec<RuleReport>,
    /// The other reports on the error output.
    pub reported: Vec<u8>,
    /// A line for each rule that the texts give, with what becomes of it.
    pub listed: Vec<u8>,
    /// Whether a rule is no ABNF, or a name has two definitions.
    pub is_faulty: bool,
}

fn is_fault(report: &RuleReport) -> bool
    ensures { result ≡ has_lines (reported_rule report.now) }
{
    report.lines.is_some()
}

fn has_fault(reports: &[RuleReport]) -> bool
    ensures { result ≡ list_any (λ report. has_lines (reported_rule report)) reports.now }
{
    reports.iter().any(|report| is_fault(report))
}

fn either(has_fault: bool, has_clash: bool) -> bool
    ensures { result ≡ (has_fault || has_clash) }
{
    has_fault || has_clash
}

// Whether a rule is no ABNF, or a name has two definitions.
fn are_faulty(reports: &[RuleReport], clashes: &[Clash]) -> bool
    ensures { result ≡ (list_any has_lines (map reported_rule reports.now) || nat_lt 0 (length clashes.now)) }
{
    either(has_fault(reports), clashes.len() > 0)
}

// Joins rules that stand, where these are their lines.
fn join_standing(
    alloc: Global,
    positions: &[RulePosition<'_>],
    rules: &[GivenRule],
    reports: Vec<RuleReport>,
    listed: Vec<u8>,
) -> Result<JoinedTexts, Memory>
    ensures { IfOk result (λ joined. IsStandingJoined (map lines_placed positions.now) (map text_rule rules.now)
        (map reported_rule reports.items) listed.items (grammar_joined joined)) }
{
    let mut reported = Vec::new(alloc);
    let order = find_order(alloc, rules)?;
    let grammar = printed_text(alloc, positions, &order)?;
    let clashes = find_clashes(alloc, rules)?;
    push_clashes(&mut reported, positions, rules, &clashes)?;
    let uses = uses_in(alloc, positions, &order)?;
    push_undefined(alloc, &mut reported, rules, &uses)?;
    push_none(&mut reported, rules)?;
    let is_faulty = are_faulty(&reports, &clashes);
    Ok(JoinedTexts {
        grammar,
        reports,
        reported,
        listed,
        is_faulty,
    })
}

// Joins the rules that stand of what texts give.
fn join_gathered(alloc: Global, gathered: Gathered<'_>) -> Result<JoinedTexts, Memory>
    ensures { IfOk result (λ joined. IsGatheredJoined (rules_gathered gathered.entry) (grammar_joined joined)) }
{
    let Gathered {
        positions,
        rules,
        reported,
        list,
    } = gathered;
    let fates = find_fates(alloc, &rules)?;
    let listed = listed_text(alloc, &positions, &rules, &fates, &list)?;
    let standing_positions = kept_standing(alloc, &fates, positions)?;
    let standing_rules = kept_standing(alloc, &fates, rules)?;
    join_standing(
        alloc,
        &standing_positions,
        &standing_rules,
        reported,
        listed,
    )
}

/// Returns the grammar that texts make up, one after another, and the reports on them.
///
/// The rules are those that `find_rules` finds, each read alone. A byte order mark in front of a text is skipped. Of an
/// XML text the contents of `<sourcecode>` and `<artwork>` are read, as `source_text` says. Lists are written out
/// first, as `expanded_text` says, if a form is asked for. A name in angle brackets is written without these, if it is
/// that of a core rule or of a rule of some text, and not of the rule in which it stands. Comments before the rule then
/// have the lines as they were: `; from: LINE`. A rule that is the same as one before it is left out, and so is one of
/// prose alone where a definition of that name has elements. What adds to a name follows its definition. The rules are
/// printed as their texts have them, without the margin. Where only blank lines stand between a rule and the one
/// printed before it, as many empty lines stand there. A comment names the position of each other rule: `; NAME:LINE`.
///
/// The reports name each line that begins a rule and is no ABNF. Where no form of lists is asked for, they say which of
/// these rules read with their lists. They name two different definitions of a name, which both stand. They name the
/// first use of each name that neither a rule nor a core rule (RFC 5234, appendix B.1) has. They say if there is no
/// rule.
///
/// # Errors
/// `Memory` if an allocation fails.
pub fn join_texts(
    alloc: Global,
    texts: &[SourceText<'_>],
    lists: Option<ListForm>,
) -> Result<JoinedTexts, Memory>
    ensures { IfOk result (λ joined. AreTextsJoined lists (map named_text texts.now) (grammar_joined joined)) }
{
    let shown = shown_texts(alloc, texts, lists)?;
    let given = take_texts(alloc, &shown)?;
    let gathered = name_rules(alloc, given)?;
    join_gathered(alloc, gathered)
}
