//! The checks of a grammar in ABNF.
ghost use Rattle.std.specs.Prelude.{◌≡◌, ◌↔◌, ◌≤◌, ◌++◌, ℕ, Bool, List, length, map, IfOk, MatchOption, option_copied};
ghost use Rattle.ruletable.specs.Rules.{names_of};
ghost use Rattle.abnfread.specs.Element.{Rule};
ghost use Rattle.abnfread.specs.AbnfViews.{rules_of};
ghost use Rattle.ruletable.specs.Notes.{said_of};
ghost use Rattle.abnfcheck.specs.AbnfGrammar.{IsSoundGrammar};
ghost use Rattle.abnfcheck.specs.AbnfNotes.{judged_in, AreNotes, IsRefused, IsSoundUnlessRefused};
ghost use Rattle.abnfcheck.specs.AbnfUses.{rule_names};
ghost use Rattle.abnfcheck.specs.NameIds.{IsIdAt};
ghost use Rattle.abnfcheck.specs.WithCore.{with_core};

use crate::abnf_notes::{is_refused, note_marks, notes_on};
use crate::joined::{AllRules, join};
use crate::name_ids::name_ids;
use crate::prose::rules_with_prose;
use crate::sound_abnf::SoundAbnf;
use abnfread::{Abnf, Elem};
use ruletable::{Memory, NameCase, Note, RuleTable};
use std::alloc::Global;

/// The result of the checks of a grammar.
#[derive(Drop)]
pub struct Checked<S> {
    /// The notes on it, in order.
    pub notes: Vec<Note>,
    /// The grammar, ready to judge lines, unless a note rejects it.
    pub sound: Option<S>,
}

/// Checks a grammar in ABNF. Returns the notes on it, and, if none of them rejects it, the grammar ready to judge lines
/// by the rule with the name `rule`, or else by the first. Names compare without case (RFC 5234, section 2.1).
///
/// The notes are, in this order, and on rules by the order of the file:
///
/// - rules of the file that `=` defines again;
/// - rules of the file that `=/` extends before they are defined, if no core rule has the name;
/// - names that no rule has, each once, by first use, where `rule` is a use before all others;
/// - rules of the file with prose;
/// - rules of the file that nothing names and that are not judged.
///
/// Uses in core rules that the file leaves alone count.
///
/// A redefinition rejects the grammar, and so do prose and a name without a rule if they can be reached from the judged
/// rule. The other notes never do.
///
/// No text reads as a table without rules. Of such a table the first core rule is judged; if there is none either, the
/// grammar is rejected without a note.
///
/// # Errors
/// `Memory` if an allocation fails; the grammar is dropped then.
pub fn check_abnf(
    alloc: Global,
    abnf: Abnf,
    rule: Option<&str>,
) -> Result<Checked<SoundAbnf>, Memory>
    ensures notes { IfOk result (λ c. AreNotes (rules_of abnf.rules) (rules_of (with_core abnf.rules abnf.core.rules))
        abnf.redefined.items abnf.extended.items (option_copied rule.entry) (map said_of c.notes.items)) }
    ensures sound { IfOk result (λ c. IsSoundUnlessRefused (rules_of abnf.rules)
        (with_core abnf.rules abnf.core.rules) abnf.redefined.items (option_copied rule.entry) c.sound) }
{
    let JudgedAbnf { notes, all, judged } = judge_abnf(alloc, abnf, rule)?;
    match judged {
        Some(id) => Ok(Checked {
            notes,
            sound: Some(SoundAbnf::new(all.rules, id)),
        }),
        None => Ok(Checked { notes, sound: None }),
    }
}

/// The result of the checks of a grammar, whose rules stand also if a note rejects it.
#[derive(Drop)]
pub struct JudgedAbnf {
    /// The notes on it, in order.
    pub notes: Vec<Note>,
    /// Its rules and the core rules that it leaves alone.
    pub all: AllRules,
    /// The id of the judged rule, unless a note rejects the grammar.
    pub judged: Option<usize>,
}

/// Checks a grammar as `check_abnf` does, and returns its rules whether or not a note rejects it. The notes are those
/// of `check_abnf`.
///
/// # Errors
/// `Memory` if an allocation fails; the grammar is dropped then.
pub fn judge_abnf(alloc: Global, abnf: Abnf, rule: Option<&str>) -> Result<JudgedAbnf, Memory>
    ensures notes { IfOk result (λ c. AreNotes (rules_of abnf.rules) (rules_of (with_core abnf.rules abnf.core.rules))
        abnf.redefined.items abnf.extended.items (option_copied rule.entry) (map said_of c.notes.items)) }
    ensures rules { IfOk result (λ c. c.all.rules ≡ with_core abnf.rules abnf.core.rules) }
    ensures count { IfOk result (λ c. c.all.count ≡ length abnf.rules.rules) }
    ensures judged { IfOk result (λ c. MatchOption c.judged
        (IsRefused (rules_of abnf.rules) (rules_of c.all.rules) abnf.redefined.items
        (judged_in (option_copied rule.entry) (rules_of c.all.rules)))
        (λ id. (IsRefused (rules_of abnf.rules) (rules_of c.all.rules) abnf.redefined.items
        (judged_in (option_copied rule.entry) (rules_of c.all.rules)) → ⊥)
        × (id ≡ judged_in (option_copied rule.entry) (rules_of c.all.rules))
        × IsSoundGrammar (record { rules = c.all.rules; judged = id }))) }
{
    let count = abnf.rules.len();
    let rules = join(alloc, abnf.rules, abnf.core)?;
    let found = found_in(alloc, &rules, count, &abnf.redefined, &abnf.extended, rule)?;
    let notes = found.notes;
    let all = AllRules { rules, count };
    if found.refused {
        return Ok(JudgedAbnf {
            notes,
            all,
            judged: None,
        });
    }
    Ok(JudgedAbnf {
        notes,
        all,
        judged: Some(found.judged),
    })
}

/// The notes on a grammar with their consequences.
#[derive(Drop)]
struct Findings {
    /// The notes, in order.
    notes: Vec<Note>,
    /// Whether one of them rejects the grammar.
    refused: bool,
    /// The id of the judged rule, if there is such a rule.
    judged: usize,
}

// Finds what there is to say of a grammar, of whose rules the first `count` are those of the file.
fn found_in(
    alloc: Global,
    rules: &RuleTable<Elem>,
    count: usize,
    redefined: &[usize],
    extended: &[usize],
    rule: Option<&str>,
) -> Result<Findings, Memory>
    requires folds { rules.now.names ≡ NameCase.Fold }
    requires count { count ≤ length rules.now.rules }
    ensures notes { IfOk result (λ found. (file : List Rule) (more : List (List ℕ)) → length file ≡ count
        → names_of rules.now ≡ rule_names file ++ more →
        AreNotes file (rules_of rules.now) redefined.now extended.now (option_copied rule.entry)
        (map said_of found.notes.items)) }
    ensures refused { IfOk result (λ found. (file : List Rule) → length file ≡ count →
        (found.refused ≡ Bool.true) ↔ IsRefused file (rules_of rules.now) redefined.now
        (judged_in (option_copied rule.entry) (rules_of rules.now))) }
    ensures judged { IfOk result (λ found. IsIdAt (length (rules_of rules.now)) found.judged
        (judged_in (option_copied rule.entry) (rules_of rules.now))) }
{
    let ids = name_ids(alloc, rules, rule)?;
    let prose = rules_with_prose(alloc, rules)?;
    let marks = note_marks(alloc, count, redefined, extended, &ids, &prose)?;
    let notes = notes_on(alloc, rules, &ids.names, &marks)?;
    let refused = is_refused(alloc, &ids, &prose, &marks.redefined)?;
    Ok(Findings {
        notes,
        refused,
        judged: ids.judged,
    })
}
