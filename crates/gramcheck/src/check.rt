//! The checks of a grammar.
ghost use Rattle.std.specs.Prelude.{◌≡◌, ◌<◌, ◌≢◌, None, Option, ℕ, true, false, length, map, IfOk, IfSome};
ghost use Rattle.std.specs.Prelude.{MatchOption, option_copied};
ghost use Rattle.ruletable.specs.Notes.{said_of};
ghost use Rattle.ruletable.specs.Rules.{find_in};
ghost use Rattle.pegread.specs.PegViews.{rules_of};
ghost use Rattle.gramcheck.specs.Checked.{is_refused, IsStart};
ghost use Rattle.gramcheck.specs.Defined.{IsGiven};
ghost use Rattle.gramcheck.specs.Grammar.{IsNumbered, IsRankedFor, IsSoundGrammar};
ghost use Rattle.pegnodes.specs.NodeCounts.{node_counts};
ghost use Rattle.pegnodes.specs.NodeLists.{AreNumbered};
ghost use Rattle.pegnodes.specs.Nodes.{shapes_of};
ghost use Rattle.gramcheck.specs.GrammarNotes.{AreNotes, names_at};
ghost use Rattle.gramcheck.specs.Sound.{IsRanked};

use crate::analysis::analysed;
use crate::notes::{notes, refused};
use crate::ranked::RankedNodes;
use crate::sound::SoundPeg;
use pegnodes::{Cut, cut_grammar};
use pegread::{Expr, Peg};
use ruletable::{Memory, NameCase, Note, RuleTable};
use std::alloc::Global;

/// The result of the checks of a grammar.
#[derive(Drop)]
pub struct Checked<S> {
    /// The notes on it, in order.
    pub notes: Vec<Note>,
    /// The grammar, unless a note rejects it.
    pub sound: Option<S>,
}

/// Checks a grammar. Returns the notes on it, and, if none of them rejects it, the grammar ready to run from its start
/// rule: the rule with the name `start`, or else the first.
///
/// The notes are, each kind by the order of the rules:
///
/// - rules that are defined again;
/// - names that no rule has, by first use, where `start` is a use before all others;
/// - rules that are not used;
/// - left-recursive rules, which may call themselves without taking a byte (Ford 2004, section 3.6);
/// - rules that repeat what may take nothing.
///
/// All but "not used" reject the grammar.
///
/// The grammar has one node for each occurrence of an expression in the rules' bodies, and one more for each `+`.
///
/// # Errors
/// `Memory` if an allocation fails; the grammar is dropped then.
pub fn check_peg(alloc: Global, peg: Peg, start: Option<&str>) -> Result<Checked<SoundPeg>, Memory>
    ensures notes { IfOk result (λ c. AreNotes (rules_of peg.rules) (names_at (rules_of peg.rules) peg.redefined.items)
        (option_copied start.entry) (map said_of c.notes.items)) }
    ensures sound { IfOk result (λ c. MatchOption c.sound (is_refused (map said_of c.notes.items) ≡ true)
        (λ g. (is_refused (map said_of c.notes.items) ≡ false) × (g.rules ≡ peg.rules)
        × IsStart (option_copied start.entry) (rules_of peg.rules) g.start)) }
    ensures ranked { IfOk result (λ c. IfSome c.sound IsSoundGrammar) }
    ensures numbered { IfOk result (λ c. IfSome c.sound IsNumbered) }
    ensures nodes { IfOk result (λ c. IfSome c.sound (λ g. length g.nodes ≡ node_counts (rules_of peg.rules))) }
{
    let Checked { notes, sound } = judge_peg(alloc, &peg, start)?;
    match sound {
        Some(ranked) => {
            let sound = ranked.ready(alloc, peg.rules)?;
            Ok(Checked {
                notes,
                sound: Some(sound),
            })
        }
        None => Ok(Checked { notes, sound: None }),
    }
}

/// Checks a grammar as `check_peg` does, and makes no table that only a run needs: where no note rejects the grammar,
/// `RankedNodes::ready` makes them. The notes are those of `check_peg`.
///
/// # Errors
/// `Memory` if an allocation fails.
pub fn judge_peg(
    alloc: Global,
    peg: &Peg,
    start: Option<&str>,
) -> Result<Checked<RankedNodes>, Memory>
    ensures notes { IfOk result (λ c. AreNotes (rules_of peg.now.rules)
        (names_at (rules_of peg.now.rules) peg.now.redefined.items) (option_copied start.entry)
        (map said_of c.notes.items)) }
    ensures sound { IfOk result (λ c. MatchOption c.sound (is_refused (map said_of c.notes.items) ≡ true)
        (λ r. (is_refused (map said_of c.notes.items) ≡ false) × IsRankedFor (rules_of peg.now.rules) r
        × IsStart (option_copied start.entry) (rules_of peg.now.rules) r.start)) }
{
    let judged = judge(alloc, &peg.rules, &peg.redefined, start)?;
    if refused(&judged.notes) {
        return Ok(Checked {
            notes: judged.notes,
            sound: None,
        });
    }
    let first = start_id(&peg.rules, start)?;
    let ranked = RankedNodes::new(first, judged.cut, judged.ranks);
    Ok(Checked {
        notes: judged.notes,
        sound: Some(ranked),
    })
}

/// The analysis of a grammar.
#[derive(Drop)]
struct Judged {
    /// The notes, in order.
    notes: Vec<Note>,
    /// The rules' bodies, cut into numbered nodes.
    cut: Cut,
    /// Of each node its rank.
    ranks: Vec<usize>,
}

// Cuts a grammar into nodes, and finds the notes on it. If none rejects it, the ranks make it sound.
fn judge(
    alloc: Global,
    rules: &RuleTable<Expr>,
    redefined: &[usize],
    start: Option<&str>,
) -> Result<Judged, Memory>
    requires { rules.now.names ≡ NameCase.Exact }
    ensures notes { IfOk result (λ j. AreNotes (rules_of rules.now) (names_at (rules_of rules.now) redefined.now)
        (option_copied start.entry) (map said_of j.notes.items)) }
    ensures ranked { IfOk result (λ j. is_refused (map said_of j.notes.items) ≡ false → (first : ℕ)
        → first < length (rules_of rules.now) →
        IsRanked (rules_of rules.now) first (shapes_of j.cut.nodes.items) j.cut.bodies.items j.ranks.items) }
    ensures numbered { IfOk result (λ j. AreNumbered (rules_of rules.now) (shapes_of j.cut.nodes.items)
        j.cut.bodies.items) }
    ensures given { IfOk result (λ j. is_refused (map said_of j.notes.items) ≡ false
        → IsGiven (option_copied start.entry) rules.now) }
{
    let cut = cut_grammar(alloc, rules)?;
    let found = analysed(alloc, &cut.nodes, &cut.bodies)?;
    let notes = notes(
        alloc,
        rules,
        redefined,
        start,
        &found.recursive,
        &found.looping,
    )?;
    Ok(Judged {
        notes,
        cut,
        ranks: found.ranks,
    })
}

// The id of the start rule of a grammar that has it.
fn start_id(rules: &RuleTable<Expr>, start: Option<&str>) -> Result<usize, Memory>
    requires exact { rules.now.names ≡ NameCase.Exact }
    requires some { 0 < length rules.now.rules }
    requires given { IsGiven (option_copied start) rules.now }
    ensures { IfOk result (λ id. IsStart (option_copied start.entry) (rules_of rules.now) id) }
{
    let Some(name) = start else {
        return Ok(0);
    };
    match rules.find(name.as_bytes())? {
        Some(id) => Ok(id),
        None => unreachable!(),
    }
}
