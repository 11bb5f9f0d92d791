//! Symbols that can follow the longest viable prefix of a line.
ghost use Rattle.std.specs.Prelude.{◌≡◌, ◌↔◌, ◌+◌, ◌≤◌, ℕ, Bool, List, length, map, take, IfOk, IfSome, IsTrue};
ghost use Rattle.abnfread.specs.Element.{Rule};
ghost use Rattle.abnfcheck.specs.Prefixes.{IsFurthest};
ghost use Rattle.earleyitems.specs.ChartSets.{IsSet, set_at};
ghost use Rattle.flatgrammar.specs.CalledParts.{AreAwaited};
ghost use Rattle.flatgrammar.specs.FlatVerdicts.{DerivesLine, IsFlatVerdict};
ghost use Rattle.lowering.specs.GivenPrefixes.{GivesPrefixes};
ghost use Rattle.ruletable.specs.Letters.{has};
ghost use Rattle.refusedlines.specs.declared.letterruns.run.LetterRun.{LetterRun as the_run};
ghost use Rattle.refusedlines.specs.Following.{AreFollowing};

use crate::letterruns::{LetterRun, runs_are_one};
use crate::read_letters::letters_read;
use earley::{Chart, awaited_at, judge, judge_few, viable, viable_few};
use flatgrammar::{DottedRule, Flat, Verdict};
use lazydfa::Automaton;
use lowering::{items_decide, values_are_letters};
use ruletable::{Letter, Memory};
use std::alloc::Global;

/// The symbols that can follow the longest viable prefix of a line.
#[derive(Drop)]
pub struct Following {
    /// How many symbols that prefix has.
    pub after: usize,
    /// The maximal runs of the symbols that can follow, in ascending order.
    pub runs: Vec<LetterRun>,
    /// Whether the line may end there.
    pub ends: bool,
    /// The names and the terminals that can come next there, in what began before, as dotted rules of the flat grammar.
    pub awaited: Vec<DottedRule>,
}

// Fills the chart with the item sets of a line, and returns whether the flat grammar derives the line. `Memory` if an
// allocation fails, or the sets have more items than the budget, if there is one.
fn judge_within_budget<L: Letter>(
    chart: &mut Chart,
    flat: &Flat,
    budget: Option<usize>,
    line: &[L],
) -> Result<bool, Memory>
    requires { length line.now ≤ flat.now.limit }
    ensures sets { IfOk result (λ _. (j : ℕ) → IsSet flat.now (map L.number line.now) j (set_at chart.new j)) }
    ensures answer { IfOk result (λ yes. IsTrue yes ↔ DerivesLine flat.now (map L.number line.now)) }
{
    let Some(most) = budget else {
        return judge(chart, flat, line);
    };
    match judge_few(chart, flat, line, most)? {
        Some(yes) => Ok(yes),
        None => Err(Memory),
    }
}

// Returns the verdict of the flat grammar on a line. `Memory` if an allocation fails, or the sets have more items than
// the budget, if there is one.
fn verdict_within_budget<L: Letter>(
    chart: &mut Chart,
    flat: &Flat,
    budget: Option<usize>,
    line: &[L],
) -> Result<Verdict, Memory>
    requires { length line.now ≤ flat.now.limit }
    ensures { IfOk result (IsFlatVerdict flat.now (map L.number line.now)) }
{
    let Some(most) = budget else {
        return viable(chart, flat, line);
    };
    match viable_few(chart, flat, line, most)? {
        Some(verdict) => Ok(verdict),
        None => Err(Memory),
    }
}

// Returns how many symbols the longest viable prefix of a line has.
fn furthest_position<L: Letter>(
    chart: &mut Chart,
    flat: &Flat,
    budget: Option<usize>,
    line: &[L],
) -> Result<usize, Memory>
    requires { length line.now ≤ flat.now.limit }
    ensures within { IfOk result (λ n. n ≤ length line.now) }
    ensures furthest { IfOk result (λ n. (rules : List Rule) (judged : ℕ)
        → GivesPrefixes (has L.ALPHABET) rules judged flat.now →
        IsFurthest (has L.ALPHABET) rules judged (map L.number line.now) n) }
{
    values_are_letters(line);
    items_decide();
    match verdict_within_budget(chart, flat, budget, line)? {
        Verdict::Yes => Ok(line.len()),
        Verdict::No(n) => Ok(n),
    }
}

// Returns what can follow the symbols of a line.
fn find_after<L: Letter>(
    alloc: Global,
    chart: &mut Chart,
    flat: &Flat,
    budget: Option<usize>,
    line: &[L],
) -> Result<Following, Memory>
    requires { length line.now + 1 ≤ flat.now.limit }
    ensures after { IfOk result (λ f. f.after ≡ length line.now) }
    ensures following { IfOk result (λ f. (rules : List Rule) (judged : ℕ)
        → GivesPrefixes (has L.ALPHABET) rules judged flat.now →
        AreFollowing (has L.ALPHABET) rules judged (map L.number line.now) (length line.now) f.runs.items f.ends) }
    ensures awaited { IfOk result (λ f. AreAwaited flat.now (map L.number line.now) (length line.now) f.awaited.items) }
{
    values_are_letters(line);
    let after = line.len();
    let ends = judge_within_budget(chart, flat, budget, line)?;
    let dots = chart.dots(after)?;
    let runs = letters_read(alloc, L::ALPHABET, flat, &dots)?;
    let awaited = awaited_at(alloc, chart, flat, after)?;
    Ok(Following {
        after,
        runs,
        ends,
        awaited,
    })
}

// Returns the dotted rules that are awaited after a prefix: by the automaton, or if it gives no answer, by the chart,
// which is filled with the prefix.
fn find_awaited<L: Letter>(
    alloc: Global,
    chart: &mut Chart,
    states: &mut Automaton,
    flat: &Flat,
    budget: Option<usize>,
    prefix: &[L],
) -> Result<Vec<DottedRule>, Memory>
    requires within { length prefix.now ≤ flat.now.limit }
    requires flat { states.old ≡ flat.now }
    ensures flat { states.new ≡ flat.now }
    ensures awaited { IfOk result (λ dots. AreAwaited flat.now (map L.number prefix.now) (length prefix.now)
        dots.items) }
{
    if let Ok(Some(dots)) = states.awaited(prefix) {
        return Ok(dots);
    }
    let _ends = judge_within_budget(chart, flat, budget, prefix)?;
    awaited_at(alloc, chart, flat, prefix.len())
}

// Returns what can follow a line by the automaton; `None` if it gives no answer.
fn find_by_states<L: Letter>(
    alloc: Global,
    chart: &mut Chart,
    automaton: &mut Option<Automaton>,
    flat: &Flat,
    budget: Option<usize>,
    line: &[L],
) -> Result<Option<Following>, Memory>
    requires within { length line.now + 1 ≤ flat.now.limit }
    requires flat { IfSome automaton.old (λ a. a ≡ flat.now) }
    ensures flat { IfSome automaton.new (λ a. a ≡ flat.now) }
    ensures within { IfOk result (λ reported. IfSome reported (λ f. f.after ≤ length line.now)) }
    ensures furthest { IfOk result (λ reported. IfSome reported (λ f. (rules : List Rule) (judged : ℕ)
        → GivesPrefixes (has L.ALPHABET) rules judged flat.now →
        IsFurthest (has L.ALPHABET) rules judged (map L.number line.now) f.after)) }
    ensures following { IfOk result (λ reported. IfSome reported (λ f. (rules : List Rule) (judged : ℕ)
        → GivesPrefixes (has L.ALPHABET) rules judged flat.now →
        AreFollowing (has L.ALPHABET) rules judged (map L.number line.now) f.after f.runs.items f.ends)) }
    ensures awaited { IfOk result (λ reported. IfSome reported (λ f. AreAwaited flat.now
        (take f.after (map L.number line.now)) f.after f.awaited.items)) }
{
    values_are_letters(line);
    let Some(states) = automaton else {
        return Ok(None);
    };
    let Ok(Some(reported)) = states.expected(line) else {
        return Ok(None);
    };
    let runs = letters_read(alloc, L::ALPHABET, flat, &reported.dots)?;
    let after = reported.after;
    let awaited = find_awaited(alloc, chart, states, flat, budget, &line[..after])?;
    Ok(Some(Following {
        after,
        runs,
        ends: reported.ends,
        awaited,
    }))
}

/// Finds all symbols that can follow the longest viable prefix of a line, whether the line may end there, and the
/// dotted rules that are awaited there. The flat grammar is that of `lower_viable` for the alphabet of the symbols. The
/// line must have fewer symbols than `flat.limit()`.
///
/// The automaton, if there is one, answers by one run over the line, and one over that prefix. Where it gives no
/// answer, the chart is filled with the item sets of the line, and then with those of that prefix. The symbols are then
/// those that the items of its last set read.
///
/// `Memory` if an allocation fails, or the sets that are filled have more items than the budget, if there is one.
pub fn find_following<L: Letter>(
    alloc: Global,
    chart: &mut Chart,
    automaton: &mut Option<Automaton>,
    flat: &Flat,
    budget: Option<usize>,
    line: &[L],
) -> Result<Following, Memory>
    requires within { length line.now + 1 ≤ flat.now.limit }
    requires flat { IfSome automaton.old (λ a. a ≡ flat.now) }
    ensures flat { IfSome automaton.new (λ a. a ≡ flat.now) }
    ensures within { IfOk result (λ f. f.after ≤ length line.now) }
    ensures furthest { IfOk result (λ f. (rules : List Rule) (judged : ℕ)
        → GivesPrefixes (has L.ALPHABET) rules judged flat.now →
        IsFurthest (has L.ALPHABET) rules judged (map L.number line.now) f.after) }
    ensures following { IfOk result (λ f. (rules : List Rule) (judged : ℕ)
        → GivesPrefixes (has L.ALPHABET) rules judged flat.now →
        AreFollowing (has L.ALPHABET) rules judged (map L.number line.now) f.after f.runs.items f.ends) }
    ensures awaited { IfOk result (λ f. AreAwaited flat.now (take f.after (map L.number line.now)) f.after
        f.awaited.items) }
{
    if let Some(reported) = find_by_states(alloc, chart, automaton, flat, budget, line)? {
        return Ok(reported);
    }
    let after = furthest_position(chart, flat, budget, line)?;
    find_after(alloc, chart, flat, budget, &line[..after])
}

/// Returns nothing. Its contract is a law: at most one list of runs has the symbols that can follow the first symbols
/// of a line.
pub fn following_is_one()
    ensures { (has : ℕ → Bool) (rules : List Rule) (id : ℕ) (x : List ℕ) (n : ℕ) (runs others : List the_run)
        (ends end : Bool) → AreFollowing has rules id x n runs ends → AreFollowing has rules id x n others end →
        (runs ≡ others) × (ends ≡ end) }
{
    runs_are_one();
}
