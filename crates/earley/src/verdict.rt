//! The verdict on a line by its item sets.
ghost use Rattle.std.specs.Prelude.{◌≡◌, ◌↔◌, ◌+◌, ◌*◌, ◌<◌, ◌≤◌, ℕ, List, [], IfOk, IfSome, IfNone, IsTrue, OnErr};
ghost use Rattle.std.specs.Prelude.{length, map};
ghost use Rattle.earleyitems.specs.ChartSets.{set_at, HaveMoreItems, IsSet};
ghost use Rattle.flatgrammar.specs.Flat.{Flat as flat_model};
ghost use Rattle.flatgrammar.specs.FlatVerdicts.{DerivesLine, IsFlatVerdict};
ghost use Rattle.flatgrammar.specs.Positions.{positions};

use crate::chart::{Chart, judge, judge_few};
use flatgrammar::{Flat, Verdict};
use ruletable::{Letter, Memory};

// Returns the number of the last set up to that number that is not empty, 0 if there is none.
fn furthest(chart: &Chart, end: usize) -> usize
    ensures within { result ≤ end }
    ensures some { 0 < result → 0 < length (set_at chart.now result) }
    ensures last { (m : ℕ) → result < m → m ≤ end → length (set_at chart.now m) ≡ 0 }
{
    let mut last = end;
    while last > 0 && chart.items(last) == 0 {
        last -= 1;
    }
    last
}

// Returns the verdict on a line of so many symbols by its sets, and by whether the flat grammar derives it.
fn verdict_by(chart: &Chart, end: usize, derived: bool) -> Verdict
    ensures { (flat : flat_model) (x : List ℕ) → length x ≡ end → ((j : ℕ) → IsSet flat x j (set_at chart.now j))
        → (IsTrue derived ↔ DerivesLine flat x) → IsFlatVerdict flat x result }
{
    if derived {
        Verdict::Yes
    } else {
        Verdict::No(furthest(chart, end))
    }
}

/// Fills the chart with the item sets of a line, and returns the verdict of the flat grammar. By the law `items_decide`
/// of `lowering`, a flat grammar of `lower_viable` gives the judged rule's verdict, with the longest viable prefix. The
/// line may have at most `flat.limit()` symbols.
///
/// `Memory` if an allocation fails; the chart is empty then.
pub fn viable<L: Letter>(chart: &mut Chart, flat: &Flat, line: &[L]) -> Result<Verdict, Memory>
    requires { length line.now ≤ flat.now.limit }
    ensures sets { IfOk result (λ _. (j : ℕ) → IsSet flat.now (map L.number line.now) j (set_at chart.new j)) }
    ensures bound { IfOk result (λ _. (j : ℕ) → length (set_at chart.new j) ≤ positions flat.now.nodes * (j + 1)) }
    ensures verdict { IfOk result (IsFlatVerdict flat.now (map L.number line.now)) }
    ensures empty { OnErr result (chart.new ≡ []) }
{
    let derived = judge(chart, flat, line)?;
    Ok(verdict_by(chart, line.len(), derived))
}

/// Fills the chart with the item sets of a line as `judge_few`, and returns the verdict of the flat grammar as
/// `viable`. `None` if the sets have more than `most` items.
///
/// `Memory` if an allocation fails; the chart is empty then.
pub fn viable_few<L: Letter>(
    chart: &mut Chart,
    flat: &Flat,
    line: &[L],
    most: usize,
) -> Result<Option<Verdict>, Memory>
    requires { length line.now ≤ flat.now.limit }
    ensures verdict { IfOk result (λ found. IfSome found (IsFlatVerdict flat.now (map L.number line.now))) }
    ensures more { IfOk result (λ found. IfNone found (HaveMoreItems flat.now (map L.number line.now) most)) }
    ensures empty { OnErr result (chart.new ≡ []) }
{
    match judge_few(chart, flat, line, most)? {
        Some(derived) => Ok(Some(verdict_by(chart, line.len(), derived))),
        None => Ok(None),
    }
}
