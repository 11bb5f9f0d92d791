//! Charts of item sets, and the line judge.
ghost use Rattle.std.specs.Prelude.{◌≡◌, ◌↔◌, ◌*◌, ◌+◌, ◌≤◌, ℕ, List, [], IsTrue, IfOk, IfSome, IfNone, OnErr};
ghost use Rattle.std.specs.Prelude.{length, map};
ghost use Rattle.earleyitems.specs.ChartSets.{set_at, AreDotsOf, AreOlderDotsOf, HaveMoreItems, IsSet};
ghost use Rattle.flatgrammar.specs.FlatVerdicts.{DerivesLine};
ghost use Rattle.flatgrammar.specs.Positions.{positions};

use crate::row_chart::judge_rows;
use crate::row_dots::{row_dots, row_older_dots};
use crate::row_sets::RowChart;
use earleyitems::judge_within;
use flatgrammar::{DottedRule, Flat};
use ruletable::{Letter, Memory};
use std::alloc::Global;
use std::marker::Model;

// The sets of a line are kept item by item while they have at most this many items, or this many for each symbol.
const FEW_ITEMS: usize = 4096;

const FEW_FOR_EACH_LETTER: usize = 32;

/// The Earley sets of a line. Contracts see a list of lists of items, each a dotted rule with its origin.
///
/// The sets of most lines are kept item by item, in `items`. A dense line has more than 4,096 items, and more than 32
/// for each of its symbols, beside the closures. It is judged again by rows of bits: a row of origins for each dotted
/// rule. Then `rows` has the sets, and `items` is empty. A grammar with too many dotted rules gets no rows.
#[derive(Drop)]
pub struct Chart {
    /// Allocates the sets.
    alloc: Global,
    /// The sets item by item, if there are no rows. Its memory serves the next line.
    items: earleyitems::ItemChart,
    /// The sets as rows, of a dense line.
    rows: Option<RowChart>,
}

impl Model for Chart {
    ghost use Rattle.std.specs.Prelude.{ℕ, List};
    ghost use Rattle.flatgrammar.specs.Flat.{Dot};
    ghost use Rattle.earley.specs.RowCharts.{chart_by, IsSizedChart};

    ghost Value = { List (List (Dot × ℕ)) };

    ghost view = { λ c. chart_by c.rows c.items };

    ghost invariant = { λ c. IsSizedChart c.rows };
}

impl Chart {
    /// Returns a chart with no set. It takes no memory.
    pub fn new(alloc: Global) -> Chart
        ensures { result ≡ [] }
    {
        Chart {
            alloc,
            items: earleyitems::ItemChart::new(alloc),
            rows: None,
        }
    }

    /// Returns the number of items of set `j`, 0 if there is no such set.
    pub fn items(&self, j: usize) -> usize
        ensures { result ≡ length (set_at self.now j) }
    {
        match &self.rows {
            None => self.items.items(j),
            Some(rows) => match rows.sets.get(j) {
                Some(set) => set.size,
                None => 0,
            },
        }
    }

    /// Returns the dotted rules of the items of set `j`, each once or more; none if there is no such set. `Memory` if
    /// an allocation fails.
    pub fn dots(&self, j: usize) -> Result<Vec<DottedRule>, Memory>
        ensures { IfOk result (λ dots. AreDotsOf (set_at self.now j) dots.items) }
    {
        match &self.rows {
            None => self.items.dots(j),
            Some(rows) => match rows.sets.get(j) {
                Some(set) => row_dots(self.alloc, &rows.table.dots, &set.rows),
                None => Ok(Vec::new(self.alloc)),
            },
        }
    }

    /// Returns the dotted rules of the items of set `j` with origins before `j`, each once or more; none if there is no
    /// such set. `Memory` if an allocation fails.
    pub fn older_dots(&self, j: usize) -> Result<Vec<DottedRule>, Memory>
        ensures { IfOk result (λ dots. AreOlderDotsOf (set_at self.now j) j dots.items) }
    {
        match &self.rows {
            None => self.items.older_dots(j),
            Some(rows) => match rows.sets.get(j) {
                Some(set) => row_older_dots(self.alloc, &rows.table.dots, &set.rows, j),
                None => Ok(Vec::new(self.alloc)),
            },
        }
    }
}

// Returns how many items the sets of a line of so many symbols may have before they are kept as rows.
fn few_items(letters: usize) -> usize {
    letters.saturating_mul(FEW_FOR_EACH_LETTER).max(FEW_ITEMS)
}

// Fills the chart item by item with the item sets of a line, however many there are, and returns whether the flat
// grammar derives the line.
fn judge_items<L: Letter>(
    items: &mut earleyitems::ItemChart,
    flat: &Flat,
    line: &[L],
) -> Result<bool, Memory>
    requires { length line.now ≤ flat.now.limit }
    ensures sets { IfOk result (λ _. (j : ℕ) → IsSet flat.now (map L.number line.now) j (set_at items.new j)) }
    ensures answer { IfOk result (λ yes. IsTrue yes ↔ DerivesLine flat.now (map L.number line.now)) }
    ensures empty { OnErr result (items.new ≡ []) }
{
    match judge_within(items, flat, line, usize::MAX)? {
        Some(yes) => Ok(yes),
        None => Err(Memory),
    }
}

// Fills the chart anew with the item sets of a line that has many items, and returns whether the flat grammar derives
// the line. The sets are kept as rows, or item by item if the grammar has too many dotted rules.
fn judge_many<L: Letter>(chart: &mut Chart, flat: &Flat, line: &[L]) -> Result<bool, Memory>
    requires { length line.now ≤ flat.now.limit }
    ensures sets { IfOk result (λ _. (j : ℕ) → IsSet flat.now (map L.number line.now) j (set_at chart.new j)) }
    ensures answer { IfOk result (λ yes. IsTrue yes ↔ DerivesLine flat.now (map L.number line.now)) }
    ensures empty { OnErr result (chart.new ≡ []) }
{
    // gives back what the items so far took
    chart.rows = None;
    chart.items = earleyitems::ItemChart::new(chart.alloc);
    match judge_rows(chart.alloc, flat, line)? {
        Some(judged) => {
            chart.rows = Some(judged.chart);
            Ok(judged.yes)
        }
        None => judge_items(&mut chart.items, flat, line),
    }
}

/// Fills the chart with the item sets of a line, and returns whether the flat grammar derives the line. By the law
/// `items_decide` of `lowering`, a flat grammar of `lower` answers for the judged rule. The line may have at most
/// `flat.limit()` symbols.
///
/// `Memory` if an allocation fails; the chart is empty then.
pub fn judge<L: Letter>(chart: &mut Chart, flat: &Flat, line: &[L]) -> Result<bool, Memory>
    requires { length line.now ≤ flat.now.limit }
    ensures sets { IfOk result (λ _. (j : ℕ) → IsSet flat.now (map L.number line.now) j (set_at chart.new j)) }
    ensures bound { IfOk result (λ _. (j : ℕ) → length (set_at chart.new j) ≤ positions flat.now.nodes * (j + 1)) }
    ensures answer { IfOk result (λ yes. IsTrue yes ↔ DerivesLine flat.now (map L.number line.now)) }
    ensures empty { OnErr result (chart.new ≡ []) }
{
    chart.rows = None;
    match judge_within(&mut chart.items, flat, line, few_items(line.len()))? {
        Some(yes) => Ok(yes),
        None => judge_many(chart, flat, line),
    }
}

/// Fills the chart with the item sets of a line, item by item, and returns whether the flat grammar derives the line,
/// as `judge`. It gives up once more than `most` items are kept, as `judge_within` of `earleyitems`: it returns `None`
/// then, and the sets of the line have more than `most` items.
///
/// `Memory` if an allocation fails; the chart is empty then.
pub fn judge_few<L: Letter>(
    chart: &mut Chart,
    flat: &Flat,
    line: &[L],
    most: usize,
) -> Result<Option<bool>, Memory>
    requires { length line.now ≤ flat.now.limit }
    ensures sets { IfOk result (λ found. IfSome found (λ _. (j : ℕ) → IsSet flat.now (map L.number line.now) j
        (set_at chart.new j))) }
    ensures answer { IfOk result (λ found. IfSome found (λ yes. IsTrue yes
        ↔ DerivesLine flat.now (map L.number line.now))) }
    ensures more { IfOk result (λ found. IfNone found (HaveMoreItems flat.now (map L.number line.now) most)) }
    ensures empty { OnErr result (chart.new ≡ []) }
{
    chart.rows = None;
    judge_within(&mut chart.items, flat, line, most)
}
