//! Charts of item sets, and the line judge.
ghost use Rattle.std.specs.Prelude.{◌≡◌, ◌↔◌, ◌+◌, ◌<◌, ◌≤◌, ℕ, List, [], true, false, Some, IsTrue, IfOk, IfSome};
ghost use Rattle.std.specs.Prelude.{IfNone, OnOk, OnErr, length, map, slice_get, sum_by};
ghost use Rattle.flatgrammar.specs.NodeSteps.{flat_of};
ghost use Rattle.flatgrammar.specs.TableViews.{GiveTargets, AreNulls};
ghost use Rattle.earleyitems.specs.Charts.{IsAfter, IsExact};
ghost use Rattle.earleyitems.specs.ChartSets.{chart_of, set_at, IsSet, AreSized, AreDotsOf, AreOlderDotsOf};
ghost use Rattle.earleyitems.specs.ChartSets.{HaveMoreItems};
ghost use Rattle.flatgrammar.specs.ItemClosures.{AreExact, closure_of, item_at, AreTables, AreAlone, AreOwners};
ghost use Rattle.flatgrammar.specs.ItemClosures.{AreDotLists};
ghost use Rattle.earleyitems.specs.ItemOwners.{prediction_rows, AreItemsOwned, AreReadersOwned};
ghost use Rattle.earleyitems.specs.ItemSets.{Adds};
ghost use Rattle.earleyitems.specs.Waiting.{IsKept};
ghost use Rattle.earleyitems.specs.Chosen.{AreReaders};
ghost use Rattle.earleyitems.specs.SetViews.{expand, full, view, views, IsWholeAt};
ghost use Rattle.flatgrammar.specs.Positions.{In, AreDifferent};
ghost use Rattle.flatgrammar.specs.Flat.{Dot};
ghost use Rattle.flatgrammar.specs.Holds.{Holds};
ghost use Rattle.earleyitems.specs.EarleySets.{EarleySet as kept_set, predictions_of};

use crate::earley_set::EarleySet;
use crate::fill::fill;
use crate::item::{holds, same};
use crate::items::Items;
use crate::postdot::{OwnedItem, Postdot};
use crate::predictions::Predictions;
use crate::scan::scan;
use crate::set_dots::{push_items, push_older_items, push_predictions};
use crate::sets::{Filled, Record, Sets};
use flatgrammar::{DottedRule, Flat, Item, Tables, dots, start_target};
use ruletable::{Letter, Memory};
use std::alloc::Global;
use std::marker::Model;
use std::mem;
use std::rc::Rc;

/// The Earley sets of a line. Contracts see a list of lists of items, each a dotted rule with its origin.
///
/// A set stores the targets that it predicts, and the items beside their closures. The closures are precomputed in the
/// grammar's tables, so `tables` and `sets` together give the items. A chart that is empty, or whose last line failed,
/// has no tables and no set. `kept` has the memory of the set under way, which the next line uses again.
#[derive(Drop)]
pub struct ItemChart {
    /// Allocates the sets.
    alloc: Global,
    /// The grammar that filled the sets, if there are any.
    tables: Option<Rc<Tables>>,
    /// The sets of the last line.
    sets: Sets,
    /// The work tables of the set under way.
    kept: WorkTables,
}

/// The work tables of the set under way. They are kept from line to line, so that a line allocates little.
#[derive(Drop)]
struct WorkTables {
    /// The predictions of the set.
    predictions: Predictions,
    /// The items beside the closures.
    items: Items,
    /// Those items of the last set that call or read.
    postdot: Postdot,
}

impl WorkTables {
    // Returns tables without entries. It takes no memory.
    fn new(alloc: Global) -> WorkTables {
        WorkTables {
            predictions: Predictions::new(alloc),
            items: Items::new(alloc),
            postdot: Postdot::new(alloc),
        }
    }
}

impl Model for ItemChart {
    ghost use Rattle.std.specs.Prelude.{ℕ, List};
    ghost use Rattle.flatgrammar.specs.Flat.{Dot};
    ghost use Rattle.earleyitems.specs.ChartSets.{chart_of, AreSized};

    ghost Value = { List (List (Dot × ℕ)) };

    ghost view = { λ c. chart_of c.tables c.sets };

    ghost invariant = { λ c. AreSized c.tables c.sets };
}

impl ItemChart {
    /// Returns a chart with no set. It takes no memory.
    pub fn new(alloc: Global) -> ItemChart
        ensures { result ≡ [] }
    {
        ItemChart {
            alloc,
            tables: None,
            sets: Sets::new(alloc),
            kept: WorkTables::new(alloc),
        }
    }

    /// Returns the number of items of set `j`, 0 if there is no such set.
    pub fn items(&self, j: usize) -> usize
        ensures { result ≡ length (set_at self.now j) }
    {
        match self.sets.get(j) {
            Some(kept_set) => kept_set.size(),
            None => 0,
        }
    }

    /// Returns the dotted rules of the items of set `j`, each once or more; none if there is no such set. `Memory` if
    /// an allocation fails.
    pub fn dots(&self, j: usize) -> Result<Vec<DottedRule>, Memory>
        ensures { IfOk result (λ dots. AreDotsOf (set_at self.now j) dots.items) }
    {
        let mut dots = Vec::new(self.alloc);
        match &self.tables {
            None => Ok(dots),
            Some(tables) => match self.sets.get(j) {
                None => Ok(dots),
                Some(kept_set) => {
                    push_predictions(tables, kept_set.records(), &mut dots)?;
                    push_items(kept_set.items(), &mut dots)?;
                    Ok(dots)
                }
            },
        }
    }

    /// Returns the dotted rules of the items of set `j` with origins before `j`, each once or more; none if there is no
    /// such set. `Memory` if an allocation fails.
    pub fn older_dots(&self, j: usize) -> Result<Vec<DottedRule>, Memory>
        ensures { IfOk result (λ dots. AreOlderDotsOf (set_at self.now j) j dots.items) }
    {
        let mut dots = Vec::new(self.alloc);
        match &self.tables {
            None => Ok(dots),
            Some(_) => match self.sets.get(j) {
                None => Ok(dots),
                Some(kept_set) => {
                    push_older_items(kept_set.items(), j, &mut dots)?;
                    Ok(dots)
                }
            },
        }
    }

    // Empties the chart, and returns its sets, which are none, and what is kept for the next line.
    fn take_kept(&mut self) -> (Sets, WorkTables)
        ensures empty { self.new ≡ [] }
        ensures none { result.0 ≡ [] }
    {
        self.tables = None;
        let mut sets = mem::replace(&mut self.sets, Sets::new(self.alloc));
        sets.clear();
        (
            sets,
            mem::replace(&mut self.kept, WorkTables::new(self.alloc)),
        )
    }

    // Keeps the sets of a line, with the tables that they were filled by, and what is kept for the next line.
    fn keep(&mut self, tables: Rc<Tables>, sets: Sets, kept: WorkTables)
        requires { (j : ℕ) (f : kept_set) → slice_get sets j ≡ Some f → f.size ≡ length (view tables.value j f) }
        ensures { self.new ≡ chart_of (Some tables) sets }
    {
        self.tables = Some(tables);
        self.sets = sets;
        self.kept = kept;
    }
}

// Predicts the augmented start, before the first letter.
fn predict_start(flat: &Tables, number: usize, predictions: &mut Predictions) -> Result<(), Memory>
    ensures { IfOk result (λ done. Adds (IsWholeAt flat.now number) predictions.old predictions.new) }
{
    if number == 0 {
        if let Some(target) = start_target(flat) {
            predictions.add(target)?;
        }
    }
    Ok(())
}

// Scans the letter after the last set, where there are no items. `readers` are those items of the set that read.
fn scan_last<L: Letter>(
    flat: &Tables,
    line: &[L],
    sets: &Sets,
    readers: &[OwnedItem],
    items: &mut Items,
) -> Result<(), Memory>
    requires length { length sets.now ≤ length line.now }
    requires lists { AreDotLists flat.now }
    requires readers { AreReaders flat.now sets.now readers.now }
    requires different { (k : ℕ) (f : kept_set) → slice_get sets.now k ≡ Some f → AreDifferent (view flat.now k f) }
    requires empty { items.old.items ≡ [] }
    requires owners { AreOwners flat.now }
    requires owned { (k : ℕ) → length sets.now ≡ k + 1
        → AreReadersOwned flat.now (prediction_rows sets.now) readers.now }
    ensures added { IfOk result (λ done. Adds (IsAfter flat.now (map L.number line.now) (views flat.now 0 sets.now))
        items.old.items items.new.items) }
    ensures owners { IfOk result (λ done. AreItemsOwned flat.now (prediction_rows sets.now) items.new) }
{
    if sets.len() > 0 {
        let last = sets.len() - 1;
        let Some(kept_set) = sets.get(last) else {
            unreachable!()
        };
        scan(flat, line[last], &kept_set, readers, last, items)?;
    }
    Ok(())
}

// Adds the item sets of a line, where there are none. It stops once the items beside the closures are more than `most`,
// and returns whether it did not.
fn fill_sets<L: Letter>(
    flat: &Tables,
    line: &[L],
    kept: &mut WorkTables,
    sets: &mut Sets,
    most: usize,
) -> Result<bool, Memory>
    requires targets { GiveTargets (flat_of flat.now) flat.now.targets.items }
    requires nulls { AreNulls (flat_of flat.now) flat.now.nulls.items }
    requires tables { AreTables flat.now }
    requires alone { AreAlone flat.now }
    requires lists { AreDotLists flat.now }
    requires no_predictions { kept.old.predictions ≡ [] }
    requires owners { AreOwners flat.now }
    requires no_items { kept.old.items.items ≡ [] }
    requires no_sets { sets.old ≡ [] }
    ensures size { IfOk result (λ whole. whole ≡ true → length sets.new ≡ length line.now + 1) }
    ensures more { IfOk result (λ whole. whole ≡ false → most < sum_by (λ set. length set)
        (views flat.now 0 sets.new)) }
    ensures sized { OnOk result ((j : ℕ) (f : kept_set) → slice_get sets.new j ≡ Some f
        → f.size ≡ length (view flat.now j f)) }
    ensures exact { OnOk result (IsExact flat.now (map L.number line.now) (views flat.now 0 sets.new)) }
{
    let mut beside = 0usize;
    while sets.len() <= line.len() {
        if beside > most {
            return Ok(false);
        }
        let predictions = &mut kept.predictions;
        let items = &mut kept.items;
        predict_start(flat, sets.len(), predictions)?;
        scan_last(flat, line, sets, &kept.postdot.readers, items)?;
        let closures = fill(flat, sets, predictions, items, &mut kept.postdot)?;
        beside = beside.saturating_add(items.len());
        let filled = Filled {
            predictions,
            items: items.list(),
            callers: &kept.postdot.callers,
            closures,
        };
        sets.push(flat, filled)?;
        predictions.clear();
        items.clear();
    }
    Ok(true)
}

fn in_dots(dots: &[DottedRule], number: usize, item: Item) -> bool
    ensures { IsTrue result ↔ In item (map (item_at number) dots.now) }
{
    for dot in dots {
        let other = Item {
            node: dot.node,
            step: dot.step,
            origin: number,
        };
        if same(item, other) {
            return true;
        }
    }
    false
}

fn in_predictions(flat: &Tables, records: &[Record], number: usize, item: Item) -> bool
    ensures { IsTrue result ↔ In item (expand (closure_of flat.now) number (predictions_of records.now)) }
{
    for record in records {
        if in_dots(dots(flat, record.prediction), number, item) {
            return true;
        }
    }
    false
}

// Whether an item stands in a set.
fn contains(flat: &Tables, kept_set: &EarleySet<'_>, number: usize, item: Item) -> bool
    ensures { IsTrue result ↔ In item (view flat.now number kept_set.now) }
{
    if in_predictions(flat, kept_set.records(), number, item) {
        return true;
    }
    holds(kept_set.items(), item)
}

// Returns whether the last set holds the augmented start's end with origin 0.
fn is_yes<L: Letter>(flat: &Tables, sets: &Sets, line: &[L]) -> bool
    requires size { length sets.now ≡ length line.now + 1 }
    requires exact { IsExact flat.now (map L.number line.now) (views flat.now 0 sets.now) }
    ensures { IsTrue result ↔ Holds (flat_of flat.now) (map L.number line.now) (length line.now)
        (Dot.at flat.now.start 1) 0 }
{
    let whole = Item {
        node: flat.start,
        step: 1,
        origin: 0,
    };
    let Some(kept_set) = sets.get(line.len()) else {
        unreachable!()
    };
    contains(flat, &kept_set, line.len(), whole)
}

// Fills an empty chart by these tables, and answers.
#[inline(never)]
fn judge_by<L: Letter>(
    chart: &mut ItemChart,
    tables: Rc<Tables>,
    sets: Sets,
    kept: WorkTables,
    line: &[L],
    most: usize,
) -> Result<Option<bool>, Memory>
    requires exact { AreExact tables.value }
    requires none { sets ≡ [] }
    requires empty { chart.old ≡ [] }
    ensures sets { IfOk result (λ reported. IfSome reported (λ _. (j : ℕ) → IsSet (flat_of tables.value)
        (map L.number line.now) j (set_at chart.new j))) }
    ensures answer { IfOk result (λ reported. IfSome reported (λ yes. IsTrue yes ↔ Holds (flat_of tables.value)
        (map L.number line.now) (length line.now) (Dot.at (flat_of tables.value).start 1) 0)) }
    ensures none { IfOk result (λ reported. IfNone reported (chart.new ≡ [])) }
    ensures more { IfOk result (λ reported. IfNone reported (HaveMoreItems (flat_of tables.value)
        (map L.number line.now)
        most)) }
    ensures empty { OnErr result (chart.new ≡ []) }
{
    let mut sets = sets;
    let mut kept = kept;
    kept.predictions.clear();
    kept.items.clear();
    let whole = fill_sets(&tables, line, &mut kept, &mut sets, most)?;
    if whole {
        let answer = is_yes(&tables, &sets, line);
        chart.keep(tables, sets, kept);
        return Ok(Some(answer));
    }
    Ok(None)
}

/// Fills the chart with the item sets of a line, and returns whether the last set holds the augmented start's end with
/// origin 0. The line may have at most `flat.limit()` symbols.
///
/// It gives up once more than `most` items are kept one by one, as those of closures are not. It returns `None` then:
/// the sets of the line have more than `most` items, and the chart is empty.
///
/// `Memory` if an allocation fails; the chart is empty then.
pub fn judge_within<L: Letter>(
    chart: &mut ItemChart,
    flat: &Flat,
    line: &[L],
    most: usize,
) -> Result<Option<bool>, Memory>
    requires { length line.now ≤ flat.now.limit }
    ensures sets { IfOk result (λ reported. IfSome reported (λ _. (j : ℕ) → IsSet flat.now (map L.number line.now) j
        (set_at chart.new j))) }
    ensures answer { IfOk result (λ reported. IfSome reported (λ yes. IsTrue yes
        ↔ Holds flat.now (map L.number line.now)
        (length line.now) (Dot.at flat.now.start 1) 0)) }
    ensures none { IfOk result (λ reported. IfNone reported (chart.new ≡ [])) }
    ensures more { IfOk result (λ reported. IfNone reported (HaveMoreItems flat.now (map L.number line.now) most)) }
    ensures empty { OnErr result (chart.new ≡ []) }
{
    let (sets, kept) = chart.take_kept();
    let tables = flat.share()?;
    judge_by(chart, tables, sets, kept, line, most)
}
