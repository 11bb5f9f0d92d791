//! The parts of rules that can come next, by an item set.
ghost use Rattle.std.specs.Prelude.{◌≡◌, ◌↔◌, ◌⊎◌, ℕ, List, [], IfOk};
ghost use Rattle.flatgrammar.specs.CalledParts.{AreAwaited, IsPartOf};
ghost use Rattle.flatgrammar.specs.Positions.{In};
ghost use Rattle.flatgrammar.specs.declared.closure.DottedRule.{DottedRule as the_dot};
ghost use Rattle.earleyitems.specs.ChartSets.{IsSet, set_at};
ghost use Rattle.earley.specs.OldDots.{AddsNode, AreOldDots, ArePartsOf, EntersFrom};

use crate::chart::Chart;
use flatgrammar::{DottedRule, Flat, Item, Tables, called_node, is_name, part_of};
use ruletable::Memory;
use std::alloc::Global;

// Adds the dotted rules of a node that are among others.
fn add_node(dots: &[DottedRule], node: usize, old: &mut Vec<DottedRule>) -> Result<(), Memory>
    ensures { IfOk result (λ done. AddsNode dots.now node old.old.items old.new.items) }
{
    for dot in dots {
        if dot.node == node {
            old.push(*dot)?;
        }
    }
    Ok(())
}

// Adds the dotted rules of the node that a dotted rule calls, unless it is a name or was entered before. Notes it as
// entered.
fn enter_from(
    tables: &Tables,
    dots: &[DottedRule],
    from: DottedRule,
    entered: &mut Vec<usize>,
    old: &mut Vec<DottedRule>,
) -> Result<(), Memory>
    ensures { IfOk result (λ done. EntersFrom tables.now dots.now from entered.old.items entered.new.items
        old.old.items old.new.items) }
{
    let item = Item {
        node: from.node,
        step: from.step,
        origin: 0,
    };
    let Some((node, _next)) = called_node(tables, item) else {
        return Ok(());
    };
    if is_name(tables, node) {
        return Ok(());
    }
    if entered.contains(&node) {
        return Ok(());
    }
    entered.push(node)?;
    add_node(dots, node, old)
}

// Returns of the dotted rules of set `n` those of what began before it, from those with older origins.
fn old_dots(
    alloc: Global,
    tables: &Tables,
    n: usize,
    older: &[DottedRule],
    dots: &[DottedRule],
) -> Result<Vec<DottedRule>, Memory>
    ensures { IfOk result (λ old. AreOldDots tables.now n older.now dots.now old.items) }
{
    let mut old = Vec::from_slice(alloc, older)?;
    if n == 0 {
        add_node(dots, tables.start, &mut old)?;
    }
    let mut entered = Vec::new(alloc);
    let mut count = 0;
    for _ in 0..usize::MAX {
        if count >= old.len() {
            return Ok(old);
        }
        enter_from(tables, dots, old[count], &mut entered, &mut old)?;
        count += 1;
    }
    Err(Memory)
}

// Adds the part of a dotted rule, if it has one.
fn add_part(tables: &Tables, dot: DottedRule, parts: &mut Vec<DottedRule>) -> Result<(), Memory>
    ensures { IfOk result (λ done. (s : the_dot) → In s parts.new.items
        ↔ (In s parts.old.items ⊎ IsPartOf tables.now dot.node dot.step s)) }
{
    if let Some(part) = part_of(tables, dot) {
        parts.push(part)?;
    }
    Ok(())
}

// Returns the parts of dotted rules.
fn parts_of(alloc: Global, tables: &Tables, dots: &[DottedRule]) -> Result<Vec<DottedRule>, Memory>
    ensures { IfOk result (λ parts. ArePartsOf tables.now dots.now parts.items) }
{
    let mut parts = Vec::new(alloc);
    for dot in dots {
        add_part(tables, *dot, &mut parts)?;
    }
    Ok(parts)
}

/// Returns the parts that can come next after the first `n` symbols of a line, in what began before: terminals, each
/// with the number of its symbols that were read, and names, each at step 0. A part may stand more than once. The chart
/// must have the set `n` of the line. `Memory` if an allocation fails.
pub fn awaited_at(
    alloc: Global,
    chart: &Chart,
    flat: &Flat,
    n: usize,
) -> Result<Vec<DottedRule>, Memory>
    ensures { IfOk result (λ parts. (x : List ℕ) → IsSet flat.now x n (set_at chart.now n)
        → AreAwaited flat.now x n parts.items) }
{
    let tables = flat.share()?;
    let older = chart.older_dots(n)?;
    let dots = chart.dots(n)?;
    let old = old_dots(alloc, &tables, n, &older, &dots)?;
    parts_of(alloc, &tables, &old)
}
