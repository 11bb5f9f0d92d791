//! How far rules are from the start rule.
ghost use Rattle.std.specs.Prelude.{◌≡◌, ℕ, ◌+◌, ◌-◌, ◌<◌, ◌≤◌, ◌++◌, Some, length, take, drop, slice_get, IfOk, OnOk};
ghost use Rattle.std.specs.List.{flat_map};
ghost use Rattle.gramcheck.specs.Grammar.{IsNumbered, IsSoundGrammar};
ghost use Rattle.fixpoint.specs.Distances.{AreDistances};
ghost use Rattle.fixpoint.specs.StepRows.{rows_of};
ghost use Rattle.matchfailure.specs.ReportOrder.{first_node, named_id, use_rows as rows_by};
ghost use Rattle.pegnodes.specs.Nodes.{shape_of, shapes_of};

use fixpoint::{chains_from, slices};
use gramcheck::SoundPeg;
use pegnodes::Node;
use ruletable::Memory;
use std::alloc::Global;

// Adds the id of the rule that a node names, if it names one.
fn push_named(row: &mut Vec<usize>, node: &Node) -> Result<(), Memory>
    ensures { OnOk result (row.new.items ≡ row.old.items ++ named_id (shape_of node.now)) }
{
    if let Node::Name(id) = node {
        row.push(*id)?;
    }
    Ok(())
}

// Returns the ids that the nodes from one to another name, the last one included.
fn names_between(
    alloc: Global,
    peg: &SoundPeg,
    first: usize,
    last: usize,
) -> Result<Vec<usize>, Memory>
    requires order { first ≤ last }
    requires within { last < length peg.now.nodes }
    ensures { IfOk result (λ row. row.items
        ≡ flat_map named_id (take (last + 1 - first) (drop first (shapes_of peg.now.nodes)))) }
{
    let mut row = Vec::new(alloc);
    for n in first..last {
        push_named(&mut row, peg.node(n))?;
    }
    push_named(&mut row, peg.node(last))?;
    Ok(row)
}

// Returns the ids that the body of a rule names. Its nodes begin after the body of the rule before.
fn names_of(alloc: Global, peg: &SoundPeg, id: usize) -> Result<Vec<usize>, Memory>
    requires sound { IsSoundGrammar peg.now }
    requires numbered { IsNumbered peg.now }
    requires rule { id < length peg.now.bodies }
    ensures { IfOk result (λ row. (last : ℕ) → slice_get peg.now.bodies id ≡ Some last → row.items ≡ flat_map named_id
        (take (last + 1 - first_node peg.now.bodies id) (drop (first_node peg.now.bodies id)
        (shapes_of peg.now.nodes)))) }
{
    let last = peg.body_node(id);
    if id == 0 {
        return names_between(alloc, peg, 0, last);
    }
    let first = peg.body_node(id - 1) + 1;
    names_between(alloc, peg, first, last)
}

// Returns of each rule the ids of those that its body names.
fn use_rows(alloc: Global, peg: &SoundPeg) -> Result<Vec<Vec<usize>>, Memory>
    requires sound { IsSoundGrammar peg.now }
    requires numbered { IsNumbered peg.now }
    ensures { IfOk result (λ rows. rows_of rows.items ≡ rows_by (shapes_of peg.now.nodes) 0 peg.now.bodies) }
{
    let mut rows = Vec::new(alloc);
    for id in 0..peg.rules().len() {
        rows.push(names_of(alloc, peg, id)?)?;
    }
    Ok(rows)
}

/// Returns of each rule the least number of uses that lead to it from the start rule, if some do.
///
/// # Errors
/// `Memory` if an allocation fails.
pub(crate) fn distances(alloc: Global, peg: &SoundPeg) -> Result<Vec<Option<usize>>, Memory>
    ensures far { IfOk result (λ far. AreDistances (rows_by (shapes_of peg.now.nodes) 0 peg.now.bodies) peg.now.start
        far.items) }
    ensures numbered { IsNumbered peg.now }
{
    let start = peg.start();
    let rows = use_rows(alloc, peg)?;
    let steps = slices(alloc, &rows)?;
    Ok(chains_from(alloc, &steps, start)?.far)
}
