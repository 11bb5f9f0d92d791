//! The dotted rules of a flat grammar, numbered, with their actions.
ghost use Rattle.std.specs.Prelude.{◌≡◌, ◌+◌, ℕ, List, Some, IfOk, IfSome, IsTrue, slice_get};
ghost use Rattle.flatgrammar.specs.ItemClosures.{dot, item_at, call_at};
ghost use Rattle.flatgrammar.specs.Positions.{AreDifferent};
ghost use Rattle.flatgrammar.specs.TableViews.{takes_of, start_target};
ghost use Rattle.earley.specs.DotTables.{AreBelow, IsStep, IsReadAt, IsCalledAt, AreSteps, AreStarts, AreCallsTo};
ghost use Rattle.earley.specs.DotTables.{AreCallsBelow, AreStartsIf, IsReached, AreCallsReached};
ghost use Rattle.earley.specs.declared.dot_table.Called.{Called as code_called};
ghost use Rattle.earley.specs.declared.dot_table.DottedActions.{DottedActions as code_step};
ghost use Rattle.earley.specs.DotTables.{AreTargetPositions, IsDotTable};

use flatgrammar::{
    DottedRule, Item, Node, Operation, Tables, begin_steps, null, operation_of, start_target,
};
use ruletable::Memory;
use std::alloc::Global;
use std::rc::Rc;

// A grammar of more dotted rules has no table.
const MOST_POSITIONS: usize = 4096;

/// The call of a dotted rule.
#[derive(Clone, Copy)]
pub(crate) struct Called {
    /// The target that it calls.
    pub(crate) target: usize,
    /// The number of the dotted rule after the call.
    pub(crate) after: usize,
    /// Whether the call may take no symbol.
    pub(crate) free: bool,
}

/// The actions of a dotted rule.
#[derive(Clone, Copy)]
pub(crate) struct DottedActions {
    /// The target that it calls, with the dotted rule after the call.
    pub(crate) called: Option<Called>,
    /// Whether its node is complete there.
    pub(crate) done: bool,
    /// The number of the dotted rule after the symbol that it reads.
    pub(crate) read: Option<usize>,
}

/// A call site of a target, by the numbers of dotted rules.
#[derive(Clone, Copy)]
pub(crate) struct Call {
    /// The dotted rule that calls.
    pub(crate) from: usize,
    /// The dotted rule after the call.
    pub(crate) after: usize,
}

/// The dotted rules at which a target starts, and those that call it.
#[derive(Drop)]
pub(crate) struct TargetPositions {
    /// Whether the augmented start reaches the target by calls. If not, it has no starts.
    pub(crate) reached: bool,
    /// The numbers of the dotted rules at which the target starts.
    pub(crate) starts: Vec<usize>,
    /// The call sites of the target.
    pub(crate) calls: Vec<Call>,
}

/// A grammar with its dotted rules by number, so that a set can have a row for each.
///
/// Only the nodes that the augmented start reaches by calls have numbered dotted rules, so rows of others take no
/// memory. A grammar with more than 4,096 of them has no table.
#[derive(Drop)]
pub(crate) struct DotTable {
    /// The grammar.
    pub(crate) flat: Rc<Tables>,
    /// The dotted rules, by number.
    pub(crate) dots: Vec<DottedRule>,
    /// The actions of each dotted rule, by number.
    pub(crate) steps: Vec<DottedActions>,
    /// Of each node, as a target, where it starts and its call sites.
    pub(crate) targets: Vec<TargetPositions>,
}

/// The numbers of dotted rules. Those of one node are consecutive.
#[derive(Drop)]
struct Numbers {
    /// The dotted rules, by number.
    dots: Vec<DottedRule>,
    /// Of each node the number of its first dotted rule.
    firsts: Vec<usize>,
}

// Returns how many dotted rules a node has.
fn width(node: &Node) -> usize {
    match node {
        Node::Letters(sets) => sets.len().saturating_add(1),
        Node::Concat(members) => members.len().saturating_add(1),
        Node::Alt(members) => members.len().saturating_mul(2),
        Node::Rep { least, most, .. } => match most {
            None => (*least as usize).saturating_add(1),
            Some(most) => (*most as usize).saturating_add(1),
        },
        Node::Iterations { most, .. } => match most {
            None => 1,
            Some(most) => (*most as usize).saturating_add(1),
        },
        Node::Opt(_) => 3,
        Node::Name(_) | Node::Nothing => 0,
    }
}

// Marks a target, and keeps it to be looked at, unless it is marked.
fn mark(target: usize, marks: &mut [bool], waiting: &mut Vec<usize>) -> Result<(), Memory> {
    if target < marks.len() && !marks[target] {
        marks[target] = true;
        waiting.push(target)?;
    }
    Ok(())
}

// Marks what the dotted rules of a node call.
fn mark_called(
    flat: &Tables,
    node: usize,
    marks: &mut [bool],
    waiting: &mut Vec<usize>,
) -> Result<(), Memory> {
    let Some(found) = flat.nodes.get(node) else {
        return Ok(());
    };
    for step in 0..width(found).min(MOST_POSITIONS) {
        let item = Item {
            node,
            step,
            origin: 0,
        };
        match operation_of(flat, item).called {
            Some((target, _next)) => mark(target, marks, waiting)?,
            None => {}
        }
    }
    Ok(())
}

// Marks the nodes that the augmented start can come to by calls. Each is looked at once.
fn reached_nodes(alloc: Global, flat: &Tables) -> Result<Vec<bool>, Memory> {
    let mut marks = Vec::new(alloc);
    marks.resize(flat.nodes.len(), false)?;
    let mut waiting = Vec::new(alloc);
    match start_target(flat) {
        Some(target) => mark(target, &mut marks, &mut waiting)?,
        None => {}
    }
    for _iteration in 0..flat.nodes.len() {
        let Some(node) = waiting.pop() else {
            return Ok(marks);
        };
        mark_called(flat, node, &mut marks, &mut waiting)?;
    }
    Ok(marks)
}

// Returns whether a node is marked.
fn is_marked(marks: &[bool], node: usize) -> bool {
    match marks.get(node) {
        Some(mark) => *mark,
        None => false,
    }
}

// Returns how many dotted rules of a node are to be numbered: all of them, or none.
fn positions_of(node: &Node, reached: bool) -> usize {
    if reached { width(node) } else { 0 }
}

// Numbers the dotted rules of a node.
fn number_node(node: usize, count: usize, dots: &mut Vec<DottedRule>) -> Result<(), Memory>
    requires { AreBelow node dots.old.items }
    ensures { IfOk result (λ done. AreBelow (node + 1) dots.new.items) }
{
    for step in 0..count {
        dots.push(DottedRule { node, step })?;
    }
    Ok(())
}

// Numbers the dotted rules of the nodes that are marked. `None` if they are too many.
fn number_all(alloc: Global, flat: &Tables, marks: &[bool]) -> Result<Option<Numbers>, Memory>
    ensures { IfOk result (λ numbers. IfSome numbers (λ n. AreDifferent n.dots.items)) }
{
    let mut dots = Vec::new(alloc);
    let mut firsts = Vec::new(alloc);
    for node in 0..flat.nodes.len() {
        let count = positions_of(&flat.nodes[node], is_marked(marks, node));
        if MOST_POSITIONS.saturating_sub(dots.len()) < count {
            return Ok(None);
        }
        firsts.push(dots.len())?;
        number_node(node, count, &mut dots)?;
    }
    Ok(Some(Numbers { dots, firsts }))
}

// Returns the number of a dotted rule, if it has one.
fn number(numbers: &Numbers, node: usize, step: usize) -> Option<usize>
    ensures { IfSome result (λ p. slice_get numbers.now.dots.items p ≡ Some (dot node step)) }
{
    let first = numbers.firsts.get(node)?;
    let position = first.checked_add(step)?;
    let found = numbers.dots.get(position)?;
    if found.node == node && found.step == step {
        Some(position)
    } else {
        None
    }
}

// Returns the call of a dotted rule. `None` if the dotted rule after the call has no number.
fn called_at(
    flat: &Tables,
    numbers: &Numbers,
    at: DottedRule,
    operation: Operation,
) -> Option<Option<Called>>
    requires called { operation.called ≡ call_at flat.now at }
    requires takes { operation.takes ≡ takes_of flat.now (item_at 0 at) }
    ensures { IfSome result (IsCalledAt flat.now numbers.now.dots.items at) }
{
    let Some((target, next)) = operation.called else {
        return Some(None);
    };
    if target >= flat.nodes.len() {
        return None;
    }
    let after = number(numbers, at.node, next)?;
    let free = null(flat, target) && !operation.takes;
    Some(Some(Called {
        target,
        after,
        free,
    }))
}

// Returns the dotted rule after the symbol that a dotted rule reads, if it may read one. `None` if that dotted rule has
// no number.
fn read_at(numbers: &Numbers, at: DottedRule, operation: Operation) -> Option<Option<usize>>
    ensures { IfSome result (IsReadAt numbers.now.dots.items at operation.reads) }
{
    if !operation.reads {
        return Some(None);
    }
    let next = at.step.checked_add(1)?;
    let after = number(numbers, at.node, next)?;
    Some(Some(after))
}

/// Returns the actions of the dotted rule `at`. `None` if its call or its symbol leads to a dotted rule without a
/// number.
fn step_at(flat: &Tables, numbers: &Numbers, at: DottedRule) -> Option<DottedActions>
    ensures { IfSome result (IsStep flat.now numbers.now.dots.items at) }
{
    let item = Item {
        node: at.node,
        step: at.step,
        origin: 0,
    };
    let operation = operation_of(flat, item);
    let called = called_at(flat, numbers, at, operation)?;
    let read = read_at(numbers, at, operation)?;
    Some(DottedActions {
        called,
        done: operation.done,
        read,
    })
}

// Returns the step of each dotted rule. `None` if the dotted rule after one has no number.
fn all_steps(
    alloc: Global,
    flat: &Tables,
    numbers: &Numbers,
) -> Result<Option<Vec<DottedActions>>, Memory>
    ensures { IfOk result (λ steps. IfSome steps (λ s. AreSteps flat.now numbers.now.dots.items s.items)) }
{
    let mut steps = Vec::new(alloc);
    for at in &numbers.dots {
        let Some(step) = step_at(flat, numbers, *at) else {
            return Ok(None);
        };
        steps.push(step)?;
    }
    Ok(Some(steps))
}

// Returns the dotted rules where a target starts. `None` if one has no number.
fn starts_of(
    alloc: Global,
    flat: &Tables,
    numbers: &Numbers,
    target: usize,
) -> Result<Option<Vec<usize>>, Memory>
    ensures { IfOk result (λ starts. IfSome starts (λ s. AreStarts flat.now numbers.now.dots.items target s.items)) }
{
    let mut starts = Vec::new(alloc);
    for step in 0..begin_steps(flat, target) {
        let Some(position) = number(numbers, target, step) else {
            return Ok(None);
        };
        starts.push(position)?;
    }
    Ok(Some(starts))
}

// Returns the dotted rules where a target starts, if the augmented start can come to it. `None` if one has no number.
fn starts_if(
    alloc: Global,
    flat: &Tables,
    numbers: &Numbers,
    target: usize,
    reached: bool,
) -> Result<Option<Vec<usize>>, Memory>
    ensures { IfOk result (λ starts. IfSome starts (λ s. AreStartsIf reached flat.now numbers.now.dots.items target
        s.items)) }
{
    if !reached {
        return Ok(Some(Vec::new(alloc)));
    }
    starts_of(alloc, flat, numbers, target)
}

// Adds the call of a dotted rule, if it calls that target. What the dotted rule does is given.
fn keep_call(
    from: usize,
    step: DottedActions,
    target: usize,
    calls: &mut Vec<Call>,
) -> Result<(), Memory>
    ensures { IfOk result (λ done. (steps : List code_step) → slice_get steps from ≡ Some step
        → AreCallsBelow steps target from calls.old.items → AreCallsBelow steps target (from + 1) calls.new.items) }
{
    match step.called {
        Some(called) if called.target == target => {
            calls.push(Call {
                from,
                after: called.after,
            })?;
            Ok(())
        }
        _ => Ok(()),
    }
}

// Returns the dotted rules that call a target.
fn calls_of(alloc: Global, steps: &[DottedActions], target: usize) -> Result<Vec<Call>, Memory>
    ensures { IfOk result (λ calls. AreCallsTo steps.now target calls.items) }
{
    let mut calls = Vec::new(alloc);
    for from in 0..steps.len() {
        keep_call(from, steps[from], target, &mut calls)?;
    }
    Ok(calls)
}

// Returns of each target where it starts and what calls it. `None` if a dotted rule has no number.
fn all_targets(
    alloc: Global,
    flat: &Tables,
    numbers: &Numbers,
    marks: &[bool],
    steps: &[DottedActions],
) -> Result<Option<Vec<TargetPositions>>, Memory>
    ensures { IfOk result (λ targets. IfSome targets (λ r. AreTargetPositions flat.now numbers.now.dots.items steps.now
        r.items)) }
{
    let mut targets = Vec::new(alloc);
    for target in 0..flat.nodes.len() {
        let reached = is_marked(marks, target);
        let Some(starts) = starts_if(alloc, flat, numbers, target, reached)? else {
            return Ok(None);
        };
        let calls = calls_of(alloc, steps, target)?;
        targets.push(TargetPositions {
            reached,
            starts,
            calls,
        })?;
    }
    Ok(Some(targets))
}

// Returns whether a target is reached.
fn is_target_reached(targets: &[TargetPositions], target: usize) -> bool
    ensures { IsTrue result → IsReached targets.now target }
{
    match targets.get(target) {
        Some(positions) => positions.reached,
        None => true,
    }
}

// Returns whether what a dotted rule calls is reached.
fn is_call_reached(targets: &[TargetPositions], step: DottedActions) -> bool
    ensures { IsTrue result → (c : code_called) → step.called ≡ Some c → IsReached targets.now c.target }
{
    match step.called {
        Some(called) => is_target_reached(targets, called.target),
        None => true,
    }
}

// Returns whether all that dotted rules call is reached.
fn are_calls_reached(targets: &[TargetPositions], steps: &[DottedActions]) -> bool
    ensures { IsTrue result → AreCallsReached targets.now steps.now }
{
    for i in 0..steps.len() {
        if !is_call_reached(targets, steps[i]) {
            return false;
        }
    }
    true
}

// Returns whether the augmented start is reached.
fn is_whole_reached(flat: &Tables, targets: &[TargetPositions]) -> bool
    ensures { IsTrue result → (target : ℕ) → start_target flat.now ≡ Some target → IsReached targets.now target }
{
    match start_target(flat) {
        Some(target) => is_target_reached(targets, target),
        None => true,
    }
}

/// Returns the table of a grammar's dotted rules. `None` if it has too many. `Memory` if an allocation fails.
pub(crate) fn dot_table(alloc: Global, flat: Rc<Tables>) -> Result<Option<DotTable>, Memory>
    ensures same { IfOk result (λ table. IfSome table (λ t. t.flat ≡ flat)) }
    ensures table { IfOk result (λ table. IfSome table IsDotTable) }
{
    let marks = reached_nodes(alloc, &flat)?;
    let Some(numbers) = number_all(alloc, &flat, &marks)? else {
        return Ok(None);
    };
    let Some(steps) = all_steps(alloc, &flat, &numbers)? else {
        return Ok(None);
    };
    let Some(targets) = all_targets(alloc, &flat, &numbers, &marks, &steps)? else {
        return Ok(None);
    };
    if !are_calls_reached(&targets, &steps) || !is_whole_reached(&flat, &targets) {
        return Ok(None);
    }
    Ok(Some(DotTable {
        flat,
        dots: numbers.dots,
        steps,
        targets,
    }))
}
