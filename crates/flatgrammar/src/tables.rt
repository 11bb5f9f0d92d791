//! The tables of a lowered grammar, by node.
ghost use Rattle.std.specs.Prelude.{◌≡◌, ◌≢◌, ◌↔◌, ◌+◌, ◌^◌, ◌<◌, Some, None, IsTrue};
ghost use Rattle.flatgrammar.specs.NodeSteps.{IfSomeSet};
ghost use Rattle.flatgrammar.specs.TableViews.{call_of, callee_of, done_of, name_of, null_of, takes_of, read_of};
ghost use Rattle.flatgrammar.specs.TableViews.{rooted, start_target};
ghost use Rattle.flatgrammar.specs.CalledParts.{IsPartOf};
ghost use Rattle.flatgrammar.specs.declared.closure.DottedRule.{DottedRule as the_dot};
ghost use Rattle.flatgrammar.specs.ItemClosures.{closure_of, inlined_of, lists_of, readers_of as the_readers_of};

use crate::closure::{DottedRule, ItemClosure};
use crate::dot_list::{Ask, DotList};
use crate::flat_item::Item;
use crate::flat_node;
use crate::flat_node::{Node, callee, may_read, node_operation, takes};
use crate::inlined::{Inlined, inlined_at};

/// A lowered grammar, with all that judging looks up by node.
///
/// `nodes`, `bodies`, `start` and `limit` are the grammar. The other vectors have an entry for each node and follow
/// from it.
#[derive(Drop)]
pub struct Tables {
    /// The nodes, by number.
    pub nodes: Vec<Node>,
    /// Of each rule the node of its body.
    pub bodies: Vec<usize>,
    /// Of each node its target: the node where it starts and ends. A name's target is that of its rule's body.
    pub targets: Vec<Option<usize>>,
    /// Of each node whether it derives the empty line.
    pub nulls: Vec<bool>,
    /// Of each inlined node its only call site.
    pub inlines: Vec<Option<Inlined>>,
    /// Of each node the closure of its prediction; empty for an inlined node.
    pub closures: Vec<ItemClosure>,
    /// Of each closure the dotted rules that call or read.
    pub lists: Vec<DotList>,
    /// The node of the augmented start.
    pub start: usize,
    /// The most symbols of a line.
    pub limit: usize,
}

// Returns the target of a called node, and the step after it.
#[inline(always)]
fn rooted(flat: &Tables, called: Option<(usize, usize)>) -> Option<(usize, usize)>
    ensures { result ≡ rooted flat.now.targets.items called }
{
    let (node, next) = called?;
    match flat.targets.get(node) {
        Some(Some(found)) => Some((*found, next)),
        _ => None,
    }
}

/// Returns the target that an item's dotted rule calls, and the step after it.
#[inline(always)]
pub fn call(flat: &Tables, item: Item) -> Option<(usize, usize)>
    ensures { result ≡ call_of flat.now item }
{
    let node = flat.nodes.get(item.node)?;
    rooted(flat, callee(node, item.step))
}

/// Returns the node that an item's dotted rule calls, and the step after it. Where a name is called, that is the node
/// of the name.
pub fn called_node(flat: &Tables, item: Item) -> Option<(usize, usize)>
    ensures { result ≡ callee_of flat.now item }
{
    match flat.nodes.get(item.node) {
        None => None,
        Some(node) => callee(node, item.step),
    }
}

/// Returns whether a node is a name.
pub fn is_name(flat: &Tables, node: usize) -> bool
    ensures { result ≡ name_of flat.now node }
{
    match flat.nodes.get(node) {
        None => false,
        Some(node) => flat_node::is_name(node),
    }
}

/// Returns the part of a dotted rule: the terminal that it reads, with the step there, or the name that it calls, at
/// step 0.
pub fn part_of(flat: &Tables, dot: DottedRule) -> Option<DottedRule>
    ensures { (s : the_dot) → (result ≡ Some s) ↔ IsPartOf flat.now dot.node dot.step s }
{
    let item = Item {
        node: dot.node,
        step: dot.step,
        origin: 0,
    };
    if operation_of(flat, item).reads {
        return Some(dot);
    }
    let Some((node, _next)) = called_node(flat, item) else {
        return None;
    };
    if is_name(flat, node) {
        Some(DottedRule { node, step: 0 })
    } else {
        None
    }
}

/// Returns whether what an item's dotted rule calls has to take a symbol.
pub fn takes_letter(flat: &Tables, item: Item) -> bool
    ensures { result ≡ takes_of flat.now item }
{
    match flat.nodes.get(item.node) {
        None => false,
        Some(node) => takes(node),
    }
}

/// The actions of an item's dotted rule.
#[derive(Clone, Copy)]
pub struct Operation {
    /// The target that it calls, and the step after the call.
    pub called: Option<(usize, usize)>,
    /// Whether its node is complete there.
    pub done: bool,
    /// Whether what it calls has to take a symbol.
    pub takes: bool,
    /// Whether it may read a symbol.
    pub reads: bool,
}

/// Returns the actions of an item's dotted rule. It looks the node up once.
#[inline(always)]
pub fn operation_of(flat: &Tables, item: Item) -> Operation
    ensures called { result.called ≡ call_of flat.now item }
    ensures done { result.done ≡ done_of flat.now item }
    ensures takes { result.takes ≡ takes_of flat.now item }
    ensures reads { IsTrue result.reads ↔ (read_of flat.now item ≢ None) }
{
    match flat.nodes.get(item.node) {
        None => Operation {
            called: None,
            done: false,
            takes: false,
            reads: false,
        },
        Some(node) => {
            let operation = node_operation(node, item.step);
            Operation {
                called: rooted(flat, operation.called),
                done: operation.done,
                takes: takes(node),
                reads: may_read(node, item.step),
            }
        }
    }
}

/// Returns whether a target is nullable.
pub fn null(flat: &Tables, target: usize) -> bool
    ensures { result ≡ null_of flat.now target }
{
    match flat.nulls.get(target) {
        Some(yes) => *yes,
        None => false,
    }
}

/// Returns the dotted rules of a target's closure.
pub fn dots(flat: &Tables, prediction: usize) -> &[DottedRule]
    ensures { result.now ≡ (closure_of flat.now prediction).dots }
{
    match flat.closures.get(prediction) {
        Some(closure) => &closure.dots,
        None => &[],
    }
}

/// Returns of the dotted rules of a target's closure at least those that call a target with a closure of its own, with
/// what they ask for.
pub fn asks(flat: &Tables, prediction: usize) -> &[Ask]
    ensures { result.now ≡ (lists_of flat.now prediction).asks }
{
    match flat.lists.get(prediction) {
        Some(list) => &list.asks,
        None => &[],
    }
}

/// Returns of the dotted rules of a target's closure at least those that read a symbol.
pub fn readers(flat: &Tables, prediction: usize, value: u32) -> &[DottedRule]
    ensures { result.now ≡ the_readers_of flat.now prediction value }
{
    let Some(list) = flat.lists.get(prediction) else {
        return &[];
    };
    if value < list.ends.least || list.ends.greatest < value {
        return &[];
    }
    match list.by_letter.get(value as usize) {
        Some(readers) => readers,
        None => &list.readers,
    }
}

/// Returns the targets with closures of their own that the dotted rules of a target's closure call.
pub fn calls(flat: &Tables, prediction: usize) -> &[usize]
    ensures { result.now ≡ (closure_of flat.now prediction).calls }
{
    match flat.closures.get(prediction) {
        Some(closure) => &closure.calls,
        None => &[],
    }
}

/// Returns the dotted rules after the nullable calls of a target's closure.
pub fn passes(flat: &Tables, prediction: usize) -> &[DottedRule]
    ensures { result.now ≡ (closure_of flat.now prediction).passes }
{
    match flat.closures.get(prediction) {
        Some(closure) => &closure.passes,
        None => &[],
    }
}

/// Returns the only call site of a target, if the target is inlined.
pub fn sole_caller(flat: &Tables, target: usize) -> Option<Inlined>
    ensures { result ≡ inlined_of flat.now target }
{
    inlined_at(&flat.inlines, target)
}

/// Returns the target of the augmented start.
pub fn start_target(flat: &Tables) -> Option<usize>
    ensures { result ≡ start_target flat.now }
{
    match flat.targets.get(flat.start) {
        None => None,
        Some(target) => *target,
    }
}

/// Returns whether an item's dotted rule reads a symbol.
pub fn reads(flat: &Tables, item: Item, value: u32) -> bool
    ensures value { IsTrue result ↔ IfSomeSet (read_of flat.now item) value }
    ensures fits { IsTrue result → item.step + 1 < 2 ^ 64 }
{
    match flat.nodes.get(item.node) {
        None => false,
        Some(node) => flat_node::reads(node, item.step, value),
    }
}
