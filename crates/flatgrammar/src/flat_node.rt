//! Numbered nodes.
ghost use Rattle.std.specs.Prelude.{◌≡◌, ◌≢◌, ◌↔◌, ◌+◌, ◌^◌, ◌<◌, ◌≤◌, ℕ, Some, None, IsTrue, IfSome, IfNone};
ghost use Rattle.ruletable.specs.Letters.{small};
ghost use Rattle.flatgrammar.specs.Flat.{Has, Rep, Iterations};
ghost use Rattle.flatgrammar.specs.ClassBounds.{AreCases};
ghost use Rattle.flatgrammar.specs.FlatViews.{set_of, node_of};
ghost use Rattle.flatgrammar.specs.NodeSteps.{begin_count, is_done, is_name_node, callee, call_count, turned, takes};
ghost use Rattle.flatgrammar.specs.NodeSteps.{read_at, IfSomeSet};

/// A set of symbols.
#[derive(Clone, Copy)]
pub enum Set {
    /// This symbol.
    Exactly(u32),
    /// This symbol and its other case.
    EitherCase(u32),
    /// The symbols from `low` to `high`.
    Between { low: u32, high: u32 },
}

/// An element with the numbers of its operands in their place.
#[derive(Drop)]
pub enum Node {
    /// One symbol of each set, in order.
    Letters(Vec<Set>),
    /// All of them, in order.
    Concat(Vec<usize>),
    /// One of them.
    Alt(Vec<usize>),
    /// At least `least` of it, and at most `most` where that is there.
    Rep {
        least: u32,
        most: Option<u32>,
        operand: usize,
    },
    /// At most `most` iterations of it where that is there, each of at least one symbol.
    Iterations {
        most: Option<u32>,
        operand: usize,
    },
    /// It, or nothing.
    Opt(usize),
    /// The rule of that id; the number of rules stands for a rule that is not there.
    Name(usize),
    /// The empty set: it derives no line.
    Nothing,
}

fn small(value: u32) -> u32
    ensures { result ≡ small value }
{
    if 64 < value && value < 91 {
        value + 32
    } else {
        value
    }
}

/// Returns the other case of a letter, or else the value itself.
pub(crate) fn other_case(value: u32) -> u32
    ensures cases { AreCases value result }
    ensures same { small result ≡ small value }
{
    if 64 < value && value < 91 {
        value + 32
    } else if 96 < value && value < 123 {
        value - 32
    } else {
        value
    }
}

// Returns whether a set holds a symbol.
fn has(set: &Set, value: u32) -> bool
    ensures { IsTrue result ↔ Has (set_of set.now) value }
{
    match set {
        Set::Exactly(v) => value == *v,
        Set::EitherCase(v) => small(value) == small(*v),
        Set::Between { low, high } => *low <= value && value <= *high,
    }
}

/// A range of symbols, from `least` to `greatest`. It is empty if the greatest is below the least.
#[derive(Clone, Copy)]
pub struct Ends {
    pub least: u32,
    pub greatest: u32,
}

// Returns ends between which the symbols of a set are.
fn ends_of_set(set: &Set) -> Ends
    ensures { (c : ℕ) → Has (set_of set.now) c → (result.least ≤ c) × (c ≤ result.greatest) }
{
    let (least, greatest) = match set {
        Set::Exactly(v) => (*v, *v),
        Set::EitherCase(v) => (small(*v).saturating_sub(32), small(*v)),
        Set::Between { low, high } => (*low, *high),
    };
    Ends { least, greatest }
}

/// Returns ends between which the symbol that a step reads is too.
pub(crate) fn widened(node: &Node, step: usize, ends: Ends) -> Ends
    ensures wider { (result.least ≤ ends.least) × (ends.greatest ≤ result.greatest) }
    ensures held { (c : ℕ) → IfSomeSet (read_at (node_of node.now) step) c
        → (result.least ≤ c) × (c ≤ result.greatest) }
{
    match node {
        Node::Letters(sets) => match sets.get(step) {
            Some(set) => {
                let of_set = ends_of_set(set);
                Ends {
                    least: ends.least.min(of_set.least),
                    greatest: ends.greatest.max(of_set.greatest),
                }
            }
            None => ends,
        },
        _ => ends,
    }
}

/// Returns the number of steps at which a node begins: those from 0 on.
pub(crate) fn begins(node: &Node) -> usize
    ensures { result ≡ begin_count (node_of node.now) }
{
    match node {
        Node::Letters(_) | Node::Concat(_) | Node::Rep { .. } | Node::Iterations { .. } => 1,
        Node::Alt(members) => members.len(),
        Node::Opt(_) => 2,
        Node::Name(_) | Node::Nothing => 0,
    }
}

// The operand and the step after an iteration, if there is an iteration at that step. Without a greatest number the
// iterations after the least are not counted.
#[inline(always)]
fn iteration(least: u32, most: Option<u32>, operand: usize, step: usize) -> Option<(usize, usize)>
    ensures rep { result ≡ callee (Rep least most operand) step }
    ensures iterations { least ≡ 0 → result ≡ callee (Iterations most operand) step }
{
    let top = match most {
        None => least,
        Some(most) => most,
    };
    if step < top as usize {
        Some((operand, step + 1))
    } else if step == top as usize && most.is_none() {
        Some((operand, step))
    } else {
        None
    }
}

// Returns whether a repetition is done at a step.
#[inline(always)]
fn is_enough(least: u32, most: Option<u32>, step: usize) -> bool
    ensures rep { (operand : ℕ) → result ≡ is_done (Rep least most operand) step }
    ensures iterations { (operand : ℕ) → least ≡ 0 → result ≡ is_done (Iterations most operand) step }
{
    match most {
        None => step == least as usize,
        Some(most) => least as usize <= step && step <= most as usize,
    }
}

/// The actions of a node at a step.
#[derive(Clone, Copy)]
pub(crate) struct NodeOperation {
    /// The node that it calls, and the step after the call.
    pub(crate) called: Option<(usize, usize)>,
    /// Whether the node is complete there.
    pub(crate) done: bool,
}

/// Returns the actions of a node at a step.
#[inline(always)]
pub(crate) fn node_operation(node: &Node, step: usize) -> NodeOperation
    ensures called { result.called ≡ callee (node_of node.now) step }
    ensures done { result.done ≡ is_done (node_of node.now) step }
{
    match node {
        Node::Letters(sets) => NodeOperation {
            called: None,
            done: step == sets.len(),
        },
        Node::Concat(members) => NodeOperation {
            called: if step < members.len() {
                Some((members[step], step + 1))
            } else {
                None
            },
            done: step == members.len(),
        },
        Node::Alt(members) => NodeOperation {
            called: if step < members.len() {
                Some((members[step], members.len() + step))
            } else {
                None
            },
            done: members.len() <= step && step - members.len() < members.len(),
        },
        Node::Rep {
            least,
            most,
            operand,
        } => NodeOperation {
            called: iteration(*least, *most, *operand, step),
            done: is_enough(*least, *most, step),
        },
        Node::Iterations { most, operand } => NodeOperation {
            called: iteration(0, *most, *operand, step),
            done: is_enough(0, *most, step),
        },
        Node::Opt(operand) => NodeOperation {
            called: if step == 0 { Some((*operand, 2)) } else { None },
            done: step == 1 || step == 2,
        },
        Node::Name(_) | Node::Nothing => NodeOperation {
            called: None,
            done: false,
        },
    }
}

/// Returns the node that a step calls, and the step after it.
#[inline(always)]
pub(crate) fn callee(node: &Node, step: usize) -> Option<(usize, usize)>
    ensures { result ≡ callee (node_of node.now) step }
{
    node_operation(node, step).called
}

/// Returns whether a node is a name.
pub(crate) fn is_name(node: &Node) -> bool
    ensures { result ≡ is_name_node (node_of node.now) }
{
    match node {
        Node::Name(_) => true,
        _ => false,
    }
}

/// Returns how many first steps of a node may call something, its iterations left out.
pub(crate) fn call_count(node: &Node) -> usize
    ensures { result ≡ call_count (node_of node.now) }
{
    match node {
        Node::Concat(members) | Node::Alt(members) => members.len(),
        Node::Opt(_) => 1,
        _ => 0,
    }
}

/// Returns the operand that a node repeats.
pub(crate) fn turned(node: &Node) -> Option<usize>
    ensures { result ≡ turned (node_of node.now) }
{
    match node {
        Node::Rep { operand, .. } | Node::Iterations { operand, .. } => Some(*operand),
        _ => None,
    }
}

/// Returns whether each iteration of a node takes a symbol.
#[inline(always)]
pub(crate) fn takes(node: &Node) -> bool
    ensures { result ≡ takes (node_of node.now) }
{
    match node {
        Node::Iterations { .. } => true,
        _ => false,
    }
}

/// Returns the set of which a step reads a symbol; `None` if it reads none.
pub(crate) fn set_at(node: &Node, step: usize) -> Option<&Set>
    ensures some { IfSome result (λ set. read_at (node_of node.now) step ≡ Some (set_of set.now)) }
    ensures none { IfNone result (read_at (node_of node.now) step ≡ None) }
{
    match node {
        Node::Letters(sets) => sets.get(step),
        _ => None,
    }
}

/// Returns whether a step may read a symbol.
#[inline(always)]
pub(crate) fn may_read(node: &Node, step: usize) -> bool
    ensures { IsTrue result ↔ (read_at (node_of node.now) step ≢ None) }
{
    match node {
        Node::Letters(sets) => step < sets.len(),
        _ => false,
    }
}

/// Returns whether a step reads a symbol.
pub(crate) fn reads(node: &Node, step: usize, value: u32) -> bool
    ensures value { IsTrue result ↔ IfSomeSet (read_at (node_of node.now) step) value }
    ensures fits { IsTrue result → step + 1 < 2 ^ 64 }
{
    match node {
        Node::Letters(sets) => step < sets.len() && has(&sets[step], value),
        _ => false,
    }
}
