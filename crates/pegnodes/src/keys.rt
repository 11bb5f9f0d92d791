//! Which nodes, and which tails of sequences, may be asked for twice at a position.
ghost use Rattle.std.specs.Prelude.{◌≡◌, ◌↔◌, ◌<◌, ℕ, true, false, List, length, [], slice_get, get_or};
ghost use Rattle.std.specs.Prelude.{Contains, Some, IfOk};
ghost use Rattle.fixpoint.specs.Demands.{demand_of, demands_of, row_of, One};
ghost use Rattle.fixpoint.specs.NumberMarks.{IsMarked};
ghost use Rattle.pegnodes.specs.KeyLists.{marks_of, node_marks, tail_marks, tails_of};
ghost use Rattle.pegnodes.specs.KeyMarks.{AreMarks, AskedOnce, IsIterated, IsLoop};
ghost use Rattle.pegnodes.specs.KeyNeeds.{IsGoing, GoesOnce, MayBePlain, MayBeLoop, AreKnown, Justifies, AreJustified};
ghost use Rattle.pegnodes.specs.KeyNeeds.{AreSingles, GoesAgain, IsPassed, going_of};
ghost use Rattle.pegnodes.specs.Nodes.{Seq, Star, shape_of, shapes_of};
ghost use Rattle.pegnodes.specs.NodeWays.{way_of};

use crate::namers::{Namer, namer_of, namers};
use crate::node::Node;
use crate::predictive::is_predictive;
use crate::widths::{width_of, widths};
use fixpoint::{Need, least};
use ruletable::Memory;
use std::alloc::Global;
use std::slice::from_ref;

// How a node goes on to others.
#[derive(Clone, Copy)]
enum GoesOn {
    // There is no such node.
    Missing,
    // It goes on to each of them once.
    Once,
    // It goes on to its operand, and then to a repetition.
    Again { operand: usize, star: usize },
}

// Returns how node `n` goes on.
fn step_of(node: &Node, n: usize) -> GoesOn
    ensures { result ≡ going_of (way_of n (shape_of node.now)) }
{
    match node {
        Node::Any
        | Node::Bytes(_)
        | Node::Set(_)
        | Node::Name(_)
        | Node::Seq(_)
        | Node::Choice(_)
        | Node::Opt(_)
        | Node::And(_)
        | Node::Not(_)
        | Node::Act(_)
        | Node::Open
        | Node::Close => GoesOn::Once,
        Node::Star(operand) => GoesOn::Again {
            operand: *operand,
            star: n,
        },
        Node::Plus { operand, star } => GoesOn::Again {
            operand: *operand,
            star: *star,
        },
    }
}

// Returns how the node of that number goes on.
fn goes_on(nodes: &[Node], n: usize) -> GoesOn
    ensures { IsGoing (shapes_of nodes.now) n result }
{
    match nodes.get(n) {
        Some(node) => step_of(node, n),
        None => GoesOn::Missing,
    }
}

// Returns whether a node is a repetition.
fn is_star(nodes: &[Node], m: usize) -> bool
    ensures { (result ≡ true) ↔ ((k : ℕ) × (slice_get (shapes_of nodes.now) m ≡ Some (Star k))) }
{
    matches!(nodes.get(m), Some(Node::Star(_)))
}

// Returns whether a node goes on to each other once.
fn goes_once(nodes: &[Node], n: usize) -> bool
    ensures { result ≡ true → GoesOnce (shapes_of nodes.now) n }
{
    matches!(goes_on(nodes, n), GoesOn::Once)
}

// Returns whether a node is no repetition, and not that with which its namer goes on.
fn may_be_plain(nodes: &[Node], namer: usize, m: usize) -> bool
    ensures { result ≡ true → MayBePlain (shapes_of nodes.now) namer m }
{
    if is_star(nodes, m) {
        return false;
    }
    match goes_on(nodes, namer) {
        GoesOn::Missing => false,
        GoesOn::Once => true,
        GoesOn::Again { operand: _, star } => star != m,
    }
}

// Returns whether a node is a repetition, and not the operand of one with which its namer goes on.
fn may_be_loop(nodes: &[Node], namer: usize, m: usize) -> bool
    ensures { result ≡ true → MayBeLoop (shapes_of nodes.now) namer m }
{
    if !is_star(nodes, m) {
        return false;
    }
    match goes_on(nodes, namer) {
        GoesOn::Missing => false,
        GoesOn::Once => true,
        GoesOn::Again { operand, star: _ } => operand != m,
    }
}

// Returns what a node needs before it is asked for at one position at most: that its only namer is.
fn single_need<'a>(nodes: &[Node], namers: &'a [Namer], root: usize, m: usize) -> Need<'a>
    ensures within { (a : ℕ) → Contains (row_of (demand_of result)) a → a < length nodes.now }
    ensures justified { (start : ℕ) (bodies : List ℕ) → AreKnown start (shapes_of nodes.now) bodies root namers.now
        → Justifies start (shapes_of nodes.now) bodies m (demand_of result) }
{
    match namers.get(m) {
        Some(Namer::Nobody) => {
            if m == root && !is_star(nodes, m) {
                return Need::All(&[]);
            }
        }
        Some(Namer::By(namer)) => {
            if m != root && may_be_plain(nodes, *namer, m) && goes_once(nodes, *namer) {
                return Need::One(from_ref(namer));
            }
        }
        Some(Namer::Both { .. } | Namer::Many) | None => {}
    }
    Need::One(&[])
}

// Returns what each node needs before it is asked for at one position at most.
fn single_needs<'a>(
    alloc: Global,
    nodes: &[Node],
    namers: &'a [Namer],
    root: usize,
) -> Result<Vec<Need<'a>>, Memory>
    ensures count { IfOk result (λ needs. length needs.items ≡ length nodes.now) }
    ensures within { IfOk result (λ needs. (m a : ℕ) → Contains (row_of (get_or (demands_of needs.items) m (One []))) a
        → a < length nodes.now) }
    ensures justified { IfOk result (λ needs. (start : ℕ) (bodies : List ℕ)
        → AreKnown start (shapes_of nodes.now) bodies root namers.now
        → AreJustified start (shapes_of nodes.now) bodies (demands_of needs.items)) }
{
    let mut needs = Vec::with_capacity(alloc, nodes.len())?;
    for m in 0..nodes.len() {
        needs.push(single_need(nodes, namers, root, m))?;
    }
    Ok(needs)
}

// Marks nodes that are asked for at one position at most.
fn singles(
    alloc: Global,
    nodes: &[Node],
    namers: &[Namer],
    root: usize,
) -> Result<Vec<bool>, Memory>
    ensures { IfOk result (λ singles. (start : ℕ) (bodies : List ℕ)
        → AreKnown start (shapes_of nodes.now) bodies root namers.now
        → AreSingles start (shapes_of nodes.now) bodies singles.items) }
{
    let needs = single_needs(alloc, nodes, namers, root)?;
    Ok(least(alloc, &needs)?)
}

// Returns a node's mark, or the other one where it has none.
pub fn mark_or(marks: &[bool], m: usize, other: bool) -> bool
    ensures { result ≡ get_or marks.now m other }
{
    match marks.get(m) {
        Some(mark) => *mark,
        None => other,
    }
}

// Returns whether a node is a repetition that one node enters, which is asked for at one position at most.
fn is_loop(nodes: &[Node], namers: &[Namer], singles: &[bool], root: usize, m: usize) -> bool
    ensures { (start : ℕ) (bodies : List ℕ) → AreKnown start (shapes_of nodes.now) bodies root namers.now
        → AreSingles start (shapes_of nodes.now) bodies singles.now → result ≡ true →
        IsLoop start (shapes_of nodes.now) bodies m }
{
    let Namer::By(entry) = namer_of(namers, m) else {
        return false;
    };
    if m == root {
        return false;
    }
    may_be_loop(nodes, entry, m) && mark_or(singles, entry, false)
}

// Returns whether a node goes on with an operand, and then with a repetition.
fn goes_again(nodes: &[Node], n: usize, m: usize, repetition: usize) -> bool
    ensures { result ≡ true → GoesAgain (shapes_of nodes.now) n m repetition }
{
    match goes_on(nodes, n) {
        GoesOn::Missing => false,
        GoesOn::Once => false,
        GoesOn::Again { operand, star } => operand == m && star == repetition,
    }
}

// Returns whether a node is the operand of a repetition of one or more, and of the repetition with which that goes on.
// Only these name it, and the first one is asked for at one position at most.
fn is_iterated(nodes: &[Node], namers: &[Namer], singles: &[bool], root: usize, m: usize) -> bool
    ensures { (start : ℕ) (bodies : List ℕ) → AreKnown start (shapes_of nodes.now) bodies root namers.now
        → AreSingles start (shapes_of nodes.now) bodies singles.now → result ≡ true →
        IsIterated start (shapes_of nodes.now) bodies m }
{
    let Namer::Both { first, second } = namer_of(namers, m) else {
        return false;
    };
    if m == root {
        return false;
    }
    if first == second {
        return false;
    }
    if is_star(nodes, m) {
        return false;
    }
    goes_again(nodes, second, m, first) && is_loop(nodes, namers, singles, root, first)
}

// Returns whether one evaluation asks for a node at each position.
fn is_asked_once(nodes: &[Node], namers: &[Namer], singles: &[bool], root: usize, m: usize) -> bool
    ensures { (start : ℕ) (bodies : List ℕ) → AreKnown start (shapes_of nodes.now) bodies root namers.now
        → AreSingles start (shapes_of nodes.now) bodies singles.now → result ≡ true →
        AskedOnce start (shapes_of nodes.now) bodies m }
{
    if is_loop(nodes, namers, singles, root, m) {
        return true;
    }
    if is_iterated(nodes, namers, singles, root, m) {
        return true;
    }
    let Namer::By(namer) = namer_of(namers, m) else {
        return false;
    };
    if m == root {
        return false;
    }
    may_be_plain(nodes, namer, m)
}

// Marks the nodes that are keys.
fn node_keys(
    alloc: Global,
    nodes: &[Node],
    namers: &[Namer],
    singles: &[bool],
    root: usize,
) -> Result<Vec<bool>, Memory>
    ensures { IfOk result (λ keys. (start : ℕ) (bodies : List ℕ)
        → AreKnown start (shapes_of nodes.now) bodies root namers.now
        → AreSingles start (shapes_of nodes.now) bodies singles.now → (m : ℕ) → get_or keys.items m true ≡ false →
        AskedOnce start (shapes_of nodes.now) bodies m) }
{
    let mut keys = Vec::with_capacity(alloc, nodes.len())?;
    for m in 0..nodes.len() {
        keys.push(!is_asked_once(nodes, namers, singles, root, m))?;
    }
    Ok(keys)
}

// Returns whether the tail after a member of a sequence is a key: unless the member's width is known, or its only namer
// is asked for at one position at most.
fn is_key_after(namers: &[Namer], singles: &[bool], widths: &[Option<usize>], m: usize) -> bool
    ensures { result ≡ false → IsPassed namers.now singles.now widths.now m }
{
    if let Some(_) = width_of(widths, m) {
        return false;
    }
    match namer_of(namers, m) {
        Namer::By(namer) => !mark_or(singles, namer, false),
        Namer::Nobody | Namer::Both { .. } | Namer::Many => true,
    }
}

// Marks the members after which tails are keys.
fn after_keys(
    alloc: Global,
    namers: &[Namer],
    singles: &[bool],
    widths: &[Option<usize>],
) -> Result<Vec<bool>, Memory>
    ensures { IfOk result (λ after. (m : ℕ) → get_or after.items m true ≡ false
        → IsPassed namers.now singles.now widths.now m) }
{
    let mut after = Vec::with_capacity(alloc, namers.len())?;
    for m in 0..namers.len() {
        after.push(is_key_after(namers, singles, widths, m))?;
    }
    Ok(after)
}

/// Which nodes are keys, and after which nodes the tails of sequences are.
#[derive(Drop)]
pub struct Keys {
    /// Of each node whether it is a key.
    pub nodes: Vec<bool>,
    /// Of each node whether the tail of a sequence after it is a key.
    pub after: Vec<bool>,
}

/// Returns whether the tail of a sequence of these members from the i-th on is a key, given after which members it is.
pub(crate) fn is_key_of_members(members: &[usize], after: &[bool], i: usize) -> bool
    ensures { result ≡ get_or (tails_of after.now (Seq members.now)) i false }
{
    if i == 0 {
        return false;
    }
    match members.get(i - 1) {
        Some(member) => mark_or(after, *member, true),
        None => false,
    }
}

/// Returns whether the tail of a node from member `i` on is a key, given after which members it is.
pub fn is_key_from(node: &Node, after: &[bool], i: usize) -> bool
    ensures { result ≡ get_or (tails_of after.now (shape_of node.now)) i false }
{
    match node {
        Node::Seq(members) => is_key_of_members(members, after, i),
        Node::Any
        | Node::Bytes(_)
        | Node::Set(_)
        | Node::Name(_)
        | Node::Choice(_)
        | Node::Star(_)
        | Node::Plus { .. }
        | Node::Opt(_)
        | Node::And(_)
        | Node::Not(_)
        | Node::Act(_)
        | Node::Open
        | Node::Close => false,
    }
}

// Finds the keys by the namers of nodes.
fn keys_by_namers(
    alloc: Global,
    nodes: &[Node],
    bodies: &[usize],
    start: usize,
) -> Result<Keys, Memory>
    requires { start < length bodies.now }
    ensures { IfOk result (λ keys. AreMarks start (shapes_of nodes.now) bodies.now
        (node_marks (marks_of (shapes_of nodes.now) keys.nodes.items keys.after.items))
        (tail_marks (marks_of (shapes_of nodes.now) keys.nodes.items keys.after.items))) }
{
    let root = bodies[start];
    let namers = namers(alloc, nodes, bodies)?;
    let widths = widths(alloc, nodes, bodies)?;
    let singles = singles(alloc, nodes, &namers, root)?;
    let keys = node_keys(alloc, nodes, &namers, &singles, root)?;
    let after = after_keys(alloc, &namers, &singles, &widths)?;
    Ok(Keys { nodes: keys, after })
}

// Returns marks of so many nodes, of which this one alone is a key.
fn root_alone(alloc: Global, count: usize, root: usize) -> Result<Keys, Memory>
    ensures { IfOk result (λ keys. get_or keys.nodes.items root true ≡ true) }
{
    let mut keys = Vec::new(alloc);
    keys.resize(count, false)?;
    let mut after = Vec::new(alloc);
    after.resize(count, false)?;
    if root < count {
        keys[root] = true;
    }
    Ok(Keys { nodes: keys, after })
}

/// Finds the keys of a grammar.
///
/// Where each byte says which way to go, as it does in LL(1) grammars, the start rule's body alone is a key.
///
/// Elsewhere a node is no key if one node alone names it, once: it is asked for twice at a position only if that node
/// is. The operand of a `+` that is asked for at one position at most is none. A tail of a sequence is no key after a
/// member of a known width, since the position of the tail gives that of the sequence. Nor is it one in a sequence that
/// is asked for at one position at most.
///
/// # Errors
/// `Memory` if an allocation fails.
pub fn find_keys(
    alloc: Global,
    nodes: &[Node],
    bodies: &[usize],
    start: usize,
) -> Result<Keys, Memory>
    requires { start < length bodies.now }
    ensures { IfOk result (λ keys. AreMarks start (shapes_of nodes.now) bodies.now
        (node_marks (marks_of (shapes_of nodes.now) keys.nodes.items keys.after.items))
        (tail_marks (marks_of (shapes_of nodes.now) keys.nodes.items keys.after.items))) }
{
    if is_predictive(alloc, nodes, bodies)? {
        return root_alone(alloc, nodes.len(), bodies[start]);
    }
    keys_by_namers(alloc, nodes, bodies, start)
}
