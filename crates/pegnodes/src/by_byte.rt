//! Nodes whose outcome at a position is decided by the byte there alone.
ghost use Rattle.std.specs.Prelude.{◌≡◌, ℕ, ◌+◌, Bool, List, IfSome, slice_get, Some, get_or, true, false};
ghost use Rattle.pegnodes.specs.ByByte.{ByByte};
ghost use Rattle.pegnodes.specs.Decides.{Decides, DecidesBelow, DecidesShape, DecidesMembers, DecidesAlternatives};
ghost use Rattle.pegnodes.specs.Decides.{IsEvent};
ghost use Rattle.pegnodes.specs.Nodes.{Shape, Bytes, Set, Name, Seq, Choice, Star, Plus, Opt, And, Not};
ghost use Rattle.pegnodes.specs.Nodes.{shape_of, shapes_of};
ghost use Rattle.pegnodes.specs.declared.by_byte.MarkedNodes.{MarkedNodes};
ghost use Rattle.pegnodes.specs.declared.by_byte.ByteVerdict.{ByteVerdict};

use crate::keys::{is_key_of_members, mark_or};
use crate::node::Node;
use ruletable::ByteSet;

/// Says what a node does at a position, where the byte there alone decides it.
#[derive(Clone, Copy)]
pub enum ByteVerdict {
    /// Takes the byte.
    Takes,
    /// Succeeds and takes nothing.
    Stays,
    /// Fails.
    Fails,
}

/// The outcome of a node that one byte decides.
#[derive(Clone, Copy)]
pub struct Decided {
    /// The outcome.
    pub verdict: ByteVerdict,
    /// How many evaluations of a node and a position its evaluation visits.
    pub count: u16,
}

/// Numbered nodes with marks of the keys. A node without a mark is a key.
#[derive(Clone, Copy)]
pub struct MarkedNodes<'a> {
    /// The nodes, by number.
    pub nodes: &'a [Node],
    /// Of each rule the node of its body.
    pub bodies: &'a [usize],
    /// Of each node whether it is a key.
    pub keys: &'a [bool],
    /// Of each node whether the tail of a sequence after it is a key.
    pub after: &'a [bool],
}

// How deep a node is looked into.
const MOST_LEVELS: usize = 40;

// How many evaluations are evaluated at most where a byte decides. So what a byte decides of a choice of very many
// alternatives is soon found, or left open.
const MOST_EVALS: u16 = 1000;

/// Returns the node of that number.
pub(crate) fn node_at(nodes: &[Node], n: usize) -> Option<&Node>
    ensures { IfSome result (λ node. slice_get (shapes_of nodes.now) n ≡ Some (shape_of node.now)) }
{
    nodes.get(n)
}

// Returns the node of the body of the rule of that id.
fn body_at(bodies: &[usize], id: usize) -> Option<usize>
    ensures { IfSome result (λ m. slice_get bodies.now id ≡ Some m) }
{
    let body = bodies.get(id)?;
    Some(*body)
}

// Returns a verdict with the sum of two numbers, if that is not too great.
pub(crate) fn summed(verdict: ByteVerdict, count: u16, more: u16) -> Option<Decided>
    ensures { IfSome result (λ d. (d.verdict ≡ verdict) × (d.count ≡ count + more)) }
{
    let count = count.checked_add(more)?;
    if count > MOST_EVALS {
        return None;
    }
    Some(Decided { verdict, count })
}

// Returns what a byte decides of a class.
fn by_set(set: &ByteSet, b: u8) -> Decided
    ensures { (g : MarkedNodes) (n : ℕ) → DecidesShape g b n (Set (λ c. get_or set.now c false)) result }
{
    let verdict = if set.has(b) {
        ByteVerdict::Takes
    } else {
        ByteVerdict::Fails
    };
    Decided { verdict, count: 1 }
}

// Returns what a byte decides of a literal.
fn by_bytes(bytes: &[u8], b: u8) -> Option<Decided>
    ensures { IfSome result (λ d. (g : MarkedNodes) (n : ℕ) → DecidesShape g b n (Bytes bytes.now) d) }
{
    let verdict = match bytes.first() {
        None => ByteVerdict::Stays,
        Some(first) => {
            if *first != b {
                ByteVerdict::Fails
            } else if bytes.len() == 1 {
                ByteVerdict::Takes
            } else {
                return None;
            }
        }
    };
    Some(Decided { verdict, count: 1 })
}

// Returns what a byte decides of an option, from what it decides of the operand.
fn over_opt(operand: Decided) -> Option<Decided>
    ensures { IfSome result (λ d. (g : MarkedNodes) (b n m : ℕ) → DecidesBelow g b m operand →
        DecidesShape g b n (Opt m) d) }
{
    let verdict = match operand.verdict {
        ByteVerdict::Takes => ByteVerdict::Takes,
        ByteVerdict::Stays => ByteVerdict::Stays,
        ByteVerdict::Fails => ByteVerdict::Stays,
    };
    summed(verdict, 1, operand.count)
}

// Likewise of a look ahead.
fn over_and(operand: Decided) -> Option<Decided>
    ensures { IfSome result (λ d. (g : MarkedNodes) (b n m : ℕ) → DecidesBelow g b m operand →
        DecidesShape g b n (And m) d) }
{
    let verdict = match operand.verdict {
        ByteVerdict::Takes => ByteVerdict::Stays,
        ByteVerdict::Stays => ByteVerdict::Stays,
        ByteVerdict::Fails => ByteVerdict::Fails,
    };
    summed(verdict, 1, operand.count)
}

// Likewise of a look ahead for a failure.
fn over_not(operand: Decided) -> Option<Decided>
    ensures { IfSome result (λ d. (g : MarkedNodes) (b n m : ℕ) → DecidesBelow g b m operand →
        DecidesShape g b n (Not m) d) }
{
    let verdict = match operand.verdict {
        ByteVerdict::Takes => ByteVerdict::Fails,
        ByteVerdict::Stays => ByteVerdict::Fails,
        ByteVerdict::Fails => ByteVerdict::Stays,
    };
    summed(verdict, 1, operand.count)
}

// Likewise of a repetition, if the operand fails.
fn over_star(operand: Decided) -> Option<Decided>
    ensures { IfSome result (λ d. (g : MarkedNodes) (b n m : ℕ) → DecidesBelow g b m operand →
        DecidesShape g b n (Star m) d) }
{
    match operand.verdict {
        ByteVerdict::Fails => summed(ByteVerdict::Stays, 1, operand.count),
        ByteVerdict::Takes | ByteVerdict::Stays => None,
    }
}

// Likewise of a repetition that must succeed once.
fn over_plus(operand: Decided) -> Option<Decided>
    ensures { IfSome result (λ d. (g : MarkedNodes) (b n m s : ℕ) → DecidesBelow g b m operand →
        DecidesShape g b n (Plus m s) d) }
{
    match operand.verdict {
        ByteVerdict::Fails => summed(ByteVerdict::Fails, 1, operand.count),
        ByteVerdict::Takes | ByteVerdict::Stays => None,
    }
}

// Returns what a byte decides of a node that is met below another; one that is a key, or too deep, is not decided.
#[cycle(deciding)]
fn below(grammar: &MarkedNodes<'_>, n: usize, b: u8, levels: usize) -> Option<Decided>
    ensures { IfSome result (λ d. DecidesBelow grammar.now b n d) }
{
    if levels == 0 || mark_or(grammar.keys, n, true) {
        return None;
    }
    by_node(grammar, n, b, levels - 1)
}

// Returns whether a node takes nothing and leaves an event, and is no key.
fn is_event(grammar: &MarkedNodes<'_>, n: usize) -> bool
    ensures { result ≡ true → IsEvent grammar.now n }
{
    if mark_or(grammar.keys, n, true) {
        return false;
    }
    let Some(node) = node_at(grammar.nodes, n) else {
        return false;
    };
    match node {
        Node::Act(_) | Node::Open | Node::Close => true,
        Node::Any
        | Node::Bytes(_)
        | Node::Set(_)
        | Node::Name(_)
        | Node::Seq(_)
        | Node::Choice(_)
        | Node::Star(_)
        | Node::Plus { .. }
        | Node::Opt(_)
        | Node::And(_)
        | Node::Not(_) => false,
    }
}

// Returns what a byte decides of the members of a sequence. Members after one that takes the byte do not matter. If one
// leaves an event, a later one must fail.
#[cycle(deciding)]
fn by_members(grammar: &MarkedNodes<'_>, members: &[usize], b: u8, levels: usize) -> Option<Decided>
    ensures { IfSome result (λ d. (n : ℕ) → slice_get (shapes_of grammar.now.nodes.now) n ≡ Some (Seq members.now)
        → DecidesMembers grammar.now b n members.now d) }
{
    let mut count = 0;
    let mut leaves = false;
    for i in 0..members.len() {
        if is_key_of_members(members, grammar.after, i) {
            return None;
        }
        if is_event(grammar, members[i]) {
            leaves = true;
            let passed = summed(ByteVerdict::Stays, count, 1)?;
            count = passed.count;
            continue;
        }
        let member = below(grammar, members[i], b, levels)?;
        let sum = summed(member.verdict, count, member.count)?;
        match member.verdict {
            ByteVerdict::Stays => count = sum.count,
            ByteVerdict::Fails => return Some(sum),
            ByteVerdict::Takes => {
                if leaves || i + 1 < members.len() {
                    return None;
                }
                return Some(sum);
            }
        }
    }
    if leaves {
        return None;
    }
    let verdict = ByteVerdict::Stays;
    Some(Decided { verdict, count })
}

// Returns what a byte decides of the alternatives of a choice.
#[cycle(deciding)]
fn by_alternatives(
    grammar: &MarkedNodes<'_>,
    alternatives: &[usize],
    b: u8,
    levels: usize,
) -> Option<Decided>
    ensures { IfSome result (λ d. (n : ℕ) → slice_get (shapes_of grammar.now.nodes.now) n
        ≡ Some (Choice alternatives.now) → DecidesAlternatives grammar.now b n alternatives.now d) }
{
    let mut count = 0;
    for i in 0..alternatives.len() {
        let alternative = below(grammar, alternatives[i], b, levels)?;
        let sum = summed(alternative.verdict, count, alternative.count)?;
        match alternative.verdict {
            ByteVerdict::Fails => count = sum.count,
            ByteVerdict::Takes => return Some(sum),
            ByteVerdict::Stays => return Some(sum),
        }
    }
    let verdict = ByteVerdict::Fails;
    Some(Decided { verdict, count })
}

// Returns what a byte decides of the body of a rule, and of the name that stands for it.
#[cycle(deciding)]
fn by_body(grammar: &MarkedNodes<'_>, id: usize, b: u8, levels: usize) -> Option<Decided>
    ensures { IfSome result (λ d. (n : ℕ) → DecidesShape grammar.now b n (Name id) d) }
{
    let body = body_at(grammar.bodies, id)?;
    let decided = below(grammar, body, b, levels)?;
    summed(decided.verdict, 1, decided.count)
}

// Returns what a byte decides of a node, looking so deep.
#[cycle(deciding)]
fn by_node(grammar: &MarkedNodes<'_>, n: usize, b: u8, levels: usize) -> Option<Decided>
    ensures { IfSome result (λ d. Decides grammar.now b n d) }
{
    match node_at(grammar.nodes, n)? {
        Node::Any => Some(Decided {
            verdict: ByteVerdict::Takes,
            count: 1,
        }),
        Node::Set(set) => Some(by_set(set, b)),
        Node::Bytes(bytes) => by_bytes(bytes, b),
        Node::Name(id) => by_body(grammar, *id, b, levels),
        Node::Seq(members) => {
            let decided = by_members(grammar, members, b, levels)?;
            summed(decided.verdict, 1, decided.count)
        }
        Node::Choice(alternatives) => {
            let decided = by_alternatives(grammar, alternatives, b, levels)?;
            summed(decided.verdict, 1, decided.count)
        }
        Node::Opt(operand) => over_opt(below(grammar, *operand, b, levels)?),
        Node::And(operand) => over_and(below(grammar, *operand, b, levels)?),
        Node::Not(operand) => over_not(below(grammar, *operand, b, levels)?),
        Node::Star(operand) => over_star(below(grammar, *operand, b, levels)?),
        Node::Plus { operand, star: _ } => over_plus(below(grammar, *operand, b, levels)?),
        Node::Act(_) => None,
        Node::Open => None,
        Node::Close => None,
    }
}

/// Returns the outcome of a node that a byte decides; `None` if it does not, or the node is too deep.
pub fn decide(grammar: &MarkedNodes<'_>, n: usize, b: u8) -> Option<Decided>
    ensures { IfSome result (λ d. Decides grammar.now b n d) }
{
    by_node(grammar, n, b, MOST_LEVELS)
}

/// States that a byte decides one verdict of a node, with one number of evaluations.
pub fn one_verdict()
    ensures { (nodes : List Shape) (bodies : List ℕ) (marks : ℕ → Bool) (tails : ℕ → ℕ → Bool) (b n c d : ℕ)
        (v w : ByteVerdict) → ByByte nodes bodies marks tails b n v c → ByByte nodes bodies marks tails b n w d →
        (v ≡ w) × (c ≡ d) }
{}
