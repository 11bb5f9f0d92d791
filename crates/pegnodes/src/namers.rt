//! By whom nodes are named.
ghost use Rattle.std.specs.Prelude.{◌≡◌, ◌==◌, ◌+◌, ℕ, List, length, slice_get, get_or, Some, IfOk, if◌then◌else◌};
ghost use Rattle.pegnodes.specs.Namers.{name_rows, named_by, names_of, AreNamers, AreNamersTo};
ghost use Rattle.pegnodes.specs.Nodes.{shape_of, shapes_of};

use crate::bodies::body_of;
use crate::node::Node;
use ruletable::Memory;
use std::alloc::Global;
use std::slice::from_ref;

/// Who names a node, apart from a repetition that names itself.
#[derive(Clone, Copy)]
pub(crate) enum Namer {
    /// No node does.
    Nobody,
    /// This node does, once.
    By(usize),
    /// These two nodes do, each once; or one does, twice.
    Both { first: usize, second: usize },
    /// It is named more often.
    Many,
}

/// Returns who names a node; of one that is not there nothing is known.
pub(crate) fn namer_of(namers: &[Namer], m: usize) -> Namer
    ensures { result ≡ get_or namers.now m Namer.Many }
{
    match namers.get(m) {
        Some(namer) => *namer,
        None => Namer::Many,
    }
}

// Adds that node `n` names `named`.
fn add_name(n: usize, named: usize, namers: &mut [Namer])
    ensures count { length namers.new ≡ length namers.old }
    ensures named { (m : ℕ) → get_or namers.new m Namer.Many ≡ (if m == named
        then named_by n (get_or namers.old m Namer.Many) else get_or namers.old m Namer.Many) }
{
    if named < namers.len() {
        namers[named] = match namers[named] {
            Namer::Nobody => Namer::By(n),
            Namer::By(first) => Namer::Both { first, second: n },
            Namer::Both { .. } | Namer::Many => Namer::Many,
        };
    }
}

// Adds that node `n` names these.
fn add_names(n: usize, names: &[usize], namers: &mut [Namer])
    ensures count { length namers.new ≡ length namers.old }
    ensures named { (rows : List (List ℕ)) → slice_get rows n ≡ Some names.now → AreNamersTo rows n 0 namers.old
        → AreNamersTo rows n (length names.now) namers.new }
{
    for named in names {
        add_name(n, *named, namers);
    }
}

// Adds what node `n` names.
fn add_node(n: usize, node: &Node, bodies: &[usize], namers: &mut [Namer])
    ensures count { length namers.new ≡ length namers.old }
    ensures named { (rows : List (List ℕ)) → slice_get rows n ≡ Some (names_of bodies.now (shape_of node.now))
        → AreNamersTo rows n 0 namers.old → AreNamersTo rows (n + 1) 0 namers.new }
{
    match node {
        Node::Any | Node::Bytes(_) | Node::Set(_) | Node::Act(_) | Node::Open | Node::Close => {
            add_names(n, &[], namers)
        }
        Node::Name(id) => add_names(n, body_of(bodies, *id), namers),
        Node::Seq(members) | Node::Choice(members) => add_names(n, members, namers),
        Node::Plus { operand, star } => add_names(n, &[*operand, *star], namers),
        Node::Star(operand) | Node::Opt(operand) | Node::And(operand) | Node::Not(operand) => {
            add_names(n, from_ref(operand), namers)
        }
    }
}

// Adds what the nodes name.
fn add_nodes(nodes: &[Node], bodies: &[usize], namers: &mut [Namer])
    ensures count { length namers.new ≡ length namers.old }
    ensures named { AreNamers (name_rows bodies.now (shapes_of nodes.now)) namers.new }
{
    for n in 0..nodes.len() {
        add_node(n, &nodes[n], bodies, namers);
    }
}

/// Finds by whom each node is named.
///
/// # Errors
/// `Memory` if an allocation fails.
pub(crate) fn namers(alloc: Global, nodes: &[Node], bodies: &[usize]) -> Result<Vec<Namer>, Memory>
    ensures { IfOk result (λ namers. AreNamers (name_rows bodies.now (shapes_of nodes.now)) namers.items) }
{
    let mut namers = vec![in alloc; Namer::Nobody; nodes.len()]?;
    add_nodes(nodes, bodies, &mut namers);
    Ok(namers)
}
