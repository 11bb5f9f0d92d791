//! Writes a grammar's nodes in explanations.
ghost use Rattle.std.specs.Prelude.{◌≡◌, ◌<◌, Some, length, slice_get, IfOk};
ghost use Rattle.gramcheck.specs.Grammar.{IsNumbered};
ghost use Rattle.pegnodes.specs.Nodes.{shape_of, shapes_of};
ghost use Rattle.pegread.specs.PegViews.{rules_of};
ghost use Rattle.matchfailure.specs.NodeTexts.{leaf_text, name_of_rule, rule_of_node};

use gramcheck::SoundPeg;
use pegnodes::Node;
use pegprint::{print_literal, print_set};
use ruletable::{Memory, SinkOf, write_whole};
use std::alloc::Global;

// The canonical text of a node that compares a byte or more with the input.
fn leaf_of(alloc: Global, node: &Node) -> Result<Vec<u8>, Memory>
    ensures { IfOk result (λ text. text.items ≡ leaf_text (Some (shape_of node.now))) }
{
    let mut text = SinkOf::new(Vec::new(alloc));
    let written = match node {
        Node::Any => write_whole(&mut text, b"."),
        Node::Bytes(bytes) => print_literal(bytes, &mut text),
        Node::Set(set) => print_set(set, &mut text),
        _ => Ok(()),
    };
    match written {
        Ok(()) => Ok(text.into_inner()),
        Err(_) => Err(Memory),
    }
}

/// Returns the canonical text of the node of that number, which compares a byte or more with the input.
///
/// # Errors
/// `Memory` if an allocation fails.
pub(crate) fn leaf_at(alloc: Global, peg: &SoundPeg, n: usize) -> Result<Vec<u8>, Memory>
    requires { n < length peg.now.nodes }
    ensures { IfOk result (λ text. text.items ≡ leaf_text (slice_get (shapes_of peg.now.nodes) n)) }
{
    leaf_of(alloc, peg.node(n))
}

/// Returns the id of the rule in whose body the node of that number stands, by halves: the bodies' numbers ascend.
pub(crate) fn rule_of(peg: &SoundPeg, n: usize) -> usize
    requires { IsNumbered peg.now }
    ensures { result ≡ rule_of_node peg.now.bodies n }
{
    let mut low = 0;
    let mut high = peg.rules().len();
    'halves: while low < high {
        let mid = low + (high - low) / 2;
        if peg.body_node(mid) < n {
            low = mid + 1;
        } else {
            high = mid;
        }
    }
    low
}

/// Returns the name of the rule in whose body the node of that number stands.
pub(crate) fn rule_name(peg: &SoundPeg, n: usize) -> &[u8]
    requires { IsNumbered peg.now }
    ensures { result.now ≡ name_of_rule (rules_of peg.now.rules) (rule_of_node peg.now.bodies n) }
{
    let id = rule_of(peg, n);
    let rules = peg.rules();
    if id < rules.len() {
        rules.name(id)
    } else {
        b""
    }
}
