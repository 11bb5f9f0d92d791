//! Nullable nodes.
ghost use Rattle.std.specs.Prelude.{◌≡◌, List, length, IfOk};
ghost use Rattle.pegread.specs.Pattern.{Rule};
ghost use Rattle.pegnodes.specs.Bodies.{AreBodies, IsBuilt};
ghost use Rattle.fixpoint.specs.Demands.{demand_of, demands_of};
ghost use Rattle.fixpoint.specs.NumberMarks.{AreBelow};
ghost use Rattle.pegnodes.specs.Nodes.{shape_of, shapes_of};
ghost use Rattle.pegread.specs.PegViews.{rules_of};
ghost use Rattle.gramcheck.specs.GrammarNotes.{AreMarks};
ghost use Rattle.gramcheck.specs.Left.{Nullable};
ghost use Rattle.gramcheck.specs.Nulls.{null_demand, null_demands, AreNullMarks};

use crate::loops::body_marks;
use fixpoint::{Need, least};
use pegnodes::{Node, body_of, cut_grammar};
use pegread::Expr;
use ruletable::{Memory, NameCase, RuleTable};
use std::alloc::Global;
use std::slice::from_ref;

// Returns the need of a node to be nullable.
fn need<'a>(node: &'a Node, bodies: &'a [usize]) -> Need<'a>
    ensures { demand_of result ≡ null_demand bodies.now (shape_of node.now) }
{
    match node {
        Node::Any | Node::Set(_) => Need::One(&[]),
        Node::Bytes(bytes) => {
            if bytes.is_empty() {
                Need::All(&[])
            } else {
                Need::One(&[])
            }
        }
        Node::Name(id) => Need::One(body_of(bodies, *id)),
        Node::Seq(members) => Need::All(members),
        Node::Choice(alternatives) => Need::One(alternatives),
        Node::Plus { operand, .. } => Need::One(from_ref(operand)),
        Node::Star(_)
        | Node::Opt(_)
        | Node::And(_)
        | Node::Not(_)
        | Node::Act(_)
        | Node::Open
        | Node::Close => Need::All(&[]),
    }
}

// Returns the need of each node to be nullable.
fn needs<'a>(alloc: Global, nodes: &'a [Node], bodies: &'a [usize]) -> Result<Vec<Need<'a>>, Memory>
    ensures { IfOk result (λ needs. demands_of needs.items ≡ null_demands bodies.now (shapes_of nodes.now)) }
{
    let mut needs = Vec::with_capacity(alloc, nodes.len())?;
    for node in nodes {
        needs.push(need(node, bodies))?;
    }
    Ok(needs)
}

/// Returns the marks of the nullable nodes.
///
/// `Memory` if an allocation fails.
pub(crate) fn nullable(alloc: Global, nodes: &[Node], bodies: &[usize]) -> Result<Vec<bool>, Memory>
    requires built { IsBuilt (shapes_of nodes.now) }
    requires bodies { AreBelow bodies.now (length nodes.now) }
    ensures count { IfOk result (λ marks. length marks.items ≡ length nodes.now) }
    ensures marks { IfOk result (λ marks. (rules : List Rule) → AreBodies rules (shapes_of nodes.now) bodies.now
        → AreNullMarks rules (shapes_of nodes.now) marks.items) }
{
    let needs = needs(alloc, nodes, bodies)?;
    Ok(least(alloc, &needs)?)
}

/// Returns a mark for each rule, set exactly for those whose bodies may take nothing.
///
/// # Errors
/// `Memory` if an allocation fails.
pub fn nullable_rules(alloc: Global, rules: &RuleTable<Expr>) -> Result<Vec<bool>, Memory>
    requires { rules.now.names ≡ NameCase.Exact }
    ensures { IfOk result (λ found. AreMarks (λ rule. Nullable (rules_of rules.now) rule.body) (rules_of rules.now)
        found.items) }
{
    let cut = cut_grammar(alloc, rules)?;
    let marks = nullable(alloc, &cut.nodes, &cut.bodies)?;
    body_marks(alloc, &cut.bodies, &marks)
}
