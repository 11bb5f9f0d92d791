//! Which expressions fail nowhere.
ghost use Rattle.std.specs.Prelude.{◌≡◌, false, List, length, map, slice_index_or, IfOk};
ghost use Rattle.fixpoint.specs.Demands.{demand_of, demands_of};
ghost use Rattle.fixpoint.specs.NumberMarks.{AreBelow};
ghost use Rattle.gramcheck.specs.GrammarNotes.{AreMarks};
ghost use Rattle.pegnodes.specs.Bodies.{AreBodies, IsBuilt};
ghost use Rattle.pegnodes.specs.Nodes.{shape_of, shapes_of};
ghost use Rattle.pegread.specs.Pattern.{Rule};
ghost use Rattle.pegread.specs.PegViews.{pattern_of, patterns_of, rules_of};
ghost use Rattle.pegexplain.specs.FailsNowhere.{FailsNowhere};
ghost use Rattle.pegexplain.specs.NullTests.{null_mark_of};
ghost use Rattle.pegexplain.specs.SureNodes.{AreSureMarks, all_sure_by, some_sure_by, sure_by, sure_demand};
ghost use Rattle.pegexplain.specs.SureNodes.{sure_demands};

use crate::nulls::mark_at;
use fixpoint::{Need, least};
use pegnodes::{Node, body_of, cut_grammar};
use pegread::Expr;
use ruletable::{Memory, NameCase, RuleTable};
use std::alloc::Global;
use std::slice::from_ref;

// Returns the need of a node to fail nowhere.
fn need<'a>(node: &'a Node, bodies: &'a [usize]) -> Need<'a>
    ensures { demand_of result ≡ sure_demand bodies.now (shape_of node.now) }
{
    match node {
        Node::Any | Node::Set(_) | Node::Not(_) => Need::One(&[]),
        Node::Bytes(bytes) => {
            if bytes.is_empty() {
                Need::All(&[])
            } else {
                Need::One(&[])
            }
        }
        Node::Name(id) => Need::One(body_of(bodies, *id)),
        Node::Seq(members) => Need::All(members),
        Node::Choice(alternatives) => Need::One(alternatives),
        Node::Plus { operand, .. } => Need::One(from_ref(operand)),
        Node::And(operand) => Need::One(from_ref(operand)),
        Node::Star(_) | Node::Opt(_) | Node::Act(_) | Node::Open | Node::Close => Need::All(&[]),
    }
}

// Returns the need of each node to fail nowhere.
fn needs<'a>(alloc: Global, nodes: &'a [Node], bodies: &'a [usize]) -> Result<Vec<Need<'a>>, Memory>
    ensures { IfOk result (λ needs. demands_of needs.items ≡ sure_demands bodies.now (shapes_of nodes.now)) }
{
    let mut needs = Vec::with_capacity(alloc, nodes.len())?;
    for node in nodes {
        needs.push(need(node, bodies))?;
    }
    Ok(needs)
}

// Returns the marks of the nodes that fail nowhere.
fn sure_nodes(alloc: Global, nodes: &[Node], bodies: &[usize]) -> Result<Vec<bool>, Memory>
    requires built { IsBuilt (shapes_of nodes.now) }
    requires bodies { AreBelow bodies.now (length nodes.now) }
    ensures count { IfOk result (λ marks. length marks.items ≡ length nodes.now) }
    ensures marks { IfOk result (λ marks. (rules : List Rule) → AreBodies rules (shapes_of nodes.now) bodies.now
        → AreSureMarks rules (shapes_of nodes.now) marks.items) }
{
    let needs = needs(alloc, nodes, bodies)?;
    Ok(least(alloc, &needs)?)
}

// Returns the marks of the rules' bodies.
fn body_marks(alloc: Global, bodies: &[usize], marks: &[bool]) -> Result<Vec<bool>, Memory>
    requires { AreBelow bodies.now (length marks.now) }
    ensures { IfOk result (λ found. found.items ≡ map (λ m. slice_index_or marks.now m false) bodies.now) }
{
    let mut found = Vec::new(alloc);
    for body in bodies {
        found.push(marks[*body])?;
    }
    Ok(found)
}

/// Returns a mark for each rule, set exactly for those whose bodies fail nowhere.
///
/// `Memory` if an allocation fails.
pub(crate) fn sure_rules(alloc: Global, rules: &RuleTable<Expr>) -> Result<Vec<bool>, Memory>
    requires { rules.now.names ≡ NameCase.Exact }
    ensures { IfOk result (λ found. AreMarks (λ rule. FailsNowhere (rules_of rules.now) rule.body)
        (rules_of rules.now) found.items) }
{
    let cut = cut_grammar(alloc, rules)?;
    let marks = sure_nodes(alloc, &cut.nodes, &cut.bodies)?;
    body_marks(alloc, &cut.bodies, &marks)
}

/// Returns whether an expression fails nowhere, where marks of the rules say which of their bodies do.
///
/// `Memory` if an allocation fails.
#[cycle(sure)]
pub(crate) fn is_sure(rules: &RuleTable<Expr>, marks: &[bool], e: &Expr) -> Result<bool, Memory>
    ensures { IfOk result (λ sure. sure ≡ sure_by (null_mark_of rules.now marks.now) (pattern_of e.now)) }
{
    match e {
        Expr::Any | Expr::Set(_) | Expr::Not(_) => Ok(false),
        Expr::Bytes(bytes) => Ok(bytes.is_empty()),
        Expr::Name(name) => Ok(mark_at(marks, rules.find(name)?)),
        Expr::Seq(members) => are_sure(rules, marks, members),
        Expr::Choice(alternatives) => is_some_sure(rules, marks, alternatives),
        Expr::Plus(operand) | Expr::And(operand) => is_sure(rules, marks, operand),
        Expr::Star(_) | Expr::Opt(_) | Expr::Act(_) | Expr::Open | Expr::Close => Ok(true),
    }
}

// Whether all of them fail nowhere.
#[cycle(sure)]
fn are_sure(rules: &RuleTable<Expr>, marks: &[bool], members: &[Expr]) -> Result<bool, Memory>
    ensures { IfOk result (λ sure. sure ≡ all_sure_by (null_mark_of rules.now marks.now) (patterns_of members.now)) }
{
    for member in members {
        if !is_sure(rules, marks, member)? {
            return Ok(false);
        }
    }
    Ok(true)
}

// Whether one of them fails nowhere.
#[cycle(sure)]
fn is_some_sure(
    rules: &RuleTable<Expr>,
    marks: &[bool],
    alternatives: &[Expr],
) -> Result<bool, Memory>
    ensures { IfOk result (λ sure. sure
        ≡ some_sure_by (null_mark_of rules.now marks.now) (patterns_of alternatives.now)) }
{
    for alternative in alternatives {
        if is_sure(rules, marks, alternative)? {
            return Ok(true);
        }
    }
    Ok(false)
}
