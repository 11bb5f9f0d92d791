//! Static analysis of a grammar's rules and nodes.
ghost use Rattle.std.specs.Prelude.{◌≡◌, List, length, IfOk};
ghost use Rattle.pegread.specs.Pattern.{Rule};
ghost use Rattle.pegread.specs.PegViews.{rules_of};
ghost use Rattle.gramcheck.specs.Analysis.{IsAnalysed};
ghost use Rattle.gramcheck.specs.GrammarNotes.{AreMarks};
ghost use Rattle.gramcheck.specs.Left.{IsLeftRecursive};
ghost use Rattle.pegnodes.specs.Bodies.{AreBodies, IsBuilt};
ghost use Rattle.fixpoint.specs.NumberMarks.{AreBelow};
ghost use Rattle.pegnodes.specs.Nodes.{shapes_of};

use crate::left::find_left;
use crate::loops::{body_marks, loops};
use crate::nullable::nullable;
use pegnodes::{Node, cut_grammar};
use pegread::Expr;
use ruletable::{Memory, NameCase, RuleTable};
use std::alloc::Global;

/// Marks of a grammar's nodes and rules, and ranks of its nodes.
#[derive(Drop)]
pub(crate) struct Analysis {
    /// Of each node whether it is nullable.
    pub(crate) nulls: Vec<bool>,
    /// Of each rule whether it is left-recursive.
    pub(crate) recursive: Vec<bool>,
    /// Of each rule whether its body repeats a nullable expression.
    pub(crate) looping: Vec<bool>,
    /// Where no rule is left-recursive, of each node a rank that each left step lowers.
    pub(crate) ranks: Vec<usize>,
}

/// Finds the nullable nodes, the left-recursive rules, the rules that repeat a nullable expression, and ranks of the
/// nodes.
///
/// `Memory` if an allocation fails.
pub(crate) fn analysed(alloc: Global, nodes: &[Node], bodies: &[usize]) -> Result<Analysis, Memory>
    requires built { IsBuilt (shapes_of nodes.now) }
    requires bodies { AreBelow bodies.now (length nodes.now) }
    ensures { IfOk result (λ a. (rules : List Rule) → AreBodies rules (shapes_of nodes.now) bodies.now →
        IsAnalysed rules (shapes_of nodes.now) bodies.now a.nulls.items a.recursive.items a.looping.items
        a.ranks.items) }
{
    let nulls = nullable(alloc, nodes, bodies)?;
    let left = find_left(alloc, nodes, bodies, &nulls)?;
    let marks = loops(alloc, nodes, &nulls)?;
    let looping = body_marks(alloc, bodies, &marks)?;
    Ok(Analysis {
        nulls,
        recursive: left.recursive,
        looping,
        ranks: left.ranks,
    })
}

/// Returns a mark for each rule, set exactly for those that are left-recursive.
///
/// # Errors
/// `Memory` if an allocation fails.
pub fn left_recursive_rules(alloc: Global, rules: &RuleTable<Expr>) -> Result<Vec<bool>, Memory>
    requires { rules.now.names ≡ NameCase.Exact }
    ensures { IfOk result (λ found. AreMarks (IsLeftRecursive (rules_of rules.now)) (rules_of rules.now) found.items) }
{
    let cut = cut_grammar(alloc, rules)?;
    let found = analysed(alloc, &cut.nodes, &cut.bodies)?;
    Ok(found.recursive)
}
