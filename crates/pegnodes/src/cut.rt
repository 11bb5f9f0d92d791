//! Cuts the bodies of a grammar's rules into numbered nodes.
ghost use Rattle.std.specs.Prelude.{◌≡◌, length, IfOk, OnOk};
ghost use Rattle.pegread.specs.PegViews.{rules_of};
ghost use Rattle.pegnodes.specs.Bodies.{AreBodies, AreNamed, IsBuilt};
ghost use Rattle.pegnodes.specs.NodeCounts.{node_counts};
ghost use Rattle.pegnodes.specs.NodeLists.{AreNumbered};
ghost use Rattle.pegnodes.specs.Nodes.{shapes_of};
ghost use Rattle.pegnodes.specs.Numbering.{AreStanding};
ghost use Rattle.ruletable.specs.Rules.{HasUniqueNames};

use crate::node::Node;
use crate::number::number;
use pegread::Expr;
use ruletable::{Memory, NameCase, RuleTable};
use std::alloc::Global;

/// The bodies of a grammar's rules, cut into numbered nodes.
#[derive(Drop)]
pub struct Cut {
    /// The nodes, by number. Operands come before the nodes that they stand in.
    pub nodes: Vec<Node>,
    /// Of each rule the number of its body's node.
    pub bodies: Vec<usize>,
}

/// Cuts the bodies into nodes, rule by rule: the nodes stand in one order, that of `AreNumbered`. The clause `unique`
/// says that no two rules have one name.
///
/// `Memory` if an allocation fails.
pub fn cut_grammar(alloc: Global, rules: &RuleTable<Expr>) -> Result<Cut, Memory>
    requires { rules.now.names ≡ NameCase.Exact }
    ensures numbered { IfOk result (λ cut. AreNumbered (rules_of rules.now) (shapes_of cut.nodes.items)
        cut.bodies.items) }
    ensures bodies { IfOk result (λ cut. AreBodies (rules_of rules.now) (shapes_of cut.nodes.items) cut.bodies.items) }
    ensures built { IfOk result (λ cut. IsBuilt (shapes_of cut.nodes.items)) }
    ensures counted { IfOk result (λ cut. length cut.nodes.items ≡ node_counts (rules_of rules.now)) }
    ensures named { IfOk result (λ cut. AreNamed (length rules.now.rules) (shapes_of cut.nodes.items)) }
    ensures standing { IfOk result (λ cut. AreStanding (rules_of rules.now) (shapes_of cut.nodes.items)) }
    ensures unique { OnOk result (HasUniqueNames rules.now) }
{
    let mut nodes = Vec::new(alloc);
    let mut bodies = Vec::new(alloc);
    for id in 0..rules.len() {
        let n = number(alloc, rules, rules.body(id), &mut nodes)?;
        bodies.push(n)?;
    }
    Ok(Cut { nodes, bodies })
}
