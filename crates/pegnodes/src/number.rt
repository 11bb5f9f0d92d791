//! Cuts expressions into numbered nodes.
ghost use Rattle.std.specs.Prelude.{◌≡◌, List, ◌++◌, ◌∷◌, [], length, IfOk};
ghost use Rattle.pegread.specs.PegViews.{pattern_of, patterns_of, rules_of};
ghost use Rattle.pegnodes.specs.Nodes.{id_of, shapes_of};
ghost use Rattle.pegnodes.specs.Numbering.{Numbers, NumbersAll};

use crate::node::Node;
use pegread::Expr;
use ruletable::{Memory, NameCase, RuleTable};
use std::alloc::Global;

// Adds a node, and gives its number.
fn add(nodes: &mut Vec<Node>, node: Node) -> Result<usize, Memory>
    ensures number { IfOk result (λ n. n ≡ length nodes.old.items) }
    ensures nodes { IfOk result (λ _. nodes.new.items ≡ nodes.old.items ++ node ∷ []) }
{
    let number = nodes.len();
    nodes.push(node)?;
    Ok(number)
}

// The id of the rule of that name, or the number of rules where there is none.
fn rule_id(rules: &RuleTable<Expr>, name: &[u8]) -> Result<usize, Memory>
    requires { rules.now.names ≡ NameCase.Exact }
    ensures { IfOk result (λ id. id ≡ id_of (rules_of rules.now) name.now) }
{
    let found = rules.find(name)?;
    Ok(found.unwrap_or(rules.len()))
}

/// Adds the nodes of an expression, its operands first, and gives the number of its own.
#[cycle(numbering)]
pub(crate) fn number(
    alloc: Global,
    rules: &RuleTable<Expr>,
    e: &Expr,
    nodes: &mut Vec<Node>,
) -> Result<usize, Memory>
    requires { rules.now.names ≡ NameCase.Exact }
    ensures { IfOk result (λ n. Numbers (rules_of rules.now) (shapes_of nodes.old.items) (shapes_of nodes.new.items) n
        (pattern_of e.now)) }
{
    let node = match e {
        Expr::Any => Node::Any,
        Expr::Bytes(bytes) => Node::Bytes(Vec::from_slice(alloc, bytes)?),
        Expr::Set(members) => Node::Set(members.copied()),
        Expr::Name(name) => Node::Name(rule_id(rules, name)?),
        Expr::Seq(members) => Node::Seq(number_all(alloc, rules, members, nodes)?),
        Expr::Choice(alternatives) => Node::Choice(number_all(alloc, rules, alternatives, nodes)?),
        Expr::Star(operand) => Node::Star(number(alloc, rules, operand, nodes)?),
        Expr::Plus(operand) => {
            let repeated = number(alloc, rules, operand, nodes)?;
            let star = add(nodes, Node::Star(repeated))?;
            Node::Plus {
                operand: repeated,
                star,
            }
        }
        Expr::Opt(operand) => Node::Opt(number(alloc, rules, operand, nodes)?),
        Expr::And(operand) => Node::And(number(alloc, rules, operand, nodes)?),
        Expr::Not(operand) => Node::Not(number(alloc, rules, operand, nodes)?),
        Expr::Act(template) => Node::Act(Vec::from_slice(alloc, template)?),
        Expr::Open => Node::Open,
        Expr::Close => Node::Close,
    };
    add(nodes, node)
}

// Adds the nodes of each of them in turn, and gives their numbers.
#[cycle(numbering)]
fn number_all(
    alloc: Global,
    rules: &RuleTable<Expr>,
    members: &[Expr],
    nodes: &mut Vec<Node>,
) -> Result<Vec<usize>, Memory>
    requires { rules.now.names ≡ NameCase.Exact }
    ensures { IfOk result (λ ns. NumbersAll (rules_of rules.now) (shapes_of nodes.old.items) (shapes_of nodes.new.items)
        ns.items (patterns_of members.now)) }
{
    let mut numbers = Vec::new(alloc);
    for member in members {
        let n = number(alloc, rules, member, nodes)?;
        numbers.push(n)?;
    }
    Ok(numbers)
}
