//! Leaves of a rule's body, and where `<` stands before them.
ghost use Rattle.std.specs.Prelude.{◌≡◌, ◌++◌, ◌∷◌, ◌||◌, [], map, IfOk, OnOk};
ghost use Rattle.pegread.specs.PegViews.{pattern_of, patterns_of};
ghost use Rattle.pegexplain.specs.BodyLeaves.{alternative_leaves, begins_in, begins_in_any, leaves_in, member_leaves};
ghost use Rattle.pegexplain.specs.CodeLeaves.{leaf_found};

use pegread::Expr;
use ruletable::Memory;

/// An expression without operands.
#[derive(Clone, Copy)]
pub(crate) struct Leaf<'a> {
    /// The expression.
    pub(crate) e: &'a Expr,
    /// Whether `<` stands before it, outside alternatives beside its own.
    pub(crate) begun: bool,
}

/// A leaf in the body of a rule.
#[derive(Clone, Copy)]
pub(crate) struct RuleLeaf<'a> {
    /// The name of the rule.
    pub(crate) rule: &'a [u8],
    /// The body of the rule.
    pub(crate) body: &'a Expr,
    /// How many leaves of the body stand before it.
    pub(crate) position: usize,
}

/// Adds the leaves of an expression, where `<` stands before it or not. Returns whether it stands before what follows.
///
/// `Memory` if an allocation fails.
#[cycle(gathering)]
pub(crate) fn add_leaves<'a>(
    e: &'a Expr,
    begun: bool,
    leaves: &mut Vec<Leaf<'a>>,
) -> Result<bool, Memory>
    ensures begun { IfOk result (λ after. after ≡ (begun || begins_in (pattern_of e.now))) }
    ensures leaves { OnOk result (map leaf_found leaves.new.items ≡ map leaf_found leaves.old.items
        ++ leaves_in begun (pattern_of e.now)) }
{
    match e {
        Expr::Seq(members) => add_member_leaves(members, begun, leaves),
        Expr::Choice(alternatives) => add_alternative_leaves(alternatives, begun, leaves),
        Expr::Star(operand)
        | Expr::Plus(operand)
        | Expr::Opt(operand)
        | Expr::And(operand)
        | Expr::Not(operand) => add_leaves(operand, begun, leaves),
        Expr::Open => {
            leaves.push(Leaf { e, begun })?;
            Ok(true)
        }
        Expr::Any | Expr::Bytes(_) | Expr::Set(_) | Expr::Name(_) | Expr::Act(_) | Expr::Close => {
            leaves.push(Leaf { e, begun })?;
            Ok(begun)
        }
    }
}

// Adds those of the members of a sequence.
#[cycle(gathering)]
fn add_member_leaves<'a>(
    members: &'a [Expr],
    begun: bool,
    leaves: &mut Vec<Leaf<'a>>,
) -> Result<bool, Memory>
    ensures begun { IfOk result (λ after. after ≡ (begun || begins_in_any (patterns_of members.now))) }
    ensures leaves { OnOk result (map leaf_found leaves.new.items ≡ map leaf_found leaves.old.items
        ++ member_leaves begun (patterns_of members.now)) }
{
    let mut after = begun;
    for member in members {
        after = add_leaves(member, after, leaves)?;
    }
    Ok(after)
}

// Adds those of alternatives.
#[cycle(gathering)]
fn add_alternative_leaves<'a>(
    alternatives: &'a [Expr],
    begun: bool,
    leaves: &mut Vec<Leaf<'a>>,
) -> Result<bool, Memory>
    ensures begun { IfOk result (λ after. after ≡ (begun || begins_in_any (patterns_of alternatives.now))) }
    ensures leaves { OnOk result (map leaf_found leaves.new.items ≡ map leaf_found leaves.old.items
        ++ alternative_leaves begun (patterns_of alternatives.now)) }
{
    let mut after = begun;
    for alternative in alternatives {
        let ends = add_leaves(alternative, begun, leaves)?;
        after = after || ends;
    }
    Ok(after)
}
