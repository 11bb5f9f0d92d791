//! Expressions as the nodes of a grammar's trees.

use crate::expr::Expr;
use lexer::Node;

impl Node for Expr {
    ghost use Rattle.std.specs.Prelude.{◌≡◌};
    ghost use Rattle.pegread.specs.Pattern.{Choice, Seq};
    ghost use Rattle.pegread.specs.PegViews.{pattern_of, patterns_of, IsChoice, IsSequence};

    ghost is_sequence = { IsSequence };

    ghost is_choice = { IsChoice };

    fn sequence(items: Vec<Expr>) -> Expr
        ensures { pattern_of result ≡ Seq (patterns_of items.items) }
    {
        Expr::Seq(items)
    }

    fn choice(alternatives: Vec<Expr>) -> Expr
        ensures { pattern_of result ≡ Choice (patterns_of alternatives.items) }
    {
        Expr::Choice(alternatives)
    }
}
