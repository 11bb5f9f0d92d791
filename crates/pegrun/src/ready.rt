//! Grammars that are ready to run.
use gramcheck::SoundPeg;
use std::marker::Model;

/// A grammar that no note rejects, ready to run.
#[derive(Drop)]
pub struct ReadyPeg {
    /// The grammar.
    pub(crate) grammar: SoundPeg,
}

impl Model for ReadyPeg {
    ghost use Rattle.std.specs.Coded.{codes};
    ghost use Rattle.gramcheck.specs.Grammar.{Grammar, IsSoundGrammar};
    ghost use Rattle.pegnodes.specs.contracts.node.Node as n;
    ghost use Rattle.pegread.specs.contracts.expr.Expr as e;

    ghost Value = { Grammar };

    ghost coded = { Prim.hlevel (codes, e.the_row.coded, n.the_row.coded) };

    ghost view = { λ r. r.grammar };

    ghost invariant = { λ r. IsSoundGrammar r.grammar };
}
