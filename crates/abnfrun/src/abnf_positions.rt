//! Where a text in ABNF says what explains notes on its grammar, and what gives hints on it.
ghost use Rattle.std.specs.Prelude.{◌≡◌};
ghost use Rattle.ruletable.specs.declared.table.NameCase.TheVariants.{Fold};

use abnfcheck::{AllRules, NameChains};
use diagnostics::Positions;

/// Where a text defines and uses its rules, by which rules the judged one reaches a name, and the rules.
#[derive(Drop)]
pub struct AbnfPositions {
    /// Where it defines its rules, and what their bodies mention.
    pub positions: Positions,
    /// The chains of names from the judged rule.
    pub chains: NameChains,
    /// The rules of the text, and then the core rules that it leaves alone.
    pub all: AllRules,
    ghost positions_fold: { positions.names ≡ Fold },
    ghost rules_fold: { all.rules.names ≡ Fold },
}
