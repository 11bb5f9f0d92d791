//! Where a grammar's text says what explains notes.
ghost use Rattle.std.specs.Prelude.{◌≡◌, ℕ, List, IfErr, IfOk};
ghost use Rattle.pegexplain.specs.PegNotes.{ArePegPositions, AreTextPositions, IsPegRead, sign_of as the_sign};
ghost use Rattle.pegread.specs.Definitions.{IsTableOf};
ghost use Rattle.pegread.specs.Pattern.{Rule};
ghost use Rattle.pegread.specs.Reading.{IsFaultOf, Reads};

use crate::left_notes::ways_end;
use crate::meant::all_names;
use crate::sure::sure_rules;
use diagnostics::{Positions, Sign, Signs, positions_by};
use gramcheck::{left_recursive_rules, nullable_rules};
use pegread::{Expr, KeptPeg, Kind, Peg, read_kept_peg};
use ruletable::{LineRule, Memory, NameCase, ReadFault, RuleTable};
use std::alloc::Global;

/// The roles of the tokens of peg(1) in the definitions of a grammar. Classes, dots, actions and the ends of captures
/// are reported as literals are.
pub struct PegSigns;

impl Signs<Kind> for PegSigns {
    ghost sign_of = { the_sign };

    fn sign(kind: Kind) -> Sign {
        match kind {
            Kind::Ident => Sign::Name,
            Kind::Arrow => Sign::Defines,
            Kind::Star | Kind::Plus => Sign::Repeats,
            Kind::Literal | Kind::Class | Kind::Dot | Kind::Action | Kind::Begin | Kind::EndCap =>
                Sign::Literal,
            _ => Sign::Other,
        }
    }
}

/// A grammar that was read, and where its text defines rules and mentions them.
#[derive(Drop)]
pub struct PegText {
    /// The grammar.
    pub peg: Peg,
    /// Where its text defines rules and mentions them.
    pub positions: Positions,
}

/// Reads a grammar's text, and returns where it defines rules and mentions them. It cuts the text into tokens once.
///
/// # Errors
/// Those of `read_peg`.
pub fn read_peg_text(alloc: Global, text: &[u8]) -> Result<PegText, ReadFault>
    ensures found { IfOk result (λ r. (definitions : List Rule) × Reads text.now definitions
        × IsTableOf definitions r.peg.rules r.peg.redefined.items) }
    ensures positions { IfOk result (λ r. AreTextPositions text.now r.positions) }
    ensures fault { IfErr result (λ f. IsFaultOf text.now f) }
{
    let KeptPeg { peg, tokens } = read_kept_peg(alloc, text)?;
    match positions_by::<Kind, PegSigns>(alloc, text, &tokens, LineRule::Any, NameCase::Exact) {
        Ok(positions) => Ok(PegText { peg, positions }),
        Err(Memory) => Err(ReadFault::Memory),
    }
}

/// Where a text defines and uses its rules, and what the rules are.
#[derive(Drop)]
pub struct PegPositions {
    /// Where it defines its rules, and what their bodies mention.
    pub positions: Positions,
    /// The rules.
    pub rules: RuleTable<Expr>,
    /// The names of the rules, and after them those that the text mentions and no rule has.
    pub names: RuleTable<()>,
    /// Of each rule whether its body may take nothing.
    pub nulls: Vec<bool>,
    /// Of each rule whether its body fails nowhere.
    pub sure: Vec<bool>,
    /// Of each rule whether it is left-recursive.
    pub recursive: Vec<bool>,
    /// Before which id the left-recursive rules stand whose steps are explained.
    pub ways: usize,
}

/// Returns where a grammar's text says what explains notes on it, by where it defines rules and mentions them. It takes
/// the rules that the text was read as, and holds them.
///
/// # Errors
/// `Memory` if an allocation fails; the rules are dropped then.
pub fn peg_positions(
    alloc: Global,
    positions: Positions,
    rules: RuleTable<Expr>,
) -> Result<PegPositions, Memory>
    requires { (text : List ℕ) × AreTextPositions text positions × IsPegRead text rules }
    ensures positions { IfOk result (λ found. (text : List ℕ) → AreTextPositions text positions → IsPegRead text rules
        → ArePegPositions text found) }
    ensures rules { IfOk result (λ found. found.rules ≡ rules) }
{
    let names = all_names(alloc, &rules, &positions.mentions)?;
    let nulls = nullable_rules(alloc, &rules)?;
    let sure = sure_rules(alloc, &rules)?;
    let recursive = left_recursive_rules(alloc, &rules)?;
    let ways = ways_end(&recursive);
    Ok(PegPositions {
        positions,
        rules,
        names,
        nulls,
        sure,
        recursive,
        ways,
    })
}
