//! Marks: what stands in an expression, in the order of the text.
ghost use Rattle.std.specs.Prelude.{◌≡◌, ◌++◌, OnOk};
ghost use Rattle.pegread.specs.PegViews.{pattern_of, patterns_of};
ghost use Rattle.pegexplain.specs.HiddenAlternatives.{marks_in, marks_in_all};

use diagnostics::MentionKind;
use pegread::Expr;
use ruletable::Memory;

/// Adds the marks in an expression: of each name that is used, and of each literal, class, dot, action and end of a
/// capture, which positions report as literals.
///
/// `Memory` if an allocation fails.
#[cycle(marking)]
pub(crate) fn add_marks(e: &Expr, marks: &mut Vec<MentionKind>) -> Result<(), Memory>
    ensures { OnOk result (marks.new.items ≡ marks.old.items ++ marks_in (pattern_of e.now)) }
{
    match e {
        Expr::Name(_) => {
            marks.push(MentionKind::Use)?;
            Ok(())
        }
        Expr::Any | Expr::Bytes(_) | Expr::Set(_) | Expr::Act(_) | Expr::Open | Expr::Close => {
            marks.push(MentionKind::Literal)?;
            Ok(())
        }
        Expr::Seq(members) => add_all_marks(members, marks),
        Expr::Choice(alternatives) => add_all_marks(alternatives, marks),
        Expr::Star(operand)
        | Expr::Plus(operand)
        | Expr::Opt(operand)
        | Expr::And(operand)
        | Expr::Not(operand) => add_marks(operand, marks),
    }
}

// Adds those in each of them in turn.
#[cycle(marking)]
fn add_all_marks(members: &[Expr], marks: &mut Vec<MentionKind>) -> Result<(), Memory>
    ensures { OnOk result (marks.new.items ≡ marks.old.items ++ marks_in_all (patterns_of members.now)) }
{
    for member in members {
        add_marks(member, marks)?;
    }
    Ok(())
}
