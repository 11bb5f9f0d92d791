//! Elements that hold nothing but prose.
ghost use Rattle.std.specs.Prelude.{◌≡◌};
ghost use Rattle.abnfread.specs.AbnfViews.{element_of, elements_of};
ghost use Rattle.abnftexts.specs.OnlyProse.{only_prose, all_prose};

use abnfread::Elem;

/// Returns whether an element is made of prose alone: each part of it without operands is a prose value. It takes no
/// memory, and recurses no deeper than the element.
#[cycle(looking)]
pub fn is_only_prose(e: &Elem) -> bool
    ensures { result ≡ only_prose (element_of e.now) }
{
    match e {
        Elem::Prose(_) => true,
        Elem::Concat(members) => are_only_prose(members),
        Elem::Alt(alternatives) => are_only_prose(alternatives),
        Elem::Rep { operand, .. } => is_only_prose(operand),
        Elem::Opt(operand) => is_only_prose(operand),
        _ => false,
    }
}

// Whether each of them is made of prose alone.
#[cycle(looking)]
fn are_only_prose(members: &[Elem]) -> bool
    ensures { result ≡ all_prose (elements_of members.now) }
{
    for member in members {
        if !is_only_prose(member) {
            return false;
        }
    }
    true
}
