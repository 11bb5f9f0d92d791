//! Elements as the nodes of a grammar's trees.

use crate::elem::Elem;
use lexer::Node;

impl Node for Elem {
    ghost use Rattle.std.specs.Prelude.{◌≡◌};
    ghost use Rattle.abnfread.specs.Element.{Alt, Concat};
    ghost use Rattle.abnfread.specs.AbnfViews.{element_of, elements_of, IsChoice, IsSequence};

    ghost is_sequence = { IsSequence };

    ghost is_choice = { IsChoice };

    fn sequence(items: Vec<Elem>) -> Elem
        ensures { element_of result ≡ Concat (elements_of items.items) }
    {
        Elem::Concat(items)
    }

    fn choice(alternatives: Vec<Elem>) -> Elem
        ensures { element_of result ≡ Alt (elements_of alternatives.items) }
    {
        Elem::Alt(alternatives)
    }
}
