//! The symbols that can follow those of a line, by the stacks that they lead to.
ghost use Rattle.std.specs.Prelude.{◌≤◌, ℕ, IfOk, length, Contains};
ghost use Rattle.lazydfa.specs.Conts.{AreOlder, AreTopsOf};

use crate::close::cont_at;
use crate::conts::Conts;
use flatgrammar::DottedRule;
use ruletable::Memory;
use std::alloc::Global;

/// The symbols that can follow the longest viable prefix of a line.
#[derive(Drop)]
pub struct Expected {
    /// How many symbols that prefix has.
    pub after: usize,
    /// The dotted rules that read the symbols that can follow, each once or more.
    pub dots: Vec<DottedRule>,
    /// Whether the line may end there.
    pub ends: bool,
}

/// Returns the dotted rules on top of continuations. `Memory` if an allocation fails.
pub(crate) fn dots_of(
    alloc: Global,
    conts: &Conts,
    tops: &[usize],
) -> Result<Vec<DottedRule>, Memory>
    requires within { (id : ℕ) → Contains tops.now id → id ≤ length conts.now.items.items }
    requires older { AreOlder conts.now.items.items }
    ensures { IfOk result (λ dots. AreTopsOf conts.now.items.items tops.now dots.items) }
{
    let mut dots = Vec::new(alloc);
    for top in tops {
        if *top > 0 {
            let cont = cont_at(conts, *top);
            dots.push(DottedRule {
                node: cont.node,
                step: cont.step,
            })?;
        }
    }
    Ok(dots)
}
