//! Rules that stand.
ghost use Rattle.std.specs.Prelude.{◌≡◌, IfOk};
ghost use Rattle.abnftexts.specs.JoinedGrammar.{standing};

use crate::join::Fate;
use ruletable::Memory;
use std::alloc::Global;

/// Keeps the items of `all` whose fate says that their rule stands.
///
/// # Errors
/// `Memory` if an allocation fails.
pub(crate) fn kept_standing<T: Drop>(
    alloc: Global,
    fates: &[Fate],
    all: Vec<T>,
) -> Result<Vec<T>, Memory>
    ensures { IfOk result (λ kept. kept.items ≡ standing fates.now all.items) }
{
    let mut kept = Vec::new(alloc);
    let mut left = fates;
    for it in all {
        let Some((fate, after)) = left.split_first() else {
            break;
        };
        left = after;
        if matches!(*fate, Fate::Stands) {
            kept.push(it)?;
        }
    }
    Ok(kept)
}
