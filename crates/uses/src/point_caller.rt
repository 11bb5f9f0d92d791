//! A caller of `letters`.
ghost use Rattle.std.specs.Prelude.{◌≡◌, ℕ, List, length, IfOk, MatchOption};
ghost use Rattle.ruletable.specs.Utf8Text.{IsText, Spells};

use ruletable::{Memory, decode};
use std::alloc::Global;

/// Returns how many code points a line has; none if the line is not UTF-8.
pub fn count_points(alloc: Global, line: &[u8]) -> Result<Option<usize>, Memory>
    ensures { IfOk result (λ count. MatchOption count (IsText line.now → ⊥)
        (λ n. (points : List ℕ) × Spells points line.now × (length points ≡ n))) }
{
    let mut points = Vec::new(alloc);
    if decode(line, &mut points)? {
        return Ok(Some(points.len()));
    }
    Ok(None)
}
