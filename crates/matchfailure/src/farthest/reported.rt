//! Chooses the unit whose farthest failure is reported.
ghost use Rattle.std.specs.Prelude.{◌≡◌};
ghost use Rattle.matchfailure.specs.ReportedUnit.{reported_unit_of};

/// One of the last two units of a run.
#[derive(Clone, Copy)]
pub enum LastUnit {
    /// The last unit, which does not match.
    Last,
    /// The unit before it, which matched and may have stopped early.
    Before,
}

/// Returns the unit whose farthest failing comparison stands farther in the input: the last one if both stand at one
/// byte, or if neither has one.
///
/// Each position is that of the unit's farthest failing comparison, in bytes from the front of the input, if it has
/// one.
pub fn reported_unit(before: Option<u128>, last: Option<u128>) -> LastUnit
    ensures { result ≡ reported_unit_of before last }
{
    match (before, last) {
        (Some(before), Some(last)) => {
            if last < before {
                LastUnit::Before
            } else {
                LastUnit::Last
            }
        }
        (Some(_), None) => LastUnit::Before,
        (None, _) => LastUnit::Last,
    }
}
