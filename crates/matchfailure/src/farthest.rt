//! Finds where the comparisons of a unit fail outside of the operands of `!`: the farthest such position, and what was
//! expected there.

mod failures;
mod laws;
mod order;
mod reported;
mod stop;
mod visit;

pub use failures::{Farthest, UnitSearch, farthest_failure};
pub use laws::{
    failing_leaf_stops, farthest_is_within, farthest_or_none, one_farthest, same_on_longer,
    stops_fail,
};
pub use reported::{LastUnit, reported_unit};
pub(crate) use stop::stop_of;
pub use visit::Visit;
