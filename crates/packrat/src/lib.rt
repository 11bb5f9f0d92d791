//! The packrat matcher: it stores an outcome only where a node can be asked for twice at a position, and evaluates each
//! node at each position at most once.
#![tactic(auto)]

mod byte_laws;
mod counts;
mod events;
mod frames;
mod iterations;
mod known;
mod laws;
mod machine;
mod onward;
mod packrat;
mod skips;

pub use byte_laws::{
    fresh_above_mark, iterations_close, iterations_give, iterations_run, iterations_whole,
    one_byte_decides,
};
pub use frames::{Frame, Wait};
pub use laws::{
    asked_once, evaluated_once, implied_cells, one_view, one_width, steps_hold, steps_run,
};
pub use packrat::Packrat;
