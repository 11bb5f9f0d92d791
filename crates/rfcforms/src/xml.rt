//! The parts of an XML text that hold ABNF.

mod contents;
mod piece;
mod reference;
mod region;
mod space;
mod tag;

pub use contents::{MARK, marked_text};
pub use region::{Holder, Region};
pub use space::is_xml;
