//! The rules that texts of RFCs give, joined in one grammar.
#![tactic(auto)]

mod gathered;
mod join;
mod joined;
mod laws;
mod listed;
mod lists;
mod named;
mod own;
mod printed;
mod renamed;
mod reported;
mod shown;
mod stands;
mod taken;
mod undefined;
mod uses;
mod values;

pub use gathered::{RuleReport, SourceText};
pub use join::{
    Clash, Fate, GivenRule, find_clashes, find_fates, find_order, is_only_prose, is_same_element,
    linked_reading,
};
pub use joined::{JoinForm, JoinedTexts, join_texts};
pub use laws::{joined_reading, one_joining};
pub use rfcforms::ListForm;
