//! Grammars as numbered nodes, with the tables that judging looks up by node.
#![tactic(auto)]

mod bounds;
mod callers;
mod classes;
mod closure;
mod dot_list;
mod flat;
mod flat_item;
mod flat_node;
mod inlined;
mod item_laws;
mod prediction_closure;
mod stacks;
mod tables;
mod targets;
mod verdict;

pub use classes::{Classes, class_of, find_classes};
pub use closure::{DottedRule, ItemClosure};
pub use dot_list::{Ask, DotList};
pub use flat::Flat;
pub use flat_item::Item;
pub use flat_node::{Ends, Node, Set};
pub use inlined::{Inlined, begin_steps};
pub use item_laws::items_at_most;
pub use stacks::{a_letter_leads_on, stacks_decide, suffixes_are_moved, walks_find_old_items};
pub use tables::{
    Operation, Tables, asks, call, called_node, calls, dots, is_name, null, operation_of, part_of,
    passes, readers, reads, sole_caller, start_target, takes_letter,
};
pub use verdict::Verdict;
