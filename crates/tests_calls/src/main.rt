//! The public calls of the libraries that no run shows, on the rows of `stdin`, whose answers a standard, a manual or a
//! hand gives.
#![tactic(auto)]

mod abnf;
mod ends;
mod fields;
mod peg;
mod program;
mod rows;

use crate::fields::{Fields, Text};
use crate::program::run_input;
use crate::rows::Calls;
use std::alloc::Global;
use std::io;

/// The calls of the libraries.
struct LibraryCalls;

impl Calls for LibraryCalls {
    fn run(&self, alloc: Global, call: &str, fields: &Fields, out: &mut Text) -> Option<()> {
        match call {
            "next_char" => Some(peg::grammars::next_char_of(fields, out)),
            "peg_tokens" => Some(peg::grammars::tokens_of(fields, out)),
            "spans" => Some(peg::grammars::spans_of(fields, out)),
            "peg_prefixes" => Some(peg::grammars::prefixes_read(alloc, fields, out)),
            "peg_bytes" => Some(peg::grammars::single_bytes_read(alloc, out)),
            "line" => Some(peg::grammars::line_at(fields, out)),
            "units" => peg::units::units_of(alloc, fields, out),
            "text_laws" => Some(peg::laws::of_texts()),
            "grammar_laws" => Some(peg::laws::of_grammars()),
            "match_laws" => Some(peg::laws::of_matches()),
            "abnf_tokens" => Some(abnf::grammars::tokens_of(fields, out)),
            "abnf_prefixes" => Some(abnf::grammars::prefixes_read(alloc, fields, out)),
            "abnf_bytes" => Some(abnf::grammars::single_bytes_read(alloc, out)),
            "items" => abnf::judges::items_of(alloc, fields, out),
            "automaton" => abnf::judges::answers_of(alloc, fields, out),
            "utf8" => abnf::symbols::points_of(alloc, fields, out),
            "end" => Some(ends::end_of(alloc, fields, out)),
            "abnf_laws" => Some(abnf::grammars::laws()),
            _ => None,
        }
    }
}

fn main(rt: HostRuntime) -> io::Result<()> {
    run_input(&rt, &LibraryCalls)
}
