//! Laws. They return.

use gramcheck::{
    events_rise, events_rise_of_start, exactly_one_outcome, exactly_one_outcome_of_start,
    longer_input, longer_input_of_start, one_list_of_notes, one_outcome, one_outcome_of_start,
    ranks_fall, shorter_input, shorter_input_of_start, silent_leaves_no_event, some_outcome,
    some_outcome_of_ranked, some_outcome_of_start,
};
use lexer::{have_tokens, one_list, tokens_make_up};
use matchfailure::{
    failing_leaf_stops, fails_so_in_input, farthest_or_none, one_farthest, one_no_match, stops_fail,
};
use pegmatch::{answer_stands, need_stands, one_answer};
use pegprint::is_read_back;
use pegread::{
    Kind, are_marked, one_reading, one_tree, spells_one_char, spells_one_class, spells_one_literal,
    spells_some_char, spells_some_class, spells_some_literal,
};

/// The laws of grammars' texts.
pub(crate) fn of_texts() {
    one_tree();
    one_reading();
    is_read_back();
    one_list::<Kind>();
    are_marked();
    tokens_make_up::<Kind>();
    have_tokens::<Kind>(b"a <- 'b' # c");
    spells_one_char();
    spells_some_char();
    spells_one_literal();
    spells_some_literal();
    spells_one_class();
    spells_some_class();
}

/// The laws of grammars that are ready to run.
pub(crate) fn of_grammars() {
    one_list_of_notes();
    one_outcome();
    one_outcome_of_start();
    events_rise();
    events_rise_of_start();
    longer_input();
    longer_input_of_start();
    shorter_input();
    shorter_input_of_start();
    silent_leaves_no_event();
    ranks_fall();
    some_outcome();
    some_outcome_of_start();
    some_outcome_of_ranked();
    exactly_one_outcome();
    exactly_one_outcome_of_start();
}

/// The laws of matches.
pub(crate) fn of_matches() {
    one_answer();
    answer_stands();
    need_stands();
    one_farthest();
    farthest_or_none();
    stops_fail();
    failing_leaf_stops();
    one_no_match();
    fails_so_in_input();
}
