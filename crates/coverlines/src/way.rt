//! What an element may do.

use abnfread::Elem;

/// What an element does in a derivation.
#[derive(Clone, Copy, PartialEq, Eq)]
pub enum GoalWay {
    /// An alternation takes the alternative of that number.
    Chosen(usize),
    /// An option takes its operand.
    Taken,
    /// An option leaves its operand out.
    LeftOut,
    /// A repetition takes its operand so many times.
    Rounds(u64),
    /// A range gives its least symbol.
    First,
    /// A range gives its greatest symbol.
    Last,
    /// A text or a list of values gives itself.
    Same,
    /// A text gives itself with each letter in the other case.
    OtherCase,
}

/// What an element in the body of a rule does in a derivation.
#[derive(Clone, Copy)]
pub struct CoverGoal<'a> {
    /// The id of the rule.
    pub rule: usize,
    /// The element.
    pub elem: &'a Elem,
    /// What it does.
    pub way: GoalWay,
}
