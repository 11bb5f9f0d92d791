//! Numbered nodes.

use ruletable::ByteSet;

/// One node of a grammar: the case of an expression (Ford 2004, section 3, and peg(1)), with the numbers of its
/// operands in their place.
#[derive(Drop)]
pub enum Node {
    /// Any one byte.
    Any,
    /// These bytes.
    Bytes(Vec<u8>),
    /// One byte of a class.
    Set(ByteSet),
    /// The rule of that id; the number of rules stands for a rule that is not there.
    Name(usize),
    /// All of them, in order.
    Seq(Vec<usize>),
    /// The first that succeeds.
    Choice(Vec<usize>),
    /// As often as it succeeds.
    Star(usize),
    /// As often as it succeeds, but at least once: the operand, and the node that goes on with it, its repetition.
    Plus { operand: usize, star: usize },
    /// Once, if it succeeds.
    Opt(usize),
    /// Whether it succeeds; takes nothing.
    And(usize),
    /// Whether it fails; takes nothing.
    Not(usize),
    /// An action, with its template.
    Act(Vec<u8>),
    /// The start of a capture.
    Open,
    /// The end of a capture.
    Close,
}
