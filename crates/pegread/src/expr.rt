//! Expressions, of which rules' bodies consist.
ghost use Rattle.std.specs.Prelude.{◌≡◌, ◌<◌, length};
ghost use Rattle.ruletable.specs.declared.table.NameCase.TheVariants.{Exact};
ghost use Rattle.ruletable.specs.Rules.{AreIds};

use ruletable::{ByteSet, RuleTable};

/// A parsing expression (Ford 2004, section 3), with the captures and actions of peg(1).
#[derive(Drop)]
pub enum Expr {
    /// Any one byte.
    Any,
    /// These bytes.
    Bytes(Vec<u8>),
    /// One byte of a class.
    Set(ByteSet),
    /// The rule of that name.
    Name(Vec<u8>),
    /// All of them, in order.
    Seq(Vec<Expr>),
    /// The first that succeeds.
    Choice(Vec<Expr>),
    /// As often as it succeeds.
    Star(Box<Expr>),
    /// As often as it succeeds, but at least once.
    Plus(Box<Expr>),
    /// Once, if it succeeds.
    Opt(Box<Expr>),
    /// Whether it succeeds; takes nothing.
    And(Box<Expr>),
    /// Whether it fails; takes nothing.
    Not(Box<Expr>),
    /// An action, with the text between its outer braces.
    Act(Vec<u8>),
    /// The start of a capture.
    Open,
    /// The end of a capture.
    Close,
}

/// A grammar as it was read.
#[derive(Drop)]
pub struct Peg {
    /// The rules, at least one. Their names compare exactly.
    pub rules: RuleTable<Expr>,
    /// The ids of the rules that a later definition names again.
    pub redefined: Vec<usize>,
    ghost exact: { rules.names ≡ Exact },
    ghost some: { 0 < length rules.rules },
    ghost within: { AreIds rules redefined.items },
}
