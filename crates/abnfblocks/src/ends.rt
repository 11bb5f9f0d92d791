//! Ends of lines at which a rule cannot end.
ghost use Rattle.std.specs.Prelude.{◌≡◌, map, IfOk};
ghost use Rattle.abnfblocks.specs.RuleEnds.{AreTests, LeavesOpen, nothing_open, stand_after};
ghost use Rattle.abnfblocks.specs.TextLines.{numbered};

use crate::rfctext::TextLine;
use crate::rule::joined_text;
use abnfread::AbnfKind;
use lexer::{MAX_GRAMMAR, MAX_OPEN, tokens};
use ruletable::Memory;
use std::alloc::Global;

/// The brackets and the definition that the tokens so far leave open.
#[derive(Clone, Copy)]
pub(crate) enum LeftOpen {
    /// So many brackets are open, and an element has to follow or not.
    Open { depth: usize, wants: bool },
    /// Bytes that begin no token, or more brackets than may be open.
    Unknown,
}

// The state after a token.
fn after_token(stand: LeftOpen, kind: AbnfKind) -> LeftOpen
    ensures { result ≡ stand_after stand kind }
{
    let LeftOpen::Open { depth, wants } = stand else {
        return LeftOpen::Unknown;
    };
    match kind {
        AbnfKind::LParen | AbnfKind::LBrack => {
            if depth < MAX_OPEN {
                LeftOpen::Open {
                    depth: depth + 1,
                    wants: true,
                }
            } else {
                LeftOpen::Unknown
            }
        }
        AbnfKind::RParen | AbnfKind::RBrack => LeftOpen::Open {
            depth: depth.saturating_sub(1),
            wants: false,
        },
        AbnfKind::Is | AbnfKind::Adds | AbnfKind::Slash | AbnfKind::Repeat => LeftOpen::Open {
            depth,
            wants: true,
        },
        AbnfKind::Name | AbnfKind::Text | AbnfKind::Num | AbnfKind::Prose => LeftOpen::Open {
            depth,
            wants: false,
        },
        AbnfKind::Bad => LeftOpen::Unknown,
        AbnfKind::End => LeftOpen::Open { depth, wants },
    }
}

// The state after the tokens of a text.
fn after_text(before: LeftOpen, text: &[u8]) -> LeftOpen
    ensures { LeavesOpen before text.now result }
{
    let mut stand = before;
    for token in tokens::<AbnfKind>(text) {
        stand = after_token(stand, token.kind);
    }
    stand
}

// Whether nothing is open, or that is unknown.
fn is_closed(stand: LeftOpen) -> bool
    ensures { result ≡ nothing_open stand }
{
    match stand {
        LeftOpen::Open { depth, wants } => depth == 0 && !wants,
        LeftOpen::Unknown => true,
    }
}

/// Returns for each line of a rule, which is read without that margin, whether the rule may end there, up to the first
/// line with which it is too long. Where the answer is false, the lines up to there do not read: a bracket is open, or
/// an element has to follow.
///
/// # Errors
/// `Memory` if an allocation fails.
pub(crate) fn may_end(
    alloc: Global,
    margin_size: usize,
    rule: &[TextLine<'_>],
) -> Result<Vec<bool>, Memory>
    ensures { IfOk result (λ tests. AreTests margin_size (map numbered rule.now) tests.items) }
{
    let mut tests = Vec::new(alloc);
    let mut stand = LeftOpen::Open {
        depth: 0,
        wants: false,
    };
    let mut left = MAX_GRAMMAR;
    for at in 0..rule.len() {
        let text = joined_text(alloc, margin_size, &rule[at..at + 1])?;
        if text.len() > left {
            return Ok(tests);
        }
        left -= text.len();
        stand = after_text(stand, &text);
        tests.push(is_closed(stand))?;
    }
    Ok(tests)
}
