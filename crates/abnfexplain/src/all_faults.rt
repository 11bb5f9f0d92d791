//! Explanations of all faults of a text.
ghost use Rattle.std.specs.Prelude.{◌≡◌, ◌≤◌, ◌++◌, ℕ, List, length, drop, IfOk, OnOk, MatchOption};
ghost use Rattle.lexer.specs.GrammarLimits.{max_grammar};
ghost use Rattle.abnfread.specs.AbnfReading.{IsFaultOf};
ghost use Rattle.abnfexplain.specs.AbnfAllFaults.{AreOthers, ExplainsAll, IsFaultFrom};
ghost use Rattle.abnfexplain.specs.AbnfDecisions.{NoneDecides};
ghost use Rattle.abnfexplain.specs.AbnfRuleLines.{IsMargin};

use crate::abnf_decide::{deciding_token, fault_token};
use crate::abnf_explain::{explain_abnf_fault, indent_of, token_lines};
use crate::rule_lines::next_rule_line;
use abnfread::{AbnfKind, abnf_tokens};
use diagnostics::fault_message;
use lexer::{have_tokens, tokens_make_up};
use ruletable::{LineRule, Memory, ReadFault, line_of};
use std::alloc::Global;

/// How many faults of a text are reported.
pub const MAX_FAULTS: usize = 16;

// Returns how many blanks stand before the first token of a text on its line.
fn margin_of(text: &[u8]) -> usize
    ensures { IsMargin text.now result }
{
    have_tokens::<AbnfKind>(text);
    tokens_make_up::<AbnfKind>();
    let mut tokens = abnf_tokens(text);
    match tokens.next() {
        Some(first) => indent_of(text, first),
        None => 0,
    }
}

// Adds the message and the lines of the fault of a text that is read from a position on. Returns how many bytes after
// that position the token stands that decides; `None` if there is no fault.
fn push_fault(
    alloc: Global,
    out: &mut Vec<u8>,
    text: &[u8],
    start: usize,
) -> Result<Option<usize>, Memory>
    requires start { start ≤ length text.now }
    requires size { length text.now ≤ max_grammar }
    ensures { IfOk result (λ o. MatchOption o
        (NoneDecides (drop start text.now) × (out.new.items ≡ out.old.items))
        (λ ahead. (reported : List ℕ) × IsFaultFrom text.now start reported ahead
        × (out.new.items ≡ out.old.items ++ reported))) }
{
    let rest = &text[start..];
    have_tokens::<AbnfKind>(rest);
    tokens_make_up::<AbnfKind>();
    let Some(decision) = deciding_token(alloc, rest)? else {
        return Ok(None);
    };
    let ahead = decision.token().token.span.start;
    let line = line_of(text, start + ahead, LineRule::Lf);
    let message = fault_message(alloc, &decision.fault(line))?;
    let why = token_lines(alloc, rest, &decision)?;
    out.extend_from_slice(&message)?;
    out.extend_from_slice(&why)?;
    Ok(Some(ahead))
}

// Adds the messages and the lines of the faults of a text after its first one.
fn push_others(alloc: Global, out: &mut Vec<u8>, text: &[u8]) -> Result<(), Memory>
    requires size { length text.now ≤ max_grammar }
    requires decided { NoneDecides text.now → ⊥ }
    ensures { OnOk result ((reported : List ℕ) × AreOthers text.now reported
        × (out.new.items ≡ out.old.items ++ reported)) }
{
    let Some(token) = fault_token(alloc, text)? else {
        unreachable!()
    };
    let margin = margin_of(text);
    let mut start = 0;
    let mut ahead = token.span.start;
    for _fault in 1..MAX_FAULTS {
        let Some(next) = next_rule_line(text, margin, start, ahead) else {
            return Ok(());
        };
        start = next;
        let Some(further) = push_fault(alloc, out, text, start)? else {
            return Ok(());
        };
        ahead = further;
    }
    Ok(())
}

/// Returns the lines that explain the fault of a grammar's text, and then the messages and the lines of later faults.
/// There are at most `MAX_FAULTS` in all.
///
/// After a fault the text is read anew from the next line on that begins a rule by its form: as many blanks as stand
/// before the first rule, a word, blanks, at most two `:`, and `=`. A word holds no blank, no CR or LF, and none of
/// `; " < > = / ( ) [ ] :`. It stands at the token that decides or after it.
///
/// # Errors
/// `Memory` if an allocation fails.
pub fn explain_abnf_faults(alloc: Global, text: &[u8], fault: ReadFault) -> Result<Vec<u8>, Memory>
    requires { IsFaultOf text.now fault }
    ensures { IfOk result (λ why. ExplainsAll text.now fault why.items) }
{
    let mut out = explain_abnf_fault(alloc, text, fault)?;
    match fault {
        ReadFault::TooLong | ReadFault::Memory => Ok(out),
        _ => {
            push_others(alloc, &mut out, text)?;
            Ok(out)
        }
    }
}
