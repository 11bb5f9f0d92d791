//! Explanations of all faults of a text.
ghost use Rattle.std.specs.Prelude.{◌≡◌, ◌≢◌, ◌≤◌, ◌++◌, ℕ, List, length, drop, IfOk, OnOk};
ghost use Rattle.lexer.specs.GrammarLimits.{max_grammar};
ghost use Rattle.diagnostics.specs.LaterFaults.{on_line as moved};
ghost use Rattle.ruletable.specs.declared.fault.ReadFault.{ReadFault as AnyFault};
ghost use Rattle.pegread.specs.Reading.{IsFaultOf};
ghost use Rattle.pegprint.specs.PegAllFaults.{AreOthers, ExplainsAll, IsFaultFrom, name_from as name_offset};
ghost use Rattle.pegprint.specs.PegDecisions.{NoneDecides, token_of};

use crate::faults::deciding_token::{DecidingToken, deciding_token};
use crate::faults::explain::explain_fault;
use crate::faults::rule_lines::{greatest_indent, next_rule_line};
use diagnostics::fault_message;
use lexer::tokens_make_up;
use pegread::{Kind, one_reading, read_peg};
use ruletable::{LineRule, Memory, ReadFault, line_of};
use std::alloc::Global;

/// How many faults of a text are reported.
pub const MAX_FAULTS: usize = 16;

// Returns the same fault on another line.
fn on_line(line: usize, fault: ReadFault) -> ReadFault
    ensures { result ≡ moved line fault }
{
    match fault {
        ReadFault::Syntax { .. } => ReadFault::Syntax { line },
        ReadFault::Depth { .. } => ReadFault::Depth { line },
        ReadFault::CodePredicate { .. } => ReadFault::CodePredicate { line },
        ReadFault::NumberTooLarge { .. } => ReadFault::NumberTooLarge { line },
        ReadFault::TooLong | ReadFault::Memory => fault,
    }
}

// Returns where the name of the next rule can stand.
fn name_from(decided: DecidingToken<'_>) -> usize
    ensures { result ≡ name_offset decided.entry.before (token_of decided.entry.decision) }
{
    let token = decided.decision.token();
    match token.kind {
        Kind::Arrow => decided.before,
        _ => token.span.start,
    }
}

// Adds the message and the lines of the fault of a text that is read from a position on. Returns how many bytes after
// that position the name of the next rule can stand.
fn push_fault(
    alloc: Global,
    out: &mut Vec<u8>,
    text: &[u8],
    start: usize,
    fault: ReadFault,
) -> Result<usize, Memory>
    requires start { start ≤ length text.now }
    requires size { length text.now ≤ max_grammar }
    requires fault { IsFaultOf (drop start text.now) fault }
    requires named { fault ≢ AnyFault.Memory }
    ensures { IfOk result (λ ahead. (reported : List ℕ) × IsFaultFrom text.now start reported ahead
        × (out.new.items ≡ out.old.items ++ reported)) }
{
    tokens_make_up::<Kind>();
    let rest = &text[start..];
    let Some(decided) = deciding_token(rest) else {
        unreachable!()
    };
    let token = decided.decision.token();
    let line = line_of(text, start + token.span.start, LineRule::Any);
    let message = fault_message(alloc, &on_line(line, fault))?;
    let why = explain_fault(alloc, rest, fault)?;
    out.extend_from_slice(&message)?;
    out.extend_from_slice(&why)?;
    Ok(name_from(decided))
}

// Adds the messages and the lines of the faults of a text after its first one.
fn push_others(alloc: Global, out: &mut Vec<u8>, text: &[u8]) -> Result<(), Memory>
    requires size { length text.now ≤ max_grammar }
    requires decided { NoneDecides text.now → ⊥ }
    ensures { OnOk result ((reported : List ℕ) × AreOthers text.now reported
        × (out.new.items ≡ out.old.items ++ reported)) }
{
    one_reading();
    let Some(decided) = deciding_token(text) else {
        unreachable!()
    };
    let most = greatest_indent(text);
    let mut start = 0;
    let mut ahead = name_from(decided);
    for _fault in 1..MAX_FAULTS {
        let Some(next) = next_rule_line(text, most, start, ahead) else {
            return Ok(());
        };
        start = next;
        match read_peg(alloc, &text[start..]) {
            Ok(_) => return Ok(()),
            Err(ReadFault::Memory) => return Err(Memory),
            Err(fault) => ahead = push_fault(alloc, out, text, start, fault)?,
        }
    }
    Ok(())
}

/// Returns the lines that explain the fault of a grammar's text, and then the messages and the lines of later faults.
/// There are at most `MAX_FAULTS` in all.
///
/// After a fault the text is read anew from the next line on that begins a rule by its form: blanks, no more than the
/// first such line has, a name, in which dashes may stand, blanks, and `<-`. That name stands at the token that decides
/// or after it; if that token is `<-`, at the token before it or after that.
///
/// # Errors
/// `Memory` if an allocation fails.
pub fn explain_faults(alloc: Global, text: &[u8], fault: ReadFault) -> Result<Vec<u8>, Memory>
    requires { IsFaultOf text.now fault }
    ensures { IfOk result (λ why. ExplainsAll text.now fault why.items) }
{
    let mut out = explain_fault(alloc, text, fault)?;
    match fault {
        ReadFault::TooLong | ReadFault::Memory => Ok(out),
        _ => {
            push_others(alloc, &mut out, text)?;
            Ok(out)
        }
    }
}
