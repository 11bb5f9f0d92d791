//! Reports of positions in texts.
ghost use Rattle.std.specs.Prelude.{◌≡◌, ◌++◌, ◌-◌, codes, decimal, map, IfOk, OnOk};
ghost use Rattle.abnfblocks.specs.TextLines.{numbered};
ghost use Rattle.ruletable.specs.Faults.{at_line, fault_text};
ghost use Rattle.abnftexts.specs.TextPositions.{number_at as number_there, fault_in as fault_there, position_shown};
ghost use Rattle.abnftexts.specs.TextPositions.{list_reported, not_abnf_reported};

use abnfblocks::TextLine;
use diagnostics::{push_number, push_shown};
use ruletable::{Memory, ReadFault};
use std::alloc::Global;

/// Returns the number in its text of the n-th of these lines, from 1, or of the last one if there are fewer.
pub(crate) fn number_at(lines: &[TextLine<'_>], n: usize) -> usize
    ensures { result ≡ number_there (map numbered lines.now) n }
{
    let position = n.saturating_sub(1).min(lines.len().saturating_sub(1));
    match lines.get(position) {
        Some(line) => line.number,
        None => 0,
    }
}

// The fault of these lines, with the number that the line has in the text.
fn fault_in(lines: &[TextLine<'_>], fault: ReadFault) -> ReadFault
    ensures { result ≡ fault_there (map numbered lines.now) fault }
{
    match fault {
        ReadFault::Syntax { line } => ReadFault::Syntax {
            line: number_at(lines, line),
        },
        ReadFault::Depth { line } => ReadFault::Depth {
            line: number_at(lines, line),
        },
        ReadFault::CodePredicate { line } => ReadFault::CodePredicate {
            line: number_at(lines, line),
        },
        ReadFault::NumberTooLarge { line } => ReadFault::NumberTooLarge {
            line: number_at(lines, line),
        },
        ReadFault::TooLong => ReadFault::TooLong,
        ReadFault::Memory => ReadFault::Memory,
    }
}

/// Adds a text's name and a line of it.
pub(crate) fn push_position(out: &mut Vec<u8>, name: &[u8], line: usize) -> Result<(), Memory>
    ensures { OnOk result (out.new.items ≡ out.old.items ++ position_shown name.now line) }
{
    push_shown(out, name)?;
    out.extend_from_slice(b":")?;
    push_number(out, line)?;
    Ok(())
}

// Adds what is wrong on a line.
fn push_at_line(out: &mut Vec<u8>, line: usize, what: &[u8]) -> Result<(), Memory>
    ensures { OnOk result (out.new.items ≡ out.old.items ++ at_line line what.now) }
{
    out.extend_from_slice(b"line ")?;
    push_number(out, line)?;
    out.extend_from_slice(b": ")?;
    out.extend_from_slice(what)?;
    out.extend_from_slice(b"\n")?;
    Ok(())
}

// Adds the line of a fault.
fn push_fault(out: &mut Vec<u8>, fault: ReadFault) -> Result<(), Memory>
    ensures { OnOk result (out.new.items ≡ out.old.items ++ fault_text fault) }
{
    match fault {
        ReadFault::Syntax { line } => push_at_line(out, line, b"syntax error"),
        ReadFault::Depth { line } => push_at_line(out, line, b"nested too deeply"),
        ReadFault::CodePredicate { line } => push_at_line(out, line, b"code predicate"),
        ReadFault::NumberTooLarge { line } => push_at_line(out, line, b"number too large"),
        ReadFault::TooLong => Ok(out.extend_from_slice(b"grammar too long\n")?),
        ReadFault::Memory => Ok(out.extend_from_slice(b"out of memory\n")?),
    }
}

/// Returns the message on a rule that has these lines and reads only with its lists, of which that line has the first.
///
/// # Errors
/// `Memory` if an allocation fails.
pub(crate) fn list_message(
    alloc: Global,
    name: &[u8],
    lines: &[TextLine<'_>],
    n: usize,
) -> Result<Vec<u8>, Memory>
    ensures { IfOk result (λ message. message.items ≡ list_reported name.now (map numbered lines.now) n) }
{
    let mut message = Vec::new(alloc);
    push_position(&mut message, name, number_at(lines, 1))?;
    message.extend_from_slice(b": not ABNF: ")?;
    push_at_line(
        &mut message,
        number_at(lines, n),
        b"list of RFC 9110: use --expand",
    )?;
    Ok(message)
}

/// Returns the message on a rule that is no ABNF, where it has these lines and they have that fault.
///
/// # Errors
/// `Memory` if an allocation fails.
pub(crate) fn fault_message(
    alloc: Global,
    name: &[u8],
    lines: &[TextLine<'_>],
    fault: ReadFault,
) -> Result<Vec<u8>, Memory>
    ensures { IfOk result (λ message. message.items ≡ not_abnf_reported name.now (map numbered lines.now) fault) }
{
    let mut message = Vec::new(alloc);
    push_position(&mut message, name, number_at(lines, 1))?;
    message.extend_from_slice(b": not ABNF: ")?;
    push_fault(&mut message, fault_in(lines, fault))?;
    Ok(message)
}
