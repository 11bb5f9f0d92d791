//! Callers of `pegread`: a grammar is printed and read back.
ghost use Rattle.std.specs.Prelude.{List, IfOk, IfErr, IfSome};
ghost use Rattle.pegread.specs.Definitions.{IsTableOf};
ghost use Rattle.pegread.specs.Pattern.{Rule};
ghost use Rattle.pegprint.specs.ReadBack.{ReadsAs, SameButSpans};
ghost use Rattle.pegread.specs.Reading.{IsFaultOf, Reads};

use pegprint::print_peg;
use pegread::{MAX_GRAMMAR, Peg, read_peg};
use ruletable::{ReadFault, SinkOf};
use std::alloc::Global;

/// Returns the canonical text of a grammar's text; none if that defines a rule again, or its canonical text is too
/// long.
pub fn canonical_text(alloc: Global, text: &[u8]) -> Result<Option<Vec<u8>>, ReadFault>
    ensures same { IfOk result (λ printed. IfSome printed (λ out.
        (definitions : List Rule) × Reads text.now definitions × ReadsAs out.items definitions)) }
    ensures fault { IfErr result (λ f. IsFaultOf text.now f) }
{
    let peg = read_peg(alloc, text)?;
    if !peg.redefined.is_empty() {
        return Ok(None);
    }
    let mut sink = SinkOf::new(Vec::new(alloc));
    match print_peg(&peg, &mut sink) {
        Ok(()) => {}
        Err(_) => return Err(ReadFault::Memory),
    }
    let out = sink.into_inner();
    if out.len() > MAX_GRAMMAR {
        return Ok(None);
    }
    Ok(Some(out))
}

/// Returns the grammar that the canonical text of a grammar's text reads as; none where `canonical_text` returns none.
/// Reading the canonical text fails only if an allocation fails.
pub fn read_again(alloc: Global, text: &[u8]) -> Result<Option<Peg>, ReadFault>
    ensures same { IfOk result (λ again. IfSome again (λ peg.
        (definitions : List Rule) × Reads text.now definitions ×
        (again : List Rule) × SameButSpans definitions again × IsTableOf again peg.rules peg.redefined.items)) }
    ensures fault { IfErr result (λ f. IsFaultOf text.now f) }
{
    let Some(canonical) = canonical_text(alloc, text)? else {
        return Ok(None);
    };
    match read_peg(alloc, &canonical) {
        Ok(peg) => Ok(Some(peg)),
        Err(fault) => Err(fault),
    }
}
