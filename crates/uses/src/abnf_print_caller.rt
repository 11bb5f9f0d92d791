//! A caller of `abnfprint`.
ghost use Rattle.std.specs.Prelude.{List, IfOk, IfErr, IfSome};
ghost use Rattle.abnfprint.specs.AbnfReadBack.{ReadsAs, file_rules};
ghost use Rattle.abnfread.specs.AbnfReading.{IsFaultOf, Reads};
ghost use Rattle.abnfread.specs.Element.{Definition};

use abnfprint::print_abnf;
use abnfread::read_abnf;
use lexer::MAX_GRAMMAR;
use ruletable::{ReadFault, SinkOf};
use std::alloc::Global;

/// Returns the canonical text of the text of a grammar in ABNF, which reads as the same rules; none if it is too long.
pub fn canonical_abnf(alloc: Global, text: &[u8]) -> Result<Option<Vec<u8>>, ReadFault>
    ensures same { IfOk result (λ printed. IfSome printed (λ out.
        (definitions : List Definition) × Reads text.now definitions × ReadsAs out.items (file_rules definitions))) }
    ensures fault { IfErr result (λ f. IsFaultOf text.now f) }
{
    let abnf = read_abnf(alloc, text)?;
    let mut sink = SinkOf::new(Vec::new(alloc));
    match print_abnf(&abnf, &mut sink) {
        Ok(()) => {}
        Err(_) => return Err(ReadFault::Memory),
    }
    let out = sink.into_inner();
    if out.len() > MAX_GRAMMAR {
        return Ok(None);
    }
    Ok(Some(out))
}
