//! Texts as their lines are read.
ghost use Rattle.std.specs.Prelude.{map, option_map, IfOk};
ghost use Rattle.abnftexts.specs.RulesGathered.{named_text};
ghost use Rattle.abnftexts.specs.ShownTexts.{AreShown, IsShown, AreListsOut};

use crate::gathered::{ShownText, SourceText};
use abnfblocks::{joined_text, read_lines, source_text, without_mark};
use rfcforms::{ListForm, expanded_text, is_xml};
use ruletable::Memory;
use std::alloc::Global;

// Returns the lines of these bytes with lists written out, where a form is asked for.
fn written_out(
    alloc: Global,
    bytes: &[u8],
    of_xml: bool,
    lists: Option<ListForm>,
) -> Result<Option<Vec<u8>>, Memory>
    ensures { IfOk result (λ written. AreListsOut of_xml bytes.now lists (option_map (λ v. v.items) written)) }
{
    let Some(form) = lists else {
        return Ok(None);
    };
    let kept = read_lines(alloc, bytes, of_xml)?;
    let text = joined_text(alloc, 0, &kept)?;
    Ok(Some(expanded_text(alloc, form, &text)?))
}

// Returns a text as its lines are read.
fn shown_text<'a>(
    alloc: Global,
    text: &SourceText<'a>,
    lists: Option<ListForm>,
) -> Result<ShownText<'a>, Memory>
    ensures { IfOk result (λ shown. IsShown lists (named_text text.now) shown) }
{
    let source = without_mark(text.bytes);
    let of_xml = is_xml(source);
    let bytes = source_text(alloc, source, of_xml)?;
    let written = written_out(alloc, &bytes, of_xml, lists)?;
    Ok(ShownText {
        name: text.name,
        bytes,
        of_xml,
        written,
    })
}

/// Returns the texts as their lines are read: without a byte order mark, and of an XML text its contents. Lists are
/// written out in the form that is asked for.
///
/// # Errors
/// `Memory` if an allocation fails.
pub(crate) fn shown_texts<'a>(
    alloc: Global,
    texts: &[SourceText<'a>],
    lists: Option<ListForm>,
) -> Result<Vec<ShownText<'a>>, Memory>
    ensures { IfOk result (λ shown. AreShown lists (map named_text texts.now) shown.items) }
{
    let mut all = Vec::new(alloc);
    for text in texts {
        let shown = shown_text(alloc, text, lists)?;
        all.push(shown)?;
    }
    Ok(all)
}
