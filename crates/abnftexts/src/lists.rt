//! Lines with their lists written out.
ghost use Rattle.std.specs.Prelude.{◌≡◌, List, ℕ, suc, map, IfOk};
ghost use Rattle.abnfblocks.specs.RuleCuts.{lines_text};
ghost use Rattle.abnfblocks.specs.TextLines.{NumberedLine, numbered};
ghost use Rattle.rfcforms.specs.Lists.{CutsLines, Expands};
ghost use Rattle.abnftexts.specs.WrittenLists.{IsFirstAsked, WritesLists, lines_alike, lines_written};
ghost use Rattle.abnftexts.specs.WrittenLists.{written_line as line_written};

use abnfblocks::{LineKind, RuleSearch, TextLine, find_rules, joined_text, one_finding};
use rfcforms::{ListForm, expanded_text, one_expansion, text_parts};
use ruletable::Memory;
use std::alloc::Global;

// A line with these bytes.
fn written_line<'a>(line: &TextLine<'_>, bytes: &'a [u8]) -> TextLine<'a>
    ensures { numbered result ≡ line_written (numbered line.now) bytes.now }
{
    if line.bytes == bytes {
        return TextLine {
            number: line.number,
            bytes,
            kind: line.kind,
        };
    }
    TextLine {
        number: line.number,
        bytes,
        kind: LineKind::Other,
    }
}

/// Returns lines with these for their bytes.
///
/// # Errors
/// `Memory` if an allocation fails.
pub(crate) fn written_lines<'a>(
    alloc: Global,
    lines: &[TextLine<'_>],
    text: &'a [u8],
) -> Result<Vec<TextLine<'a>>, Memory>
    ensures { IfOk result (λ written. (source : List ℕ) → (form : ListForm) → Expands form source text.now
        → source ≡ lines_text 0 (map numbered lines.now)
        → WritesLists form (map numbered lines.now) text.now (map numbered written.items)) }
{
    let parts = text_parts(alloc, text)?;
    let mut written = Vec::new(alloc);
    for i in 0..parts.len().min(lines.len()) {
        written.push(written_line(&lines[i], parts[i]))?;
    }
    Ok(written)
}

/// Returns the number of the first line that is written otherwise, from 1.
pub(crate) fn first_changed(lines: &[TextLine<'_>], written: &[TextLine<'_>]) -> usize
    ensures { result ≡ suc (lines_alike (map numbered lines.now) (map numbered written.now)) }
{
    let size = lines.len().min(written.len());
    let mut count = 0;
    while count < size && lines[count].bytes == written[count].bytes {
        count += 1;
    }
    count + 1
}

/// Returns the number of the first of these lines that has a list, from 1, if they begin with a rule that reads with
/// its lists; none where that is not asked.
///
/// # Errors
/// `Memory` if an allocation fails.
pub(crate) fn first_list(
    alloc: Global,
    asks: bool,
    lines: &[TextLine<'_>],
) -> Result<Option<usize>, Memory>
    ensures { IfOk result (λ first. IsFirstAsked asks (map numbered lines.now) first) }
{
    if !asks {
        return Ok(None);
    }
    one_expansion();
    one_finding();
    let text = joined_text(alloc, 0, lines)?;
    let new = expanded_text(alloc, ListForm::Receive, &text)?;
    if new == text {
        return Ok(None);
    }
    let written = written_lines(alloc, lines, &new)?;
    let found = find_rules(alloc, &written)?;
    match found.first() {
        Some(RuleSearch::Rule { .. }) => Ok(Some(first_changed(lines, &written))),
        _ => Ok(None),
    }
}
