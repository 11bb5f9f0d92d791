//! The lines of a text in which rules are looked for.
ghost use Rattle.std.specs.Prelude.{◌≡◌, ◌++◌, ◌<◌, ◌≤◌, ◌&&◌, ℕ, List, length, map, drop, max, nat_lt, slice_index_or};
ghost use Rattle.std.specs.Prelude.{IfOk, OnOk};
ghost use Rattle.abnfblocks.specs.Fences.{fenced_size as size_fenced, hides_block as block_hides, inside_title};
ghost use Rattle.abnfblocks.specs.Fences.{lines_inside as inside, opened_size, title_size as size_of_title};
ghost use Rattle.abnfblocks.specs.MaskedLines.{AreRead, MasksMarkdown, MasksTags, ReadsLines};
ghost use Rattle.abnfblocks.specs.MaskSteps.{MasksMore, each_longest, line_shown, lines_shown, longest_closing};
ghost use Rattle.abnfblocks.specs.TextLines.{NumberedLine, numbered};

use crate::rfctext::fence::{closing_length, hides_block, is_title_fence, opening_length};
use crate::rfctext::kept::kept_lines;
use crate::rfctext::line_kind::LineKind;
use crate::rfctext::tag::tag_sizes;
use crate::rfctext::text_line::TextLine;
use crate::rule::blank_count;
use ruletable::Memory;
use std::alloc::Global;

// Returns how many of the lines stand before the first one that closes a fence of that character and length.
fn lines_inside(lines: &[TextLine<'_>], mark: u8, size: usize) -> usize
    ensures count { result ≡ inside mark size (map numbered lines.now) }
    ensures within { result ≤ length lines.now }
{
    let mut count = 0;
    while count < lines.len() && closing_length(lines[count].bytes, mark) < size {
        count += 1;
    }
    count
}

// Returns the larger one of two numbers.
fn larger(a: usize, b: usize) -> usize
    ensures { result ≡ max a b }
{
    if a < b { b } else { a }
}

// Returns of each line, and of the end, how long the longest fence of that character is that closes a block from there
// on.
fn longest_lengths(alloc: Global, lines: &[TextLine<'_>], mark: u8) -> Result<Vec<usize>, Memory>
    ensures { IfOk result (λ lengths. lengths.items ≡ each_longest mark (map numbered lines.now)) }
{
    let mut lengths = Vec::new(alloc);
    let mut longest = 0;
    lengths.push(longest)?;
    let mut first = lines.len();
    while first > 0 {
        first -= 1;
        let more = larger(longest, closing_length(lines[first].bytes, mark));
        lengths.push(more)?;
        longest = more;
    }
    lengths.reverse();
    Ok(lengths)
}

// Returns how many lines the block has that a fence of that character opens on the first line, or 0. `longest` is the
// length of the longest fence that closes a block after that line.
fn block_size(lines: &[TextLine<'_>], mark: u8, longest: usize) -> usize
    requires some { 0 < length lines.now }
    requires longest { longest ≡ longest_closing mark (drop 1 (map numbered lines.now)) }
    ensures size { result ≡ opened_size mark (map numbered lines.now) }
    ensures within { result ≤ length lines.now }
{
    let size = opening_length(lines[0].bytes, mark);
    if size == 0 || longest < size {
        return 0;
    }
    lines_inside(&lines[1..], mark, size) + 2
}

// Returns how many lines the block has that a fence of either character opens on the first line, or 0. The numbers are
// the lengths of the longest fences of backticks and of tildes that close a block after that line.
fn fenced_size(lines: &[TextLine<'_>], ticks: usize, tildes: usize) -> usize
    requires some { 0 < length lines.now }
    requires ticks { ticks ≡ longest_closing 96 (drop 1 (map numbered lines.now)) }
    requires tildes { tildes ≡ longest_closing 126 (drop 1 (map numbered lines.now)) }
    ensures size { result ≡ size_fenced (map numbered lines.now) }
    ensures within { result ≤ length lines.now }
{
    let of_ticks = block_size(lines, b'`', ticks);
    of_ticks.max(block_size(lines, b'~', tildes))
}

// Returns the number at that index, or 0.
fn number_or_zero(numbers: &[usize], i: usize) -> usize
    ensures { result ≡ slice_index_or numbers.now i 0 }
{
    match numbers.get(i) {
        Some(n) => *n,
        None => 0,
    }
}

/// The next lines of a text, which are masked or not together.
#[derive(Clone, Copy)]
struct MaskedRun {
    /// How many lines.
    count: usize,
    /// Whether they are masked.
    masks: bool,
}

// Returns the lines of a block of that size, masked or not, or else one line that is not masked.
fn step_over(size: usize, hides: bool) -> MaskedRun
    ensures count { result.count ≡ max size 1 }
    ensures masks { result.masks ≡ (nat_lt 0 size && hides) }
{
    MaskedRun {
        count: size.max(1),
        masks: size > 0 && hides,
    }
}

// Returns the line, masked or not.
fn shown_line<'a>(line: &TextLine<'a>, masks: bool) -> TextLine<'a>
    ensures { numbered result ≡ line_shown masks (numbered line.now) }
{
    if masks {
        return TextLine {
            number: line.number,
            bytes: b"<",
            kind: LineKind::Other,
        };
    }
    *line
}

// Adds the lines, all masked or none.
fn push_lines<'a>(
    out: &mut Vec<TextLine<'a>>,
    lines: &[TextLine<'a>],
    masks: bool,
) -> Result<(), Memory>
    ensures { OnOk result (map numbered out.new.items
        ≡ map numbered out.old.items ++ lines_shown masks (map numbered lines.now)) }
{
    for line in lines {
        out.push(shown_line(line, masks))?;
    }
    Ok(())
}

// Adds the lines, with fenced blocks in another language masked.
fn push_fenced<'a>(
    alloc: Global,
    out: &mut Vec<TextLine<'a>>,
    lines: &[TextLine<'a>],
) -> Result<(), Memory>
    ensures { OnOk result (MasksMore size_fenced block_hides (map numbered lines.now) (map numbered out.old.items)
        (map numbered out.new.items)) }
{
    let ticks = longest_lengths(alloc, lines, b'`')?;
    let tildes = longest_lengths(alloc, lines, b'~')?;
    let mut first = 0;
    while first < lines.len() {
        let rest = &lines[first..];
        let size = fenced_size(
            rest,
            number_or_zero(&ticks, first + 1),
            number_or_zero(&tildes, first + 1),
        );
        let step = step_over(size, hides_block(&lines[first]));
        push_lines(out, &rest[..step.count], step.masks)?;
        first += step.count;
    }
    Ok(())
}

// Returns how many of the lines stand before the next fence of a title block.
fn title_inside(lines: &[TextLine<'_>]) -> usize
    ensures count { result ≡ inside_title (map numbered lines.now) }
    ensures within { result ≤ length lines.now }
{
    let mut count = 0;
    while count < lines.len() && !is_title_fence(lines[count].bytes) {
        count += 1;
    }
    count
}

// Returns the number of lines of the title block that the first line opens, or 0.
fn title_size(lines: &[TextLine<'_>]) -> usize
    ensures size { result ≡ size_of_title (map numbered lines.now) }
    ensures within { result ≤ length lines.now }
{
    let Some((first, rest)) = lines.split_first() else {
        return 0;
    };
    if !is_title_fence(first.bytes) {
        return 0;
    }
    let inside = title_inside(rest);
    if inside < rest.len() { inside + 2 } else { 0 }
}

// Returns the lines of a text in Markdown, with title block and blocks in other languages masked.
fn masked_markdown<'a>(alloc: Global, lines: &[TextLine<'a>]) -> Result<Vec<TextLine<'a>>, Memory>
    ensures { IfOk result (λ out. MasksMarkdown (map numbered lines.now) (map numbered out.items)) }
{
    let mut out = Vec::new(alloc);
    let (blank, rest) = lines.split_at(blank_count(lines));
    let (title, text) = rest.split_at(title_size(rest));
    push_lines(&mut out, blank, false)?;
    push_lines(&mut out, title, true)?;
    push_fenced(alloc, &mut out, text)?;
    Ok(out)
}

// Returns the lines with tags masked that one line opens and a later one closes.
fn masked_tags<'a>(alloc: Global, lines: &[TextLine<'a>]) -> Result<Vec<TextLine<'a>>, Memory>
    ensures { IfOk result (λ out. MasksTags (map numbered lines.now) (map numbered out.items)) }
{
    let sizes = tag_sizes(alloc, lines)?;
    let mut out = Vec::new(alloc);
    let mut first = 0;
    while first < lines.len() {
        let rest = &lines[first..];
        let step = step_over(number_or_zero(&sizes, first), true);
        push_lines(&mut out, &rest[..step.count], step.masks)?;
        first += step.count;
    }
    Ok(out)
}

/// Returns the lines of a text in which rules are looked for: those that are no page furniture, where some are masked.
/// A masked line is read as `<`. `of_xml` says that `source_text` found it in XML.
///
/// LF or CR LF ends a line; the last line may lack it. A CR that no LF follows belongs to its line. Form feeds that
/// begin a line belong to none. Furniture are form feeds, the feet of pages, which end with `[Page N]`, the heads after
/// a form feed or a foot, which are not indented and end with a year, and the blank lines round them. A text without
/// pages keeps all lines.
///
/// Masked are, but in a text of XML, the fenced blocks of Markdown (CommonMark, section 4.5) in other languages than
/// `abnf`, `bnf`, `text` and `txt`; and a title block, from `%%%` on the first line that is not blank to the next
/// `%%%`. Then tags are masked, from a line that begins with `<` and a letter or `?` and has no `>` to the next line
/// with `>`, unless a blank or a masked line comes first.
///
/// # Errors
/// `Memory` if an allocation fails.
pub fn read_lines(alloc: Global, text: &[u8], of_xml: bool) -> Result<Vec<TextLine<'_>>, Memory>
    ensures { IfOk result (λ lines. ReadsLines of_xml text.now (map numbered lines.items)) }
{
    let kept = kept_lines(alloc, text)?;
    if of_xml {
        return masked_tags(alloc, &kept);
    }
    let shown = masked_markdown(alloc, &kept)?;
    masked_tags(alloc, &shown)
}

/// Says that a text has at most one list of lines in which rules are looked for.
pub fn one_masking()
    ensures { (text : List ℕ) (a b : List NumberedLine) → AreRead text a → AreRead text b → a ≡ b }
{}
