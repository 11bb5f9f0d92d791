//! Names in angle brackets: lines as they are written without these.
ghost use Rattle.std.specs.Prelude.{◌≡◌, ◌++◌, ℕ, List, codes, map, IfOk, OnOk};
ghost use Rattle.lexer.specs.TokenLists.{tok_of};
ghost use Rattle.abnfblocks.specs.TextLines.{numbered};
ghost use Rattle.abnfread.specs.AbnfTable.{IsCoreTable};
ghost use Rattle.abnftexts.specs.CodeUses.{is_defined as knows};
ghost use Rattle.abnftexts.specs.NamedRules.{AreLinesNamed, IsLineNamed, bare_line as line_without, comment_of};
ghost use Rattle.abnftexts.specs.NamedRules.{token_named};

use crate::gathered::RulePosition;
use crate::join::is_same_folded;
use crate::undefined::is_known;
use abnfblocks::{TextLine, margin};
use abnfread::{AbnfKind, Elem};
use lexer::{Token, tokens};
use rfcforms::{items_after, items_before};
use ruletable::{Memory, RuleTable};
use std::alloc::Global;

/// Lines as they are written without angle brackets.
#[derive(Drop)]
pub(crate) struct NamedLines {
    /// The comments on the lines that are written otherwise.
    pub(crate) comments: Vec<u8>,
    /// The lines, each with LF.
    pub(crate) text: Vec<u8>,
}

// A token as it is written in the rule of that name.
fn token_text<'a>(
    core: &RuleTable<Elem>,
    names: &RuleTable<Vec<usize>>,
    own: &[u8],
    token: Token<'a, AbnfKind>,
) -> Result<&'a [u8], Memory>
    requires { IsCoreTable core.now }
    ensures { IfOk result (λ text. text.now ≡ token_named (knows names.now) own.now (tok_of token.entry)) }
{
    if !matches!(token.kind, AbnfKind::Prose) {
        return Ok(token.slice);
    }
    let front = items_before(token.slice, token.slice.len().saturating_sub(1));
    let name = items_after(front, 1);
    if is_known(core, names, name)? && !is_same_folded(own, name) {
        return Ok(name);
    }
    Ok(token.slice)
}

// A line as it is written in the rule of that name.
fn named_line(
    alloc: Global,
    core: &RuleTable<Elem>,
    names: &RuleTable<Vec<usize>>,
    own: &[u8],
    line: &[u8],
) -> Result<Vec<u8>, Memory>
    requires { IsCoreTable core.now }
    ensures { IfOk result (λ new. IsLineNamed (knows names.now) own.now line.now new.items) }
{
    let mut new = Vec::new(alloc);
    let mut at = 0;
    for token in tokens::<AbnfKind>(line) {
        let gap = items_after(items_before(line, token.span.start), at);
        new.extend_from_slice(gap)?;
        let text = token_text(core, names, own, token)?;
        new.extend_from_slice(text)?;
        at = token.span.end;
    }
    Ok(new)
}

// Adds a line, and the comment on it if it is written otherwise.
fn push_line(lines: &mut NamedLines, line: &[u8], new: &[u8]) -> Result<(), Memory>
    ensures comments { OnOk result (lines.new.comments.items
        ≡ lines.old.comments.items ++ comment_of line.now new.now) }
    ensures text { OnOk result (lines.new.text.items ≡ lines.old.text.items ++ (new.now ++ codes "\n")) }
{
    if line != new {
        lines.comments.extend_from_slice(b"; from: ")?;
        lines.comments.extend_from_slice(line)?;
        lines.comments.extend_from_slice(b"\n")?;
    }
    lines.text.extend_from_slice(new)?;
    lines.text.extend_from_slice(b"\n")?;
    Ok(())
}

// A line without that margin, or without its own where that is smaller.
fn bare_line<'a>(margin_size: usize, line: &TextLine<'a>) -> &'a [u8]
    ensures { result.now ≡ line_without margin_size (numbered line.now) }
{
    items_after(line.bytes, margin_size.min(margin(line.bytes)))
}

/// Returns the lines of the rule of that name as they are written. The names that lose brackets are those that are
/// listed, and those of core rules, but its own.
///
/// # Errors
/// `Memory` if an allocation fails.
pub(crate) fn named_lines(
    alloc: Global,
    core: &RuleTable<Elem>,
    names: &RuleTable<Vec<usize>>,
    own: &[u8],
    position: &RulePosition<'_>,
) -> Result<NamedLines, Memory>
    requires { IsCoreTable core.now }
    ensures { IfOk result (λ lines. AreLinesNamed (knows names.now) own.now position.now.margin
        (map numbered position.now.sources.items) (map numbered position.now.lines.items)
        lines.comments.items lines.text.items) }
{
    let mut lines = NamedLines {
        comments: Vec::new(alloc),
        text: Vec::new(alloc),
    };
    let mut sources = position.sources.as_slice();
    for line in &position.lines {
        let new = named_line(alloc, core, names, own, bare_line(position.margin, line))?;
        let source = sources.first().unwrap_or(line);
        push_line(&mut lines, bare_line(position.margin, source), &new)?;
        sources = items_after(sources, 1);
    }
    Ok(lines)
}
