//! The texts.
ghost use Rattle.std.specs.Prelude.{◌≡◌, ◌≤◌, ◌∷◌, [], IfErr, IfOk, length, map};
ghost use Rattle.abnftexts.specs.RulesGathered.{named_text};
ghost use Rattle.abnfx.specs.JoinAnswers.{AreTextsOf, IsUnreadOf};
ghost use Rattle.abnfx.specs.TextsRead.{text_read};

use abnftexts::SourceText;
use ruletable::Memory;
use std::alloc::Global;
use std::io::{ErrorKind, Read};
use std::rt::Files;
use std::{fs, io};

/// The most bytes that a text has.
const MAX_TEXT: usize = 16_777_216;

/// A text, and the file that it was read from.
#[derive(Drop)]
pub(crate) struct FileText<'a> {
    /// The path of the file.
    pub(crate) path: &'a str,
    /// The bytes of the text.
    pub(crate) bytes: Vec<u8>,
}

/// Why texts cannot be read.
#[derive(Drop)]
pub(crate) enum Unread<'a> {
    /// That text cannot be read.
    Unreadable(&'a str),
    /// That text is too long.
    TooLong(&'a str),
    /// An allocation failed.
    NoMemory,
}

// Reads a text: one byte more than it may have is enough to show that it is too long.
fn read_bytes<R: Files + AllocGlobal>(rt: &R, path: &str) -> io::Result<Vec<u8>> {
    let mut bytes = Vec::new(rt.alloc());
    fs::open(rt, path)?
        .take(MAX_TEXT as u64 + 1)
        .read_to_end(&mut bytes)?;
    Ok(bytes)
}

// Reads a text that is not too long.
fn read_text<'a, R: Files + AllocGlobal>(rt: &R, path: &'a str) -> Result<FileText<'a>, Unread<'a>>
    ensures text { IfOk result (λ t. (t.path.now ≡ path.entry.now) × (length t.bytes.items ≤ 16777216)) }
    ensures unread { IfErr result (IsUnreadOf (path.entry.now ∷ [])) }
{
    match read_bytes(rt, path) {
        Ok(bytes) => {
            if bytes.len() > MAX_TEXT {
                Err(Unread::TooLong(path))
            } else {
                Ok(FileText { path, bytes })
            }
        }
        Err(fault) if fault.kind() == ErrorKind::OutOfMemory => Err(Unread::NoMemory),
        Err(_) => Err(Unread::Unreadable(path)),
    }
}

/// Reads the texts of these files, in order.
pub(crate) fn read_texts<'a, R: Files + AllocGlobal>(
    rt: &R,
    paths: &[&'a str],
) -> Result<Vec<FileText<'a>>, Unread<'a>>
    ensures texts { IfOk result (λ texts. AreTextsOf (map (λ p. p.now) paths.now) (map text_read texts.items)) }
    ensures unread { IfErr result (IsUnreadOf (map (λ p. p.now) paths.now)) }
{
    let mut texts = Vec::new(rt.alloc());
    for path in paths {
        match read_text(rt, *path) {
            Ok(text) => {
                if texts.push(text).is_err() {
                    return Err(Unread::NoMemory);
                }
            }
            Err(why) => return Err(why),
        }
    }
    Ok(texts)
}

// The text with its name.
fn source_of<'b>(text: &'b FileText<'_>) -> SourceText<'b>
    ensures { named_text result ≡ text_read text.now }
{
    SourceText {
        name: text.path.as_bytes(),
        bytes: text.bytes.as_slice(),
    }
}

/// Returns the texts with their names.
pub(crate) fn sources_of<'b>(
    alloc: Global,
    texts: &'b [FileText<'_>],
) -> Result<Vec<SourceText<'b>>, Memory>
    ensures { IfOk result (λ sources. map named_text sources.items ≡ map text_read texts.now) }
{
    let mut sources = Vec::new(alloc);
    for text in texts {
        sources.push(source_of(text))?;
    }
    Ok(sources)
}
