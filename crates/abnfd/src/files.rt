//! The files of the grammars.
use cli::read_grammar;
use std::io::ErrorKind;
use std::rt::Files;

/// The texts of two grammars.
#[derive(Drop)]
pub(crate) struct Texts {
    /// The text of the old grammar.
    pub(crate) old: Vec<u8>,
    /// The text of the new grammar.
    pub(crate) new: Vec<u8>,
}

/// Why the texts of two grammars could not be read.
#[derive(Clone, Copy)]
pub(crate) enum UnreadFile {
    /// The file of the old grammar cannot be read.
    Old,
    /// The file of the new grammar cannot be read.
    New,
    /// An allocation failed.
    NoMemory,
}

// Reads the file of a grammar. `why` is the error if it cannot be read.
fn read_text<R: Files + AllocGlobal>(
    rt: &R,
    path: &str,
    why: UnreadFile,
) -> Result<Vec<u8>, UnreadFile> {
    match read_grammar(rt, path) {
        Ok(text) => Ok(text),
        Err(fault) if fault.kind() == ErrorKind::OutOfMemory => Err(UnreadFile::NoMemory),
        Err(_) => Err(why),
    }
}

/// Reads the files of two grammars.
pub(crate) fn read_both<R: Files + AllocGlobal>(
    rt: &R,
    old: &str,
    new: &str,
) -> Result<Texts, UnreadFile> {
    Ok(Texts {
        old: read_text(rt, old, UnreadFile::Old)?,
        new: read_text(rt, new, UnreadFile::New)?,
    })
}
