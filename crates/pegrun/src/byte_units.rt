//! A table of the units whose result depends on their first byte alone.
ghost use Rattle.std.specs.Prelude.{◌≡◌, ℕ, ◌≤◌, Bool, Some, IfSome, OnOk, false, length, option_map};
ghost use Rattle.std.specs.List.{prefix_len};
ghost use Rattle.ruletable.specs.Writing.{Flags, Writes};
ghost use Rattle.gramcheck.specs.Grammar.{Grammar};
ghost use Rattle.pegmatch.specs.declared.style.PrintStyle.{PrintStyle};
ghost use Rattle.pegrun.specs.ByteUnits.{AreByteUnits, IsByteUnit, SameTexts, is_known, known_text, text_by};
ghost use Rattle.pegrun.specs.ByteUnits.{texts_of};

use ruletable::{Sink, WriteFault, write_whole};
use std::alloc::{AllocError, Global};

/// The greatest length of a stored text, in bytes.
pub(crate) const MOST_TEXT: usize = 64;

/// A table entry, for the units that begin with one byte.
#[derive(Drop)]
pub(crate) enum ByteUnit {
    /// No such unit of one byte was matched yet.
    Open,
    /// The result depends on later bytes, or the text is too long to be stored.
    Other,
    /// Each such unit takes one byte and prints this text, whatever follows.
    Prints(Vec<u8>),
}

/// The texts of units of one byte, by that byte. An entry is added after such a unit is matched.
#[derive(Drop)]
pub struct ByteUnits {
    /// Allocates the entries.
    pub(crate) alloc: Global,
    /// The entries, by byte. The vector is empty until the first entry is added.
    known: Vec<ByteUnit>,
}

impl ByteUnits {
    /// Returns an empty table. It allocates nothing.
    pub(crate) fn new(alloc: Global) -> ByteUnits
        ensures { (g : Grammar) (style : PrintStyle) → AreByteUnits g style result }
    {
        ByteUnits {
            alloc,
            known: Vec::new(alloc),
        }
    }

    /// Removes all entries.
    pub(crate) fn clear(&mut self)
        ensures { (g : Grammar) (style : PrintStyle) → AreByteUnits g style self.new }
    {
        self.known.clear();
    }

    /// Returns whether the table has no entry for a byte.
    pub(crate) fn is_open(&self, byte: u8) -> bool {
        matches!(self.known.get(byte as usize), Some(ByteUnit::Open) | None)
    }

    /// Returns the text for a byte, if the table has one.
    #[inline(always)]
    fn text(&self, byte: u8) -> Option<&[u8]>
        ensures { option_map (λ t. t.now) result ≡ text_by self.now byte }
    {
        match self.known.get(byte as usize) {
            Some(ByteUnit::Prints(text)) => Some(text.as_slice()),
            _ => None,
        }
    }

    /// Extends the table to all 256 bytes. `AllocError` if an allocation fails.
    fn make_room(&mut self) -> Result<(), AllocError>
        ensures same { SameTexts self.old self.new }
        ensures room { OnOk result (256 ≤ length self.new.known.items) }
    {
        while self.known.len() < 256 {
            self.known.push(ByteUnit::Open)?;
        }
        Ok(())
    }

    /// Stores the entry for a byte. If an allocation fails, it stores no text.
    pub(crate) fn keep(&mut self, byte: u8, known: ByteUnit)
        ensures { (g : Grammar) (style : PrintStyle) → AreByteUnits g style self.old
            → IfSome (known_text (Some known)) (IsByteUnit g style byte) → AreByteUnits g style self.new }
    {
        if self.make_room().is_ok() {
            self.known[byte as usize] = known;
        }
    }

    /// Returns the length of the longest prefix of which each byte has a text.
    pub(crate) fn count(&self, bytes: &[u8]) -> usize
        ensures count { result ≡ prefix_len (is_known self.now) bytes.now }
        ensures within { result ≤ length bytes.now }
    {
        let mut count = 0;
        let mut rest = bytes;
        while let Some((first, tail)) = rest.split_first() {
            if self.text(*first).is_none() {
                break;
            }
            rest = tail;
            count += 1;
        }
        count
    }

    /// Writes the texts of these bytes in order, and nothing for a byte without a text. `WriteFault` if the writer
    /// fails; then a prefix is written.
    pub(crate) fn write<O: Sink>(&self, bytes: &[u8], out: &mut O) -> Result<(), WriteFault>
        requires { O.failed out.old ≡ false }
        ensures bytes { Writes (O.contents out.old) (O.contents out.new) (texts_of self.now bytes.now) result }
        ensures flag { Flags (O.failed out.old) (O.failed out.new) result }
    {
        for byte in bytes {
            if let Some(text) = self.text(*byte) {
                match write_whole(out, text) {
                    Ok(()) => {}
                    Err(fault) => return Err(fault),
                }
            }
        }
        Ok(())
    }
}
