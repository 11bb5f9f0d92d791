//! Prints units of one byte from the table, many at a time.
ghost use Rattle.std.specs.Prelude.{◌≡◌, ◌+◌, ◌<◌, ◌^◌, IfSome, Ok, false, length, true};
ghost use Rattle.std.specs.List.{prefix_len};
ghost use Rattle.ruletable.specs.Writing.{Flags, IsPrefixOf};
ghost use Rattle.feed.specs.Feed.{IsTrueOfReader, SameLoan, bytes_of, capacity_of};
ghost use Rattle.pegrun.specs.ByteUnits.{is_known};
ghost use Rattle.pegrun.specs.PassedUnits.{HasPassed, can_run};

use crate::byte_units::ByteUnits;
use crate::options::PegSettings;
use feed::{Feed, Held, Source};
use ruletable::{Sink, WriteFault};

/// The greatest number of units that one call prints.
const MOST_UNITS: usize = 4096;

/// The result of printing units from the table.
#[derive(Clone, Copy)]
pub(crate) enum Passed {
    /// This many units were printed.
    Units(usize),
    /// The reader failed. The units with enough bytes were printed. The feed has dropped bytes of later units too.
    Broken,
}

/// Returns how many of `count` units of one byte may be run, if `held` bytes are left from the start of the last one
/// on. After a fault of the reader a unit needs `limit` + 1 bytes from its start on.
fn runnable(why: Held, count: usize, held: usize, limit: usize) -> usize
    requires some { 0 < count }
    requires fits { count + held < 2 ^ 64 }
    ensures { result ≡ can_run why count held limit }
{
    match why {
        Held::Full | Held::End => count,
        Held::Fault => (count - 1 + held).saturating_sub(limit),
    }
}

/// Returns the longest prefix of a feed's first piece of which each byte has a text, at most 4096 bytes. Returns none
/// if that is empty, or if an allocation fails.
fn known_front<R: Source>(units: &ByteUnits, feed: &Feed<'_, R>) -> Option<Vec<u8>>
    ensures some { IfSome result (λ bytes. 0 < length bytes.items) }
    ensures first { IfSome result (λ bytes. IsPrefixOf bytes.items (bytes_of feed.now)) }
    ensures known { IfSome result (λ bytes. prefix_len (is_known units.now) bytes.items ≡ length bytes.items) }
{
    let piece = feed.front();
    let front = &piece[..piece.len().min(MOST_UNITS)];
    let count = units.count(front);
    if count == 0 {
        return None;
    }
    match Vec::from_slice(units.alloc, &front[..count]) {
        Ok(bytes) => Some(bytes),
        Err(_) => None,
    }
}

/// Prints the units at the front of a feed from the table. It reads as many bytes as it drops. If explanations, one
/// unit or a budget are asked for, it prints none.
pub(crate) fn pass_known<R: Source, O: Sink>(
    units: &ByteUnits,
    settings: &PegSettings<'_>,
    feed: &mut Feed<'_, R>,
    out: &mut O,
) -> Result<Passed, WriteFault>
    requires capacity { capacity_of feed.old ≡ settings.now.limit + 1 }
    requires reported { IsTrueOfReader R.remaining R.failed R.ended feed.old }
    requires out_is_fresh { O.failed out.old ≡ false }
    ensures loan { SameLoan feed.old feed.new }
    ensures reported { IsTrueOfReader R.remaining R.failed R.ended feed.new }
    ensures passed { HasPassed R.remaining units.now settings.now feed.old feed.new (O.contents out.old)
        (O.contents out.new) result }
    ensures flag { Flags (O.failed out.old) (O.failed out.new) result }
    ensures unasked { settings.now.explain ≡ true → result ≡ Ok (Passed.Units 0) }
{
    let options = settings.options;
    if settings.explain || settings.limit == 0 || options.whole || options.budget.is_some() {
        return Ok(Passed::Units(0));
    }
    if options.line_buffered {
        return Ok(Passed::Units(0));
    }
    let Some(bytes) = known_front(units, feed) else {
        return Ok(Passed::Units(0));
    };
    let count = bytes.len();
    feed.skip(count - 1);
    let why = feed.fill();
    let run = runnable(why, count, feed.len(), settings.limit);
    units.write(&bytes[..run], out)?;
    if run < count {
        return Ok(Passed::Broken);
    }
    feed.skip(1);
    Ok(Passed::Units(count))
}
