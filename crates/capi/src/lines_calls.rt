//! Lists the lines of a rule, one after another.
ghost use Rattle.std.specs.Prelude.{◌≡◌, is_some, None};
ghost use Rattle.capi.specs.Asking.{AbnfMeant};
ghost use Rattle.capi.specs.NextLineCall.{IsLineCall};
ghost use Rattle.capi.specs.LineLists.{IsLinesOpening};
ghost use Rattle.capi.specs.LinesOpenCall.{IsLinesOpenCall};
ghost use Rattle.capi.specs.OpenCall.{code_reported, text_reported};

use crate::asked::{BAD_SETTINGS, CSettings, seed_of, settings_of};
use crate::grammar::{OpenGrammar, open_grammar};
use crate::lines_slot::{CLines, put_lines, take_lines};
use crate::listing::{CLine, ListKind, kind_of, listing_of, next_line, no_line};
use crate::reported::lay_reported;
use crate::result::{CResult, nothing_done};
use abnfrun::{AbnfOptions, AbnfSettings};
use ruletable::Memory;
use std::alloc::Global;

/// Opens a grammar in ABNF, and returns the messages on it. Stores lines of it in an empty `CLines`, unless a message
/// rejects the grammar. Returns `Memory` if an allocation fails.
fn open_lines(
    alloc: Global,
    kind: ListKind,
    grammar: &[u8],
    settings: &AbnfSettings<'_>,
    slot: &mut CLines,
) -> Result<Vec<u8>, Memory>
    requires { slot.old.listing.held ≡ None }
    ensures { IsLinesOpening kind grammar.now settings.now (text_reported result) slot.new.listing.held
        (code_reported result (is_some slot.new.listing.held)) }
{
    let OpenGrammar { reported, grammar } = open_grammar(alloc, grammar, settings)?;
    let Some(sound) = grammar else {
        return Ok(reported);
    };
    let listing = listing_of(alloc, kind, &sound, settings)?;
    put_lines(Box::new(alloc, listing)?, slot);
    Ok(reported)
}

/// Reads and checks a grammar in ABNF, and puts lines of its judged rule into an empty handle. `which` is 0 for the
/// lines that the rule derives, shorter ones first, and 1 for near ones that it does not derive. It is 2 for these with
/// each symbol that cannot follow a prefix, next to one that can, and 3 for some that the rule derives, by lot from the
/// seed of the settings. It is 4 for derived lines that have only the first of symbols that no set distinguishes, and 5
/// for derived lines that reach each goal. They have at most as many letters as the limit of the settings, and not the
/// byte that ends lines. Lays the messages on the grammar into the buffer, as much as there is room for. A rejected
/// grammar leaves the handle empty. The mode must be valid, and has no other effect.
///
/// Returns `BAD_SETTINGS` and does nothing where the settings are invalid, `which` is above 5, or the handle is not
/// empty. Settings are invalid if the size is unknown, a number is out of its range, or the name is not UTF-8.
pub fn lines_open(
    alloc: Global,
    asked: &CSettings,
    which: u8,
    grammar: &[u8],
    name: &[u8],
    slot: &mut CLines,
    err: &mut [u8],
) -> CResult
    ensures out { result.out_len ≡ 0 }
    ensures call { IsLinesOpenCall which asked.now grammar.now name.now
        (record { old = slot.old.listing.held; new = slot.new.listing.held })
        (record { old = err.old; new = err.new; len = result.err_len }) result.status }
{
    let seed = seed_of(asked);
    let Some(kind) = kind_of(which, seed) else {
        return nothing_done();
    };
    if slot.is_open {
        return nothing_done();
    }
    let Some(settings) = settings_of::<AbnfOptions>(asked, name) else {
        return nothing_done();
    };
    let reported = open_lines(alloc, kind, grammar, &settings, slot);
    lay_reported(reported, slot.is_open, err)
}

/// Lays the next line into the buffer, as much of it as there is room for.
pub fn lines_next(alloc: Global, slot: &mut CLines, line: &mut [u8]) -> CLine
    ensures { IsLineCall (record { old = line.old; new = line.new }) result slot.old.listing.held
        slot.new.listing.held }
{
    if !slot.is_open {
        return no_line(BAD_SETTINGS);
    }
    let mut listing = take_lines(alloc, slot);
    let found = next_line(alloc, &mut listing, line);
    put_lines(listing, slot);
    found
}

/// Frees the lines, if the handle is not empty, and leaves the handle empty.
pub fn lines_close(alloc: Global, slot: &mut CLines)
    ensures { slot.new.listing.held ≡ None }
{
    if slot.is_open {
        let _lines = take_lines(alloc, slot);
    }
}
