//! The settings that C passes.
ghost use Rattle.std.specs.Prelude.{◌≡◌, Some, true, option_copied, MatchOption, MatchResult};
ghost use Rattle.std.specs.Str.{IsUtf8};
ghost use Rattle.capi.specs.Asking.{AbnfMeant, IsMeant, IsInvalid, PegMeant, alphabet_by, mode_by, name_by};
ghost use Rattle.capi.specs.Asking.{budget_asked, is_known_size, seed_asked};
ghost use Rattle.capi.specs.declared.asked.CSettings.{CSettings as Asked};

use abnfrun::{AbnfOptions, Alphabet, Printed};
use pegrun::{PegOptions, PrintStyle};
use std::mem::size_of;
use std::str::from_utf8;
use toolrun::{MAX_LIMIT, Mode, Settings};

/// The status of a call whose settings are invalid.
pub const BAD_SETTINGS: u8 = 6;

/// The settings of a run, as C writes them. A later version adds its fields after the whole struct, and so makes it
/// larger. The unused byte before `budget` stays unused, since callers do not set it.
///
/// An older caller's struct ends before `budget`. So no field from there on is read before it is known by the size to
/// be there.
#[repr(C)]
#[derive(Clone, Copy)]
pub struct CSettings {
    /// How many bytes the struct of the caller has.
    pub size: usize,
    /// How many bytes a unit may look at, or a line may have, from 1 to `MAX_LIMIT`.
    pub limit: usize,
    /// 0: the grammar is run on the input; 1: it is checked alone; 2: it is printed in its canonical form.
    pub mode: u8,
    /// The alphabet of the ABNF tool's lines. 0: bytes; 1: code points of UTF-8.
    pub letters: u8,
    /// Whether the start rule, or the rule that judges lines, is named; else it is the first rule.
    pub named: bool,
    /// Whether the peg tool prints actions verbatim.
    pub raw: bool,
    /// Whether the ABNF tool reports how many symbols the longest viable prefix of a rejected line has.
    pub viable: bool,
    /// Whether a NUL byte ends a line of the ABNF tool, in place of LF.
    pub nul: bool,
    /// Whether messages are explained: a fault of the grammar's text, a note, a rejected line, a stop. Hints follow the
    /// notes.
    pub explain: bool,
    /// How many items the sets of a line may have, or how many bytes a unit may print. 0: any number.
    pub budget: usize,
    /// The seed of lines by lot.
    pub seed: u64,
}

/// The size of the settings that end before `budget`.
const OLDER_SIZE: usize = 24;

/// The size of the settings.
const SETTINGS_SIZE: usize = size_of::<CSettings>();

/// Returns whether the settings have a size that is known.
fn has_known_size(asked: &CSettings) -> bool
    ensures { result ≡ is_known_size asked.now.size }
{
    asked.size == OLDER_SIZE || asked.size == SETTINGS_SIZE
}

/// Returns the budget that C asks for. `None` if it is 0, or the struct ends before it.
fn budget_of(asked: &CSettings) -> Option<usize>
    ensures { result ≡ budget_asked asked.now }
{
    if asked.size != SETTINGS_SIZE {
        return None;
    }
    match asked.budget {
        0 => None,
        budget => Some(budget),
    }
}

/// Returns the seed that C asks for; 1 if the struct ends before it.
pub(crate) fn seed_of(asked: &CSettings) -> u64
    ensures { result ≡ seed_asked asked.now }
{
    if asked.size != SETTINGS_SIZE {
        return 1;
    }
    asked.seed
}

fn mode_of(mode: u8) -> Option<Mode>
    ensures { result ≡ mode_by mode }
{
    match mode {
        0 => Some(Mode::Run),
        1 => Some(Mode::Check),
        2 => Some(Mode::Print),
        _ => None,
    }
}

fn alphabet_of(letters: u8) -> Option<Alphabet>
    ensures { result ≡ alphabet_by letters }
{
    match letters {
        0 => Some(Alphabet::Bytes),
        1 => Some(Alphabet::Utf8),
        _ => None,
    }
}

/// Options of a tool that C asks for.
pub trait COptions {
    /// Which options C asks for.
    ghost are_meant: { Asked → Self → Type 0 };

    /// Returns the options that C asks for, whose lines are made of these letters.
    fn meant(asked: &CSettings, letters: Alphabet) -> Self
        requires { alphabet_by asked.now.letters ≡ Some letters }
        ensures { are_meant asked.now result };
}

impl COptions for PegOptions {
    ghost are_meant = { PegMeant };

    fn meant(asked: &CSettings, _letters: Alphabet) -> PegOptions {
        PegOptions {
            style: PrintStyle {
                raw: asked.raw,
                escapes: false,
            },
            whole: false,
            budget: budget_of(asked),
            line_buffered: false,
        }
    }
}

impl COptions for AbnfOptions {
    ghost are_meant = { AbnfMeant };

    fn meant(asked: &CSettings, letters: Alphabet) -> AbnfOptions {
        AbnfOptions {
            letters,
            viable: asked.viable,
            nul: asked.nul,
            keeps: false,
            printed: Printed::Answers,
            named: false,
            numbered: false,
            quiet: false,
            line_buffered: false,
            budget: budget_of(asked),
        }
    }
}

/// The name of a rule is not UTF-8.
#[derive(Clone, Copy, Drop)]
struct NotUtf8;

fn start_of<'a>(named: bool, name: &'a [u8]) -> Result<Option<&'a str>, NotUtf8>
    ensures { MatchResult result (λ start. option_copied start ≡ name_by named name.entry.now)
        (λ _. (named ≡ true) × (IsUtf8 name.entry.now → ⊥)) }
{
    if !named {
        return Ok(None);
    }
    match from_utf8(name) {
        Ok(start) => Ok(Some(start)),
        Err(_) => Err(NotUtf8),
    }
}

/// Returns the settings that C asks for. Returns `None` where the size is unknown, a number is out of its range, or the
/// name of the rule is not UTF-8.
pub fn settings_of<'a, O: COptions>(asked: &CSettings, name: &'a [u8]) -> Option<Settings<'a, O>>
    ensures { MatchOption result (IsInvalid asked.now name.entry.now) (IsMeant O.are_meant asked.now name.entry.now) }
{
    if !has_known_size(asked) {
        return None;
    }
    let Some(mode) = mode_of(asked.mode) else {
        return None;
    };
    let Some(letters) = alphabet_of(asked.letters) else {
        return None;
    };
    if asked.limit < 1 {
        return None;
    }
    if asked.limit > MAX_LIMIT {
        return None;
    }
    match start_of(asked.named, name) {
        Ok(start) => Some(Settings {
            mode,
            limit: asked.limit,
            start,
            input: "-",
            explain: asked.explain,
            options: O::meant(asked, letters),
        }),
        Err(_) => None,
    }
}
