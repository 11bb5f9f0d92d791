//! Compares the lines that rules of two grammars derive.
ghost use Rattle.std.specs.Prelude.{◌≡◌};
ghost use Rattle.capi.specs.BufferRun.{IsLaid, laid};
ghost use Rattle.capi.specs.CompareCall.{IsCompareCall, asked_for, c_uncompared};
ghost use Rattle.toolrun.specs.Status.{code_of};

use crate::alone::CAlone;
use crate::asked::{BAD_SETTINGS, CSettings, settings_of};
use crate::compared::{CompareReport, compare_texts};
use abnfrun::AbnfOptions;
use memoryrun::lay;
use ruletable::Memory;
use std::alloc::Global;
use toolrun::Status;

/// The result of a comparison.
#[repr(C)]
#[derive(Clone, Copy)]
pub struct CComparison {
    /// What is known of the lines that the old rule alone derives.
    pub old_alone: CAlone,
    /// What is known of the lines that the new rule alone derives.
    pub new_alone: CAlone,
    /// The length of the messages on both grammars.
    pub err_len: usize,
    /// The length of the messages on the old grammar, which come first.
    pub old_err_len: usize,
    /// 0: both rules derive the same lines; 1: one derives a line that the other does not; 2: a grammar is rejected; 3:
    /// neither is known; 5: an allocation failed; `BAD_SETTINGS`: the settings are invalid.
    pub status: u8,
}

/// Returns the result of a call that compares nothing: this status.
fn uncompared(status: u8) -> CComparison
    ensures { result ≡ c_uncompared status }
{
    CComparison {
        old_alone: CAlone { len: 0, known: 0 },
        new_alone: CAlone { len: 0, known: 0 },
        err_len: 0,
        old_err_len: 0,
        status,
    }
}

/// Returns the settings of one of two grammars: without a name if that is empty, and without budget and seed, which an
/// older struct does not have.
fn side_asked(asked: &CSettings, name: &[u8]) -> CSettings
    ensures { result ≡ asked_for asked.now name.now }
{
    let side = CSettings {
        size: asked.size,
        limit: asked.limit,
        mode: asked.mode,
        letters: asked.letters,
        named: asked.named,
        raw: asked.raw,
        viable: asked.viable,
        nul: asked.nul,
        explain: asked.explain,
        budget: 0,
        seed: 0,
    };
    if name.is_empty() {
        return CSettings {
            named: false,
            ..side
        };
    }
    side
}

/// Lays what is reported into the buffers, as much of it as there is room for.
fn lay_report(
    report: &CompareReport,
    old_line: &mut [u8],
    new_line: &mut [u8],
    err: &mut [u8],
) -> CComparison
    ensures old_line { old_line.new ≡ laid report.now.old_alone.bytes.items old_line.old }
    ensures new_line { new_line.new ≡ laid report.now.new_alone.bytes.items new_line.old }
    ensures err { IsLaid report.now.reported.items (record { old = err.old; new = err.new; len = result.err_len }) }
    ensures old_alone { result.old_alone ≡ report.now.old_alone.known }
    ensures new_alone { result.new_alone ≡ report.now.new_alone.known }
    ensures old_err_len { result.old_err_len ≡ report.now.old_err_len }
    ensures status { result.status ≡ code_of report.now.status }
{
    lay(report.old_alone.bytes.as_slice(), old_line);
    lay(report.new_alone.bytes.as_slice(), new_line);
    CComparison {
        old_alone: report.old_alone.known,
        new_alone: report.new_alone.known,
        err_len: lay(report.reported.as_slice(), err),
        old_err_len: report.old_err_len,
        status: report.status.code(),
    }
}

/// Compares the lines that the judged rules of two grammars in ABNF derive, of any length. Lays the first line that
/// each of them alone derives into its buffer, if it is known. Lays the messages on both grammars into the buffer of
/// errors, the old one's first. Each buffer gets as much as there is room for. A name that is empty is not given. A
/// search goes over at most `budget` pairs of states. Of the settings the mode and the limit must be valid, and decide
/// nothing else but hints.
///
/// Returns `BAD_SETTINGS` and does nothing where the settings are invalid: the size is unknown, a number is out of its
/// range, or a name is not UTF-8.
pub fn compare(
    alloc: Global,
    asked: &CSettings,
    budget: usize,
    old: &[u8],
    old_name: &[u8],
    new: &[u8],
    new_name: &[u8],
    old_line: &mut [u8],
    new_line: &mut [u8],
    err: &mut [u8],
) -> CComparison
    ensures { IsCompareCall asked.now old_name.now new_name.now old.now new.now (record {
      old_line = record { old = old_line.old; new = old_line.new };
      new_line = record { old = new_line.old; new = new_line.new };
      err = record { old = err.old; new = err.new; len = result.err_len };
    }) result }
{
    let old_asked = side_asked(asked, old_name);
    let Some(old_settings) = settings_of::<AbnfOptions>(&old_asked, old_name) else {
        return uncompared(BAD_SETTINGS);
    };
    let new_asked = side_asked(asked, new_name);
    let Some(new_settings) = settings_of::<AbnfOptions>(&new_asked, new_name) else {
        return uncompared(BAD_SETTINGS);
    };
    match compare_texts(alloc, budget, old, &old_settings, new, &new_settings) {
        Ok(report) => lay_report(&report, old_line, new_line, err),
        Err(Memory) => uncompared(Status::NoMemory.code()),
    }
}
