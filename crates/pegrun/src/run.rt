//! Runs the peg tool.
ghost use Rattle.std.specs.Prelude.{◌≡◌, ℕ, List, false, IfSome};
ghost use Rattle.std.specs.Io.KnownBytes.{Appends, Consumes};
ghost use Rattle.pegrun.specs.Answers.{States};
ghost use Rattle.toolrun.specs.Right.{IsRight};
ghost use Rattle.toolrun.specs.Status.{code_of};

use crate::options::PegSettings;
use crate::peg_language::PegLanguage;
use feed::Source;
use ruletable::Sink;
use std::alloc::Global;
use toolrun::{Status, run_tool};

/// Runs a grammar on what a reader gives: prints the texts of its units on `out` and writes why it stopped on `err`.
/// All three must be fresh: none has failed before, and the reader has not reported its end.
///
/// - The grammar is in the syntax of peg(1). A run reports a fault by its line, status `Refused`, and reads nothing.
///   If the settings ask for explanations, further lines explain it: a picture of the token that decides, its column,
///   exactly the kinds of tokens that could stand there, and a usual mistake.
/// - If the settings ask for the canonical text, it is written on `out`, `Done`. If the grammar defines a rule again,
///   the notes on that are written on `err` instead, `Refused`. Nothing is read, and no other check is made.
/// - Else the notes on the grammar are written on `err`. If one of them rejects it, or it is only to be checked, the
///   run ends: `Refused`, or `Done`, and nothing is read.
/// - If the settings ask for explanations, further lines follow each note. After one on a rule that is defined again,
///   or not used, come the lines of its definitions. After one on a name that is not defined comes its first use. After
///   one on a loop comes the first repetition of what may take nothing. After one on left recursion come the steps of
///   the shortest way back to the rule, for the first 8 such rules. After all notes come hints on alternatives that are
///   never taken, unless the canonical text is asked for.
/// - A unit is one success of the start rule, the one named in the settings or else the first; it begins where the one
///   before ended, and its actions are printed in order. The run ends where the rule fails or takes no byte:
///   `no match at byte S`, status `NoMatch`, but `Done` at the end of the input.
/// - If the settings ask for the whole input as one unit, the run ends after the first unit of some bytes: `Done` at
///   the end of the input, else `no match at byte S`. So it ends where the rule fails on an input without bytes.
/// - A unit that looks at more than `limit` bytes is not printed: `unit at byte S longer than L bytes`, `Overlong`. Nor
///   is one whose text has more than `budget` bytes: `unit at byte S prints more than N bytes`, `Overlong`.
/// - If the settings ask for explanations, further lines follow `no match at byte S`: the farthest position at which a
///   comparison of that unit or of the one before it failed outside of `!`, and what was expected there. Those of a
///   unit that is too long report where it begins.
/// - After a fault of the reader a unit is run only where `limit` + 1 bytes from its position on were read: else
///   `read error`, `Fault`. So is an input of 9,223,372,036,854,775,807 bytes taken to end.
/// - If the settings ask for units at line feeds, but not for one unit, a unit is run when a line feed has been read
///   and the unit looks at no later byte. Its text is written by one call before more is read. A unit of more than 64
///   lines may wait. After a fault of the reader a unit is run also where it looks at no byte after those that were
///   read. All else is the same.
/// - Where a writer fails, nothing more is written to it, and the status is at least `Fault`. A fault of `out` is
///   reported by `write error` on `err`: right after the notes, or after all else where the flush of `out` failed.
///   Where `err` fails in the notes, nothing is read, and nothing is written on `out`. Writers that have not failed are
///   flushed at the end, `out` first; no clause sees a flush.
/// - If an allocation fails, the text of the units before stands whole: `out of memory`, `NoMemory`. If that happens in
///   an explanation of the grammar, the fault's line comes before it, without its explanation, or the first notes do,
///   the last perhaps without its own.
/// - If an allocation fails in the explanation of a stop, `  not explained: out of memory` follows its line. The output
///   and the status are those without explanations.
pub fn run_peg<R: Source, O: Sink, E: Sink>(
    alloc: Global,
    grammar: &[u8],
    settings: &PegSettings<'_>,
    reader: &mut R,
    out: &mut O,
    err: &mut E,
) -> Status
    requires reader_is_fresh { R.failed reader.old ≡ false }
    requires reader_is_open { R.ended reader.old ≡ false }
    requires out_is_fresh { O.failed out.old ≡ false }
    requires err_is_fresh { E.failed err.old ≡ false }
    ensures right { IfSome (R.remaining reader.old) (λ given. (taken wrote reported : List ℕ) ×
        Consumes (R.remaining reader.old) (R.remaining reader.new) taken ×
        Appends (O.contents out.old) (O.contents out.new) wrote ×
        Appends (E.contents err.old) (E.contents err.new) reported ×
        IsRight (States grammar.now settings.now) given (record {
          taken = taken;
          read_failed = R.failed reader.new;
          out = wrote;
          out_failed = O.failed out.new;
          err = reported;
          err_failed = E.failed err.new;
          status = code_of result;
        })) }
{
    run_tool::<PegLanguage, R, O, E>(alloc, grammar, settings, reader, out, err)
}
