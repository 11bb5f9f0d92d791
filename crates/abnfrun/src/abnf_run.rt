//! A run of the ABNF tool.
ghost use Rattle.std.specs.Prelude.{◌≡◌, ℕ, List, false, IfSome};
ghost use Rattle.std.specs.Io.KnownBytes.{Appends, Consumes};
ghost use Rattle.abnfrun.specs.AbnfAnswers.{AbnfStates};
ghost use Rattle.toolrun.specs.Right.{IsRight};
ghost use Rattle.toolrun.specs.Status.{code_of};

use crate::abnf_language::AbnfLanguage;
use crate::options::AbnfSettings;
use feed::Source;
use ruletable::Sink;
use std::alloc::Global;
use toolrun::{Status, run_tool};

/// Judges the lines that a reader gives by a grammar: writes the answer to each on `out`, and why it stopped on `err`.
/// All three must be fresh, and the reader must not have given its end.
///
/// - The grammar is in ABNF (RFC 5234, RFC 7405). If it has a fault, `err` gets the line of that fault, status
///   `Refused`, and nothing is read. If the settings ask for explanations, that line is followed by those that explain
///   it: a picture of the token that decides, its column, exactly the kinds of tokens that could stand there, and a
///   usual mistake. Faults of the readings from the next lines that begin rules follow in the same form, at most 16 in
///   all.
/// - If it is to be printed, its canonical text is written on `out`, `Done`; but if it defines a rule again, the notes
///   on that are written on `err`, `Refused`. Nothing is read, and no other check is made.
/// - Else the notes on it are written on `err`. If they reject it, or it is only to be checked, that is all: `Refused`,
///   or `Done`, and nothing is read.
/// - If the settings ask for explanations, further lines follow each note. After one on a rule that is defined again,
///   extended early, or not used, come the lines of its definitions. After one on a name that is not defined comes its
///   first use, and after one on prose the first prose of the rule. Both have the names of the rules by which the
///   judged rule reaches them. After all notes come hints on rules that derive nothing, on reversed ranges and
///   repetitions, and on a judged rule that derives no line, unless the grammar is to be printed.
/// - A line ends before an LF, or before a NUL byte if the settings say so. A last piece without an end is a line if it
///   is not empty. All other bytes belong to their line. It is answered by `yes` exactly if the judged rule derives it:
///   the rule named in the settings, or else the first. The symbols of a line are its bytes, or, if the settings say
///   so, its code points in UTF-8. Then a line that is not UTF-8 is not derived. The run ends after the last line with
///   `Done` if all answers are `yes`, else with `NoMatch`.
/// - The settings may ask for other output than the answers: the lines that are derived, or those that are not, each
///   with its end; the counts of both, at the end of the input; or nothing. If they ask for the name of the
///   input, that name and a colon stand before the output for a line, and before the counts. If they ask for numbers,
///   the number of a line from 1 and a colon stand before its output.
/// - If the settings ask for quiet, nothing is printed, and the run ends after the first line that is not derived.
/// - A line that is not derived is answered by `no`. If the settings ask for the longest viable prefix, it is answered
///   by `no N`, where that prefix has N symbols. Of a line that is not UTF-8 these symbols are those of its longest
///   prefix that is.
/// - If the settings ask that ends are kept, the end of a line belongs to what is judged, and a last piece without one
///   is judged as it stands. Lines are then printed as they were judged, and no hint speaks of lines.
/// - If the settings ask for explanations, `err` reports the first 16 lines that are not derived, before the message in
///   which the run ends. Of each it says where it is rejected, which symbols can follow there, all of them and no
///   other, and whether the line can end there. Then it says how many more there are.
/// - A line of more than `limit` bytes is not answered: `line K longer than L bytes`, `Overlong`; K counts from 1.
/// - If the settings have a budget, a line that the automaton does not answer, and whose Earley sets have more items,
///   is not answered: `line K needs more than N items`, `Overlong`. Explanations take more.
/// - After a fault of the reader a line is judged only if its end was read: else `read error`, `Fault`. So is an input
///   of 9,223,372,036,854,775,807 bytes taken to end.
/// - Where a writer fails, nothing more is written to it, and the status is at least `Fault`. A fault of `out` is
///   reported by `write error` on `err`: right after the notes, or after all else where the flush of `out` failed.
///   Where `err` fails in the notes, nothing is read, and nothing is written on `out`. Writers that have not failed are
///   flushed at the end, `out` first; no clause sees a flush.
/// - If an allocation fails, the answers before stand whole: `out of memory`, `NoMemory`. If that happens in an
///   explanation of the grammar, the fault's line comes before it, without its explanation, or the first notes do, the
///   last perhaps without its own.
/// - If an allocation fails in the explanation of a line, `line K: no` and `  not explained: out of memory` stand in
///   its position, and nothing after it is explained. All answers and the status are those without explanations.
pub fn run_abnf<R: Source, O: Sink, E: Sink>(
    alloc: Global,
    grammar: &[u8],
    settings: &AbnfSettings<'_>,
    reader: &mut R,
    out: &mut O,
    err: &mut E,
) -> Status
    requires reader_is_fresh { R.failed reader.old ≡ false }
    requires reader_is_open { R.ended reader.old ≡ false }
    requires out_is_fresh { O.failed out.old ≡ false }
    requires err_is_fresh { E.failed err.old ≡ false }
    ensures right { IfSome (R.remaining reader.old) (λ given. (taken wrote reported : List ℕ) ×
        Consumes (R.remaining reader.old) (R.remaining reader.new) taken ×
        Appends (O.contents out.old) (O.contents out.new) wrote ×
        Appends (E.contents err.old) (E.contents err.new) reported ×
        IsRight (AbnfStates grammar.now settings.now) given (record {
          taken = taken;
          read_failed = R.failed reader.new;
          out = wrote;
          out_failed = O.failed out.new;
          err = reported;
          err_failed = E.failed err.new;
          status = code_of result;
        })) }
{
    run_tool::<AbnfLanguage, R, O, E>(alloc, grammar, settings, reader, out, err)
}
