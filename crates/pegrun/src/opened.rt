//! Opens a grammar of peg(1) once, to run it on many inputs.
ghost use Rattle.std.specs.Prelude.{◌≡◌, IfErr, IfOk, false, map};
ghost use Rattle.pegexplain.specs.PegHints.{ArePegHints};
ghost use Rattle.pegexplain.specs.PegNotes.{ExplainsNote};
ghost use Rattle.pegread.specs.PegViews.{rules_of};
ghost use Rattle.pegread.specs.Reading.{IsFaultOf};
ghost use Rattle.pegrun.specs.OpenPeg.{IsPegOpened};
ghost use Rattle.pegrun.specs.PegReply.{RunStates};
ghost use Rattle.ruletable.specs.Notes.{said_of};
ghost use Rattle.toolrun.specs.Stopped.{Fulfils};
ghost use Rattle.toolrun.specs.Stream.{passed};
ghost use Rattle.toolrun.specs.ReportedNotes.{HintedNotes};

use crate::engine::{Counted, run_units};
use crate::options::PegSettings;
use crate::peg_language::PegLanguage;
use crate::ready::ReadyPeg;
use feed::Source;
use packrat::Packrat;
use ruletable::{Memory, Note, ReadFault, Sink, WriteFault};
use std::alloc::Global;
use std::marker::Model;
use toolrun::{Ending, Language, Opened, open};

/// An open grammar, read and checked once, that is run on inputs. It keeps the memory of earlier runs, but nothing that
/// an output depends on.
#[derive(Drop)]
pub struct PegRunner {
    /// The grammar.
    grammar: ReadyPeg,
    /// The matcher, and the search for farthest failures.
    counted: Counted<Packrat>,
}

impl Model for PegRunner {
    ghost use Rattle.std.specs.Coded.{codes};
    ghost use Rattle.gramcheck.specs.Grammar.{Grammar};
    ghost use Rattle.pegnodes.specs.contracts.node.Node as n;
    ghost use Rattle.pegread.specs.contracts.expr.Expr as e;

    ghost Value = { Grammar };

    ghost coded = { Prim.hlevel (codes, e.the_row.coded, n.the_row.coded) };

    ghost view = { λ r. r.grammar };
}

impl PegRunner {
    /// Runs the grammar on what a reader gives, as settings ask: by their limit and options, and explained or not. It
    /// ignores the other settings. `WriteFault` if the output fails; then a prefix is written.
    pub fn run<R: Source, O: Sink>(
        &mut self,
        alloc: Global,
        settings: &PegSettings<'_>,
        reader: &mut R,
        out: &mut O,
    ) -> Result<Ending, WriteFault>
        requires reader_is_fresh { R.failed reader.old ≡ false }
        requires reader_is_open { R.ended reader.old ≡ false }
        requires out_is_fresh { O.failed out.old ≡ false }
        ensures same { self.new ≡ self.old }
        ensures runs { Fulfils (RunStates (rules_of self.old.rules) self.old.start settings.now)
            (passed R.remaining R.failed reader.old reader.new) (passed O.contents O.failed out.old out.new) result }
    {
        run_units(
            alloc,
            &mut self.counted,
            &self.grammar,
            settings,
            reader,
            out,
        )
    }
}

/// The result of opening a grammar.
#[derive(Drop)]
pub struct OpenedPeg {
    /// The notes on the grammar, in order.
    pub notes: Vec<Note>,
    /// Their text, as a run writes it: each explained, with hints after them, if settings ask for that.
    pub diagnostics: Vec<u8>,
    /// Its runner, unless a note rejects it.
    pub runner: Option<PegRunner>,
}

/// Reads and checks a grammar's text. Returns the notes on it, their text, explained if settings ask for that, and what
/// runs it from the rule that settings name, or the first. It ignores the other settings. Fails by the text's fault if
/// it is not a grammar, or if an allocation fails.
pub fn open_peg(
    alloc: Global,
    text: &[u8],
    settings: &PegSettings<'_>,
) -> Result<OpenedPeg, ReadFault>
    ensures opened { IfOk result (λ o. IsPegOpened text.now settings.now (map said_of o.notes.items) o.runner) }
    ensures diagnostics { IfOk result (λ o. HintedNotes settings.now (ExplainsNote text.now) (ArePegHints text.now)
        (map said_of o.notes.items) o.diagnostics.items) }
    ensures fault { IfErr result (λ f. IsFaultOf text.now f) }
{
    let Opened {
        notes,
        diagnostics,
        rules,
        judged,
    } = open::<PegLanguage>(alloc, text, settings)?;
    let Some(judged) = judged else {
        return Ok(OpenedPeg {
            notes,
            diagnostics,
            runner: None,
        });
    };
    match PegLanguage::ready(alloc, rules, judged) {
        Ok(grammar) => {
            let counted = Counted::new(alloc, Packrat::new(alloc));
            Ok(OpenedPeg {
                notes,
                diagnostics,
                runner: Some(PegRunner { grammar, counted }),
            })
        }
        Err(Memory) => Err(ReadFault::Memory),
    }
}
