//! The language of peg(1), whose grammars are run on units of an input.
ghost use Rattle.gramcheck.specs.Grammar.{IsRankedFor};
ghost use Rattle.pegprint.specs.PegAllFaults.{ExplainsAll};
ghost use Rattle.pegexplain.specs.PegNotes.{ArePegPositions, AreTextPositions, ExplainsNote, IsPegRead};
ghost use Rattle.pegexplain.specs.PegHints.{ArePegHints};
ghost use Rattle.pegprint.specs.Canon.{grammar_text};
ghost use Rattle.pegread.specs.PegViews.{rules_of};
ghost use Rattle.pegread.specs.Reading.{IsFaultOf};
ghost use Rattle.pegrun.specs.Answers.{States};
ghost use Rattle.pegrun.specs.PegLanguage.{IsChecked, IsPrintable, IsReadAs, IsReady};
ghost use Rattle.pegrun.specs.PegReply.{RunStates};

use crate::engine::{Counted, run_units};
use crate::options::{PegOptions, PegSettings};
use crate::ready::ReadyPeg;
use diagnostics::Positions;
use feed::Source;
use gramcheck::{RankedNodes, judge_peg, redefinitions};
use packrat::Packrat;
use pegexplain::{
    PegPositions, PegText, explain_peg_note, peg_hints, peg_positions, read_peg_text,
};
use pegprint::{explain_faults, print_peg};
use pegread::{Expr, Peg, read_peg};
use ruletable::{Memory, Note, ReadFault, RuleTable, Sink, WriteFault};
use std::alloc::Global;
use toolrun::{Checked, Ending, Language, ReadText};

/// The language of peg(1).
pub struct PegLanguage;

impl Language for PegLanguage {
    type Options = PegOptions;

    type Grammar = Peg;

    type Rules = RuleTable<Expr>;

    type Judged = RankedNodes;

    type Sound = ReadyPeg;

    type TextPositions = Positions;

    type Positions = PegPositions;

    ghost states = { States };

    ghost has_fault = { IsFaultOf };

    ghost explains = { ExplainsAll };

    ghost are_text_positions = { AreTextPositions };

    ghost are_positions = { λ text start. ArePegPositions text };

    ghost explains_note = { ExplainsNote };

    ghost are_hints = { λ text settings. ArePegHints text };

    ghost is_read = { λ text peg. IsReadAs text peg.rules peg.redefined.items };

    ghost are_rules = { IsPegRead };

    ghost held = { λ positions. positions.rules };

    ghost is_checked = { IsChecked };

    ghost belongs = { λ rules. IsRankedFor (rules_of rules) };

    ghost is_ready = { IsReady };

    ghost is_printable = { λ text peg again. IsPrintable text (rules_of peg.rules) again };

    ghost canonical = { λ peg. grammar_text (rules_of peg.rules) };

    ghost runs = { λ peg. RunStates (rules_of peg.rules) peg.start };

    fn read(
        alloc: Global,
        text: &[u8],
        explain: bool,
    ) -> Result<ReadText<Peg, Positions>, ReadFault> {
        if !explain {
            let grammar = read_peg(alloc, text)?;
            return Ok(ReadText {
                grammar,
                positions: None,
            });
        }
        let PegText { peg, positions } = read_peg_text(alloc, text)?;
        Ok(ReadText {
            grammar: peg,
            positions: Some(positions),
        })
    }

    fn explain_fault(alloc: Global, text: &[u8], fault: ReadFault) -> Result<Vec<u8>, Memory> {
        explain_faults(alloc, text, fault)
    }

    fn positions(
        alloc: Global,
        found: Positions,
        rules: RuleTable<Expr>,
        _start: Option<&str>,
    ) -> Result<PegPositions, Memory> {
        peg_positions(alloc, found, rules)
    }

    fn into_rules(positions: PegPositions) -> RuleTable<Expr> {
        positions.rules
    }

    fn explain_note(
        alloc: Global,
        positions: &PegPositions,
        start: Option<&str>,
        note: &Note,
    ) -> Result<Vec<u8>, Memory> {
        explain_peg_note(alloc, positions, start, note)
    }

    fn hints(
        alloc: Global,
        positions: &PegPositions,
        _settings: &PegSettings<'_>,
    ) -> Result<Vec<u8>, Memory> {
        peg_hints(alloc, positions)
    }

    fn check(
        alloc: Global,
        grammar: Peg,
        start: Option<&str>,
    ) -> Result<Checked<RuleTable<Expr>, RankedNodes>, Memory> {
        let gramcheck::Checked { notes, sound } = judge_peg(alloc, &grammar, start)?;
        Ok(Checked {
            notes,
            rules: grammar.rules,
            judged: sound,
        })
    }

    fn ready(
        alloc: Global,
        rules: RuleTable<Expr>,
        judged: RankedNodes,
    ) -> Result<ReadyPeg, Memory> {
        let grammar = judged.ready(alloc, rules)?;
        Ok(ReadyPeg { grammar })
    }

    fn redefinitions(alloc: Global, grammar: &Peg) -> Result<Vec<Note>, Memory> {
        redefinitions(alloc, grammar)
    }

    fn print<O: Sink>(grammar: &Peg, out: &mut O) -> Result<(), WriteFault> {
        print_peg(grammar, out)
    }

    fn run<R: Source, O: Sink>(
        alloc: Global,
        grammar: &ReadyPeg,
        settings: &PegSettings<'_>,
        reader: &mut R,
        out: &mut O,
    ) -> Result<Ending, WriteFault> {
        let mut counted = Counted::new(alloc, Packrat::new(alloc));
        run_units(alloc, &mut counted, grammar, settings, reader, out)
    }

    fn follows() {}
}
