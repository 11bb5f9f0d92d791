//! Opens a grammar for C.
ghost use Rattle.std.specs.Prelude.{◌≡◌, is_some, None};
ghost use Rattle.capi.specs.GrammarOpenings.{IsAbnfOpening, IsPegOpening};
ghost use Rattle.capi.specs.OpenCall.{code_reported, text_reported};

use crate::judge::{CJudge, put_judge};
use crate::reported::text_of_fault;
use crate::runs::runner_by;
use crate::slot::{CRunner, put_runner};
use abnfrun::{AbnfLanguage, AbnfSettings, OpenedAbnf, open_abnf};
use pegrun::{OpenedPeg, PegLanguage, PegSettings, open_peg};
use ruletable::Memory;
use std::alloc::Global;

/// Opens a grammar in ABNF, and returns the diagnostics on it. Stores its judge in an empty `CJudge`, unless a
/// diagnostic rejects the grammar. Returns `Memory` if an allocation fails.
pub(crate) fn open_judge(
    alloc: Global,
    grammar: &[u8],
    settings: &AbnfSettings<'_>,
    slot: &mut CJudge,
) -> Result<Vec<u8>, Memory>
    requires { slot.old.judge.held ≡ None }
    ensures { IsAbnfOpening grammar.now settings.now (text_reported result) slot.new.judge.held
        (code_reported result (is_some slot.new.judge.held)) }
{
    let OpenedAbnf {
        diagnostics,
        judge,
        ..
    } = match open_abnf(alloc, grammar, settings) {
        Ok(opened) => opened,
        Err(fault) => return text_of_fault::<AbnfLanguage>(alloc, grammar, settings, fault),
    };
    let Some(judge) = judge else {
        return Ok(diagnostics);
    };
    put_judge(Box::new(alloc, judge)?, slot);
    Ok(diagnostics)
}

/// Opens a grammar of peg(1), and returns the diagnostics on it. Stores its runner in an empty `CRunner`, unless a
/// diagnostic rejects the grammar. Returns `Memory` if an allocation fails.
pub(crate) fn open_runner(
    alloc: Global,
    grammar: &[u8],
    settings: &PegSettings<'_>,
    slot: &mut CRunner,
) -> Result<Vec<u8>, Memory>
    requires { slot.old.runner.held ≡ None }
    ensures { IsPegOpening grammar.now settings.now (text_reported result) slot.new.runner.held
        (code_reported result (is_some slot.new.runner.held)) }
{
    let OpenedPeg {
        diagnostics,
        runner,
        ..
    } = match open_peg(alloc, grammar, settings) {
        Ok(opened) => opened,
        Err(fault) => return text_of_fault::<PegLanguage>(alloc, grammar, settings, fault),
    };
    let Some(peg) = runner else {
        return Ok(diagnostics);
    };
    put_runner(Box::new(alloc, runner_by(peg, settings))?, slot);
    Ok(diagnostics)
}
