//! Callers of `memoryrun`, `pegrun`, `abnfrun` and `toolrun`: whole runs in memory, and a grammar that is read and
//! checked once.
ghost use Rattle.std.specs.Prelude.{◌≡◌, true};
ghost use Rattle.uses.specs.Taken.{IsTaken};
ghost use Rattle.fanquber.specs.AbnfAnswers.{AbnfStates};
ghost use Rattle.fanquber.specs.Answers.{States};
ghost use Rattle.fanquber.specs.Status.{code_of};

use fanquber::{AbnfSettings, PegLanguage, PegSettings, Status};
use memoryrun::{Outputs, abnf_in_memory, peg_in_memory, run_plan};
use std::alloc::Global;
use toolrun::plan_of;

/// Returns whether all of its input was taken in a run.
fn is_done(outputs: &Outputs) -> bool
    ensures { result ≡ true → code_of outputs.now.status ≡ 0 }
{
    outputs.status == Status::Done
}

/// Returns whether a run of a grammar of peg(1) takes all of an input. No where an allocation fails.
pub fn is_all_taken(alloc: Global, grammar: &[u8], settings: &PegSettings<'_>, input: &[u8]) -> bool
    ensures { result ≡ true → IsTaken (States grammar.now settings.now) input.now }
{
    is_done(&peg_in_memory(alloc, grammar, settings, input))
}

/// Returns whether a grammar in ABNF derives each line of an input. No where an allocation fails.
pub fn are_all_derived(
    alloc: Global,
    grammar: &[u8],
    settings: &AbnfSettings<'_>,
    input: &[u8],
) -> bool
    ensures { result ≡ true → IsTaken (AbnfStates grammar.now settings.now) input.now }
{
    is_done(&abnf_in_memory(alloc, grammar, settings, input))
}

/// Returns of two inputs whether runs of a grammar of peg(1) take all of them. The grammar is read and checked once. No
/// where an allocation fails.
pub fn are_both_taken(
    alloc: Global,
    grammar: &[u8],
    settings: &PegSettings<'_>,
    first: &[u8],
    second: &[u8],
) -> (bool, bool)
    ensures first { result.0 ≡ true → IsTaken (States grammar.now settings.now) first.now }
    ensures second { result.1 ≡ true → IsTaken (States grammar.now settings.now) second.now }
{
    let plan = plan_of::<PegLanguage>(alloc, grammar, settings);
    let one = is_done(&run_plan::<PegLanguage>(alloc, &plan, settings, first));
    let other = is_done(&run_plan::<PegLanguage>(alloc, &plan, settings, second));
    (one, other)
}
