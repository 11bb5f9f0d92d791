//! Callers of `abnfrun`, `pegrun` and `memoryrun`: a grammar that is opened once, and lines that it judges, or inputs
//! on which it is run.
ghost use Rattle.std.specs.Prelude.{◌≤◌, length, IfSome};
ghost use Rattle.uses.specs.AnswersAlone.{AnswersAlone};
ghost use Rattle.uses.specs.RunsAlone.{RunsAlone};

use abnfrun::{AbnfSettings, Answer, OpenedAbnf, open_abnf};
use memoryrun::{Outputs, run_opened};
use pegrun::{OpenedPeg, PegSettings, open_peg};
use std::alloc::Global;

/// Opens a grammar in ABNF, and returns the answers to two lines, each of at most as many bytes as the settings allow.
/// They are the answers of runs of the grammar on each line alone, without explanations. Returns none if the text is no
/// grammar, the grammar is rejected, or an allocation fails.
pub fn answer_both(
    alloc: Global,
    grammar: &[u8],
    settings: &AbnfSettings<'_>,
    first: &[u8],
    second: &[u8],
) -> Option<(Answer, Answer)>
    requires first_within { length first.now ≤ settings.now.limit }
    requires second_within { length second.now ≤ settings.now.limit }
    ensures first { IfSome result (λ both. AnswersAlone grammar.now settings.now first.now both.0) }
    ensures second { IfSome result (λ both. AnswersAlone grammar.now settings.now second.now both.1) }
{
    let Ok(OpenedAbnf { judge, .. }) = open_abnf(alloc, grammar, settings) else {
        return None;
    };
    let Some(mut judge) = judge else {
        return None;
    };
    let Ok(one) = judge.judge(first) else {
        return None;
    };
    let Ok(other) = judge.judge(second) else {
        return None;
    };
    Some((one, other))
}

/// Opens a grammar of peg(1), and returns what it writes on two inputs, after the messages on the grammar: what runs
/// of the grammar on each input alone write. None where the text is no grammar, the grammar is rejected, or an
/// allocation fails in opening it.
pub fn run_both(
    alloc: Global,
    grammar: &[u8],
    settings: &PegSettings<'_>,
    first: &[u8],
    second: &[u8],
) -> Option<(Outputs, Outputs)>
    ensures first { IfSome result (λ both. RunsAlone grammar.now settings.now first.now both.0) }
    ensures second { IfSome result (λ both. RunsAlone grammar.now settings.now second.now both.1) }
{
    let Ok(OpenedPeg { runner, .. }) = open_peg(alloc, grammar, settings) else {
        return None;
    };
    let Some(mut runner) = runner else {
        return None;
    };
    let one = run_opened(alloc, &mut runner, settings, first);
    let other = run_opened(alloc, &mut runner, settings, second);
    Some((one, other))
}
