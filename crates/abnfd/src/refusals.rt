//! The explanations of lines that one rule alone derives: why the other one rejects them.
ghost use Rattle.std.specs.Prelude.{◌≡◌, ◌+◌, ◌≤◌, [], IfOk, length};
ghost use Rattle.abnfd.specs.AloneRefusals.{AreAskedRefusals, AreRefusals, IsRefusalBy, IsRefusalOfAlone};
ghost use Rattle.abnfread.specs.AbnfViews.{rules_of};
ghost use Rattle.refusedlines.specs.PrunedGrammars.{IsPrunedOf};
ghost use Rattle.refusedlines.specs.Refusals.{IsRefusalReported};

use crate::compared::CompareSettings;
use abnfcheck::SoundAbnf;
use earley::Chart;
use lazydfa::Automaton;
use refusedlines::{Explainer, LineUnit, PrunedGrammar, RefusedLine, explain_refused};
use rulelines::{Alone, Comparison, line_bytes};
use ruletable::{Alphabet, Memory};
use std::alloc::Global;

/// What an explanation of the first line of an input begins with.
const FIRST_LINE: &[u8] = b"line 1";

// Explains a rejected line, as the first one of an input. `Memory` if an allocation fails.
fn explain_first(alloc: Global, explainer: &Explainer<'_>, line: &[u8]) -> Result<Vec<u8>, Memory>
    requires within { length line.now + 1 ≤ explainer.now.pruned.now.flat.limit }
    requires pruned { IsPrunedOf explainer.now.letters (rules_of explainer.now.grammar.now.rules)
        explainer.now.grammar.now.judged explainer.now.pruned.now }
    ensures { IfOk result (λ why. IsRefusalReported LineUnit.Line explainer.now.letters
        (rules_of explainer.now.grammar.now.rules) explainer.now.grammar.now.judged line.now 1 why.items) }
{
    let mut automaton = Automaton::new(alloc, &explainer.pruned.flat)?;
    let mut chart = Chart::new(alloc);
    let mut why = Vec::new(alloc);
    let refused = RefusedLine {
        unit: LineUnit::Line,
        bytes: line,
        number: 1,
    };
    explain_refused(
        alloc,
        &mut chart,
        &mut automaton,
        explainer,
        refused,
        &mut why,
    )?;
    Ok(why)
}

// Explains a line that a grammar rejects, as the first one of an input. `Memory` if an allocation fails.
fn explain_bytes(
    alloc: Global,
    letters: Alphabet,
    grammar: &SoundAbnf,
    line: &[u8],
) -> Result<Vec<u8>, Memory>
    ensures { IfOk result (λ why. IsRefusalReported LineUnit.Line letters (rules_of grammar.now.rules)
        grammar.now.judged line.now 1 why.items) }
{
    let pruned = PrunedGrammar::new(alloc, grammar, letters, line.len() + 1)?;
    let explainer = Explainer {
        grammar,
        letters,
        pruned: &pruned,
        budget: None,
    };
    explain_first(alloc, &explainer, line)
}

// Explains a line of symbols that the grammar of that side rejects. `Memory` if an allocation fails.
fn explain_symbols(
    alloc: Global,
    letters: Alphabet,
    side: &[u8],
    grammar: &SoundAbnf,
    line: &[u32],
) -> Result<Vec<u8>, Memory>
    ensures { IfOk result (λ why. IsRefusalBy letters side.now grammar.now line.now why.items) }
{
    let bytes = line_bytes(alloc, letters, line)?;
    let why = explain_bytes(alloc, letters, grammar, bytes.as_slice())?;
    let rest = &why.as_slice()[FIRST_LINE.len()..];
    let mut text = Vec::new(alloc);
    text.extend_from_slice(side)?;
    text.extend_from_slice(rest)?;
    Ok(text)
}

// Explains the first line that the grammar of that side rejects and the other one does not, if it is known; else
// returns no text. `Memory` if an allocation fails.
fn explain_alone(
    alloc: Global,
    letters: Alphabet,
    side: &[u8],
    grammar: &SoundAbnf,
    alone: &Alone,
) -> Result<Vec<u8>, Memory>
    ensures { IfOk result (λ why. IsRefusalOfAlone letters side.now grammar.now alone.now why.items) }
{
    match alone {
        Alone::First(line) => explain_symbols(alloc, letters, side, grammar, line.as_slice()),
        Alone::Never | Alone::NeverUpTo(_) | Alone::Unknown => Ok(Vec::new(alloc)),
    }
}

// Explains the first lines that one of two grammars rejects and the other one does not, those that are known. `Memory`
// if an allocation fails.
fn explain_both(
    alloc: Global,
    letters: Alphabet,
    old: &SoundAbnf,
    new: &SoundAbnf,
    found: &Comparison,
) -> Result<Vec<u8>, Memory>
    ensures { IfOk result (λ why. AreRefusals letters old.now new.now found.now why.items) }
{
    let mut by_new = explain_alone(alloc, letters, b"new", new, &found.old_alone)?;
    let by_old = explain_alone(alloc, letters, b"old", old, &found.new_alone)?;
    by_new.extend_from_slice(by_old.as_slice())?;
    Ok(by_new)
}

/// Explains why each of two grammars rejects the first line that the other one alone derives, if it is known, and if
/// the settings ask for it; else returns no text. `Memory` if an allocation fails.
pub(crate) fn asked_refusals(
    alloc: Global,
    settings: &CompareSettings<'_>,
    old: &SoundAbnf,
    new: &SoundAbnf,
    found: &Comparison,
) -> Result<Vec<u8>, Memory>
    ensures { IfOk result (λ why. AreAskedRefusals settings.now.explain settings.now.letters old.now new.now found.now
        why.items) }
{
    if !settings.explain {
        return Ok(Vec::new(alloc));
    }
    explain_both(alloc, settings.letters, old, new, found)
}
