//! The explanations of lines that a rule rejects.
ghost use Rattle.std.specs.Prelude.{◌≡◌, ◌+◌, ◌≤◌, IfOk, length};
ghost use Rattle.std.specs.List.{All};
ghost use Rattle.abnfg.specs.ListRefusals.{AreRefusalsFrom};
ghost use Rattle.abnfread.specs.AbnfViews.{rules_of};
ghost use Rattle.refusedlines.specs.PrunedGrammars.{IsPrunedOf};
ghost use Rattle.rulelines.specs.MissLists.{item_lines};

use abnfcheck::SoundAbnf;
use earley::Chart;
use lazydfa::Automaton;
use refusedlines::{Explainer, LineUnit, PrunedGrammar, RefusedLine, explain_refused};
use ruletable::{Alphabet, Memory};
use std::alloc::Global;

// Returns a number that is greater than the length of each line.
fn above_lengths(lines: &[Vec<u8>]) -> usize
    ensures { All (λ line. length line.items + 1 ≤ result) lines.now }
{
    let mut above: usize = 1;
    for line in lines {
        above = above.max(line.len() + 1);
    }
    above
}

// Explains lines or records that a grammar rejects, by its productive parts. They have the numbers from 1 on. `Memory`
// if an allocation fails.
fn explain_all(
    alloc: Global,
    explainer: &Explainer<'_>,
    unit: LineUnit,
    lines: &[Vec<u8>],
) -> Result<Vec<u8>, Memory>
    requires within { All (λ line. length line.items + 1 ≤ explainer.now.pruned.now.flat.limit) lines.now }
    requires pruned { IsPrunedOf explainer.now.letters (rules_of explainer.now.grammar.now.rules)
        explainer.now.grammar.now.judged explainer.now.pruned.now }
    ensures { IfOk result (λ text. AreRefusalsFrom unit explainer.now.letters
        (rules_of explainer.now.grammar.now.rules) explainer.now.grammar.now.judged 1 (item_lines lines.now)
        text.items) }
{
    let mut automaton = Automaton::new(alloc, &explainer.pruned.flat)?;
    let mut chart = Chart::new(alloc);
    let mut text = Vec::new(alloc);
    for (index, line) in lines.iter().enumerate() {
        let refused = RefusedLine {
            unit,
            bytes: line,
            number: index + 1,
        };
        explain_refused(
            alloc,
            &mut chart,
            &mut automaton,
            explainer,
            refused,
            &mut text,
        )?;
    }
    Ok(text)
}

/// Explains why the judged rule of a grammar rejects each of some lines or records, which have the numbers from 1 on.
/// `Memory` if an allocation fails.
pub(crate) fn explain_lines(
    alloc: Global,
    letters: Alphabet,
    unit: LineUnit,
    grammar: &SoundAbnf,
    lines: &[Vec<u8>],
) -> Result<Vec<u8>, Memory>
    ensures { IfOk result (λ text. AreRefusalsFrom unit letters (rules_of grammar.now.rules) grammar.now.judged 1
        (item_lines lines.now) text.items) }
{
    if lines.is_empty() {
        return Ok(Vec::new(alloc));
    }
    let pruned = PrunedGrammar::new(alloc, grammar, letters, above_lengths(lines))?;
    let explainer = Explainer {
        grammar,
        letters,
        pruned: &pruned,
        budget: None,
    };
    explain_all(alloc, &explainer, unit, lines)
}
