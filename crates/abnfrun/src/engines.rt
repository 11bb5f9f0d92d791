//! The two judges of symbols: an automaton, which is asked first, and a chart. The chart judges by a flat grammar, and
//! the automaton by the same or by another that judges alike.
ghost use Rattle.std.specs.Prelude.{◌≡◌, ◌↔◌, ◌≤◌, Some, length, map, IfErr, IfOk, IfSome, IsTrue};
ghost use Rattle.earleyitems.specs.ChartSets.{HaveMoreItems};
ghost use Rattle.flatgrammar.specs.FlatVerdicts.{DerivesLine, IsFlatVerdict};
ghost use Rattle.flatgrammar.specs.declared.verdict.Verdict.{Verdict as the_verdict};
ghost use Rattle.linejudge.specs.InputLines.{IsNoAnswer};

use earley::{Chart, judge, judge_few, viable, viable_few};
use flatgrammar::{Flat, Verdict};
use lazydfa::Automaton;
use linejudge::NoAnswer;
use ruletable::Letter;

/// The two judges of symbols. The automaton is fast, but may give no answer; then the chart answers. The flat grammar
/// of the automaton may have loops where that of the chart is left recursive.
#[derive(Drop)]
pub(crate) struct Engines {
    /// The Earley judge.
    pub(crate) chart: Chart,
    /// The lazy automaton, if the grammar has one.
    pub(crate) automaton: Option<Automaton>,
}

impl Engines {
    /// Returns whether a flat grammar derives symbols, no more than it serves. `Memory` if an allocation fails,
    /// `Costly` if the automaton has no answer and the sets have more items than the budget.
    #[inline(always)]
    pub(crate) fn judge<L: Letter>(
        &mut self,
        flat: &Flat,
        budget: Option<usize>,
        line: &[L],
    ) -> Result<bool, NoAnswer>
        requires within { length line.now ≤ flat.now.limit }
        requires alike { IfSome self.old.automaton (λ a. DerivesLine a (map L.number line.now)
            ↔ DerivesLine flat.now (map L.number line.now)) }
        ensures same { self.new.automaton ≡ self.old.automaton }
        ensures answer { IfOk result (λ yes. IsTrue yes ↔ DerivesLine flat.now (map L.number line.now)) }
        ensures costly { IfErr result (IsNoAnswer (λ n. (budget ≡ Some n)
            × HaveMoreItems flat.now (map L.number line.now) n)) }
    {
        if let Some(automaton) = &mut self.automaton {
            if let Ok(Some(yes)) = automaton.judge(line) {
                return Ok(yes);
            }
        }
        let Some(most) = budget else {
            return Ok(judge(&mut self.chart, flat, line)?);
        };
        match judge_few(&mut self.chart, flat, line, most)? {
            Some(yes) => Ok(yes),
            None => Err(NoAnswer::Costly(most)),
        }
    }

    /// Returns the verdict of a flat grammar on symbols, no more than it serves. `Memory` if an allocation fails,
    /// `Costly` if the automaton has no answer and the sets have more items than the budget.
    #[inline(always)]
    pub(crate) fn viable<L: Letter>(
        &mut self,
        flat: &Flat,
        budget: Option<usize>,
        line: &[L],
    ) -> Result<Verdict, NoAnswer>
        requires within { length line.now ≤ flat.now.limit }
        requires alike { IfSome self.old.automaton (λ a. (said : the_verdict)
            → IsFlatVerdict a (map L.number line.now) said → IsFlatVerdict flat.now (map L.number line.now) said) }
        ensures same { self.new.automaton ≡ self.old.automaton }
        ensures verdict { IfOk result (IsFlatVerdict flat.now (map L.number line.now)) }
        ensures costly { IfErr result (IsNoAnswer (λ n. (budget ≡ Some n)
            × HaveMoreItems flat.now (map L.number line.now) n)) }
    {
        if let Some(automaton) = &mut self.automaton {
            if let Ok(Some(verdict)) = automaton.viable(line) {
                return Ok(verdict);
            }
        }
        let Some(most) = budget else {
            return Ok(viable(&mut self.chart, flat, line)?);
        };
        match viable_few(&mut self.chart, flat, line, most)? {
            Some(verdict) => Ok(verdict),
            None => Err(NoAnswer::Costly(most)),
        }
    }
}
