//! A lazily built automaton.
ghost use Rattle.std.specs.Prelude.{◌≡◌, ◌↔◌, ◌∷◌, ℕ, [], IsTrue, IfOk, IfSome, length, map};
ghost use Rattle.std.specs.Prelude.{Some};
ghost use Rattle.flatgrammar.specs.Flat.{Concat, Iterations};
ghost use Rattle.flatgrammar.specs.FlatVerdicts.{DerivesLine, IsFlatVerdict};
ghost use Rattle.flatgrammar.specs.FlatViews.{node_of};
ghost use Rattle.flatgrammar.specs.NodeSteps.{flat_of};
ghost use Rattle.flatgrammar.specs.CalledParts.{AreAwaited};
ghost use Rattle.flatgrammar.specs.Stacks.{AreUncounted};
ghost use Rattle.lazydfa.specs.ExpectedSets.{IsExpected};
ghost use Rattle.lazydfa.specs.RunVerdicts.{IsOne};

use crate::awaited::parts_after;
use crate::budget::{Budget, ROOM};
use crate::cache::Cache;
use crate::chains::HashChains;
use crate::close::Ids;
use crate::conts::Conts;
use crate::expected::{Expected, dots_of};
use crate::kernels::KernelLeads;
use crate::memo::{Memo, forget_all};
use crate::run::{ClassTable, run, verdict_at};
use flatgrammar::{Classes, DottedRule, Flat, Node, Tables, Verdict, find_classes};
use ruletable::{Letter, Memory};
use std::alloc::Global;
use std::marker::Model;
use std::rc::Rc;

/// A flat grammar with the part of its automaton that earlier lines needed. Contracts see the grammar alone.
///
/// The automaton is a lazy DFA. Its states stand for sets of return stacks, which share their tails as nodes of a graph
/// (Tomita 1987). The grammar and the classes never change. The memo only grows, until an allocation fails; then it is
/// emptied. No verdict depends on the memo's contents, so one automaton serves line after line. The memo's budget
/// bounds its time and memory; where it is spent, the automaton gives no verdict.
#[derive(Drop)]
pub struct Automaton {
    /// Allocates all that the automaton keeps.
    alloc: Global,
    /// The grammar, shared with the `Flat` from which it was made.
    tables: Rc<Tables>,
    /// Classes of the symbols that each set of the grammar takes or rejects together.
    classes: Classes,
    /// The states and transitions known so far, and the shared suffixes of the line that is read.
    memo: Memo,
}

impl Model for Automaton {
    ghost use Rattle.flatgrammar.specs.Flat as spec;
    ghost use Rattle.flatgrammar.specs.NodeSteps.{flat_of};
    ghost use Rattle.flatgrammar.specs.TableViews.{AreNulls, GiveTargets};
    ghost use Rattle.flatgrammar.specs.Stacks.{AreUncounted};
    ghost use Rattle.flatgrammar.specs.ClassBounds.{AreClasses};
    ghost use Rattle.lazydfa.specs.Memos.{IsMemo};
    ghost use Rattle.lazydfa.specs.RunVerdicts.{IsOne};

    ghost Value = { spec.Flat };

    ghost view = { λ a. flat_of a.tables.value };

    ghost invariant = { λ a. (GiveTargets (flat_of a.tables.value) a.tables.value.targets.items)
        × (AreUncounted (flat_of
        a.tables.value)) × (IsOne (flat_of a.tables.value)) × (AreClasses (flat_of a.tables.value)
        a.classes.low a.classes.samples.items) × (IsMemo a.tables.value a.classes.samples.items a.memo)
        × (AreNulls (flat_of a.tables.value) a.tables.value.nulls.items) };
}

// Returns whether iterations that take a symbol are counted at a node.
fn counts_iterations(node: &Node) -> bool
    ensures { IsTrue result ↔ ((b : ℕ) × (m : ℕ) × (node_of node.now ≡ Iterations (Some b) m)) }
{
    match node {
        Node::Iterations {
            most: Some(_),
            operand: _,
        } => true,
        _ => false,
    }
}

// Returns whether no iterations that take a symbol are counted.
fn are_uncounted(tables: &Tables) -> bool
    ensures { IsTrue result → AreUncounted (flat_of tables.now) }
{
    for node in &tables.nodes {
        if counts_iterations(node) {
            return false;
        }
    }
    true
}

// Returns whether the augmented start is a concatenation of one.
fn is_one(tables: &Tables) -> bool
    ensures { IsTrue result → IsOne (flat_of tables.now) }
{
    match tables.nodes.get(tables.start) {
        Some(Node::Concat(members)) => members.len() == 1,
        _ => false,
    }
}

/// Returns whether an automaton may judge by these tables.
pub(crate) fn are_served(tables: &Tables) -> bool
    ensures { IsTrue result → AreUncounted (flat_of tables.now) × IsOne (flat_of tables.now) }
{
    are_uncounted(tables) && is_one(tables)
}

// Returns whether a repetition has a greatest number.
fn counts_repetitions(tables: &Tables) -> bool {
    for node in &tables.nodes {
        if let Node::Rep {
            least: _,
            most: Some(_),
            operand: _,
        } = node
        {
            return true;
        }
    }
    false
}

/// Returns a memo of a grammar with no state and no resumed state, in such a room. It takes no memory.
pub(crate) fn empty_memo(alloc: Global, tables: &Tables, room: usize) -> Memo
    ensures conts { result.cache.conts.items.items ≡ [] }
    ensures states { result.cache.states.items ≡ [] }
    ensures cells { result.cache.cells.items ≡ [] }
    ensures transitions { result.transitions.items ≡ [] }
    ensures resumes { result.resumes.items ≡ [] }
    ensures leads { result.leads.items.items ≡ [] }
{
    let nodes = tables.nodes.len();
    let most = nodes.saturating_mul(4).saturating_add(16_384);
    Memo {
        cache: Cache {
            conts: Conts {
                items: Vec::new(alloc),
                chains: HashChains::new(alloc),
            },
            ids: Ids {
                items: Vec::new(alloc),
                dots: Vec::new(alloc),
                most,
            },
            states: Vec::new(alloc),
            chains: HashChains::new(alloc),
            cells: Vec::new(alloc),
            counts: counts_repetitions(tables),
            budget: Budget::of(nodes, room),
        },
        transitions: Vec::new(alloc),
        resumes: Vec::new(alloc),
        chains: HashChains::new(alloc),
        leads: KernelLeads {
            items: Vec::new(alloc),
            chains: HashChains::new(alloc),
        },
        suffixes: Vec::new(alloc),
    }
}

impl Automaton {
    /// Returns an automaton that judges by a flat grammar; `None` if the grammar counts how often something nullable is
    /// repeated, or its augmented start is no concatenation of one. `Memory` if an allocation fails.
    pub fn new(alloc: Global, flat: &Flat) -> Result<Option<Automaton>, Memory>
        ensures { IfOk result (λ made. IfSome made (λ automaton. automaton ≡ flat.now)) }
    {
        Automaton::with_room(alloc, flat, usize::MAX)
    }

    /// Returns an automaton as `new` does, which fills no cell once it keeps `room`, or 2,000,000, tops of states,
    /// continuations, cells and resumed states. With no room it answers nothing, and with little it answers for some
    /// lines.
    pub fn with_room(alloc: Global, flat: &Flat, room: usize) -> Result<Option<Automaton>, Memory>
        ensures { IfOk result (λ made. IfSome made (λ automaton. automaton ≡ flat.now)) }
    {
        let tables = flat.share()?;
        if !are_uncounted(&tables) {
            return Ok(None);
        }
        if !is_one(&tables) {
            return Ok(None);
        }
        let classes = find_classes(alloc, &tables)?;
        let memo = empty_memo(alloc, &tables, room.min(ROOM));
        Ok(Some(Automaton {
            alloc,
            tables,
            classes,
            memo,
        }))
    }

    /// Returns whether the flat grammar derives a line, as `earley::judge` does; `None` if that takes more time or
    /// memory than there is for states. `Memory` if an allocation fails; the states of earlier lines may be lost then.
    #[inline(always)]
    pub fn judge<L: Letter>(&mut self, line: &[L]) -> Result<Option<bool>, Memory>
        ensures same { self.new ≡ self.old }
        ensures answer { IfOk result (λ reported. IfSome reported (λ yes. IsTrue yes ↔ DerivesLine self.old
            (map L.number line.now))) }
    {
        match self.viable(line)? {
            Some(Verdict::Yes) => Ok(Some(true)),
            Some(Verdict::No(_)) => Ok(Some(false)),
            None => Ok(None),
        }
    }

    /// Returns the verdict of the flat grammar on a line, as `earley::viable` does; `None` and `Memory` as `judge`.
    #[inline(always)]
    pub fn viable<L: Letter>(&mut self, line: &[L]) -> Result<Option<Verdict>, Memory>
        ensures same { self.new ≡ self.old }
        ensures verdict { IfOk result (λ reported. IfSome reported (IsFlatVerdict self.old (map L.number line.now))) }
    {
        let classes = ClassTable {
            low: &self.classes.low,
            samples: &self.classes.samples,
        };
        let Some(stop) = run(self.alloc, &self.tables, classes, &mut self.memo, line)? else {
            return Ok(None);
        };
        let verdict = verdict_at(&self.memo, classes.samples, stop, line.len());
        Ok(Some(verdict))
    }

    /// Finds the symbols that can follow the longest viable prefix of a line by one run over it. `None` and `Memory` as
    /// `judge`.
    pub fn expected<L: Letter>(&mut self, line: &[L]) -> Result<Option<Expected>, Memory>
        ensures same { self.new ≡ self.old }
        ensures reported { IfOk result (λ reported. IfSome reported (IsExpected self.old (map L.number line.now))) }
    {
        let classes = ClassTable {
            low: &self.classes.low,
            samples: &self.classes.samples,
        };
        let Some(stop) = run(self.alloc, &self.tables, classes, &mut self.memo, line)? else {
            return Ok(None);
        };
        let cache = &self.memo.cache;
        let Some(state) = cache.states.get(stop.row / (classes.samples.len() + 1)) else {
            return Ok(None);
        };
        let dots = dots_of(self.alloc, &cache.conts, &state.tops)?;
        Ok(Some(Expected {
            after: stop.at,
            dots,
            ends: state.ended,
        }))
    }

    /// Finds the parts that can come next after a line, in what began before its end: terminals, each with the number
    /// of its symbols that were read, and names, each at step 0. A part may stand more than once. `None` if the line is
    /// empty or no viable prefix, and as `judge`. `Memory` as `judge`.
    pub fn awaited<L: Letter>(&mut self, line: &[L]) -> Result<Option<Vec<DottedRule>>, Memory>
        ensures same { self.new ≡ self.old }
        ensures parts { IfOk result (λ reported. IfSome reported (λ parts. AreAwaited self.old (map L.number line.now)
            (length line.now) parts.items)) }
    {
        let Some((last, before)) = line.split_last() else {
            return Ok(None);
        };
        let classes = ClassTable {
            low: &self.classes.low,
            samples: &self.classes.samples,
        };
        let Some(stop) = run(self.alloc, &self.tables, classes, &mut self.memo, before)? else {
            return Ok(None);
        };
        if stop.at < before.len() {
            return Ok(None);
        }
        let state = stop.row / (classes.samples.len() + 1);
        match parts_after(
            self.alloc,
            &self.tables,
            &mut self.memo,
            state,
            last.value(),
        ) {
            Ok(reported) => Ok(reported),
            Err(error) => {
                forget_all(&mut self.memo);
                Err(error)
            }
        }
    }
}
