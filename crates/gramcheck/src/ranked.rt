//! The nodes of grammars that no note rejects, before the grammars are made ready to run.
ghost use Rattle.std.specs.Prelude.{◌≡◌, ◌<◌, List, length, IfOk};
ghost use Rattle.fixpoint.specs.NumberMarks.{AreBelow};
ghost use Rattle.pegread.specs.Pattern.{Rule};
ghost use Rattle.pegread.specs.PegViews.{rules_of};
ghost use Rattle.gramcheck.specs.Grammar.{IsNumbered, IsRankedFor, IsSoundGrammar};
ghost use Rattle.gramcheck.specs.Printing.{ArePrintMarks};
ghost use Rattle.pegnodes.specs.Bodies.{AreBodies, IsBuilt};
ghost use Rattle.pegnodes.specs.ByteTables.{AreByteTables};
ghost use Rattle.pegnodes.specs.KeyLists.{marks_of, node_marks, tail_marks};
ghost use Rattle.pegnodes.specs.KeyMarks.{AreMarks};
ghost use Rattle.pegnodes.specs.Nodes.{shapes_of};
ghost use Rattle.pegnodes.specs.Slots.{AreCuts};

use crate::printing::print_marks;
use crate::sound::{SoundPeg, Tables};
use pegnodes::{Cut, MarkedNodes, cut_templates, find_keys, find_tables};
use pegread::Expr;
use ruletable::{Memory, RuleTable};
use std::alloc::Global;
use std::marker::Model;

/// The nodes of a grammar that no note rejects, without the tables that a run needs.
///
/// The ranks show that the grammar is well-formed (Ford 2004, section 3.6): a left step leads to a node of lower rank,
/// so no evaluation goes in a circle.
#[derive(Drop)]
pub struct RankedNodes {
    /// The id of the start rule.
    start: usize,
    /// The rules' bodies, cut into numbered nodes.
    cut: Cut,
    /// Of each node its rank.
    ranks: Vec<usize>,
}

impl Model for RankedNodes {
    ghost use Rattle.gramcheck.specs.Grammar.{Ranked};
    ghost use Rattle.pegnodes.specs.contracts.node.Node as n;
    ghost use Rattle.std.specs.Coded.{codes};

    ghost Value = { Ranked };

    ghost coded = { Prim.hlevel (codes, n.the_row.coded) };

    ghost view = { λ p. record {
      start = p.start;
      nodes = p.cut.nodes.items;
      bodies = p.cut.bodies.items;
      ranks = p.ranks.items;
    } };
}

impl RankedNodes {
    /// Returns these nodes, with their ranks, for the start rule of that id.
    pub(crate) fn new(start: usize, cut: Cut, ranks: Vec<usize>) -> RankedNodes
        ensures { result ≡ record {
          start = start;
          nodes = cut.nodes.items;
          bodies = cut.bodies.items;
          ranks = ranks.items;
        } }
    {
        RankedNodes { start, cut, ranks }
    }

    /// Makes the grammar of these rules ready to run from its start rule.
    ///
    /// # Errors
    /// `Memory` if an allocation fails; the grammar is dropped then.
    pub fn ready(self, alloc: Global, rules: RuleTable<Expr>) -> Result<SoundPeg, Memory>
        requires { IsRankedFor (rules_of rules) self }
        ensures rules { IfOk result (λ g. g.rules ≡ rules) }
        ensures start { IfOk result (λ g. g.start ≡ self.start) }
        ensures sound { IfOk result IsSoundGrammar }
        ensures numbered { IfOk result IsNumbered }
    {
        let tables = tables_of(alloc, &self.cut, self.start)?;
        Ok(SoundPeg::new(rules, self.start, self.cut, self.ranks, tables))
    }
}

// Finds the tables of these nodes. The grammar runs from the rule with the id `start`.
fn tables_of(alloc: Global, cut: &Cut, start: usize) -> Result<Tables, Memory>
    requires built { IsBuilt (shapes_of cut.now.nodes.items) }
    requires bodies { AreBelow cut.now.bodies.items (length cut.now.nodes.items) }
    requires start { start < length cut.now.bodies.items }
    ensures { IfOk result (λ t. ((rules : List Rule) → AreBodies rules (shapes_of cut.now.nodes.items)
        cut.now.bodies.items → ArePrintMarks rules (shapes_of cut.now.nodes.items) t.printing.items)
        × AreCuts (shapes_of cut.now.nodes.items) t.templates.positions.items t.templates.cuts.items
        × AreMarks start (shapes_of cut.now.nodes.items) cut.now.bodies.items
        (node_marks (marks_of (shapes_of cut.now.nodes.items) t.keys.nodes.items t.keys.after.items))
        (tail_marks (marks_of (shapes_of cut.now.nodes.items) t.keys.nodes.items t.keys.after.items))
        × AreByteTables (shapes_of cut.now.nodes.items) cut.now.bodies.items
        (marks_of (shapes_of cut.now.nodes.items) t.keys.nodes.items t.keys.after.items)
        t.by_byte.positions.items t.by_byte.runs.items t.by_byte.choices.items) }
{
    let printing = print_marks(alloc, &cut.nodes, &cut.bodies)?;
    let templates = cut_templates(alloc, &cut.nodes)?;
    let keys = find_keys(alloc, &cut.nodes, &cut.bodies, start)?;
    let marked = MarkedNodes {
        nodes: &cut.nodes,
        bodies: &cut.bodies,
        keys: &keys.nodes,
        after: &keys.after,
    };
    let by_byte = find_tables(alloc, &marked)?;
    Ok(Tables {
        printing,
        templates,
        keys,
        by_byte,
    })
}
