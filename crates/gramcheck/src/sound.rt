//! Sound grammars.
ghost use Rattle.std.specs.Prelude.{◌≡◌, ◌↔◌, ◌<◌, ℕ, IfSome, List, length, slice_get, true, Some};
ghost use Rattle.pegread.specs.Pattern.{Pattern};
ghost use Rattle.pegread.specs.PegViews.{rules_of};
ghost use Rattle.gramcheck.specs.Grammar.{HasKeys, IsNumbered, IsSoundGrammar};
ghost use Rattle.pegnodes.specs.ByteTables.{AreByteTables, IsTabled};
ghost use Rattle.pegnodes.specs.ChoiceTables.{IsChoiceTable};
ghost use Rattle.pegnodes.specs.KeyLists.{marks_of, node_marks, tail_marks};
ghost use Rattle.pegnodes.specs.KeyMarks.{AreMarks};
ghost use Rattle.pegnodes.specs.NodeCounts.{node_counts};
ghost use Rattle.pegnodes.specs.NodeLists.{AreNumbered};
ghost use Rattle.pegnodes.specs.Nodes.{Act, Choice, Shape, shapes_of, Spells};
ghost use Rattle.gramcheck.specs.Printing.{ArePrintMarks, Prints};
ghost use Rattle.pegnodes.specs.RunTables.{IsTable};
ghost use Rattle.pegnodes.specs.Slots.{AreCuts, IsCut};
ghost use Rattle.gramcheck.specs.Sound.{IsRanked};

use pegnodes::{
    ByteTables, ChoiceTable, Cut, Keys, Node, RunTable, Template, Templates, is_key_from, mark_or,
};
use pegread::Expr;
use ruletable::RuleTable;
use std::marker::Model;

/// The tables of a grammar's nodes.
#[derive(Drop)]
pub(crate) struct Tables {
    /// Of each node whether it may print.
    pub(crate) printing: Vec<bool>,
    /// The cuts of the actions' templates.
    pub(crate) templates: Templates,
    /// Which nodes, and which tails of sequences, are keys.
    pub(crate) keys: Keys,
    /// The outcomes that one byte decides, of the operands of repetitions and of choices.
    pub(crate) by_byte: ByteTables,
}

/// A grammar that can be run: checked, and with the tables that a matcher looks up by node.
///
/// `rules` and `start` are the grammar. `nodes` and `bodies` repeat the rules' bodies as numbered nodes, so that a
/// matcher can memoize by number. Operands have smaller numbers than the nodes that they stand in. Every left step
/// leads to a node of lower rank, so a run ends. The other fields follow from the nodes, and never change.
#[derive(Drop)]
pub struct SoundPeg {
    /// The rules, by id.
    rules: RuleTable<Expr>,
    /// The id of the start rule.
    start: usize,
    /// The nodes, by number.
    nodes: Vec<Node>,
    /// Of each rule the node of its body.
    bodies: Vec<usize>,
    /// Of each node its rank.
    ranks: Vec<usize>,
    /// Of each node whether it may print.
    printing: Vec<bool>,
    /// The cuts of the actions' templates.
    templates: Templates,
    /// Which nodes, and which tails of sequences, are keys.
    keys: Keys,
    /// The outcomes that one byte decides, of the operands of repetitions and of choices.
    by_byte: ByteTables,
}

impl Model for SoundPeg {
    ghost use Rattle.gramcheck.specs.Grammar.{Grammar};
    ghost use Rattle.pegnodes.specs.KeyLists.{marks_of, node_marks, tail_marks};
    ghost use Rattle.pegnodes.specs.KeyMarks.{AreMarks};
    ghost use Rattle.pegnodes.specs.NodeLists.{AreNumbered};
    ghost use Rattle.pegnodes.specs.Nodes.{shapes_of};
    ghost use Rattle.gramcheck.specs.Printing.{ArePrintMarks};
    ghost use Rattle.pegnodes.specs.Slots.{AreCuts};
    ghost use Rattle.gramcheck.specs.Sound.{IsRanked};
    ghost use Rattle.pegnodes.specs.ByteTables.{AreByteTables};
    ghost use Rattle.pegnodes.specs.contracts.node.Node as n;
    ghost use Rattle.pegread.specs.PegViews.{rules_of};
    ghost use Rattle.pegread.specs.contracts.expr.Expr as e;
    ghost use Rattle.std.specs.Coded.{codes};

    ghost Value = { Grammar };

    ghost coded = { Prim.hlevel (codes, e.the_row.coded, n.the_row.coded) };

    ghost view = { λ p. record {
      rules = p.rules;
      start = p.start;
      nodes = p.nodes.items;
      bodies = p.bodies.items;
      ranks = p.ranks.items;
      keys = marks_of (shapes_of p.nodes.items) p.keys.nodes.items p.keys.after.items;
    } };

    ghost invariant = { λ p. IsRanked (rules_of p.rules) p.start (shapes_of p.nodes.items) p.bodies.items p.ranks.items
        × ArePrintMarks (rules_of p.rules) (shapes_of p.nodes.items) p.printing.items
        × AreCuts (shapes_of p.nodes.items) p.templates.positions.items p.templates.cuts.items
        × AreMarks p.start (shapes_of p.nodes.items) p.bodies.items
        (node_marks (marks_of (shapes_of p.nodes.items) p.keys.nodes.items p.keys.after.items))
        (tail_marks (marks_of (shapes_of p.nodes.items) p.keys.nodes.items p.keys.after.items))
        × AreByteTables (shapes_of p.nodes.items) p.bodies.items
        (marks_of (shapes_of p.nodes.items) p.keys.nodes.items p.keys.after.items)
        p.by_byte.positions.items p.by_byte.runs.items p.by_byte.choices.items
        × AreNumbered (rules_of p.rules) (shapes_of p.nodes.items) p.bodies.items };
}

impl SoundPeg {
    /// Returns the grammar of these rules and nodes, with the ranks and the tables of its nodes.
    pub(crate) fn new(
        rules: RuleTable<Expr>,
        start: usize,
        cut: Cut,
        ranks: Vec<usize>,
        tables: Tables,
    ) -> SoundPeg
        requires ranked { IsRanked (rules_of rules) start (shapes_of cut.nodes.items) cut.bodies.items ranks.items }
        requires printing { ArePrintMarks (rules_of rules) (shapes_of cut.nodes.items) tables.printing.items }
        requires templates { AreCuts (shapes_of cut.nodes.items) tables.templates.positions.items
            tables.templates.cuts.items }
        requires keys { AreMarks start (shapes_of cut.nodes.items) cut.bodies.items
            (node_marks (marks_of (shapes_of cut.nodes.items) tables.keys.nodes.items tables.keys.after.items))
            (tail_marks (marks_of (shapes_of cut.nodes.items) tables.keys.nodes.items tables.keys.after.items)) }
        requires by_byte { AreByteTables (shapes_of cut.nodes.items) cut.bodies.items
            (marks_of (shapes_of cut.nodes.items) tables.keys.nodes.items tables.keys.after.items)
            tables.by_byte.positions.items tables.by_byte.runs.items tables.by_byte.choices.items }
        requires numbered { AreNumbered (rules_of rules) (shapes_of cut.nodes.items) cut.bodies.items }
        ensures rules { result.rules ≡ rules }
        ensures start { result.start ≡ start }
        ensures sound { IsSoundGrammar result }
        ensures numbered { IsNumbered result }
    {
        SoundPeg {
            rules,
            start,
            nodes: cut.nodes,
            bodies: cut.bodies,
            ranks,
            printing: tables.printing,
            templates: tables.templates,
            keys: tables.keys,
            by_byte: tables.by_byte,
        }
    }

    /// Returns the table of the rules, by id, as the reader made it.
    pub fn rules(&self) -> &RuleTable<Expr>
        ensures { result.now ≡ self.now.rules }
    {
        &self.rules
    }

    /// Returns the id of the start rule. The clauses `sound`, `keys` and `numbered` say what a grammar that can be run
    /// is: its nodes are those of its rules, in their order.
    pub fn start(&self) -> usize
        ensures id { result ≡ self.now.start }
        ensures sound { IsSoundGrammar self.now }
        ensures keys { HasKeys self.now }
        ensures numbered { IsNumbered self.now }
    {
        self.start
    }

    /// Returns the number of nodes: one for each occurrence of an expression in the rules' bodies, and for each `+` one
    /// more, the Star of its operand.
    pub fn nodes(&self) -> usize
        ensures count { result ≡ length self.now.nodes }
        ensures occurrences { result ≡ node_counts (rules_of self.now.rules) }
    {
        self.nodes.len()
    }

    /// Returns the number of the node of a rule's body. The id must be that of a rule.
    pub fn body_node(&self, id: usize) -> usize
        requires { id < length self.now.bodies }
        ensures { slice_get self.now.bodies id ≡ Some result }
    {
        self.bodies[id]
    }

    /// Returns the node of that number, which must be less than `nodes()`.
    pub fn node(&self, n: usize) -> &Node
        requires { n < length self.now.nodes }
        ensures { slice_get self.now.nodes n ≡ Some result.now }
    {
        &self.nodes[n]
    }

    /// Returns where the template of an action's node is cut. The node of that number must be an action.
    pub fn template(&self, n: usize) -> &Template
        requires { (text : List ℕ) × (slice_get (shapes_of self.now.nodes) n ≡ Some (Act text)) }
        ensures { (text : List ℕ) → slice_get (shapes_of self.now.nodes) n ≡ Some (Act text)
            → IsCut text result.now }
    {
        &self.templates.cuts[self.templates.positions[n]]
    }

    /// Returns the rank of the node of that number, which must be less than `nodes()`: at most the number of nodes, and
    /// lower after each left step.
    pub fn rank(&self, n: usize) -> usize
        requires { n < length self.now.nodes }
        ensures { slice_get self.now.ranks n ≡ Some result }
    {
        self.ranks[n]
    }

    /// Returns whether the node of that number is silent. A silent node has no action and no end of a capture, nor have
    /// its operands and the rules that these name, those of predicates left out. The law `silent_leaves_no_event`
    /// states the consequence for a success. The number must be less than `nodes()`.
    pub fn is_silent(&self, n: usize) -> bool
        requires { n < length self.now.nodes }
        ensures { (e : Pattern) → Spells (rules_of self.now.rules) (shapes_of self.now.nodes) n e →
            (result ≡ true) ↔ (Prints (rules_of self.now.rules) e → ⊥) }
    {
        match self.printing.get(n) {
            Some(mark) => !*mark,
            None => true,
        }
    }

    /// Returns whether the node of that number is a key: whether its result must be memoized.
    pub fn is_key_node(&self, n: usize) -> bool
        ensures { result ≡ node_marks self.now.keys n }
    {
        mark_or(&self.keys.nodes, n, true)
    }

    /// Returns whether the result of a node's tail from member `i` on must be memoized. Only a tail of a sequence after
    /// its first member is a key.
    pub fn is_key_tail(&self, n: usize, i: usize) -> bool
        ensures { result ≡ tail_marks self.now.keys n i }
    {
        match self.nodes.get(n) {
            Some(node) => is_key_from(node, &self.keys.after, i),
            None => false,
        }
    }

    /// Returns the table of the outcomes of the node of that number, if the grammar has one. Only an option or a
    /// predicate has one; that of a repetition is of its operand. A node of which no byte alone decides anything has
    /// none, and not each other one does in a grammar of very many.
    pub fn run_table(&self, n: usize) -> Option<&RunTable>
        ensures { IfSome result (λ t. (s : Shape) (k : ℕ) → slice_get (shapes_of self.now.nodes) n ≡ Some s
            → IsTabled n s k → IsTable (shapes_of self.now.nodes) self.now.bodies (node_marks self.now.keys)
            (tail_marks self.now.keys) k t.now.entries.items) }
    {
        let position = self.by_byte.positions.get(n)?;
        match *position {
            Some(position) => self.by_byte.runs.get(usize::from(position)),
            None => None,
        }
    }

    /// Returns the table of the choice that is the node of that number, if the grammar has one. Only a choice of which
    /// some byte decides that the first alternative fails has one, and not each does in a grammar of very many.
    pub fn choice_table(&self, choice: usize) -> Option<&ChoiceTable>
        ensures { IfSome result (λ t. (ms : List ℕ) → slice_get (shapes_of self.now.nodes) choice ≡ Some (Choice ms)
            → IsChoiceTable (shapes_of self.now.nodes) self.now.bodies (node_marks self.now.keys)
            (tail_marks self.now.keys) choice ms t.now.entries.items) }
    {
        let position = self.by_byte.positions.get(choice)?;
        match *position {
            Some(position) => self.by_byte.choices.get(usize::from(position)),
            None => None,
        }
    }
}
