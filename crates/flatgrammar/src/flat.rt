//! Lowered grammars.
ghost use Rattle.std.specs.Prelude.{◌≡◌, ◌↔◌, ℕ, ◌<◌, length, slice_get, Some, IfOk, IsTrue};
ghost use Rattle.flatgrammar.specs.ItemClosures.{AreExact};
ghost use Rattle.flatgrammar.specs.FlatViews.{node_of, nodes_of};
ghost use Rattle.flatgrammar.specs.NodeSteps.{flat_of};
ghost use Rattle.flatgrammar.specs.Nullable.{Nullable};
ghost use Rattle.flatgrammar.specs.Operands.{AreOrdered};
ghost use Rattle.flatgrammar.specs.Targets.{Target};
ghost use Rattle.flatgrammar.specs.TableViews.{AreNulls};

use crate::dot_list::dot_lists;
use crate::flat_node::Node;
use crate::inlined::find_inlines;
use crate::prediction_closure::prediction_closures;
use crate::tables::Tables;
use crate::targets::find_targets;
use ruletable::Memory;
use std::alloc::Global;
use std::marker::Model;
use std::rc::Rc;

/// A grammar as numbered nodes, for lines of at most `limit` symbols. Contracts see the nodes, the rules' bodies and
/// the augmented start, which is a concatenation of the judged rule's body alone.
///
/// `new` computes once, by node, what judging looks up: where a node starts and ends, whether it is nullable, and the
/// closure of its prediction. Nothing changes later, so that the judges share the tables.
#[derive(Drop)]
pub struct Flat {
    /// The grammar, and what was computed of its nodes.
    tables: Rc<Tables>,
}

impl Model for Flat {
    ghost use Rattle.flatgrammar.specs.Flat as spec;
    ghost use Rattle.flatgrammar.specs.ItemClosures.{AreExact};
    ghost use Rattle.flatgrammar.specs.NodeSteps.{flat_of};

    ghost Value = { spec.Flat };

    ghost view = { λ f. flat_of f.tables.value };

    ghost invariant = { λ f. AreExact f.tables.value };
}

impl Flat {
    /// Returns the flat grammar of these nodes, of which the nullable ones are marked, for lines of at most `limit`
    /// symbols. `Memory` if an allocation fails.
    pub fn new(
        alloc: Global,
        nodes: Vec<Node>,
        nulls: Vec<bool>,
        bodies: Vec<usize>,
        start: usize,
        limit: usize,
    ) -> Result<Flat, Memory>
        requires ordered { AreOrdered (nodes_of nodes.items) }
        requires within { (id m : ℕ) → slice_get bodies.items id ≡ Some m → m < length nodes.items }
        requires nulls { AreNulls (record {
          nodes = nodes_of nodes.items;
          bodies = bodies.items;
          start = start;
          limit = limit;
        }) nulls.items }
        ensures nodes { IfOk result (λ flat. flat.nodes ≡ nodes_of nodes.items) }
        ensures bodies { IfOk result (λ flat. flat.bodies ≡ bodies.items) }
        ensures start { IfOk result (λ flat. flat.start ≡ start) }
        ensures limit { IfOk result (λ flat. flat.limit ≡ limit) }
    {
        let targets = find_targets(alloc, &nodes, &bodies)?;
        let mut tables = Tables {
            nodes,
            bodies,
            targets,
            nulls,
            inlines: Vec::new(alloc),
            closures: Vec::new(alloc),
            lists: Vec::new(alloc),
            start,
            limit,
        };
        let inlines = find_inlines(alloc, &tables)?;
        let closures = prediction_closures(alloc, &tables, &inlines)?;
        tables.inlines = inlines;
        tables.closures = closures;
        let lists = dot_lists(alloc, &tables)?;
        tables.lists = lists;
        let tables = Rc::new(alloc, tables)?;
        Ok(Flat { tables })
    }

    /// Returns the number of nodes.
    pub fn nodes(&self) -> usize
        ensures { result ≡ length self.now.nodes }
    {
        self.tables.nodes.len()
    }

    /// Returns the node of that number, which must be less than `nodes()`.
    pub fn node(&self, n: usize) -> &Node
        requires { n < length self.now.nodes }
        ensures { slice_get self.now.nodes n ≡ Some (node_of result.now) }
    {
        &self.tables.nodes[n]
    }

    /// Returns the node where that one starts and ends, if there is one: of a name that of its rule's body.
    pub fn target(&self, n: usize) -> Option<usize>
        ensures { (t : ℕ) → (result ≡ Some t) ↔ Target self.now.nodes self.now.bodies n t }
    {
        match self.tables.targets.get(n) {
            Some(target) => *target,
            None => None,
        }
    }

    /// Returns whether that node is passed without a symbol.
    pub fn is_nullable(&self, n: usize) -> bool
        ensures { IsTrue result ↔ Nullable self.now.nodes self.now.bodies n }
    {
        match self.tables.nulls.get(n) {
            Some(mark) => *mark,
            None => false,
        }
    }

    /// Returns the node of a rule's body, if there is such a rule.
    pub fn body(&self, rule: usize) -> Option<usize>
        ensures { result ≡ slice_get self.now.bodies rule }
    {
        self.tables.bodies.get(rule).copied()
    }

    /// Returns the number of the augmented start.
    pub fn start(&self) -> usize
        ensures { result ≡ self.now.start }
    {
        self.tables.start
    }

    /// Returns how many symbols a line may have.
    pub fn limit(&self) -> usize
        ensures { result ≡ self.now.limit }
    {
        self.tables.limit
    }

    /// Returns the tables, shared. `Memory` if an allocation fails.
    pub fn share(&self) -> Result<Rc<Tables>, Memory>
        ensures exact { IfOk result (λ tables. AreExact tables.value) }
        ensures view { IfOk result (λ tables. flat_of tables.value ≡ self.now) }
    {
        Ok(self.tables.clone()?)
    }
}
