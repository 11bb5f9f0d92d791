//! The names and terminals of rules that can come next after a prefix of a line.
ghost use Rattle.std.specs.Prelude.{◌≡◌, ◌≤◌, ◌++◌, ℕ, List, length, map, IfOk, OnOk};
ghost use Rattle.abnfread.specs.AbnfViews.{element_of, elements_of, rules_of};
ghost use Rattle.abnfread.specs.Element.{Rule};
ghost use Rattle.abnfcheck.specs.Derivable.{AreLetters};
ghost use Rattle.flatgrammar.specs.CalledParts.{AreAwaited};
ghost use Rattle.flatgrammar.specs.Flat.{Opt};
ghost use Rattle.flatgrammar.specs.FlatViews.{node_of};
ghost use Rattle.lowering.specs.Lowered.{IsLowered};
ghost use Rattle.lowering.specs.MoreMarks.{AreMoreMarks};
ghost use Rattle.lowering.specs.Pruned.{ArePruned};
ghost use Rattle.ruletable.specs.Letters.{has};
ghost use Rattle.ruletable.specs.declared.alphabet.Alphabet.{Alphabet as the_alphabet};
ghost use Rattle.refusedlines.specs.RefusedParts.{AreReportedParts, IsPartReported, parts_from};
ghost use Rattle.refusedlines.specs.ShownParts.{awaited_part};
ghost use Rattle.refusedlines.specs.SoughtParts.{
  AreDotsIn,
  at_node,
  is_sought as the_test,
  names_marked,
  operand_in,
  operand_of,
  sought_from,
  sought_in,
  sought_operands,
  sought_reads,
};

use abnfread::Elem;
use flatgrammar::{DottedRule, Flat, Node};
use lowering::items_decide;
use ruletable::{Memory, RuleTable};
use std::alloc::Global;
use std::collections::HashSet;

/// A name or a terminal of a rule's body that can come next.
#[derive(Clone, Copy)]
pub(crate) struct AwaitedPart<'a> {
    /// The id of the rule.
    pub(crate) rule: usize,
    /// The name or the terminal.
    pub(crate) element: &'a Elem,
    /// How many of its symbols are read.
    pub(crate) read: usize,
}

/// What is sought in the bodies of rules.
#[derive(Drop)]
pub(crate) struct SoughtParts<'a> {
    /// The flat grammar of the rules.
    flat: &'a Flat,
    /// Of each rule whether it derives a list of symbols that is not empty.
    more: &'a [bool],
    /// The node and the step of each dotted rule that is sought.
    dots: &'a HashSet<(usize, usize)>,
}

// Returns the only operand of a node, if that is the number.
fn only(operand: usize, number: usize) -> Option<usize>
    ensures { result ≡ operand_in (Opt operand) number }
{
    if number == 0 { Some(operand) } else { None }
}

// Returns the operand of that number of a node, if there is one.
fn node_operand(node: &Node, number: usize) -> Option<usize>
    ensures { result ≡ operand_in (node_of node.now) number }
{
    match node {
        Node::Concat(members) => members.get(number).copied(),
        Node::Alt(alternatives) => alternatives.get(number).copied(),
        Node::Rep { operand, .. } => only(*operand, number),
        Node::Iterations { operand, .. } => only(*operand, number),
        Node::Opt(operand) => only(*operand, number),
        Node::Letters(_) | Node::Name(_) | Node::Nothing => None,
    }
}

// Returns whether a node is no name, or the name of a marked rule.
fn names_marked(marks: &[bool], node: &Node) -> bool
    ensures { result ≡ names_marked marks.now (node_of node.now) }
{
    match node {
        Node::Name(id) => match marks.get(*id) {
            Some(mark) => *mark,
            None => false,
        },
        _ => true,
    }
}

// Returns the node and the step of each dotted rule.
fn dots_in(alloc: Global, dots: &[DottedRule]) -> Result<HashSet<(usize, usize)>, Memory>
    ensures { IfOk result (AreDotsIn dots.now) }
{
    let mut set = HashSet::new(alloc);
    for dot in dots {
        set.insert((dot.node, dot.step))?;
    }
    Ok(set)
}

impl SoughtParts<'_> {
    // Returns the operand of that number of a node, if there is one.
    fn operand(&self, node: usize, number: usize) -> Option<usize>
        ensures { result ≡ operand_of self.now.flat.now node number }
    {
        if node < self.flat.nodes() {
            node_operand(self.flat.node(node), number)
        } else {
            None
        }
    }

    // Returns whether the part with that node and that step is sought.
    fn has(&self, node: usize, step: usize) -> bool
        ensures { result ≡ the_test self.now node step }
    {
        if !self.dots.contains(&(node, step)) {
            return false;
        }
        if node < self.flat.nodes() {
            names_marked(self.more, self.flat.node(node))
        } else {
            true
        }
    }

    // Adds a name or a terminal of a rule after each number of symbols below `size` with which it is sought.
    fn add_reads<'a>(
        &self,
        rule: usize,
        node: usize,
        element: &'a Elem,
        size: usize,
        parts: &mut Vec<AwaitedPart<'a>>,
    ) -> Result<(), Memory>
        ensures { OnOk result (map awaited_part parts.new.items ≡ map awaited_part parts.old.items
            ++ sought_reads (operand_of self.now.flat.now) (the_test self.now) rule node (element_of element.now)
            size) }
    {
        for read in 0..size {
            if self.has(node, read) {
                parts.push(AwaitedPart {
                    rule,
                    element,
                    read,
                })?;
            }
        }
        Ok(())
    }

    // Adds the sought parts of an element of a rule; none if it has no node.
    #[cycle(adding)]
    fn add_parts<'a>(
        &self,
        rule: usize,
        node: Option<usize>,
        e: &'a Elem,
        parts: &mut Vec<AwaitedPart<'a>>,
    ) -> Result<(), Memory>
        ensures { OnOk result (map awaited_part parts.new.items ≡ map awaited_part parts.old.items
            ++ at_node node (λ m. sought_in (operand_of self.now.flat.now) (the_test self.now) rule m
            (element_of e.now))) }
    {
        let Some(node) = node else {
            return Ok(());
        };
        match e {
            Elem::Text { text, .. } => self.add_reads(rule, node, e, text.len(), parts),
            Elem::Values(values) => self.add_reads(rule, node, e, values.len(), parts),
            Elem::Range { .. } => self.add_reads(rule, node, e, 1, parts),
            Elem::Concat(members) => self.add_operands(rule, node, members, parts),
            Elem::Alt(alternatives) => self.add_operands(rule, node, alternatives, parts),
            Elem::Rep { operand, .. } => {
                self.add_parts(rule, self.operand(node, 0), operand, parts)
            }
            Elem::Opt(operand) => self.add_parts(rule, self.operand(node, 0), operand, parts),
            Elem::Name(_) => self.add_reads(rule, node, e, 1, parts),
            Elem::Prose(_) => Ok(()),
        }
    }

    // Adds the sought parts of all operands of an element of a rule, in order.
    #[cycle(adding)]
    fn add_operands<'a>(
        &self,
        rule: usize,
        node: usize,
        operands: &'a [Elem],
        parts: &mut Vec<AwaitedPart<'a>>,
    ) -> Result<(), Memory>
        ensures { OnOk result (map awaited_part parts.new.items ≡ map awaited_part parts.old.items
            ++ sought_operands (operand_of self.now.flat.now) (the_test self.now) rule node 0
            (elements_of operands.now)) }
    {
        for (i, operand) in operands.iter().enumerate() {
            self.add_parts(rule, self.operand(node, i), operand, parts)?;
        }
        Ok(())
    }

    // Returns the sought parts of all rules, in order.
    fn parts<'a>(
        &self,
        alloc: Global,
        rules: &'a RuleTable<Elem>,
    ) -> Result<Vec<AwaitedPart<'a>>, Memory>
        ensures { IfOk result (λ parts. map awaited_part parts.items ≡ sought_from
            (operand_of self.now.flat.now) (the_test self.now) self.now.flat.now.bodies 0
            (rules_of rules.now)) }
    {
        let mut parts = Vec::new(alloc);
        for id in 0..rules.len() {
            let node = self.flat.body(id);
            self.add_parts(id, node, rules.body(id), &mut parts)?;
        }
        Ok(parts)
    }
}

/// Returns the names and terminals of rules that can come next after a prefix of a line, in the order of the rule table
/// and of the bodies. A name is left out if its rule derives nothing but the empty list.
///
/// The rules are those without what derives nothing, with a mark of each that derives a list of symbols that is not
/// empty. The flat grammar is that of the rules, and the dotted rules are those that it awaits after the prefix.
/// `Memory` if an allocation fails.
pub(crate) fn awaited_parts<'a>(
    alloc: Global,
    rules: &'a RuleTable<Elem>,
    flat: &Flat,
    more: &[bool],
    dots: &[DottedRule],
) -> Result<Vec<AwaitedPart<'a>>, Memory>
    ensures { IfOk result (λ parts. (alphabet : the_alphabet) (grammar : List Rule) (judged : ℕ) (x : List ℕ) (n : ℕ) →
        ArePruned (has alphabet) grammar (rules_of rules.now) → IsLowered (rules_of rules.now) judged flat.now →
        AreMoreMarks (rules_of rules.now) more.now → length more.now ≡ length (rules_of rules.now) →
        length x ≤ flat.now.limit → AreLetters (has alphabet) x →
        AreAwaited flat.now x n dots.now →
        AreReportedParts (IsPartReported alphabet (rules_of rules.now) judged x n) (parts_from 0 (rules_of rules.now))
        (map awaited_part parts.items)) }
{
    items_decide();
    let set = dots_in(alloc, dots)?;
    let sought = SoughtParts {
        flat,
        more,
        dots: &set,
    };
    sought.parts(alloc, rules)
}
