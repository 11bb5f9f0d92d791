//! The order of expressions in explanations, each once.
ghost use Rattle.std.specs.Prelude.{◌≡◌, ℕ, ◌+◌, ◌^◌, ◌<◌, List, Some, None, length, map, get_or, slice_get, IfOk};
ghost use Rattle.std.specs.Prelude.{[]};
ghost use Rattle.gramcheck.specs.Grammar.{IsNumbered};
ghost use Rattle.matchfailure.specs.VisitLists.{ListsVisit};
ghost use Rattle.matchfailure.specs.FittingFailures.{AreFitting};
ghost use Rattle.matchfailure.specs.ReportOrder.{AreReported, each_once as once_each, entry_text as text_of_entry};
ghost use Rattle.matchfailure.specs.ReportOrder.{key_of, leaf_kind, uses_or, visit_of};
ghost use Rattle.pegnodes.specs.Nodes.{shape_of, shapes_of};
ghost use Rattle.pegread.specs.PegViews.{rules_of};

use crate::explain::lines::push_begun;
use crate::explain::node_texts::{leaf_at, rule_name, rule_of};
use crate::explain::uses::distances;
use crate::farthest::{Farthest, Visit};
use gramcheck::SoundPeg;
use pegnodes::Node;
use ruletable::{Defined, Memory, NameCase, RuleTable, Span};
use std::alloc::Global;

/// The rank of an expression: the distance of its rule from the start rule, the rule, its kind, its node, and where it
/// begins.
type Key = [usize; 5];

// Texts that are compared stand in no text of a grammar.
const NOWHERE: Span = Span { start: 0, end: 0 };

// Returns which of literal, class and `.` a node is, by a number.
fn kind_of(node: &Node) -> usize
    ensures { result ≡ leaf_kind (Some (shape_of node.now)) }
{
    match node {
        Node::Bytes(_) => 0,
        Node::Set(_) => 1,
        _ => 2,
    }
}

// Returns the distance of a rule; one that no use leads to comes last.
fn uses_to(far: &[Option<usize>], rule: usize) -> usize
    ensures { result ≡ uses_or (length far.now) (get_or far.now rule None) }
{
    if rule < far.len() {
        if let Some(uses) = far[rule] {
            return uses;
        }
    }
    far.len()
}

// Returns the keys of evaluations.
fn keys_of(
    alloc: Global,
    peg: &SoundPeg,
    far: &[Option<usize>],
    expected: &[Visit],
) -> Result<Vec<Key>, Memory>
    requires numbered { IsNumbered peg.now }
    requires nodes { (v : Visit) → ListsVisit expected.now v → v.node < length peg.now.nodes }
    ensures { IfOk result (λ keys. keys.items
        ≡ map (key_of far.now (shapes_of peg.now.nodes) peg.now.bodies) expected.now) }
{
    let mut keys = Vec::new(alloc);
    for visit in expected {
        let rule = rule_of(peg, visit.node);
        let kind = kind_of(peg.node(visit.node));
        keys.push([uses_to(far, rule), rule, kind, visit.node, visit.position])?;
    }
    Ok(keys)
}

// Returns the report of an evaluation: the expression, where it begins, and its rule.
fn entry_text(
    alloc: Global,
    peg: &SoundPeg,
    unit: usize,
    position: usize,
    visit: Visit,
) -> Result<Vec<u8>, Memory>
    requires numbered { IsNumbered peg.now }
    requires node { visit.node < length peg.now.nodes }
    requires begin { unit + visit.position < 2 ^ 63 }
    ensures { IfOk result (λ text. text.items ≡ text_of_entry (rules_of peg.now.rules) peg.now.start
        (shapes_of peg.now.nodes) peg.now.bodies unit position visit) }
{
    let mut text = leaf_at(alloc, peg, visit.node)?;
    push_begun(&mut text, unit, position, visit.position)?;
    text.extend_from_slice(b" in ")?;
    text.extend_from_slice(rule_name(peg, visit.node))?;
    Ok(text)
}

// Returns the evaluations of the keys, of those that are reported alike the first.
fn each_once(
    alloc: Global,
    peg: &SoundPeg,
    unit: usize,
    position: usize,
    keys: &[Key],
) -> Result<Vec<Visit>, Memory>
    requires numbered { IsNumbered peg.now }
    requires fitting { AreFitting (length peg.now.nodes) unit (map visit_of keys.now) }
    ensures reported { IfOk result (λ reported. reported.items ≡ once_each
        (text_of_entry (rules_of peg.now.rules) peg.now.start
        (shapes_of peg.now.nodes) peg.now.bodies unit position) [] (map visit_of keys.now)) }
    ensures fitting { IfOk result (λ reported. AreFitting (length peg.now.nodes) unit reported.items) }
{
    let mut texts = RuleTable::new(alloc, NameCase::Exact);
    let mut reported = Vec::new(alloc);
    for key in keys {
        let visit = Visit {
            node: key[3],
            position: key[4],
        };
        let text = entry_text(alloc, peg, unit, position, visit)?;
        match texts.define(&text, (), NOWHERE)? {
            Defined::Added(_) => reported.push(visit)?,
            Defined::Duplicate(_) => {}
        }
    }
    Ok(reported)
}

/// Returns the expressions that are reported of a unit's farthest failure, in order. The unit begins after `unit`
/// bytes.
///
/// # Errors
/// `Memory` if an allocation fails.
pub(crate) fn in_report_order(
    alloc: Global,
    peg: &SoundPeg,
    unit: usize,
    farthest: &Farthest,
) -> Result<Vec<Visit>, Memory>
    requires { AreFitting (length peg.now.nodes) unit farthest.now.expected.items }
    ensures reported { IfOk result (λ reported. AreReported (rules_of peg.now.rules) peg.now.start
        (shapes_of peg.now.nodes)
        peg.now.bodies unit farthest.now.position farthest.now.expected.items reported.items) }
    ensures fitting { IfOk result (λ reported. AreFitting (length peg.now.nodes) unit reported.items) }
    ensures numbered { IsNumbered peg.now }
{
    let far = distances(alloc, peg)?;
    let mut keys = keys_of(alloc, peg, &far, &farthest.expected)?;
    keys.sort_unstable();
    each_once(alloc, peg, unit, farthest.position, &keys)
}
