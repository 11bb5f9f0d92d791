//! Cuts the bodies of a grammar's rules into numbered nodes.
ghost use Rattle.std.specs.Prelude.{◌≡◌, ◌<◌, ◌≤◌, ◌+◌, ◌↔◌, ℕ, List, ◌++◌, ◌∷◌, [], length, map, get_or, Bool, Some};
ghost use Rattle.std.specs.Prelude.{IfOk, IsTrue};
ghost use Rattle.abnfcheck.specs.Derivable.{AtMost};
ghost use Rattle.abnfread.specs.Element as e;
ghost use Rattle.abnfread.specs.Element.{Element, Rule, id_of};
ghost use Rattle.abnfread.specs.AbnfViews.{element_of, elements_of, rules_of};
ghost use Rattle.flatgrammar.specs.Flat as flat;
ghost use Rattle.flatgrammar.specs.Flat.{Exactly, Between, capped, top};
ghost use Rattle.lowering.specs.Lowered.{letter_set, capped_most, OperandAt, Spells, Shows};
ghost use Rattle.lowering.specs.NullElements.{Settles};
ghost use Rattle.flatgrammar.specs.Positions.{width};
ghost use Rattle.flatgrammar.specs.FlatViews.{set_of, node_of, nodes_of};
ghost use Rattle.lowering.specs.Numbers.{NamesSettle, Numbers, NumbersAll, AreCut};

use abnfread::Elem;
use flatgrammar::{Node, Set};
use ruletable::{Memory, NameCase, RuleTable};
use std::alloc::Global;

/// The numbered nodes so far. A node is added after its operands.
#[derive(Drop)]
pub(crate) struct Numbered {
    /// The nodes, by number.
    pub(crate) nodes: Vec<Node>,
    /// Of each node whether it derives the empty line.
    pub(crate) nulls: Vec<bool>,
}

impl Numbered {
    /// Returns no nodes. It takes no memory.
    pub(crate) fn new(alloc: Global) -> Numbered
        ensures nodes { result.nodes.items ≡ [] }
        ensures nulls { result.nulls.items ≡ [] }
    {
        Numbered {
            nodes: Vec::new(alloc),
            nulls: Vec::new(alloc),
        }
    }
}

/// Adds a node with its mark, and gives its number.
pub(crate) fn add(numbered: &mut Numbered, node: Node, null: bool) -> Result<usize, Memory>
    ensures number { IfOk result (λ n. n ≡ length numbered.old.nodes.items) }
    ensures nodes { IfOk result (λ _. numbered.new.nodes.items ≡ numbered.old.nodes.items ++ node ∷ []) }
    ensures nulls { IfOk result (λ _. numbered.new.nulls.items ≡ numbered.old.nulls.items ++ null ∷ []) }
{
    let number = numbered.nodes.len();
    numbered.nodes.push(node)?;
    numbered.nulls.push(null)?;
    Ok(number)
}

// The id of the rule of that name, or the number of rules where there is none.
fn rule_id(rules: &RuleTable<Elem>, name: &[u8]) -> Result<usize, Memory>
    requires { rules.now.names ≡ NameCase.Fold }
    ensures { IfOk result (λ id. id ≡ id_of (rules_of rules.now) name.now) }
{
    let found = rules.find(name)?;
    Ok(found.unwrap_or(rules.len()))
}

// The symbols that may stand for one of a text.
fn letter_set(folds: bool, letter: u8) -> Set
    ensures { set_of result ≡ letter_set folds letter }
{
    if folds {
        Set::EitherCase(letter.into())
    } else {
        Set::Exactly(letter.into())
    }
}

// Of each symbol of a text those that may stand for it.
fn text_sets(alloc: Global, folds: bool, text: &[u8]) -> Result<Vec<Set>, Memory>
    ensures { IfOk result (λ sets. map set_of sets.items ≡ map (letter_set folds) text.now) }
{
    let mut sets = Vec::new(alloc);
    for letter in text {
        sets.push(letter_set(folds, *letter))?;
    }
    Ok(sets)
}

// Of each value the set of it alone.
fn value_sets(alloc: Global, values: &[u32]) -> Result<Vec<Set>, Memory>
    ensures { IfOk result (λ sets. map set_of sets.items ≡ map Exactly values.now) }
{
    let mut sets = Vec::new(alloc);
    for value in values {
        sets.push(Set::Exactly(*value))?;
    }
    Ok(sets)
}

// The one set from `low` to `high`.
fn range_set(alloc: Global, low: u32, high: u32) -> Result<Vec<Set>, Memory>
    ensures { IfOk result (λ sets. map set_of sets.items ≡ Between low high ∷ []) }
{
    let mut sets = Vec::new(alloc);
    sets.push(Set::Between { low, high })?;
    Ok(sets)
}

/// The node of an element.
#[derive(Clone, Copy)]
pub(crate) struct Made {
    /// The number of the node.
    pub(crate) number: usize,
    /// Whether the element derives the empty line.
    pub(crate) empty: bool,
}

/// The nodes of a list of elements.
#[derive(Drop)]
struct Members {
    /// The numbers of the nodes, in order.
    numbers: Vec<usize>,
    /// Whether all of the elements derive the empty line.
    all: bool,
    /// Whether one of the elements derives the empty line.
    any: bool,
}

// A number, or one more than the limit where that is less.
fn capped(limit: usize, n: u32) -> u32
    ensures { result ≡ capped limit n }
{
    match u32::try_from(limit) {
        Ok(limit) if limit < n => limit + 1,
        _ => n,
    }
}

// A greatest number, if it is within the limit. No line within it has more iterations that take a symbol.
fn capped_most(limit: usize, most: Option<u32>) -> Option<u32>
    ensures { result ≡ capped_most limit most }
{
    match most {
        Some(most) if most as usize <= limit => Some(most),
        _ => None,
    }
}

// Whether a repetition is to be at least more often than at most.
fn is_reversed(least: u32, most: Option<u32>) -> bool
    ensures yes { result ≡ Bool.true → (b : ℕ) × (most ≡ Some b) × b < least }
    ensures no { result ≡ Bool.false → AtMost least most }
{
    match most {
        Some(most) => most < least,
        None => false,
    }
}

// The node of a repetition, for lines within the limit. If the operand derives the empty list, only iterations that
// take a symbol are counted, from none on: the others take none.
fn repeat(limit: usize, least: u32, most: Option<u32>, made: Made) -> Node
    ensures shows { (rules : List Rule) (nodes : List flat.Node) (el : Element) →
        Settles rules made.empty el → Spells rules limit nodes made.number el → Shows rules limit nodes (node_of result)
        (e.Rep least most el) }
    ensures width { width (node_of result) ≤ capped limit (top least most) + 1 }
    ensures operand { (i m : ℕ) → OperandAt (node_of result) i m → (i ≡ 0) × (m ≡ made.number) }
{
    if is_reversed(least, most) {
        Node::Nothing
    } else if made.empty {
        Node::Iterations {
            most: capped_most(limit, most),
            operand: made.number,
        }
    } else {
        Node::Rep {
            least: capped(limit, least),
            most: capped_most(limit, most),
            operand: made.number,
        }
    }
}

// Whether a repetition derives the empty list.
fn is_empty_repeat(least: u32, most: Option<u32>, empty: bool) -> bool
    ensures { (rules : List Rule) (el : Element) → Settles rules empty el → Settles rules result (e.Rep least most el) }
{
    match most {
        Some(most) => least <= most && (least == 0 || empty),
        None => least == 0 || empty,
    }
}

// Whether there is no byte.
fn no_bytes(bytes: &[u8]) -> bool
    ensures { IsTrue result ↔ (length bytes.now ≡ 0) }
{
    bytes.is_empty()
}

// Whether there is no value.
fn no_values(values: &[u32]) -> bool
    ensures { IsTrue result ↔ (length values.now ≡ 0) }
{
    values.is_empty()
}

// Whether the rule of that id derives the empty list, by its mark.
fn mark(marks: &[bool], id: usize) -> bool
    ensures { result ≡ get_or marks.now id Bool.false }
{
    match marks.get(id) {
        Some(empty) => *empty,
        None => false,
    }
}

/// Adds the nodes of an element, its operands first, and gives the number of its own, and whether the element derives
/// the empty list.
#[cycle(numbering)]
pub(crate) fn number(
    alloc: Global,
    rules: &RuleTable<Elem>,
    marks: &[bool],
    limit: usize,
    e: &Elem,
    numbered: &mut Numbered,
) -> Result<Made, Memory>
    requires folds { rules.now.names ≡ NameCase.Fold }
    requires marks { NamesSettle (rules_of rules.now) marks.now }
    ensures { IfOk result (λ made. Numbers (rules_of rules.now) limit (nodes_of numbered.old.nodes.items)
        (nodes_of numbered.new.nodes.items) numbered.old.nulls.items numbered.new.nulls.items
        made.number made.empty (element_of e.now)) }
{
    let (node, empty) = match e {
        Elem::Text { folds, text } => (
            Node::Letters(text_sets(alloc, *folds, text)?),
            no_bytes(text),
        ),
        Elem::Values(values) => (Node::Letters(value_sets(alloc, values)?), no_values(values)),
        Elem::Range { low, high } => (Node::Letters(range_set(alloc, *low, *high)?), false),
        Elem::Concat(members) => {
            let made = number_all(alloc, rules, marks, limit, members, numbered)?;
            (Node::Concat(made.numbers), made.all)
        }
        Elem::Alt(alternatives) => {
            let made = number_all(alloc, rules, marks, limit, alternatives, numbered)?;
            (Node::Alt(made.numbers), made.any)
        }
        Elem::Rep {
            least,
            most,
            operand,
        } => {
            let made = number(alloc, rules, marks, limit, operand, numbered)?;
            (
                repeat(limit, *least, *most, made),
                is_empty_repeat(*least, *most, made.empty),
            )
        }
        Elem::Opt(operand) => (
            Node::Opt(number(alloc, rules, marks, limit, operand, numbered)?.number),
            true,
        ),
        Elem::Name(name) => {
            let id = rule_id(rules, name)?;
            (Node::Name(id), mark(marks, id))
        }
        Elem::Prose(_) => (Node::Nothing, false),
    };
    let n = add(numbered, node, empty)?;
    Ok(Made { number: n, empty })
}

// Adds the nodes of each of them in turn.
#[cycle(numbering)]
fn number_all(
    alloc: Global,
    rules: &RuleTable<Elem>,
    marks: &[bool],
    limit: usize,
    members: &[Elem],
    numbered: &mut Numbered,
) -> Result<Members, Memory>
    requires folds { rules.now.names ≡ NameCase.Fold }
    requires marks { NamesSettle (rules_of rules.now) marks.now }
    ensures { IfOk result (λ made. NumbersAll (rules_of rules.now) limit (nodes_of numbered.old.nodes.items)
        (nodes_of numbered.new.nodes.items) numbered.old.nulls.items numbered.new.nulls.items
        made.numbers.items made.all made.any (elements_of members.now)) }
{
    let mut numbers = Vec::new(alloc);
    let mut all = true;
    let mut any = false;
    for member in members {
        let made = number(alloc, rules, marks, limit, member, numbered)?;
        numbers.push(made.number)?;
        all &= made.empty;
        any |= made.empty;
    }
    Ok(Members { numbers, all, any })
}

/// Cuts the bodies into nodes, rule by rule, and gives the numbers of their nodes.
pub(crate) fn number_bodies(
    alloc: Global,
    rules: &RuleTable<Elem>,
    marks: &[bool],
    limit: usize,
    numbered: &mut Numbered,
) -> Result<Vec<usize>, Memory>
    requires folds { rules.now.names ≡ NameCase.Fold }
    requires marks { NamesSettle (rules_of rules.now) marks.now }
    requires none { numbered.old.nodes.items ≡ [] }
    requires unmarked { numbered.old.nulls.items ≡ [] }
    ensures { IfOk result (λ bodies. AreCut (rules_of rules.now) limit (length rules.now.rules)
        (nodes_of numbered.new.nodes.items) numbered.new.nulls.items bodies.items) }
{
    let mut bodies = Vec::new(alloc);
    for id in 0..rules.len() {
        let made = number(alloc, rules, marks, limit, rules.body(id), numbered)?;
        bodies.push(made.number)?;
    }
    Ok(bodies)
}
