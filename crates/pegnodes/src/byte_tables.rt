//! Tables by the next byte: of operands of a grammar's repetitions, of its options and predicates, and of its choices.
ghost use Rattle.std.specs.Prelude.{◌≡◌, ◌≤◌, ◌++◌, ℕ, List, IfOk, IfSome, slice_get, true, Some};
ghost use Rattle.pegnodes.specs.ByteTables.{AreByteTables, HasByteTable, HasTable, IsChoiceTableOf, IsRunTableOf};
ghost use Rattle.pegnodes.specs.ByteTables.{IsTabled};
ghost use Rattle.pegnodes.specs.Decides.{marks_in};
ghost use Rattle.pegnodes.specs.Nodes.{Choice, shape_of, shapes_of};
ghost use Rattle.pegnodes.specs.declared.choice_table.ChoiceTable.{ChoiceTable};
ghost use Rattle.pegnodes.specs.declared.run_table.RunTable.{RunTable};

use crate::by_byte::{MarkedNodes, decide};
use crate::choice_table::{ChoiceTable, MOST_ALTERNATIVES};
use crate::keys::mark_or;
use crate::node::Node;
use crate::run_table::RunTable;
use ruletable::Memory;
use std::alloc::Global;

// How many tables of choices a grammar has at most. A table takes up to 2 KB and some microseconds. A grammar of more
// choices runs the others without.
const MOST_TABLES: usize = 256;

// How many tables there are, of repetitions and of options and predicates, after which no repetition gets one. The
// others get none after `MOST_TABLES`.
const MOST_RUNS: usize = 512;

// A node of this number or a greater one that is no repetition has no table, so that a grammar of very many rules
// starts soon.
const MOST_NODES: usize = 4000;

/// The tables of a grammar's choices, and of its repetitions, options and predicates; and of each node the position of
/// its table, if it has one.
#[derive(Drop)]
pub struct ByteTables {
    pub runs: Vec<RunTable>,
    pub choices: Vec<ChoiceTable>,
    pub positions: Vec<Option<u16>>,
}

// Adds the table of a node's outcomes to fewer than `most`, if the table is of use, and returns its position.
fn add_run(
    alloc: Global,
    grammar: &MarkedNodes<'_>,
    n: usize,
    most: usize,
    runs: &mut Vec<RunTable>,
) -> Result<Option<u16>, Memory>
    requires { most ≤ 512 }
    ensures kept { IfOk result (λ _. (more : List RunTable) × (runs.new.items ≡ runs.old.items ++ more)) }
    ensures added { IfOk result (λ added. IfSome added (HasTable (IsRunTableOf (shapes_of grammar.now.nodes.now)
        grammar.now.bodies.now (marks_in grammar.now) n) runs.new.items)) }
{
    let position = runs.len();
    if position >= most {
        return Ok(None);
    }
    let table = RunTable::new(alloc, grammar, n)?;
    if !table.decides_some() {
        return Ok(None);
    }
    runs.push(table)?;
    Ok(Some(position as u16))
}

// Returns whether byte 0 decides anything of the first alternative, which is no key. Few alternatives begin with that
// byte, so where it decides nothing, hardly any byte does.
fn may_skip(grammar: &MarkedNodes<'_>, alternatives: &[usize]) -> bool {
    match alternatives.first() {
        Some(first) => {
            !mark_or(grammar.keys, *first, true) && decide(grammar, *first, 0).is_some()
        }
        None => false,
    }
}

// Adds the table of a choice, if the table is of use, and returns its position.
fn add_choice(
    alloc: Global,
    grammar: &MarkedNodes<'_>,
    alternatives: &[usize],
    choices: &mut Vec<ChoiceTable>,
) -> Result<Option<u16>, Memory>
    ensures kept { IfOk result (λ _. (more : List ChoiceTable) × (choices.new.items ≡ choices.old.items ++ more)) }
    ensures added { IfOk result (λ added. IfSome added (λ position. (n : ℕ) →
        slice_get (shapes_of grammar.now.nodes.now) n ≡ Some (Choice alternatives.now) →
        HasTable (IsChoiceTableOf (shapes_of grammar.now.nodes.now) grammar.now.bodies.now (marks_in grammar.now) n
        alternatives.now) choices.new.items position)) }
{
    let position = choices.len();
    if position >= MOST_TABLES || alternatives.len() > MOST_ALTERNATIVES {
        return Ok(None);
    }
    if !may_skip(grammar, alternatives) {
        return Ok(None);
    }
    let table = ChoiceTable::new(alloc, grammar, alternatives)?;
    if !table.skips_some() {
        return Ok(None);
    }
    choices.push(table)?;
    Ok(Some(position as u16))
}

// Returns whether a node is an option or a predicate.
fn is_test(node: &Node) -> bool
    ensures { result ≡ true → (n : ℕ) → IsTabled n (shape_of node.now) n }
{
    match node {
        Node::Opt(_) | Node::And(_) | Node::Not(_) => true,
        Node::Any
        | Node::Bytes(_)
        | Node::Set(_)
        | Node::Name(_)
        | Node::Seq(_)
        | Node::Choice(_)
        | Node::Star(_)
        | Node::Plus { .. }
        | Node::Act(_)
        | Node::Open
        | Node::Close => false,
    }
}

// Adds the table of a node, if it has one, and returns its position.
fn add_table(
    alloc: Global,
    grammar: &MarkedNodes<'_>,
    n: usize,
    tables: &mut ByteTables,
) -> Result<Option<u16>, Memory>
    ensures runs { IfOk result (λ _. (more : List RunTable) × (tables.new.runs.items ≡ tables.old.runs.items ++ more)) }
    ensures choices { IfOk result (λ _. (more : List ChoiceTable) ×
        (tables.new.choices.items ≡ tables.old.choices.items ++ more)) }
    ensures positions { IfOk result (λ _. tables.new.positions.items ≡ tables.old.positions.items) }
    ensures added { IfOk result (λ added. IfSome added (HasByteTable (shapes_of grammar.now.nodes.now)
        grammar.now.bodies.now (marks_in grammar.now) tables.new.runs.items tables.new.choices.items n)) }
{
    match grammar.nodes.get(n) {
        Some(Node::Star(operand)) => {
            add_run(alloc, grammar, *operand, MOST_RUNS, &mut tables.runs)
        }
        Some(Node::Choice(alternatives)) => {
            if n >= MOST_NODES {
                return Ok(None);
            }
            add_choice(alloc, grammar, alternatives, &mut tables.choices)
        }
        Some(node) => {
            if n >= MOST_NODES || !is_test(node) {
                return Ok(None);
            }
            add_run(alloc, grammar, n, MOST_TABLES, &mut tables.runs)
        }
        None => Ok(None),
    }
}

/// Makes the tables of the operands of a grammar's repetitions, and of its options and predicates, of those of which
/// some byte decides anything; and of the choices of which some byte decides that the first alternative fails.
///
/// # Errors
/// `Memory` if an allocation fails.
pub fn find_tables(alloc: Global, grammar: &MarkedNodes<'_>) -> Result<ByteTables, Memory>
    ensures { IfOk result (λ tables. AreByteTables (shapes_of grammar.now.nodes.now) grammar.now.bodies.now
        (marks_in grammar.now) tables.positions.items tables.runs.items tables.choices.items) }
{
    let positions = Vec::with_capacity(alloc, grammar.nodes.len())?;
    let mut tables = ByteTables {
        runs: Vec::new(alloc),
        choices: Vec::new(alloc),
        positions,
    };
    for n in 0..grammar.nodes.len() {
        let position = add_table(alloc, grammar, n, &mut tables)?;
        tables.positions.push(position)?;
    }
    Ok(tables)
}
