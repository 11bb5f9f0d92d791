//! Rules by name, in order of definition.
ghost use Rattle.std.specs.Prelude.{◌≡◌, ◌==◌, ℕ, ◌<◌, [], length, slice_get, Some, IsOk, IfOk, OnErr};
ghost use Rattle.std.specs.Borrow.{sem};
ghost use Rattle.ruletable.specs.Lends.{LendsBody};
ghost use Rattle.ruletable.specs.Rules.{find_in, names_of, bodies_of, spans_of, HasUniqueNames, Defines, key_of};

use crate::memory::Memory;
use crate::span::Span;
use std::alloc::Global;
use std::collections::HashMap;
use std::marker::Model;

/// How names compare.
#[derive(Clone, Copy)]
pub enum NameCase {
    /// Two names are one only where their bytes are.
    Exact,
    /// ASCII letters compare without case.
    Fold,
}

/// A rule of a table.
#[derive(Drop)]
struct Row<E> {
    /// The name, as it was spelled first.
    name: Vec<u8>,
    /// The body.
    body: E,
    /// The span of the name in the text.
    span: Span,
}

/// The result of `define`. The id is the rule's index in the table.
#[derive(Clone, Copy, PartialEq, Eq)]
pub enum Defined {
    /// The rule is new, and stands last.
    Added(usize),
    /// A rule of that name was there already, and stays as it was.
    Duplicate(usize),
}

/// Rules in order of definition, each found by its name. Contracts see the list of rules.
///
/// A rule's id is its index in `rows`, and never changes. `ids` repeats the names as keys, in lower case if names
/// compare without case. So a rule is found in constant expected time, and no two rules have one name.
#[derive(Drop)]
pub struct RuleTable<E> {
    /// How names compare.
    names: NameCase,
    /// The rules, by id.
    rows: Vec<Row<E>>,
    /// The id of each name.
    ids: HashMap<Vec<u8>, usize>,
}

impl<E> Model for RuleTable<E> {
    ghost use Rattle.ruletable.specs.Rules.{Rules};

    ghost Value = { Rules E };

    ghost use Rattle.ruletable.specs.RuleRows.{rules_in, HasIdsOf};

    ghost view = { λ t. record { names = t.names; rules = rules_in t.rows.items } };

    ghost invariant = { λ t. HasIdsOf t.names t.rows.items t.ids };
}

impl<E> RuleTable<E> {
    /// Returns a table with no rule. It takes no memory.
    pub fn new(alloc: Global, names: NameCase) -> RuleTable<E>
        ensures names { result.names ≡ names }
        ensures rules { result.rules ≡ [] }
    {
        RuleTable {
            names,
            rows: Vec::new(alloc),
            ids: HashMap::new(alloc),
        }
    }

    /// Returns the number of rules.
    pub fn len(&self) -> usize
        ensures len { result ≡ length self.now.rules }
        ensures unique { HasUniqueNames self.now }
    {
        self.rows.len()
    }

    /// Returns whether there is no rule.
    pub fn is_empty(&self) -> bool
        ensures { result ≡ (length self.now.rules == 0) }
    {
        self.rows.is_empty()
    }

    /// Returns the id of the rule of that name. Folding copies the name: `Memory` if that allocation fails.
    pub fn find(&self, name: &[u8]) -> Result<Option<usize>, Memory>
        ensures found { IfOk result (λ id. id ≡ find_in self.now name.now) }
        ensures exact { self.now.names ≡ NameCase.Exact → IsOk result }
    {
        match self.names {
            NameCase::Exact => Ok(self.ids.get(name).copied()),
            NameCase::Fold => {
                let key = copied_key(*self.rows.allocator(), NameCase::Fold, name)?;
                Ok(self.ids.get(key.as_slice()).copied())
            }
        }
    }

    /// Adds a rule as the last one, unless there is one of that name. `Memory` if an allocation fails; the table
    /// then stays as it was, as it does for a name that is there.
    pub fn define(&mut self, name: &[u8], body: E, span: Span) -> Result<Defined, Memory>
    where
        E: Drop,
        ensures defines { IfOk result (Defines self.old self.new
            (record { name = name.now; body = body; span = span })) }
        ensures unchanged { OnErr result (self.new ≡ self.old) }
    {
        let alloc = *self.rows.allocator();
        let key = copied_key(alloc, self.names, name)?;
        if let Some(id) = self.ids.get(key.as_slice()) {
            return Ok(Defined::Duplicate(*id));
        }
        let id = self.rows.len();
        let name = Vec::from_slice(alloc, name)?;
        self.rows.push(Row { name, body, span })?;
        match self.ids.insert(key, id) {
            Ok(_) => Ok(Defined::Added(id)),
            Err(_) => {
                self.rows.truncate(id);
                Err(Memory)
            }
        }
    }

    /// Returns the name of the rule with that id, as its definition spells it. There must be such a rule.
    pub fn name(&self, id: usize) -> &[u8]
        requires { id < length self.now.rules }
        ensures { slice_get (names_of self.now) id ≡ Some result.now }
    {
        self.rows[id].name.as_slice()
    }

    /// Returns the body of the rule with that id. There must be such a rule.
    pub fn body(&self, id: usize) -> &E
        requires { id < length self.now.rules }
        ensures { slice_get (bodies_of self.now) id ≡ Some result.now }
    {
        &self.rows[id].body
    }

    /// Returns where the name of the definition of the rule with that id stands. There must be such a rule.
    pub fn span(&self, id: usize) -> Span
        requires { id < length self.now.rules }
        ensures { slice_get (spans_of self.now) id ≡ Some result }
    {
        self.rows[id].span
    }

    /// Returns the body of the rule with that id, to write. There must be such a rule. The names, the spans and the
    /// other bodies stay.
    pub fn body_mut(&mut self, id: usize) -> &mut E
        requires { id < length self.old.rules }
        ensures* writes_back { sem 𝓛 (LendsBody E.row self.entry id result) }
        ensures value { slice_get (bodies_of self.old) id ≡ Some result.now }
    {
        &mut self.rows[id].body
    }
}

// What the name has in common with each other name of its rule.
fn copied_key(alloc: Global, names: NameCase, name: &[u8]) -> Result<Vec<u8>, Memory>
    ensures { IfOk result (λ key. key.items ≡ key_of names name.now) }
{
    let mut key = Vec::from_slice(alloc, name)?;
    if names == NameCase::Fold {
        key.make_ascii_lowercase();
    }
    Ok(key)
}
