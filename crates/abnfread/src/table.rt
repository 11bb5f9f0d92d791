//! The table of a file's definitions.
ghost use Rattle.std.specs.Prelude.{◌≡◌, ◌<◌, true, false, length, slice_get, None, Some, IfOk};
ghost use Rattle.ruletable.specs.Rules.{bodies_of, find_in};
ghost use Rattle.ruletable.specs.declared.table.NameCase.TheVariants.{Fold};
ghost use Rattle.abnfread.specs.AbnfTable.{alternatives_of as alternatives, with_alternatives, IsTableOf, IsCoreTable};
ghost use Rattle.abnfread.specs.AbnfTable.{first_body, IsFirstBody, IsExtended, IsTaken, IsBegun, TakesDefinition};
ghost use Rattle.abnfread.specs.AbnfViews.{element_of, elements_of, definition_from, definitions_from};
ghost use Rattle.abnfread.specs.CoreRules.{core_list};
ghost use Rattle.abnfread.specs.Element.{body_of};

use crate::appendix::{core_body, core_rules};
use crate::definition::Definition;
use crate::elem::Elem;
use lexer::choice;
use ruletable::{Defined, Memory, NameCase, RuleTable};
use std::alloc::Global;
use std::mem;

/// A grammar as it was read.
#[derive(Drop)]
pub struct Abnf {
    /// The rules of the file in order, each with what later definitions add to it.
    pub rules: RuleTable<Elem>,
    /// The core rules. A rule of the file stands for the core rule of its name.
    pub core: RuleTable<Elem>,
    /// The ids of the rules that are defined again by `=`, once for each time.
    pub redefined: Vec<usize>,
    /// The ids of the rules that begin with `=/`, though no core rule has the name.
    pub extended: Vec<usize>,
    ghost folds: { rules.names ≡ Fold },
}

// The alternatives of a body.
fn alternatives_of(alloc: Global, e: Elem) -> Result<Vec<Elem>, Memory>
    ensures { IfOk result (λ es. elements_of es.items ≡ alternatives (element_of e)) }
{
    match e {
        Elem::Alt(all) => Ok(all),
        only => {
            let mut all = Vec::new(alloc);
            all.push(only)?;
            Ok(all)
        }
    }
}

// The alternatives of one body, and then those of another.
fn join(alloc: Global, old: Elem, new: Elem) -> Result<Elem, Memory>
    ensures { IfOk result (λ e. element_of e ≡ with_alternatives (element_of old) (element_of new)) }
{
    let mut all = alternatives_of(alloc, old)?;
    let more = alternatives_of(alloc, new)?;
    for e in more {
        all.push(e)?;
    }
    Ok(choice(all))
}

// The body of a rule, which is left with one that means nothing.
fn take_body(alloc: Global, rules: &mut RuleTable<Elem>, id: usize) -> Elem
    requires { id < length rules.old.rules }
    ensures body { slice_get (bodies_of rules.old) id ≡ Some result }
    ensures rest { IsTaken rules.old id rules.new }
{
    mem::replace(rules.body_mut(id), Elem::Prose(Vec::new(alloc)))
}

// Adds the alternatives of a body to a rule. After an error the table is of no use.
fn extend(alloc: Global, rules: &mut RuleTable<Elem>, id: usize, body: Elem) -> Result<(), Memory>
    requires { id < length rules.old.rules }
    ensures body { IfOk result (λ _. IsExtended rules.old rules.new id (element_of body)) }
    ensures names { rules.new.names ≡ rules.old.names }
{
    let old = take_body(alloc, rules, id);
    let new = join(alloc, old, body)?;
    *rules.body_mut(id) = new;
    Ok(())
}

// Returns the body with which a definition that adds alternatives begins a rule, after that of the core rule which it
// extends, and whether no core rule has the name.
fn added_body(
    alloc: Global,
    core: &RuleTable<Elem>,
    definition: Definition<'_>,
) -> Result<(Elem, bool), Memory>
    requires core { IsCoreTable core.now }
    requires adds { definition.adds ≡ true }
    ensures { IfOk result (λ r. IsFirstBody (definition_from definition.entry) r.0 r.1) }
{
    match core.find(definition.name)? {
        Some(id) => {
            let body = join(alloc, core_body(alloc, id)?, definition.body)?;
            Ok((body, false))
        }
        None => Ok((definition.body, true)),
    }
}

/// Returns the body of the rule that a definition begins: after `=/` the alternatives of the core rule of that name, if
/// there is one, and then its own.
///
/// # Errors
/// `Memory` if an allocation fails.
pub fn begun_body(alloc: Global, definition: Definition<'_>) -> Result<Elem, Memory>
    ensures { IfOk result (λ e. element_of e ≡ first_body (body_of core_list) (definition_from definition.entry)) }
{
    if !definition.adds {
        return Ok(definition.body);
    }
    let core = core_rules(alloc)?;
    let (body, _) = added_body(alloc, &core, definition)?;
    Ok(body)
}

// Adds the rule of a definition that adds alternatives, and returns whether it extends what no core rule defines.
fn begin_rule(
    alloc: Global,
    core: &RuleTable<Elem>,
    rules: &mut RuleTable<Elem>,
    definition: Definition<'_>,
) -> Result<bool, Memory>
    requires core { IsCoreTable core.now }
    requires adds { definition.adds ≡ true }
    requires is_new { find_in rules.old definition.name.now ≡ None }
    ensures begun { IfOk result (λ early. IsBegun (definition_from definition.entry) rules.old rules.new early) }
    ensures names { rules.new.names ≡ rules.old.names }
{
    let name = definition.name;
    let span = definition.span;
    let (body, early) = added_body(alloc, core, definition)?;
    rules.define(name, body, span)?;
    Ok(early)
}

// Takes one definition by `=/` more. After an error the tables are of no use.
fn take_addition(alloc: Global, abnf: &mut Abnf, definition: Definition<'_>) -> Result<(), Memory>
    requires core { IsCoreTable abnf.old.core }
    requires adds { definition.adds ≡ true }
    ensures taken { IfOk result (λ _. TakesDefinition (definition_from definition.entry) abnf.old.rules
        abnf.old.redefined.items abnf.old.extended.items abnf.new.rules abnf.new.redefined.items
        abnf.new.extended.items) }
    ensures core { abnf.new.core ≡ abnf.old.core }
{
    let next = abnf.rules.len();
    match abnf.rules.find(definition.name)? {
        Some(id) => extend(alloc, &mut abnf.rules, id, definition.body)?,
        None => {
            if begin_rule(alloc, &abnf.core, &mut abnf.rules, definition)? {
                abnf.extended.push(next)?;
            }
        }
    }
    Ok(())
}

// Takes one definition by `=` more. After an error the tables are of no use.
fn take_new(abnf: &mut Abnf, definition: Definition<'_>) -> Result<(), Memory>
    requires { definition.adds ≡ false }
    ensures taken { IfOk result (λ _. TakesDefinition (definition_from definition.entry) abnf.old.rules
        abnf.old.redefined.items abnf.old.extended.items abnf.new.rules abnf.new.redefined.items
        abnf.new.extended.items) }
    ensures core { abnf.new.core ≡ abnf.old.core }
{
    match abnf
        .rules
        .define(definition.name, definition.body, definition.span)?
    {
        Defined::Added(_) => {}
        Defined::Duplicate(id) => abnf.redefined.push(id)?,
    }
    Ok(())
}

// Takes one definition more. After an error the tables are of no use.
fn take_definition(alloc: Global, abnf: &mut Abnf, definition: Definition<'_>) -> Result<(), Memory>
    requires { IsCoreTable abnf.old.core }
    ensures taken { IfOk result (λ _. TakesDefinition (definition_from definition.entry) abnf.old.rules
        abnf.old.redefined.items abnf.old.extended.items abnf.new.rules abnf.new.redefined.items
        abnf.new.extended.items) }
    ensures core { abnf.new.core ≡ abnf.old.core }
{
    if definition.adds {
        take_addition(alloc, abnf, definition)
    } else {
        take_new(abnf, definition)
    }
}

/// Returns the table of these definitions.
pub(crate) fn table_of(alloc: Global, definitions: Vec<Definition<'_>>) -> Result<Abnf, Memory>
    ensures table { IfOk result (λ abnf. IsTableOf (definitions_from definitions.entry.items) abnf.rules
        abnf.redefined.items abnf.extended.items) }
    ensures core { IfOk result (λ abnf. IsCoreTable abnf.core) }
{
    let core = core_rules(alloc)?;
    let mut abnf = Abnf {
        rules: RuleTable::new(alloc, NameCase::Fold),
        core,
        redefined: Vec::new(alloc),
        extended: Vec::new(alloc),
    };
    for definition in definitions {
        take_definition(alloc, &mut abnf, definition)?;
    }
    Ok(abnf)
}
