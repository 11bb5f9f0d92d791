//! The names of a grammar by id: those of its rules, then those that no rule has, in order of first use.
ghost use Rattle.std.specs.Prelude.{◌≡◌, ℕ, List, [], ◌∷◌, ◌++◌, IfOk};
ghost use Rattle.ruletable.specs.Rules.{names_of};
ghost use Rattle.ruletable.specs.declared.table.NameCase.{NameCase};
ghost use Rattle.fixpoint.specs.NameUses.{IsAdded, IsScanned};

use ruletable::{Defined, Memory, NameCase, RuleTable, Span};
use std::alloc::Global;

// A name's position in the text is of no use here.
const NOWHERE: Span = Span { start: 0, end: 0 };

/// Returns the names of a table's rules, as a table of names that compare alike.
///
/// # Errors
/// `Memory` if an allocation fails.
pub fn names_of_rules<T>(
    alloc: Global,
    rules: &RuleTable<T>,
    case: NameCase,
) -> Result<RuleTable<()>, Memory>
    requires { rules.now.names ≡ case }
    ensures case { IfOk result (λ names. names.names ≡ case) }
    ensures names { IfOk result (λ names. names_of names ≡ names_of rules.now) }
{
    let mut names = RuleTable::new(alloc, case);
    for id in 0..rules.len() {
        names.define(rules.name(id), (), NOWHERE)?;
    }
    Ok(names)
}

/// Returns the id of a name, which becomes the last one if the table does not have it.
///
/// # Errors
/// `Memory` if an allocation fails.
pub fn add_name(name: &[u8], names: &mut RuleTable<()>) -> Result<usize, Memory>
    ensures { IfOk result (IsAdded names.old names.new name.now) }
{
    if let Some(id) = names.find(name)? {
        return Ok(id);
    }
    match names.define(name, (), NOWHERE)? {
        Defined::Added(id) => Ok(id),
        Defined::Duplicate(id) => Ok(id),
    }
}

/// Adds one use of a name: the name, if the table does not have it, and its id at the end of the row.
///
/// # Errors
/// `Memory` if an allocation fails.
pub fn add_use(name: &[u8], names: &mut RuleTable<()>, row: &mut Vec<usize>) -> Result<(), Memory>
    ensures case { IfOk result (λ _. names.new.names ≡ names.old.names) }
    ensures scanned { IfOk result (λ _. (case : NameCase) (known seen uses : List (List ℕ))
        → IsScanned case known seen uses names.old row.old.items →
        IsScanned case known (seen ++ name.now ∷ []) (uses ++ name.now ∷ []) names.new row.new.items) }
{
    let id = add_name(name, names)?;
    row.push(id)?;
    Ok(())
}
