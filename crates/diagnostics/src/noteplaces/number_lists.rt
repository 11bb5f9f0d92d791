//! Lists of numbers by name.
ghost use Rattle.std.specs.Prelude.{◌≡◌, ◌++◌, ◌∷◌, [], ℕ, List, map, IfOk, OnOk, if◌then◌else◌};
ghost use Rattle.ruletable.specs.Rules.{same_name};
ghost use Rattle.diagnostics.specs.NumberLists.{items_at as those_at, numbers_for};

use ruletable::{Memory, RuleTable, Span};
use std::alloc::Global;

// A name's position in the text is of no use here.
const NOWHERE: Span = Span { start: 0, end: 0 };

/// Adds a number to the list of a name.
///
/// `Memory` if an allocation fails.
pub fn add_number(
    alloc: Global,
    lists: &mut RuleTable<Vec<usize>>,
    name: &[u8],
    number: usize,
) -> Result<(), Memory>
    ensures names { OnOk result (lists.new.names ≡ lists.old.names) }
    ensures added { OnOk result ((other : List ℕ) → numbers_for lists.new other ≡ numbers_for lists.old other
        ++ (if same_name lists.old.names other name.now then number ∷ [] else [])) }
{
    if let Some(id) = lists.find(name)? {
        lists.body_mut(id).push(number)?;
        return Ok(());
    }
    let mut list = Vec::new(alloc);
    list.push(number)?;
    lists.define(name, list, NOWHERE)?;
    Ok(())
}

/// Returns the numbers that are listed for a name.
///
/// `Memory` if an allocation fails.
pub fn numbers_of<'a>(lists: &'a RuleTable<Vec<usize>>, name: &[u8]) -> Result<&'a [usize], Memory>
    ensures { IfOk result (λ numbers. numbers.now ≡ numbers_for lists.now name.now) }
{
    match lists.find(name)? {
        Some(id) => Ok(lists.body(id).as_slice()),
        None => Ok(&[]),
    }
}

/// Returns the items at these indices, in order.
///
/// `Memory` if an allocation fails.
pub(crate) fn items_at<'a, T>(
    alloc: Global,
    items: &'a [T],
    indexes: &[usize],
) -> Result<Vec<&'a T>, Memory>
    ensures { IfOk result (λ found. map (λ x. x.now) found.items ≡ those_at items.now indexes.now) }
{
    let mut found = Vec::new(alloc);
    for position in indexes {
        if let Some(item) = items.get(*position) {
            found.push(item)?;
        }
    }
    Ok(found)
}
