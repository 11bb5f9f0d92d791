//! Names that are used and not defined.
ghost use Rattle.std.specs.Prelude.{◌≡◌, ◌++◌, map, IfOk, OnOk};
ghost use Rattle.ruletable.specs.declared.table.NameCase.TheVariants.{Fold};
ghost use Rattle.abnfread.specs.AbnfTable.{IsCoreTable};
ghost use Rattle.abnftexts.specs.GivenRules.{text_rule};
ghost use Rattle.abnftexts.specs.CodeUses.{ListsMore, is_defined as knows, is_unknown, name_used, unknown_reported};
ghost use Rattle.abnftexts.specs.UsedNames.{undefined_line, undefined_reported};

use crate::join::{GivenRule, Listed, numbers_by_name};
use crate::reported::push_position;
use crate::uses::NameUse;
use abnfread::{Elem, core_rules};
use diagnostics::{add_number, numbers_of};
use ruletable::{Memory, RuleTable};
use std::alloc::Global;

/// Returns whether the name is listed, or that of a core rule.
///
/// # Errors
/// `Memory` if an allocation fails.
pub(crate) fn is_known(
    core: &RuleTable<Elem>,
    names: &RuleTable<Vec<usize>>,
    name: &[u8],
) -> Result<bool, Memory>
    requires { IsCoreTable core.now }
    ensures { IfOk result (λ is. is ≡ knows names.now name.now) }
{
    let numbers = numbers_of(names, name)?;
    let found = core.find(name)?;
    Ok(!numbers.is_empty() || found.is_some())
}

// Lists the name of a use, and returns whether the use reports that it is not defined: neither rules nor uses before
// it have listed the name.
fn is_reported(
    alloc: Global,
    core: &RuleTable<Elem>,
    names: &mut RuleTable<Vec<usize>>,
    name: &[u8],
) -> Result<bool, Memory>
    requires core { IsCoreTable core.now }
    requires names { names.old.names ≡ Fold }
    ensures reported { IfOk result (λ is. is ≡ is_unknown names.old name.now) }
    ensures listed { OnOk result (ListsMore name.now names.old names.new) }
{
    let known = is_known(core, names, name)?;
    add_number(alloc, names, name, 0)?;
    Ok(!known)
}

// Adds the line of a use whose name is not defined.
fn push_line(out: &mut Vec<u8>, it: &NameUse<'_>) -> Result<(), Memory>
    ensures { OnOk result (out.new.items ≡ out.old.items ++ undefined_line (name_used it.now)) }
{
    push_position(out, it.text, it.line)?;
    out.extend_from_slice(b": '")?;
    out.extend_from_slice(&it.name)?;
    out.extend_from_slice(b"' is not defined\n")?;
    Ok(())
}

// Adds the report of a use, and lists its name. Names of rules and of uses before it are listed.
fn push_use_reported(
    alloc: Global,
    out: &mut Vec<u8>,
    core: &RuleTable<Elem>,
    names: &mut RuleTable<Vec<usize>>,
    it: &NameUse<'_>,
) -> Result<(), Memory>
    requires core { IsCoreTable core.now }
    requires names { names.old.names ≡ Fold }
    ensures reported { OnOk result (out.new.items ≡ out.old.items ++ unknown_reported names.old (name_used it.now)) }
    ensures listed { OnOk result (ListsMore it.now.name.items names.old names.new) }
{
    if is_reported(alloc, core, names, &it.name)? {
        push_line(out, it)?;
    }
    Ok(())
}

/// Adds the reports of names that these uses have and no rule.
pub(crate) fn push_undefined(
    alloc: Global,
    out: &mut Vec<u8>,
    rules: &[GivenRule],
    uses: &[NameUse<'_>],
) -> Result<(), Memory>
    ensures { OnOk result (out.new.items
        ≡ out.old.items ++ undefined_reported (map text_rule rules.now) (map name_used uses.now)) }
{
    let core = core_rules(alloc)?;
    let mut names = numbers_by_name(alloc, Listed::Rules, rules)?;
    for number in 0..uses.len() {
        push_use_reported(alloc, out, &core, &mut names, &uses[number])?;
    }
    Ok(())
}
