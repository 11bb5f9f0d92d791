//! Names by id, and the ids of the names in the rules' bodies.
ghost use Rattle.std.specs.Prelude.{◌≡◌, ◌≤◌, ℕ, List, [], ◌++◌, length, IfOk, option_copied, option_to_list};
ghost use Rattle.fixpoint.specs.StepRows.{rows_of, row_at};
ghost use Rattle.ruletable.specs.Rules.{names_of};
ghost use Rattle.ruletable.specs.declared.table.NameCase.TheVariants.{Fold};
ghost use Rattle.fixpoint.specs.FirstUses.{news};
ghost use Rattle.fixpoint.specs.NameUses.{IsScanned};
ghost use Rattle.abnfread.specs.AbnfViews.{element_of, elements_of, rules_of};
ghost use Rattle.abnfcheck.specs.AbnfUses.{names_in, names_in_all, names_used};
ghost use Rattle.abnfcheck.specs.NameIds.{AreRowsTo, IsGraph, IsJudged};

use abnfread::Elem;
use fixpoint::{add_name, add_use, names_of_rules};
use ruletable::{Memory, NameCase, RuleTable};
use std::alloc::Global;

/// The names of a grammar by id: those of its rules, then those that no rule has, by first use.
#[derive(Drop)]
pub(crate) struct NameIds {
    /// The names.
    pub(crate) names: RuleTable<()>,
    /// Of each name the ids of the names in the body of its rule, from left to right.
    pub(crate) rows: Vec<Vec<usize>>,
    /// The id of the given name, or 0.
    pub(crate) judged: usize,
}

// Returns the id of the given name, which is added if it is not there, or 0.
fn judged_id(rule: Option<&str>, names: &mut RuleTable<()>) -> Result<usize, Memory>
    requires { names.old.names ≡ NameCase.Fold }
    ensures folds { IfOk result (λ _. names.new.names ≡ Fold) }
    ensures names { IfOk result (λ _. names_of names.new ≡ names_of names.old
        ++ news Fold (names_of names.old) (option_to_list (option_copied rule.entry))) }
    ensures judged { IfOk result (IsJudged (option_copied rule.entry) (names_of names.new)) }
{
    match rule {
        Some(name) => add_name(name.as_bytes(), names),
        None => Ok(0),
    }
}

// Adds the ids of the names in an element, from left to right.
#[cycle(scan)]
fn add_names(e: &Elem, names: &mut RuleTable<()>, row: &mut Vec<usize>) -> Result<(), Memory>
    requires { names.old.names ≡ NameCase.Fold }
    ensures folds { IfOk result (λ _. names.new.names ≡ Fold) }
    ensures scanned { IfOk result (λ _. (known seen uses : List (List ℕ)) → IsScanned Fold known seen uses names.old
        row.old.items →
        IsScanned Fold known (seen ++ names_in (element_of e.now)) (uses ++ names_in (element_of e.now)) names.new
        row.new.items) }
{
    match e {
        Elem::Name(name) => {
            add_use(name, names, row)?;
            Ok(())
        }
        Elem::Concat(members) => add_all_names(members, names, row),
        Elem::Alt(alternatives) => add_all_names(alternatives, names, row),
        Elem::Rep { operand, .. } => add_names(operand, names, row),
        Elem::Opt(operand) => add_names(operand, names, row),
        Elem::Text { .. } => Ok(()),
        Elem::Values(_) => Ok(()),
        Elem::Range { .. } => Ok(()),
        Elem::Prose(_) => Ok(()),
    }
}

// Adds the ids of the names in each of them in turn.
#[cycle(scan)]
fn add_all_names(
    members: &[Elem],
    names: &mut RuleTable<()>,
    row: &mut Vec<usize>,
) -> Result<(), Memory>
    requires { names.old.names ≡ NameCase.Fold }
    ensures folds { IfOk result (λ _. names.new.names ≡ Fold) }
    ensures scanned { IfOk result (λ _. (known seen uses : List (List ℕ)) → IsScanned Fold known seen uses names.old
        row.old.items →
        IsScanned Fold known (seen ++ names_in_all (elements_of members.now))
        (uses ++ names_in_all (elements_of members.now)) names.new row.new.items) }
{
    for member in members {
        add_names(member, names, row)?;
    }
    Ok(())
}

// Returns of each rule the ids of the names in its body. Names that are not there are added.
fn body_rows(
    alloc: Global,
    rules: &RuleTable<Elem>,
    names: &mut RuleTable<()>,
) -> Result<Vec<Vec<usize>>, Memory>
    requires { names.old.names ≡ NameCase.Fold }
    ensures folds { IfOk result (λ _. names.new.names ≡ Fold) }
    ensures names { IfOk result (λ _. (known seen : List (List ℕ)) → names_of names.old ≡ known
        ++ news Fold known seen →
        names_of names.new ≡ known ++ news Fold known (seen ++ names_used (rules_of rules.now))) }
    ensures rows { IfOk result (λ rows. (known seen : List (List ℕ)) → names_of names.old ≡ known
        ++ news Fold known seen →
        AreRowsTo (rules_of rules.now) (names_of names.new) (rows_of rows.items) (length (rules_of rules.now))) }
{
    let mut rows = Vec::new(alloc);
    for id in 0..rules.len() {
        let mut row = Vec::new(alloc);
        add_names(rules.body(id), names, &mut row)?;
        rows.push(row)?;
    }
    Ok(rows)
}

// Adds empty rows until there are that many.
fn pad(alloc: Global, count: usize, rows: &mut Vec<Vec<usize>>) -> Result<(), Memory>
    requires { length rows.old.items ≤ count }
    ensures count { IfOk result (λ _. length rows.new.items ≡ count) }
    ensures rows { IfOk result (λ _. (n : ℕ) → row_at (rows_of rows.new.items) n ≡ row_at (rows_of rows.old.items) n) }
{
    for _n in rows.len()..count {
        rows.push(Vec::new(alloc))?;
    }
    Ok(())
}

/// Returns the names of a grammar, those that no rule has by first use, where a given name is a use before all others,
/// and of each rule the ids of the names in its body.
///
/// `Memory` if an allocation fails.
pub(crate) fn name_ids(
    alloc: Global,
    rules: &RuleTable<Elem>,
    rule: Option<&str>,
) -> Result<NameIds, Memory>
    requires { rules.now.names ≡ NameCase.Fold }
    ensures folds { IfOk result (λ ids. ids.names.names ≡ Fold) }
    ensures graph { IfOk result (λ ids. IsGraph (rules_of rules.now) (option_copied rule.entry) (names_of ids.names)
        (rows_of ids.rows.items) ids.judged) }
{
    let mut names = names_of_rules(alloc, rules, NameCase::Fold)?;
    let judged = judged_id(rule, &mut names)?;
    let mut rows = body_rows(alloc, rules, &mut names)?;
    pad(alloc, names.len(), &mut rows)?;
    Ok(NameIds {
        names,
        rows,
        judged,
    })
}
