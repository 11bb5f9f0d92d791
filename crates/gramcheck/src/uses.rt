//! The names that the rules' bodies use.
ghost use Rattle.std.specs.Prelude.{◌≡◌, ℕ, List, ◌∷◌, [], ◌++◌, IfOk, option_copied, option_to_list};
ghost use Rattle.pegread.specs.PegViews.{pattern_of, patterns_of, rules_of};
ghost use Rattle.gramcheck.specs.GrammarNotes.{start_of};
ghost use Rattle.gramcheck.specs.Uses.{AreUses, names_in, names_in_all, names_used};

use fixpoint::add_name;
use pegread::Expr;
use ruletable::{Memory, NameCase, RuleTable};
use std::alloc::Global;

/// A grammar's uses of names.
#[derive(Drop)]
pub(crate) struct Uses {
    /// Of each use of a rule's name the id of the rule.
    pub(crate) ids: Vec<usize>,
    /// The names that no rule has, in order of first use.
    pub(crate) missing: RuleTable<()>,
}

// Adds one use of a name.
fn add_use(rules: &RuleTable<Expr>, name: &[u8], uses: &mut Uses) -> Result<(), Memory>
    requires { rules.now.names ≡ NameCase.Exact }
    ensures { IfOk result (λ _. (seen : List (List ℕ)) →
        AreUses (rules_of rules.now) seen uses.old.ids.items uses.old.missing →
        AreUses (rules_of rules.now) (seen ++ name.now ∷ []) uses.new.ids.items uses.new.missing) }
{
    match rules.find(name)? {
        Some(id) => uses.ids.push(id)?,
        None => {
            add_name(name, &mut uses.missing)?;
        }
    }
    Ok(())
}

// Adds the uses in an expression, from left to right.
#[cycle(using_names)]
fn add_uses(rules: &RuleTable<Expr>, e: &Expr, uses: &mut Uses) -> Result<(), Memory>
    requires { rules.now.names ≡ NameCase.Exact }
    ensures { IfOk result (λ _. (seen : List (List ℕ)) →
        AreUses (rules_of rules.now) seen uses.old.ids.items uses.old.missing →
        AreUses (rules_of rules.now) (seen ++ names_in (pattern_of e.now)) uses.new.ids.items uses.new.missing) }
{
    match e {
        Expr::Name(name) => add_use(rules, name, uses),
        Expr::Seq(members) => add_all_uses(rules, members, uses),
        Expr::Choice(alternatives) => add_all_uses(rules, alternatives, uses),
        Expr::Star(operand) => add_uses(rules, operand, uses),
        Expr::Plus(operand) => add_uses(rules, operand, uses),
        Expr::Opt(operand) => add_uses(rules, operand, uses),
        Expr::And(operand) => add_uses(rules, operand, uses),
        Expr::Not(operand) => add_uses(rules, operand, uses),
        Expr::Any => Ok(()),
        Expr::Bytes(_) => Ok(()),
        Expr::Set(_) => Ok(()),
        Expr::Act(_) => Ok(()),
        Expr::Open => Ok(()),
        Expr::Close => Ok(()),
    }
}

// Adds the uses in each of them in turn.
#[cycle(using_names)]
fn add_all_uses(rules: &RuleTable<Expr>, members: &[Expr], uses: &mut Uses) -> Result<(), Memory>
    requires { rules.now.names ≡ NameCase.Exact }
    ensures { IfOk result (λ _. (seen : List (List ℕ)) →
        AreUses (rules_of rules.now) seen uses.old.ids.items uses.old.missing →
        AreUses (rules_of rules.now) (seen ++ names_in_all (patterns_of members.now)) uses.new.ids.items
        uses.new.missing) }
{
    for member in members {
        add_uses(rules, member, uses)?;
    }
    Ok(())
}

// Adds the use of the start rule.
fn add_start(rules: &RuleTable<Expr>, start: Option<&str>, uses: &mut Uses) -> Result<(), Memory>
    requires { rules.now.names ≡ NameCase.Exact }
    ensures { IfOk result (λ _. (seen : List (List ℕ)) →
        AreUses (rules_of rules.now) seen uses.old.ids.items uses.old.missing →
        AreUses (rules_of rules.now) (seen ++ option_to_list
        (start_of (option_copied start.entry) (rules_of rules.now))) uses.new.ids.items uses.new.missing) }
{
    match start {
        Some(name) => add_use(rules, name.as_bytes(), uses),
        None => {
            if rules.is_empty() {
                Ok(())
            } else {
                add_use(rules, rules.name(0), uses)
            }
        }
    }
}

/// Returns all uses in a grammar: that of its start rule, and then those in the rules' bodies.
///
/// `Memory` if an allocation fails.
pub(crate) fn uses_of(
    alloc: Global,
    rules: &RuleTable<Expr>,
    start: Option<&str>,
) -> Result<Uses, Memory>
    requires { rules.now.names ≡ NameCase.Exact }
    ensures { IfOk result (λ uses. AreUses (rules_of rules.now)
        (option_to_list (start_of (option_copied start.entry) (rules_of rules.now)) ++ names_used (rules_of rules.now))
        uses.ids.items uses.missing) }
{
    let mut uses = Uses {
        ids: Vec::new(alloc),
        missing: RuleTable::new(alloc, NameCase::Exact),
    };
    add_start(rules, start, &mut uses)?;
    for id in 0..rules.len() {
        add_uses(rules, rules.body(id), &mut uses)?;
    }
    Ok(uses)
}
