//! Which rule is perhaps meant by a name that no rule has.
ghost use Rattle.std.specs.Prelude.{◌≡◌, ◌++◌, ℕ, List, map, IfOk, OnOk, option_copied};
ghost use Rattle.diagnostics.specs.BodyMentions.{is_kind, mentioned_at};
ghost use Rattle.diagnostics.specs.UseLines.{is_given};
ghost use Rattle.ruletable.specs.Rules.{names_of};
ghost use Rattle.pegexplain.specs.MeantRules.{all_names as the_names, used_names};
ghost use Rattle.pegexplain.specs.PegNotes.{ArePegPositions, IsMeantReported, is_early_by};

use crate::positions::PegPositions;
use diagnostics::{Mention, MentionKind, is_early, push_meant};
use fixpoint::{add_name, names_of_rules};
use pegread::Expr;
use ruletable::{Memory, NameCase, RuleTable};
use std::alloc::Global;

// Whether a mention is the use of a name.
fn is_use(mention: &Mention) -> bool
    ensures { result ≡ is_kind MentionKind.Use mention.now.kind }
{
    mention.kind == MentionKind::Use
}

/// Returns the names of the rules, and after them those that a text mentions and no rule has.
///
/// `Memory` if an allocation fails.
pub(crate) fn all_names(
    alloc: Global,
    rules: &RuleTable<Expr>,
    mentions: &[Mention],
) -> Result<RuleTable<()>, Memory>
    requires { rules.now.names ≡ NameCase.Exact }
    ensures compares { IfOk result (λ names. names.names ≡ NameCase.Exact) }
    ensures all { IfOk result (λ names. names_of names
        ≡ the_names (names_of rules.now) (used_names (map mentioned_at mentions.now))) }
{
    let mut names = names_of_rules(alloc, rules, NameCase::Exact)?;
    for mention in mentions {
        if is_use(mention) {
            add_name(&mention.text, &mut names)?;
        }
    }
    Ok(names)
}

// Whether a name is the one that is given for the start rule.
fn is_start(start: Option<&str>, name: &[u8]) -> bool
    ensures { result ≡ is_given NameCase.Exact (option_copied start.entry) name.now }
{
    match start {
        Some(given) => name == given.as_bytes(),
        None => false,
    }
}

// Whether the rule is reported that is perhaps meant by a name: the one that is given for the start rule, or one of the
// first ones that no rule has. `Memory` if an allocation fails.
fn is_early_name(positions: &PegPositions, start: Option<&str>, name: &[u8]) -> Result<bool, Memory>
    ensures { IfOk result (λ early. early ≡ is_early_by (option_copied start.entry) positions.now name.now) }
{
    if is_start(start, name) {
        return Ok(true);
    }
    is_early(&positions.names, positions.rules.len(), name)
}

/// Adds the line of the rule that is perhaps meant by a name that no rule has, if there is one and the name is early.
///
/// `Memory` if an allocation fails.
pub(crate) fn push_near(
    alloc: Global,
    out: &mut Vec<u8>,
    positions: &PegPositions,
    start: Option<&str>,
    name: &[u8],
) -> Result<(), Memory>
    ensures { OnOk result ((text : List ℕ) → ArePegPositions text positions.now → (line : List ℕ)
        × IsMeantReported text (option_copied start.entry) name.now line × (out.new.items ≡ out.old.items ++ line)) }
{
    if !is_early_name(positions, start, name)? {
        return Ok(());
    }
    push_meant(alloc, out, &positions.rules, positions.rules.len(), name)?;
    Ok(())
}
