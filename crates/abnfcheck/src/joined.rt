//! The rules of a file, and the core rules that it leaves alone.
ghost use Rattle.std.specs.Prelude.{◌≡◌, ◌<◌, length, slice_get, Some, IfOk};
ghost use Rattle.ruletable.specs.Rules.{bodies_of};
ghost use Rattle.abnfcheck.specs.WithCore.{with_core};
ghost use Rattle.abnfread.specs.AbnfTable.{IsTaken};

use abnfread::Elem;
use ruletable::{Memory, RuleTable};
use std::alloc::Global;
use std::mem;

// The body of a rule, which is left with one that means nothing.
fn take_body(alloc: Global, rules: &mut RuleTable<Elem>, id: usize) -> Elem
    requires { id < length rules.old.rules }
    ensures body { slice_get (bodies_of rules.old) id ≡ Some result }
    ensures rest { IsTaken rules.old id rules.new }
{
    mem::replace(rules.body_mut(id), Elem::Prose(Vec::new(alloc)))
}

/// The rules of a file, and then the core rules that it leaves alone (RFC 5234, appendix B.1).
#[derive(Drop)]
pub struct AllRules {
    /// The rules, by id.
    pub rules: RuleTable<Elem>,
    /// How many of them the file has.
    pub count: usize,
}

/// Returns the file's rules, then the core rules that it leaves alone.
///
/// `Memory` if an allocation fails.
pub(crate) fn join(
    alloc: Global,
    file: RuleTable<Elem>,
    core: RuleTable<Elem>,
) -> Result<RuleTable<Elem>, Memory>
    ensures { IfOk result (λ rules. rules ≡ with_core file core.rules) }
{
    let mut rules = file;
    let mut core = core;
    for id in 0..core.len() {
        let body = take_body(alloc, &mut core, id);
        rules.define(core.name(id), body, core.span(id))?;
    }
    Ok(rules)
}
