//! The nodes of the bodies of a grammar's rules.
ghost use Rattle.std.specs.Prelude.{◌≡◌, slice_get, option_to_list};

use std::slice::from_ref;

/// Returns the node of the body of the rule `id`, if there is such a rule.
pub fn body_of(bodies: &[usize], id: usize) -> &[usize]
    ensures { result.now ≡ option_to_list (slice_get bodies.now id) }
{
    match bodies.get(id) {
        Some(body) => from_ref(body),
        None => &[],
    }
}
