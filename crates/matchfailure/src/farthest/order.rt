//! Evaluations in the grammar's order.
ghost use Rattle.std.specs.Prelude.{◌↔◌};
ghost use Rattle.matchfailure.specs.VisitLists.{ListsVisit, Ascends};

use crate::farthest::visit::Visit;

/// Sorts evaluations by the node, and then by the position, and leaves each once.
pub(crate) fn put_in_order(visits: &mut Vec<Visit>)
    ensures ordered { Ascends visits.new.items }
    ensures same { (v : Visit) → ListsVisit visits.new.items v ↔ ListsVisit visits.old.items v }
{
    visits.sort_unstable();
    visits.dedup();
}
