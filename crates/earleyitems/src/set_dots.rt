//! The dotted rules of a set's items.
ghost use Rattle.std.specs.Prelude.{◌≡◌, ◌++◌, map, OnOk};
ghost use Rattle.std.specs.List.{flat_map};
ghost use Rattle.flatgrammar.specs.ItemClosures.{closure_of, dot};
ghost use Rattle.earleyitems.specs.ChartSets.{older_dot, older_dots};
ghost use Rattle.earleyitems.specs.declared.sets.Record.{Record as the_record};

use crate::sets::Record;
use flatgrammar::{DottedRule, Item, Tables, dots};
use ruletable::Memory;

/// Adds the dotted rules of the closures of predictions.
pub(crate) fn push_predictions(
    flat: &Tables,
    records: &[Record],
    out: &mut Vec<DottedRule>,
) -> Result<(), Memory>
    ensures { OnOk result (out.new.items ≡ out.old.items
        ++ flat_map (λ (r : the_record). (closure_of flat.now r.prediction).dots) records.now) }
{
    for record in records {
        out.extend_from_slice(dots(flat, record.prediction))?;
    }
    Ok(())
}

/// Adds the dotted rules of items.
pub(crate) fn push_items(items: &[Item], out: &mut Vec<DottedRule>) -> Result<(), Memory>
    ensures { OnOk result (out.new.items ≡ out.old.items ++ map (λ a. dot a.node a.step) items.now) }
{
    for item in items {
        out.push(DottedRule {
            node: item.node,
            step: item.step,
        })?;
    }
    Ok(())
}

// Adds the dotted rule of an item, if its origin is before `n`.
fn push_older_item(item: Item, n: usize, out: &mut Vec<DottedRule>) -> Result<(), Memory>
    ensures { OnOk result (out.new.items ≡ out.old.items ++ older_dot n item) }
{
    if item.origin < n {
        out.push(DottedRule {
            node: item.node,
            step: item.step,
        })?;
    }
    Ok(())
}

/// Adds the dotted rules of the items with origins before `n`.
pub(crate) fn push_older_items(
    items: &[Item],
    n: usize,
    out: &mut Vec<DottedRule>,
) -> Result<(), Memory>
    ensures { OnOk result (out.new.items ≡ out.old.items ++ older_dots n items.now) }
{
    for item in items {
        push_older_item(*item, n, out)?;
    }
    Ok(())
}
