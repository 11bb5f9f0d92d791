//! The predictions of a set, found at once.
ghost use Rattle.std.specs.Prelude.{◌≡◌, ◌<◌, ◌++◌, ◌∷◌, ℕ, [], length, slice_get, Some, IfOk, IfSome, IfNone};
ghost use Rattle.flatgrammar.specs.Positions.{In};
ghost use Rattle.earleyitems.specs.PredictionTables.{IsTable};
ghost use Rattle.earleyitems.specs.ItemSets.{Adds};

use ruletable::Memory;
use std::alloc::Global;
use std::marker::Model;

/// The predictions of a set, in the order in which they were added. Contracts see that list.
///
/// A prediction is the number of a target. The two vectors are a sparse set: `table[prediction]` counts only if `list`
/// has `prediction` at that index. So emptying it clears the list alone.
#[derive(Drop)]
pub(crate) struct Predictions {
    /// The predictions, each once.
    list: Vec<usize>,
    /// Of each target its index in `list`, if it is a prediction.
    table: Vec<usize>,
}

impl Model for Predictions {
    ghost use Rattle.std.specs.Prelude.{ℕ, List};
    ghost use Rattle.earleyitems.specs.PredictionTables.{IsTable};

    ghost Value = { List ℕ };

    ghost view = { λ h. h.list.items };

    ghost invariant = { λ h. IsTable h.list.items h.table.items };
}

// Returns the index of a prediction in the list.
#[inline(always)]
fn index_of(list: &[usize], table: &[usize], prediction: usize) -> Option<usize>
    requires { IsTable list.now table.now }
    ensures found { IfSome result (λ index. slice_get list.now index ≡ Some prediction) }
    ensures within { IfSome result (λ index. index < length list.now) }
    ensures only { IfSome result (λ index. (i : ℕ) → slice_get list.now i ≡ Some prediction → i ≡ index) }
    ensures none { IfNone result (In prediction list.now → ⊥) }
{
    let index = match table.get(prediction) {
        Some(index) => *index,
        None => return None,
    };
    if index < list.len() && list[index] == prediction {
        Some(index)
    } else {
        None
    }
}

// Makes room for a prediction in the table.
fn make_room(table: &mut Vec<usize>, prediction: usize) -> Result<(), Memory>
    ensures kept { (h i : ℕ) → slice_get table.old.items h ≡ Some i → slice_get table.new.items h ≡ Some i }
    ensures room { IfOk result (λ done. prediction < length table.new.items) }
{
    if prediction < table.len() {
        return Ok(());
    }
    let Some(count) = prediction.checked_add(1) else {
        return Err(Memory);
    };
    table.resize(count, 0)?;
    Ok(())
}

// Adds a prediction that is not there.
fn push(list: &mut Vec<usize>, table: &mut [usize], prediction: usize) -> Result<(), Memory>
    requires table { IsTable list.old.items table.old }
    requires room { prediction < length table.old }
    requires apart { In prediction list.old.items → ⊥ }
    ensures table { IsTable list.new.items table.new }
    ensures pushed { IfOk result (λ done. list.new.items ≡ list.old.items ++ prediction ∷ []) }
{
    let index = list.len();
    list.push(prediction)?;
    table[prediction] = index;
    Ok(())
}

impl Predictions {
    /// Returns no predictions. It takes no memory.
    pub(crate) fn new(alloc: Global) -> Predictions
        ensures { result ≡ [] }
    {
        Predictions {
            list: Vec::new(alloc),
            table: Vec::new(alloc),
        }
    }

    /// Returns the number of predictions.
    pub(crate) fn len(&self) -> usize
        ensures { result ≡ length self.now }
    {
        self.list.len()
    }

    /// Returns the prediction at that index.
    pub(crate) fn at(&self, index: usize) -> usize
        requires { index < length self.now }
        ensures { slice_get self.now index ≡ Some result }
    {
        self.list[index]
    }

    /// Returns the predictions.
    pub(crate) fn list(&self) -> &[usize]
        ensures { result.now ≡ self.now }
    {
        &self.list
    }

    /// Returns the index of a prediction.
    #[inline(always)]
    pub(crate) fn find(&self, prediction: usize) -> Option<usize>
        ensures found { IfSome result (λ index. slice_get self.now index ≡ Some prediction) }
        ensures within { IfSome result (λ index. index < length self.now) }
        ensures only { IfSome result (λ index. (i : ℕ) → slice_get self.now i ≡ Some prediction → i ≡ index) }
        ensures none { IfNone result (In prediction self.now → ⊥) }
    {
        index_of(&self.list, &self.table, prediction)
    }

    /// Adds a prediction unless it is there. `Memory` if an allocation fails.
    #[inline(always)]
    pub(crate) fn add(&mut self, prediction: usize) -> Result<(), Memory>
        ensures { IfOk result (λ done. Adds (λ a. a ≡ prediction) self.old self.new) }
    {
        match self.find(prediction) {
            Some(_) => Ok(()),
            None => {
                make_room(&mut self.table, prediction)?;
                push(&mut self.list, &mut self.table, prediction)?;
                Ok(())
            }
        }
    }

    /// Empties it, and keeps its memory.
    pub(crate) fn clear(&mut self)
        ensures { self.new ≡ [] }
    {
        self.list.clear();
    }
}
