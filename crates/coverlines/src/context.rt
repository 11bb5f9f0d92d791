//! What stands before and after an element.
ghost use Rattle.std.specs.Prelude.{◌≡◌, ◌+◌, ◌++◌, [], IfOk, length};

use ruletable::Memory;
use std::alloc::Global;

/// The symbols before and after an element.
#[derive(Drop)]
pub(crate) struct LineContext {
    pub(crate) before: Vec<u32>,
    pub(crate) after: Vec<u32>,
}

// Returns one list and then another.
fn both(alloc: Global, front: &[u32], back: &[u32]) -> Result<Vec<u32>, Memory>
    ensures { IfOk result (λ all. all.items ≡ front.now ++ back.now) }
{
    let mut all = Vec::from_slice(alloc, front)?;
    all.extend_from_slice(back)?;
    Ok(all)
}

impl LineContext {
    /// Returns the empty context.
    pub(crate) fn empty(alloc: Global) -> LineContext
        ensures before { result.before.items ≡ [] }
        ensures after { result.after.items ≡ [] }
    {
        LineContext {
            before: Vec::new(alloc),
            after: Vec::new(alloc),
        }
    }

    /// Returns the context of what stands in the other one, which stands in this one.
    pub(crate) fn around(&self, alloc: Global, inner: &LineContext) -> Result<LineContext, Memory>
        ensures before { IfOk result (λ c. c.before.items ≡ self.now.before.items ++ inner.now.before.items) }
        ensures after { IfOk result (λ c. c.after.items ≡ inner.now.after.items ++ self.now.after.items) }
    {
        let before = both(alloc, &self.before, &inner.before)?;
        let after = both(alloc, &inner.after, &self.after)?;
        Ok(LineContext { before, after })
    }

    /// Returns the line with that word in this context.
    pub(crate) fn line(&self, alloc: Global, word: &[u32]) -> Result<Vec<u32>, Memory>
        ensures { IfOk result (λ all. all.items ≡ self.now.before.items ++ (word.now ++ self.now.after.items)) }
    {
        let rest = both(alloc, word, &self.after)?;
        both(alloc, &self.before, &rest)
    }

    /// Returns how many symbols it has.
    pub(crate) fn len(&self) -> usize
        ensures { result ≡ length self.now.before.items + length self.now.after.items }
    {
        self.before.len() + self.after.len()
    }
}
