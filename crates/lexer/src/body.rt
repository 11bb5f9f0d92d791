//! Bodies of definitions as they are read, within their open brackets.
ghost use Rattle.std.specs.Prelude.{◌≡◌, ◌∷◌, ◌++◌, [], length, IfOk};
ghost use Rattle.lexer.specs.ReadBodies.{alternatives_of, brackets_of, items_of, part, Closes, EndsAlternative};
ghost use Rattle.lexer.specs.ReadBodies.{Has, IsNode, IsWhole};

use crate::node::Node;
use std::alloc::{AllocError, Global};
use std::mem;

/// What an open bracket interrupts.
#[derive(Drop)]
pub(crate) struct Level<N, M> {
    /// The alternatives that ended.
    pub(crate) alternatives: Vec<N>,
    /// The items of the last alternative so far.
    pub(crate) items: Vec<N>,
    /// The mark of the bracket.
    pub(crate) mark: M,
}

/// What is read of a body. An open bracket sets aside what it interrupts, with a mark that its end needs. The brackets
/// stand in a vector, so nesting takes no call stack.
#[derive(Drop)]
pub struct Body<N, M> {
    /// Allocates what is read.
    alloc: Global,
    /// What open brackets interrupt, the innermost last.
    outer: Vec<Level<N, M>>,
    /// The alternatives that ended, within the innermost bracket.
    alternatives: Vec<N>,
    /// The items of the last alternative so far.
    items: Vec<N>,
}

/// Returns the sequence of these items. A sequence of one item is that item.
fn sequence<N: Node>(mut items: Vec<N>) -> N
    ensures { IsNode N.is_sequence items.items result }
{
    if items.len() != 1 {
        return N::sequence(items);
    }
    match items.pop() {
        Some(only) => only,
        None => N::sequence(items),
    }
}

/// Returns the choice of these alternatives. A choice of one alternative is that alternative.
pub fn choice<N: Node>(mut alternatives: Vec<N>) -> N
    ensures { IsNode N.is_choice alternatives.items result }
{
    if alternatives.len() != 1 {
        return N::choice(alternatives);
    }
    match alternatives.pop() {
        Some(only) => only,
        None => N::choice(alternatives),
    }
}

impl<N: Node, M: Copy> Body<N, M> {
    /// Returns a body of which nothing is read.
    pub fn new(alloc: Global) -> Body<N, M>
        ensures brackets { brackets_of result ≡ [] }
        ensures alternatives { alternatives_of result ≡ [] }
        ensures items { items_of result ≡ [] }
    {
        Body {
            alloc,
            outer: Vec::new(alloc),
            alternatives: Vec::new(alloc),
            items: Vec::new(alloc),
        }
    }

    /// Returns how many brackets are open.
    pub fn depth(&self) -> usize
        ensures { result ≡ length (brackets_of self.now) }
    {
        self.outer.len()
    }

    /// Adds an item.
    ///
    /// # Errors
    /// `AllocError` if an allocation fails.
    pub fn push(&mut self, item: N) -> Result<(), AllocError>
        ensures brackets { IfOk result (λ _. brackets_of self.new ≡ brackets_of self.old) }
        ensures alternatives { IfOk result (λ _. alternatives_of self.new ≡ alternatives_of self.old) }
        ensures items { IfOk result (λ _. items_of self.new ≡ items_of self.old ++ item ∷ []) }
    {
        self.items.push(item)?;
        Ok(())
    }

    /// Opens a bracket with that mark.
    ///
    /// # Errors
    /// `AllocError` if an allocation fails. What the bracket interrupts is lost then.
    pub fn open(&mut self, mark: M) -> Result<(), AllocError>
        ensures brackets { IfOk result (λ _. brackets_of self.new ≡ part (alternatives_of self.old)
            (items_of self.old) mark ∷ brackets_of self.old) }
        ensures alternatives { IfOk result (λ _. alternatives_of self.new ≡ []) }
        ensures items { IfOk result (λ _. items_of self.new ≡ []) }
    {
        let alternatives = mem::replace(&mut self.alternatives, Vec::new(self.alloc));
        let items = mem::replace(&mut self.items, Vec::new(self.alloc));
        self.outer.push(Level {
            alternatives,
            items,
            mark,
        })?;
        Ok(())
    }

    /// Ends an alternative: the sequence of the items so far.
    ///
    /// # Errors
    /// `AllocError` if an allocation fails. The items are lost then.
    pub fn end_alternative(&mut self) -> Result<(), AllocError>
        ensures { IfOk result (λ _. EndsAlternative N.is_sequence self.old self.new) }
    {
        let items = mem::replace(&mut self.items, Vec::new(self.alloc));
        self.alternatives.push(sequence(items))?;
        Ok(())
    }

    /// Returns the choice of the alternatives within the innermost bracket, and leaves none there.
    ///
    /// # Errors
    /// `AllocError` if an allocation fails. The alternatives are lost then.
    pub fn finish(&mut self) -> Result<N, AllocError>
        ensures whole { IfOk result (λ x. IsWhole N.is_sequence N.is_choice (alternatives_of self.old)
            (items_of self.old) x) }
        ensures rest { IfOk result (λ _. Has self.new (brackets_of self.old) [] []) }
    {
        let items = mem::replace(&mut self.items, Vec::new(self.alloc));
        let last = sequence(items);
        if self.alternatives.is_empty() {
            return Ok(last);
        }
        let mut alternatives = mem::replace(&mut self.alternatives, Vec::new(self.alloc));
        alternatives.push(last)?;
        Ok(choice(alternatives))
    }

    /// Closes the innermost bracket. Returns its mark and the node within it, and `None` if no bracket is open.
    ///
    /// # Errors
    /// `AllocError` if an allocation fails. What was read is of no use then.
    pub fn close(&mut self) -> Result<Option<(M, N)>, AllocError>
        ensures { IfOk result (λ r. Closes N.is_sequence N.is_choice (brackets_of self.old) (alternatives_of self.old)
            (items_of self.old) r self.new) }
    {
        let Some(level) = self.outer.pop() else {
            return Ok(None);
        };
        let node = self.finish()?;
        self.alternatives = level.alternatives;
        self.items = level.items;
        Ok(Some((level.mark, node)))
    }
}
