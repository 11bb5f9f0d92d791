//! Definitions, of which a grammar in ABNF is a list.

use crate::elem::Elem;
use ruletable::Span;

/// A definition as it stands in a text (RFC 5234, sections 2.2 and 3.3).
#[derive(Drop)]
pub struct Definition<'a> {
    /// It adds alternatives (`=/`).
    pub adds: bool,
    /// The name, as it is spelled.
    pub name: &'a [u8],
    /// The span of the name.
    pub span: Span,
    /// The elements after `=` or `=/`.
    pub body: Elem,
}
