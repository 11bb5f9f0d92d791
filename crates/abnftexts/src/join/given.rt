//! Rules as texts give them.
ghost use Rattle.std.specs.Prelude.{◌≡◌};
ghost use Rattle.abnftexts.specs.GivenRules.{text_rule, is_same_rule};

use crate::join::leaves::{is_same_flag, is_same_folded};
use crate::join::same::is_same_element;
use abnfread::Elem;

/// A rule as a text gives it: a definition (`=`), or alternatives that are added to one (`=/`).
#[derive(Drop)]
pub struct GivenRule {
    /// Whether it adds alternatives (`=/`).
    pub adds: bool,
    /// The name, as it is spelled.
    pub name: Vec<u8>,
    /// The elements.
    pub body: Elem,
    /// Whether it is a definition that its text writes as prose alone.
    pub is_prose: bool,
}

impl GivenRule {
    /// Returns whether the other rule has the same name and elements, but for case, and both define or both add. A
    /// definition of prose alone is the same only as another one. If `named` is true, that does not count, and a name
    /// may stand in the other rule for a prose of that name.
    pub fn is_same(&self, named: bool, other: &GivenRule) -> bool
        ensures { result ≡ is_same_rule named (text_rule self.now) (text_rule other.now) }
    {
        (named || is_same_flag(self.is_prose, other.is_prose))
            && is_same_flag(self.adds, other.adds)
            && is_same_folded(&self.name, &other.name)
            && is_same_element(named, &self.body, &other.body)
    }
}
