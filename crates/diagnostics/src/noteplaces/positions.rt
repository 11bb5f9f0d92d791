//! Positions of a grammar's definitions and mentions.
ghost use Rattle.diagnostics.specs.NameIndexes.{ListBodies, ListHeads, ListUses, Rises, Rises-prop, starts_of};

use crate::noteplaces::heads::Head;
use crate::noteplaces::mentions::Mention;
use crate::noteplaces::name_index::NameIndex;
use ruletable::NameCase;

/// Where a grammar's text defines its rules, and what their bodies mention.
#[derive(Drop)]
pub struct Positions {
    /// How names compare.
    pub names: NameCase,
    /// The definitions, in order.
    pub heads: Vec<Head>,
    /// The mentions in their bodies, in order.
    pub mentions: Vec<Mention>,
    /// Finds the definitions and the mentions by name.
    pub(crate) index: NameIndex,
    ghost rise: { Rises 0 (starts_of heads.items) } by { Rises-prop 0 (starts_of heads.items) },
    ghost heads_listed: { ListHeads names heads.items index.heads },
    ghost uses_listed: { ListUses names mentions.items index.uses },
    ghost bodies_listed: { ListBodies names heads.items mentions.items index.bodies },
}
