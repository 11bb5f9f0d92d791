//! Callers of `ruletable`.
ghost use Rattle.std.specs.Prelude.{◌≡◌, ◌↔◌, ◌||◌, ◌&&◌, ℕ, false, None, get_or, nat_le, IfOk, OnErr, IsTrue};
ghost use Rattle.ruletable.specs.Rules.{find_in};

use ruletable::{ByteSet, Defined, Memory, RuleTable, Span};

/// Adds a rule unless there is one of that name, and returns whether it was added.
pub fn add_rule<E: Drop>(
    table: &mut RuleTable<E>,
    name: &[u8],
    body: E,
    span: Span,
) -> Result<bool, Memory>
    ensures added { IfOk result (λ added. IsTrue added ↔ find_in table.old name.now ≡ None) }
    ensures kept { IfOk result (λ added. added ≡ false → table.new ≡ table.old) }
    ensures unchanged { OnErr result (table.new ≡ table.old) }
{
    match table.define(name, body, span)? {
        Defined::Added(_) => Ok(true),
        Defined::Duplicate(_) => Ok(false),
    }
}

/// Returns the set of the digits and the lower-case letters of US-ASCII.
pub fn word_bytes() -> ByteSet
    ensures { (b : ℕ) → get_or result b false ≡ ((nat_le 48 b && nat_le b 57) || (nat_le 97 b && nat_le b 122)) }
{
    let mut set = ByteSet::new();
    set.add_range(b'0', b'9');
    set.add_range(b'a', b'z');
    set
}
