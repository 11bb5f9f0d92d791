//! Facts that the first bytes of a text show.
ghost use Rattle.std.specs.Prelude.{◌≡◌, ◌++◌, map, OnOk};
ghost use Rattle.std.specs.Option.{option_map};
ghost use Rattle.diagnostics.specs.FirstBytes.{first_fact, first_reported, fact_line};
ghost use Rattle.diagnostics.specs.FactRows.{row_of};

use ruletable::Memory;

/// A report on the texts with a prefix.
#[derive(Clone, Copy)]
pub struct Fact {
    /// The prefix.
    pub begins: &'static [u8],
    /// The report.
    pub reported: &'static [u8],
}

/// Makes an array of facts: after the first bytes of each stands what is reported.
#[macro_export]
macro_rules! facts {
    ($($begins:literal => $reported:literal,)*) => {
        [$($crate::Fact { begins: $begins, reported: $reported }),*]
    };
}

/// Adds a line after two spaces.
///
/// # Errors
/// `Memory` if an allocation fails.
pub fn push_line(out: &mut Vec<u8>, line: &[u8]) -> Result<(), Memory>
    ensures { OnOk result (out.new.items ≡ out.old.items ++ fact_line line.now) }
{
    out.extend_from_slice(b"  ")?;
    out.extend_from_slice(line)?;
    out.extend_from_slice(b"\n")?;
    Ok(())
}

/// Returns the report of the first fact whose bytes begin the text.
pub fn find_fact(facts: &[Fact], text: &[u8]) -> Option<&'static [u8]>
    ensures { option_map (λ w. w.now) result ≡ first_fact (map row_of facts.now) text.now }
{
    for fact in facts {
        if text.starts_with(fact.begins) {
            return Some(fact.reported);
        }
    }
    None
}

/// Adds a line of the first row with which the text begins, if there is one.
///
/// # Errors
/// `Memory` if an allocation fails.
pub fn push_fact(out: &mut Vec<u8>, facts: &[Fact], text: &[u8]) -> Result<(), Memory>
    ensures { OnOk result (out.new.items ≡ out.old.items ++ first_reported (map row_of facts.now) text.now) }
{
    match find_fact(facts, text) {
        Some(reported) => push_line(out, reported),
        None => Ok(()),
    }
}
