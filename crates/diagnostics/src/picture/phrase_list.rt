//! Lists of phrases.
ghost use Rattle.std.specs.Prelude.{◌≡◌, ◌++◌, map, OnOk};
ghost use Rattle.diagnostics.specs.PhraseLists.{mark_before, listed};

use ruletable::Memory;

// The text before so many phrases, after another one.
fn mark(left: usize) -> &'static [u8]
    ensures { result.now ≡ mark_before left }
{
    match left {
        0 => b"",
        1 => b" or ",
        _ => b", ",
    }
}

/// Adds the phrases, with `or` before the last and commas between the others.
///
/// # Errors
/// `Memory` if an allocation fails.
pub fn push_phrases(out: &mut Vec<u8>, phrases: &[&[u8]]) -> Result<(), Memory>
    ensures { OnOk result (out.new.items ≡ out.old.items ++ listed (map (λ p. p.now) phrases.now)) }
{
    let mut left = phrases.len();
    for phrase in phrases {
        left -= 1;
        out.extend_from_slice(phrase)?;
        out.extend_from_slice(mark(left))?;
    }
    Ok(())
}
