//! Lines of bytes as lines of code points.
ghost use Rattle.std.specs.Prelude.{◌≡◌, ◌⊎◌, ℕ, List, true, false, [], chars, IfOk, OnErr};
ghost use Rattle.ruletable.specs.Utf8Text.{numbers, Spells, IsText, IsLongestText};

use crate::memory::Memory;
use crate::point::CodePoint;
use std::str;

// Adds the code points of a text.
fn push_points(text: &str, points: &mut Vec<CodePoint>) -> Result<(), Memory>
    requires { points.old.items ≡ [] }
    ensures { IfOk result (λ _. numbers points.new.items ≡ chars text.now) }
{
    for c in text.chars() {
        points.push(CodePoint::of(c))?;
    }
    Ok(())
}

/// Returns whether a line is UTF-8 (RFC 3629, section 3: shortest forms, no surrogates). If it is, `points` has its
/// code points from then on, else nothing.
///
/// `Memory` if an allocation fails; `points` is empty then.
pub fn decode(line: &[u8], points: &mut Vec<CodePoint>) -> Result<bool, Memory>
    ensures text { IfOk result (λ is. is ≡ true → Spells (numbers points.new.items) line.now) }
    ensures none { IfOk result (λ is. is ≡ false → (points.new.items ≡ []) × (IsText line.now → ⊥)) }
    ensures empty { OnErr result (points.new.items ≡ []) }
{
    points.clear();
    let Ok(text) = str::from_utf8(line) else {
        return Ok(false);
    };
    match push_points(text, points) {
        Ok(()) => Ok(true),
        Err(Memory) => {
            points.clear();
            Err(Memory)
        }
    }
}

/// Returns the length, in bytes, of the longest prefix of a line that is UTF-8. It takes no memory.
pub fn utf8_len(line: &[u8]) -> usize
    ensures { IsLongestText line.now result }
{
    match str::from_utf8(line) {
        Ok(_) => line.len(),
        Err(fault) => fault.valid_up_to(),
    }
}

/// Returns nothing. Its contract is a law: a line either is UTF-8 or is not, and it has one list of code points at
/// most.
pub fn utf8_is_decided()
    ensures decided { (line : List ℕ) → IsText line ⊎ (IsText line → ⊥) }
    ensures one { (line points others : List ℕ) → Spells points line → Spells others line → points ≡ others }
{}
