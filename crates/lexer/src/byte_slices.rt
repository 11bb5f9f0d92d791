//! Slices of a text by single bytes.
ghost use Rattle.std.specs.Prelude.{◌≡◌, ℕ, List, [], ◌∷◌, ◌++◌, MatchOption};
ghost use Rattle.lexer.specs.SliceEnds.{Lacks};

/// Returns the bytes after the byte `b`, if that begins the text.
pub fn after_byte(text: &[u8], b: u8) -> Option<&[u8]>
    ensures { MatchOption result (Lacks b text.now) (λ rest. text.now ≡ b ∷ rest.now) }
{
    let (first, tail) = text.split_first()?;
    if *first == b { Some(tail) } else { None }
}

/// Returns the bytes between the first and the last byte of a slice.
pub fn inside(slice: &[u8]) -> &[u8]
    ensures { (first last : ℕ) (text : List ℕ) → slice.now ≡ first ∷ (text ++ last ∷ []) → result.now ≡ text }
{
    if slice.len() < 2 {
        return slice;
    }
    &slice[1..slice.len() - 1]
}
