//! Literals against a text.
ghost use Rattle.std.specs.Prelude.{◌≡◌, ◌+◌, ◌^◌, ◌<◌, ◌≤◌, max, length, IsTrue};
ghost use Rattle.gramcheck.specs.Outcome.{begins_with, compared, looked_at};

/// How a literal compares with the front of a text.
#[derive(Clone, Copy)]
pub(crate) struct LiteralComparison {
    /// Whether the text begins with the literal.
    pub(crate) begins: bool,
    /// How many bytes were compared.
    pub(crate) compared: usize,
}

/// Compares up to the first mismatch, and that byte too; the text's end is no byte.
#[tactic(auto, using(crate::proofs::CompareLemmas::equal_byte, crate::proofs::CompareLemmas::other_byte, crate::proofs::CompareLemmas::text_ends, crate::proofs::CompareLemmas::literal_ends))]
pub(crate) fn compare(text: &[u8], literal: &[u8]) -> LiteralComparison
    ensures begins { result.begins ≡ begins_with text.now literal.now }
    ensures compared { result.compared ≡ compared text.now literal.now }
    ensures within { result.compared ≤ length text.now }
    ensures fits { IsTrue result.begins → length literal.now ≤ length text.now }
{
    for (i, b) in literal.iter().enumerate() {
        if i >= text.len() {
            return LiteralComparison {
                begins: false,
                compared: i,
            };
        }
        if text[i] != *b {
            return LiteralComparison {
                begins: false,
                compared: i + 1,
            };
        }
    }
    LiteralComparison {
        begins: true,
        compared: literal.len(),
    }
}

/// Returns one more than the last position compared from `position` on, or 0.
pub(crate) fn looked_after(position: usize, compared: usize) -> usize
    requires { position + compared < 2 ^ 64 }
    ensures { result ≡ looked_at position compared }
{
    if compared == 0 {
        0
    } else {
        position + compared
    }
}
