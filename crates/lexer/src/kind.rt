//! Kinds of tokens.
ghost use Rattle.std.specs.Prelude.{◌≡◌, ℕ, ◌<◌, ◌⊎◌, Bool, true, false, List, [], length};
ghost use Rattle.lexer.specs.SliceEnds.{IsEnd, Longest, NoToken, StandsAlone};

/// The kinds of tokens of a language, with the scanner that finds them.
pub trait Kind: Copy {
    /// Whether it ends a list of tokens.
    ghost is_end: { Self → Bool };

    /// White space, and what follows it.
    ghost white: { List ℕ → List ℕ → Type 0 };

    /// No white space begins the text.
    ghost dark: { List ℕ → Type 0 };

    /// A token of the kind, and what follows it.
    ghost stands: { Self → List ℕ → List ℕ → Type 0 };

    /// The first token of a text that no white space begins, and what follows it.
    ghost first: { Self → List ℕ → List ℕ → Type 0 };

    fn is_last(self) -> bool
        ensures { result ≡ is_end self };

    fn after_white(text: &[u8]) -> &[u8]
        ensures white { white text.now result.now }
        ensures all { dark result.now };

    fn first_token(text: &[u8]) -> (Self, &[u8])
        requires { dark text.now }
        ensures { first result.0 text.now result.1.now };

    /// Says that what follows white space and a token is found in one way. White space before a token is white space by
    /// itself too. The first token is the longest that stands there, or none stands there. A token that ends a list
    /// stands where the text ends.
    fn are_cut()
        ensures white { (t r : List ℕ) → white t r → StandsAlone white t r }
        ensures ends { (k : Self) (t r : List ℕ) → first k t r → IsEnd t r }
        ensures longest { (k : Self) (t r : List ℕ) → first k t r → Longest stands k t r ⊎ NoToken stands t }
        ensures less { (k : Self) (t r : List ℕ) → is_end k ≡ false → first k t r → length r < length t }
        ensures last { (k : Self) (t r : List ℕ) → is_end k ≡ true → first k t r → t ≡ [] }
        ensures one { (j k : Self) (t a b r s : List ℕ) → white t a → first j a r → white t b → first k b s → (j ≡ k)
            × (a ≡ b) × (r ≡ s) };
}
