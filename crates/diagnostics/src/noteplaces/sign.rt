//! Roles of tokens in the definitions of a grammar.
ghost use Rattle.std.specs.Prelude.{◌≡◌};

/// The role of a token in the definitions of a grammar.
#[derive(Clone, Copy)]
pub enum Sign {
    /// A name, of a rule that is defined or used.
    Name,
    /// It stands right after the name of a rule that it defines.
    Defines,
    /// It stands right after the name of a rule to which it adds.
    Adds,
    /// Prose.
    Prose,
    /// It stands right after what it repeats.
    Repeats,
    /// It gives numbers.
    Number,
    /// It is a text in quotes.
    Literal,
    /// It is none of these.
    Other,
}

/// The roles of the kinds of a language's tokens in the definitions of a grammar.
pub trait Signs<K> {
    ghost use Rattle.diagnostics.specs.declared.noteplaces.sign.Sign.{Sign};

    ghost sign_of: { K → Sign };

    /// Returns the role of a token of the kind.
    fn sign(kind: K) -> Sign
        ensures { result ≡ sign_of kind };
}
