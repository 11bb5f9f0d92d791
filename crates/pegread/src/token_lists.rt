//! The tokens of a whole text.
ghost use Rattle.std.specs.Prelude.{ℕ, List};
ghost use Rattle.ruletable.specs.declared.span.Span.{Span};
ghost use Rattle.pegread.specs.declared.kind.Kind.TheVariants.{Ident, Literal, Class, Action};
ghost use Rattle.pegread.specs.Actions.{IsAction, IsBraced};
ghost use Rattle.pegread.specs.Classes.{IsClass};
ghost use Rattle.pegread.specs.Literals.{IsLiteral};
ghost use Rattle.pegread.specs.Names.{IsName};
ghost use Rattle.lexer.specs.TokenLists.{tok};
ghost use Rattle.pegread.specs.Tokens.{Next};

/// Says that the slice of a name, a literal, a class or an action is one by itself, whatever follows it. That of an
/// action is some text between two braces.
pub fn are_marked()
    ensures name { (total : ℕ) (t r z : List ℕ) (p : Span) → Next total t (tok Ident z p) r → IsName z }
    ensures literal { (total : ℕ) (t r z : List ℕ) (p : Span) → Next total t (tok Literal z p) r → IsLiteral z }
    ensures class { (total : ℕ) (t r z : List ℕ) (p : Span) → Next total t (tok Class z p) r → IsClass z }
    ensures matched { (total : ℕ) (t r z : List ℕ) (p : Span) → Next total t (tok Action z p) r → IsAction z }
    ensures action { (total : ℕ) (t r z : List ℕ) (p : Span) → Next total t (tok Action z p) r → IsBraced z }
{}
