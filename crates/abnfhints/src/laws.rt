//! A law of the tokens of ABNF: they report what the tree has.
ghost use Rattle.std.specs.Prelude.{ℕ, List, None, map};
ghost use Rattle.lexer.specs.TokenLists.{Tok};
ghost use Rattle.ruletable.specs.declared.lines.LineRule.TheVariants.{Lf};
ghost use Rattle.diagnostics.specs.BodyMentions.{mentions_in};
ghost use Rattle.diagnostics.specs.DefinitionHeads.{definitions_in, sign_at};
ghost use Rattle.diagnostics.specs.ReportedTrees.{ReportTree};
ghost use Rattle.abnfread.specs.AbnfReading.{Reads};
ghost use Rattle.abnfread.specs.Element.{Definition};
ghost use Rattle.abnfread.specs.MarkedTokens.{AreTokens};
ghost use Rattle.abnfread.specs.declared.kind.AbnfKind.{AbnfKind};
ghost use Rattle.abnfexplain.specs.AbnfNoteLines.{sign_of};
ghost use Rattle.abnfhints.specs.AbnfTrees.{tree_definitions};

/// Says that the tokens of a text report the definitions of its tree, and in each the names that its body uses, all in
/// order.
pub fn no_name_left_out()
    ensures { (text : List ℕ) (tokens : List (Tok AbnfKind)) (definitions : List Definition) → AreTokens text tokens
        → Reads text definitions
        → ReportTree (definitions_in Lf text (map (sign_at sign_of) tokens))
        (mentions_in Lf text None (map (sign_at sign_of) tokens)) (tree_definitions definitions) }
{}
