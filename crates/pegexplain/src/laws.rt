//! A law of what notes name: no name is left out.
ghost use Rattle.std.specs.Prelude.{ℕ, List, None, length, map};
ghost use Rattle.ruletable.specs.declared.lines.LineRule.TheVariants.{Any};
ghost use Rattle.diagnostics.specs.BodyMentions.{mentions_in};
ghost use Rattle.diagnostics.specs.DefinitionHeads.{definitions_in, sign_at};
ghost use Rattle.diagnostics.specs.ReportedTrees.{ReportTree};
ghost use Rattle.pegread.specs.Pattern.{Rule};
ghost use Rattle.pegread.specs.Reading.{Reads};
ghost use Rattle.pegread.specs.Tokens.{AreTokens, Tok};
ghost use Rattle.pegexplain.specs.PegNotes.{sign_of, tree_rules};

/// Says that the tokens of a text report the definitions of its tree, and in each the names that its body uses, all in
/// order.
pub fn no_name_left_out()
    ensures { (text : List ℕ) (tokens : List Tok) (definitions : List Rule)
        → AreTokens (length text) text tokens → Reads text definitions
        → ReportTree (definitions_in Any text (map (sign_at sign_of) tokens))
        (mentions_in Any text None (map (sign_at sign_of) tokens)) (tree_rules definitions) }
{}
