//! A law of texts that stand one after another.
ghost use Rattle.std.specs.Prelude.{◌≡◌, ◌≤◌, ◌++◌, ◌∷◌, [], true, List, ℕ, length, map};
ghost use Rattle.std.specs.Char.{is_ascii_alphabetic};
ghost use Rattle.abnfread.specs.AbnfReading.{Reads};
ghost use Rattle.abnfread.specs.AbnfSlices.{White};
ghost use Rattle.abnfread.specs.Element.{Definition};
ghost use Rattle.abnfblocks.specs.LinkedLines.{EndsLine};
ghost use Rattle.abnftexts.specs.LinkedTexts.{SpellsAtMargin, moved_definition};
ghost use Rattle.lexer.specs.GrammarLimits.{max_grammar};

/// Says what texts of ABNF spell one after another, where LF ends the first one and the second one's first rule is not
/// indented: the definitions of the first, and those of the second, whose names stand further on. Comments and blank
/// lines before a text only move its names. What such a text spells it reads as, if it is not too long; and a text that
/// reads spells that, if a letter begins it.
pub fn linked_reading()
    ensures linked { (a b : List ℕ) (first second : List Definition) → EndsLine a → SpellsAtMargin a first
        → SpellsAtMargin b second
        → SpellsAtMargin (a ++ b) (first ++ map (moved_definition (length a)) second) }
    ensures after { (a b : List ℕ) (definitions : List Definition) → EndsLine a → White a []
        → SpellsAtMargin b definitions
        → SpellsAtMargin (a ++ b) (map (moved_definition (length a)) definitions) }
    ensures reads { (text : List ℕ) (definitions : List Definition) → SpellsAtMargin text definitions
        → length text ≤ max_grammar → Reads text definitions }
    ensures spells { (b : ℕ) (bytes : List ℕ) (definitions : List Definition) → is_ascii_alphabetic b ≡ true
        → Reads (b ∷ bytes) definitions → SpellsAtMargin (b ∷ bytes) definitions }
{}
