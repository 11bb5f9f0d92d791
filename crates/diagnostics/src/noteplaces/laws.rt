//! A law of mentions.
ghost use Rattle.std.specs.Prelude.{◌≡◌, List, Option};
ghost use Rattle.ruletable.specs.declared.table.NameCase.{NameCase};
ghost use Rattle.diagnostics.specs.BodyMentions.{MentionedAt};
ghost use Rattle.diagnostics.specs.DefinitionHeads.{DefinedAt};
ghost use Rattle.diagnostics.specs.FirstMentions.{IsFirstIfAny, RuleMention};

/// Says that exactly one of some mentions is the first in the order of the rules, or none if none stands in a rule.
pub fn first_mention()
    ensures some { (names : NameCase) (definitions : List DefinedAt) (mentions : List MentionedAt)
        → (first : Option RuleMention) × IsFirstIfAny names definitions mentions first }
    ensures one { (names : NameCase) (definitions : List DefinedAt) (mentions : List MentionedAt)
        (a b : Option RuleMention) → IsFirstIfAny names definitions mentions a
        → IsFirstIfAny names definitions mentions b → a ≡ b }
{}
