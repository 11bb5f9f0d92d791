//! Laws of what is stated for texts: there is at most one joined grammar, and one reply; and what the grammar reads as.
ghost use Rattle.std.specs.Prelude.{◌≡◌, ◌≢◌, ◌≤◌, ℕ, Bool, List, [], Option, length, map};
ghost use Rattle.abnfread.specs.AbnfReading.{IsFaultOf, Reads};
ghost use Rattle.abnfread.specs.Element.{Definition};
ghost use Rattle.lexer.specs.GrammarLimits.{max_grammar};
ghost use Rattle.abnftexts.specs.JoinRun.{JoinStates};
ghost use Rattle.abnftexts.specs.JoinedGrammar.{AreTextsJoined, GrammarJoined};
ghost use Rattle.abnftexts.specs.RulesGathered.{NamedText};
ghost use Rattle.abnftexts.specs.SpelledRules.{AreSpelled, as_written, joined_positions, joined_rules, unplaced};
ghost use Rattle.abnftexts.specs.TextRules.{given_by};
ghost use Rattle.toolrun.specs.Input.{Input};
ghost use Rattle.toolrun.specs.Reply.{Reply};

use crate::joined::JoinForm;
use abnfblocks::{one_finding, one_masking};
use abnfexplain::one_explanation_of_abnf;
use abnfread::{AbnfKind, one_reading};
use lexer::one_list;
use rfcforms::{ListForm, one_expansion};
use ruletable::ReadFault;

/// Says that texts make up at most one joined grammar. The reports on them, explained or not, and the reply of a run
/// that joins them in a form are one too, but for those that report `out of memory`, status 5.
pub fn one_joining()
    ensures joined { (lists : Option ListForm) (texts : List NamedText) (a b : GrammarJoined)
        → AreTextsJoined lists texts a → AreTextsJoined lists texts b → a ≡ b }
    ensures stated { (texts : List NamedText) (lists : Option ListForm) (form : JoinForm) (explains : Bool)
        (input : Input) (notes others : List ℕ) (a b : Reply) → JoinStates texts lists form explains input notes a
        → JoinStates texts lists form explains input others b → a.status ≢ 5 → b.status ≢ 5
        → (notes ≡ others) × (a ≡ b) }
{
    one_explanation_of_abnf();
    one_reading();
    one_masking();
    one_finding();
    one_list::<AbnfKind>();
    one_expansion();
}

/// Says what the joined grammar of texts is read as: a definition for each rule that is printed, in that order, with
/// its name, its elements, and `=` or `=/`. They are the definitions that the texts of the rules are each read as, but
/// for where their names stand. A grammar that has some rule is read unless it is too long, and has no other fault.
pub fn joined_reading()
    ensures reads { (lists : Option ListForm) (texts : List NamedText) (j : GrammarJoined)
        → AreTextsJoined lists texts j → j.grammar ≢ [] → length j.grammar ≤ max_grammar
        → (definitions : List Definition) × Reads j.grammar definitions }
    ensures long { (lists : Option ListForm) (texts : List NamedText) (j : GrammarJoined) (fault : ReadFault)
        → AreTextsJoined lists texts j → j.grammar ≢ [] → IsFaultOf j.grammar fault → fault ≢ ReadFault.Memory
        → fault ≡ ReadFault.TooLong }
    ensures rules { (lists : Option ListForm) (texts : List NamedText) (j : GrammarJoined)
        (definitions : List Definition) (a : AreTextsJoined lists texts j) → Reads j.grammar definitions
        → map given_by definitions ≡ map as_written (joined_rules a.gathered) }
    ensures spelled { (lists : Option ListForm) (texts : List NamedText) (j : GrammarJoined)
        (definitions : List Definition) (a : AreTextsJoined lists texts j) → Reads j.grammar definitions
        → (alone : List Definition)
        × AreSpelled (joined_positions a.gathered) (joined_rules a.gathered) alone
        × (map unplaced definitions ≡ map unplaced alone) }
{}
