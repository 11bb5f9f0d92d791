//! Laws of what is stated for a grammar and an input: there is at most one reply.
ghost use Rattle.std.specs.Prelude.{◌≡◌, ◌≢◌, ℕ, Bool, true, List, []};
ghost use Rattle.ruletable.specs.declared.fault.ReadFault.{ReadFault};
ghost use Rattle.pegprint.specs.PegAllFaults.{ExplainsAll};
ghost use Rattle.pegread.specs.Pattern.{Rule};
ghost use Rattle.pegread.specs.Reading.{IsFaultOf, Reads};
ghost use Rattle.toolrun.specs.Input.{Input};
ghost use Rattle.pegrun.specs.Answers.{States};
ghost use Rattle.pegrun.specs.PegReply.{Replies};
ghost use Rattle.toolrun.specs.Explained.{IsLongReply, explained_by};
ghost use Rattle.toolrun.specs.Reply.{Reply, SameButWhy};
ghost use Rattle.pegrun.specs.PegSettings.{PegSettings};

use matchfailure::one_no_match;
use pegexplain::{one_note_explanation, one_text_of_hints};
use pegprint::one_explanation;
use pegread::one_reading;

/// Says that a list of rules, a start rule and settings have at most one reply to an input.
pub fn one_reply()
    ensures { (rules : List Rule) (start : ℕ) (settings : PegSettings) (input : Input) (a b : Reply) →
        Replies rules start settings input a → Replies rules start settings input b → a ≡ b }
{
    one_no_match();
}

/// Says that a text is a grammar of at most one list of definitions, or has at most one fault, and never both; but an
/// allocation may fail in reading it. A text, settings and an input have at most one list of notes and one reply, apart
/// from those of status 5, which report that an allocation failed. Where one fails in the explanation of a stop, the
/// reply is the same but for that. A text that is too long is reported as that, whether an allocation fails or not.
pub fn one_statement()
    ensures definitions { (text : List ℕ) (a b : List Rule) → Reads text a → Reads text b → a ≡ b }
    ensures no_fault { (text : List ℕ) (definitions : List Rule) (fault : ReadFault) →
        IsFaultOf text fault → fault ≢ ReadFault.Memory → Reads text definitions → ⊥ }
    ensures one_fault { (text : List ℕ) (a b : ReadFault) →
        IsFaultOf text a → IsFaultOf text b → a ≢ ReadFault.Memory → b ≢ ReadFault.Memory → a ≡ b }
    ensures whole { (text : List ℕ) (settings : PegSettings) (input : Input) (notes others : List ℕ) (a b : Reply) →
        States text settings input notes a → States text settings input others b → a.status ≢ 5 → b.status ≢ 5 →
        (notes ≡ others) × SameButWhy settings.explain a b }
    ensures long { (text : List ℕ) (settings : PegSettings) (input : Input) (notes : List ℕ) (reply : Reply) →
        IsFaultOf text ReadFault.TooLong → States text settings input notes reply →
        (notes ≡ []) × IsLongReply settings (ExplainsAll text ReadFault.TooLong) reply }
{
    one_explanation();
    one_note_explanation();
    one_text_of_hints();
    one_reading();
}

/// Says that explanations change no answer: a text and an input have the same output, status and bytes taken with and
/// without explanations, but where the status is 5, after a failed allocation.
pub fn explanations_change_no_answer()
    ensures { (text : List ℕ) (settings : PegSettings) (asked : Bool) (input : Input) (notes others : List ℕ)
        (a b : Reply) → States text settings input notes a → States text (explained_by asked settings) input others b →
        a.status ≢ 5 → b.status ≢ 5 → SameButWhy true a b }
{}
