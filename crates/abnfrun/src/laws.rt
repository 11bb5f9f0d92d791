//! Laws of what is stated for a grammar in ABNF and an input: there is at most one answer.
ghost use Rattle.std.specs.Prelude.{◌≡◌, ◌≢◌, ℕ, Bool, true, List, [], None};
ghost use Rattle.ruletable.specs.declared.fault.ReadFault.{ReadFault};
ghost use Rattle.abnfexplain.specs.AbnfAllFaults.{ExplainsAll};
ghost use Rattle.abnfread.specs.AbnfReading.{IsFaultOf, Reads};
ghost use Rattle.abnfread.specs.Element.{Definition, Rule};
ghost use Rattle.abnfrun.specs.AbnfAnswers.{AbnfStates};
ghost use Rattle.abnfrun.specs.AbnfReply.{JudgeReplies};
ghost use Rattle.toolrun.specs.Input.{Input};
ghost use Rattle.toolrun.specs.Explained.{IsLongReply, explained_by};
ghost use Rattle.toolrun.specs.Reply.{Reply, SameButWhy};
ghost use Rattle.abnfrun.specs.AbnfSettings.{AbnfSettings};

use abnfcheck::{furthest_is_found, one_name_chain};
use abnfexplain::{one_explanation_of_abnf_faults, one_note_explanation_of_abnf};
use abnfhints::one_text_of_abnf_hints;
use abnfread::one_reading;
use refusedlines::refusal_is_one;
use ruletable::utf8_is_decided;

/// States that a list of rules, a judged rule and settings without a budget have at most one reply to an input.
pub fn one_reply_of_abnf()
    ensures { (rules : List Rule) (judged : ℕ) (settings : AbnfSettings) (input : Input) (a b : Reply) →
        settings.options.budget ≡ None → JudgeReplies rules judged settings input a →
        JudgeReplies rules judged settings input b → a ≡ b }
{
    furthest_is_found();
    utf8_is_decided();
    refusal_is_one();
}

/// States that a text in ABNF is a grammar of at most one list of definitions, or has at most one fault, and never
/// both; but an allocation may fail in reading it. A text, settings without a budget and an input have at most one list
/// of notes and one reply, but for those after a failed allocation, status 5. Where an allocation fails in the
/// explanation of a line, the reply is the same but for explanations. A text that is too long is reported as that,
/// whatever allocations do.
pub fn one_statement_of_abnf()
    ensures definitions { (text : List ℕ) (a b : List Definition) → Reads text a → Reads text b → a ≡ b }
    ensures no_fault { (text : List ℕ) (definitions : List Definition) (fault : ReadFault) →
        IsFaultOf text fault → fault ≢ ReadFault.Memory → Reads text definitions → ⊥ }
    ensures one_fault { (text : List ℕ) (a b : ReadFault) →
        IsFaultOf text a → IsFaultOf text b → a ≢ ReadFault.Memory → b ≢ ReadFault.Memory → a ≡ b }
    ensures whole { (text : List ℕ) (settings : AbnfSettings) (input : Input) (notes others : List ℕ) (a b : Reply) →
        settings.options.budget ≡ None → AbnfStates text settings input notes a →
        AbnfStates text settings input others b → a.status ≢ 5 → b.status ≢ 5 →
        (notes ≡ others) × SameButWhy settings.explain a b }
    ensures long { (text : List ℕ) (settings : AbnfSettings) (input : Input) (notes : List ℕ) (reply : Reply) →
        IsFaultOf text ReadFault.TooLong → AbnfStates text settings input notes reply →
        (notes ≡ []) × IsLongReply settings (ExplainsAll text ReadFault.TooLong) reply }
{
    one_explanation_of_abnf_faults();
    one_note_explanation_of_abnf();
    one_name_chain();
    one_text_of_abnf_hints();
    one_reading();
    furthest_is_found();
    utf8_is_decided();
}

/// States that explanations change no answer: without a budget, a text and an input have the same output, status and
/// bytes taken with and without explanations, but where the status is 5, after a failed allocation.
pub fn explanations_change_no_answer()
    ensures { (text : List ℕ) (settings : AbnfSettings) (asked : Bool) (input : Input) (notes others : List ℕ)
        (a b : Reply) → settings.options.budget ≡ None → AbnfStates text settings input notes a →
        AbnfStates text (explained_by asked settings) input others b → a.status ≢ 5 → b.status ≢ 5 →
        SameButWhy true a b }
{
    one_reading();
    furthest_is_found();
    utf8_is_decided();
}
