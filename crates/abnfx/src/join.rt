//! A run that joins texts.
ghost use Rattle.std.specs.Prelude.{◌≡◌, ◌≢◌, [], false, map};
ghost use Rattle.abnfread.specs.AbnfViews.{rules_of};
ghost use Rattle.abnfprint.specs.CanonicalAbnf.{grammar_text};
ghost use Rattle.abnftexts.specs.JoinRun.{IsWrittenAs, JoinStates, TriedReply, grammar_form, joined_status};
ghost use Rattle.abnftexts.specs.JoinedViews.{grammar_joined};
ghost use Rattle.abnftexts.specs.RulesGathered.{named_text};
ghost use Rattle.abnftexts.specs.declared.joined.JoinForm.{JoinForm as join_form};
ghost use Rattle.toolrun.specs.Right.{RunIsRight};
ghost use Rattle.toolrun.specs.Status.{code_of};
ghost use Rattle.toolrun.specs.Stop.{unread};
ghost use Rattle.toolrun.specs.Stopped.{Performs};
ghost use Rattle.toolrun.specs.Stream.{no_input, passed};

use crate::reports::reported_text;
use abnfprint::print_abnf;
use abnfread::{Abnf, read_abnf};
use abnftexts::{JoinForm, JoinedTexts, ListForm, SourceText, join_texts};
use ruletable::{ReadFault, Sink, WriteFault, write_whole};
use std::alloc::Global;
use toolrun::{Status, Stop, close_run, end_run};

/// What is asked for.
#[derive(Clone, Copy)]
pub(crate) struct FormsAsked {
    /// The form of the grammar.
    pub(crate) form: JoinForm,
    /// The form of its lists.
    pub(crate) lists: Option<ListForm>,
    /// Whether it is explained why a rule is no ABNF.
    pub(crate) explains: bool,
}

// The status of a run whose text was written.
fn status_of(joined: &JoinedTexts) -> Status
    ensures { result ≡ joined_status (grammar_joined joined.now) }
{
    if joined.is_faulty || joined.grammar.is_empty() {
        Status::NoMatch
    } else {
        Status::Done
    }
}

// Writes a text that such a run states.
fn write_text<O: Sink>(joined: &JoinedTexts, text: &[u8], out: &mut O) -> Result<Stop, WriteFault>
    requires { O.failed out.old ≡ false }
    ensures { (form : join_form) → IsWrittenAs (grammar_joined joined.now) form text.now
        → Performs (λ input reply. TriedReply form (grammar_joined joined.now) reply) no_input
        (passed O.contents O.failed out.old out.new) result }
{
    match write_whole(out, text) {
        Ok(()) => Ok(Stop::Quiet(status_of(joined))),
        Err(fault) => Err(fault),
    }
}

// Writes the canonical text of a grammar.
fn write_canonical<O: Sink>(
    joined: &JoinedTexts,
    abnf: &Abnf,
    out: &mut O,
) -> Result<Stop, WriteFault>
    requires text { IsWrittenAs (grammar_joined joined.now) JoinForm.Canonical
        (grammar_text (rules_of abnf.now.rules)) }
    requires fresh { O.failed out.old ≡ false }
    ensures { Performs (λ input reply. TriedReply JoinForm.Canonical (grammar_joined joined.now) reply) no_input
        (passed O.contents O.failed out.old out.new) result }
{
    match print_abnf(abnf, out) {
        Ok(()) => Ok(Stop::Quiet(status_of(joined))),
        Err(fault) => Err(fault),
    }
}

// How a run stops whose grammar has that fault.
fn stop_at(fault: ReadFault) -> Stop
    ensures { result ≡ unread fault }
{
    match fault {
        ReadFault::Memory => Stop::NoMemory,
        _ => Stop::Refused(fault),
    }
}

// Writes a grammar, if it reads.
fn write_grammar<O: Sink>(
    alloc: Global,
    joined: &JoinedTexts,
    is_canonical: bool,
    out: &mut O,
) -> Result<Stop, WriteFault>
    requires some { joined.now.grammar.items ≢ [] }
    requires fresh { O.failed out.old ≡ false }
    ensures { Performs (λ input reply. TriedReply (grammar_form is_canonical) (grammar_joined joined.now) reply)
        no_input (passed O.contents O.failed out.old out.new) result }
{
    match read_abnf(alloc, &joined.grammar) {
        Ok(abnf) => {
            if is_canonical {
                write_canonical(joined, &abnf, out)
            } else {
                write_text(joined, &joined.grammar, out)
            }
        }
        Err(fault) => Ok(stop_at(fault)),
    }
}

// Writes a grammar, if it has some rule.
fn write_rules<O: Sink>(
    alloc: Global,
    joined: &JoinedTexts,
    is_canonical: bool,
    out: &mut O,
) -> Result<Stop, WriteFault>
    requires { O.failed out.old ≡ false }
    ensures { Performs (λ input reply. TriedReply (grammar_form is_canonical) (grammar_joined joined.now) reply)
        no_input (passed O.contents O.failed out.old out.new) result }
{
    if joined.grammar.is_empty() {
        return write_text(joined, &joined.grammar, out);
    }
    write_grammar(alloc, joined, is_canonical, out)
}

// Writes what is asked for of the joined grammar.
fn write_joined<O: Sink>(
    alloc: Global,
    joined: &JoinedTexts,
    form: JoinForm,
    out: &mut O,
) -> Result<Stop, WriteFault>
    requires { O.failed out.old ≡ false }
    ensures { Performs (λ input reply. TriedReply form (grammar_joined joined.now) reply) no_input
        (passed O.contents O.failed out.old out.new) result }
{
    match form {
        JoinForm::Listed => write_text(joined, &joined.listed, out),
        JoinForm::Plain => write_rules(alloc, joined, false, out),
        JoinForm::Canonical => write_rules(alloc, joined, true, out),
    }
}

/// Joins texts: writes the grammar that they make up on `out`, in the form that is asked for, and the reports on them
/// on `err`. Neither may have failed before.
///
/// - The reports of `join_texts` are written on `err` first. Where explanations are asked for, that of a rule's lines
///   follows the message on the rule.
/// - The grammar is read by `read_abnf`, and written if it reads: `Done`; or where a rule is no ABNF, or a name has two
///   definitions, `NoMatch`. A grammar of more than `MAX_GRAMMAR` bytes is reported, `Refused`, and not written.
/// - Where no text gives a rule nothing is written, `NoMatch`.
/// - A list of rules is written as it is, with the status of a grammar that is written.
/// - Where a writer fails, nothing more is written to it, and the status is at least `Fault`. Writers that have not
///   failed are flushed at the end, `out` first; no clause sees a flush.
/// - If an allocation fails: `out of memory`, `NoMemory`.
pub(crate) fn run_join<O: Sink, E: Sink>(
    alloc: Global,
    texts: &[SourceText<'_>],
    asked: FormsAsked,
    out: &mut O,
    err: &mut E,
) -> Status
    requires out_is_fresh { O.failed out.old ≡ false }
    requires err_is_fresh { E.failed err.old ≡ false }
    ensures right { RunIsRight (JoinStates (map named_text texts.now) asked.lists asked.form asked.explains) no_input
        (passed O.contents O.failed out.old out.new) (passed E.contents E.failed err.old err.new) (code_of result) }
{
    let joined = match join_texts(alloc, texts, asked.lists) {
        Ok(joined) => joined,
        Err(_) => return end_run(Ok(Stop::NoMemory), out, err),
    };
    let reported = match reported_text(alloc, &joined, asked.explains) {
        Ok(reported) => reported,
        Err(_) => return end_run(Ok(Stop::NoMemory), out, err),
    };
    if write_whole(err, &reported).is_err() {
        return close_run(out, err);
    }
    let stop = write_joined(alloc, &joined, asked.form, out);
    end_run(stop, out, err)
}
