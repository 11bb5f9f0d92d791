//! A grammar language, and what its tool does.
ghost use Rattle.std.specs.Prelude.{◌≡◌, ℕ, List, Option, Some, IfOk, IfErr, IfSome, false, map, option_copied};
ghost use Rattle.toolrun.specs.AskedPositions.{AreAsked};
ghost use Rattle.ruletable.specs.Notes.{Said, said_of};
ghost use Rattle.ruletable.specs.Writing.{Flags, Writes};
ghost use Rattle.ruletable.specs.declared.fault.ReadFault.{ReadFault as Fault};
ghost use Rattle.toolrun.specs.Input.{Input};
ghost use Rattle.toolrun.specs.Language.{AreStated};
ghost use Rattle.toolrun.specs.Reply.{Reply};
ghost use Rattle.toolrun.specs.Stopped.{Fulfils};
ghost use Rattle.toolrun.specs.Stream.{passed};
ghost use Rattle.toolrun.specs.declared.settings.Settings.{Settings as AllSettings};

use crate::ending::Ending;
use crate::settings::Settings;
use feed::Source;
use ruletable::{Memory, Note, ReadFault, Sink, WriteFault};
use std::alloc::Global;

/// A grammar that was read.
#[derive(Drop)]
pub struct ReadText<G, P> {
    /// The grammar.
    pub grammar: G,
    /// Where its text defines rules and mentions them, if that was asked for.
    pub positions: Option<P>,
}

/// The result of the checks of a grammar.
#[derive(Drop)]
pub struct Checked<R, J> {
    /// The notes on it, in order.
    pub notes: Vec<Note>,
    /// Its rules.
    pub rules: R,
    /// The analysis of these that a run needs, unless a note rejects the grammar.
    pub judged: Option<J>,
}

/// A language of grammars: how a text is read, checked and printed, and what a grammar is run for.
pub trait Language {
    /// The settings of this language alone.
    type Options: Drop;

    /// A grammar that was read.
    type Grammar: Drop;

    /// The rules of a grammar that was checked.
    type Rules: Drop;

    /// The analysis of the rules of a grammar that no note rejects.
    type Judged: Drop;

    /// A grammar that is ready to run.
    type Sound: Drop;

    /// Where a text defines rules and mentions them.
    type TextPositions: Drop;

    /// The rules of a grammar, and where its text says what explains notes on it.
    type Positions: Drop;

    /// Which notes, and which reply after them, are stated for a grammar's text, settings and an input.
    ghost states: { List ℕ → AllSettings Self.Options → Input → List ℕ → Reply → Type 0 };

    /// Which faults a text has.
    ghost has_fault: { List ℕ → Fault → Type 0 };

    /// Which lines explain a fault of a text, after its message.
    ghost explains: { List ℕ → Fault → List ℕ → Type 0 };

    /// Which positions of definitions and mentions a text has.
    ghost are_text_positions: { List ℕ → Self.TextPositions → Type 0 };

    /// Which positions a text has, where a name may be given for the start rule.
    ghost are_positions: { List ℕ → Option (List ℕ) → Self.Positions → Type 0 };

    /// Which lines explain a note on the grammar of a text, where a name may be given for the start rule.
    ghost explains_note: { List ℕ → Option (List ℕ) → Said → List ℕ → Type 0 };

    /// Which hints there are on the grammar of a text, as settings ask.
    ghost are_hints: { List ℕ → AllSettings Self.Options → List ℕ → Type 0 };

    /// Which grammar a text is read as.
    ghost is_read: { List ℕ → Self.Grammar → Type 0 };

    /// Which rules a text has.
    ghost are_rules: { List ℕ → Self.Rules → Type 0 };

    /// Which rules positions hold.
    ghost held: { Self.Positions → Self.Rules };

    /// Which notes there are on a text's grammar for the name of a start rule, its rules, and their analysis unless a
    /// note rejects the grammar.
    ghost is_checked: { List ℕ → Option (List ℕ) → List Said → Self.Rules → Option Self.Judged → Type 0 };

    /// Which analysis rules have.
    ghost belongs: { Self.Rules → Self.Judged → Type 0 };

    /// Which notes there are on a text's grammar for the name of a start rule, and the form that is ready to run.
    ghost is_ready: { List ℕ → Option (List ℕ) → List Said → Self.Sound → Type 0 };

    /// Which notes there are on a text's grammar that is only to be printed.
    ghost is_printable: { List ℕ → Self.Grammar → List Said → Type 0 };

    /// The canonical text of a grammar.
    ghost canonical: { Self.Grammar → List ℕ };

    /// Which reply a run of a grammar states for settings and an input.
    ghost runs: { Self.Sound → AllSettings Self.Options → Input → Reply → Type 0 };

    /// Reads a grammar's text. If explanations are asked for, it returns where the text defines rules and mentions
    /// them.
    fn read(
        alloc: Global,
        text: &[u8],
        explain: bool,
    ) -> Result<ReadText<Self::Grammar, Self::TextPositions>, ReadFault>
        ensures read { IfOk result (λ r. is_read text.now r.grammar) }
        ensures positions { IfOk result (λ r. AreAsked are_text_positions explain text.now r.positions) }
        ensures fault { IfErr result (λ fault. has_fault text.now fault) };

    /// Returns the lines that explain a fault of a grammar's text. `Memory` if an allocation fails.
    fn explain_fault(alloc: Global, text: &[u8], fault: ReadFault) -> Result<Vec<u8>, Memory>
        requires { has_fault text.now fault }
        ensures { IfOk result (λ why. explains text.now fault why.items) };

    /// Returns where a text says what explains notes, by where it defines rules and mentions them. It takes the text's
    /// rules, and holds them. `Memory` if an allocation fails; the rules are dropped then.
    fn positions(
        alloc: Global,
        found: Self::TextPositions,
        rules: Self::Rules,
        start: Option<&str>,
    ) -> Result<Self::Positions, Memory>
        requires { (text : List ℕ) × are_text_positions text found × are_rules text rules }
        ensures positions { IfOk result (λ positions. (text : List ℕ) → are_text_positions text found
            → are_rules text rules → are_positions text (option_copied start.entry) positions) }
        ensures rules { IfOk result (λ positions. held positions ≡ rules) };

    /// Returns the rules that positions hold.
    fn into_rules(positions: Self::Positions) -> Self::Rules
        ensures { result ≡ held positions };

    /// Returns the lines that explain a note. `Memory` if an allocation fails.
    fn explain_note(
        alloc: Global,
        positions: &Self::Positions,
        start: Option<&str>,
        note: &Note,
    ) -> Result<Vec<u8>, Memory>
        ensures { IfOk result (λ why. (text : List ℕ) → are_positions text (option_copied start.entry) positions.now
            → explains_note text (option_copied start.entry) (said_of note.now) why.items) };

    /// Returns the hints on a grammar. `Memory` if an allocation fails.
    fn hints(
        alloc: Global,
        positions: &Self::Positions,
        settings: &Settings<'_, Self::Options>,
    ) -> Result<Vec<u8>, Memory>
        ensures { IfOk result (λ reported. (text : List ℕ)
            → are_positions text (option_copied settings.now.start) positions.now
            → are_hints text settings.now reported.items) };

    /// Checks a grammar, and notes what there is to say of it. `Memory` if an allocation fails.
    fn check(
        alloc: Global,
        grammar: Self::Grammar,
        start: Option<&str>,
    ) -> Result<Checked<Self::Rules, Self::Judged>, Memory>
        ensures checked { IfOk result (λ c. (text : List ℕ) → is_read text grammar →
            is_checked text (option_copied start.entry) (map said_of c.notes.items) c.rules c.judged) }
        ensures rules { IfOk result (λ c. (text : List ℕ) → is_read text grammar → are_rules text c.rules) }
        ensures belongs { IfOk result (λ c. IfSome c.judged (belongs c.rules)) };

    /// Makes a grammar ready to run, by its rules and their analysis. `Memory` if an allocation fails; the grammar is
    /// dropped then.
    fn ready(alloc: Global, rules: Self::Rules, judged: Self::Judged) -> Result<Self::Sound, Memory>
        requires { belongs rules judged }
        ensures { IfOk result (λ sound. (text : List ℕ) (start : Option (List ℕ)) (notes : List Said)
            → is_checked text start notes rules (Some judged) → is_ready text start notes sound) };

    /// Returns the notes on the rules that a grammar defines again, alone. `Memory` if an allocation fails.
    fn redefinitions(alloc: Global, grammar: &Self::Grammar) -> Result<Vec<Note>, Memory>
        ensures { IfOk result (λ notes. (text : List ℕ) → is_read text grammar.now →
            is_printable text grammar.now (map said_of notes.items)) };

    /// Writes the canonical text of a grammar. `WriteFault` if the writer fails; then a prefix of it is written.
    fn print<O: Sink>(grammar: &Self::Grammar, out: &mut O) -> Result<(), WriteFault>
        requires { O.failed out.old ≡ false }
        ensures bytes { Writes (O.contents out.old) (O.contents out.new) (canonical grammar.now) result }
        ensures flag { Flags (O.failed out.old) (O.failed out.new) result };

    /// Runs a grammar on what a reader gives. `WriteFault` if the output fails; then a prefix is written.
    fn run<R: Source, O: Sink>(
        alloc: Global,
        grammar: &Self::Sound,
        settings: &Settings<'_, Self::Options>,
        reader: &mut R,
        out: &mut O,
    ) -> Result<Ending, WriteFault>
        requires reader_is_fresh { R.failed reader.old ≡ false }
        requires reader_is_open { R.ended reader.old ≡ false }
        requires out_is_fresh { O.failed out.old ≡ false }
        ensures { Fulfils (runs grammar.now settings.now) (passed R.remaining R.failed reader.old reader.new)
            (passed O.contents O.failed out.old out.new) result };

    /// Says that what is stated follows from what is read, checked, printed and run. It does nothing.
    fn follows()
        ensures { AreStated states has_fault explains explains_note are_hints is_read is_checked is_ready is_printable
            canonical runs };
}
