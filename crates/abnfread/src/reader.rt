//! Takes a grammar's words one by one.
ghost use Rattle.std.specs.Prelude.{◌≡◌, ◌∷◌, Bool, List, IfOk, [], Some, MatchOption};
ghost use Rattle.abnfread.specs.AbnfMachine as machine;
ghost use Rattle.abnfread.specs.AbnfMachine.{apply, enclosed, finish, ended, snoc, head, level as a_level, levels_in};
ghost use Rattle.abnfread.specs.AbnfMachine.{element_step, fresh_step, read_step, named_step, rule_step, close_step};
ghost use Rattle.abnfread.specs.AbnfMachine.{end_step, first_step, later_step, step};
ghost use Rattle.abnfread.specs.AbnfReader.{said_of, times_of, bracket_of, head_of, ended_of};
ghost use Rattle.abnfread.specs.AbnfReader.{parts_of, outer_of, body_config, config_of, Steps, sample, is_there};
ghost use Rattle.abnfread.specs.AbnfSpelling.{concatenation as concatenation_of, alternation as alternation_of};
ghost use Rattle.abnfread.specs.AbnfWords.{word};
ghost use Rattle.abnfread.specs.Element.{none, Definition as D};
ghost use Rattle.abnfread.specs.AbnfViews.{element_of, elements_of, definition_from, definitions_from};

use crate::definition::Definition;
use crate::elem::Elem;
use crate::words::Said;
use lexer::Body;
use ruletable::Span;
use std::alloc::{AllocError, AllocFailed, Global};

/// Why the reader takes no further token.
#[derive(Clone, Copy)]
pub(crate) enum ReaderStop {
    /// With this token the tokens so far begin no rules.
    Hopeless,
    /// A number of the token is over its limit.
    TooLarge,
    /// An allocation failed.
    Memory,
}

impl From<AllocError> for ReaderStop {
    ghost use Rattle.abnfread.specs.declared.reader.ReaderStop.TheVariants.{Memory};

    ghost from_gives = { λ _ e. e ≡ Memory };

    fn from(_: AllocError) -> Self {
        ReaderStop::Memory
    }
}

impl<T: Drop> From<AllocFailed<T>> for ReaderStop {
    ghost use Rattle.abnfread.specs.declared.reader.ReaderStop.TheVariants.{Memory};

    ghost from_gives = { λ _ e. e ≡ Memory };

    fn from(_: AllocFailed<T>) -> Self {
        ReaderStop::Memory
    }
}

/// How often the next element stands.
#[derive(Clone, Copy)]
pub(crate) enum Times {
    Once,
    Repeated(u32, Option<u32>),
}

#[derive(Clone, Copy)]
pub(crate) enum Bracket {
    Paren,
    Brack,
}

/// An open bracket, with what its end needs.
#[derive(Clone, Copy)]
pub(crate) struct Opened {
    /// The repeat before the bracket.
    times: Times,
    /// The form of the bracket.
    bracket: Bracket,
}

/// The state of the reader: the kind of word that it took last.
#[derive(Clone, Copy)]
pub(crate) enum At {
    /// Before the first word.
    Start,
    /// After the name of a definition.
    Named,
    /// Where a repetition must begin.
    Fresh,
    /// After a repeat, where its element must follow.
    Awaits(u32, Option<u32>),
    /// After a repetition.
    Read,
    /// After the end.
    Done,
}

/// A pushdown machine that takes a grammar word by word, and makes definitions of the words.
///
/// The definitions that ended stand in `definitions`. `adds`, `name` and `span` are those of the definition that goes
/// on, and `body` has what is read of its body. `at` decides which words may follow.
#[derive(Drop)]
pub(crate) struct Reader<'a> {
    /// Allocates the definitions.
    alloc: Global,
    /// The definitions that ended, in order.
    definitions: Vec<Definition<'a>>,
    /// Whether the definition that goes on adds alternatives (`=/`).
    adds: bool,
    /// The name of the definition that goes on.
    name: &'a [u8],
    /// The span of that name.
    span: Span,
    /// What is read of its body.
    body: Body<Elem, Opened>,
    /// The word that was taken last.
    at: At,
}

// The element, as often as that.
fn repeated(alloc: Global, times: Times, e: Elem) -> Result<Elem, AllocError>
    ensures { IfOk result (λ r. element_of r ≡ apply (times_of times) (element_of e)) }
{
    match times {
        Times::Once => Ok(e),
        Times::Repeated(least, most) => {
            let operand = Box::new(alloc, e)?;
            Ok(Elem::Rep {
                least,
                most,
                operand,
            })
        }
    }
}

// The element in a bracket of that form.
fn bracketed(alloc: Global, bracket: Bracket, e: Elem) -> Result<Elem, AllocError>
    ensures { IfOk result (λ r. element_of r ≡ enclosed (bracket_of bracket) (element_of e)) }
{
    match bracket {
        Bracket::Paren => Ok(e),
        Bracket::Brack => Ok(Elem::Opt(Box::new(alloc, e)?)),
    }
}

impl<'a> Reader<'a> {
    /// Returns a reader that has taken no word.
    pub(crate) fn new(alloc: Global) -> Reader<'a>
        ensures { config_of result ≡ machine.start }
    {
        Reader {
            alloc,
            definitions: Vec::new(alloc),
            adds: false,
            name: &[],
            span: Span { start: 0, end: 0 },
            body: Body::new(alloc),
            at: At::Start,
        }
    }

    // Adds a repetition.
    fn push_part(&mut self, times: Times, e: Elem) -> Result<(), ReaderStop>
        ensures { Steps (Some (machine.body (head_of self.old) (outer_of self.old) (ended_of self.old)
            (snoc (parts_of self.old) (apply (times_of times) (element_of e))) machine.read)) result self.new }
    {
        let part = repeated(self.alloc, times, e)?;
        self.body.push(part)?;
        self.at = At::Read;
        Ok(())
    }

    // Opens a bracket.
    fn open_bracket(&mut self, times: Times, bracket: Bracket) -> Result<(), ReaderStop>
        ensures { Steps (Some (machine.body (head_of self.old)
            (a_level (ended_of self.old) (parts_of self.old) (times_of times) (bracket_of bracket) ∷ outer_of self.old)
            none none machine.fresh)) result self.new }
    {
        self.body.open(Opened { times, bracket })?;
        self.at = At::Fresh;
        Ok(())
    }

    // Takes the element of a repetition.
    fn take_element(&mut self, times: Times, said: Said<'a>) -> Result<(), ReaderStop>
        ensures { Steps (element_step (head_of self.old) (outer_of self.old) (ended_of self.old) (parts_of self.old)
            (times_of times) (said_of said.entry)) result self.new }
    {
        match said {
            Said::Name(name, _) => {
                let name = Vec::from_slice(self.alloc, name)?;
                self.push_part(times, Elem::Name(name))
            }
            Said::Text { folds, text } => {
                let text = Vec::from_slice(self.alloc, text)?;
                self.push_part(times, Elem::Text { folds, text })
            }
            Said::Values(values) => self.push_part(times, Elem::Values(values)),
            Said::Range(low, high) => self.push_part(times, Elem::Range { low, high }),
            Said::Prose(text) => {
                let text = Vec::from_slice(self.alloc, text)?;
                self.push_part(times, Elem::Prose(text))
            }
            Said::LParen => self.open_bracket(times, Bracket::Paren),
            Said::LBrack => self.open_bracket(times, Bracket::Brack),
            _ => Err(ReaderStop::Hopeless),
        }
    }

    // Takes a word where a repetition must begin.
    fn take_fresh(&mut self, said: Said<'a>) -> Result<(), ReaderStop>
        ensures { Steps (fresh_step (head_of self.old) (outer_of self.old) (ended_of self.old) (parts_of self.old)
            (said_of said.entry)) result self.new }
    {
        match said {
            Said::Repeat(least, most) => {
                self.at = At::Awaits(least, most);
                Ok(())
            }
            _ => self.take_element(Times::Once, said),
        }
    }

    // Ends a concatenation at a slash.
    fn end_concatenation(&mut self) -> Result<(), ReaderStop>
        ensures { Steps (Some (machine.body (head_of self.old) (outer_of self.old)
            (snoc (ended_of self.old) (concatenation_of (parts_of self.old))) none machine.fresh)) result self.new }
    {
        self.body.end_alternative()?;
        self.at = At::Fresh;
        Ok(())
    }

    // Closes a bracket of that form.
    fn close_bracket(&mut self, bracket: Bracket) -> Result<(), ReaderStop>
        ensures { Steps (close_step (bracket_of bracket) (outer_of self.old) (head_of self.old)
            (finish (ended_of self.old) (parts_of self.old))) result self.new }
    {
        let Some((opened, inner)) = self.body.close()? else {
            return Err(ReaderStop::Hopeless);
        };
        if opened.bracket != bracket {
            return Err(ReaderStop::Hopeless);
        }
        let e = bracketed(self.alloc, bracket, inner)?;
        self.push_part(opened.times, e)
    }

    // Ends a definition.
    fn end_definition(&mut self) -> Result<(), AllocError>
        ensures { IfOk result (λ _. definitions_from self.new.definitions.items ≡ ended (head_of self.old)
            (finish (ended_of self.old) (parts_of self.old))) }
    {
        let body = self.body.finish()?;
        self.definitions.push(Definition {
            adds: self.adds,
            name: self.name,
            span: self.span,
            body,
        })?;
        Ok(())
    }

    // Takes a word after a repetition.
    fn take_after(&mut self, gap: bool, said: Said<'a>) -> Result<(), ReaderStop>
        ensures { Steps (read_step (head_of self.old) (outer_of self.old) (ended_of self.old) (parts_of self.old) gap
            (said_of said.entry)) result self.new }
    {
        match said {
            Said::Slash => self.end_concatenation(),
            Said::RParen => self.close_bracket(Bracket::Paren),
            Said::RBrack => self.close_bracket(Bracket::Brack),
            Said::End => {
                if self.body.depth() > 0 {
                    return Err(ReaderStop::Hopeless);
                }
                self.end_definition()?;
                self.at = At::Done;
                Ok(())
            }
            _ => {
                if !gap {
                    return Err(ReaderStop::Hopeless);
                }
                self.take_fresh(said)
            }
        }
    }

    // Begins the body of a definition.
    fn begin_body(&mut self, adds: bool)
        ensures { config_of self.new ≡ machine.body (head (definitions_from self.old.definitions.items) adds
            self.old.name.now self.old.span) [] none none machine.fresh }
    {
        self.adds = adds;
        self.body = Body::new(self.alloc);
        self.at = At::Fresh;
    }

    // Takes a word after the name of a definition.
    fn take_assignment(&mut self, said: Said<'a>) -> Result<(), ReaderStop>
        ensures { Steps (named_step (definitions_from self.old.definitions.items) self.old.name.now self.old.span
            (said_of said.entry)) result self.new }
    {
        match said {
            Said::Is => {
                self.begin_body(false);
                Ok(())
            }
            Said::Adds => {
                self.begin_body(true);
                Ok(())
            }
            _ => Err(ReaderStop::Hopeless),
        }
    }

    // Takes the first word of a line that begins a rule, after these definitions.
    fn take_rule(&mut self, said: Said<'a>) -> Result<(), ReaderStop>
        ensures { Steps (rule_step [] (definitions_from self.old.definitions.items) (said_of said.entry)) result
            self.new }
    {
        match said {
            Said::Name(name, span) => {
                self.name = name;
                self.span = span;
                self.at = At::Named;
                Ok(())
            }
            _ => Err(ReaderStop::Hopeless),
        }
    }

    // Takes the first word of a line that begins a rule.
    fn take_first(&mut self, said: Said<'a>) -> Result<(), ReaderStop>
        ensures { Steps (first_step (config_of self.old) (said_of said.entry)) result self.new }
    {
        match self.at {
            At::Start => {
                self.definitions = Vec::new(self.alloc);
                self.take_rule(said)
            }
            At::Read => {
                if self.body.depth() > 0 {
                    return Err(ReaderStop::Hopeless);
                }
                self.end_definition()?;
                self.take_rule(said)
            }
            _ => Err(ReaderStop::Hopeless),
        }
    }

    // Takes any other word.
    fn take_later(&mut self, gap: bool, said: Said<'a>) -> Result<(), ReaderStop>
        ensures { Steps (later_step (config_of self.old) gap (said_of said.entry)) result self.new }
    {
        match self.at {
            At::Named => self.take_assignment(said),
            At::Fresh => self.take_fresh(said),
            At::Awaits(least, most) => {
                if gap {
                    return Err(ReaderStop::Hopeless);
                }
                self.take_element(Times::Repeated(least, most), said)
            }
            At::Read => self.take_after(gap, said),
            _ => Err(ReaderStop::Hopeless),
        }
    }

    /// Takes the next word, with its marks. After an error nothing can be read.
    pub(crate) fn take(&mut self, gap: bool, first: bool, said: Said<'a>) -> Result<(), ReaderStop>
        ensures { Steps (step (config_of self.old) (word gap first (said_of said.entry))) result self.new }
    {
        if first {
            self.take_first(said)
        } else {
            self.take_later(gap, said)
        }
    }

    /// Returns whether a number with these marks goes on, a repeat or not.
    pub(crate) fn takes_number(&self, repeat: bool, gap: bool, first: bool) -> bool
        ensures { result ≡ is_there (step (config_of self.now) (word gap first (sample repeat))) }
    {
        if first {
            return false;
        }
        match self.at {
            At::Fresh => true,
            At::Awaits(_, _) => !gap && !repeat,
            At::Read => gap,
            _ => false,
        }
    }

    /// Returns how many brackets are open.
    pub(crate) fn open_brackets(&self) -> usize
        ensures { result ≡ levels_in (config_of self.now) }
    {
        match self.at {
            At::Fresh | At::Awaits(_, _) | At::Read => self.body.depth(),
            _ => 0,
        }
    }

    /// Returns the definitions after the end, and `None` before it.
    pub(crate) fn into_definitions(self) -> Option<Vec<Definition<'a>>>
        ensures done { (ds : List D) → config_of self.entry ≡ machine.done ds
            → MatchOption result ⊥ (λ v. definitions_from v.items ≡ ds) }
    {
        match self.at {
            At::Done => Some(self.definitions),
            _ => None,
        }
    }
}
