//! Takes a grammar's words one by one.
ghost use Rattle.std.specs.Prelude.{◌≡◌, ◌∷◌, List, [], IfOk, Some, MatchOption};
ghost use Rattle.pegread.specs.Machine as machine;
ghost use Rattle.pegread.specs.Machine.{apply, close_step, end_step, ended, finish, fresh_step, head, levels_in};
ghost use Rattle.pegread.specs.Machine.{level as a_level, name_step, no_mark, read_step, snoc, step};
ghost use Rattle.pegread.specs.Pattern.{none, Rule};
ghost use Rattle.pegread.specs.PegViews.{pattern_of, patterns_of};
ghost use Rattle.pegread.specs.Spelling.{sequence as sequence_of, choice as choice_of};
ghost use Rattle.pegread.specs.Steps.{Steps, body_config, config_of, ended_of, head_of, last_items, mark_of, outer_of};
ghost use Rattle.pegread.specs.Steps.{rules_from, unmarked_step, waiting_of, word_of};

use crate::expr::Expr;
use crate::words::Word;
use lexer::Body;
use ruletable::Span;
use std::alloc::{AllocError, AllocFailed, Global};
use std::mem;

/// Why the reader takes no further word.
#[derive(Clone, Copy)]
pub(crate) enum ReaderStop {
    /// With this word the words so far are no prefix of a grammar.
    Hopeless,
    /// An allocation failed.
    Memory,
}

impl From<AllocError> for ReaderStop {
    ghost use Rattle.pegread.specs.declared.reader.ReaderStop.TheVariants.{Memory};

    ghost from_gives = { λ _ e. e ≡ Memory };

    fn from(_: AllocError) -> Self {
        ReaderStop::Memory
    }
}

impl<T: Drop> From<AllocFailed<T>> for ReaderStop {
    ghost use Rattle.pegread.specs.declared.reader.ReaderStop.TheVariants.{Memory};

    ghost from_gives = { λ _ e. e ≡ Memory };

    fn from(_: AllocFailed<T>) -> Self {
        ReaderStop::Memory
    }
}

/// A prefix operator that waits for its item.
#[derive(Clone, Copy)]
pub(crate) enum Prefix {
    Nothing,
    Not,
    And,
}

/// A definition as it was read.
#[derive(Drop)]
pub(crate) struct Definition<'a> {
    /// The name.
    pub(crate) name: &'a [u8],
    /// The span of the name.
    pub(crate) span: Span,
    /// The body.
    pub(crate) body: Expr,
}

/// The state of the reader: the kind of word that it took last.
#[derive(Drop)]
pub(crate) enum At<'a> {
    /// No word.
    Start,
    /// The first definition's name.
    Named(&'a [u8], Span),
    /// A word that no suffix may follow.
    Fresh,
    /// A primary, which a suffix may follow.
    Read(Expr),
    /// A name, which may also begin the next definition.
    Name(&'a [u8], Span),
    /// The end.
    Done,
}

/// A pushdown machine that takes a grammar word by word, and makes definitions of the words.
///
/// The definitions that ended stand in `definitions`. `name` and `span` are those of the definition that goes on, and
/// `body` has what is read of its body. An open bracket sets aside the prefix operator before it. `at` decides which
/// words may follow.
#[derive(Drop)]
pub(crate) struct Reader<'a> {
    /// Allocates the definitions.
    alloc: Global,
    /// The definitions that ended, in order.
    definitions: Vec<Definition<'a>>,
    /// The name of the definition that goes on.
    name: &'a [u8],
    /// The span of that name.
    span: Span,
    /// What is read of its body, with the prefix operator of each open bracket.
    body: Body<Expr, Prefix>,
    /// The prefix operator that waits for its item.
    prefix: Prefix,
    /// The word that was taken last.
    at: At<'a>,
}

// Puts an item under a prefix operator.
fn prefixed(alloc: Global, prefix: Prefix, item: Expr) -> Result<Expr, AllocError>
    ensures { IfOk result (λ e. pattern_of e ≡ apply (mark_of prefix) (pattern_of item)) }
{
    match prefix {
        Prefix::Nothing => Ok(item),
        Prefix::Not => Ok(Expr::Not(Box::new(alloc, item)?)),
        Prefix::And => Ok(Expr::And(Box::new(alloc, item)?)),
    }
}

impl<'a> Reader<'a> {
    /// Returns a reader that has taken no word.
    pub(crate) fn new(alloc: Global) -> Reader<'a>
        ensures { config_of result ≡ machine.start }
    {
        Reader {
            alloc,
            definitions: Vec::new(alloc),
            name: &[],
            span: Span { start: 0, end: 0 },
            body: Body::new(alloc),
            prefix: Prefix::Nothing,
            at: At::Start,
        }
    }

    // Adds an item, under the prefix operator that waits for it.
    fn push_item(&mut self, item: Expr) -> Result<(), ReaderStop>
        ensures { Steps (Some (machine.body (head_of self.old) (outer_of self.old) (ended_of self.old)
            (snoc (last_items self.old) (apply (waiting_of self.old) (pattern_of item))) no_mark machine.fresh)) result
            self.new }
    {
        let item = prefixed(self.alloc, self.prefix, item)?;
        self.body.push(item)?;
        self.prefix = Prefix::Nothing;
        self.at = At::Fresh;
        Ok(())
    }

    // Opens a bracket.
    fn open_bracket(&mut self) -> Result<(), ReaderStop>
        ensures { Steps (Some (machine.body (head_of self.old)
            (a_level (ended_of self.old) (last_items self.old) (waiting_of self.old) ∷ outer_of self.old) none none
            no_mark machine.fresh)) result self.new }
    {
        self.body.open(self.prefix)?;
        self.prefix = Prefix::Nothing;
        self.at = At::Fresh;
        Ok(())
    }

    // Ends a sequence at a slash.
    fn end_sequence(&mut self) -> Result<(), ReaderStop>
        ensures { Steps (Some (machine.body (head_of self.old) (outer_of self.old)
            (snoc (ended_of self.old) (sequence_of (last_items self.old))) none (waiting_of self.old) machine.fresh))
            result self.new }
    {
        self.body.end_alternative()?;
        self.at = At::Fresh;
        Ok(())
    }

    // Takes a primary, which a suffix may follow.
    fn take_primary(&mut self, primary: Expr) -> Result<(), ReaderStop>
        ensures { Steps (Some (body_config self.old (machine.read (pattern_of primary)))) result self.new }
    {
        self.at = At::Read(primary);
        Ok(())
    }

    // Closes a bracket.
    fn close_bracket(&mut self) -> Result<(), ReaderStop>
        ensures { Steps (close_step (outer_of self.old) (head_of self.old)
            (finish (ended_of self.old) (last_items self.old))) result self.new }
    {
        let Some((prefix, e)) = self.body.close()? else {
            return Err(ReaderStop::Hopeless);
        };
        self.prefix = prefix;
        self.take_primary(e)
    }

    // Ends the definition that goes on.
    fn end_definition(&mut self) -> Result<(), AllocError>
        ensures { IfOk result (λ _. rules_from self.new.definitions.items ≡ ended (head_of self.old)
            (finish (ended_of self.old) (last_items self.old))) }
    {
        let body = self.body.finish()?;
        self.definitions.push(Definition {
            name: self.name,
            span: self.span,
            body,
        })?;
        Ok(())
    }

    // Begins the body of the definition of that name.
    fn begin_body(&mut self, name: &'a [u8], span: Span)
        ensures { config_of self.new ≡ machine.body (head (rules_from self.old.definitions.items) name.now span) []
            none none no_mark machine.fresh }
    {
        self.name = name;
        self.span = span;
        self.body = Body::new(self.alloc);
        self.prefix = Prefix::Nothing;
        self.at = At::Fresh;
    }

    // Takes the end.
    fn take_end(&mut self) -> Result<(), ReaderStop>
        ensures { Steps (end_step (outer_of self.old) (ended (head_of self.old)
            (finish (ended_of self.old) (last_items self.old)))) result self.new }
    {
        if self.body.depth() > 0 {
            return Err(ReaderStop::Hopeless);
        }
        self.end_definition()?;
        self.at = At::Done;
        Ok(())
    }

    // Takes a word where no suffix may stand and no prefix operator waits.
    fn take_unmarked(&mut self, word: Word<'a>) -> Result<(), ReaderStop>
        requires { self.old.prefix ≡ Prefix.Nothing }
        ensures { Steps (unmarked_step (head_of self.old) (outer_of self.old) (ended_of self.old) (last_items self.old)
            (word_of word.entry)) result self.new }
    {
        match word {
            Word::Bang => {
                self.prefix = Prefix::Not;
                self.at = At::Fresh;
                Ok(())
            }
            Word::Amp => {
                self.prefix = Prefix::And;
                self.at = At::Fresh;
                Ok(())
            }
            Word::Slash => self.end_sequence(),
            Word::RParen => self.close_bracket(),
            Word::End => self.take_end(),
            _ => Err(ReaderStop::Hopeless),
        }
    }

    // Takes a word where no suffix may stand.
    fn take_fresh(&mut self, word: Word<'a>) -> Result<(), ReaderStop>
        ensures { Steps (fresh_step (head_of self.old) (outer_of self.old) (ended_of self.old) (last_items self.old)
            (waiting_of self.old) (word_of word.entry)) result self.new }
    {
        match word {
            Word::Ident(name, span) => {
                self.at = At::Name(name, span);
                Ok(())
            }
            Word::Literal(bytes) => self.take_primary(Expr::Bytes(bytes)),
            Word::Class(members) => self.take_primary(Expr::Set(members)),
            Word::Dot => self.take_primary(Expr::Any),
            Word::Begin => self.take_primary(Expr::Open),
            Word::EndCap => self.take_primary(Expr::Close),
            Word::Action(template) => match self.prefix {
                Prefix::And => Err(ReaderStop::Hopeless),
                _ => self.take_primary(Expr::Act(template)),
            },
            Word::LParen => self.open_bracket(),
            _ => match self.prefix {
                Prefix::Nothing => self.take_unmarked(word),
                _ => Err(ReaderStop::Hopeless),
            },
        }
    }

    // Takes a word after a primary.
    fn take_suffix(&mut self, primary: Expr, word: Word<'a>) -> Result<(), ReaderStop>
        ensures { Steps (read_step (head_of self.old) (outer_of self.old) (ended_of self.old) (last_items self.old)
            (waiting_of self.old) (pattern_of primary) (word_of word.entry)) result self.new }
    {
        match word {
            Word::Quest => {
                let operand = Box::new(self.alloc, primary)?;
                self.push_item(Expr::Opt(operand))
            }
            Word::Star => {
                let operand = Box::new(self.alloc, primary)?;
                self.push_item(Expr::Star(operand))
            }
            Word::Plus => {
                let operand = Box::new(self.alloc, primary)?;
                self.push_item(Expr::Plus(operand))
            }
            _ => {
                self.push_item(primary)?;
                self.take_fresh(word)
            }
        }
    }

    // Takes a word after a name, which an arrow makes the name of the next definition.
    fn take_after_name(
        &mut self,
        name: &'a [u8],
        span: Span,
        word: Word<'a>,
    ) -> Result<(), ReaderStop>
        ensures { Steps (name_step (head_of self.old) (outer_of self.old) (ended_of self.old) (last_items self.old)
            (waiting_of self.old) name.now span (word_of word.entry)) result self.new }
    {
        match word {
            Word::Arrow => match self.prefix {
                Prefix::Nothing => {
                    if self.body.depth() > 0 {
                        return Err(ReaderStop::Hopeless);
                    }
                    self.end_definition()?;
                    self.begin_body(name, span);
                    Ok(())
                }
                _ => Err(ReaderStop::Hopeless),
            },
            _ => {
                let name = Vec::from_slice(self.alloc, name)?;
                self.take_suffix(Expr::Name(name), word)
            }
        }
    }

    /// Takes the next word. After an error nothing can be read.
    pub(crate) fn take(&mut self, word: Word<'a>) -> Result<(), ReaderStop>
        ensures { Steps (step (config_of self.old) (word_of word.entry)) result self.new }
    {
        match mem::replace(&mut self.at, At::Start) {
            At::Start => match word {
                Word::Ident(name, span) => {
                    self.at = At::Named(name, span);
                    Ok(())
                }
                _ => Err(ReaderStop::Hopeless),
            },
            At::Named(name, span) => match word {
                Word::Arrow => {
                    self.definitions = Vec::new(self.alloc);
                    self.begin_body(name, span);
                    Ok(())
                }
                _ => Err(ReaderStop::Hopeless),
            },
            At::Fresh => self.take_fresh(word),
            At::Read(primary) => self.take_suffix(primary, word),
            At::Name(name, span) => self.take_after_name(name, span, word),
            At::Done => Err(ReaderStop::Hopeless),
        }
    }

    /// Returns how many brackets are open.
    pub(crate) fn open_brackets(&self) -> usize
        ensures { result ≡ levels_in (config_of self.now) }
    {
        match self.at {
            At::Fresh | At::Read(_) | At::Name(_, _) => self.body.depth(),
            _ => 0,
        }
    }

    /// Returns the definitions after the end, and `None` before it.
    pub(crate) fn into_definitions(self) -> Option<Vec<Definition<'a>>>
        ensures done { (rules : List Rule) → config_of self.entry ≡ machine.done rules
            → MatchOption result ⊥ (λ ds. rules_from ds.items ≡ rules) }
    {
        match self.at {
            At::Done => Some(self.definitions),
            _ => None,
        }
    }
}
