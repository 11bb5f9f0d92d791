//! Where a token of ABNF stands in a grammar, as far as the kinds of the tokens before it say.
ghost use Rattle.std.specs.Prelude.{◌≡◌, [], OnOk};
ghost use Rattle.abnfexplain.specs.AbnfStands.{is_item, is_inner, allows, allows_read, next_stand, brackets_after};

use abnfread::AbnfKind;
use ruletable::Memory;
use std::alloc::Global;

/// The kind of token that was taken last.
#[derive(Clone, Copy)]
pub(crate) enum Stand {
    /// Nothing: the first rule's name is to come.
    Start,
    /// A rule's name.
    Named,
    /// A token that a repetition must follow.
    Fresh,
    /// A repeat, which waits for its element.
    Awaits,
    /// A repetition.
    Read,
    /// The end.
    Done,
}

/// A bracket that is open.
#[derive(Clone, Copy)]
pub(crate) enum OpenBracket {
    Paren,
    Brack,
}

/// The form of a token: all that the machine reads of it.
#[derive(Clone, Copy)]
pub(crate) struct Form {
    /// Its kind.
    pub(crate) kind: AbnfKind,
    /// Whether white space stands before it.
    pub(crate) gap: bool,
    /// Whether it is the first of a line that begins a rule.
    pub(crate) first: bool,
}

// Whether it begins an element.
fn begins_inner(kind: AbnfKind) -> bool
    ensures { result ≡ is_inner kind }
{
    match kind {
        AbnfKind::Name
        | AbnfKind::Text
        | AbnfKind::Num
        | AbnfKind::Prose
        | AbnfKind::LParen
        | AbnfKind::LBrack => true,
        _ => false,
    }
}

// Whether it begins a repetition.
fn begins_item(kind: AbnfKind) -> bool
    ensures { result ≡ is_item kind }
{
    match kind {
        AbnfKind::Repeat => true,
        _ => begins_inner(kind),
    }
}

// Whether it closes the innermost bracket, or ends where none is open.
fn allows_after(top: Option<OpenBracket>, kind: AbnfKind, gap: bool) -> bool
    ensures { result ≡ allows_read top kind gap }
{
    match kind {
        AbnfKind::Slash => true,
        AbnfKind::RParen => matches!(top, Some(OpenBracket::Paren)),
        AbnfKind::RBrack => matches!(top, Some(OpenBracket::Brack)),
        AbnfKind::End => top.is_none(),
        _ => gap && begins_item(kind),
    }
}

/// Returns whether such a token can stand there, where `top` is the innermost bracket that is open.
pub(crate) fn allows_form(stand: Stand, top: Option<OpenBracket>, form: Form) -> bool
    ensures { result ≡ allows stand top form }
{
    if form.first {
        return match stand {
            Stand::Start => matches!(form.kind, AbnfKind::Name),
            Stand::Read => top.is_none() && matches!(form.kind, AbnfKind::Name),
            _ => false,
        };
    }
    match stand {
        Stand::Named => matches!(form.kind, AbnfKind::Is | AbnfKind::Adds),
        Stand::Fresh => begins_item(form.kind),
        Stand::Awaits => !form.gap && begins_inner(form.kind),
        Stand::Read => allows_after(top, form.kind, form.gap),
        Stand::Start | Stand::Done => false,
    }
}

/// Returns where the next token stands, after one that can stand.
pub(crate) fn stand_after(form: Form) -> Stand
    ensures { result ≡ next_stand form }
{
    if form.first {
        return Stand::Named;
    }
    match form.kind {
        AbnfKind::Is | AbnfKind::Adds | AbnfKind::Slash | AbnfKind::LParen | AbnfKind::LBrack =>
            Stand::Fresh,
        AbnfKind::Repeat => Stand::Awaits,
        AbnfKind::End | AbnfKind::Bad => Stand::Done,
        _ => Stand::Read,
    }
}

/// A position between two tokens: the state of a pushdown machine that recognizes prefixes of grammars.
#[derive(Drop)]
pub(crate) struct Position {
    /// The kind of token before it.
    pub(crate) stand: Stand,
    /// The brackets that are open, the innermost last.
    pub(crate) brackets: Vec<OpenBracket>,
}

impl Position {
    ghost use Rattle.abnfexplain.specs.AbnfPositions.{brackets_of, position_allows, IsPositionAt};

    pub(crate) fn start(alloc: Global) -> Position
        ensures { IsPositionAt result Stand.Start [] }
    {
        Position {
            stand: Stand::Start,
            brackets: Vec::new(alloc),
        }
    }

    /// Returns whether such a token can stand here.
    pub(crate) fn allows(&self, form: Form) -> bool
        ensures { result ≡ position_allows self.now form }
    {
        allows_form(self.stand, self.brackets.last().copied(), form)
    }

    /// Goes on after such a token, which can stand here.
    ///
    /// # Errors
    /// `Memory` if an allocation fails.
    pub(crate) fn advance(&mut self, form: Form) -> Result<(), Memory>
        ensures { OnOk result
            (IsPositionAt self.new (next_stand form) (brackets_after form.kind (brackets_of self.old))) }
    {
        match form.kind {
            AbnfKind::LParen => self.brackets.push(OpenBracket::Paren)?,
            AbnfKind::LBrack => self.brackets.push(OpenBracket::Brack)?,
            AbnfKind::RParen | AbnfKind::RBrack => {
                self.brackets.pop();
            }
            _ => {}
        }
        self.stand = stand_after(form);
        Ok(())
    }
}
