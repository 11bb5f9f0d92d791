//! Where a token stands in a grammar, as far as the kinds of the tokens before it say.
ghost use Rattle.std.specs.Prelude.{◌≡◌, ◌≤◌, Some};
ghost use Rattle.lexer.specs.GrammarLimits.{max_open};
ghost use Rattle.pegprint.specs.PegStands.{closed, ended, begun, primary, unmarked};
ghost use Rattle.pegprint.specs.PegStands.{after_primary, prefixed, goes, allows};

use pegread::Kind;

/// The kind of token that was taken last.
#[derive(Clone, Copy)]
pub(crate) enum Stand {
    /// Nothing: the first definition's name is to come.
    Start,
    /// The first definition's name.
    Named,
    /// A token that an item may follow, with no prefix that waits for it.
    Fresh,
    /// `!`, which waits for its item.
    Not,
    /// `&`, which waits for its item.
    And,
    /// A primary that is no name, or what ends an item.
    Primary,
    /// A name, which may begin the next definition.
    Name,
    /// A name after a prefix.
    PrefixedName,
    /// The end.
    Done,
}

/// A position between two tokens: the state of a machine that recognizes prefixes of grammars. All brackets are of one
/// form, so it counts them.
#[derive(Clone, Copy)]
pub(crate) struct Position {
    /// The kind of token before it.
    pub(crate) stand: Stand,
    /// How many brackets are open.
    pub(crate) depth: usize,
}

fn at(stand: Stand, depth: usize) -> Option<Position>
    ensures { result ≡ Some (record { stand = stand; depth = depth }) }
{
    Some(Position { stand, depth })
}

fn close(depth: usize) -> Option<Position>
    ensures { result ≡ closed depth }
{
    if depth == 0 {
        None
    } else {
        at(Stand::Primary, depth - 1)
    }
}

fn end(depth: usize) -> Option<Position>
    ensures { result ≡ ended depth }
{
    if depth == 0 { at(Stand::Done, 0) } else { None }
}

fn begin(depth: usize) -> Option<Position>
    ensures { result ≡ begun depth }
{
    if depth == 0 {
        at(Stand::Fresh, 0)
    } else {
        None
    }
}

// After a primary that is neither a name nor an action.
fn take_primary(depth: usize, kind: Kind) -> Option<Position>
    requires { depth ≤ max_open }
    ensures { result ≡ primary depth kind }
{
    match kind {
        Kind::Literal | Kind::Class | Kind::Dot | Kind::Begin | Kind::EndCap => {
            at(Stand::Primary, depth)
        }
        Kind::LParen => at(Stand::Fresh, depth + 1),
        _ => None,
    }
}

// Where no prefix waits.
fn take_unmarked(depth: usize, kind: Kind) -> Option<Position>
    requires { depth ≤ max_open }
    ensures { result ≡ unmarked depth kind }
{
    match kind {
        Kind::Ident => at(Stand::Name, depth),
        Kind::Action => at(Stand::Primary, depth),
        Kind::Bang => at(Stand::Not, depth),
        Kind::Amp => at(Stand::And, depth),
        Kind::Slash => at(Stand::Fresh, depth),
        Kind::RParen => close(depth),
        Kind::End => end(depth),
        _ => take_primary(depth, kind),
    }
}

// After a primary.
fn take_after(depth: usize, kind: Kind) -> Option<Position>
    requires { depth ≤ max_open }
    ensures { result ≡ after_primary depth kind }
{
    match kind {
        Kind::Quest | Kind::Star | Kind::Plus => at(Stand::Fresh, depth),
        _ => take_unmarked(depth, kind),
    }
}

fn take_prefixed(depth: usize, kind: Kind, may_act: bool) -> Option<Position>
    requires { depth ≤ max_open }
    ensures { result ≡ prefixed depth kind may_act }
{
    match kind {
        Kind::Ident => at(Stand::PrefixedName, depth),
        Kind::Action => {
            if may_act {
                at(Stand::Primary, depth)
            } else {
                None
            }
        }
        _ => take_primary(depth, kind),
    }
}

impl Position {
    pub(crate) fn start() -> Position
        ensures { result ≡ record { stand = Stand.Start; depth = 0 } }
    {
        Position {
            stand: Stand::Start,
            depth: 0,
        }
    }

    /// Returns the position after a token of the kind, if one can stand here.
    pub(crate) fn after(self, kind: Kind) -> Option<Position>
        requires { self.depth ≤ max_open }
        ensures { result ≡ goes self.stand self.depth kind }
    {
        match self.stand {
            Stand::Start => match kind {
                Kind::Ident => at(Stand::Named, self.depth),
                _ => None,
            },
            Stand::Named => match kind {
                Kind::Arrow => at(Stand::Fresh, self.depth),
                _ => None,
            },
            Stand::Fresh => take_unmarked(self.depth, kind),
            Stand::Not => take_prefixed(self.depth, kind, true),
            Stand::And => take_prefixed(self.depth, kind, false),
            Stand::Primary | Stand::PrefixedName => take_after(self.depth, kind),
            Stand::Name => match kind {
                Kind::Arrow => begin(self.depth),
                _ => take_after(self.depth, kind),
            },
            Stand::Done => None,
        }
    }

    /// Returns whether a token of the kind can stand here.
    pub(crate) fn allows(self, kind: Kind) -> bool
        requires { self.depth ≤ max_open }
        ensures { result ≡ allows self kind }
    {
        self.after(kind).is_some()
    }
}
