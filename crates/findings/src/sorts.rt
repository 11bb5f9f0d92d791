//! The sorts of messages on a grammar that reads.
ghost use Rattle.std.specs.Prelude.{◌≡◌};
ghost use Rattle.findings.specs.MessageSorts.{sort_by_end as by_end, sort_of as the_sort};

use crate::finding::Code;

/// Which messages of a sort reject the grammar.
#[derive(Clone, Copy)]
pub(crate) enum Rank {
    /// Each.
    Rejects,
    /// None.
    Warns,
    /// In ABNF those on what the judged rule reaches, else each.
    RejectsIfReached,
}

/// A sort of messages.
#[derive(Clone, Copy)]
pub(crate) struct Sort {
    /// What they are about.
    pub(crate) code: Code,
    /// Which of them reject the grammar.
    pub(crate) rank: Rank,
}

// Returns the sort of a message on a rule, by what is said after its name.
fn sort_by_end(head: &[u8]) -> Option<Sort>
    ensures { result ≡ by_end head.now }
{
    let (code, rank) = if head.ends_with(b"' redefined") {
        (Code::Redefined, Rank::Rejects)
    } else if head.ends_with(b"' used but not defined") {
        (Code::Undefined, Rank::RejectsIfReached)
    } else if head.ends_with(b"' defined but not used") {
        (Code::Unused, Rank::Warns)
    } else if head.ends_with(b"' extended before it is defined") {
        (Code::Extended, Rank::Warns)
    } else if head.ends_with(b"' derives nothing") {
        (Code::DerivesNothing, Rank::Warns)
    } else if head.ends_with(b"' derives no line") {
        (Code::NoLine, Rank::Warns)
    } else {
        return None;
    };
    Some(Sort { code, rank })
}

/// Returns the sort of a message on a grammar that reads.
pub(crate) fn sort_of(head: &[u8]) -> Option<Sort>
    ensures { result ≡ the_sort head.now }
{
    let (code, rank) = if head.starts_with(b"rule '") {
        return sort_by_end(head);
    } else if head.starts_with(b"prose in rule '") {
        (Code::Prose, Rank::RejectsIfReached)
    } else if head.starts_with(b"possible infinite left recursion in rule '") {
        (Code::LeftRecursion, Rank::Rejects)
    } else if head.starts_with(b"possible infinite loop in rule '") {
        (Code::Loop, Rank::Rejects)
    } else if head.starts_with(b"reversed numbers in rule '") {
        (Code::Reversed, Rank::Warns)
    } else if head.starts_with(b"alternative never taken in rule '") {
        (Code::NeverTaken, Rank::Warns)
    } else if head.starts_with(b"action holds a definition in rule '") {
        (Code::HeldDefinition, Rank::Warns)
    } else if head.starts_with(b"\">\" without \"<\" in rule '") {
        (Code::NoBegin, Rank::Warns)
    } else {
        return None;
    };
    Some(Sort { code, rank })
}
