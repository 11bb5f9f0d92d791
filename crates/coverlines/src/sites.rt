//! The elements within an element, each with a shortest context.
ghost use Rattle.std.specs.Prelude.{◌≡◌, ◌++◌, List, IfOk, length, map};
ghost use Rattle.abnfread.specs.AbnfViews.{element_of, elements_of};
ghost use Rattle.abnfread.specs.Element.{Alt, Concat, Rule};
ghost use Rattle.coverlines.specs.KnownWords.{AreKnownOf, AreWords};
ghost use Rattle.coverlines.specs.Sites.{AreSites, AreSitesTo, MayAddSites, OtherRounds, stood_in, stood_of};
ghost use Rattle.coverlines.specs.Shortest.{IsShortest};

use crate::context::LineContext;
use crate::short::repeated;
use crate::words::{Words, allows, shortest, shortest_all};
use abnfread::Elem;
use ruletable::Memory;
use std::alloc::Global;

/// An element in a body, with a context in which it stands there.
#[derive(Drop)]
pub(crate) struct Site<'a> {
    pub(crate) elem: &'a Elem,
    pub(crate) context: LineContext,
}

// Adds sites, each with what stands round all of them.
fn add_wrapped<'a>(
    alloc: Global,
    outer: &LineContext,
    inner: &[Site<'a>],
    found: &mut Vec<Site<'a>>,
) -> Result<(), Memory>
    ensures { IfOk result (λ _. map stood_of found.new.items ≡ map stood_of found.old.items
        ++ map (stood_in outer.now.before.items outer.now.after.items) (map stood_of inner.now)) }
{
    for site in inner {
        let context = outer.around(alloc, &site.context)?;
        found.push(Site {
            elem: site.elem,
            context,
        })?;
    }
    Ok(())
}

// Adds the sites of an operand, if both lists that stand round it are there.
#[cycle(sites)]
fn add_inner<'a>(
    alloc: Global,
    words: &Words<'_>,
    operand: &'a Elem,
    front: Option<Vec<u32>>,
    back: Option<Vec<u32>>,
    found: &mut Vec<Site<'a>>,
) -> Result<(), Memory>
    requires { AreWords words.now }
    ensures { IfOk result (λ _. (rules : List Rule) → AreKnownOf words.now rules
        → MayAddSites words.now.bounds rules (element_of operand.now) front back (map stood_of found.old.items)
        (map stood_of found.new.items)) }
{
    let Some(before) = front else {
        return Ok(());
    };
    let Some(after) = back else {
        return Ok(());
    };
    let inner = sites(alloc, words, operand)?;
    add_wrapped(alloc, &LineContext { before, after }, &inner, found)
}

// Adds the sites of members.
#[cycle(sites)]
fn add_members<'a>(
    alloc: Global,
    words: &Words<'_>,
    members: &'a [Elem],
    found: &mut Vec<Site<'a>>,
) -> Result<(), Memory>
    requires { AreWords words.now }
    ensures { IfOk result (λ _. (rules : List Rule) → AreKnownOf words.now rules
        → AreSitesTo words.now.bounds rules (Concat (elements_of members.now)) 0 (map stood_of found.old.items)
        → AreSitesTo words.now.bounds rules (Concat (elements_of members.now)) (length members.now)
        (map stood_of found.new.items)) }
{
    for (i, member) in members.iter().enumerate() {
        let front = shortest_all(alloc, words, &members[..i])?;
        let back = shortest_all(alloc, words, &members[i + 1..])?;
        add_inner(alloc, words, member, front, back, found)?;
    }
    Ok(())
}

// Adds the sites of alternatives.
#[cycle(sites)]
fn add_alternatives<'a>(
    alloc: Global,
    words: &Words<'_>,
    alternatives: &'a [Elem],
    found: &mut Vec<Site<'a>>,
) -> Result<(), Memory>
    requires { AreWords words.now }
    ensures { IfOk result (λ _. (rules : List Rule) → AreKnownOf words.now rules
        → AreSitesTo words.now.bounds rules (Alt (elements_of alternatives.now)) 0 (map stood_of found.old.items)
        → AreSitesTo words.now.bounds rules (Alt (elements_of alternatives.now)) (length alternatives.now)
        (map stood_of found.new.items)) }
{
    for alternative in alternatives {
        let front = Vec::new(alloc);
        let back = Vec::new(alloc);
        add_inner(alloc, words, alternative, Some(front), Some(back), found)?;
    }
    Ok(())
}

/// Returns a shortest list of the rounds of a repetition after the first one, of as few as may be.
pub(crate) fn other_rounds(
    alloc: Global,
    words: &Words<'_>,
    least: u32,
    most: Option<u32>,
    operand: &Elem,
) -> Result<Option<Vec<u32>>, Memory>
    requires { AreWords words.now }
    ensures { IfOk result (λ w. (rules : List Rule) → AreKnownOf words.now rules
        → IsShortest (OtherRounds words.now.bounds rules least most (element_of operand.now)) words.now.bounds.limit
        w) }
{
    let rounds = u64::from(least.max(1));
    if !allows(least, most, rounds) {
        return Ok(None);
    }
    let round = shortest(alloc, words, operand)?;
    repeated(alloc, words.bounds.limit, round, rounds - 1)
}

// Adds the sites of the operands of an element.
#[cycle(sites)]
fn add_operands<'a>(
    alloc: Global,
    words: &Words<'_>,
    e: &'a Elem,
    found: &mut Vec<Site<'a>>,
) -> Result<(), Memory>
    requires { AreWords words.now }
    ensures { IfOk result (λ _. (rules : List Rule) → AreKnownOf words.now rules
        → AreSitesTo words.now.bounds rules (element_of e.now) 0 (map stood_of found.old.items)
        → AreSites words.now.bounds rules (element_of e.now) (map stood_of found.new.items)) }
{
    match e {
        Elem::Concat(members) => add_members(alloc, words, members, found),
        Elem::Alt(alternatives) => add_alternatives(alloc, words, alternatives, found),
        Elem::Rep {
            least,
            most,
            operand,
        } => {
            let back = other_rounds(alloc, words, *least, *most, operand)?;
            let front = Vec::new(alloc);
            add_inner(alloc, words, operand, Some(front), back, found)
        }
        Elem::Opt(operand) => {
            let front = Vec::new(alloc);
            let back = Vec::new(alloc);
            add_inner(alloc, words, operand, Some(front), Some(back), found)
        }
        Elem::Text { .. } | Elem::Values(_) | Elem::Range { .. } | Elem::Name(_) | Elem::Prose(_) =>
            Ok(()),
    }
}

/// Returns the elements within an element, itself last.
#[cycle(sites)]
pub(crate) fn sites<'a>(
    alloc: Global,
    words: &Words<'_>,
    e: &'a Elem,
) -> Result<Vec<Site<'a>>, Memory>
    requires { AreWords words.now }
    ensures { IfOk result (λ found. (rules : List Rule) → AreKnownOf words.now rules
        → AreSites words.now.bounds rules (element_of e.now) (map stood_of found.items)) }
{
    let mut found = Vec::new(alloc);
    let context = LineContext::empty(alloc);
    found.push(Site { elem: e, context })?;
    add_operands(alloc, words, e, &mut found)?;
    let own = found.len().min(1);
    found.rotate_left(own);
    Ok(found)
}
