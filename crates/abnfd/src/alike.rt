//! Rules of two grammars that are alike: the same text, but for the case of names.
ghost use Rattle.std.specs.Prelude.{◌≡◌, ℕ, Bool, IfOk, Some, slice_get};
ghost use Rattle.abnfd.specs.UnchangedRules.{AreAlike, AreBodiesAlike, ArePaired, ArePairs, IsAlike};
ghost use Rattle.abnfread.specs.AbnfViews.{element_of, elements_of, rules_of};
ghost use Rattle.abnfread.specs.Element as element;

use abnfread::Elem;
use fixpoint::{Need, are_needs_within, least};
use ruletable::{Memory, NameCase, RuleTable};
use std::alloc::Global;

// Returns whether two bounds are none, or the same one.
fn is_same_bound(a: Option<u32>, b: Option<u32>) -> bool
    ensures { result ≡ Bool.true → a ≡ b }
{
    match (a, b) {
        (None, None) => true,
        (Some(n), Some(m)) => n == m,
        (None, Some(_)) | (Some(_), None) => false,
    }
}

// Returns whether an element is that text.
fn is_text(folds: bool, text: &[u8], e: &Elem) -> bool
    ensures { result ≡ Bool.true → element_of e.now ≡ element.Text folds text.now }
{
    match e {
        Elem::Text {
            folds: other_folds,
            text: other,
        } => folds == *other_folds && text == other.as_slice(),
        _ => false,
    }
}

// Returns whether an element has these values.
fn has_values(values: &[u32], e: &Elem) -> bool
    ensures { result ≡ Bool.true → element_of e.now ≡ element.Values values.now }
{
    match e {
        Elem::Values(others) => values == others.as_slice(),
        _ => false,
    }
}

// Returns whether an element is that range.
fn is_range(low: u32, high: u32, e: &Elem) -> bool
    ensures { result ≡ Bool.true → element_of e.now ≡ element.Range low high }
{
    match e {
        Elem::Range {
            low: other_low,
            high: other_high,
        } => low == *other_low && high == *other_high,
        _ => false,
    }
}

/// Two tables of rules, and of each old rule the new one that it is paired with.
#[derive(Clone, Copy)]
pub(crate) struct Pairing<'a> {
    /// The old rules.
    pub(crate) old: &'a RuleTable<Elem>,
    /// The new rules.
    pub(crate) new: &'a RuleTable<Elem>,
    /// Of each old rule the id of the new one that it is paired with, if there is one.
    pub(crate) partners: &'a [Option<usize>],
}

impl Pairing<'_> {
    // Returns whether the rules of two names are paired. `Memory` if an allocation fails.
    fn are_paired(&self, name: &[u8], other: &[u8]) -> Result<bool, Memory>
        requires old { self.now.old.now.names ≡ NameCase.Fold }
        requires new { self.now.new.now.names ≡ NameCase.Fold }
        ensures { IfOk result (λ paired. paired ≡ Bool.true → ArePaired (rules_of self.now.old.now)
            (rules_of self.now.new.now) self.now.partners.now name.now other.now) }
    {
        let Some(id) = self.old.find(name)? else {
            return Ok(false);
        };
        let Some(new_id) = self.new.find(other)? else {
            return Ok(false);
        };
        match self.partners.get(id) {
            Some(Some(partner)) => Ok(*partner == new_id),
            _ => Ok(false),
        }
    }
}

impl Pairing<'_> {
    // Returns whether two elements are alike. `Memory` if an allocation fails.
    #[cycle(comparing)]
    fn are_alike(&self, e: &Elem, d: &Elem) -> Result<bool, Memory>
        requires old { self.now.old.now.names ≡ NameCase.Fold }
        requires new { self.now.new.now.names ≡ NameCase.Fold }
        ensures { IfOk result (λ alike. alike ≡ Bool.true → IsAlike (ArePaired (rules_of self.now.old.now)
            (rules_of self.now.new.now) self.now.partners.now) (element_of e.now) (element_of d.now)) }
    {
        match e {
            Elem::Text { folds, text } => Ok(is_text(*folds, text, d)),
            Elem::Values(values) => Ok(has_values(values, d)),
            Elem::Range { low, high } => Ok(is_range(*low, *high, d)),
            Elem::Concat(members) => match d {
                Elem::Concat(others) => self.all_alike(members, others),
                _ => Ok(false),
            },
            Elem::Alt(alternatives) => match d {
                Elem::Alt(others) => self.all_alike(alternatives, others),
                _ => Ok(false),
            },
            Elem::Rep {
                least,
                most,
                operand,
            } => self.is_alike_rep(*least, *most, operand, d),
            Elem::Opt(operand) => match d {
                Elem::Opt(other) => self.are_alike(operand, other),
                _ => Ok(false),
            },
            Elem::Name(name) => match d {
                Elem::Name(other) => self.are_paired(name, other),
                _ => Ok(false),
            },
            Elem::Prose(_) => Ok(false),
        }
    }

    // Returns whether an element is like that repetition. `Memory` if an allocation fails.
    #[cycle(comparing)]
    fn is_alike_rep(
        &self,
        least: u32,
        most: Option<u32>,
        operand: &Elem,
        d: &Elem,
    ) -> Result<bool, Memory>
        requires old { self.now.old.now.names ≡ NameCase.Fold }
        requires new { self.now.new.now.names ≡ NameCase.Fold }
        ensures { IfOk result (λ alike. alike ≡ Bool.true → IsAlike (ArePaired (rules_of self.now.old.now)
            (rules_of self.now.new.now) self.now.partners.now) (element.Rep least most (element_of operand.now))
            (element_of d.now)) }
    {
        let Elem::Rep {
            least: other_least,
            most: other_most,
            operand: other,
        } = d
        else {
            return Ok(false);
        };
        if least != *other_least || !is_same_bound(most, *other_most) {
            return Ok(false);
        }
        self.are_alike(operand, other)
    }

    // Returns whether these elements are as many as the others, and each like that at its place. `Memory` if an
    // allocation fails.
    #[cycle(comparing)]
    fn all_alike(&self, members: &[Elem], others: &[Elem]) -> Result<bool, Memory>
        requires old { self.now.old.now.names ≡ NameCase.Fold }
        requires new { self.now.new.now.names ≡ NameCase.Fold }
        ensures { IfOk result (λ alike. alike ≡ Bool.true → AreAlike (ArePaired (rules_of self.now.old.now)
            (rules_of self.now.new.now) self.now.partners.now) (elements_of members.now) (elements_of others.now)) }
    {
        if members.len() != others.len() {
            return Ok(false);
        }
        for (i, member) in members.iter().enumerate() {
            if !self.are_alike(member, &others[i])? {
                return Ok(false);
            }
        }
        Ok(true)
    }
}

impl Pairing<'_> {
    /// Returns whether an old rule is paired with a new one, and their bodies are alike. `Memory` if an allocation
    /// fails.
    fn is_alike_pair(&self, id: usize) -> Result<bool, Memory>
        requires old { self.now.old.now.names ≡ NameCase.Fold }
        requires new { self.now.new.now.names ≡ NameCase.Fold }
        ensures { IfOk result (λ alike. (other : ℕ) → alike ≡ Bool.true →
            slice_get self.now.partners.now id ≡ Some (Some other) →
            AreBodiesAlike (rules_of self.now.old.now) (rules_of self.now.new.now) self.now.partners.now id other) }
    {
        let Some(Some(other)) = self.partners.get(id) else {
            return Ok(false);
        };
        if id >= self.old.len() || *other >= self.new.len() {
            return Ok(false);
        }
        self.are_alike(self.old.body(id), self.new.body(*other))
    }

    /// Returns whether the bodies of all pairs are alike. `Memory` if an allocation fails.
    fn are_pairs_alike(&self) -> Result<bool, Memory>
        requires old { self.now.old.now.names ≡ NameCase.Fold }
        requires new { self.now.new.now.names ≡ NameCase.Fold }
        ensures { IfOk result (λ alike. alike ≡ Bool.true →
            ArePairs (rules_of self.now.old.now) (rules_of self.now.new.now) self.now.partners.now) }
    {
        for id in 0..self.partners.len() {
            if self.partners[id].is_some() && !self.is_alike_pair(id)? {
                return Ok(false);
            }
        }
        Ok(true)
    }
}

// Adds the ids of the names in an element that have a rule. `Memory` if an allocation fails.
#[cycle(naming)]
fn add_ids(rules: &RuleTable<Elem>, e: &Elem, row: &mut Vec<usize>) -> Result<(), Memory> {
    match e {
        Elem::Name(name) => {
            if let Some(id) = rules.find(name)? {
                row.push(id)?;
            }
            Ok(())
        }
        Elem::Concat(members) => add_all_ids(rules, members, row),
        Elem::Alt(alternatives) => add_all_ids(rules, alternatives, row),
        Elem::Rep { operand, .. } => add_ids(rules, operand, row),
        Elem::Opt(operand) => add_ids(rules, operand, row),
        Elem::Text { .. } => Ok(()),
        Elem::Values(_) => Ok(()),
        Elem::Range { .. } => Ok(()),
        Elem::Prose(_) => Ok(()),
    }
}

// Adds the ids of the names in each of them in turn. `Memory` if an allocation fails.
#[cycle(naming)]
fn add_all_ids(
    rules: &RuleTable<Elem>,
    members: &[Elem],
    row: &mut Vec<usize>,
) -> Result<(), Memory> {
    for member in members {
        add_ids(rules, member, row)?;
    }
    Ok(())
}

// Returns of each rule the ids of the names in its body. `Memory` if an allocation fails.
fn used_ids(alloc: Global, rules: &RuleTable<Elem>) -> Result<Vec<Vec<usize>>, Memory> {
    let mut rows = Vec::new(alloc);
    for id in 0..rules.len() {
        let mut row = Vec::new(alloc);
        add_ids(rules, rules.body(id), &mut row)?;
        rows.push(row)?;
    }
    Ok(rows)
}

// Returns of each old rule the new one of its name, if there is one. `Memory` if an allocation fails.
fn partners_by_name(
    alloc: Global,
    old: &RuleTable<Elem>,
    new: &RuleTable<Elem>,
) -> Result<Vec<Option<usize>>, Memory> {
    let mut partners = Vec::new(alloc);
    for id in 0..old.len() {
        partners.push(new.find(old.name(id))?)?;
    }
    Ok(partners)
}

// Marks the old rules that have no partner, or another body, and those that reach one. `Memory` if an allocation fails.
fn changed_rules(
    alloc: Global,
    pairing: &Pairing<'_>,
    rows: &[Vec<usize>],
) -> Result<Vec<bool>, Memory>
    requires old { pairing.now.old.now.names ≡ NameCase.Fold }
    requires new { pairing.now.new.now.names ≡ NameCase.Fold }
{
    let mut needs = Vec::new(alloc);
    for (id, row) in rows.iter().enumerate() {
        if pairing.is_alike_pair(id)? {
            needs.push(Need::One(row))?;
        } else {
            needs.push(Need::All(&[]))?;
        }
    }
    if !are_needs_within(&needs) {
        return Ok(Vec::new(alloc));
    }
    Ok(least(alloc, &needs)?)
}

// Keeps the pairs of the rules whose mark is there and not set.
fn keep_unmarked(marks: &[bool], partners: &mut [Option<usize>]) {
    for (id, partner) in partners.iter_mut().enumerate() {
        if *marks.get(id).unwrap_or(&true) {
            *partner = None;
        }
    }
}

/// Pairs each old rule with the new rule of its name if they are the same text but for the case of names, and so are
/// all rules that they reach. The time is linear but for finding names. `Memory` if an allocation fails.
pub(crate) fn unchanged_pairs(
    alloc: Global,
    old: &RuleTable<Elem>,
    new: &RuleTable<Elem>,
) -> Result<Vec<Option<usize>>, Memory>
    requires old { old.now.names ≡ NameCase.Fold }
    requires new { new.now.names ≡ NameCase.Fold }
    ensures { IfOk result (λ partners. ArePairs (rules_of old.now) (rules_of new.now) partners.items) }
{
    let rows = used_ids(alloc, old)?;
    let mut partners = partners_by_name(alloc, old, new)?;
    let named = Pairing {
        old,
        new,
        partners: partners.as_slice(),
    };
    let changed = changed_rules(alloc, &named, &rows)?;
    keep_unmarked(&changed, &mut partners);
    let kept = Pairing {
        old,
        new,
        partners: partners.as_slice(),
    };
    if kept.are_pairs_alike()? {
        return Ok(partners);
    }
    Ok(Vec::new(alloc))
}
