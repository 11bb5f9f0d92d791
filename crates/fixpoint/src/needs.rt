//! The least set of numbers that contains each number whose need it meets.
ghost use Rattle.std.specs.Prelude.{◌≡◌, ◌↔◌, ℕ, ◌<◌, Bool, List, [], ◌∷◌, length, map, replicate, IfOk};
ghost use Rattle.fixpoint.specs.Demands.{Demand, demand_of, demands_of, row_of, AreNeedsWithin, AreNeedsWithinTo};
ghost use Rattle.fixpoint.specs.Demands.{IsDerived};
ghost use Rattle.fixpoint.specs.NeedCounts.{count_of, counts_of, AreUsers, IsQueue, Reported, IsComing};
ghost use Rattle.fixpoint.specs.Least.{AreThoseThatCome, AreMarksOfThose};
ghost use Rattle.fixpoint.specs.NumberMarks.{AreBelow};
ghost use Rattle.fixpoint.specs.StepRows.{row_at};
ghost use Rattle.fixpoint.specs.UserLists.{AreLists, AddsAll, HoldUsers, AreListsWithin};

use crate::marks::marks_of;
use crate::rows::are_below;
use std::alloc::{AllocError, Global};

/// The condition on which a number enters the set: the body of a Horn clause (Dowling and Gallier 1984).
#[derive(Clone, Copy)]
pub enum Need<'a> {
    /// All of these numbers must be in the set.
    All(&'a [usize]),
    /// One of these numbers must be in the set.
    One(&'a [usize]),
}

impl<'a> Need<'a> {
    // Returns the numbers that it names.
    fn row(&self) -> &'a [usize]
        ensures { result.now ≡ row_of (demand_of self.now) }
    {
        match self {
            Need::All(row) | Need::One(row) => row,
        }
    }

    // Returns how many of its numbers must be in the set.
    fn count(&self) -> usize
        ensures { result ≡ count_of (demand_of self.now) }
    {
        match self {
            Need::All(row) => row.len(),
            Need::One(_) => 1,
        }
    }
}

/// Returns whether each need names only numbers that have needs, which are the numbers less than `needs.len()`.
pub fn are_needs_within(needs: &[Need]) -> bool
    ensures { (result ≡ Bool.true) ↔ AreNeedsWithin (demands_of needs.now) }
{
    for need in needs {
        if !are_below(need.row(), needs.len()) {
            return false;
        }
    }
    true
}

// Returns for each need how many of its numbers must be in the set.
fn counts(alloc: Global, needs: &[Need]) -> Result<Vec<usize>, AllocError>
    ensures { IfOk result (λ counts. counts.items ≡ counts_of (demands_of needs.now)) }
{
    let mut counts = Vec::new(alloc);
    for need in needs {
        counts.push(need.count())?;
    }
    Ok(counts)
}

/// An entry of a list.
#[derive(Clone, Copy)]
struct ListEntry {
    /// The number that stands in the list.
    user: usize,
    /// One more than the index of the next entry, or 0 at the end of the list.
    next: usize,
}

/// For each number the list of the numbers that need it, as often as they name it. The lists share one vector: a vector
/// for each of them would take several times the memory.
#[derive(Drop)]
struct Users {
    /// Of each number one more than the index of its list's first entry, or 0 if its list is empty.
    firsts: Vec<usize>,
    /// The entries of all lists.
    links: Vec<ListEntry>,
}

impl Users {
    // Returns `count` empty lists.
    fn new(alloc: Global, count: usize) -> Result<Users, AllocError>
        ensures { IfOk result (λ users. AreLists users (replicate count [])) }
    {
        Ok(Users {
            firsts: vec![in alloc; 0; count]?,
            links: Vec::new(alloc),
        })
    }

    // Puts `n` before the list of `m`.
    fn add(&mut self, m: usize, n: usize) -> Result<(), AllocError>
        requires { m < length self.old.firsts.items }
        ensures { IfOk result (λ _. AddsAll (m ∷ []) n self.old self.new) }
    {
        self.links.push(ListEntry {
            user: n,
            next: self.firsts[m],
        })?;
        self.firsts[m] = self.links.len();
        Ok(())
    }

    // Puts `n` before the list of each number in `row`, which `n` needs.
    fn add_all(&mut self, n: usize, row: &[usize]) -> Result<(), AllocError>
        requires { AreBelow row.now (length self.old.firsts.items) }
        ensures { IfOk result (λ _. AddsAll row.now n self.old self.new) }
    {
        for m in row {
            self.add(*m, n)?;
        }
        Ok(())
    }
}

// Returns for each number the list of the numbers that need it, as often as they name it.
fn users_of(alloc: Global, needs: &[Need]) -> Result<Users, AllocError>
    requires { AreNeedsWithin (demands_of needs.now) }
    ensures { IfOk result (λ users. HoldUsers (demands_of needs.now) users) }
{
    let mut users = Users::new(alloc, needs.len())?;
    for n in 0..needs.len() {
        users.add_all(n, needs[n].row())?;
    }
    Ok(users)
}

// Returns the numbers that need nothing more.
fn ready(alloc: Global, left: &[usize]) -> Result<Vec<usize>, AllocError>
    ensures { IfOk result (λ order. IsQueue left.now order.items) }
{
    let mut order = Vec::new(alloc);
    for n in 0..left.len() {
        if left[n] == 0 {
            order.push(n)?;
        }
    }
    Ok(order)
}

// Takes one off what `n` still needs, and appends `n` to the order if that was the last.
fn lower(n: usize, left: &mut [usize], order: &mut Vec<usize>) -> Result<(), AllocError>
    requires within { n < length left.old }
    requires queue { IsQueue left.old order.old.items }
    ensures { IfOk result (λ _. Reported (n ∷ []) left.old order.old.items left.new order.new.items) }
{
    let before = left[n];
    if before > 0 {
        left[n] = before - 1;
    }
    if before == 1 {
        order.push(n)?;
    }
    Ok(())
}

// Takes one off what each number of the list of `m` still needs.
fn report(
    users: &Users,
    m: usize,
    left: &mut [usize],
    order: &mut Vec<usize>,
) -> Result<(), AllocError>
    requires m { m < length users.now.firsts.items }
    requires lists { AreListsWithin users.now (length left.old) }
    requires queue { IsQueue left.old order.old.items }
    ensures { IfOk result (λ _. (rows : List (List ℕ)) → AreLists users.now rows
        → Reported (row_at rows m) left.old order.old.items left.new order.new.items) }
{
    let mut at = users.firsts[m];
    while at > 0 {
        let link = users.links[at - 1];
        lower(link.user, left, order)?;
        at = link.next;
    }
    Ok(())
}

// Goes through the order, which grows, and takes each number off what its users still need.
fn run(users: &Users, left: &mut [usize], order: &mut Vec<usize>) -> Result<(), AllocError>
    requires count { length users.now.firsts.items ≡ length left.old }
    requires lists { AreListsWithin users.now (length left.old) }
    requires queue { IsQueue left.old order.old.items }
    ensures { IfOk result (λ _. (needs : List Demand) (rows : List (List ℕ)) → AreLists users.now rows
        → AreUsers needs rows → IsComing needs left.old order.old.items 0 → IsDerived needs order.new.items) }
{
    let mut position = 0;
    while position < order.len() {
        report(users, order[position], left, order)?;
        position += 1;
    }
    Ok(())
}

/// Returns the least set of numbers that contains each number whose need it meets, in an order in which each number
/// stands after numbers that meet its need.
///
/// The time is linear in needs and the numbers that they name.
///
/// # Errors
/// `AllocError` if an allocation fails.
pub fn derive(alloc: Global, needs: &[Need]) -> Result<Vec<usize>, AllocError>
    requires { AreNeedsWithin (demands_of needs.now) }
    ensures { IfOk result (λ order. IsDerived (demands_of needs.now) order.items) }
{
    let users = users_of(alloc, needs)?;
    let mut left = counts(alloc, needs)?;
    let mut order = ready(alloc, &left)?;
    run(&users, &mut left, &mut order)?;
    Ok(order)
}

/// Marks the least set of numbers that contains each number whose need it meets.
///
/// `needs[n]` is the need of `n`. The time is linear in needs and the numbers that they name.
///
/// # Errors
/// `AllocError` if an allocation fails.
pub fn least(alloc: Global, needs: &[Need]) -> Result<Vec<bool>, AllocError>
    requires { AreNeedsWithin (demands_of needs.now) }
    ensures count { IfOk result (λ marks. length marks.items ≡ length needs.now) }
    ensures marks { IfOk result (λ marks. AreMarksOfThose (demands_of needs.now) marks.items) }
{
    let order = derive(alloc, needs)?;
    marks_of(alloc, needs.len(), &order)
}
