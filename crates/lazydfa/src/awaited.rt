//! The parts of rules that can come next, by walks from the stacks that a symbol leads to.
ghost use Rattle.std.specs.Prelude.{◌≡◌, ◌↔◌, ◌⊎◌, ◌<◌, ◌≤◌, ℕ, true, List, [], IfOk, IfSome, length, slice_get, Some};
ghost use Rattle.std.specs.Prelude.{Contains};
ghost use Rattle.flatgrammar.specs.CalledParts.{IsPartOf};
ghost use Rattle.flatgrammar.specs.Positions.{In};
ghost use Rattle.flatgrammar.specs.declared.closure.DottedRule.{DottedRule as the_dot};
ghost use Rattle.flatgrammar.specs.declared.tables.Tables.{Tables as the_tables};
ghost use Rattle.lazydfa.specs.declared.cache.State.{State};
ghost use Rattle.lazydfa.specs.Conts.{AreKept, AreOlder, IsStackOf, LedBy, ReadsFrom};
ghost use Rattle.lazydfa.specs.Memos.{IsMemo};
ghost use Rattle.lazydfa.specs.NameWalks.{AddsParts, IsWalkedOver, WalkGoes};
ghost use Rattle.lazydfa.specs.StackSuffixes.{AreSuffixes, below_of};
ghost use Rattle.flatgrammar.specs.Stacks.{Lifted};

use crate::close::{Ids, add, cont_at, empty};
use crate::conts::{Cont, Conts};
use crate::memo::Memo;
use crate::transition::read_all;
use crate::walks::walk;
use flatgrammar::{DottedRule, Tables, part_of};
use ruletable::Memory;
use std::alloc::Global;

// Adds the part of the dotted rule on top of a continuation, if it has one.
fn add_part(tables: &Tables, cont: Cont, parts: &mut Vec<DottedRule>) -> Result<(), Memory>
    ensures { IfOk result (λ done. (s : the_dot) → In s parts.new.items
        ↔ (In s parts.old.items ⊎ IsPartOf tables.now cont.node cont.step s)) }
{
    let dot = DottedRule {
        node: cont.node,
        step: cont.step,
    };
    if let Some(part) = part_of(tables, dot) {
        parts.push(part)?;
    }
    Ok(())
}

// Adds the parts of the dotted rules on top of continuations.
fn add_parts(
    tables: &Tables,
    conts: &Conts,
    ids: &[usize],
    parts: &mut Vec<DottedRule>,
) -> Result<(), Memory>
    requires within { (id : ℕ) → Contains ids.now id → id ≤ length conts.now.items.items }
    requires older { AreOlder conts.now.items.items }
    ensures { IfOk result (λ done. AddsParts tables.now (IsStackOf conts.now.items.items ids.now) parts.old.items
        parts.new.items) }
{
    for id in ids {
        if *id > 0 {
            add_part(tables, cont_at(conts, *id), parts)?;
        }
    }
    Ok(())
}

// Walks on from continuations, and from each suffix below them once what stands on it has ended. Adds the parts on
// top; returns whether that takes no more than it may.
fn walk_down(
    tables: &Tables,
    conts: &mut Conts,
    ids: &mut Ids,
    suffixes: &[usize],
    parts: &mut Vec<DottedRule>,
) -> Result<bool, Memory>
    requires within { (id : ℕ) → Contains ids.old.items.items id → (0 < id) × (id ≤ length conts.old.items.items) }
    requires older { AreOlder conts.old.items.items }
    requires suffixes { AreSuffixes conts.old.items.items suffixes.now }
    ensures kept { IfOk result (λ whole. AreKept conts.old.items.items conts.new.items.items) }
    ensures parts { IfOk result (λ whole. whole ≡ true → AddsParts tables.now (IsWalkedOver tables.now
        conts.old.items.items ids.old.items.items suffixes.now) parts.old.items parts.new.items) }
{
    let mut left = suffixes.len();
    for _ in 0..=suffixes.len() {
        let Some(ended) = walk(tables, conts, ids)? else {
            return Ok(false);
        };
        add_parts(tables, conts, &ids.items, parts)?;
        if !ended || left == 0 {
            return Ok(true);
        }
        left -= 1;
        empty(ids);
        add(ids, suffixes[left])?;
    }
    Ok(false)
}

/// Returns the parts on top of the stacks that a symbol leads to from a state, over the suffixes below it. `None` if
/// there is no such state, or that takes more than it may. `Memory` if an allocation fails; the memo is of no use then.
pub(crate) fn parts_after(
    alloc: Global,
    tables: &Tables,
    memo: &mut Memo,
    state: usize,
    value: u32,
) -> Result<Option<Vec<DottedRule>>, Memory>
    requires memo { (samples : List ℕ) × IsMemo tables.now samples memo.old }
    requires suffixes { AreSuffixes memo.old.cache.conts.items.items memo.old.suffixes.items }
    ensures memo { IfOk result (λ reported. (samples : List ℕ) → IsMemo tables.now samples memo.old
        → IsMemo tables.now samples memo.new) }
    ensures parts { IfOk result (λ reported. IfSome reported (λ parts. (got : State)
        → slice_get memo.old.cache.states.items state ≡ Some got
        → AddsParts tables.now (λ v. LedBy (WalkGoes tables.now)
        (Lifted (ReadsFrom tables.now value memo.old.cache.conts.items.items got.tops.items)
        (below_of memo.old.cache.conts.items.items memo.old.suffixes.items)) v) [] parts.items)) }
{
    let cache = &mut memo.cache;
    if state >= cache.states.len() {
        return Ok(None);
    }
    let tops = cache.states[state].tops.as_slice();
    empty(&mut cache.ids);
    read_all(tables, tops, value, &mut cache.conts, &mut cache.ids)?;
    let mut parts = Vec::new(alloc);
    let whole = walk_down(
        tables,
        &mut cache.conts,
        &mut cache.ids,
        &memo.suffixes,
        &mut parts,
    )?;
    if whole { Ok(Some(parts)) } else { Ok(None) }
}
