//! The items of a set, found fast.
ghost use Rattle.std.specs.Prelude.{◌≡◌, ◌↔◌, ◌+◌, ◌<◌, ◌^◌, ◌≤◌, ◌++◌, ◌∷◌, ℕ, List, [], length, slice_get, Some};
ghost use Rattle.std.specs.Prelude.{IsTrue, IfOk, OnOk, OnErr};
ghost use Rattle.flatgrammar.specs.Positions.{In};
ghost use Rattle.flatgrammar.specs.declared.flat_item.Item as code_item;
ghost use Rattle.flatgrammar.specs.declared.tables.Tables as code_flat;
ghost use Rattle.earleyitems.specs.ItemOwners.{IsOwner, AreItemsOwned};
ghost use Rattle.earleyitems.specs.ItemSets.{Adds, IsOneMore};
ghost use Rattle.earleyitems.specs.Waiting.{Chain, IsSkippedTo};
ghost use Rattle.earleyitems.specs.ItemBuckets.{item_bucket as the_item_bucket, IsLast, AreLinked, IsLinkedTo};
ghost use Rattle.earleyitems.specs.ItemBuckets.{AreWithin};
ghost use Rattle.earleyitems.specs.ItemBuckets.{AreBuckets};

use crate::item::{holds, same};
use crate::waiters::Waiter;
use flatgrammar::Item;
use ruletable::Memory;
use std::alloc::Global;
use std::marker::Model;

// So many items are looked through one by one.
const LINEAR: usize = 5;

// The buckets of a first growth.
const BUCKETS: usize = 64;

/// The items of a set beside its closures, in the order in which they were added. Contracts see a list of the items,
/// and one of their owners. An owner is the index of an item's prediction in the set of its origin.
///
/// `links` and `buckets` are a hash table over `list`. Fewer than five items are compared one by one, without links.
/// More are linked before the first search: each with the last one before it in its bucket. They stay linked while
/// there are fewer than `room`.
///
/// A bucket has the number of an item, counted from `base`. The base grows past all numbers in buckets whenever the
/// items are linked anew or removed. Then an old number counts as 0. So emptying takes no time, and `push` adds an item
/// without a link.
#[derive(Drop)]
pub(crate) struct Items {
    /// The items, each once.
    list: Vec<Item>,
    /// Of each item one more than the index of the last one before it in its bucket, or 0.
    links: Vec<usize>,
    /// Of each bucket the sum of `base`, the index of its last item, and 1; at most `base` if the bucket is empty.
    buckets: Vec<usize>,
    /// Of each item the index of its prediction in the set of its origin.
    owners: Vec<usize>,
    /// Subtracted from the number in a bucket.
    base: usize,
    /// The links serve while there are fewer items than this; 0 if the items are not linked.
    room: usize,
}

impl Model for Items {
    ghost use Rattle.std.specs.Prelude.{length, ◌≤◌};
    ghost use Rattle.earleyitems.specs.ItemBuckets.{AreBuckets};
    ghost use Rattle.earleyitems.specs.ItemLists.{ItemList};

    ghost Value = { ItemList };

    ghost view = { λ s. record { items = s.list.items; owners = s.owners.items } };

    ghost invariant = { λ s. AreBuckets s.list.items s.links.items s.buckets.items s.base s.room
        × (length s.list.items ≤ length s.owners.items) };
}

// An odd number whose products have mixed bits. It is near 2^64 by the golden ratio, and no small multiple of its last
// bits is near 0.
const MIX: usize = 11_400_714_819_323_198_059;

// The bucket of an item among that many, a power of two. The origins of one dotted rule take every fourth bucket.
#[tactic(auto, unfolding(crate::specs::ItemBuckets::item_bucket))]
#[inline(always)]
fn item_bucket(count: usize, item: Item) -> usize
    requires { 0 < count }
    ensures value { result ≡ the_item_bucket count item }
    ensures within { result < count }
{
    let position = item.node.wrapping_add(item.step);
    item.origin
        .wrapping_mul(4)
        .wrapping_add(position.wrapping_mul(MIX))
        & (count - 1)
}

// Returns whether an item stands in a list, whose last one in the same bucket is given.
#[inline(always)]
fn stands(list: &[Item], links: &[usize], last: usize, item: Item) -> bool
    requires { IsLinkedTo list.now links.now last item }
    ensures { IsTrue result ↔ In item list.now }
{
    let mut at = last;
    while at > 0 {
        if same(list[at - 1], item) {
            return true;
        }
        at = links[at - 1];
    }
    false
}

// Sets the entry of an index, which is at most one past the last.
#[inline(always)]
fn set_entry(links: &mut Vec<usize>, index: usize, link: usize) -> Result<(), Memory>
    requires { index ≤ length links.old.items }
    ensures here { IfOk result (λ done. slice_get links.new.items index ≡ Some link) }
    ensures others { (i l : ℕ) → i < index → slice_get links.new.items i ≡ Some l → slice_get links.old.items i
        ≡ Some l }
    ensures room { IfOk result (λ done. index < length links.new.items) }
    ensures long { length links.old.items ≤ length links.new.items }
{
    if index < links.len() {
        links[index] = link;
    } else {
        links.push(link)?;
    }
    Ok(())
}

// Adds an item to its bucket, whose last one is given.
#[inline(always)]
fn push(
    list: &mut Vec<Item>,
    links: &mut Vec<usize>,
    buckets: &mut [usize],
    base: usize,
    last: usize,
    item: Item,
) -> Result<(), Memory>
    requires fits { base + length list.old.items + 1 < 2 ^ 64 }
    requires linked { AreLinked (the_item_bucket (length buckets.old)) list.old.items links.old.items buckets.old base }
    requires last { IsLast (the_item_bucket (length buckets.old)) list.old.items (length list.old.items)
        (the_item_bucket (length buckets.old) item) last }
    ensures linked { AreLinked (the_item_bucket (length buckets.new)) list.new.items links.new.items buckets.new base }
    ensures pushed { IfOk result (λ done. list.new.items ≡ list.old.items ++ item ∷ []) }
    ensures short { length list.new.items ≤ length list.old.items + 1 }
{
    let bucket = item_bucket(buckets.len(), item);
    let index = list.len();
    let reported = base + index + 1;
    set_entry(links, index, last)?;
    list.push(item)?;
    buckets[bucket] = reported;
    Ok(())
}

// Adds an item unless it is there, where all are linked.
#[inline(always)]
fn insert(
    list: &mut Vec<Item>,
    links: &mut Vec<usize>,
    buckets: &mut [usize],
    base: usize,
    item: Item,
) -> Result<(), Memory>
    requires fits { base + length list.old.items + 1 < 2 ^ 64 }
    requires linked { AreLinked (the_item_bucket (length buckets.old)) list.old.items links.old.items buckets.old base }
    ensures linked { AreLinked (the_item_bucket (length buckets.new)) list.new.items links.new.items buckets.new base }
    ensures added { IfOk result (λ done. Adds (λ a. a ≡ item) list.old.items list.new.items) }
    ensures one { IfOk result (λ done. IsOneMore item list.old.items list.new.items) }
    ensures short { length list.new.items ≤ length list.old.items + 1 }
{
    let last = buckets[item_bucket(buckets.len(), item)].saturating_sub(base);
    if !stands(list, links, last, item) {
        push(list, links, buckets, base, last, item)?;
    }
    Ok(())
}

// Links all items, of which no bucket holds a number.
fn relink(
    list: &[Item],
    links: &mut [usize],
    buckets: &mut [usize],
    base: usize,
) -> Result<(), Memory>
    requires some { 0 < length buckets.old }
    requires long { length list.now ≤ length links.old }
    requires none { AreWithin [] buckets.old base }
    ensures linked { OnOk result (AreLinked (the_item_bucket (length buckets.new)) list.now links.new buckets.new
        base) }
    ensures within { AreWithin list.now buckets.new base }
    ensures count { length buckets.new ≡ length buckets.old }
{
    for i in 0..list.len() {
        let bucket = item_bucket(buckets.len(), list[i]);
        let Some(reported) = base.checked_add(i + 1) else {
            return Err(Memory);
        };
        links[i] = buckets[bucket].saturating_sub(base);
        buckets[bucket] = reported;
    }
    Ok(())
}

// Makes buckets and links for all items. There are more buckets if they were few. `Memory` if an allocation fails.
fn make_room(list: &[Item], links: &mut Vec<usize>, buckets: &mut Vec<usize>) -> Result<(), Memory>
    ensures long { OnOk result (length list.now ≤ length links.new.items) }
    ensures some { OnOk result (0 < length buckets.new.items) }
    ensures kept { (b h : ℕ) → slice_get buckets.new.items b ≡ Some h → 0 < h → slice_get buckets.old.items b ≡ Some h }
{
    if links.len() < list.len() {
        links.resize(list.len(), 0)?;
    }
    if buckets.is_empty() {
        buckets.resize(BUCKETS, 0)?;
    } else if list.len() >= buckets.len() / 2 {
        let count = buckets.len().saturating_mul(2);
        buckets.resize(count, 0)?;
    }
    Ok(())
}

// Links all items anew, of which no bucket holds a number. There are more buckets if they were few. `Memory` if an
// allocation fails.
#[inline(never)]
fn prepare(
    list: &[Item],
    links: &mut Vec<usize>,
    buckets: &mut Vec<usize>,
    base: usize,
) -> Result<(), Memory>
    requires none { AreWithin [] buckets.old.items base }
    ensures linked { OnOk result
        (AreLinked (the_item_bucket (length buckets.new.items)) list.now links.new.items buckets.new.items base) }
    ensures within { AreWithin list.now buckets.new.items base }
{
    make_room(list, links, buckets)?;
    relink(list, links, buckets, base)
}

// Links all items anew. `Memory` if an allocation fails, or if the base comes to 2^64.
fn link(
    list: &[Item],
    links: &mut Vec<usize>,
    buckets: &mut Vec<usize>,
    base: &mut usize,
    room: &mut usize,
) -> Result<(), Memory>
    requires { AreBuckets list.now links.old.items buckets.old.items base.old room.old }
    ensures buckets { AreBuckets list.now links.new.items buckets.new.items base.new room.new }
    ensures linked { OnOk result
        (AreLinked (the_item_bucket (length buckets.new.items)) list.now links.new.items buckets.new.items base.new) }
    ensures fits { OnOk result (base.new + length list.now + 1 < 2 ^ 64) }
{
    let Some(next) = base.checked_add(list.len()) else {
        return Err(Memory);
    };
    *base = next;
    *room = 0;
    prepare(list, links, buckets, next)?;
    let most = buckets.len().max(list.len() + 1);
    if next.checked_add(most).is_none() {
        return Err(Memory);
    }
    *room = buckets.len() / 2;
    Ok(())
}

// Adds an item to a few unless it is there.
#[inline(always)]
fn add_linear(list: &mut Vec<Item>, item: Item) -> Result<(), Memory>
    ensures added { IfOk result (λ done. Adds (λ a. a ≡ item) list.old.items list.new.items) }
    ensures one { IfOk result (λ done. IsOneMore item list.old.items list.new.items) }
    ensures more { (buckets : List ℕ) (base : ℕ) → AreWithin list.old.items buckets base
        → AreWithin list.new.items buckets base }
    ensures short { length list.new.items ≤ length list.old.items + 1 }
{
    if !holds(list, item) {
        list.push(item)?;
    }
    Ok(())
}

// Adds an item unless it is there.
#[inline(always)]
fn put(
    list: &mut Vec<Item>,
    links: &mut Vec<usize>,
    buckets: &mut Vec<usize>,
    base: &mut usize,
    room: &mut usize,
    item: Item,
) -> Result<(), Memory>
    requires { AreBuckets list.old.items links.old.items buckets.old.items base.old room.old }
    ensures buckets { AreBuckets list.new.items links.new.items buckets.new.items base.new room.new }
    ensures added { IfOk result (λ done. Adds (λ a. a ≡ item) list.old.items list.new.items) }
    ensures one { IfOk result (λ done. IsOneMore item list.old.items list.new.items) }
    ensures short { length list.new.items ≤ length list.old.items + 1 }
{
    if list.len() >= *room {
        if *room == 0 && list.len() < LINEAR {
            return add_linear(list, item);
        }
        link(list, links, buckets, base, room)?;
    }
    insert(list, links, buckets, *base, item)
}

// Returns true for some of the items that a list has. It takes one look.
#[inline(always)]
fn is_last(list: &[Item], buckets: &[usize], base: usize, item: Item) -> bool
    requires { AreWithin list.now buckets.now base }
    ensures { IsTrue result → In item list.now }
{
    if buckets.is_empty() {
        return false;
    }
    let last = buckets[item_bucket(buckets.len(), item)].saturating_sub(base);
    if last == 0 {
        return false;
    }
    same(list[last - 1], item)
}

// Goes along a list from a link on, and returns the link of the first item that is not seen at once to stand among the
// items, or 0.
#[inline(never)]
fn skip_last(
    waiters: &[Waiter],
    first: usize,
    list: &[Item],
    buckets: &[usize],
    base: usize,
) -> usize
    requires chain { (items : List code_item.Item) × (Chain waiters.now first items) }
    requires within { AreWithin list.now buckets.now base }
    ensures order { result ≤ first }
    ensures skipped { (items : List code_item.Item) → Chain waiters.now first items
        → IsSkippedTo waiters.now result items list.now }
{
    let mut at = first;
    while at > 0 {
        let wait = waiters[at - 1];
        if !is_last(list, buckets, base, wait.item) {
            return at;
        }
        at = wait.next;
    }
    at
}

impl Items {
    /// Returns no items. It takes no memory.
    pub(crate) fn new(alloc: Global) -> Items
        ensures { result.items ≡ [] }
    {
        Items {
            list: Vec::new(alloc),
            links: Vec::new(alloc),
            buckets: Vec::new(alloc),
            owners: Vec::new(alloc),
            base: 0,
            room: 0,
        }
    }

    /// Returns the number of items.
    pub(crate) fn len(&self) -> usize
        ensures { result ≡ length self.now.items }
    {
        self.list.len()
    }

    /// Returns the items.
    pub(crate) fn list(&self) -> &[Item]
        ensures { result.now ≡ self.now.items }
    {
        &self.list
    }

    /// Returns the item at that index.
    pub(crate) fn at(&self, index: usize) -> Item
        requires { index < length self.now.items }
        ensures { slice_get self.now.items index ≡ Some result }
    {
        self.list[index]
    }

    /// Returns the owner of the item at that index.
    pub(crate) fn owner(&self, index: usize) -> usize
        requires { index < length self.now.items }
        ensures { slice_get self.now.owners index ≡ Some result }
    {
        self.owners[index]
    }

    /// Goes along a list from a link on, and returns the link of the first item that is not seen at once to stand
    /// there, or 0.
    #[inline(always)]
    pub(crate) fn skip_from(&self, waiters: &[Waiter], first: usize) -> usize
        requires { (items : List code_item.Item) × (Chain waiters.now first items) }
        ensures order { result ≤ first }
        ensures skipped { (items : List code_item.Item) → Chain waiters.now first items
            → IsSkippedTo waiters.now result items self.now.items }
    {
        if first == 0 {
            return 0;
        }
        skip_last(waiters, first, &self.list, &self.buckets, self.base)
    }

    /// Adds an item with its owner unless the item is there. `Memory` if an allocation fails.
    #[inline(always)]
    pub(crate) fn add(&mut self, item: Item, owner: usize) -> Result<(), Memory>
        ensures added { IfOk result (λ done. Adds (λ a. a ≡ item) self.old.items self.new.items) }
        ensures owners { IfOk result (λ done. (flat : code_flat.Tables) (rows : List (List ℕ))
            → IsOwner flat rows item owner → AreItemsOwned flat rows self.old → AreItemsOwned flat rows self.new) }
    {
        set_entry(&mut self.owners, self.list.len(), owner)?;
        put(
            &mut self.list,
            &mut self.links,
            &mut self.buckets,
            &mut self.base,
            &mut self.room,
            item,
        )?;
        Ok(())
    }

    /// Adds an item with its owner after the others, and looks for none. `Memory` if an allocation fails.
    #[inline(always)]
    pub(crate) fn push(&mut self, item: Item, owner: usize) -> Result<(), Memory>
        ensures pushed { IfOk result (λ done. self.new.items ≡ self.old.items ++ item ∷ []) }
        ensures owners { IfOk result (λ done. (flat : code_flat.Tables) (rows : List (List ℕ))
            → IsOwner flat rows item owner → AreItemsOwned flat rows self.old → AreItemsOwned flat rows self.new) }
    {
        set_entry(&mut self.owners, self.list.len(), owner)?;
        self.room = 0;
        self.list.push(item)?;
        Ok(())
    }

    /// Empties it, and keeps its memory.
    pub(crate) fn clear(&mut self)
        ensures { self.new.items ≡ [] }
    {
        self.room = 0;
        match self.base.checked_add(self.list.len()) {
            Some(next) => self.base = next,
            None => {
                self.buckets.clear();
                self.base = 0;
            }
        }
        self.list.clear();
    }
}
