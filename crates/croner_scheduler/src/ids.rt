//! The ids of the places.
ghost use Rattle.std.specs.Prelude.{◌≡◌, ℕ, ◌≤◌, ◌<◌, ◌+◌, ◌-◌, ◌∷◌, ◌++◌, ◌^◌, [], max, length, vec_len, vec_capacity, slice_index_or, IfOk, IfSome, IfNone, OnOk, OnErr, false};
ghost use Rattle.std.specs.BTreeMap.{is_at};
ghost use Rattle.std.specs.List.{AllByRecursion};
ghost use Rattle.std.specs.List.Sorted.{IsStrictlySortedBy};
ghost use Rattle.std.specs.Map.Iter.{TakesFirst};
ghost use Rattle.std.specs.Ordering.{nat_cmp};
ghost use Rattle.croner_scheduler.specs.Private.Places.{ids_from};
ghost use Rattle.croner_scheduler.specs.Room.{row_room};

use crate::room::{room_in, take_room};
use std::alloc::{AllocError, Global};
use std::marker::Model;
use std::{slice, vec};

// Ids that rise, and the next one. As long as no place was taken out they follow one another up to the next one, and the first stands for
// them all; from then on each is listed.
#[derive(Drop)]
pub(crate) struct Ids {
    alloc: Global,
    first: u64,
    next: u64,
    listed: Option<Vec<u64>>,
}

impl Model for Ids {
    ghost use Rattle.std.specs.Prelude.{◌≤◌};
    ghost use Rattle.croner_scheduler.specs.Private.Places.{IdRow, ids_of, id_room};

    ghost Value = { IdRow };

    ghost view = { λ a. record {
      items = ids_of a.first a.next a.listed;
      next = a.next;
      room = id_room a.listed;
    } };

    ghost invariant = { λ a. a.first ≤ a.next };
}

impl Ids {
    // No ids, with the next one.
    pub(crate) fn new(alloc: Global, next: u64) -> Ids
        ensures items { result.items ≡ [] }
        ensures next { result.next ≡ next }
    {
        Ids {
            alloc,
            first: next,
            next,
            listed: None,
        }
    }

    // The next id.
    pub(crate) fn next(&self) -> u64
        ensures { result ≡ self.now.next }
    {
        self.next
    }

    // The place of an id.
    pub(crate) fn place_of(&self, id: u64) -> Option<usize>
        ensures found { IfSome result (λ place. (place < length self.now.items) × (slice_index_or self.now.items place 0 ≡ id)) }
        ensures none { IfNone result (IsStrictlySortedBy nat_cmp self.now.items → AllByRecursion (λ other. is_at (nat_cmp id) other ≡ false) self.now.items) }
    {
        match &self.listed {
            Some(ids) => place_among(ids, id),
            None => place_between(self.first, self.next, id),
        }
    }

    // The lowest id that isn't below another.
    pub(crate) fn first_from(&self, id: u64) -> Option<u64>
        ensures from { IfSome result (λ k. IsStrictlySortedBy nat_cmp self.now.items → id ≤ k) }
        ensures there { IfSome result (λ k. (place : ℕ) × (place < length self.now.items) × (slice_index_or self.now.items place 0 ≡ k)) }
        ensures between { IfSome result (λ k. IsStrictlySortedBy nat_cmp self.now.items → (other : ℕ) → id ≤ other → other < k
            → AllByRecursion (λ item. is_at (nat_cmp other) item ≡ false) self.now.items) }
        ensures none { IfNone result (IsStrictlySortedBy nat_cmp self.now.items → (other : ℕ) → id ≤ other
            → AllByRecursion (λ item. is_at (nat_cmp other) item ≡ false) self.now.items) }
    {
        match &self.listed {
            Some(ids) => first_among(ids, id),
            None => first_following(self.first, self.next, id),
        }
    }

    // The ids.
    pub(crate) fn iter(&self) -> IdsIter<'_>
        ensures { result ≡ self.now.items }
    {
        IdsIter {
            first: self.first,
            next: self.next,
            listed: self.listed.as_ref().map(|ids| ids.iter()),
        }
    }

    // The ids, handed over.
    pub(crate) fn into_iter(self) -> IdsIntoIter
        ensures { result ≡ self.items }
    {
        let Ids {
            alloc: _,
            first,
            next,
            listed,
        } = self;
        IdsIntoIter {
            first,
            next,
            listed: listed.map(|ids| ids.into_iter()),
        }
    }

    // For how many more there is room: for any number, where they aren't listed.
    pub(crate) fn room(&self) -> usize
        ensures { result ≡ self.now.room }
    {
        match &self.listed {
            Some(ids) => room_in(ids),
            None => usize::MAX,
        }
    }

    // Takes room for so many more.
    pub(crate) fn reserve(&mut self, additional: usize) -> Result<(), AllocError>
        ensures items { self.new.items ≡ self.old.items }
        ensures next { self.new.next ≡ self.old.next }
        ensures no_less { self.old.room ≤ self.new.room }
        ensures taken { OnOk result (self.new.room ≡ max self.old.room additional) }
        ensures full { OnErr result (self.old.room < additional) }
    {
        match &mut self.listed {
            Some(ids) => ids.reserve_exact(additional),
            None => Ok(()),
        }
    }

    // Takes room for one more.
    pub(crate) fn take_room(&mut self) -> Result<(), AllocError>
        ensures items { self.new.items ≡ self.old.items }
        ensures next { self.new.next ≡ self.old.next }
        ensures room { OnOk result (0 < self.new.room) }
        ensures no_less { self.old.room ≤ self.new.room }
        ensures full { OnErr result (self.old.room ≡ 0) }
    {
        match &mut self.listed {
            Some(ids) => take_room(ids),
            None => Ok(()),
        }
    }

    // Puts the next id behind the others, and returns it.
    #[tactic(auto, using(crate::proofs::FollowingIds::next_behind))]
    pub(crate) fn push(&mut self) -> u64
        requires room { 0 < self.old.room }
        requires next { self.old.next < 2 ^ 64 - 1 }
        ensures id { result ≡ self.old.next }
        ensures items { self.new.items ≡ self.old.items ++ self.old.next ∷ [] }
        ensures next { self.new.next ≡ self.old.next + 1 }
        ensures room { self.old.room ≤ self.new.room + 1 }
    {
        let id = self.next;
        if let Some(ids) = &mut self.listed {
            ids.push_reserved(id);
        }
        self.next = id + 1;
        id
    }

    // The ids as a list, which are to be put back.
    pub(crate) fn take_list(&mut self) -> Result<Vec<u64>, AllocError>
        ensures list { IfOk result (λ list. list.items ≡ self.old.items) }
        ensures next { self.new.next ≡ self.old.next }
        ensures same { OnErr result (self.new ≡ self.old) }
    {
        match self.listed.take() {
            Some(ids) => Ok(ids),
            None => list_between(self.alloc, self.first, self.next),
        }
    }

    // Puts a list in place of the ids.
    pub(crate) fn put_list(&mut self, ids: Vec<u64>)
        ensures items { self.new.items ≡ ids.items }
        ensures next { self.new.next ≡ self.old.next }
    {
        self.listed = Some(ids);
    }
}

// The place of an id, of those from the first one up to the next.
fn place_between(first: u64, next: u64, id: u64) -> Option<usize>
    requires { first ≤ next }
    ensures found { IfSome result (λ place. (place < length (ids_from first (next - first))) × (slice_index_or (ids_from first (next - first)) place 0 ≡ id)) }
    ensures none { IfNone result (AllByRecursion (λ other. is_at (nat_cmp id) other ≡ false) (ids_from first (next - first))) }
{
    if first <= id && id < next {
        Some((id - first) as usize)
    } else {
        None
    }
}

// The lowest id that isn't below another, of those from the first one up to the next.
fn first_following(first: u64, next: u64, id: u64) -> Option<u64>
    requires { first ≤ next }
    ensures from { IfSome result (λ k. id ≤ k) }
    ensures there { IfSome result (λ k. (place : ℕ) × (place < length (ids_from first (next - first))) × (slice_index_or (ids_from first (next - first)) place 0 ≡ k)) }
    ensures between { IfSome result (λ k. (other : ℕ) → id ≤ other → other < k
        → AllByRecursion (λ item. is_at (nat_cmp other) item ≡ false) (ids_from first (next - first))) }
    ensures none { IfNone result ((other : ℕ) → id ≤ other → AllByRecursion (λ item. is_at (nat_cmp other) item ≡ false) (ids_from first (next - first))) }
{
    let lowest = id.max(first);
    if lowest < next { Some(lowest) } else { None }
}

// The same, of those that are listed.
fn first_among(ids: &[u64], id: u64) -> Option<u64>
    ensures from { IfSome result (λ k. IsStrictlySortedBy nat_cmp ids.now → id ≤ k) }
    ensures there { IfSome result (λ k. (place : ℕ) × (place < length ids.now) × (slice_index_or ids.now place 0 ≡ k)) }
    ensures between { IfSome result (λ k. IsStrictlySortedBy nat_cmp ids.now → (other : ℕ) → id ≤ other → other < k
        → AllByRecursion (λ item. is_at (nat_cmp other) item ≡ false) ids.now) }
    ensures none { IfNone result (IsStrictlySortedBy nat_cmp ids.now → (other : ℕ) → id ≤ other → AllByRecursion (λ item. is_at (nat_cmp other) item ≡ false) ids.now) }
{
    match ids.binary_search(&id) {
        Ok(_) => Some(id),
        Err(place) => ids.get(place).copied(),
    }
}

// The place of an id, of those that are listed: its distance from the first id, where no place was taken out between the two.
fn place_among(ids: &[u64], id: u64) -> Option<usize>
    ensures found { IfSome result (λ place. (place < length ids.now) × (slice_index_or ids.now place 0 ≡ id)) }
    ensures none { IfNone result (IsStrictlySortedBy nat_cmp ids.now → AllByRecursion (λ other. is_at (nat_cmp id) other ≡ false) ids.now) }
{
    if let Some(first) = ids.first() {
        let guess = id.saturating_sub(*first) as usize;
        if guess < ids.len() && ids[guess] == id {
            return Some(guess);
        }
    }
    match ids.binary_search(&id) {
        Ok(place) => Some(place),
        Err(_) => None,
    }
}

// The ids from the first one up to the next.
#[tactic(auto, using(crate::proofs::FollowingIds::next_behind))]
fn list_between(alloc: Global, first: u64, next: u64) -> Result<Vec<u64>, AllocError>
    requires { first ≤ next }
    ensures { IfOk result (λ ids. ids.items ≡ ids_from first (next - first)) }
{
    let mut ids = Vec::with_capacity(alloc, (next - first) as usize)?;
    for id in first..next {
        ids.push_reserved(id);
    }
    Ok(ids)
}

// The ids that are left.
#[derive(Drop)]
pub(crate) struct IdsIter<'a> {
    first: u64,
    next: u64,
    listed: Option<slice::Iter<'a, u64>>,
}

impl<'a> Model for IdsIter<'a> {
    ghost use Rattle.std.specs.Prelude.{List, ℕ, ◌≤◌};
    ghost use Rattle.croner_scheduler.specs.Private.Places.{ids_left};

    ghost Value = { List ℕ };

    ghost view = { λ a. ids_left a.first a.next a.listed };

    ghost invariant = { λ a. a.first ≤ a.next };
}

impl<'a> IdsIter<'a> {
    // The next id that is left.
    pub(crate) fn next(&mut self) -> Option<u64>
        ensures { TakesFirst (λ id. id) self.old result self.new }
    {
        match &mut self.listed {
            Some(ids) => ids.next().copied(),
            None => first_between(&mut self.first, self.next),
        }
    }
}

// The ids that are left, handed over.
#[derive(Drop)]
pub(crate) struct IdsIntoIter {
    first: u64,
    next: u64,
    listed: Option<vec::IntoIter<u64, Global>>,
}

impl Model for IdsIntoIter {
    ghost use Rattle.std.specs.Prelude.{List, ℕ, ◌≤◌};
    ghost use Rattle.croner_scheduler.specs.Private.Places.{ids_to_give};

    ghost Value = { List ℕ };

    ghost view = { λ a. ids_to_give a.first a.next a.listed };

    ghost invariant = { λ a. a.first ≤ a.next };
}

impl IdsIntoIter {
    // The next id that is left.
    pub(crate) fn next(&mut self) -> Option<u64>
        ensures { TakesFirst (λ id. id) self.old result self.new }
    {
        match &mut self.listed {
            Some(ids) => ids.next(),
            None => first_between(&mut self.first, self.next),
        }
    }
}

// The first id of those up to the next, which is passed then.
fn first_between(first: &mut u64, next: u64) -> Option<u64>
    requires { first.old ≤ next }
    ensures taken { TakesFirst (λ id. id) (ids_from first.old (next - first.old)) result (ids_from first.new (next - first.new)) }
    ensures before { first.new ≤ next }
{
    if *first == next {
        return None;
    }
    let id = *first;
    *first = id + 1;
    Some(id)
}
