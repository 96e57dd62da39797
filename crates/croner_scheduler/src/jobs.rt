//! The jobs by their ids.
ghost use Rattle.std.specs.Prelude.{◌≡◌, ◌⊎◌, ◌≤◌, ◌<◌, ◌+◌, ◌-◌, ◌^◌, min, max, map, [], ℕ, length, is_some, option_map, vec_len, vec_capacity, IfOk, IfErr, IfSome, IfNone, OnOk, OnErr, Some, None, cond, if◌then◌else◌};
ghost use Rattle.std.specs.BTreeMap.{is_at};
ghost use Rattle.std.specs.List.Sorted.{IsStrictlySortedBy};
ghost use Rattle.std.specs.Map.{keys_of};
ghost use Rattle.std.specs.Option.{option_copied};
ghost use Rattle.std.specs.Ordering.{nat_cmp};
ghost use Rattle.croner_scheduler.specs.Ids.{job_of, parts_entry};
ghost use Rattle.croner_scheduler.specs.Private.Places.{entries_in, AreInRow, PutsInFront};
ghost use Rattle.croner_scheduler.specs.Private.Steps.{jobs_with, job_at_position, job_standing_at, job_with_next, is_awaited_at, stop_len, ArePartsOf};
ghost use Rattle.croner_scheduler.specs.Room.{row_room, FewGone};
ghost use Rattle.croner_scheduler.specs.Stops.{stops_in};

use crate::ids::Ids;
use crate::into_jobs::IntoJobs;
use crate::iter::Iter;
use crate::room::{has_many_gone, room_in, take_room};
use crate::turns::Turn;
use crate::waiting::{Next, Waiting};
use std::alloc::{AllocError, Global};
use std::marker::Model;
use std::mem;

// Jobs under ids that rise. Each id that was given has a place, in the order of the ids, and that of a job that was removed is empty.
// Empty places are taken out where another job needs room and an eighth of the places is empty: so there are few of them, and a job costs
// the same however many there are.
#[derive(Drop)]
pub(crate) struct Jobs<J, T> {
    ids: Ids,
    places: Vec<Option<Waiting<J, T>>>,
    count: usize,
    stopped: usize,
}

impl<J, T> Model for Jobs<J, T> {
    ghost use Rattle.std.specs.Prelude.{◌≡◌, length, min};
    ghost use Rattle.croner_scheduler.specs.Ids.{ById};
    ghost use Rattle.croner_scheduler.specs.declared.waiting.Waiting.{Waiting};
    ghost use Rattle.croner_scheduler.specs.Private.Places.{entries_in, ArePlaces};
    ghost use Rattle.croner_scheduler.specs.Room.{row_room};
    ghost use Rattle.croner_scheduler.specs.Stops.{stops_in};

    ghost Value = { ById (Waiting J T) };

    ghost view = { λ a. record {
      entries = entries_in a.ids.items a.places.items;
      next_id = a.ids.next;
      room = min a.ids.room (row_room a.places);
    } };

    ghost invariant = { λ a. ArePlaces a.ids.items a.places.items a.count a.ids.next × (a.stopped ≡ length (stops_in (entries_in a.ids.items a.places.items))) };
}

impl<J, T> Jobs<J, T> {
    // No jobs, with the id of the next one.
    pub(crate) fn new(alloc: Global, next_id: u64) -> Jobs<J, T>
        ensures entries { result.entries ≡ [] }
        ensures next_id { result.next_id ≡ next_id }
    {
        Jobs {
            ids: Ids::new(alloc, next_id),
            places: Vec::new(alloc),
            count: 0,
            stopped: 0,
        }
    }

    // How many jobs there are.
    pub(crate) fn len(&self) -> usize
        ensures { result ≡ length self.now.entries }
    {
        self.count
    }

    // How many of them are stopped.
    pub(crate) fn stopped(&self) -> usize
        ensures { result ≡ length (stops_in self.now.entries) }
    {
        self.stopped
    }

    // The lowest id that has a place and isn't below another. Each job has such an id.
    pub(crate) fn id_from(&self, id: u64) -> Option<u64>
        ensures found { IfSome result (λ k. (id ≤ k) × (k < self.now.next_id)) }
        ensures between { IfSome result (λ k. (other : ℕ) → id ≤ other → other < k → job_of self.now other ≡ None) }
        ensures none { IfNone result ((other : ℕ) → id ≤ other → job_of self.now other ≡ None) }
    {
        self.ids.first_from(id)
    }

    // The id of the next job.
    pub(crate) fn next_id(&self) -> u64
        ensures next_id { result ≡ self.now.next_id }
        ensures unused { (id : ℕ) → result ≤ id → job_of self.now id ≡ None }
    {
        self.ids.next()
    }

    // The job of an id.
    pub(crate) fn get(&self, id: u64) -> Option<&Waiting<J, T>>
        ensures { option_copied result ≡ job_of self.now id }
    {
        match self.ids.place_of(id) {
            Some(place) => self.places[place].as_ref(),
            None => None,
        }
    }

    // Whether the next run of a job is that of a turn.
    pub(crate) fn is_awaiting(&self, turn: Turn) -> bool
        ensures { result ≡ is_awaited_at turn.second (job_of self.now turn.id) }
    {
        match self.get(turn.id) {
            Some(waiting) => waiting.runs_at(turn.second),
            None => false,
        }
    }

    // The jobs with their ids.
    pub(crate) fn iter(&self) -> Iter<'_, J, T>
        ensures entries { result ≡ self.now.entries }
        ensures ordered { IsStrictlySortedBy nat_cmp (keys_of self.now.entries) }
    {
        Iter {
            ids: self.ids.iter(),
            places: self.places.iter(),
        }
    }

    // The jobs with their ids and positions, handed over.
    pub(crate) fn into_jobs(self) -> IntoJobs<J, T>
    where
        J: Drop,
        T: Drop,
        ensures entries { result ≡ map parts_entry self.entries }
        ensures ordered { IsStrictlySortedBy nat_cmp (keys_of self.entries) }
    {
        let Jobs {
            ids,
            places,
            count: _,
            stopped: _,
        } = self;
        IntoJobs {
            ids: ids.into_iter(),
            places: places.into_iter(),
        }
    }

    // Keeps a job under the next id, and returns the id; or gives the job back for lack of memory.
    pub(crate) fn add(&mut self, waiting: Waiting<J, T>) -> Result<u64, Waiting<J, T>>
    where
        J: Drop,
        T: Drop,
        requires { self.old.next_id < 2 ^ 64 - 1 }
        ensures id { IfOk result (λ id. id ≡ self.old.next_id) }
        ensures unused { OnOk result (job_of self.old self.old.next_id ≡ None) }
        ensures jobs { OnOk result ((other : ℕ) → job_of self.new other ≡ cond (is_at (nat_cmp self.old.next_id) other) (Some waiting) (job_of self.old other)) }
        ensures count { OnOk result (length self.new.entries ≡ length self.old.entries + 1) }
        ensures next_id { OnOk result (self.new.next_id ≡ self.old.next_id + 1) }
        ensures returned { IfErr result (λ returned. returned ≡ waiting) }
        ensures room { OnOk result (self.old.room ≤ self.new.room + 1) }
        ensures full { OnErr result (self.old.room ≡ 0) }
        ensures same { OnErr result ((self.new.entries ≡ self.old.entries) × (self.new.next_id ≡ self.old.next_id)) }
    {
        let Ok(()) = make_room(&mut self.ids, &mut self.places, self.count) else {
            return Err(waiting);
        };
        let place = Some(waiting);
        self.stopped += stop_len(&place);
        let id = self.ids.push();
        self.places.push_reserved(place);
        self.count += 1;
        Ok(id)
    }

    // For how many more jobs there is room.
    pub(crate) fn room(&self) -> usize
        ensures room { result ≡ self.now.room }
        ensures fits { length self.now.entries + result < 2 ^ 64 }
    {
        self.ids.room().min(room_in(&self.places))
    }

    // Takes room for so many more jobs.
    pub(crate) fn reserve(&mut self, additional: usize) -> Result<(), AllocError>
        ensures same { (self.new.entries ≡ self.old.entries) × (self.new.next_id ≡ self.old.next_id) }
        ensures no_less { self.old.room ≤ self.new.room }
        ensures taken { OnOk result (self.new.room ≡ max self.old.room additional) }
        ensures full { OnErr result (self.old.room < additional) }
    {
        self.ids.reserve(additional)?;
        self.places.reserve_exact(additional)
    }

    // Removes a job.
    pub(crate) fn remove(&mut self, id: u64) -> Option<Waiting<J, T>>
        ensures removed { result ≡ job_of self.old id }
        ensures jobs { (other : ℕ) → job_of self.new other ≡ cond (is_at (nat_cmp id) other) None (job_of self.old other) }
        ensures count { length self.new.entries + (if is_some result then 1 else 0) ≡ length self.old.entries }
        ensures next_id { self.new.next_id ≡ self.old.next_id }
        ensures room { self.new.room ≡ self.old.room }
    {
        let place = self.ids.place_of(id)?;
        self.stopped -= stop_len(&self.places[place]);
        let waiting = self.places[place].take();
        self.count -= usize::from(waiting.is_some());
        waiting
    }

    // One job moves to another position.
    pub(crate) fn move_to(&mut self, id: u64, position: T, next: Next)
    where
        T: Drop,
        ensures jobs { (other : ℕ) → job_of self.new other ≡ jobs_with id (job_at_position position next) other (job_of self.old other) }
        ensures count { length self.new.entries ≡ length self.old.entries }
        ensures next_id { self.new.next_id ≡ self.old.next_id }
        ensures room { self.new.room ≡ self.old.room }
    {
        if let Some(place) = self.ids.place_of(id) {
            let others = self.stopped - stop_len(&self.places[place]);
            move_to(&mut self.places[place], position, next);
            self.stopped = others + stop_len(&self.places[place]);
        }
    }

    // One job moves to another position, with the same run next.
    pub(crate) fn move_before_next(&mut self, id: u64, position: T)
    where
        T: Drop,
        ensures jobs { (other : ℕ) → job_of self.new other ≡ jobs_with id (job_standing_at position) other (job_of self.old other) }
        ensures count { length self.new.entries ≡ length self.old.entries }
        ensures next_id { self.new.next_id ≡ self.old.next_id }
        ensures room { self.new.room ≡ self.old.room }
    {
        if let Some(place) = self.ids.place_of(id) {
            move_before_next(&mut self.places[place], position);
        }
    }

    // One job has another run next.
    pub(crate) fn renew(&mut self, id: u64, next: Next)
        ensures jobs { (other : ℕ) → job_of self.new other ≡ jobs_with id (job_with_next next) other (job_of self.old other) }
        ensures count { length self.new.entries ≡ length self.old.entries }
        ensures next_id { self.new.next_id ≡ self.old.next_id }
        ensures room { self.new.room ≡ self.old.room }
    {
        if let Some(place) = self.ids.place_of(id) {
            let others = self.stopped - stop_len(&self.places[place]);
            renew(&mut self.places[place], next);
            self.stopped = others + stop_len(&self.places[place]);
        }
    }

    // Puts a job in the place of another, and returns the other with its position; or returns the new job, if there is none to replace.
    pub(crate) fn exchange(
        &mut self,
        id: u64,
        other: Waiting<J, T>,
    ) -> Result<(J, T), Waiting<J, T>>
    where
        T: Drop,
        ensures parts { IfOk result (ArePartsOf (job_of self.old id)) }
        ensures returned { IfErr result (λ returned. (returned ≡ other) × (job_of self.old id ≡ None)) }
        ensures jobs { (at : ℕ) → job_of self.new at ≡ jobs_with id (λ _. other) at (job_of self.old at) }
        ensures count { length self.new.entries ≡ length self.old.entries }
        ensures next_id { self.new.next_id ≡ self.old.next_id }
        ensures room { self.new.room ≡ self.old.room }
    {
        match self.ids.place_of(id) {
            Some(place) => {
                let others = self.stopped - stop_len(&self.places[place]);
                let out = exchange(&mut self.places[place], other);
                self.stopped = others + stop_len(&self.places[place]);
                out
            }
            None => Err(other),
        }
    }
}

// How many of the job of a place, if it has one, are stopped.
fn stop_len<J, T>(place: &Option<Waiting<J, T>>) -> usize
    ensures { result ≡ stop_len place.now }
{
    match place {
        Some(waiting) if waiting.is_stopped() => 1,
        Some(_) | None => 0,
    }
}

fn move_to<J, T: Drop>(place: &mut Option<Waiting<J, T>>, position: T, next: Next)
    ensures { place.new ≡ option_map (job_at_position position next) place.old }
{
    if let Some(waiting) = place {
        waiting.move_to(position, next);
    }
}

fn move_before_next<J, T: Drop>(place: &mut Option<Waiting<J, T>>, position: T)
    ensures { place.new ≡ option_map (job_standing_at position) place.old }
{
    if let Some(waiting) = place {
        waiting.move_before_next(position);
    }
}

fn renew<J, T>(place: &mut Option<Waiting<J, T>>, next: Next)
    ensures { place.new ≡ option_map (job_with_next next) place.old }
{
    if let Some(waiting) = place {
        waiting.renew(next);
    }
}

fn exchange<J, T: Drop>(
    place: &mut Option<Waiting<J, T>>,
    other: Waiting<J, T>,
) -> Result<(J, T), Waiting<J, T>>
    ensures parts { IfOk result (ArePartsOf place.old) }
    ensures returned { IfErr result (λ returned. (returned ≡ other) × (place.old ≡ None)) }
    ensures after { place.new ≡ option_map (λ _. other) place.old }
{
    match place {
        Some(waiting) => Ok(mem::replace(waiting, other).into_parts()),
        None => Err(other),
    }
}

// Makes room for one more place.
fn make_room<J: Drop, T: Drop>(
    ids: &mut Ids,
    places: &mut Vec<Option<Waiting<J, T>>>,
    count: usize,
) -> Result<(), AllocError>
    requires { length ids.old.items ≡ length places.old.items }
    ensures kept { AreInRow ids.old.items places.old.items ids.new.items places.new.items }
    ensures next_id { ids.new.next ≡ ids.old.next }
    ensures room { OnOk result ((0 < ids.new.room) × (vec_len places.new < vec_capacity places.new)) }
    ensures no_less { min ids.old.room (row_room places.old) ≤ min ids.new.room (row_room places.new) }
    ensures full { OnErr result (min ids.old.room (row_room places.old) ≡ 0) }
    ensures unlisted { vec_len places.old ≤ count → ids.old.room ≤ ids.new.room }
    ensures few_gone { OnOk result (count ≡ length (entries_in ids.old.items places.old.items) → (vec_len places.old < vec_capacity places.old) ⊎ FewGone (vec_len places.new) count) }
{
    thin_out(ids, places, count)?;
    ids.take_room()?;
    take_room(places)
}

// Takes out the empty places where there is no room for another and an eighth of the places is empty. The ids are listed then, for which
// memory may lack; where no place is empty they stay as they are.
#[tactic(auto, using(crate::proofs::TakenOut::same_row))]
fn thin_out<J: Drop, T: Drop>(
    ids: &mut Ids,
    places: &mut Vec<Option<Waiting<J, T>>>,
    count: usize,
) -> Result<(), AllocError>
    requires { length ids.old.items ≡ length places.old.items }
    ensures row { AreInRow ids.old.items places.old.items ids.new.items places.new.items }
    ensures next_id { ids.new.next ≡ ids.old.next }
    ensures no_less { min ids.old.room (row_room places.old) ≤ min ids.new.room (row_room places.new) }
    ensures full { OnErr result (min ids.old.room (row_room places.old) ≡ 0) }
    ensures unlisted { vec_len places.old ≤ count → ids.old.room ≤ ids.new.room }
    ensures few_gone { OnOk result (count ≡ length (entries_in ids.old.items places.old.items) → (vec_len places.old < vec_capacity places.old) ⊎ FewGone (vec_len places.new) count) }
{
    if has_many_gone(places.len(), places.capacity(), count) {
        let mut listed = ids.take_list()?;
        take_out_empty(&mut listed, places);
        ids.put_list(listed);
    }
    Ok(())
}

// Takes out the empty places.
fn take_out_empty<J: Drop, T: Drop>(ids: &mut Vec<u64>, places: &mut Vec<Option<Waiting<J, T>>>)
    requires { length ids.old.items ≡ length places.old.items }
    ensures row { AreInRow ids.old.items places.old.items ids.new.items places.new.items }
    ensures full { length places.new.items ≡ length (entries_in ids.new.items places.new.items) }
{
    let mut kept = 0;
    for place in 0..places.len() {
        kept = put_in_front(ids, places, kept, place);
    }
    ids.truncate(kept);
    places.truncate(kept);
}

// Puts the job of a place behind the first ones, if there is a job; returns how many are in front then.
fn put_in_front<J, T>(
    ids: &mut Vec<u64>,
    places: &mut Vec<Option<Waiting<J, T>>>,
    kept: usize,
    place: usize,
) -> usize
    requires { (kept ≤ place) × (place < length places.old.items) × (length ids.old.items ≡ length places.old.items) }
    ensures { PutsInFront ids.old.items places.old.items kept place ids.new.items places.new.items result }
{
    if places[place].is_none() {
        return kept;
    }
    ids[kept] = ids[place];
    places.swap(kept, place);
    kept + 1
}
