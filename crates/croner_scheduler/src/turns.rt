//! The turns of the next runs: by their seconds, and at one second by the ids of their jobs.
ghost use Rattle.std.specs.Prelude.{◌≡◌, ◌⊎◌, ◌<◌, ◌≤◌, ◌+◌, ℕ, ℤ, length, max, true, false, cond, is_some, OnOk, OnErr};
ghost use Rattle.std.specs.BinaryHeap.{heap_items, heap_len, heap_capacity, IsHeap, KeepsHeap};
ghost use Rattle.croner_scheduler.specs.Calls.{turn_of};
ghost use Rattle.croner_scheduler.specs.Ids.{job_of};
ghost use Rattle.croner_scheduler.specs.Private.Turns.{heap_cmp, has_turn, is_next_turn, top_of, IsFirstTurn, AreListed, AreListedBut, AreTurnsOf};
ghost use Rattle.croner_scheduler.specs.Room.{heap_room, FewGone};

use crate::jobs::Jobs;
use crate::room::{has_many_gone, room_besides};
use crate::waiting::Next;
use std::alloc::AllocError;
use std::cmp::Reverse;
use std::collections::BinaryHeap;

/// A run that is given: of which job, when, and whether the job is stopped. [`Scheduler::get`](crate::Scheduler::get) with its id gives the
/// job, and the time of the run as the job's position.
#[derive(Debug, Clone, Copy, PartialEq, Eq)]
pub struct Due {
    /// The id of its job.
    pub id: u64,
    /// Its whole second, in seconds since 1970-01-01T00:00:00 UTC; in civil time, since that date and time.
    pub second: i64,
    /// Whether its job is stopped from then on ([`Waiting::stop`](crate::Waiting::stop) says why).
    pub is_stopped: bool,
}

/// A next run: of which job, and when.
#[derive(Clone, Copy)]
pub(crate) struct Turn {
    pub(crate) id: u64,
    pub(crate) second: i64,
}

// Turns by their seconds and ids, the first one on top. Each next run has its turn there. A turn stays after its job has gone or moved, until
// it comes to the top: what is on top is always the turn of a next run.
pub(crate) type Turns = BinaryHeap<Reverse<(i64, u64)>>;

// The run of a turn, of a job that is stopped or not.
pub(crate) fn due_of(turn: Turn, is_stopped: bool) -> Due
    ensures turn { turn_of result ≡ turn }
    ensures is_stopped { result.is_stopped ≡ is_stopped }
{
    Due {
        id: turn.id,
        second: turn.second,
        is_stopped,
    }
}

// The first turn.
pub(crate) fn first_turn(turns: &Turns) -> Option<Turn>
    requires { IsHeap heap_cmp (heap_items turns.now) }
    ensures top { result ≡ top_of (heap_items turns.now) }
    ensures first { IsFirstTurn (has_turn (heap_items turns.now)) result }
{
    match turns.peek() {
        Some(turn) => Some(turn_at(turn)),
        None => None,
    }
}

fn turn_at(turn: &Reverse<(i64, u64)>) -> Turn
    ensures second { result.second ≡ turn.now.0.0 }
    ensures id { result.id ≡ turn.now.0.1 }
{
    let Reverse((second, id)) = *turn;
    Turn { id, second }
}

// Makes room for one more turn. Memory lacks only where all that have room are of jobs.
pub(crate) fn make_room<J, T>(turns: &mut Turns, jobs: &Jobs<J, T>) -> Result<(), AllocError>
    requires { AreTurnsOf (job_of jobs.now) (heap_items turns.old) }
    ensures turns { AreTurnsOf (job_of jobs.now) (heap_items turns.new) }
    ensures room { OnOk result (heap_len turns.new < heap_capacity turns.new) }
    ensures no_less { heap_capacity turns.old ≤ heap_capacity turns.new }
    ensures full { OnErr result (heap_capacity turns.old ≤ length jobs.now.entries) }
    ensures few_gone { (heap_len turns.old < heap_capacity turns.old) ⊎ FewGone (heap_len turns.new) (length jobs.now.entries) }
{
    thin_out(turns, jobs);
    match take_room(turns) {
        Ok(()) => Ok(()),
        Err(_) => take_room_of_gone(turns, jobs),
    }
}

// Puts the turns of the next runs anew, where fewer of them than have room are of jobs.
fn take_room_of_gone<J, T>(turns: &mut Turns, jobs: &Jobs<J, T>) -> Result<(), AllocError>
    requires { AreTurnsOf (job_of jobs.now) (heap_items turns.old) }
    ensures turns { AreTurnsOf (job_of jobs.now) (heap_items turns.new) }
    ensures room { OnOk result (heap_len turns.new < heap_capacity turns.new) }
    ensures no_less { heap_capacity turns.old ≤ heap_capacity turns.new }
    ensures full { OnErr result (heap_capacity turns.old ≤ length jobs.now.entries) }
    ensures few { OnOk result (heap_len turns.new ≤ length jobs.now.entries) }
    ensures same { OnErr result (heap_len turns.new ≡ heap_len turns.old) }
{
    if turns.capacity() <= jobs.len() {
        return Err(AllocError);
    }
    put_anew(turns, jobs);
    settle(turns, jobs);
    Ok(())
}

// Puts the turns of the next runs anew, where there is no room for another and an eighth of the turns is of no job.
fn thin_out<J, T>(turns: &mut Turns, jobs: &Jobs<J, T>)
    requires { AreTurnsOf (job_of jobs.now) (heap_items turns.old) }
    ensures turns { AreTurnsOf (job_of jobs.now) (heap_items turns.new) }
    ensures no_less { heap_capacity turns.old ≤ heap_capacity turns.new }
    ensures few_gone { (heap_len turns.old < heap_capacity turns.old) ⊎ FewGone (heap_len turns.new) (length jobs.now.entries) }
{
    if has_many_gone(turns.len(), turns.capacity(), jobs.len()) {
        put_anew(turns, jobs);
        settle(turns, jobs);
    }
}

// Takes room for one more.
fn take_room(turns: &mut Turns) -> Result<(), AllocError>
    ensures turns { heap_items turns.new ≡ heap_items turns.old }
    ensures len { heap_len turns.new ≡ heap_len turns.old }
    ensures room { OnOk result (heap_len turns.new < heap_capacity turns.new) }
    ensures no_less { heap_capacity turns.old ≤ heap_capacity turns.new }
{
    if turns.len() < turns.capacity() {
        return Ok(());
    }
    turns.reserve_exact(room_besides(turns.len()))
}

// Puts the turns of the next runs in place of all turns. There has to be room for that many.
fn put_anew<J, T>(turns: &mut Turns, jobs: &Jobs<J, T>)
    requires { length jobs.now.entries ≤ heap_capacity turns.old }
    ensures ordered { IsHeap heap_cmp (heap_items turns.new) }
    ensures listed { AreListed (job_of jobs.now) (heap_items turns.new) }
    ensures few { heap_len turns.new ≤ length jobs.now.entries }
    ensures no_less { heap_capacity turns.old ≤ heap_capacity turns.new }
{
    turns.clear();
    let mut left = jobs.iter();
    while let Some((id, waiting)) = left.next() {
        put(turns, waiting.next, id);
    }
}

// Puts the turn of a job's next run there, if it has one. There has to be room for it.
fn put(turns: &mut Turns, next: Next, id: u64)
    requires { heap_len turns.old < heap_capacity turns.old }
    ensures ordered { KeepsHeap heap_cmp (heap_items turns.old) (heap_items turns.new) }
    ensures put { (second : ℤ) (other : ℕ) → has_turn (heap_items turns.new) second other
        ≡ cond (is_next_turn next id second other) true (has_turn (heap_items turns.old) second other) }
    ensures len { heap_len turns.new ≤ heap_len turns.old + 1 }
    ensures capacity { heap_capacity turns.old ≤ heap_capacity turns.new }
{
    if let Next::Run(second) = next {
        let _ = turns.push(Reverse((second, id)));
    }
}

// Takes turns away until the first one is that of a next run.
pub(crate) fn settle<J, T>(turns: &mut Turns, jobs: &Jobs<J, T>)
    requires ordered { IsHeap heap_cmp (heap_items turns.old) }
    requires listed { AreListed (job_of jobs.now) (heap_items turns.old) }
    ensures turns { AreTurnsOf (job_of jobs.now) (heap_items turns.new) }
    ensures capacity { heap_capacity turns.new ≡ heap_capacity turns.old }
    ensures no_more { heap_len turns.new ≤ heap_len turns.old }
{
    while let Some(turn) = first_turn(turns) {
        if jobs.is_awaiting(turn) {
            return;
        }
        turns.pop();
    }
}

// Puts the turn of a job's new next run there, if it has one. There has to be room for it.
pub(crate) fn await_next<J, T>(turns: &mut Turns, jobs: &Jobs<J, T>, next: Next, id: u64)
    requires room { heap_len turns.old < heap_capacity turns.old }
    requires ordered { IsHeap heap_cmp (heap_items turns.old) }
    requires listed { AreListedBut (job_of jobs.now) next id (heap_items turns.old) }
    ensures turns { AreTurnsOf (job_of jobs.now) (heap_items turns.new) }
    ensures no_less { heap_capacity turns.old ≤ heap_capacity turns.new }
{
    put(turns, next, id);
    settle(turns, jobs);
}

// For how many more jobs there is room, beside so many.
pub(crate) fn room(turns: &Turns, jobs: usize) -> usize
    ensures { result ≡ heap_room turns.now jobs }
{
    turns.capacity().saturating_sub(jobs)
}

// Takes room for the turns of so many jobs, and for one besides: where a run is given, the turn of the next one is put there before its own is
// taken away.
pub(crate) fn reserve(turns: &mut Turns, jobs: usize) -> Result<(), AllocError>
    ensures turns { heap_items turns.new ≡ heap_items turns.old }
    ensures no_less { heap_capacity turns.old ≤ heap_capacity turns.new }
    ensures taken { OnOk result (heap_capacity turns.new ≡ max (heap_capacity turns.old) (jobs + 1)) }
    ensures full { OnErr result (heap_capacity turns.old ≤ jobs) }
{
    if jobs < turns.capacity() {
        return Ok(());
    }
    turns.reserve_exact((jobs - turns.len()).saturating_add(1))
}
