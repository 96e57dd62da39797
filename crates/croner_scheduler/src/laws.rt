//! Laws of calls one after the other.
ghost use Rattle.croner_scheduler.specs.History.{GivesInTurn, NeverKeepsBack, StaysGone};
ghost use Rattle.croner_scheduler.specs.Lives.{GivesAcross, GivesAgain, GivesOfOneLife};
ghost use Rattle.croner_scheduler.specs.Views.{held_of};

use crate::Scheduler;
use croner::{Clocked, Recurring};

/// Which runs of a job a scheduler gives, whatever calls are made from now on, in whatever order, with whatever `now`s, and whatever
/// happens to other jobs meanwhile. The function does nothing; its clauses are the law. It applies to a program through the contracts of
/// the calls, which say what a scheduler holds before and after each. An `add_from` counts as an `add` at the second before its start,
/// and a refused call as one that changes nothing, but a `skip_all_to` that lacked memory as one that moved some jobs.
///
/// A job that neither `remove` nor `replace` takes away is the same job in the same zone after the calls. Its position is where the last
/// call that moved it put it, and no call has moved it back. The runs given come in order, each once, after its position before the calls
/// and up to its position after them, and none of them was passed over. In a calm zone each of them is a run of the job. There each of
/// the job's runs after its position before the calls was given; or a skip, a `resume` or a `take_latest_due` passed over it; or it is
/// still left, after its position now. A `pause` passes over nothing.
///
/// In a calm zone no run is kept back, unless the job is stopped. Where [`take_due`](Scheduler::take_due) says that nothing is due at a
/// `now`, each run up to there, in the searched years, was given or passed over. So was each run before the one that `take_due` gives
/// next, each before [`next_wake_up`](Scheduler::next_wake_up), and all of them where that is `None`. The job isn't stopped if the zone
/// holds what a search from its position needs, unless it is paused.
///
/// In a calm zone a job's runs up to its position are given once each, in order, except those passed over. This holds from the `add`
/// or the `replace` that brings the job to the call that takes it away. No run is given under its id before its `add`, nor after its
/// removal. Each `replace`, however many there are, ends one job and begins another: the runs given of the old job come before those of
/// the new one, which are those after its own position.
///
/// After a restart a job is added again at its saved position, maybe under another id. In a calm zone it is then given what it would have
/// been given without the restart: up to the same position, and where the same runs are passed over, the same runs in the same order.
pub fn gives_in_turn<J: Recurring<T>, T: Clocked>(scheduler: &Scheduler<J, T>)
    ensures given { GivesInTurn J.runs (held_of T.moment scheduler.now) }
    ensures gone { StaysGone J.runs (held_of T.moment scheduler.now) }
    ensures across { GivesAcross J.runs (held_of T.moment scheduler.now) }
    ensures one_life { GivesOfOneLife J.runs (held_of T.moment scheduler.now) }
    ensures again { GivesAgain J.runs (held_of T.moment scheduler.now) }
    ensures none_back { NeverKeepsBack J.runs (held_of T.moment scheduler.now) }
{
    let _ = scheduler.next_id();
}
