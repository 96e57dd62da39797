//! Moments, windows and dates of a plan, each with what its clocks show then.
ghost use Rattle.std.specs.Prelude.{◌≡◌, [], ◌∷◌, ◌++◌, List, IfOk, OnOk};
ghost use Rattle.cronplan.specs.declared.moments.Moment.{Moment};
ghost use Rattle.cronplan.specs.declared.windows.Window.{Window};
ghost use Rattle.cronplan_forms.specs.Timed.{AreTimedMoments, AreTimedWindows};

use crate::beside::ShownTime;
use crate::view::View;
use cronplan::{Moment, Window};
use std::alloc::{AllocError, Global};

/// A moment.
#[derive(Clone, Copy)]
pub struct TimedMoment {
    pub moment: Moment,
    /// What the clocks show then.
    pub time: ShownTime,
}

/// A window.
#[derive(Clone, Copy)]
pub struct TimedWindow {
    pub window: Window,
    /// What the clocks show at its beginning, and at its end.
    pub from: ShownTime,
    pub until: ShownTime,
}

/// Moments on the clocks of a view. The only error is lack of memory.
pub fn timed_moments(
    alloc: Global,
    view: View<'_>,
    moments: &[Moment],
) -> Result<Vec<TimedMoment>, AllocError>
    ensures { IfOk result (λ timed. AreTimedMoments view.entry moments.now timed.items) }
{
    let mut timed = Vec::new(alloc);
    for moment in moments {
        push_moment(&mut timed, view, *moment)?;
    }
    Ok(timed)
}

fn push_moment(
    timed: &mut Vec<TimedMoment>,
    view: View<'_>,
    moment: Moment,
) -> Result<(), AllocError>
    ensures { (moments : List Moment) → AreTimedMoments view.entry moments timed.old.items
        → OnOk result (AreTimedMoments view.entry (moments ++ moment ∷ []) timed.new.items) }
{
    let time = ShownTime::at(view, moment.second);
    timed.push(TimedMoment { moment, time })?;
    Ok(())
}

/// Windows on the clocks of a view. The only error is lack of memory.
pub fn timed_windows(
    alloc: Global,
    view: View<'_>,
    windows: &[Window],
) -> Result<Vec<TimedWindow>, AllocError>
    ensures { IfOk result (λ timed. AreTimedWindows view.entry windows.now timed.items) }
{
    let mut timed = Vec::new(alloc);
    for window in windows {
        push_window(&mut timed, view, *window)?;
    }
    Ok(timed)
}

fn push_window(
    timed: &mut Vec<TimedWindow>,
    view: View<'_>,
    window: Window,
) -> Result<(), AllocError>
    ensures { (windows : List Window) → AreTimedWindows view.entry windows timed.old.items
        → OnOk result (AreTimedWindows view.entry (windows ++ window ∷ []) timed.new.items) }
{
    let from = ShownTime::at(view, window.from.second);
    let until = ShownTime::at(view, window.until.second);
    timed.push(TimedWindow {
        window,
        from,
        until,
    })?;
    Ok(())
}
