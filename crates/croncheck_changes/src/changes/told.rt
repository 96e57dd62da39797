//! The warnings of changes of the clock: their names, and what they say.
ghost use Rattle.std.specs.Prelude.{◌≡◌};
ghost use Rattle.croncheck_changes.specs.Changes.{name_of};

use crate::changes::{Change, Fate, Meeting, Range};
use croner::time::CivilDateTime;
use std::alloc::AllocError;

impl Meeting {
    /// The name of the warning: `gap` or `twice`.
    pub fn name(&self) -> &'static str
        ensures { result.now ≡ name_of self.now.range self.now.fate }
    {
        match self.range {
            Range::Gap => "gap",
            Range::Repeated if self.fate.is_pause() => "gap",
            Range::Repeated => "twice",
        }
    }

    /// Appends to a text what happens at the change, what becomes of the second, and what to write instead.
    /// The only error is lack of memory; the text's end is then unspecified.
    pub fn push_text(&self, text: &mut String) -> Result<(), AllocError> {
        push_change(text, self.range, self.change)?;
        push_fate(text, self.second, self.fate)
    }

    /// Appends to a text on which date the change is, and what becomes of the second, as
    /// `2027-03-28 at 03:00 in place of 02:30`. The error is as that of `push_text`.
    pub fn push_short(&self, text: &mut String) -> Result<(), AllocError> {
        match self.fate {
            Fate::Moved => {
                push_date(text, self.change.after)?;
                text.push_str(" at ")?;
                push_minute(text, self.change.after)?;
                text.push_str(" in place of ")?;
            }
            Fate::LeftOut => {
                push_date(text, self.second)?;
                text.push_str(" not at ")?;
            }
            Fate::Once | Fate::Paused => {
                push_date(text, self.second)?;
                text.push_str(" once, at the first ")?;
            }
            Fate::Twice => {
                push_date(text, self.second)?;
                text.push_str(" twice, at either ")?;
            }
        }
        push_minute(text, self.second)
    }
}

// What the clock does.
fn push_change(text: &mut String, range: Range, change: Change) -> Result<(), AllocError> {
    text.push_str("At ")?;
    push_wall(text, change.before)?;
    text.push_str(match range {
        Range::Gap => " the clock goes forward to ",
        Range::Repeated => " the clock goes back to ",
    })?;
    push_wall(text, change.after)
}

// What becomes of a second.
fn push_fate(text: &mut String, second: i64, fate: Fate) -> Result<(), AllocError> {
    text.push_str(", and what is due in between, first at ")?;
    push_wall(text, second)?;
    text.push_str(match fate {
        Fate::LeftOut => ", is left out. Name an hour that isn't skipped, if it may not be missed.",
        Fate::Moved => ", runs as soon as the clock has gone on.",
        Fate::Once => ", runs the first time alone.",
        Fate::Paused => {
            ", runs the first time alone: nothing is started while the clock shows these minutes again. Write * for the hours, if that does harm."
        }
        Fate::Twice => ", runs twice. Name an hour that comes once, if that does harm.",
    })
}

// A wall second as a date and a time.
fn push_wall(text: &mut String, wall: i64) -> Result<(), AllocError> {
    match CivilDateTime::of_wall_second(wall) {
        Some(civil) => {
            let (date, time) = (civil.date(), civil.time());
            write!(text, "{date} {time}")
        }
        None => write!(text, "{wall}"),
    }
}

// The date of a wall second.
fn push_date(text: &mut String, wall: i64) -> Result<(), AllocError> {
    match CivilDateTime::of_wall_second(wall) {
        Some(civil) => {
            let date = civil.date();
            write!(text, "{date}")
        }
        None => write!(text, "{wall}"),
    }
}

/// Appends the hour and the minute of a wall second to a text. The only error is lack of memory.
pub fn push_minute(text: &mut String, wall: i64) -> Result<(), AllocError> {
    match CivilDateTime::of_wall_second(wall) {
        Some(civil) => {
            let (hour, minute) = (civil.hour(), civil.minute());
            write!(text, "{hour:02}:{minute:02}")
        }
        None => write!(text, "{wall}"),
    }
}
