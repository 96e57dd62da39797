//! What is asked of a plan.
ghost use Rattle.std.specs.Prelude.{◌≡◌, IfOk, string_bytes};
ghost use Rattle.cronplan_forms.specs.Questions.{IsWeekAnswer, IsMonthAnswer, IsQuietAnswer, IsBusyAnswer, IsTogetherAnswer, IsAnswers, asks_none};

use crate::answers::busy::busy_text;
use crate::answers::quiet::quiet_text;
use crate::answers::together::together_text;
use crate::apart::push_apart;
use crate::month::months_text;
use crate::view::View;
use crate::week::{Signs, week_text};
use std::alloc::{AllocError, Global};

/// What is asked of a plan.
#[derive(Clone, Copy)]
pub struct Questions {
    /// The picture of its dates, in these signs.
    pub week: Option<Signs>,
    /// A grid of titles for each of its months.
    pub month: bool,
    /// The windows of at least this many seconds in which nothing starts.
    pub quiet: Option<u64>,
    /// This many of its fullest moments.
    pub busy: Option<usize>,
    /// The sets of jobs that start together.
    pub together: bool,
}

impl Questions {
    /// Whether nothing is asked.
    pub fn is_none(&self) -> bool
        ensures { result ≡ asks_none self.now }
    {
        match (self.week, self.month, self.quiet, self.busy, self.together) {
            (None, false, None, None, false) => true,
            _ => false,
        }
    }
}

/// What a plan answers to these, one answer below the other, with an empty line between them. They are about the jobs that are shown;
/// `left_out_text` tells what is left out.
///
/// The only error is lack of memory.
pub fn answers_text(alloc: Global, view: View<'_>, asked: Questions) -> Result<String, AllocError>
    ensures { IfOk result (λ t. IsAnswers view.entry asked (string_bytes t)) }
{
    let mut text = week_answer(alloc, view, asked.week)?;
    let month = month_answer(alloc, view, asked.month)?;
    let quiet = quiet_answer(alloc, view, asked.quiet)?;
    let busy = busy_answer(alloc, view, asked.busy)?;
    let together = together_answer(alloc, view, asked.together)?;
    push_apart(&mut text, month.as_str())?;
    push_apart(&mut text, quiet.as_str())?;
    push_apart(&mut text, busy.as_str())?;
    push_apart(&mut text, together.as_str())?;
    Ok(text)
}

fn week_answer(alloc: Global, view: View<'_>, signs: Option<Signs>) -> Result<String, AllocError>
    ensures { IfOk result (λ t. IsWeekAnswer view.entry signs (string_bytes t)) }
{
    match signs {
        Some(signs) => week_text(alloc, view, signs),
        None => Ok(String::new(alloc)),
    }
}

fn month_answer(alloc: Global, view: View<'_>, is_asked: bool) -> Result<String, AllocError>
    ensures { IfOk result (λ t. IsMonthAnswer view.entry is_asked (string_bytes t)) }
{
    if is_asked {
        return months_text(alloc, view);
    }
    Ok(String::new(alloc))
}

fn quiet_answer(alloc: Global, view: View<'_>, least: Option<u64>) -> Result<String, AllocError>
    ensures { IfOk result (λ t. IsQuietAnswer view.entry least (string_bytes t)) }
{
    match least {
        Some(least) => quiet_text(alloc, view, least),
        None => Ok(String::new(alloc)),
    }
}

fn busy_answer(alloc: Global, view: View<'_>, most: Option<usize>) -> Result<String, AllocError>
    ensures { IfOk result (λ t. IsBusyAnswer view.entry most (string_bytes t)) }
{
    match most {
        Some(most) => busy_text(alloc, view, most),
        None => Ok(String::new(alloc)),
    }
}

fn together_answer(alloc: Global, view: View<'_>, is_asked: bool) -> Result<String, AllocError>
    ensures { IfOk result (λ t. IsTogetherAnswer view.entry is_asked (string_bytes t)) }
{
    if is_asked {
        return together_text(alloc, view);
    }
    Ok(String::new(alloc))
}
