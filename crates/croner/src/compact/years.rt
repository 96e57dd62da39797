//! The years of a compact job.

ghost use Rattle.std.specs.Prelude.{◌≡◌, ◌≤◌, ℕ, true, false, IfOk, IfErr, OnErr, MatchOption};
ghost use Rattle.std.specs.Int.{IsInRange};
ghost use Rattle.croner_base.specs.Limits.{first_year, last_year};
ghost use Rattle.croner_pattern.specs.Schedule.{is_plain};
ghost use Rattle.croner_pattern.specs.Shapes.{is_like, year_shape};
ghost use Rattle.croner.specs.compact.YearRuns.{IsRun, IsOneRun};

use croner_base::component::{ALL_BIT, CronComponent};
use croner_base::errors::CronError;
use croner_base::time::{Direction, YEAR_LOWER_LIMIT, YEAR_UPPER_LIMIT};
use croner_pattern::pattern::nearest_member;
use std::alloc::Global;

const FIRST_YEAR: u16 = YEAR_LOWER_LIMIT as u16;

const LAST_YEAR: u16 = YEAR_UPPER_LIMIT as u16;

/// The years from one to another; none where the first is the later one.
#[derive(Debug, Clone, Copy, PartialEq, Eq, Hash)]
pub(crate) struct YearRun {
    pub(crate) first: u16,
    pub(crate) last: u16,
    ghost from: { first_year ≤ first },
    ghost to: { last ≤ last_year },
}

/// Years that aren't one range of consecutive years.
#[derive(Debug, Drop, PartialEq, Eq, Hash)]
pub(crate) struct ListedYears {
    pub(crate) field: CronComponent,
    ghost shaped: { is_like field.shape year_shape ≡ true },
}

/// The years that are named.
#[derive(Debug, Drop, PartialEq, Eq, Hash)]
pub(crate) enum Years {
    Run(YearRun),
    Listed(Box<ListedYears>),
}

// Whether a field names a year.
#[inline(always)]
fn is_named(field: &CronComponent, year: u16) -> bool
    ensures { result ≡ is_plain field.now year }
{
    matches!(field.is_bit_set(year, ALL_BIT), Ok(true))
}

// From the first to the last year that a field names.
#[tactic(auto, using(crate::proofs::compact::RunYears::named_between, crate::proofs::compact::RunYears::none_from, crate::proofs::compact::RunYears::none_to))]
fn years_between(field: &CronComponent) -> YearRun
    requires { is_like field.now.shape year_shape ≡ true }
    ensures within { (year : ℕ) → is_plain field.now year ≡ true → IsInRange result.first result.last year }
    ensures ends { result.first ≤ result.last → (is_plain field.now result.first ≡ true) × (is_plain field.now result.last ≡ true) }
{
    match (field.least_from(FIRST_YEAR), field.greatest_to(LAST_YEAR)) {
        (Some(first), Some(last)) => YearRun { first, last },
        _ => YearRun {
            first: FIRST_YEAR,
            last: 0,
        },
    }
}

// The years that a field names as one range of consecutive years, if they are one.
fn run_of(field: &CronComponent) -> Option<YearRun>
    requires { is_like field.now.shape year_shape ≡ true }
    ensures { MatchOption result (IsOneRun field.now → ⊥) (λ run. IsRun field.now run.first run.last) }
{
    let run = years_between(field);
    if field.count_set_values(ALL_BIT) == run.len() {
        Some(run)
    } else {
        None
    }
}

impl YearRun {
    ghost use Rattle.std.specs.Prelude.{◌+◌, ◌-◌, ◌&&◌, nat_le, Some, None, if◌then◌else◌};
    ghost use Rattle.croner_pattern.specs.Questions.{IsNearestMember};
    ghost use Rattle.croner.specs.compact.WordFields.{field_of, run_sum};

    // How many they are.
    fn len(self) -> usize
        ensures { result ≡ (self.last + 1) - self.first }
    {
        usize::from(self.last + 1).saturating_sub(usize::from(self.first))
    }

    // Whether a year is one of them.
    #[inline(always)]
    fn names(self, year: u16) -> bool
        ensures { result ≡ (nat_le self.first year && nat_le year self.last) }
    {
        self.first <= year && year <= self.last
    }

    // The nearest of them.
    #[inline(always)]
    fn nearest(self, year: u16, direction: Direction) -> Option<u16>
        ensures { IsNearestMember direction (field_of year_shape false (run_sum self.first self.last)) year result }
    {
        match direction {
            Direction::Forward => self.in_run(year.max(self.first)),
            Direction::Backward => self.in_run(year.min(self.last)),
        }
    }

    // A year, if it is one of them.
    #[inline(always)]
    fn in_run(self, year: u16) -> Option<u16>
        ensures { result ≡ (if nat_le self.first year && nat_le year self.last then Some year else None) }
    {
        if self.names(year) { Some(year) } else { None }
    }
}

impl Years {
    ghost use Rattle.croner_pattern.specs.Questions.{IsNearestMember};
    ghost use Rattle.croner.specs.compact.WordFields.{years_field};

    // The years of a field with their shape.
    pub(super) fn of(alloc: Global, field: &CronComponent) -> Result<Years, CronError>
        requires { is_like field.now.shape year_shape ≡ true }
        ensures ok { IfOk result (λ years. (year : ℕ) → is_plain (years_field years) year ≡ is_plain field.now year) }
        ensures err { IfErr result (λ e. e ≡ CronError.OutOfMemory) }
        ensures lacks { OnErr result (IsOneRun field.now → ⊥) }
    {
        if let Some(run) = run_of(field) {
            return Ok(Years::Run(run));
        }
        let field = field.clone()?;
        Ok(Years::Listed(Box::new(alloc, ListedYears { field })?))
    }

    // Whether a year is named.
    #[inline(always)]
    pub(super) fn names(&self, year: u16) -> bool
        requires { IsInRange first_year last_year year }
        ensures { result ≡ is_plain (years_field self.now) year }
    {
        match self {
            Years::Run(run) => run.names(year),
            Years::Listed(listed) => is_named(&listed.field, year),
        }
    }

    // The nearest that is named.
    #[inline(always)]
    pub(super) fn nearest(&self, year: u16, direction: Direction) -> Option<u16>
        ensures { IsNearestMember direction (years_field self.now) year result }
    {
        match self {
            Years::Run(run) => run.nearest(year, direction),
            Years::Listed(listed) => nearest_member(&listed.field, year, direction),
        }
    }
}
