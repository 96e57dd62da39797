//! The trait that a date and time library implements.
ghost use Rattle.std.specs.Prelude.{◌≡◌, Bool, false, IsTrue, IfOk, IfErr};
ghost use Rattle.std.specs.Ordering.{int_cmp};

use crate::errors::CronError;
use crate::time::{CivilDateTime, Weekday};
use std::alloc::Global;
use std::cmp::Ordering;

/// Instants at which a zone's clock shows a wall second; in a calm zone, all of them.
///
/// ```
/// let instant = match noon.resolve_civil(alloc, civil)? {
///     Resolution::Single(time) | Resolution::Ambiguous(time, _) => Some(time),
///     Resolution::Gap => None,
/// };
/// ```
#[derive(Debug, Clone, Drop, PartialEq, Eq)]
pub enum Resolution<T> {
    /// One instant.
    Single(T),
    /// Two instants, the earlier first: in a calm zone the clock was moved back over the second.
    Ambiguous(T, T),
    /// None: in a calm zone the clock was moved forward over the second.
    Gap,
}

/// A value that names an instant in a time zone: what a search needs of a date and time library.
///
/// The docs call a type with this trait a backend. A backend holds a moment if it has a value for it.
///
/// A value has a zone, a whole second and a fraction of a second. The zone's clock shows one wall second at each whole
/// second: a date and time, counted in seconds since 1970-01-01T00:00:00 on a clock whose days have 86,400 seconds. An
/// implementation states once which zone, second and fraction its values name. The five functions and `Clone` have to
/// agree with that, whatever the zone does.
///
/// # Calm zones
///
/// Most promises about searches hold in a calm zone. A zone is calm where
/// - a change moves its clock forward by at most a day, or back by at most two hours;
/// - any two changes lie more than two days apart;
/// - at most 20,000 changes are within the years 1 to 5000 (the clock shows a second of them at the change or one second
///   before it), and these skip at most 20,000,000 seconds in total;
/// - each second that the implementation holds is resolved to exactly the instants that show it.
///
/// Civil time and every table of offsets are proved to be calm ([`laws::clocks`](crate::laws::clocks),
/// [`laws::tables`](crate::laws::tables)). For any other zone the caller has to know whether it is
/// calm.
pub trait CronDateTime: Sized + Clone + Drop {
    ghost use Rattle.croner_base.specs.Zone.{Moment, nanos_of, reading, IsResolved, IsUnheld, IsMoved};
    ghost use Rattle.croner_base.specs.Civil.{wall_second, weekday_index, weekday_of_second};

    /// The zone, the whole second and the fraction that a value names.
    ghost moment: { Self → Moment };

    /// Whether `resolve_civil`, `checked_add_seconds` and `clone` can run out of memory.
    ghost can_lack_memory: { Bool };

    /// What the zone's clock shows at the instant's whole second, without the fraction.
    ///
    /// With the clock `paris` of [`ClockTable`](crate::time::table::ClockTable):
    ///
    /// ```
    /// let noon = TableTime::new(&paris, 1_719_828_000)?;
    /// let civil = noon.to_civil(); // 2024-07-01T12:00:00
    /// ```
    fn to_civil(&self) -> CivilDateTime
        ensures { wall_second result ≡ reading (moment self.now) };

    /// The weekday of the date that `to_civil` gives.
    ///
    /// ```
    /// let noon = TableTime::new(&paris, 1_719_828_000)?;
    /// let weekday = noon.civil_weekday(); // Monday
    /// ```
    fn civil_weekday(&self) -> Weekday
        ensures { weekday_index result ≡ weekday_of_second (reading (moment self.now)) };

    /// The whole-second instants of the same zone at which its clock shows `civil`, the earlier first; in a calm zone, all of them.
    ///
    /// `InvalidDate` or `InvalidTime` where the implementation doesn't hold that second. `OutOfMemory` only where
    /// `can_lack_memory` says so.
    ///
    /// ```
    /// // In Paris the clock goes back from 03:00:00 to 02:00:00 on this day.
    /// let civil = CivilDateTime::from_ymd_hms(2024, 10, 27, 2, 30, 0)?;
    /// let both = noon.resolve_civil(alloc, civil)?; // Ambiguous: the seconds 1729989000 and 1729992600
    /// ```
    fn resolve_civil(
        &self,
        alloc: Global,
        civil: CivilDateTime,
    ) -> Result<Resolution<Self>, CronError>
        ensures value { IfOk result (IsResolved moment (moment self.now).zone civil) }
        ensures err { IfErr result
            (IsUnheld can_lack_memory (moment self.now).zone civil) };

    /// The instant `seconds` elapsed seconds later, or earlier where negative, in the same zone and with the same fraction.
    ///
    /// `None` where the implementation doesn't hold that instant. `OutOfMemory` only where `can_lack_memory` says
    /// so.
    ///
    /// ```
    /// let later = noon.checked_add_seconds(alloc, 3_600)?; // Some: 2024-07-01T13:00:00
    /// ```
    fn checked_add_seconds(&self, alloc: Global, seconds: i64) -> Result<Option<Self>, CronError>
        ensures value { IfOk result (IsMoved moment (moment self.now) seconds) }
        ensures err { IfErr result
            (λ e. (e ≡ CronError.OutOfMemory) × IsTrue can_lack_memory) };

    /// The order of the two instants, fractions included, whatever their zones.
    ///
    /// ```
    /// let later = TableTime::new(&paris, 1_719_828_001)?;
    /// let order = noon.cmp_instant(&later); // Less
    /// ```
    fn cmp_instant(&self, other: &Self) -> Ordering
        ensures { result ≡ int_cmp (nanos_of (moment self.now)) (nanos_of (moment other.now)) };

    /// A clone names the same instant in the same zone.
    ghost clone_keeps: { (a b : Self) → Self.is_clone a b → moment b ≡ moment a };

    /// A clone fails for lack of memory only where `can_lack_memory` says so.
    ghost clone_memory: { (a : Self) → can_lack_memory ≡ false → Self.is_infallible a };
}
