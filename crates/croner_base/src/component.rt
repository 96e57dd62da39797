//! One field of a pattern: which values it may hold, and which of them a text has marked, with which modifier.
//!
//! A value can be marked plain. A weekday can also be marked as the first to the fifth of a month, or as its last, and
//! a day of the month as one whose nearest Monday-to-Friday day is meant. Each modifier is one bit, so that one call can
//! ask for several.

ghost use Rattle.std.specs.Prelude.{◌≡◌, ◌+◌, ◌-◌, ◌≤◌, ◌<◌, ◌==◌, ◌^◌, ℕ, true, length, OnOk, OnErr, IfOk, IfErr, MatchOption};
ghost use Rattle.std.specs.Int.{bit_at};
ghost use Rattle.croner_base.specs.Answers.{SucceedsIff};
ghost use Rattle.croner_base.specs.Field.{Field, room, with_mark, without_mark, with_sloppy, is_marked, can_mark, can_ask, is_of_one_word, default_field, empty_field, new_shape, has_all, has_modifiers, marked_values};
ghost use Rattle.croner_base.specs.Marks.{IsWellFormed, HasNoPlainFrom, IsLeastPlainValue, HasNoPlainTo, IsGreatestPlainValue};
ghost use Rattle.croner_base.specs.Part.{enabled};
ghost use Rattle.croner_base.specs.Reading.{Reads};

use crate::errors::CronError;
use marks::Marks;
pub use parts::RefusedPart;
use std::alloc::{AllocError, Global};
use std::marker::Model;

mod compare;
mod marks;
mod messages;
mod parts;
mod text;

/// No modifier.
pub const NONE_BIT: u8 = 0;

/// A plain value, without a modifier.
pub const ALL_BIT: u8 = 1;

/// The first of a weekday in the month: `#1`, as in `5#1`.
pub const NTH_1ST_BIT: u8 = 2;

/// The second of a weekday in the month: `#2`, as in `5#2`.
pub const NTH_2ND_BIT: u8 = 4;

/// The third of a weekday in the month: `#3`, as in `5#3`.
pub const NTH_3RD_BIT: u8 = 8;

/// The fourth of a weekday in the month: `#4`, as in `5#4`.
pub const NTH_4TH_BIT: u8 = 16;

/// The fifth of a weekday in the month: `#5`, as in `5#5`.
pub const NTH_5TH_BIT: u8 = 32;

/// The five bits of the nth weekdays together.
pub const NTH_ALL: u8 = 62;

/// The last of a weekday in the month, as in `5L` or `5#L`; as a feature of the whole field, the month's last day: `L`.
pub const LAST_BIT: u8 = 64;

/// The Monday-to-Friday day nearest to a day of the month, as in `15W`; as a feature of the whole field beside
/// `LAST_BIT`, the month's last Monday-to-Friday day: `LW`.
pub const CLOSEST_WEEKDAY_BIT: u8 = 128;

/// One field of a pattern: its bounds, the modifiers that it supports, and for each modifier the set of marked values.
///
/// Marks are added by [`parse`](Self::parse), [`handle_stepping`](Self::handle_stepping) and
/// [`set_bit`](Self::set_bit). The component keeps the allocator given to its constructor, and [`new`](Self::new)
/// takes the memory for every mark. Later calls allocate only for the message of an error, for a list that they
/// return, and for a clone if the values don't fit [one word](Self::is_of_one_word).
///
/// ```
/// let mut minutes = CronComponent::new(alloc, 0, 59, NONE_BIT, 0)?;
/// minutes.parse("*/20,5")?;
/// let values = minutes.values()?; // [0, 5, 20, 40]
/// ```
#[derive(Debug)]
pub struct CronComponent {
    marks: Marks,
    min: u16,
    step: u16,
    from_wildcard: bool,
    enabled_features: u8,
    input_offset: u16,
    sloppy_ranges: bool,
    alloc: Global,
}

impl Model for CronComponent {
    ghost Value = { Field };

    ghost view = { λ c. record { shape = record { min = c.min; max = c.marks.max; supported = c.marks.supported; offset = c.input_offset; sloppy = c.sloppy_ranges }; marks = c.marks.marks; enabled = c.enabled_features; step = c.step; wildcard = c.from_wildcard } };

    ghost invariant = { λ c. (length c.marks.marks ≡ room c.marks.max) × (c.min ≤ c.marks.max) × (c.marks.max + c.input_offset < 2 ^ 16) };
}

// By hand, so that a function that drops a component calls this one.
impl Drop for CronComponent {
    fn drop(self) {
        let CronComponent {
            marks: _,
            min: _,
            step: _,
            from_wildcard: _,
            enabled_features: _,
            input_offset: _,
            sloppy_ranges: _,
            alloc: _,
        } = self;
    }
}

impl CronComponent {
    /// A component for the values from `min` to `max` that has no marks yet, with step 1.
    ///
    /// It supports the modifiers in `features`, and plain values and `LAST_BIT` besides. `input_offset` is
    /// subtracted from each number that a text names. A component whose `max` is 0 holds no value at all. The only
    /// error is `OutOfMemory`.
    ///
    /// ```
    /// // The days of a month, of which the nearest weekday may be asked, as in 15W.
    /// let days = CronComponent::new(alloc, 1, 31, CLOSEST_WEEKDAY_BIT, 0)?;
    /// ```
    pub fn new(
        alloc: Global,
        min: u16,
        max: u16,
        features: u8,
        input_offset: u16,
    ) -> Result<Self, CronError>
        requires ordered { min ≤ max }
        requires fits { max + input_offset ≤ 65535 }
        ensures ok { IfOk result (λ c. c ≡ empty_field (new_shape min max features input_offset)) }
        ensures err { IfErr result (λ e. e ≡ CronError.OutOfMemory) }
    {
        let marks = Marks::new(alloc, max, features | ALL_BIT | LAST_BIT)?;
        Ok(CronComponent {
            marks,
            min,
            step: 1,
            from_wildcard: false,
            enabled_features: NONE_BIT,
            input_offset,
            sloppy_ranges: false,
            alloc,
        })
    }

    /// A component whose every part is zero: it holds no value and supports no modifier. Takes no memory.
    ///
    /// ```
    /// let none = CronComponent::default(alloc);
    /// let bits = none.features(); // 0
    /// ```
    pub fn default(alloc: Global) -> Self
        ensures { result ≡ default_field }
    {
        CronComponent {
            marks: Marks::none(alloc),
            min: 0,
            step: 0,
            from_wildcard: false,
            enabled_features: NONE_BIT,
            input_offset: 0,
            sloppy_ranges: false,
            alloc,
        }
    }

    /// Whether it holds values and these fit one word of 64 bits: the maximum is from 1 to 63. A clone of such a component
    /// takes no memory.
    ///
    /// ```
    /// let minutes = CronComponent::new(alloc, 0, 59, NONE_BIT, 0)?;
    /// let years = CronComponent::new(alloc, 1, 5000, NONE_BIT, 0)?;
    /// let (small, large) = (minutes.is_of_one_word(), years.is_of_one_word()); // true, false
    /// ```
    #[inline(always)]
    pub fn is_of_one_word(&self) -> bool
        ensures { result ≡ is_of_one_word self.now.shape }
    {
        1 <= self.marks.max() && self.marks.max() <= 63
    }

    /// A copy, as `clone` gives it. Takes no memory. The caller makes sure that the values fit
    /// [one word](Self::is_of_one_word).
    ///
    /// ```
    /// if minutes.is_of_one_word() {
    ///     let copy = minutes.clone_in_place(); // equal to minutes
    /// }
    /// ```
    #[inline(always)]
    pub fn clone_in_place(&self) -> Self
        requires { is_of_one_word self.now.shape ≡ true }
        ensures { result ≡ self.now }
    {
        CronComponent {
            marks: self.marks.copy_in_place(self.alloc),
            min: self.min,
            step: self.step,
            from_wildcard: self.from_wildcard,
            enabled_features: self.enabled_features,
            input_offset: self.input_offset,
            sloppy_ranges: self.sloppy_ranges,
            alloc: self.alloc,
        }
    }

    /// The least value that the component may hold.
    ///
    /// ```
    /// let minutes = CronComponent::new(alloc, 0, 59, NONE_BIT, 0)?;
    /// let least = CronComponent::min(&minutes); // 0; minutes.min() is the method of Ord
    /// ```
    pub fn min(&self) -> u16
        ensures { result ≡ self.now.shape.min }
    {
        self.min
    }

    /// The greatest value that the component may hold. Where it is 0 there is none.
    ///
    /// ```
    /// let minutes = CronComponent::new(alloc, 0, 59, NONE_BIT, 0)?;
    /// let greatest = CronComponent::max(&minutes); // 59; minutes.max() is the method of Ord
    /// ```
    pub fn max(&self) -> u16
        ensures value { result ≡ self.now.shape.max }
        ensures whole { IsWellFormed self.now }
    {
        self.marks.max()
    }

    /// The step of the last part with a `/` whose step was read, even if that part was then refused. Before any such part it
    /// is 1, and in a default component 0.
    ///
    /// ```
    /// let mut minutes = CronComponent::new(alloc, 0, 59, NONE_BIT, 0)?;
    /// minutes.parse("*/20")?;
    /// let step = minutes.step(); // 20
    /// ```
    pub fn step(&self) -> u16
        ensures { result ≡ self.now.step }
    {
        self.step
    }

    /// Whether a `*` was read, as the whole field or before a `/`. With sloppy ranges a `/` without a start, as in `/10`, counts
    /// as one too.
    ///
    /// ```
    /// let mut minutes = CronComponent::new(alloc, 0, 59, NONE_BIT, 0)?;
    /// minutes.parse("*/20")?;
    /// let has_star = minutes.from_wildcard(); // true
    /// ```
    pub fn from_wildcard(&self) -> bool
        ensures { result ≡ self.now.wildcard }
    {
        self.from_wildcard
    }

    /// The bits of the modifiers that are supported.
    ///
    /// ```
    /// let days = CronComponent::new(alloc, 1, 31, CLOSEST_WEEKDAY_BIT, 0)?;
    /// let bits = days.features(); // ALL_BIT | LAST_BIT | CLOSEST_WEEKDAY_BIT
    /// ```
    pub fn features(&self) -> u8
        ensures { result ≡ self.now.shape.supported }
    {
        self.marks.features()
    }

    /// What is subtracted from each number that a text names.
    ///
    /// ```
    /// // Weekdays that count from 1 for Sunday.
    /// let mut weekdays = CronComponent::new(alloc, 0, 7, NTH_ALL, 1)?;
    /// weekdays.parse("2")?;
    /// let values = weekdays.values()?; // [1]
    /// ```
    pub fn input_offset(&self) -> u16
        ensures { result ≡ self.now.shape.offset }
    {
        self.input_offset
    }

    /// Sets whether the start of a stepped range may stand alone or be left out, as in `5/10` and `/10`.
    ///
    /// ```
    /// let mut minutes = CronComponent::new(alloc, 0, 59, NONE_BIT, 0)?;
    /// minutes.set_sloppy_ranges(true);
    /// minutes.parse("5/20")?;
    /// let values = minutes.values()?; // [5, 25, 45]
    /// ```
    pub fn set_sloppy_ranges(&mut self, sloppy: bool)
        ensures { self.new ≡ with_sloppy self.old sloppy }
    {
        self.sloppy_ranges = sloppy;
    }

    /// Marks the value `pos` minus the input offset with each modifier of `bit`, and changes nothing else.
    ///
    /// `ComponentError` where `pos` is below the offset, the value is out of bounds, a bit isn't supported or the
    /// maximum is 0; `OutOfMemory` where there is no memory for its message. An error leaves the component as it
    /// was.
    ///
    /// ```
    /// let mut weekdays = CronComponent::new(alloc, 0, 7, NTH_ALL, 0)?;
    /// weekdays.set_bit(5, NTH_2ND_BIT)?; // the second Friday, as 5#2
    /// let refused = weekdays.set_bit(8, ALL_BIT); // Err(ComponentError): 8 is out of bounds
    /// ```
    pub fn set_bit(&mut self, pos: u16, bit: u8) -> Result<(), CronError>
        ensures answer { SucceedsIff (can_mark self.old.shape pos bit) result }
        ensures ok { OnOk result (self.new ≡ with_mark self.old (pos - self.old.shape.offset) bit) }
        ensures err { OnErr result (self.new ≡ self.old) }
    {
        let value = self.value_at(pos, bit)?;
        self.marks.set(value, bit);
        Ok(())
    }

    /// Removes the modifiers of `bit` from the value `pos` minus the input offset, and changes nothing else.
    ///
    /// The errors are those of [`set_bit`](Self::set_bit), and leave the component as it was.
    ///
    /// ```
    /// let mut minutes = CronComponent::new(alloc, 0, 59, NONE_BIT, 0)?;
    /// minutes.parse("0-3")?;
    /// minutes.unset_bit(2, ALL_BIT)?;
    /// let values = minutes.values()?; // [0, 1, 3]
    /// ```
    pub fn unset_bit(&mut self, pos: u16, bit: u8) -> Result<(), CronError>
        ensures answer { SucceedsIff (can_mark self.old.shape pos bit) result }
        ensures ok { OnOk result (self.new ≡ without_mark self.old (pos - self.old.shape.offset) bit) }
        ensures err { OnErr result (self.new ≡ self.old) }
    {
        let value = self.value_at(pos, bit)?;
        self.marks.unset(value, bit);
        Ok(())
    }

    /// Whether the value has any of the modifiers of `bit`. No offset is subtracted.
    ///
    /// `ComponentError` where the value is out of bounds, a bit isn't supported or the maximum is 0; `OutOfMemory`
    /// where there is no memory for its message.
    ///
    /// ```
    /// let mut weekdays = CronComponent::new(alloc, 0, 7, NTH_ALL, 0)?;
    /// weekdays.parse("5#2")?;
    /// let is_second = weekdays.is_bit_set(5, NTH_2ND_BIT)?; // true
    /// let is_plain = weekdays.is_bit_set(5, ALL_BIT)?; // false
    /// ```
    #[inline]
    pub fn is_bit_set(&self, value: u16, bit: u8) -> Result<bool, CronError>
        ensures answer { SucceedsIff (can_ask self.now.shape value bit) result }
        ensures ok { IfOk result (λ yes. yes ≡ is_marked bit self.now value) }
    {
        self.check_value(value, bit)?;
        Ok(self.marks.is_set(value, bit))
    }

    /// Enables the features of `feature` for the whole field: `LAST_BIT` for the month's last day, and both `LAST_BIT` and
    /// `CLOSEST_WEEKDAY_BIT` for its last Monday-to-Friday day.
    ///
    /// `ComponentError` where one of them isn't supported, `OutOfMemory` where there is no memory for its message.
    /// An error leaves the component as it was.
    ///
    /// ```
    /// let mut days = CronComponent::new(alloc, 1, 31, CLOSEST_WEEKDAY_BIT, 0)?;
    /// days.enable_feature(LAST_BIT)?; // as the text L
    /// ```
    pub fn enable_feature(&mut self, feature: u8) -> Result<(), CronError>
        ensures { Reads (enabled self.old.shape feature) self.old self.new result }
    {
        if !self.is_feature_allowed(feature) {
            return Err(self.unsupported_feature(feature));
        }
        self.enabled_features |= feature;
        Ok(())
    }

    /// Whether each of the features is supported.
    ///
    /// ```
    /// let days = CronComponent::new(alloc, 1, 31, CLOSEST_WEEKDAY_BIT, 0)?;
    /// let nearest = days.is_feature_allowed(CLOSEST_WEEKDAY_BIT); // true
    /// let nth = days.is_feature_allowed(NTH_1ST_BIT); // false
    /// ```
    #[inline]
    pub fn is_feature_allowed(&self, feature: u8) -> bool
        ensures { result ≡ has_all self.now.shape.supported feature }
    {
        self.features() & feature == feature
    }

    /// Whether each of the features is enabled.
    ///
    /// ```
    /// let mut days = CronComponent::new(alloc, 1, 31, CLOSEST_WEEKDAY_BIT, 0)?;
    /// days.parse("LW")?;
    /// let is_last_weekday = days.is_feature_enabled(LAST_BIT | CLOSEST_WEEKDAY_BIT); // true
    /// ```
    pub fn is_feature_enabled(&self, feature: u8) -> bool
        ensures { result ≡ has_all self.now.enabled feature }
    {
        self.enabled_features & feature == feature
    }

    /// Whether a feature is enabled or a value has a modifier other than plain. Which days such a field names
    /// depends on the month.
    ///
    /// ```
    /// let mut days = CronComponent::new(alloc, 1, 31, CLOSEST_WEEKDAY_BIT, 0)?;
    /// days.parse("1,15")?;
    /// let before = days.has_modifiers(); // false
    /// days.parse("L")?;
    /// let after = days.has_modifiers(); // true
    /// ```
    pub fn has_modifiers(&self) -> bool
        ensures { result ≡ has_modifiers self.now }
    {
        self.enabled_features != NONE_BIT || self.marks.count_from(0, !ALL_BIT) != 0
    }

    /// The plain values, in ascending order. The only error is `OutOfMemory`.
    ///
    /// ```
    /// let mut minutes = CronComponent::new(alloc, 0, 59, NONE_BIT, 0)?;
    /// minutes.parse("10-12,3")?;
    /// let values = minutes.values()?; // [3, 10, 11, 12]
    /// ```
    pub fn values(&self) -> Result<Vec<u16>, CronError>
        ensures ok { IfOk result (λ vs. vs.items ≡ marked_values ALL_BIT self.now) }
        ensures err { IfErr result (λ e. e ≡ CronError.OutOfMemory) }
    {
        self.get_set_values(ALL_BIT)
    }

    /// The values that have any of the modifiers of `bit`, in ascending order; none where one of these isn't
    /// supported. The only error is `OutOfMemory`.
    ///
    /// ```
    /// let mut weekdays = CronComponent::new(alloc, 0, 7, NTH_ALL, 0)?;
    /// weekdays.parse("1#1,5#L")?;
    /// let first = weekdays.get_set_values(NTH_1ST_BIT)?; // [1]
    /// let last = weekdays.get_set_values(LAST_BIT)?; // [5]
    /// ```
    pub fn get_set_values(&self, bit: u8) -> Result<Vec<u16>, CronError>
        ensures ok { IfOk result (λ vs. vs.items ≡ marked_values bit self.now) }
        ensures err { IfErr result (λ e. e ≡ CronError.OutOfMemory) }
    {
        if !self.is_feature_allowed(bit) {
            return Ok(Vec::new(self.alloc));
        }
        Ok(self.marks.list_from(self.alloc, self.min, bit)?)
    }

    /// How many values [`get_set_values`](Self::get_set_values) lists.
    ///
    /// ```
    /// let mut minutes = CronComponent::new(alloc, 0, 59, NONE_BIT, 0)?;
    /// minutes.parse("*/20")?;
    /// let count = minutes.count_set_values(ALL_BIT); // 3
    /// ```
    #[inline(always)]
    pub fn count_set_values(&self, bit: u8) -> usize
        ensures { result ≡ length (marked_values bit self.now) }
    {
        if !self.is_feature_allowed(bit) {
            return 0;
        }
        self.marks.count_from(self.min, bit)
    }

    /// The least plain value from the given one on; `None` where there is none. Never fails, and takes no memory.
    ///
    /// ```
    /// let mut minutes = CronComponent::new(alloc, 0, 59, NONE_BIT, 0)?;
    /// minutes.parse("*/20")?;
    /// let next = minutes.least_from(21); // Some(40)
    /// let none = minutes.least_from(41); // None
    /// ```
    #[inline(always)]
    pub fn least_from(&self, value: u16) -> Option<u16>
        ensures { MatchOption result (HasNoPlainFrom self.now value) (λ least. IsLeastPlainValue self.now value least) }
    {
        if !self.is_feature_allowed(ALL_BIT) {
            return None;
        }
        self.marks.least_from(value.max(self.min))
    }

    /// The greatest plain value up to the given one; `None` where there is none. Never fails, and takes no memory.
    ///
    /// ```
    /// let mut minutes = CronComponent::new(alloc, 0, 59, NONE_BIT, 0)?;
    /// minutes.parse("*/20")?;
    /// let last = minutes.greatest_to(39); // Some(20)
    /// ```
    #[inline(always)]
    pub fn greatest_to(&self, value: u16) -> Option<u16>
        ensures { MatchOption result (HasNoPlainTo self.now value) (λ greatest. IsGreatestPlainValue self.now value greatest) }
    {
        if !self.is_feature_allowed(ALL_BIT) {
            return None;
        }
        match self.marks.greatest_to(value) {
            Some(greatest) if greatest >= self.min => Some(greatest),
            _ => None,
        }
    }

    /// The values from 0 to 63 that have any of the modifiers of `bit`, as a word: bit v stands for the value v.
    ///
    /// A modifier that isn't supported adds no value, and the others still add theirs.
    /// [`get_set_values`](Self::get_set_values), in contrast, lists nothing at all where one isn't supported.
    ///
    /// ```
    /// let mut minutes = CronComponent::new(alloc, 0, 59, NONE_BIT, 0)?;
    /// minutes.parse("0,3")?;
    /// let word = minutes.low_word(ALL_BIT); // 9: bits 0 and 3
    /// ```
    #[inline(always)]
    pub fn low_word(&self, bit: u8) -> u64
        ensures { (value : ℕ) → value < 64 → (bit_at result value == 1) ≡ is_marked bit self.now value }
    {
        self.marks.low_word(bit)
    }

    #[inline(always)]
    fn value_at(&self, pos: u16, bit: u8) -> Result<u16, CronError>
        ensures answer { SucceedsIff (can_mark self.now.shape pos bit) result }
        ensures ok { IfOk result (λ value. value ≡ pos - self.now.shape.offset) }
    {
        if pos < self.input_offset {
            return Err(self.below_offset(pos));
        }
        let value = pos - self.input_offset;
        self.check_value(value, bit)?;
        Ok(value)
    }

    #[inline(always)]
    fn check_value(&self, value: u16, bit: u8) -> Result<(), CronError>
        ensures { SucceedsIff (can_ask self.now.shape value bit) result }
    {
        if value < self.min || value > self.marks.max() || self.marks.max() == 0 {
            return Err(self.out_of_bounds(value));
        }
        if !self.is_feature_allowed(bit) {
            return Err(self.unsupported_modifier(value, bit));
        }
        Ok(())
    }
}

/// A copy is equal in all its parts. The only error is lack of memory, and a component of one word takes none.
impl Clone for CronComponent {
    ghost is_clone = { λ original copy. copy ≡ original };

    ghost is_infallible = { λ original. is_of_one_word original.shape ≡ true };

    #[inline(always)]
    fn clone(&self) -> Result<CronComponent, AllocError> {
        Ok(CronComponent {
            marks: self.marks.copy(self.alloc)?,
            min: self.min,
            step: self.step,
            from_wildcard: self.from_wildcard,
            enabled_features: self.enabled_features,
            input_offset: self.input_offset,
            sloppy_ranges: self.sloppy_ranges,
            alloc: self.alloc,
        })
    }
}
