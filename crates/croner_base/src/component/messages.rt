//! The refusals of a component. Each names what was wrong in the text and what was expected instead, and quotes at most
//! an excerpt of the text.

ghost use Rattle.croner_base.specs.Answers.{IsFieldError};

use super::{CLOSEST_WEEKDAY_BIT, CronComponent, LAST_BIT, NTH_ALL};
use crate::errors::CronError;
use crate::excerpt::Excerpt;
use std::alloc::AllocError;

impl CronComponent {
    #[cold]
    #[inline(never)]
    pub(super) fn below_offset(&self, number: u16) -> CronError
        ensures { IsFieldError result }
    {
        let least = self.min + self.input_offset;
        refusal(format!(in self.alloc;
            "The number {number} is too small: this field counts from {least}."
        ))
    }

    #[cold]
    #[inline(never)]
    pub(super) fn out_of_bounds(&self, value: u16) -> CronError
        ensures { IsFieldError result }
    {
        let (min, max) = (self.min, self.marks.max());
        if max == 0 {
            return refusal(format!(in self.alloc;
                "The value {value} is out of bounds: this field holds no value."
            ));
        }
        refusal(format!(in self.alloc;
            "The value {value} is out of bounds: expected one from {min} to {max}."
        ))
    }

    #[cold]
    #[inline(never)]
    pub(super) fn unsupported_modifier(&self, value: u16, bit: u8) -> CronError
        ensures { IsFieldError result }
    {
        let features = self.marks.features();
        let modifier = modifier_words(bit);
        refusal(format!(in self.alloc;
            "The value {value} can't be {modifier}: expected bits among {features:#010b}, found {bit:#010b}."
        ))
    }

    #[cold]
    #[inline(never)]
    pub(super) fn unsupported_feature(&self, feature: u8) -> CronError
        ensures { IsFieldError result }
    {
        let features = self.marks.features();
        let modifier = modifier_words(feature);
        refusal(format!(in self.alloc;
            "This field can't name {modifier}: expected bits among {features:#010b}, found {feature:#010b}."
        ))
    }

    #[cold]
    #[inline(never)]
    pub(super) fn no_number(&self, text: &str, part: &str) -> CronError
        ensures { IsFieldError result }
    {
        let (text, part) = (Excerpt::of_one_of_two(text), Excerpt::of_one_of_two(part));
        refusal(format!(in self.alloc;
            "Invalid number {text} in the part {part}: expected one from 0 to 65535."
        ))
    }

    #[cold]
    #[inline(never)]
    pub(super) fn number_out_of_bounds(&self, number: u16, part: &str) -> CronError
        ensures { IsFieldError result }
    {
        let part = Excerpt::of(part);
        let (least, greatest) = (self.min + self.input_offset, self.marks.max());
        refusal(format!(in self.alloc;
            "The number {number} in the part {part} is out of bounds: expected one from {least} to {greatest}."
        ))
    }

    #[cold]
    #[inline(never)]
    pub(super) fn range_out_of_bounds(&self, start: u16, end: u16, part: &str) -> CronError
        ensures { IsFieldError result }
    {
        let part = Excerpt::of(part);
        let (least, greatest) = (self.min + self.input_offset, self.marks.max());
        refusal(format!(in self.alloc;
            "Invalid range {start} to {end} in the part {part}: expected an ascending one from {least} to {greatest}."
        ))
    }

    #[cold]
    #[inline(never)]
    pub(super) fn sign_not_once(&self, sign: char, part: &str) -> CronError
        ensures { IsFieldError result }
    {
        let part = Excerpt::of(part);
        refusal(format!(in self.alloc;
            "Invalid part {part}: expected one '{sign}', before any '#'."
        ))
    }

    #[cold]
    #[inline(never)]
    pub(super) fn step_of_zero(&self, part: &str) -> CronError
        ensures { IsFieldError result }
    {
        let part = Excerpt::of(part);
        refusal(format!(in self.alloc;
            "Invalid step 0 in the part {part}: expected one from 1 to 65535."
        ))
    }

    #[cold]
    #[inline(never)]
    pub(super) fn no_range_to_step(&self, left: &str, part: &str) -> CronError
        ensures { IsFieldError result }
    {
        let (left, part) = (Excerpt::of_one_of_two(left), Excerpt::of_one_of_two(part));
        refusal(format!(in self.alloc;
            "Invalid start {left} in the part {part}: expected '*' or a range before the '/'."
        ))
    }

    #[cold]
    #[inline(never)]
    pub(super) fn step_too_long(&self, step: u16, part: &str) -> CronError
        ensures { IsFieldError result }
    {
        let part = Excerpt::of(part);
        refusal(format!(in self.alloc;
            "Invalid step {step} in the part {part}: expected the value after the last one to be at most 65535."
        ))
    }

    #[cold]
    #[inline(never)]
    pub(super) fn wrong_nth(&self, nth: &str, part: &str) -> CronError
        ensures { IsFieldError result }
    {
        let (nth, part) = (Excerpt::of_one_of_two(nth), Excerpt::of_one_of_two(part));
        refusal(format!(in self.alloc;
            "Invalid nth {nth} in the part {part}: expected a number from 1 to 5 or 'L' after the '#'."
        ))
    }

    #[cold]
    #[inline(never)]
    pub(super) fn no_nth_here(&self, part: &str) -> CronError
        ensures { IsFieldError result }
    {
        let part = Excerpt::of(part);
        refusal(format!(in self.alloc;
            "Invalid part {part}: expected a number without '#' and 'L', which this field doesn't take."
        ))
    }
}

// What a modifier means, for a message.
fn modifier_words(bit: u8) -> &'static str {
    match bit {
        LAST_BIT => "a last one (L)",
        CLOSEST_WEEKDAY_BIT => "a nearest weekday (W)",
        _ if bit != 0 && bit & NTH_ALL == bit => "an nth weekday (#)",
        _ => "that",
    }
}

fn refusal(message: Result<String, AllocError>) -> CronError
    ensures { IsFieldError result }
{
    match message {
        Ok(message) => CronError::ComponentError(message),
        Err(_) => CronError::OutOfMemory,
    }
}
