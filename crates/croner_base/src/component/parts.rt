//! Reading the text of a field: a star or a list, and the forms that a part of a list can have.

ghost use Rattle.std.specs.Prelude.{◌≡◌, ◌≤◌, ◌<◌, ◌+◌, ◌&&◌, ◌==◌, nat_le, length, if◌then◌else◌};
ghost use Rattle.croner_base.specs.Answers.{Finds};
ghost use Rattle.croner_base.specs.Field.{values_between};
ghost use Rattle.croner_base.specs.Part.{all_marked, field_of, parts_of, part_of, parts_read, refused_part, star_read, nearest_weekday, single, one_number, tag_of, two_of, pieces_at, number_of, ranged, stepped_by, stepped_from, stepping, step_bounds, stepped_marks, is_starred};
ghost use Rattle.croner_base.specs.Private.Signs.{byte_of};
ghost use Rattle.croner_base.specs.Reading.{Reads, ReadsParts, nothing};

use super::text::{Form, Part, Sign, has, number};
use super::{
    ALL_BIT, CLOSEST_WEEKDAY_BIT, CronComponent, LAST_BIT, NTH_1ST_BIT, NTH_2ND_BIT, NTH_3RD_BIT,
    NTH_4TH_BIT, NTH_5TH_BIT, NTH_ALL,
};
use crate::errors::CronError;

/// The part of a list that a field refused, and why.
#[derive(Debug, Drop)]
pub struct RefusedPart {
    /// Its index among the parts, from 0, empty parts counted too.
    pub part: usize,
    /// The error of [`CronComponent::parse`].
    pub error: CronError,
}

impl CronComponent {
    /// Adds the marks that a field's text names to those already set.
    ///
    /// A lone `*` marks every value plain and sets the wildcard mark. Any other text is a list, split at commas; each
    /// part is trimmed, and empty parts are skipped. A part is a number, a range `a-b`, or a step `*/n` or `a-b/n`.
    /// Each of these may end with `#1` to `#5` or `#L`: of each weekday that it names, the first to the fifth in a month,
    /// or the last. A part can also be `aL`, which means `a#L`; `aW`, for the Monday-to-Friday day nearest to day `a`; `L`,
    /// for the month's last day; or `LW`, for its last Monday-to-Friday day. With sloppy ranges `a/n` and `/n` are steps
    /// too.
    ///
    /// `ComponentError` at the first part that has none of these forms, is out of bounds or asks for a modifier that
    /// isn't supported; `OutOfMemory` where there is no memory for its message. After either error the marks,
    /// features, step and wildcard mark made before the fault stay. A call that succeeds allocates nothing.
    ///
    /// ```
    /// let mut days = CronComponent::new(alloc, 1, 31, CLOSEST_WEEKDAY_BIT, 0)?;
    /// days.parse("1-5,15W,L")?;
    /// let plain = days.values()?; // [1, 2, 3, 4, 5]
    /// let near = days.get_set_values(CLOSEST_WEEKDAY_BIT)?; // [15]
    /// ```
    pub fn parse(&mut self, field: &str) -> Result<(), CronError>
        ensures { Reads (field_of self.old.shape field.now) self.old self.new result }
    {
        match self.parse_parts(field) {
            Ok(()) => Ok(()),
            Err(refused) => Err(refused.error),
        }
    }

    /// [`parse`](Self::parse), whose error also gives the index of the refused part: how many parts of the list come before it,
    /// empty ones counted too. It is 0 where a lone `*` is refused.
    ///
    /// It reads and refuses the same texts as `parse`, and leaves the same after an error.
    ///
    /// ```
    /// let mut minutes = CronComponent::new(alloc, 0, 59, NONE_BIT, 0)?;
    /// let refused = minutes.parse_parts("5,10,99"); // Err: part 2, and the error of parse
    /// ```
    pub fn parse_parts(&mut self, field: &str) -> Result<(), RefusedPart>
        ensures { ReadsParts (field_of self.old.shape field.now) (refused_part self.old.shape field.now) self.old self.new result }
    {
        if field == "*" {
            return self.mark_star();
        }
        self.parse_list(field)
    }

    fn mark_star(&mut self) -> Result<(), RefusedPart>
        ensures { ReadsParts (star_read self.old.shape) 0 self.old self.new result }
    {
        self.from_wildcard = true;
        let first = self.min + self.input_offset;
        let last = self.marks.max() + self.input_offset;
        match self.mark_all(first, last, ALL_BIT) {
            Ok(()) => Ok(()),
            Err(error) => Err(RefusedPart { part: 0, error }),
        }
    }

    /// Adds the marks of one part with a `/`: `*/n`, `a-b/n`, and with sloppy ranges also `a/n` and `/n`. The part
    /// isn't trimmed. The number after the `/` becomes the step, even if the part is then refused.
    ///
    /// `ComponentError` where the part doesn't have that form, the step is 0, the range is out of bounds, a mark is
    /// refused, or the value after the last mark would exceed 65535; `OutOfMemory` where there is no memory for its
    /// message. After either error the step, the wildcard mark and the marks made before the fault stay. A call that
    /// succeeds allocates nothing.
    ///
    /// ```
    /// let mut minutes = CronComponent::new(alloc, 0, 59, NONE_BIT, 0)?;
    /// minutes.handle_stepping("10-40/15")?;
    /// let values = minutes.values()?; // [10, 25, 40]
    /// ```
    pub fn handle_stepping(&mut self, part: &str) -> Result<(), CronError>
        ensures { Reads (stepping self.old.shape part.now) self.old self.new result }
    {
        self.handle_step(&Part::new(part))
    }

    fn parse_list(&mut self, list: &str) -> Result<(), RefusedPart>
        ensures { ReadsParts (parts_of self.old.shape (pieces_at 44 list.now)) (parts_read self.old.shape (pieces_at 44 list.now)) self.old self.new result }
    {
        let mut number = 0;
        for part in list.split(',') {
            match self.parse_trimmed(part.trim()) {
                Ok(()) => number += 1,
                Err(error) => {
                    return Err(RefusedPart {
                        part: number,
                        error,
                    });
                }
            }
        }
        Ok(())
    }

    /// A part of a list, trimmed: an empty one is skipped.
    fn parse_trimmed(&mut self, part: &str) -> Result<(), CronError>
        ensures { Reads (if length part.now == 0 then nothing else part_of self.old.shape part.now) self.old self.new result }
    {
        if part.is_empty() {
            return Ok(());
        }
        self.parse_part(part)
    }

    fn parse_part(&mut self, part: &str) -> Result<(), CronError>
        ensures { Reads (part_of self.old.shape part.now) self.old self.new result }
    {
        let part = Part::new(part);
        match part.form() {
            Form::Step => self.handle_step(&part),
            Form::Range => self.handle_range(&part),
            Form::Nearest => self.handle_closest_weekday(&part),
            Form::Last => self.enable_feature(LAST_BIT),
            Form::Number => self.handle_number(&part),
        }
    }

    fn handle_step(&mut self, part: &Part<'_>) -> Result<(), CronError>
        ensures { Reads (stepping self.old.shape part.now) self.old self.new result }
    {
        let text = part.text();
        let bit = self.tag(part)?;
        let (left, right) = self.sides(&part.part_before(Sign::Hash), Sign::Slash, text)?;
        let step = self.number_in(right, text)?;
        self.handle_sides(&left, step, bit, text)
    }

    // What a part does, by the text to the left of its `/` and the number to the right.
    #[tactic(auto, using(crate::proofs::fields::SteppedParts::marks_after_step))]
    fn handle_sides(
        &mut self,
        left: &Part<'_>,
        step: u16,
        bit: u8,
        part: &str,
    ) -> Result<(), CronError>
        ensures { Reads (stepped_by self.old.shape left.now step bit) self.old self.new result }
    {
        self.step = step;
        if step == 0 {
            return Err(self.step_of_zero(part));
        }
        if self.is_starred(left.text()) {
            self.from_wildcard = true;
        }
        self.mark_from(left, step, bit, part)
    }

    // The marks of a step, by the text to the left of its `/`.
    fn mark_from(
        &mut self,
        left: &Part<'_>,
        step: u16,
        bit: u8,
        part: &str,
    ) -> Result<(), CronError>
        requires { 0 < step }
        ensures { Reads (stepped_from self.old.shape left.now step bit) self.old self.new result }
    {
        let (start, end) = self.step_bounds(left, part)?;
        if !self.has_range(start, end) {
            return Err(self.range_out_of_bounds(start, end, part));
        }
        self.mark_stepped(start, end, step, bit, part)
    }

    fn handle_range(&mut self, part: &Part<'_>) -> Result<(), CronError>
        ensures { Reads (ranged self.old.shape part.now) self.old self.new result }
    {
        let text = part.text();
        let bit = self.tag(part)?;
        let (start, end) = self.sides(&part.part_before(Sign::Hash), Sign::Dash, text)?;
        let start = self.number_in(start.text().trim(), text)?;
        let end = self.number_in(end.trim(), text)?;
        if !self.has_range(start, end) {
            return Err(self.range_out_of_bounds(start, end, text));
        }
        self.mark_all(start, end, bit)
    }

    fn handle_closest_weekday(&mut self, part: &Part<'_>) -> Result<(), CronError>
        ensures { Reads (nearest_weekday self.old.shape part.now) self.old self.new result }
    {
        let day = part.part_before(Sign::LetterW).text();
        if day == "L" || day == "l" {
            self.enable_feature(LAST_BIT)?;
            return self.enable_feature(CLOSEST_WEEKDAY_BIT);
        }
        self.mark_number(day, CLOSEST_WEEKDAY_BIT, part.text())
    }

    fn handle_number(&mut self, part: &Part<'_>) -> Result<(), CronError>
        ensures { Reads (one_number self.old.shape part.now) self.old self.new result }
    {
        let text = part.text();
        if (part.has(Sign::Hash) || part.has(Sign::LetterL)) && !self.is_feature_allowed(NTH_ALL) {
            return Err(self.no_nth_here(text));
        }
        if part.ends_in_l() && !part.has(Sign::Hash) {
            return self.mark_number(part.part_before(Sign::LetterL).text(), LAST_BIT, text);
        }
        let bit = self.tag(part)?;
        self.mark_number(part.part_before(Sign::Hash).text(), bit, text)
    }

    fn tag(&self, part: &Part<'_>) -> Result<u8, CronError>
        ensures { Finds (λ t. t) (tag_of part.now) result }
    {
        if part.ends_in_l() {
            return Ok(LAST_BIT);
        }
        if !part.has(Sign::Hash) {
            return Ok(ALL_BIT);
        }
        let nth = part.text_after(Sign::Hash);
        match number(nth) {
            Some(1) => Ok(NTH_1ST_BIT),
            Some(2) => Ok(NTH_2ND_BIT),
            Some(3) => Ok(NTH_3RD_BIT),
            Some(4) => Ok(NTH_4TH_BIT),
            Some(5) => Ok(NTH_5TH_BIT),
            _ => Err(self.wrong_nth(nth, part.text())),
        }
    }

    #[tactic(auto, using(crate::proofs::fields::TextPieces::two_sides))]
    fn sides<'t>(
        &self,
        head: &Part<'t>,
        sign: Sign,
        part: &str,
    ) -> Result<(Part<'t>, &'t str), CronError>
        ensures { Finds (λ s. (s.0, s.1.now)) (two_of (pieces_at (byte_of sign) head.now)) result }
    {
        if head.has(sign) {
            let right = head.text_after(sign);
            if !has(right, sign.character()) {
                return Ok((head.part_before(sign), right));
            }
        }
        Err(self.sign_not_once(sign.character(), part))
    }

    fn is_starred(&self, left: &str) -> bool
        ensures { result ≡ is_starred self.now.shape left.now }
    {
        left == "*" || (self.sloppy_ranges && left.is_empty())
    }

    fn step_bounds(&self, left: &Part<'_>, part: &str) -> Result<(u16, u16), CronError>
        ensures { Finds (λ b. (b.0, b.1)) (step_bounds self.now.shape left.now) result }
    {
        let text = left.text();
        if text == "*" {
            Ok((self.min + self.input_offset, self.marks.max()))
        } else if left.has(Sign::Dash) {
            let (start, end) = self.sides(left, Sign::Dash, part)?;
            let start = self.number_in(start.text(), part)?;
            let end = self.number_in(end, part)?;
            Ok((start, end))
        } else if !self.sloppy_ranges {
            Err(self.no_range_to_step(text, part))
        } else if text.is_empty() {
            Ok((self.min + self.input_offset, self.marks.max()))
        } else {
            let start = self.number_in(text, part)?;
            Ok((start, self.marks.max()))
        }
    }

    fn has_range(&self, start: u16, end: u16) -> bool
        ensures { result ≡ ((nat_le self.now.shape.min start && nat_le end self.now.shape.max) && nat_le start end) }
    {
        self.min <= start && end <= self.marks.max() && start <= end
    }

    fn number_in(&self, text: &str, part: &str) -> Result<u16, CronError>
        ensures { Finds (λ n. n) (number_of text.now) result }
    {
        match number(text) {
            Some(number) => Ok(number),
            None => Err(self.no_number(text, part)),
        }
    }

    fn mark_number(&mut self, text: &str, bit: u8, part: &str) -> Result<(), CronError>
        ensures { Reads (single self.old.shape bit text.now) self.old self.new result }
    {
        let number = self.number_in(text, part)?;
        if number < self.min || number > self.marks.max() {
            return Err(self.number_out_of_bounds(number, part));
        }
        self.set_bit(number, bit)
    }

    fn mark_all(&mut self, first: u16, last: u16, bit: u8) -> Result<(), CronError>
        requires order { first ≤ last }
        requires within { last ≤ self.old.shape.max + self.old.shape.offset }
        ensures { Reads (all_marked self.old.shape bit (values_between first last)) self.old self.new result }
    {
        let first = self.value_at(first, bit)?;
        self.marks
            .set_steps(first, last - self.input_offset, 1, bit);
        Ok(())
    }

    fn mark_stepped(
        &mut self,
        start: u16,
        end: u16,
        step: u16,
        bit: u8,
        part: &str,
    ) -> Result<(), CronError>
        requires step { 0 < step }
        requires order { start ≤ end }
        requires within { end ≤ self.old.shape.max + self.old.shape.offset }
        ensures { Reads (stepped_marks self.old.shape bit start end step) self.old self.new result }
    {
        let first = self.value_at(start, bit)?;
        self.marks
            .set_steps(first, end - self.input_offset, step, bit);
        let last = end - (end - start) % step;
        match last.checked_add(step) {
            Some(_) => Ok(()),
            None => Err(self.step_too_long(step, part)),
        }
    }
}
