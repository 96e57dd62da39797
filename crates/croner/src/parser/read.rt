//! The last step: the texts of the seven fields are read into a pattern.

ghost use Rattle.std.specs.Prelude.{◌≡◌, ℕ, List};
ghost use Rattle.croner_base.specs.Field.{with_sloppy};
ghost use Rattle.croner_pattern.specs.Meaning.{meaning_of};
ghost use Rattle.croner.specs.parser.Grammar.{text_of_field};
ghost use Rattle.croner.specs.Private.parser.Steps.{ReadsAll, ReadsField, Reads, start_meaning};
ghost use Rattle.croner.specs.parser.Settings.{Settings};
ghost use Rattle.croner.specs.Views.{texts_of};

use super::CronParser;
use super::characters::{are_legal, illegal_field};
use super::fault::PatternField;
use super::fields::FieldTexts;
use super::settle::{is_star, settle_weekdays};
use super::stop::{Cause, Stop};
use croner_base::component::CronComponent;
use croner_base::errors::CronError;
use croner_pattern::pattern::CronPattern;
use std::alloc::Global;

impl CronParser {
    ghost use Rattle.croner.specs.parser.Grammar.{of_settled};

    /// The pattern of settled fields. It stops only for a field that has a character that is not legal there, or can't be
    /// read, and for lack of memory.
    pub(super) fn read(
        &self,
        alloc: Global,
        text: &str,
        fields: FieldTexts<'_>,
        and: bool,
    ) -> Result<CronPattern, Stop>
        ensures { Reads meaning_of result (of_settled self.now text.now (texts_of fields.entry) and) }
    {
        if !are_legal(fields) {
            let field = illegal_field(fields);
            return Err(Stop::Refused(Cause::Illegal(field)));
        }
        let Ok(mut pattern) = CronPattern::new_in_mode(alloc, text, self.alternative_weekdays)
        else {
            return Err(Stop::OutOfMemory);
        };
        read_fields(&mut pattern, fields, self.sloppy_ranges)?;
        settle_weekdays(&mut pattern.days_of_week, self.alternative_weekdays);
        pattern.set_flags(is_star(fields.days), is_star(fields.days_of_week), and);
        Ok(pattern)
    }
}

/// Reads the text of a field into it; a refusal names that field, and the part of its list at which reading stopped.
fn read_field(
    component: &mut CronComponent,
    fields: FieldTexts<'_>,
    sloppy: bool,
    field: PatternField,
) -> Result<(), Stop>
    ensures { ReadsField (with_sloppy component.old sloppy).shape (text_of_field field (texts_of fields.entry))
        (with_sloppy component.old sloppy) component.new field result }
{
    component.set_sloppy_ranges(sloppy);
    match component.parse_parts(fields.at(field)) {
        Ok(()) => Ok(()),
        Err(refused) => match refused.error {
            CronError::OutOfMemory => Err(Stop::OutOfMemory),
            _ => Err(Stop::Refused(Cause::Component(field, refused.part))),
        },
    }
}

/// Reads each field's text into the field, in order.
pub fn read_fields(
    pattern: &mut CronPattern,
    fields: FieldTexts<'_>,
    sloppy: bool,
) -> Result<(), Stop>
    ensures { (s : Settings) → s.sloppy ≡ sloppy → (text : List ℕ) → meaning_of pattern.old ≡ start_meaning s text
        → ReadsAll s text (texts_of fields.entry) (meaning_of pattern.new) result }
{
    read_field(&mut pattern.seconds, fields, sloppy, PatternField::Seconds)?;
    read_field(&mut pattern.minutes, fields, sloppy, PatternField::Minutes)?;
    read_field(&mut pattern.hours, fields, sloppy, PatternField::Hours)?;
    read_field(&mut pattern.days, fields, sloppy, PatternField::DayOfMonth)?;
    read_field(&mut pattern.months, fields, sloppy, PatternField::Month)?;
    let weekdays = &mut pattern.days_of_week;
    read_field(weekdays, fields, sloppy, PatternField::Weekday)?;
    read_field(&mut pattern.years, fields, sloppy, PatternField::Year)?;
    Ok(())
}
