//! The texts of the seven fields.

use super::fault::PatternField;

/// The text of each field.
#[derive(Clone, Copy)]
pub struct FieldTexts<'t> {
    pub seconds: &'t str,
    pub minutes: &'t str,
    pub hours: &'t str,
    pub days: &'t str,
    pub months: &'t str,
    pub days_of_week: &'t str,
    pub years: &'t str,
}

impl<'t> FieldTexts<'t> {
    ghost use Rattle.std.specs.Prelude.{◌≡◌};
    ghost use Rattle.croner.specs.parser.Grammar.{text_of_field};
    ghost use Rattle.croner.specs.Views.{texts_of};

    /// The text of a field.
    pub fn at(self, field: PatternField) -> &'t str
        ensures { result.now ≡ text_of_field field (texts_of self.entry) }
    {
        match field {
            PatternField::Seconds => self.seconds,
            PatternField::Minutes => self.minutes,
            PatternField::Hours => self.hours,
            PatternField::DayOfMonth => self.days,
            PatternField::Month => self.months,
            PatternField::Weekday => self.days_of_week,
            PatternField::Year => self.years,
        }
    }
}
