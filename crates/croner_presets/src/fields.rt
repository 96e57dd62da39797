//! The words of a text, and the texts of its fields.
ghost use Rattle.std.specs.Prelude.{◌≡◌, map, option_map, IfOk};
ghost use Rattle.croner.specs.parser.Grammar.{seven, fields_of};
ghost use Rattle.croner.specs.parser.Words.{AreWords};
ghost use Rattle.croner.specs.parser.Settings.{accepts_count};
ghost use Rattle.croner_presets.specs.Presets.{settings_of};
ghost use Rattle.croner_presets.specs.Views.{fields_seen};

use crate::preset::Preset;
use std::alloc::{AllocError, Global};

/// The texts of the fields. Where there are no seconds they are `0`, and where there are no years `*`.
#[derive(Clone, Copy)]
pub(crate) struct Fields<'t> {
    pub seconds: &'t str,
    pub minutes: &'t str,
    pub hours: &'t str,
    pub days: &'t str,
    pub months: &'t str,
    pub weekdays: &'t str,
    pub years: &'t str,
}

/// The words of a text: its pieces between white space.
pub(crate) fn words_of(alloc: Global, text: &str) -> Result<Vec<&str>, AllocError>
    ensures { IfOk result (λ words. AreWords text.now (map (λ w. w.now) words.items)) }
{
    let mut words = Vec::new(alloc);
    for word in text.split_whitespace() {
        words.push(word)?;
    }
    Ok(words)
}

/// The fields of some words, if the settings of a preset accept that many.
pub(crate) fn fields_of<'t>(preset: Preset, words: &[&'t str]) -> Option<Fields<'t>>
    ensures { option_map fields_seen result ≡ fields_of (settings_of preset) (map (λ w. w.now) words.now) }
{
    if accepts(preset, words.len()) {
        fields_by_count(words)
    } else {
        None
    }
}

fn accepts(preset: Preset, count: usize) -> bool
    ensures { result ≡ accepts_count (settings_of preset).seconds_field (settings_of preset).year_field count }
{
    match preset {
        Preset::Kubernetes | Preset::Github => count == 5,
        Preset::Quartz => count == 6 || count == 7,
        Preset::Spring => count == 6,
    }
}

// The words as fields: five have no seconds, and five or six no years.
fn fields_by_count<'t>(words: &[&'t str]) -> Option<Fields<'t>>
    ensures { option_map fields_seen result ≡ seven (map (λ w. w.now) words.now) }
{
    match words {
        [minutes, hours, days, months, weekdays] => Some(Fields {
            seconds: "0",
            minutes,
            hours,
            days,
            months,
            weekdays,
            years: "*",
        }),
        [seconds, minutes, hours, days, months, weekdays] => Some(Fields {
            seconds,
            minutes,
            hours,
            days,
            months,
            weekdays,
            years: "*",
        }),
        [seconds, minutes, hours, days, months, weekdays, years] => Some(Fields {
            seconds,
            minutes,
            hours,
            days,
            months,
            weekdays,
            years,
        }),
        _ => None,
    }
}
