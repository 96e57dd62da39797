//! Where another program reads a pattern differently.
ghost use Rattle.std.specs.Prelude.{◌≡◌, map, filter, IfOk, IfErr};
ghost use Rattle.croncheck_warnings.specs.Presets.{is_taken, is_told, is_refusal, reading, AreReadings};

use croner::errors::CronError;
use croner_presets::{Difference, Kind, Preset, differences};
use std::alloc::{AllocError, Global};

/// The name of the findings that say where another program reads a pattern differently.
pub const PRESET: &str = "preset";

/// One thing in a pattern that the program of a preset reads differently.
#[derive(Clone, Copy, Drop)]
pub struct Reading {
    pub preset: Preset,
    pub difference: Difference,
}

impl Reading {
    /// A sentence that says what the program reads differently. The only error is lack of memory.
    pub fn sentence(self, alloc: Global) -> Result<String, AllocError> {
        self.preset.sentence(alloc, self.difference)
    }

    /// Whether the program refuses the pattern for it.
    pub fn is_refusal(self) -> bool
        ensures { result ≡ is_refusal self }
    {
        match self.difference.kind() {
            Kind::Refuses => true,
            Kind::Takes | Kind::ReadsOtherwise => false,
        }
    }
}

/// What the program of a preset, if there is one, reads differently in a pattern, in order. If the parser refuses the pattern
/// (`is_refused`), this is what the program accepts in it; else what the program refuses or reads differently.
///
/// The only error is `OutOfMemory`.
pub fn readings_of(
    alloc: Global,
    preset: Option<Preset>,
    is_refused: bool,
    pattern: &str,
) -> Result<Vec<Reading>, CronError>
    ensures ok { IfOk result (λ found. AreReadings preset is_refused pattern.now found.items) }
    ensures err { IfErr result (λ e. e ≡ CronError.OutOfMemory) }
{
    match preset {
        Some(preset) => {
            let all = differences(alloc, preset, pattern)?;
            let told = those_told(alloc, is_refused, all.as_slice())?;
            readings(alloc, preset, told.as_slice())
        }
        None => Ok(Vec::new(alloc)),
    }
}

fn those_told(
    alloc: Global,
    is_refused: bool,
    differences: &[Difference],
) -> Result<Vec<Difference>, CronError>
    ensures ok { IfOk result (λ told. told.items ≡ filter (is_told is_refused) differences.now) }
    ensures err { IfErr result (λ e. e ≡ CronError.OutOfMemory) }
{
    let mut told = Vec::new(alloc);
    for difference in differences {
        if is_told(is_refused, *difference) {
            told.push(*difference)?;
        }
    }
    Ok(told)
}

fn is_told(is_refused: bool, difference: Difference) -> bool
    ensures { result ≡ is_told is_refused difference }
{
    if is_refused {
        is_taken(difference)
    } else {
        !is_taken(difference)
    }
}

fn is_taken(difference: Difference) -> bool
    ensures { result ≡ is_taken difference }
{
    match difference.kind() {
        Kind::Takes => true,
        Kind::Refuses | Kind::ReadsOtherwise => false,
    }
}

fn readings(
    alloc: Global,
    preset: Preset,
    differences: &[Difference],
) -> Result<Vec<Reading>, CronError>
    ensures ok { IfOk result (λ found. found.items ≡ map (reading preset) differences.now) }
    ensures err { IfErr result (λ e. e ≡ CronError.OutOfMemory) }
{
    let mut found = Vec::new(alloc);
    for difference in differences {
        found.push(Reading {
            preset,
            difference: *difference,
        })?;
    }
    Ok(found)
}
