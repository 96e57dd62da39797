//! What the zones of a call are called.

use crate::machine::Machine;
use crate::sorted::Sorted;
use croncheck_command::words::{Call, LOCAL};
use croncheck_output::escaped::shown_text;
use jiff::tz::TimeZone;
use std::alloc::AllocError;

/// What the zone of this machine is called, and that of the machine that is checked, where it has no name.
const THIS_ZONE: &str = "this machine";

const CHECKED_ZONE: &str = "that machine";

/// The name of the zone whose clock is shown: its own name, or else that by which the call has it; a machine's zone is named by the machine. The
/// only error is lack of memory.
pub fn name_of_zone(
    rt: &HostRuntime,
    call: &Call<'_>,
    zone: &TimeZone<'_>,
) -> Result<String, AllocError> {
    if let Some(name) = zone.iana_name() {
        return String::from_str(rt.alloc(), name);
    }
    if call.zone != LOCAL {
        return String::from_str(rt.alloc(), call.zone);
    }
    if call.root.is_some() {
        return String::from_str(rt.alloc(), CHECKED_ZONE);
    }
    String::from_str(rt.alloc(), THIS_ZONE)
}

/// The name of the zone that is shown besides, found in the same way; empty if there is none. The only error is lack of memory.
pub fn name_of_other_zone(
    rt: &HostRuntime,
    call: &Call<'_>,
    other: Option<TimeZone<'_>>,
) -> Result<String, AllocError> {
    let Some(zone) = &other else {
        return Ok(String::new(rt.alloc()));
    };
    if let Some(name) = zone.iana_name() {
        return String::from_str(rt.alloc(), name);
    }
    match call.show_zone {
        Some(word) if word != LOCAL => String::from_str(rt.alloc(), word),
        Some(_) | None => String::from_str(rt.alloc(), THIS_ZONE),
    }
}

/// The name of the zone whose clock is shown, for the last line of a call that reads a file: that line counts the files, and names the zone. `None`
/// where no file is read. The only error is lack of memory.
pub fn name_beside_count(
    rt: &HostRuntime,
    call: &Call<'_>,
    machine: &Machine<'_>,
    sorted: &Sorted<'_>,
    zone: &TimeZone<'_>,
) -> Result<Option<String>, AllocError> {
    if !has_file(machine, sorted)? {
        return Ok(None);
    }
    let name = name_of_zone(rt, call, zone)?;
    Ok(Some(shown_text(rt.alloc(), name.as_bytes())?))
}

// Whether a file is read.
fn has_file(machine: &Machine<'_>, sorted: &Sorted<'_>) -> Result<bool, AllocError> {
    for source in sorted.files.as_slice() {
        if machine.has_file(source.asked())? {
            return Ok(true);
        }
    }
    Ok(false)
}
