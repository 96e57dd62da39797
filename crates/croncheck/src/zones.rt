//! The zones that the words of a call name, and that of a machine.

use crate::machine::announce;
use crate::regular::bytes_of;
use croncheck_command::problem::Problem;
use croncheck_command::words::LOCAL;
use croncheck_files::folder::path_in;
use croncheck_moments::zone::refusal_of;
use croncheck_output::escaped::shown_text;
use jiff::Error;
use jiff::tz::{TimeZone, TimeZoneDatabase, Tzif};
use jiff_tz::{SystemTimeZone, posix};
use std::alloc::AllocError;
use std::env::VarError;
use std::io::ErrorKind;
use std::{env, fs};

/// What stands in front of the name of a zone in the path of its file.
const ZONES: &str = "zoneinfo/";

/// The folder of zones that `jiff` reads first where `TZDIR` names none.
const FOLDER_OF_ZONES: &str = "/usr/share/zoneinfo";

/// The folders in it whose files `jiff` leaves out: the same zones by other names.
const LEFT_OUT: [&str; 2] = ["posix", "right"];

/// The longest file that `jiff` reads as a zone.
const MOST_ZONE_BYTES: usize = 1 << 20;

/// What is said of the file of a machine's zone where it isn't there, and where it is no file.
const NO_CLOCK: &str = "isn't there, so that the zone is UTC";

const NO_CLOCK_FILE: &str = "a pipe, a socket or a device, and not read, so that the zone is UTC";

/// What was read for a zone.
pub struct ZoneSource {
    // What was asked for.
    meant: SystemTimeZone,
    // The zones among which it is looked up, if it is a name.
    zones: TimeZoneDatabase,
}

// By hand, so that a function that lets one go calls this one.
impl Drop for ZoneSource {
    fn drop(self) {
        let ZoneSource { meant: _, zones: _ } = self;
    }
}

impl ZoneSource {
    /// What has to be read for the word of an option: a rule, `local`, or the name of a zone. The error is that of the zone of this machine,
    /// or says that memory is lacking.
    pub fn of_word(rt: &HostRuntime, word: &str) -> Result<ZoneSource, Problem> {
        let meant = meant_by_word(rt, word).map_err(Problem::Zone)?;
        ZoneSource::of(rt, meant)
    }

    /// What has to be read for the zone of the machine that is checked, whose file, or the link to it, has this path: that of the name in the
    /// link, and else that of the file. Standard error says which name it is, or that there is no file, so that the zone is UTC. The error is
    /// that of the file, or says that memory is lacking.
    pub fn of_machine(rt: &HostRuntime, path: &str) -> Result<ZoneSource, Problem> {
        let meant = meant_by_machine(rt, path)?;
        ZoneSource::of(rt, meant)
    }

    fn of(rt: &HostRuntime, meant: SystemTimeZone) -> Result<ZoneSource, Problem> {
        let zones = zones_for(rt, &meant).map_err(Problem::Zone)?;
        Ok(ZoneSource { meant, zones })
    }

    /// The zone, which is that of the word of an option. The error says what is wrong with the word, or that memory is lacking.
    pub fn zone(
        &self,
        rt: &HostRuntime,
        option: &str,
        word: &str,
    ) -> Result<TimeZone<'_>, Problem> {
        match self.meant.time_zone(self.zones.as_plain()) {
            Ok(zone) => Ok(TimeZone::from_plain(zone)),
            Err(Error::TimeZoneNotFound) if word != LOCAL => {
                Err(problem_of_no_zone(rt, &self.zones, option, word))
            }
            Err(error) => Err(Problem::Zone(error)),
        }
    }
}

// ---- what is meant

fn meant_by_word(rt: &HostRuntime, word: &str) -> Result<SystemTimeZone, Error> {
    if let Ok(rule) = posix::TimeZone::parse(word.as_bytes()) {
        return Ok(SystemTimeZone::Posix(rule));
    }
    if word == LOCAL {
        return SystemTimeZone::read(rt);
    }
    named(rt, word)
}

fn named(rt: &HostRuntime, name: &str) -> Result<SystemTimeZone, Error> {
    Ok(SystemTimeZone::Name {
        name: String::from_str(rt.alloc(), name)?,
        link: None,
        file: None,
    })
}

fn meant_by_machine(rt: &HostRuntime, path: &str) -> Result<SystemTimeZone, Problem> {
    match fs::read_link(rt, path) {
        Ok(target) => match zone_name(target.as_path().to_string_lossy()) {
            Some(name) => meant_by_link(rt, path, name),
            None => meant_by_file(rt, path),
        },
        Err(error) if error.kind() == ErrorKind::OutOfMemory => Err(Problem::OutOfMemory),
        Err(_) => meant_by_file(rt, path),
    }
}

// The name of the zone to whose file a link leads.
fn zone_name(target: &str) -> Option<&str> {
    let at = target.rfind(ZONES)?;
    target.get(at + ZONES.len()..)
}

// The zone to whose file a link leads, of which standard error says that it is the zone.
fn meant_by_link(rt: &HostRuntime, path: &str, name: &str) -> Result<SystemTimeZone, Problem> {
    let Ok(()) = announce_zone(rt, path, name) else {
        return Err(Problem::OutOfMemory);
    };
    named(rt, name).map_err(Problem::Zone)
}

fn announce_zone(rt: &HostRuntime, path: &str, name: &str) -> Result<(), AllocError> {
    let name = shown_text(rt.alloc(), name.as_bytes())?;
    let text = format!(in rt.alloc(); "the zone is {name}")?;
    announce(rt, path, text.as_str())
}

fn meant_by_file(rt: &HostRuntime, path: &str) -> Result<SystemTimeZone, Problem> {
    match bytes_of(rt, path) {
        Ok(Some(bytes)) => zone_in(rt, bytes.as_slice()).map_err(Problem::Zone),
        Ok(None) => utc_since(rt, path, NO_CLOCK_FILE),
        Err(error) if error.kind() == ErrorKind::NotFound => utc_since(rt, path, NO_CLOCK),
        Err(error) => Err(Problem::Zone(Error::from(error))),
    }
}

fn zone_in(rt: &HostRuntime, bytes: &[u8]) -> Result<SystemTimeZone, Error> {
    Ok(SystemTimeZone::Tzif(Tzif::parse(rt.alloc(), None, bytes)?))
}

// UTC, for a reason that standard error says.
fn utc_since(rt: &HostRuntime, path: &str, reason: &str) -> Result<SystemTimeZone, Problem> {
    match announce(rt, path, reason) {
        Ok(()) => Ok(SystemTimeZone::Utc),
        Err(_) => Err(Problem::OutOfMemory),
    }
}

// ---- the zones of the database

// The zones among which what is meant is looked up. The only error is lack of memory.
fn zones_for(rt: &HostRuntime, meant: &SystemTimeZone) -> Result<TimeZoneDatabase, Error> {
    match meant {
        SystemTimeZone::Name { name, .. } => zones_with(rt, name.as_str()),
        SystemTimeZone::Utc | SystemTimeZone::Posix(_) | SystemTimeZone::Tzif(_) => {
            Ok(TimeZoneDatabase::new(rt.alloc()))
        }
    }
}

// The zone of this name alone, where the name is that of its file, and else the whole database.
fn zones_with(rt: &HostRuntime, name: &str) -> Result<TimeZoneDatabase, Error> {
    match zone_alone(rt, name)? {
        Some(zones) => Ok(zones),
        None => TimeZoneDatabase::from_env(rt),
    }
}

// A database of one zone, which is the one that the whole database has by this name. `None` where the folder of zones has no file of this
// name as it is written, or where `jiff` wouldn't read that.
fn zone_alone(rt: &HostRuntime, name: &str) -> Result<Option<TimeZoneDatabase>, Error> {
    let folder = folder_of_zones(rt)?;
    if folder.is_empty() || !is_zone_path(name) {
        return Ok(None);
    }
    let Some(path) = path_of_zone(rt, folder.as_str(), name)? else {
        return Ok(None);
    };
    let Some(bytes) = unless_fault(bytes_of(rt, path.as_str()))? else {
        return Ok(None);
    };
    database_of(rt, name, bytes.as_slice())
}

// The folder that the environment names, and else the usual one.
fn folder_of_zones(rt: &HostRuntime) -> Result<String, Error> {
    match env::var(rt, "TZDIR") {
        Ok(folder) => Ok(folder),
        Err(VarError::NotPresent | VarError::NotUnicode) => {
            Ok(String::from_str(rt.alloc(), FOLDER_OF_ZONES)?)
        }
        Err(VarError::OutOfMemory) => Err(Error::OutOfMemory),
    }
}

// Whether a name may be the path of a zone's file below the folder of zones.
fn is_zone_path(name: &str) -> bool {
    name.split('/').all(is_entry) && !name.split('/').next().is_some_and(is_left_out)
}

// Whether a part of a path is the name of an entry of a folder.
fn is_entry(part: &str) -> bool {
    !part.is_empty() && part != "." && part != ".."
}

fn is_left_out(folder: &str) -> bool {
    LEFT_OUT
        .iter()
        .any(|other| folder.eq_ignore_ascii_case(other))
}

// The path of a zone's file, if `jiff` would come to it: it enters no folder that is a link.
fn path_of_zone(rt: &HostRuntime, folder: &str, name: &str) -> Result<Option<String>, AllocError> {
    for (at, _) in name.match_indices('/') {
        let path = path_in(rt.alloc(), folder, name.get(..at).unwrap_or(name))?;
        if !is_folder_itself(rt, path.as_str()) {
            return Ok(None);
        }
    }
    Ok(Some(path_in(rt.alloc(), folder, name)?))
}

// Whether a path is that of a folder, and not of a link to one.
fn is_folder_itself(rt: &HostRuntime, path: &str) -> bool {
    match fs::symlink_metadata(rt, path) {
        Ok(found) => found.is_dir(),
        Err(_) => false,
    }
}

// What was read, if anything was. The only error is lack of memory.
fn unless_fault(read: std::io::Result<Option<Vec<u8>>>) -> Result<Option<Vec<u8>>, Error> {
    match read {
        Ok(found) => Ok(found),
        Err(error) if error.kind() == ErrorKind::OutOfMemory => Err(Error::OutOfMemory),
        Err(_) => Ok(None),
    }
}

// A database of the zone in these bytes. `None` if they are none. The only error is lack of memory.
fn database_of(
    rt: &HostRuntime,
    name: &str,
    bytes: &[u8],
) -> Result<Option<TimeZoneDatabase>, Error> {
    if bytes.len() > MOST_ZONE_BYTES {
        return Ok(None);
    }
    let mut zones = TimeZoneDatabase::new(rt.alloc());
    match zones.insert(name, bytes) {
        Ok(()) => Ok(Some(zones)),
        Err(Error::OutOfMemory) => Err(Error::OutOfMemory),
        Err(_) => Ok(None),
    }
}

// ---- words that are no zone

// What is wrong with the word of an option that is no zone.
fn problem_of_no_zone(
    rt: &HostRuntime,
    zones: &TimeZoneDatabase,
    option: &str,
    word: &str,
) -> Problem {
    match zone_refusal(rt, zones, option, word) {
        Ok(text) => Problem::NoZone(text),
        Err(_) => Problem::OutOfMemory,
    }
}

// What is told of the word; and if it is the name of a place, the zone of that place.
fn zone_refusal(
    rt: &HostRuntime,
    zones: &TimeZoneDatabase,
    option: &str,
    word: &str,
) -> Result<String, AllocError> {
    let mut text = refusal_of(rt.alloc(), option, word)?;
    if let Some(name) = zones.available().find(|name| is_zone_of(name, word)) {
        write!(&mut text, "; the zone of that place is {name}")?;
    }
    Ok(text)
}

// Whether a place stands last in the name of a zone, whatever its letters' case; a blank of it is an underscore there.
fn is_zone_of(name: &str, place: &str) -> bool {
    let last = name.rsplit('/').next().unwrap_or(name).as_bytes();
    let place = place.as_bytes();
    last.len() == place.len() && last.iter().zip(place).all(|(a, b)| is_same_letter(*a, *b))
}

fn is_same_letter(of_name: u8, of_place: u8) -> bool {
    of_name.eq_ignore_ascii_case(&of_place) || of_name == b'_' && of_place == b' '
}
