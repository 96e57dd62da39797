//! Reading the words of a call.
ghost use Rattle.std.specs.Prelude.{◌≡◌, Some, IfSome};
ghost use Rattle.croner_base.specs.declared.time.Direction.{Direction};
ghost use Rattle.cronrun_command.specs.Command.{command_of};

use crate::count::read_count;
use crate::moment::read_datetime;
use crate::zone::read_zone;
use croner::Direction;
use croner::time::CivilDateTime;
use jiff::tz::TimeZone;

/// A call of the program, read from its words.
#[derive(Drop)]
pub enum Request<'w> {
    /// The description of the pattern.
    Describe { pattern: &'w str },
    /// Whether the pattern names a date and time.
    Match { pattern: &'w str, at: CivilDateTime },
    /// Some runs of the pattern.
    List(Listing<'w>),
}

/// A call for runs.
#[derive(Drop)]
pub struct Listing<'w> {
    pub pattern: &'w str,
    /// Forward for the runs after the start, backward for those before it.
    pub direction: Direction,
    pub at: CivilDateTime,
    /// How many runs, from 1 to 1000.
    pub count: u32,
    /// The zone of the start, or `None` for civil time.
    pub zone: Option<TimeZone<'static>>,
}

impl<'w> Request<'w> {
    ghost use Rattle.std.specs.Prelude.{◌∷◌, [], codes, map, string_bytes, IsSome};
    ghost use Rattle.croner_base.specs.declared.time.civil.CivilDateTime.{CivilDateTime};
    ghost use Rattle.cronrun_command.specs.Moment.{IsDateTimeText};
    ghost use Rattle.cronrun_command.specs.Call.{Ask};
    ghost use Rattle.cronrun_command.specs.declared.request.Request.{Request};

    /// Reads the words of a call. `None` where they aren't one: an unknown command, a wrong number
    /// of words, or a word that doesn't have its form. The pattern isn't looked at.
    pub fn read(words: &'w [String]) -> Option<Request<'w>>
        ensures reads { IfSome result (Ask (map string_bytes words.now)) }
        ensures finds { (r : Request) → Ask (map string_bytes words.now) r → IsSome result }
    {
        match words {
            [command, pattern] => Request::read_describe(command.as_str(), pattern.as_str()),
            [command, pattern, at] => {
                Request::read_match(command.as_str(), pattern.as_str(), at.as_str())
            }
            [command, pattern, at, count] => {
                let listing = Listing::read(
                    command.as_str(),
                    pattern.as_str(),
                    at.as_str(),
                    count.as_str(),
                    None,
                )?;
                Some(Request::List(listing))
            }
            [command, pattern, at, count, rule] => {
                let zone = read_zone(rule.as_str())?;
                let listing = Listing::read(
                    command.as_str(),
                    pattern.as_str(),
                    at.as_str(),
                    count.as_str(),
                    Some(zone),
                )?;
                Some(Request::List(listing))
            }
            _ => None,
        }
    }

    // `describe PATTERN`.
    fn read_describe(command: &str, pattern: &'w str) -> Option<Request<'w>>
        ensures reads { IfSome result (Ask (command.now ∷ (pattern.now ∷ []))) }
        ensures finds { command.now ≡ codes "describe" → IsSome result }
    {
        if command != "describe" {
            return None;
        }
        Some(Request::Describe { pattern })
    }

    // `match PATTERN DATETIME`.
    fn read_match(command: &str, pattern: &'w str, at: &str) -> Option<Request<'w>>
        ensures reads { IfSome result (Ask (command.now ∷ (pattern.now ∷ (at.now ∷ [])))) }
        ensures finds { (c : CivilDateTime) → command.now ≡ codes "match" → IsDateTimeText at.now c → IsSome result }
    {
        if command != "match" {
            return None;
        }
        let at = read_datetime(at)?;
        Some(Request::Match { pattern, at })
    }
}

impl<'w> Listing<'w> {
    ghost use Rattle.std.specs.Prelude.{ℕ, IsSome};
    ghost use Rattle.croner_base.specs.declared.time.civil.CivilDateTime.{CivilDateTime};
    ghost use Rattle.cronrun_command.specs.Count.{IsCountText};
    ghost use Rattle.cronrun_command.specs.Moment.{IsDateTimeText};
    ghost use Rattle.cronrun_command.specs.Call.{IsListingOf};

    // `next PATTERN DATETIME COUNT` or `prev PATTERN DATETIME COUNT`, in a zone or in civil time.
    fn read(
        command: &str,
        pattern: &'w str,
        at: &str,
        count: &str,
        zone: Option<TimeZone<'static>>,
    ) -> Option<Listing<'w>>
        ensures reads { IfSome result (IsListingOf command.now pattern.now at.now count.now zone.entry) }
        ensures finds { (d : Direction) (c : CivilDateTime) (n : ℕ) → command.now ≡ command_of d →
            IsDateTimeText at.now c → IsCountText count.now n → IsSome result }
    {
        let direction = read_direction(command)?;
        let at = read_datetime(at)?;
        let count = read_count(count)?;
        Some(Listing {
            pattern,
            direction,
            at,
            count,
            zone,
        })
    }
}

// The direction in which a command lists.
fn read_direction(command: &str) -> Option<Direction>
    ensures reads { IfSome result (λ d. command.now ≡ command_of d) }
    ensures finds { (d : Direction) → command.now ≡ command_of d → result ≡ Some d }
{
    match command {
        "next" => Some(Direction::Forward),
        "prev" => Some(Direction::Backward),
        _ => None,
    }
}
