//! Settings that have an effect in another cron, and none in Debian's.
ghost use Rattle.std.specs.Prelude.{◌≡◌};
ghost use Rattle.croncheck_warnings.specs.Effect.{is_without_effect, has_no_effect};

use crontab::setting::{setting_name, start_of};

/// Whether the variable of a setting, given from its first byte that is no blank on, has an effect in another cron and none in Debian's.
pub fn has_no_effect(text: &[u8]) -> bool
    ensures { result ≡ has_no_effect text.now }
{
    is_without_effect(setting_name(start_of(text)))
}

// Whether a variable is one by which other crons, such as systemd-cron and cronie, start jobs otherwise.
fn is_without_effect(name: &[u8]) -> bool
    ensures { result ≡ is_without_effect name.now }
{
    name == "RANDOM_DELAY".as_bytes()
        || name == "START_HOURS_RANGE".as_bytes()
        || name == "PERSISTENT".as_bytes()
        || name == "DELAY".as_bytes()
        || name == "BATCH".as_bytes()
}
