//! Reading how many runs are asked for.
ghost use Rattle.std.specs.Prelude.{◌≡◌, ℕ, Some, IfSome};
ghost use Rattle.std.specs.Char.{is_ascii_digit};
ghost use Rattle.std.specs.List.{list_all};
ghost use Rattle.cronrun_command.specs.Count.{IsCountText};

// The most runs that a call lists.
const MOST_RUNS: u32 = 1000;

/// Reads a count of runs: decimal digits only, for a number from 1 to 1000, with any number of
/// leading zeros. `None` for every other text.
pub fn read_count(text: &str) -> Option<u32>
    ensures reads { IfSome result (IsCountText text.now) }
    ensures finds { (n : ℕ) → IsCountText text.now n → result ≡ Some n }
{
    // `parse` alone would accept a leading plus.
    if !is_digits(text) {
        return None;
    }
    match text.parse::<u32>() {
        Ok(count) if 1 <= count && count <= MOST_RUNS => Some(count),
        _ => None,
    }
}

fn is_digits(text: &str) -> bool
    ensures { result ≡ list_all is_ascii_digit text.now }
{
    text.bytes().all(|byte| byte.is_ascii_digit())
}
