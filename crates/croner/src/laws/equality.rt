//! Laws of the equality, the order and the hash of jobs.
ghost use Rattle.std.specs.Prelude.{◌≡◌, ◌↔◌, ℤ, false, IsTrue, IfOk, IfErr, string_bytes, if◌then◌else◌};
ghost use Rattle.std.specs.Cmp.{IsTotalOrder};
ghost use Rattle.std.specs.Ordering.{is_gt, ordering_reverse};
ghost use Rattle.croner_pattern.specs.Description.{description};
ghost use Rattle.croner_pattern.specs.Order.{pattern_cmp};
ghost use Rattle.croner_pattern.specs.Schedule.{DateMatches, IsScheduled, is_fixed_time};
ghost use Rattle.croner_pattern.specs.Written.{pattern_writes};
ghost use Rattle.croner.specs.laws.Equality.{AreSameButTexts, hash_of_writes};
ghost use Rattle.croner.specs.Views.{job_of};

use crate::{Cron, JobType};
use croner_base::errors::CronError;
use croner_pattern::describe::{Language, describe};
use std::alloc::Global;
use std::cmp::Ordering;
use std::hash::{DefaultHasher, Hash, Hasher};

/// Whether two jobs are equal, and the kind of each.
///
/// Equal jobs differ at most in their texts. So they have the same schedule, also for the dates to which a run is carried, and
/// the same kind: in every zone they run at the same instants.
pub fn equal_and_kinds(one: &Cron, other: &Cron) -> (bool, JobType, JobType)
    ensures equal { IsTrue result.0 ↔ AreSameButTexts (job_of one.now) (job_of other.now) }
    ensures scheduled { IsTrue result.0 → (w : ℤ) → IsScheduled (job_of one.now) w ↔ IsScheduled (job_of other.now) w }
    ensures dates { IsTrue result.0 → (w : ℤ) → DateMatches (job_of one.now) w ↔ DateMatches (job_of other.now) w }
    ensures kind { result.1 ≡ (if is_fixed_time (job_of one.now) then JobType.FixedTime else JobType.IntervalWildcard) }
    ensures other_kind { result.2 ≡ (if is_fixed_time (job_of other.now) then JobType.FixedTime else JobType.IntervalWildcard) }
    ensures kinds { IsTrue result.0 → result.1 ≡ result.2 }
{
    (
        one == other,
        one.determine_job_type(),
        other.determine_job_type(),
    )
}

/// Whether two jobs are equal, and the description of each in a language.
///
/// Equal jobs have the same description in every language. The only error is `OutOfMemory`.
pub fn equal_and_described<L: Language>(
    alloc: Global,
    one: &Cron,
    other: &Cron,
    language: &L,
) -> Result<(bool, String, String), CronError>
    ensures equal { IfOk result (λ r. IsTrue r.0 ↔ AreSameButTexts (job_of one.now) (job_of other.now)) }
    ensures text { IfOk result (λ r. string_bytes r.1 ≡ description (L.meaning language.now) (job_of one.now)) }
    ensures other_text { IfOk result (λ r. string_bytes r.2 ≡ description (L.meaning language.now) (job_of other.now)) }
    ensures same { IfOk result (λ r. IsTrue r.0 → string_bytes r.1 ≡ string_bytes r.2) }
    ensures err { IfErr result (λ e. e ≡ CronError.OutOfMemory) }
{
    let text = describe(alloc, &one.pattern, language)?;
    let other_text = describe(alloc, &other.pattern, language)?;
    Ok((one == other, text, other_text))
}

/// Whether two jobs are equal, and how each compares with the other.
///
/// `cmp` is `Equal` exactly where `==` holds, and swapping the two reverses it.
pub fn equal_and_compared(one: &Cron, other: &Cron) -> (bool, Ordering, Ordering)
    ensures order { result.1 ≡ pattern_cmp one.now.pattern other.now.pattern }
    ensures equal { IsTrue result.0 ↔ (result.1 ≡ Ordering.Equal) }
    ensures turned { result.2 ≡ ordering_reverse result.1 }
{
    (one == other, one.cmp(other), other.cmp(one))
}

/// How three jobs compare: the first with the second, the second with the third, and the first with the third.
///
/// The order is total. If the first is at most the second, and the second at most the third, the first is at most the third. It
/// is equal to the third only if all three are equal.
pub fn compared_in_turn(first: &Cron, second: &Cron, third: &Cron) -> (Ordering, Ordering, Ordering)
    ensures one { result.0 ≡ pattern_cmp first.now.pattern second.now.pattern }
    ensures two { result.1 ≡ pattern_cmp second.now.pattern third.now.pattern }
    ensures both { result.2 ≡ pattern_cmp first.now.pattern third.now.pattern }
    ensures chain { is_gt result.0 ≡ false → is_gt result.1 ≡ false → is_gt result.2 ≡ false }
    ensures total { IsTotalOrder pattern_cmp }
{
    (first.cmp(second), second.cmp(third), first.cmp(third))
}

/// Whether two jobs are equal, and what std's default hasher makes of each.
///
/// Equal jobs feed the same to every hasher, whatever their texts are.
pub fn equal_and_hashed(one: &Cron, other: &Cron) -> (bool, u64, u64)
    ensures equal { IsTrue result.0 ↔ AreSameButTexts (job_of one.now) (job_of other.now) }
    ensures fed { IsTrue result.0 → pattern_writes one.now.pattern ≡ pattern_writes other.now.pattern }
    ensures hash { result.1 ≡ hash_of_writes (pattern_writes one.now.pattern) }
    ensures other_hash { result.2 ≡ hash_of_writes (pattern_writes other.now.pattern) }
    ensures hashes { IsTrue result.0 → result.1 ≡ result.2 }
{
    (one == other, hash_of(one), hash_of(other))
}

// What std's default hasher makes of a job.
fn hash_of(job: &Cron) -> u64
    ensures { result ≡ hash_of_writes (pattern_writes job.now.pattern) }
{
    let mut state = DefaultHasher::new();
    job.hash(&mut state);
    state.finish()
}
