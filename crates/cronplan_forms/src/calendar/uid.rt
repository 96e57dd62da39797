//! The identifier of a start.
ghost use Rattle.std.specs.Prelude.{◌≡◌, IfOk, string_bytes};
ghost use Rattle.cronplan_forms.specs.Calendars.{key_text, namespace, name_uuid, uid_text};

use crate::job::Job;
use std::alloc::{AllocError, Global};
use uuid::Uuid;

/// The UUID of a job's start at a second. It stays the same when other lines are added to the crontab. The only error is lack of memory.
#[tactic(auto, unfolding(crate::specs::Calendars::uid_text))]
pub(crate) fn uid_text(alloc: Global, job: Job<'_>, second: i64) -> Result<String, AllocError>
    ensures { IfOk result (λ t. string_bytes t ≡ uid_text job.entry second) }
{
    let key = key_text(alloc, job, second)?;
    let id = name_uuid(key.as_slice()).hyphenated();
    let mut buffer = Uuid::encode_buffer();
    String::from_str(alloc, id.encode_lower(&mut buffer))
}

// The UUID of a name in the namespace of starts.
#[tactic(auto, unfolding(crate::specs::Calendars::name_uuid))]
fn name_uuid(name: &[u8]) -> Uuid
    ensures { result ≡ name_uuid namespace name.now }
{
    let namespace = Uuid::from_bytes([
        0x2b, 0x13, 0x53, 0x13, 0x6d, 0x20, 0x4e, 0x18, 0x9c, 0xd0, 0x59, 0xf4, 0x0d, 0x31, 0xb8,
        0x82,
    ]);
    Uuid::new_v5(&namespace, name)
}

// The name of a start there.
#[tactic(auto, unfolding(crate::specs::Calendars::key_text))]
fn key_text(alloc: Global, job: Job<'_>, second: i64) -> Result<Vec<u8>, AllocError>
    ensures { IfOk result (λ k. k.items ≡ key_text job.entry second) }
{
    let (equal, user, times) = (job.equal, job.user, job.times);
    let front = format!(in alloc; "{equal} {second} {user}\0{times}\0")?;
    let mut key = front.into_bytes();
    key.extend_from_slice(job.command)?;
    Ok(key)
}
