//! The jobs that were seen, to find those that repeat an earlier one: for each, the place where it came first.
ghost use Rattle.std.specs.Prelude.{◌≡◌, true, false, Option, None, Some, option_map, string_bytes, IfOk, OnOk, OnErr, if◌then◌else◌};
ghost use Rattle.croner.specs.Views.{job_of as meaning_of_job};
ghost use Rattle.crontab.specs.Entries.{entry_seen};
ghost use Rattle.croncheck_reading.specs.Same.{meaning_found};
ghost use Rattle.croncheck_report.specs.Report.{file_and_line};
ghost use Rattle.croncheck_reading.specs.Same.{times_compared, job_compared_in, owner_of, JobKey, IsCompared, are_same, place_kept, KeepsPlaces, Finds, FindsAny};

use croncheck_report::location::Location;
use croncheck_report::report::Same;
use croncheck_report::settings::Settings;
use croner::Cron;
use crontab::content::Outcome;
use crontab::line::Entry;
use std::alloc::{AllocError, Global};
use std::collections::BTreeMap;

/// The jobs that were seen so far. It takes memory in proportion to them.
pub struct Seen {
    // The places by the bytes of user and command, and by the times.
    jobs: BTreeMap<(Vec<u8>, Cron), Same>,
}

// By hand, so that a function that lets one go calls this one: its proof doesn't go through the fields at each exit.
impl Drop for Seen {
    fn drop(self) {
        let Seen { jobs: _ } = self;
    }
}

impl Seen {
    /// None was seen yet.
    pub fn new(alloc: Global) -> Seen
        ensures { (key : JobKey) → place_kept result key ≡ None }
    {
        Seen {
            jobs: BTreeMap::new(alloc),
        }
    }

    /// The place of the first job that is the same as the one of an entry: its times have the same meaning, and its user and its command
    /// have the same bytes. `outcome` is what the parser makes of the entry's times. If there is no such job, this one is kept with its
    /// place.
    ///
    /// Nothing is found and nothing is kept if the settings don't compare jobs, or if the entry has no job, or one without times. The only
    /// error is lack of memory; it leaves what was kept as it was.
    pub fn first_same(
        &mut self,
        alloc: Global,
        settings: &Settings<'_>,
        entry: &Entry<'_>,
        outcome: &Outcome,
        place: Location<'_>,
    ) -> Result<Option<Same>, AllocError>
        ensures alone { settings.now.compares_jobs ≡ false → IfOk result (λ found. found ≡ None) }
        ensures unasked { settings.now.compares_jobs ≡ false → self.new ≡ self.old }
        ensures found { settings.now.compares_jobs ≡ true → IfOk result (λ found. (key : Option JobKey) × IsCompared (entry_seen entry.now) outcome.now key
            × FindsAny key (place.entry.file.now, place.entry.line) self.old self.new found) }
        ensures err { OnErr result (KeepsPlaces self.old self.new) }
    {
        if !settings.compares_jobs {
            return Ok(None);
        }
        match job_compared(entry, outcome)? {
            Some(job) => self.first_same_job(alloc, owner_of(alloc, entry)?, job, place),
            None => Ok(None),
        }
    }

    // The place of the first job with this user and command (`words`) and these times; else this one is kept.
    fn first_same_job(
        &mut self,
        alloc: Global,
        words: Vec<u8>,
        job: Cron,
        place: Location<'_>,
    ) -> Result<Option<Same>, AllocError>
        ensures found { IfOk result (λ found. Finds (words, job) (place.entry.file.now, place.entry.line) self.old self.new found) }
        ensures err { OnErr result (KeepsPlaces self.old self.new) }
    {
        let key = (words, job);
        match self.place_of(alloc, &key)? {
            Some(same) => Ok(Some(same)),
            None => {
                self.keep(alloc, key, place)?;
                Ok(None)
            }
        }
    }

    // The place that is kept of a job, if one is.
    fn place_of(&self, alloc: Global, key: &(Vec<u8>, Cron)) -> Result<Option<Same>, AllocError>
        ensures { IfOk result (λ found. option_map file_and_line found ≡ place_kept self.now key.now) }
    {
        match self.jobs.get(key) {
            Some(same) => Ok(Some(same_at(alloc, same.file.as_str(), same.line)?)),
            None => Ok(None),
        }
    }

    // Keeps the place of a job of which none is kept.
    #[tactic(auto, using(crate::proofs::Kept::kept_entries))]
    fn keep(
        &mut self,
        alloc: Global,
        key: (Vec<u8>, Cron),
        place: Location<'_>,
    ) -> Result<(), AllocError>
        ensures kept { OnOk result ((other : JobKey) → place_kept self.new other
            ≡ (if are_same key other then Some (place.entry.file.now, place.entry.line) else place_kept self.old other)) }
        ensures err { OnErr result (KeepsPlaces self.old self.new) }
    {
        let same = same_at(alloc, place.file, place.line)?;
        self.jobs.insert(key, same)?;
        Ok(())
    }
}

// The job of an entry as it is compared. `outcome` is what the parser makes of the entry's times.
fn job_compared(entry: &Entry<'_>, outcome: &Outcome) -> Result<Option<Cron>, AllocError>
    ensures { IfOk result (λ found. option_map meaning_of_job found ≡ option_map (job_compared_in (entry_seen entry.now)) (meaning_found outcome.now)) }
{
    match outcome {
        Outcome::Job(job) => Ok(Some(job_compared_in(entry, job)?)),
        Outcome::NoText
        | Outcome::TimesRefused(_)
        | Outcome::PatternRefused(_)
        | Outcome::NotUtf8 => Ok(None),
    }
}

// The job of an entry as it is compared.
fn job_compared_in(entry: &Entry<'_>, job: &Cron) -> Result<Cron, AllocError>
    ensures { IfOk result (λ found. meaning_of_job found ≡ job_compared_in (entry_seen entry.now) (meaning_of_job job.now)) }
{
    match entry {
        Entry::Job(_) => times_compared(job),
        Entry::Blank
        | Entry::Comment
        | Entry::Setting { .. }
        | Entry::Pattern(_)
        | Entry::Refused { .. } => job.clone(),
    }
}

// If a day field is `*`, the other one decides alone, whether a day has to match both or either. So that flag isn't compared then:
// `@hourly` and `0 * * * *` are the same.
fn times_compared(job: &Cron) -> Result<Cron, AllocError>
    ensures { IfOk result (λ found. meaning_of_job found ≡ times_compared (meaning_of_job job.now)) }
{
    let mut pattern = job.pattern.clone()?;
    let (star_day, star_weekday) = (pattern.is_dom_wildcard(), pattern.is_dow_wildcard());
    if star_day || star_weekday {
        pattern.set_flags(star_day, star_weekday, false);
    }
    Ok(Cron { pattern })
}

fn same_at(alloc: Global, file: &str, line: u64) -> Result<Same, AllocError>
    ensures { IfOk result (λ same. file_and_line same ≡ (file.now, line)) }
{
    let file = String::from_str(alloc, file)?;
    Ok(Same { file, line })
}

// The user and the command of an entry, with a byte 0 between them, which neither of them has. A pattern has neither.
fn owner_of(alloc: Global, entry: &Entry<'_>) -> Result<Vec<u8>, AllocError>
    ensures { IfOk result (λ words. words.items ≡ owner_of (entry_seen entry.now)) }
{
    let mut words = Vec::new(alloc);
    if let Entry::Job(job) = entry {
        words.extend_from_slice(job.user.unwrap_or(&[]))?;
        words.push(0)?;
        words.extend_from_slice(job.command)?;
    }
    Ok(words)
}
