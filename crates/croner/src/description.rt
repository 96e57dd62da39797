//! The description of a job in words: that of its pattern.

ghost use Rattle.croner_pattern.specs.Description.{description};
ghost use Rattle.croner_words.specs.English.{english};
ghost use Rattle.croner_words.specs.Writes.{Writes};
ghost use Rattle.croner.specs.Views.{job_of};

use crate::job::Cron;
use croner_base::errors::CronError;
use croner_pattern::describe::Language;

impl Cron {
    /// The description in English. The only error is `OutOfMemory`.
    ///
    /// ```
    /// let job = Cron::from_str(alloc, "5 9 * * *")?;
    /// let english = job.describe()?; // At 09:05.
    /// ```
    pub fn describe(&self) -> Result<String, CronError>
        ensures { Writes (description english (job_of self.now)) result }
    {
        self.pattern.describe()
    }

    /// The description in a language. The only error is `OutOfMemory`.
    ///
    /// ```
    /// let job = Cron::from_str(alloc, "5 9 * * *")?;
    /// let swedish = job.describe_lang(Swedish)?; // Klockan 09:05.
    /// ```
    pub fn describe_lang<L: Language + Drop>(&self, language: L) -> Result<String, CronError>
        ensures { Writes (description (L.meaning language) (job_of self.now)) result }
    {
        self.pattern.describe_lang(language)
    }
}
