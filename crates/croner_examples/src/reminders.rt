//! Many reminders, each with a text of its own.
use croner::time::table::TableTime;
use croner::{CompactCron, Cron};
use croner_scheduler::CompactScheduler;
use jiff::Timestamp;
use std::alloc::Global;
use std::collections::BTreeMap;

/// When each reminder comes, and by its id what it says.
#[derive(Drop)]
pub struct Reminders<'t> {
    times: CompactScheduler<TableTime<'t>>,
    texts: BTreeMap<u64, String>,
}

impl<'t> Reminders<'t> {
    /// No reminder yet.
    pub fn new(alloc: Global) -> Self {
        Reminders {
            times: CompactScheduler::new(alloc),
            texts: BTreeMap::new(alloc),
        }
    }

    /// Adds a reminder, whose runs after a position are to come. Returns its id. An error leaves the reminders as they were.
    pub fn add(
        &mut self,
        alloc: Global,
        pattern: &str,
        text: &str,
        position: TableTime<'t>,
    ) -> anyhow::Result<u64> {
        let cron = CompactCron::of(alloc, &Cron::from_str(alloc, pattern)?)?;
        let id = self.times.next_id();
        self.texts.insert(id, String::from_str(alloc, text)?)?;
        if let Err(error) = self.times.add(cron, position) {
            self.texts.remove(&id);
            return Err(error.into());
        }
        Ok(id)
    }

    /// Takes the reminder with an id out, if there is one.
    pub fn remove(&mut self, id: u64) {
        self.times.remove(id);
        self.texts.remove(&id);
    }

    /// Prints the texts that are due up to a second, in order of time. Returns the second at which to call again; `None` where no run is
    /// left.
    pub fn show_due(&mut self, rt: &HostRuntime, now: i64) -> anyhow::Result<Option<i64>> {
        for _run in 0..u64::MAX {
            let Some(due) = self.times.take_due(now)? else {
                break;
            };
            if let Some(text) = self.texts.get(&due.id) {
                println!(rt; "{}: {text}", Timestamp::new(due.second, 0)?)?;
            }
        }
        Ok(self.times.next_wake_up())
    }
}
