//! A scheduler of many jobs: when to wake up, and what to start then.
use croner::Cron;
use croner::crontable::CronTable;
use jiff::civil::DateTime;

pub fn main(rt: HostRuntime) -> anyhow::Result<()> {
    let mut table = CronTable::new(rt.alloc());
    table.push(Cron::from_str(rt.alloc(), "0 0 * * *")?)?; // place 0: a backup
    table.push(Cron::from_str(rt.alloc(), "0 0 * * MON")?)?; // place 1: a report
    let saturday = DateTime::new(2024, 6, 29, 12, 0, 0, 0)?;
    for (moment, places) in table.iter_after(saturday).take(2) {
        println!(rt; "{moment} {places:?}")?; // [0] on Sunday, [0, 1] on Monday
    }
    Ok(())
}
