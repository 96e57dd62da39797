//! A watch of the processor time of the program's thread.

use std::io;
use std::rt::CpuClock;
use std::time::Duration;

/// A watch that is running, or was stopped.
#[derive(Drop)]
pub struct Watch<'r> {
    rt: &'r HostRuntime,
    begin: io::Result<Duration>,
    end: Option<io::Result<Duration>>,
}

impl<'r> Watch<'r> {
    /// A watch that begins now.
    pub fn start(rt: &'r HostRuntime) -> Watch<'r> {
        let begin = rt.thread_cpu_time();
        Watch {
            rt,
            begin,
            end: None,
        }
    }

    /// Begins anew.
    pub fn restart(&mut self) {
        self.begin = self.rt.thread_cpu_time();
    }

    /// Stops: later time isn't measured.
    pub fn stop(&mut self) {
        self.end = Some(self.rt.thread_cpu_time());
    }

    /// The processor time since it began, up to its stop, or up to now if it wasn't stopped. The error is that of either reading of the
    /// clock.
    pub fn time(self) -> io::Result<Duration> {
        let Watch { rt, begin, end } = self;
        let begin = begin?;
        let end = end.unwrap_or(rt.thread_cpu_time())?;
        Ok(end.saturating_sub(begin))
    }
}
