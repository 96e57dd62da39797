//! The entries of a file, one a line.
ghost use Rattle.std.specs.Prelude.{OnOk};
ghost use Rattle.crontab.specs.Checked.{entry_of_line, TakesAll};

use crate::line::{Dialect, Entry, entry_of};
use crate::lines::{read_line, without_line_feed};
use std::alloc::Global;
use std::io;
use std::io::{BufRead, ErrorKind};

/// A consumer of a file's entries, in the order of its lines.
pub trait Entries {
    ghost use Rattle.std.specs.Prelude.{OnOk};
    ghost use Rattle.crontab.specs.Checked.{LineRead, line_seen};

    /// What taking the entry of a line leaves.
    ghost takes: { Self → LineRead → Self → Type 0 };

    /// Takes the entry of the next line. The line comes without its line feed; `is_fed` says whether it had one.
    ///
    /// The error is that of the writer underneath, or lack of memory.
    fn take(&mut self, line: &[u8], entry: Entry<'_>, is_fed: bool) -> io::Result<()>
        ensures { OnOk result (takes self.old (line_seen line.now entry.entry is_fed) self.new) };
}

// Takes the entry of a line.
fn take_line<S: Entries>(
    alloc: Global,
    dialect: Dialect,
    line: &[u8],
    sink: &mut S,
) -> io::Result<()>
    ensures { OnOk result (S.takes sink.old (entry_of_line dialect line.now) sink.new) }
{
    let (text, is_fed) = without_line_feed(line);
    let entry = entry_of(alloc, dialect, text)?;
    sink.take(text, entry, is_fed)
}

/// Reads a file in a dialect, and hands the entry of each line to a consumer, in order. It holds one line at a time.
///
/// The error is that of the reader or of the consumer, or lack of memory. The entries of the lines before it have
/// then been taken.
pub fn check<R: BufRead, S: Entries>(
    alloc: Global,
    dialect: Dialect,
    reader: &mut R,
    sink: &mut S,
) -> io::Result<()>
    ensures { OnOk result (TakesAll S.takes dialect (R.remaining reader.old) sink.old sink.new) }
{
    let mut line = Vec::new(alloc);
    for _turn in 0..u64::MAX {
        read_line(reader, &mut line)?;
        if line.is_empty() {
            return Ok(());
        }
        take_line(alloc, dialect, line.as_slice(), sink)?;
    }
    Err(io::Error::from(ErrorKind::Other))
}
