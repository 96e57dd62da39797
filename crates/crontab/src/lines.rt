//! The lines of a file.
ghost use Rattle.std.specs.Prelude.{◌≡◌, OnOk};
ghost use Rattle.crontab.specs.Lines.{ReadsLine, without_line_feed, is_fed};

use std::io;
use std::io::BufRead;

/// Reads the next line, with its line feed, into `line`, in place of what it held. At the end of the file `line` is empty.
///
/// The error is that of the reader, or lack of memory; what `line` then holds is unspecified.
pub fn read_line<R: BufRead>(reader: &mut R, line: &mut Vec<u8>) -> io::Result<()>
    ensures { OnOk result (ReadsLine (R.remaining reader.old) (R.remaining reader.new) line.new.items) }
{
    line.clear();
    reader.read_until(b'\n', line)?;
    Ok(())
}

/// A line without its line feed, and whether it has one.
pub fn without_line_feed(line: &[u8]) -> (&[u8], bool)
    ensures text { result.0.now ≡ without_line_feed line.now }
    ensures fed { result.1 ≡ is_fed line.now }
{
    let last = line.len().saturating_sub(1);
    let (text, end) = line.split_at(last);
    match end {
        [b'\n'] => (text, true),
        _ => (line, false),
    }
}
