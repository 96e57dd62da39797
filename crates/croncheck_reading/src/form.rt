//! The forms in which lines are told.

use crate::progress::{Line, Progress, Terms};
use croncheck_output::output::Output;
use std::io;
use std::io::Write;

/// What differs between the forms in which lines are told.
pub trait Form {
    ghost use Rattle.std.specs.Prelude.{OnOk};
    ghost use Rattle.croncheck_reading.specs.declared.progress.Terms.{Terms};
    ghost use Rattle.crontab.specs.Checked.{LineRead};
    ghost use Rattle.croncheck_output.specs.Output.{Written, written_of};
    ghost use Rattle.croncheck_reading.specs.Sink.{State, state_of};
    ghost use Rattle.croncheck_reading.specs.Stand.{Stand, stand_of, line_taken};

    /// What taking the next line of a file leaves.
    ghost takes: { Terms → State Self → LineRead → State Self → Type 0 };

    /// What is written at the end of a file.
    ghost ends_file: { Terms → Self → Stand → Written → Written → Type 0 };

    /// What is written after all files.
    ghost ends: { Terms → Self → Written → Written → Type 0 };

    /// Takes the next line of a file.
    ///
    /// The error is that of what is written to, or says that memory is lacking.
    fn take<W: Write>(
        &mut self,
        terms: &Terms<'_, '_>,
        progress: &mut Progress,
        line: Line<'_>,
        output: &mut Output<W>,
    ) -> io::Result<()>
        ensures { OnOk result (takes terms.now (state_of W.contents self.old progress.old output.old) (line_taken line.entry)
            (state_of W.contents self.new progress.new output.new)) };

    /// Writes what stands at the end of a file. The error is as that of `take`.
    fn end_file<W: Write>(
        &self,
        terms: &Terms<'_, '_>,
        progress: &Progress,
        output: &mut Output<W>,
    ) -> io::Result<()>
        ensures { OnOk result (ends_file terms.now self.now (stand_of progress.now) (written_of W.contents output.old)
            (written_of W.contents output.new)) };

    /// Writes what stands after all files. The error is as that of `take`.
    fn end<W: Write>(&self, terms: &Terms<'_, '_>, output: &mut Output<W>) -> io::Result<()>
        ensures { OnOk result (ends terms.now self.now (written_of W.contents output.old) (written_of W.contents output.new)) };
}
