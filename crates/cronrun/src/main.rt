//! `cronrun`: cron patterns and their runs from the command line.
#![tactic(auto)]

use croner::errors::CronError;
use cronrun_command::{REFUSED, run, write_usage};
use std::io::{BufWriter, ErrorKind};
use std::process::ExitCode;
use std::{env, io};

// The words after the program's own name. One that is not UTF-8 is an error of the kind
// `InvalidData`.
fn words(rt: &HostRuntime) -> io::Result<Vec<String>> {
    let mut words = Vec::new(rt.alloc());
    for word in env::args(rt)?.skip(1) {
        words.push(word)?;
    }
    Ok(words)
}

// Answers the words on the real output and gives the status of the process.
fn answer(rt: &HostRuntime) -> io::Result<u8> {
    let words = words(rt)?;
    let mut out = BufWriter::new(rt.alloc(), rt.stdout())?;
    Ok(run(rt.alloc(), words.as_slice(), &mut out, &mut rt.stderr()))
}

fn main(rt: HostRuntime) -> ExitCode {
    let status = match answer(&rt) {
        Ok(status) => status,
        Err(error) if error.kind() == ErrorKind::InvalidData => write_usage(&mut rt.stderr()),
        Err(error) if error.kind() == ErrorKind::OutOfMemory => {
            let _ = eprintln!(rt; "{}", CronError::OutOfMemory);
            REFUSED
        }
        Err(error) => {
            let _ = eprintln!(rt; "{error}");
            REFUSED
        }
    };
    ExitCode::from(status)
}
