//! Which cron a machine has, by its files.

use crate::machine::announce;
use croncheck_files::folder::path_in;
use std::alloc::AllocError;
use std::fs;

/// A cron other than Debian's, and a file of its own below the folder of a machine.
#[derive(Clone, Copy)]
struct OtherCron {
    name: &'static str,
    file: &'static str,
}

const OTHERS: [OtherCron; 4] = [
    OtherCron {
        name: "systemd-cron",
        file: "lib/systemd/system-generators/systemd-crontab-generator",
    },
    OtherCron {
        name: "systemd-cron",
        file: "usr/lib/systemd/system-generators/systemd-crontab-generator",
    },
    OtherCron {
        name: "bcron",
        file: "usr/sbin/bcron-sched",
    },
    OtherCron {
        name: "cronie",
        file: "usr/bin/cronnext",
    },
];

/// The file of a cron that is a link to the program of that name where it is busybox's.
const CROND: &str = "usr/sbin/crond";

const BUSYBOX: &str = "busybox";

/// Says on standard error which cron the machine has whose files stand below a folder, if that isn't Debian's. The only error is lack of memory.
pub fn announce_other_cron(rt: &HostRuntime, folder: &str) -> Result<(), AllocError> {
    match other_cron(rt, folder)? {
        Some(name) => {
            let text = format!(in rt.alloc();
                "the cron of this machine is {name}. croncheck shows what Debian's cron does"
            )?;
            announce(rt, folder, text.as_str())
        }
        None => Ok(()),
    }
}

fn other_cron(rt: &HostRuntime, folder: &str) -> Result<Option<&'static str>, AllocError> {
    for other in OTHERS {
        let path = path_in(rt.alloc(), folder, other.file)?;
        if fs::symlink_metadata(rt, path.as_str()).is_ok() {
            return Ok(Some(other.name));
        }
    }
    let path = path_in(rt.alloc(), folder, CROND)?;
    if leads_to_busybox(rt, path.as_str()) {
        Ok(Some(BUSYBOX))
    } else {
        Ok(None)
    }
}

fn leads_to_busybox(rt: &HostRuntime, path: &str) -> bool {
    match fs::read_link(rt, path) {
        Ok(target) => target.as_path().to_string_lossy().ends_with(BUSYBOX),
        Err(_) => false,
    }
}
