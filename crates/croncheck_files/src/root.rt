//! Where a machine keeps its crontabs, whose files stand below a folder.
ghost use Rattle.std.specs.Prelude.{◌≡◌, IfOk, codes};
ghost use Rattle.croncheck_files.specs.Root.{root_seen, root_at, is_in, kept_in};

use crate::folder::path_in;
use std::alloc::{AllocError, Global};
use std::path::Path;

/// The paths of a machine's files.
#[derive(Drop)]
pub struct Root {
    /// The crontab of the system.
    pub crontab: String,
    /// The folder of further crontabs of the system.
    pub folder: String,
    /// The folder of the users' crontabs, each of which has its user's name.
    pub spool: String,
    /// The file of the users, as `/etc/passwd`.
    pub users: String,
    /// The file of the machine's time zone, or a link to it.
    pub clock: String,
}

/// Where a crontab of a machine stands.
#[derive(Clone, Copy, Drop)]
pub enum Kept {
    /// It is the crontab of the system, or stands in the folder of further crontabs of the system.
    System,
    /// It stands in the folder of the users' crontabs.
    Spool,
}

/// The paths of the files of the machine whose files stand below this folder. The only error is lack of
/// memory.
pub fn root_at(alloc: Global, folder: &str) -> Result<Root, AllocError>
    ensures { IfOk result (λ root. root_seen root ≡ root_at folder.now) }
{
    let crontab = path_in(alloc, folder, "etc/crontab")?;
    let cron_d = path_in(alloc, folder, "etc/cron.d")?;
    let spool = path_in(alloc, folder, "var/spool/cron/crontabs")?;
    let users = path_in(alloc, folder, "etc/passwd")?;
    let clock = path_in(alloc, folder, "etc/localtime")?;
    Ok(Root {
        crontab,
        folder: cron_d,
        spool,
        users,
        clock,
    })
}

/// Where the crontab of a path stands. `None` if the path isn't that of a crontab of the machine.
pub fn kept_in(root: &Root, path: &str) -> Option<Kept>
    ensures { result ≡ kept_in (root_seen root.now) path.now }
{
    if path == root.crontab.as_str() || is_in(root.folder.as_str(), path) {
        Some(Kept::System)
    } else if is_in(root.spool.as_str(), path) {
        Some(Kept::Spool)
    } else {
        None
    }
}

// Whether the file of a path stands in this folder itself.
fn is_in(folder: &str, path: &str) -> bool
    ensures { result ≡ is_in folder.now path.now }
{
    match Path::new(path).parent() {
        Some(parent) => parent.as_str() == folder,
        None => false,
    }
}
