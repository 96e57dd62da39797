//! The files of the machine, and its standard input.

use crate::meant::is_line;
use crate::regular::bytes_of;
use crate::sorted::{Texts, texts_of};
use croncheck_command::words::Call;
use croncheck_files::fitness::{Facts, Keeper, Unfit, unfit_of};
use croncheck_files::folder::{Sort, Treatment, path_in, sort_of, treatment_of};
use croncheck_files::names::{Asked, STANDARD_INPUT};
use croncheck_files::root::{Kept, Root, kept_in};
use croncheck_output::escaped::shown_text;
use croncheck_reading::files::Sources;
use croncheck_warnings::users::Users;
use crontab::line::Dialect;
use either::{Either, Left, Right};
use std::alloc::AllocError;
use std::fs::File;
use std::io::{BufReader, Cursor, ErrorKind, IsTerminal, Stdin};
use std::os::unix::fs::MetadataExt;
use std::path::Path;
use std::{fs, io};

/// What is said of a symbolic link to a file that isn't there.
const LOST_LINK: &str = "warning: a symbolic link to a file that isn't there: cron passes over it";

/// What is said of what stands in a folder and is no file.
const NO_FILE: &str = "a pipe, a socket or a device, and not read: name it to have it read";

/// The files of the machine, and its standard input.
#[derive(Drop)]
pub struct Machine<'r> {
    rt: &'r HostRuntime,
    // The crontabs whose owner, mode and links are looked at.
    root: &'r Root,
    call: &'r Call<'r>,
    users: Option<Users<'r>>,
}

impl<'r> Machine<'r> {
    /// The machine whose crontabs stand at the paths of `root`. Owner, mode and links are looked at for the crontabs of the system; if the
    /// call checks a machine, also for those of users, if these are known. A name that is a text of the call is the text of a file of that
    /// name.
    pub fn new(
        rt: &'r HostRuntime,
        root: &'r Root,
        call: &'r Call<'r>,
        users: Option<Users<'r>>,
    ) -> Machine<'r> {
        Machine {
            rt,
            root,
            call,
            users,
        }
    }

    /// Whether a machine is checked as a whole.
    pub fn is_checked(&self) -> bool {
        self.call.root.is_some()
    }

    /// Its users, if they are known.
    pub fn users(&self) -> Option<Users<'r>> {
        self.users
    }

    /// Its crontabs: that of the system, the folder of further ones, and the folder of the users' crontabs. If one isn't there,
    /// standard error says so. The error says that memory is lacking.
    pub fn crontabs(&self) -> io::Result<Vec<Asked<'r>>> {
        let mut files = Vec::new(self.rt.alloc());
        self.push_crontab(&mut files, self.root.crontab.as_str(), Dialect::System)?;
        self.push_crontab(&mut files, self.root.folder.as_str(), Dialect::System)?;
        self.push_crontab(&mut files, self.root.spool.as_str(), Dialect::User)?;
        Ok(files)
    }

    fn push_crontab(
        &self,
        files: &mut Vec<Asked<'r>>,
        word: &'r str,
        kind: Dialect,
    ) -> io::Result<()> {
        match fs::symlink_metadata(self.rt, word) {
            Err(error) if error.kind() == ErrorKind::NotFound => announce_missing(self.rt, word)?,
            _ => files.push(Asked {
                word,
                name: word,
                kind: Some(kind),
            })?,
        }
        Ok(())
    }

    /// Whether a file is told of what a call names: one that is there, or one in a folder. Standard input, a line and a pattern are none. The only
    /// error is lack of memory.
    pub fn has_file(&self, named: Asked<'_>) -> Result<bool, AllocError> {
        if named.word == STANDARD_INPUT || self.has_patterns() {
            return Ok(false);
        }
        // A word that isn't there is a line, or a file that can't be read.
        if !self.is_there(named.word)? {
            return Ok(false);
        }
        match sort_of(self.leads_to_folder(named.word)?, &named) {
            Sort::NoCrontab => Ok(false),
            Sort::Folder => self.has_file_in(named),
            Sort::File => Ok(true),
        }
    }

    // Whether a file in a folder is told.
    fn has_file_in(&self, folder: Asked<'_>) -> Result<bool, AllocError> {
        let names = match self.names(folder.word) {
            Ok(names) => names,
            Err(error) => return no_unless_lacking(&error),
        };
        for name in names.as_slice() {
            if self.is_told(folder, name.as_str())? {
                return Ok(true);
            }
        }
        Ok(false)
    }

    // Whether the words of the call are patterns.
    fn has_patterns(&self) -> bool {
        match texts_of(self.call) {
            Texts::Patterns => true,
            Texts::Lines | Texts::None => false,
        }
    }

    // Whether something has this name, if only a link.
    fn is_there(&self, name: &str) -> Result<bool, AllocError> {
        match fs::symlink_metadata(self.rt, name) {
            Ok(_) => Ok(true),
            Err(error) => no_unless_lacking(&error),
        }
    }

    // Whether a name is that of a folder, or of a link to one.
    fn leads_to_folder(&self, name: &str) -> Result<bool, AllocError> {
        match fs::metadata(self.rt, name) {
            Ok(found) => Ok(found.is_dir()),
            Err(error) => no_unless_lacking(&error),
        }
    }

    // Whether the file of this name in a folder is told.
    fn is_told(&self, folder: Asked<'_>, name: &str) -> Result<bool, AllocError> {
        let path = path_in(self.rt.alloc(), folder.word, name)?;
        let file = Asked {
            word: path.as_str(),
            name: path.as_str(),
            kind: folder.kind,
        };
        match treatment_of(self.leads_to_folder(file.word)?, &file, name) {
            Treatment::PassedOver | Treatment::Read => Ok(true),
            Treatment::Silent | Treatment::NotEntered | Treatment::NoCrontab => Ok(false),
        }
    }

    // Whose a crontab is, if its owner, mode and links are looked at.
    fn keeper(&self, name: &str) -> Option<Keeper> {
        match kept_in(self.root, name)? {
            Kept::System => Some(Keeper::System),
            Kept::Spool if self.is_checked() => keeper_of(
                self.users?,
                Path::new(name).file_name()?,
            ),
            Kept::Spool => None,
        }
    }

    // Whether a name is read as a text.
    fn is_text(&self, name: &str) -> bool {
        match texts_of(self.call) {
            Texts::None => false,
            Texts::Lines => is_line(self.rt, name),
            Texts::Patterns => true,
        }
    }

    // Whether a crontab of the machine is a pipe or a device.
    fn is_waited_for(&self, name: &str) -> bool {
        match (self.keeper(name), facts_of(self.rt, name)) {
            (Some(_), Some(facts)) => !facts.is_regular,
            (None, _) | (Some(_), None) => false,
        }
    }

    // Whether a crontab of the machine is a symbolic link to a file that isn't there.
    fn is_lost_link(&self, name: &str) -> bool {
        self.keeper(name).is_some() && is_lost_link(self.rt, name)
    }

    // Whether a name is a word of the call.
    fn is_named(&self, name: &str) -> bool {
        self.call.files.iter().any(|file| file.word == name)
    }

    // The text of a file that is read whole, since the call doesn't name it; nothing of what isn't read, which standard error says. `None`: the
    // file is read to its end, however long it is.
    fn text_of(&self, name: &str) -> io::Result<Option<Vec<u8>>> {
        if self.is_lost_link(name) {
            announce(self.rt, name, LOST_LINK)?;
            return Ok(Some(Vec::new(self.rt.alloc())));
        }
        if self.is_waited_for(name) {
            return Ok(Some(Vec::new(self.rt.alloc())));
        }
        if self.is_named(name) {
            return Ok(None);
        }
        Ok(Some(found_text(self.rt, name)?))
    }
}

impl Sources for Machine<'_> {
    type Reader = Either<Cursor<Vec<u8>>, Either<BufReader<Stdin>, BufReader<File>>>;

    ghost holds = { λ machine name remaining. Unit {0} };

    ghost says_unfit = { λ machine name answer. Unit {0} };

    ghost says_folder = { λ machine name answer. Unit {0} };

    ghost lists = { λ machine name names. Unit {0} };

    fn open(
        &self,
        name: &str,
    ) -> io::Result<Either<Cursor<Vec<u8>>, Either<BufReader<Stdin>, BufReader<File>>>> {
        if self.is_text(name) {
            return Ok(Left(Cursor::new(fed_line(self.rt, name)?)));
        }
        if name == STANDARD_INPUT {
            announce_typing(self.rt);
            let reader = BufReader::new(self.rt.alloc(), self.rt.stdin())?;
            return Ok(Right(Left(reader)));
        }
        match self.text_of(name)? {
            Some(text) => Ok(Left(Cursor::new(text))),
            None => {
                let opened = File::open(self.rt, name)?;
                let reader = BufReader::new(self.rt.alloc(), opened)?;
                Ok(Right(Right(reader)))
            }
        }
    }

    fn unfit(&self, name: &str) -> Option<Unfit> {
        let keeper = self.keeper(name)?;
        unfit_of(keeper, facts_of(self.rt, name)?)
    }

    fn is_folder(&self, name: &str) -> bool {
        match fs::metadata(self.rt, name) {
            Ok(found) => name != STANDARD_INPUT && found.is_dir(),
            Err(_) => false,
        }
    }

    fn names(&self, name: &str) -> io::Result<Vec<String>> {
        let mut names = Vec::new(self.rt.alloc());
        for entry in fs::read_dir(self.rt, name)? {
            let entry = entry?;
            names.push(String::from_str(self.rt.alloc(), entry.file_name())?)?;
        }
        Ok(names)
    }
}

// What an error of the file system says of what was looked for: that it isn't there, unless memory is lacking.
fn no_unless_lacking(error: &io::Error) -> Result<bool, AllocError> {
    match error.kind() {
        ErrorKind::OutOfMemory => Err(AllocError),
        _ => Ok(false),
    }
}

// A line that is a word of the call, with its line feed.
fn fed_line(rt: &HostRuntime, line: &str) -> Result<Vec<u8>, AllocError> {
    let mut text = Vec::new(rt.alloc());
    text.extend_from_slice(line.as_bytes())?;
    text.push(b'\n')?;
    Ok(text)
}

// The text of a file in a folder, whole; nothing of a pipe, a socket or a device.
fn found_text(rt: &HostRuntime, name: &str) -> io::Result<Vec<u8>> {
    match bytes_of(rt, name)? {
        Some(text) => Ok(text),
        None => {
            announce(rt, name, NO_FILE)?;
            Ok(Vec::new(rt.alloc()))
        }
    }
}

// Whose the crontab of the user of a name is.
fn keeper_of(users: Users<'_>, name: &str) -> Option<Keeper> {
    match number_of(users, name) {
        Some(number) => Some(Keeper::User(number)),
        None => Some(Keeper::NoUser),
    }
}

// The number of the user of a name: the third word of its line.
fn number_of(users: Users<'_>, name: &str) -> Option<u32> {
    let line = users
        .text
        .split(|byte| *byte == b'\n')
        .find(|line| first_word(line) == Some(name.as_bytes()))?;
    let word = line.split(|byte| *byte == b':').nth(2)?;
    std::str::from_utf8(word).ok()?.parse::<u32>().ok()
}

fn first_word(line: &[u8]) -> Option<&[u8]> {
    line.split(|byte| *byte == b':').next()
}

// Whether a name is that of a symbolic link to a file that isn't there.
fn is_lost_link(rt: &HostRuntime, name: &str) -> bool {
    match (fs::symlink_metadata(rt, name), fs::metadata(rt, name)) {
        (Ok(at_name), Err(error)) => at_name.is_symlink() && error.kind() == ErrorKind::NotFound,
        _ => false,
    }
}

// What the file system says of a file, if there is one. Of a link to a file that isn't there it says whose the link is; nothing else
// keeps cron from it.
fn facts_of(rt: &HostRuntime, name: &str) -> Option<Facts> {
    let at_name = fs::symlink_metadata(rt, name).ok()?;
    if is_lost_link(rt, name) {
        return Some(Facts {
            link_owner: Some(at_name.uid()),
            owner: 0,
            is_regular: true,
            mode: 0o600,
            links: 1,
        });
    }
    let found = fs::metadata(rt, name).ok()?;
    let link_owner = if at_name.is_symlink() {
        Some(at_name.uid())
    } else {
        None
    };
    Some(Facts {
        link_owner,
        owner: found.uid(),
        is_regular: found.is_file(),
        mode: found.mode(),
        links: found.nlink(),
    })
}

/// Says on standard error that a file of a machine isn't there.
pub fn announce_missing(rt: &HostRuntime, name: &str) -> Result<(), AllocError> {
    announce(rt, name, "isn't there")
}

/// Says something of a file of a machine on standard error.
pub fn announce(rt: &HostRuntime, name: &str, text: &str) -> Result<(), AllocError> {
    let name = shown_text(rt.alloc(), name.as_bytes())?;
    let _ = eprintln!(rt; "croncheck: {name}: {text}");
    Ok(())
}

// Says that standard input is read, where that is a terminal: nothing else would show it.
fn announce_typing(rt: &HostRuntime) {
    if rt.stdin().is_terminal() {
        let _ = eprintln!(rt;
            "croncheck: reads the lines that are typed here, up to Ctrl-D; croncheck --help lists its commands"
        );
    }
}
