//! What the file system says of the file of a crontab, and why cron ignores the file for it.
ghost use Rattle.std.specs.Prelude.{◌≡◌};
ghost use Rattle.croncheck_files.specs.Fitness.{is_link_of_another, is_writable, may_write, has_user_mode, unfit_of, unfit_of_system, unfit_of_user, unfit_name, unfit_text, unfit_line};

/// The number of root.
const ROOT: u32 = 0;

/// The mode that a user's crontab has: its owner alone reads and writes it.
const USER_MODE: u32 = 0o600;

/// How many modes there are: the low 12 bits of what the system gives say who may do what, and those above them what the
/// file is.
const MODES: u32 = 0o10000;

/// How many values one digit of a mode has: the last digit says what all others may do, and the one in front of it what
/// the group may.
const DIGITS: u32 = 8;

/// Whose a crontab is.
#[derive(Clone, Copy, Drop)]
pub enum Keeper {
    /// The system's: `/etc/crontab`, or a file in `/etc/cron.d`.
    System,
    /// A user's, who has this number: a file in the folder of the users' crontabs.
    User(u32),
    /// No user's: a file in that folder whose name no user has.
    NoUser,
}

/// What the file system says of a file.
#[derive(Clone, Copy, Drop)]
pub struct Facts {
    /// The number of the owner of the symbolic link, if the file's name is one.
    pub link_owner: Option<u32>,
    /// The number of its owner. This field and those below are of the file that such a link leads to.
    pub owner: u32,
    /// It is neither a folder, a pipe, a socket nor a device.
    pub is_regular: bool,
    /// Its mode, as `stat(2)` has it.
    pub mode: u32,
    /// How many names it has: its hard links.
    pub links: u64,
}

/// Why cron ignores a file as a whole, whatever stands in it.
#[derive(Clone, Copy, Drop)]
pub enum Unfit {
    /// No user has its name.
    NoUser,
    /// It is a symbolic link, and a user's.
    Link,
    /// It is a symbolic link that root doesn't own.
    LinkOwner,
    /// It is the system's, and root doesn't own it.
    Owner,
    /// Neither its user nor root owns it.
    UserOwner,
    /// It is no regular file.
    NotRegular,
    /// It is the system's, and its group or all others may write to it.
    Writable,
    /// It is a user's, and its mode isn't 600.
    Mode,
    /// It has more names than one.
    Links,
}

impl Unfit {
    /// The name of the reason in reports, as `file-owner`. Reasons of one kind share a name.
    pub fn name(self) -> &'static str
        ensures { result.now ≡ unfit_name self }
    {
        match self {
            Unfit::NoUser => "file-user",
            Unfit::LinkOwner | Unfit::Owner | Unfit::UserOwner => "file-owner",
            Unfit::Link | Unfit::NotRegular => "file-type",
            Unfit::Writable | Unfit::Mode => "file-mode",
            Unfit::Links => "file-links",
        }
    }

    /// The reason in words, without a full stop.
    pub fn text(self) -> &'static str
        ensures { result.now ≡ unfit_text self }
    {
        match self {
            Unfit::NoUser => "no user has its name",
            Unfit::Link => "it is a symbolic link, and a user's crontab is none",
            Unfit::LinkOwner => "it is a symbolic link, and root doesn't own the link",
            Unfit::Owner => "root doesn't own it",
            Unfit::UserOwner => "neither its user nor root owns it",
            Unfit::NotRegular => "it is no regular file",
            Unfit::Writable => "its group or all others may write to it",
            Unfit::Mode => "its mode isn't 600",
            Unfit::Links => "it has more than one hard link",
        }
    }

    /// The reason in words, as a line with its line feed.
    pub fn line(self) -> &'static str
        ensures { result.now ≡ unfit_line self }
    {
        match self {
            Unfit::NoUser => "no user has its name\n",
            Unfit::Link => "it is a symbolic link, and a user's crontab is none\n",
            Unfit::LinkOwner => "it is a symbolic link, and root doesn't own the link\n",
            Unfit::Owner => "root doesn't own it\n",
            Unfit::UserOwner => "neither its user nor root owns it\n",
            Unfit::NotRegular => "it is no regular file\n",
            Unfit::Writable => "its group or all others may write to it\n",
            Unfit::Mode => "its mode isn't 600\n",
            Unfit::Links => "it has more than one hard link\n",
        }
    }
}

/// Why cron ignores a crontab by what the file system says of its file, if it does: the first reason at which cron stops.
pub fn unfit_of(keeper: Keeper, facts: Facts) -> Option<Unfit>
    ensures { result ≡ unfit_of keeper facts }
{
    match keeper {
        Keeper::System => unfit_of_system(facts),
        Keeper::User(user) => unfit_of_user(user, facts),
        Keeper::NoUser => Some(Unfit::NoUser),
    }
}

fn unfit_of_system(facts: Facts) -> Option<Unfit>
    ensures { result ≡ unfit_of_system facts }
{
    if is_link_of_another(facts.link_owner) {
        Some(Unfit::LinkOwner)
    } else if facts.owner != ROOT {
        Some(Unfit::Owner)
    } else if !facts.is_regular {
        Some(Unfit::NotRegular)
    } else if is_writable(facts.mode) {
        Some(Unfit::Writable)
    } else if facts.links != 1 {
        Some(Unfit::Links)
    } else {
        None
    }
}

fn unfit_of_user(user: u32, facts: Facts) -> Option<Unfit>
    ensures { result ≡ unfit_of_user user facts }
{
    if facts.link_owner.is_some() {
        Some(Unfit::Link)
    } else if facts.owner != user && facts.owner != ROOT {
        Some(Unfit::UserOwner)
    } else if !facts.is_regular {
        Some(Unfit::NotRegular)
    } else if !has_user_mode(facts.mode) {
        Some(Unfit::Mode)
    } else if facts.links != 1 {
        Some(Unfit::Links)
    } else {
        None
    }
}

// Whether the link of a file's name, if it is one, is another's than root's.
fn is_link_of_another(owner: Option<u32>) -> bool
    ensures { result ≡ is_link_of_another owner }
{
    match owner {
        Some(owner) => owner != ROOT,
        None => false,
    }
}

// Whether the group or all others may write to a file of this mode.
fn is_writable(mode: u32) -> bool
    ensures { result ≡ is_writable mode }
{
    may_write(mode / DIGITS) || may_write(mode)
}

// Whether those for whom the last digit of a mode stands may write.
fn may_write(mode: u32) -> bool
    ensures { result ≡ may_write mode }
{
    mode / 2 % 2 == 1
}

fn has_user_mode(mode: u32) -> bool
    ensures { result ≡ has_user_mode mode }
{
    mode % MODES == USER_MODE
}
