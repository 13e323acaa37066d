//! Why a task isn't done.
ghost use Rattle.std.specs.Prelude.{◌≡◌};
ghost use Rattle.client_tasks.specs.Causes.{client_cause, tree_cause, cause};

use client_core::ClientFault;
use client_tree::{LocalFault, TreeFault};
use std::alloc::{AllocError, AllocFailed};
use std::fmt;

/// Why a task isn't done. None of these holds a cap, so no message tells one.
#[derive(Drop)]
pub enum TaskFault {
    /// A word of the command line is none of the program's: it was told already.
    Words,
    /// The gateway's URL is none that can be asked.
    BadUrl,
    /// The number of connections is none that there can be.
    BadJobs,
    /// The number of seconds is none for which the gateway may be slow.
    BadPatience,
    /// A state was named, or `--verify` given, where nothing can be skipped.
    BadSkips,
    /// What was named as a state is none.
    BadState,
    /// What was given as a cap is none.
    NoCap,
    /// The gateway's side, or a tree's.
    Tree(TreeFault),
    /// A check found shares that are missing or not good: it was told already.
    NotWell,
    /// What was stored again for a repair has another cap: it was stored under another secret or other numbers.
    OtherCap,
    /// Something was passed over: it was told already.
    PassedOver,
    /// A file couldn't be read.
    Unread,
    /// A file or a folder couldn't be written.
    Unwritten,
    /// Standard output is closed.
    NotPrinted,
    /// Memory was refused.
    NoMemory,
}

impl fmt::Display for TaskFault {
    fn fmt<W: fmt::Write>(&self, f: &mut fmt::Formatter<W>) -> fmt::Result {
        let words = match self {
            TaskFault::Words => "bad arguments",
            TaskFault::BadUrl => "the gateway's URL is to be http://HOST or http://HOST:PORT",
            TaskFault::BadJobs => "--jobs is to be a number from 1 to 64",
            TaskFault::BadPatience => "--patience is to be a number from 1 to 3600",
            TaskFault::BadSkips =>
                "--skip-existing is for put -r, and --verify for --skip-existing",
            TaskFault::BadState => "the file of --skip-existing is no state that a put wrote",
            TaskFault::NoCap => "no cap",
            TaskFault::Tree(fault) => return write!(f, "{fault}"),
            TaskFault::NotWell => "not all is well",
            TaskFault::OtherCap =>
                "it was stored under another secret or other numbers, and can't be repaired here",
            TaskFault::PassedOver => "not all was stored",
            TaskFault::Unread => "the file can't be read",
            TaskFault::Unwritten => "it can't be written",
            TaskFault::NotPrinted => "standard output is closed",
            TaskFault::NoMemory => "out of memory",
        };
        f.write_str(words)
    }
}

impl TaskFault {
    /// Whether it was told already where it came.
    pub fn is_told(&self) -> bool {
        match self {
            TaskFault::Words | TaskFault::NotWell | TaskFault::PassedOver => true,
            _ => false,
        }
    }

    /// The status with which the program exits.
    pub fn status(&self) -> u8
        ensures { result ≡ cause self.now }
    {
        match self {
            TaskFault::Words => 2,
            TaskFault::BadUrl => 2,
            TaskFault::BadJobs => 2,
            TaskFault::BadPatience => 2,
            TaskFault::BadSkips => 2,
            TaskFault::BadState => 9,
            TaskFault::NoCap => 3,
            TaskFault::Tree(fault) => tree_status(fault),
            TaskFault::NotWell => 7,
            TaskFault::OtherCap => 7,
            TaskFault::PassedOver => 8,
            TaskFault::Unread => 8,
            TaskFault::Unwritten => 8,
            TaskFault::NotPrinted => 8,
            TaskFault::NoMemory => 8,
        }
    }
}

/// The status where a tree isn't written or stored whole.
fn tree_status(fault: &TreeFault) -> u8
    ensures { result ≡ tree_cause fault.now }
{
    match fault {
        TreeFault::Client(fault) => client_status(fault),
        TreeFault::BadName(_) => 8,
        TreeFault::SameName(_) => 8,
        TreeFault::BadChildren => 8,
        TreeFault::Local(_) => 8,
        TreeFault::TooMany => 8,
        TreeFault::TooDeep => 8,
        TreeFault::NoMemory => 8,
    }
}

/// The status of what the gateway gave, or didn't give.
fn client_status(fault: &ClientFault) -> u8
    ensures { result ≡ client_cause fault.now }
{
    match fault {
        ClientFault::Link(_) => 4,
        ClientFault::Refused(status) => { if *status == 410 { 7 } else { 5 } }
        ClientFault::NotBound => 6,
        ClientFault::NotFile => 3,
        ClientFault::NotDirectory => 3,
        ClientFault::NoChild(_) => 3,
        ClientFault::NoMemory => 8,
    }
}

impl From<AllocError> for TaskFault {
    fn from(_error: AllocError) -> TaskFault {
        TaskFault::NoMemory
    }
}

impl<T: Drop> From<AllocFailed<T>> for TaskFault {
    fn from(_failed: AllocFailed<T>) -> TaskFault {
        TaskFault::NoMemory
    }
}

impl From<TreeFault> for TaskFault {
    fn from(fault: TreeFault) -> TaskFault {
        TaskFault::Tree(fault)
    }
}

impl From<ClientFault> for TaskFault {
    fn from(fault: ClientFault) -> TaskFault {
        TaskFault::Tree(TreeFault::Client(fault))
    }
}

impl From<LocalFault> for TaskFault {
    fn from(_fault: LocalFault) -> TaskFault {
        TaskFault::Unwritten
    }
}
