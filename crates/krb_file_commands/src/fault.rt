//! Why a command on files ended early, what the program says of it, and its exit status.

ghost use Rattle.std.specs.Prelude.{◌≡◌};
ghost use Rattle.krb_file_commands.specs.FaultText as text;
ghost use Rattle.krb_file_commands.specs.Status as status;
ghost use Rattle.krb_file_commands.specs.declared.fault.PickFault.TheVariants.{Keytab as Unread, OutOfMemory as OutOfMemoryForLine};
ghost use Rattle.krb_file_commands.specs.declared.fault.AddFault.TheVariants.{Keytab as OfKeytab};

use crate::engine::Ended;
use crate::failure::{FAILED, Failure, FailureText, REFUSED, WRONG_WORDS};
use krb_ccache::CacheFault;
use krb_keytab::KeytabFault;
use krb_name::TextFault;
use std::alloc::AllocError;

/// Why no entry of a keytab is picked: the first that holds.
#[derive(Clone, Copy)]
pub enum PickFault {
    /// The keytab couldn't be read, memory ran out for it, or what was read isn't one.
    Keytab(KeytabFault),
    /// No entry has the name.
    NoName,
    /// No entry of that name has the encryption type. If the type is 19 or 20, an entry whose key hasn't the type's length doesn't count.
    NoKey,
    /// None of these entries has the version number.
    NoVersion,
    /// There is no memory for the line.
    OutOfMemory,
}

/// Why no keys are added to a keytab: the first that holds.
#[derive(Clone, Copy)]
pub enum AddFault {
    /// The keytab couldn't be read, memory ran out for it, what was read isn't one, or it would be too long.
    Keytab(KeytabFault),
    /// The same of the keytab whose keys are added, but for its length.
    Added(KeytabFault),
}

impl From<KeytabFault> for PickFault {
    ghost from_gives = { λ keytab fault. fault ≡ Unread keytab };

    fn from(fault: KeytabFault) -> PickFault {
        PickFault::Keytab(fault)
    }
}

impl From<AllocError> for PickFault {
    ghost from_gives = { λ _ fault. fault ≡ OutOfMemoryForLine };

    fn from(_: AllocError) -> PickFault {
        PickFault::OutOfMemory
    }
}

impl From<KeytabFault> for AddFault {
    ghost from_gives = { λ keytab fault. fault ≡ OfKeytab keytab };

    fn from(fault: KeytabFault) -> AddFault {
        AddFault::Keytab(fault)
    }
}

impl Failure for KeytabFault {
    ghost printed = { text.keytab_text };

    ghost exit_status = { status.of_keytab };

    ghost subject = { text.keytab_subject };

    fn text(&self) -> FailureText {
        match self {
            KeytabFault::Version => ("Version", None),
            KeytabFault::Truncated { at } => ("Truncated", Some(*at)),
            KeytabFault::BadEntry { at } => ("BadEntry", Some(*at)),
            KeytabFault::TooLong => ("TooLong", None),
            KeytabFault::NoSuchEntry => ("NoSuchEntry", None),
            KeytabFault::Read => ("Read", None),
            KeytabFault::OutOfMemory => ("OutOfMemory", None),
        }
    }

    fn status(&self) -> u8 {
        match self {
            KeytabFault::Read | KeytabFault::OutOfMemory => FAILED,
            _ => REFUSED,
        }
    }

    fn named<'a>(&self, file: &'a str, command: &'a str) -> &'a str {
        match self {
            KeytabFault::NoSuchEntry => command,
            _ => file,
        }
    }
}

impl Failure for CacheFault {
    ghost printed = { text.cache_text };

    ghost exit_status = { status.of_cache };

    ghost subject = { λ _ file _. file };

    fn text(&self) -> FailureText {
        match self {
            CacheFault::Version => ("Version", None),
            CacheFault::Header => ("Header", None),
            CacheFault::BadItem { at } => ("BadItem", Some(*at)),
            CacheFault::TooLong => ("TooLong", None),
            CacheFault::Read => ("Read", None),
            CacheFault::OutOfMemory => ("OutOfMemory", None),
        }
    }

    fn status(&self) -> u8 {
        match self {
            CacheFault::Read | CacheFault::OutOfMemory => FAILED,
            _ => REFUSED,
        }
    }

    fn named<'a>(&self, file: &'a str, _command: &'a str) -> &'a str {
        file
    }
}

impl Failure for PickFault {
    ghost printed = { text.pick_text };

    ghost exit_status = { status.of_pick };

    ghost subject = { text.pick_subject };

    fn text(&self) -> FailureText {
        match self {
            PickFault::Keytab(fault) => fault.text(),
            PickFault::NoName => ("NoName", None),
            PickFault::NoKey => ("NoKey", None),
            PickFault::NoVersion => ("NoVersion", None),
            PickFault::OutOfMemory => ("OutOfMemory", None),
        }
    }

    fn status(&self) -> u8 {
        match self {
            PickFault::Keytab(fault) => fault.status(),
            PickFault::OutOfMemory => FAILED,
            _ => REFUSED,
        }
    }

    fn named<'a>(&self, file: &'a str, command: &'a str) -> &'a str {
        match self {
            PickFault::Keytab(_) => file,
            _ => command,
        }
    }
}

impl Failure for AddFault {
    ghost printed = { text.add_text };

    ghost exit_status = { status.of_adding };

    ghost subject = { λ _ file _. file };

    fn text(&self) -> FailureText {
        match self {
            AddFault::Keytab(fault) | AddFault::Added(fault) => fault.text(),
        }
    }

    fn status(&self) -> u8 {
        match self {
            AddFault::Keytab(fault) | AddFault::Added(fault) => fault.status(),
        }
    }

    fn named<'a>(&self, file: &'a str, _command: &'a str) -> &'a str {
        file
    }
}

impl<E: Failure> Failure for Ended<E> {
    ghost use Rattle.krb_file_commands.specs.FaultText as text;
    ghost use Rattle.krb_file_commands.specs.Status as status;

    ghost printed = { text.ended_text E.printed };

    ghost exit_status = { status.of_ended E.exit_status };

    ghost subject = { text.ended_subject E.subject };

    fn text(&self) -> FailureText {
        match self {
            Ended::Unmade(fault) => fault.text(),
            Ended::Write => ("Write", None),
        }
    }

    fn status(&self) -> u8 {
        match self {
            Ended::Unmade(fault) => fault.status(),
            Ended::Write => FAILED,
        }
    }

    fn named<'a>(&self, file: &'a str, command: &'a str) -> &'a str {
        match self {
            Ended::Unmade(fault) => fault.named(file, command),
            Ended::Write => "output",
        }
    }
}

/// Returns the exit status for a service's name that can't be read: 3 if memory ran out, else 2, for a wrong command
/// line.
pub fn service_status(fault: &TextFault) -> u8
    ensures { result ≡ status.service_status fault.now }
{
    match fault {
        TextFault::OutOfMemory => FAILED,
        TextFault::BadText { .. } | TextFault::NoRealm => WRONG_WORDS,
    }
}
