//! Why bytes aren't a keytab, or no keytab can be returned.

ghost use Rattle.std.specs.Prelude.{◌≡◌};
ghost use Rattle.krb_keytab.specs.declared.fault.KeytabFault.TheVariants.{OutOfMemory};

use krb_file::ReadFault;
use std::alloc::AllocError;
use thiserror::Error;

/// Why bytes aren't a keytab, or no keytab can be returned.
///
/// If several apply, `TooLong` comes before all others, then `Version`, then the fault of the first
/// record that has one. `OutOfMemory` comes last if bytes are parsed; if a source is read, it may come
/// before a later fault. An offset counts bytes from the start of the file. It is that of the first
/// byte of a record's size, and is at most the length of the file.
#[derive(Clone, Copy, Debug, PartialEq, Eq, Error)]
pub enum KeytabFault {
    /// The file doesn't begin with 0x05 0x02.
    #[error("the file isn't a keytab of version 0x0502")]
    Version,
    /// The file ends before this record does.
    #[error("the record at offset {at} is cut off")]
    Truncated {
        /// The offset of the record's size, in bytes.
        at: usize,
    },
    /// An entry doesn't fit into this record.
    #[error("the record at offset {at} holds no entry")]
    BadEntry {
        /// The offset of the record's size, in bytes.
        at: usize,
    },
    /// The file has, or would have, more than 16,777,216 bytes.
    #[error("the file is longer than 16777216 bytes")]
    TooLong,
    /// The keytab has no entry of this index.
    #[error("there is no such entry")]
    NoSuchEntry,
    /// The source couldn't be read.
    #[error("the file could not be read")]
    Read,
    /// There is no memory.
    #[error("out of memory")]
    OutOfMemory,
}

impl From<AllocError> for KeytabFault {
    ghost from_gives = { λ _ fault. fault ≡ OutOfMemory };

    fn from(_: AllocError) -> KeytabFault {
        KeytabFault::OutOfMemory
    }
}

impl From<ReadFault> for KeytabFault {
    ghost use Rattle.krb_keytab.specs.Fault.{source_fault};

    ghost from_gives = { λ read fault. fault ≡ source_fault read };

    fn from(fault: ReadFault) -> KeytabFault {
        match fault {
            ReadFault::Read => KeytabFault::Read,
            ReadFault::OutOfMemory => KeytabFault::OutOfMemory,
        }
    }
}

impl KeytabFault {
    ghost use Rattle.krb_keytab.specs.Fault.{offset_of};

    /// Returns the offset of the faulty record, in bytes: that of `Truncated` and `BadEntry`.
    pub fn at(&self) -> Option<usize>
        ensures { result ≡ offset_of self.now }
    {
        match *self {
            KeytabFault::Truncated { at } | KeytabFault::BadEntry { at } => Some(at),
            _ => None,
        }
    }
}
