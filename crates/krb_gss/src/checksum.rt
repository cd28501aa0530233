//! The checksum of an authenticator, of type 0x8003 (RFC 4121, section 4.1.1).

ghost use Rattle.std.specs.Prelude.{◌≡◌, ◌↔◌, ◌++◌, IsTrue, IsErrOf, IfOk, IfErr, IsOkAnd, OnOk, ℕ};
ghost use Rattle.krb_gss.specs.Checksum.{Content, content_of, bytes_if, IsChecksum, IsChecksumFault, AgreesWithFlag, IsTooLong};
ghost use Rattle.krb_gss.specs.Inner.Checked.{ReadsFront, ReadsMessage, ReadsDelegation, Checks, option_bytes};

use crate::{ContextFlag, ContextFlags};
use std::alloc::{AllocError, Global};
use std::fmt;
use thiserror::Error;

/// The type of this checksum.
pub const CHECKSUM_TYPE: i32 = 0x8003;

/// What a client says in the checksum of its authenticator.
#[derive(Clone, Copy, PartialEq, Eq)]
pub struct Checksum<'a> {
    /// What the client asks of the context.
    pub flags: ContextFlags,
    /// The MD5 hash of the channel's bindings, or 16 zeros if there are none (section 4.1.1.2).
    pub bindings: [u8; 16],
    /// The credentials that the client delegates, a message KRB-CRED.
    /// They are there exactly if the flag `Delegation` is set.
    pub delegation: Option<&'a [u8]>,
    /// What is after the other fields. It isn't looked at.
    pub extensions: &'a [u8],
}

// The delegated credentials may be readable, so no byte is shown.
impl fmt::Debug for Checksum<'_> {
    ghost use Rattle.std.specs.Prelude.{Some};
    ghost use Rattle.krb_gss.specs.Checksum.{shown};

    ghost debug_output = { λ c. Some (shown c.flags.0) };

    fn fmt<W: fmt::Write>(&self, f: &mut fmt::Formatter<W>) -> fmt::Result {
        let flags = self.flags.0;
        write!(f, "Checksum(flags {flags})")
    }
}

/// Why bytes aren't a checksum.
#[derive(Clone, Copy, Debug, PartialEq, Eq, Error)]
pub enum ChecksumFault {
    /// The bytes end before a field does.
    #[error("the checksum is cut off")]
    Truncated,
    /// The length of the channel's bindings isn't 16.
    #[error("the length of the bindings isn't 16")]
    BindingsLength,
    /// The number of the delegation's option isn't 1.
    #[error("the option of the delegation isn't 1")]
    DelegationOption,
}

/// Why a checksum wasn't written.
#[derive(Debug, Drop, Error)]
pub enum ChecksumWriteFault {
    /// There is a delegation and its flag isn't set, or the flag is set and there is none.
    #[error("the flag doesn't agree with the delegation")]
    Delegation,
    /// The delegation has more than 65,535 bytes.
    #[error("the delegation is longer than 65535 bytes")]
    TooLong,
    /// There is no memory.
    #[error("out of memory")]
    OutOfMemory,
}

impl From<AllocError> for ChecksumWriteFault {
    ghost use Rattle.krb_gss.specs.declared.checksum.ChecksumWriteFault.TheVariants.{OutOfMemory};

    ghost from_gives = { λ _ e. e ≡ OutOfMemory };

    fn from(_error: AllocError) -> ChecksumWriteFault {
        ChecksumWriteFault::OutOfMemory
    }
}

impl<'a> Checksum<'a> {
    /// Reads a checksum. The extensions are the rest of the bytes, and aren't looked at.
    ///
    /// # Errors
    /// The first that holds:
    /// - `Truncated`: there are fewer than 24 bytes.
    /// - `BindingsLength`: the number in the first four bytes isn't 16.
    /// - If the flag `Delegation` is set: `Truncated` with fewer than 28 bytes; `DelegationOption`
    ///   if the number after the flags isn't 1; `Truncated` if the delegation is cut off.
    pub fn parse(bytes: &'a [u8]) -> Result<Checksum<'a>, ChecksumFault>
        ensures found { IfOk result (λ c. IsChecksum (content_of c) bytes.entry.now) }
        ensures only { (c : Content) → IsChecksum c bytes.entry.now → IsOkAnd result (λ x. content_of x ≡ c) }
        ensures faulty { IfErr result (IsChecksumFault bytes.entry.now) }
    {
        let (bindings, flags, after) = front(bytes)?;
        let (delegation, extensions) = delegation(flags, after)?;
        Ok(Checksum {
            flags,
            bindings,
            delegation,
            extensions,
        })
    }

    /// Returns whether the channel's bindings are these.
    pub fn has_bindings(&self, bindings: &[u8; 16]) -> bool
        ensures { IsTrue result ↔ (self.now.bindings ≡ bindings.now) }
    {
        self.bindings == *bindings
    }

    /// Returns the bytes of the checksum.
    ///
    /// # Errors
    /// - `Delegation`: there is a delegation and the flag isn't set, or the flag is set and there is
    ///   none.
    /// - `TooLong`: the delegation has more than 65,535 bytes.
    /// - `OutOfMemory`.
    pub fn encode(&self, alloc: Global) -> Result<Vec<u8>, ChecksumWriteFault>
        ensures ok { IfOk result (λ bytes. IsChecksum (content_of self.now) bytes.items) }
        ensures delegation { (IsErrOf result ChecksumWriteFault.Delegation)
            ↔ (AgreesWithFlag self.now.flags.0 (bytes_if self.now.delegation) → ⊥) }
        ensures too_long { (IsErrOf result ChecksumWriteFault.TooLong)
            ↔ (AgreesWithFlag self.now.flags.0 (bytes_if self.now.delegation) × IsTooLong (bytes_if self.now.delegation)) }
    {
        self.check()?;
        let mut bytes = Vec::new(alloc);
        bytes.extend_from_slice(&[16, 0, 0, 0])?;
        bytes.extend_from_slice(&self.bindings)?;
        bytes.extend_from_slice(&self.flags.0.to_le_bytes())?;
        add_delegation(&mut bytes, self.delegation)?;
        bytes.extend_from_slice(self.extensions)?;
        Ok(bytes)
    }

    /// Whether the checksum can be written.
    fn check(&self) -> Result<(), ChecksumWriteFault>
        ensures { Checks result self.now.flags.0 (bytes_if self.now.delegation) }
    {
        if self.flags.has(ContextFlag::Delegation) != self.delegation.is_some() {
            return Err(ChecksumWriteFault::Delegation);
        }
        match self.delegation {
            Some(message) if message.len() > 65_535 => Err(ChecksumWriteFault::TooLong),
            _ => Ok(()),
        }
    }
}

/// The first 24 bytes: the channel's bindings and the flags. And what is after them.
fn front(bytes: &[u8]) -> Result<([u8; 16], ContextFlags, &[u8]), ChecksumFault>
    ensures { ReadsFront result bytes.now }
{
    let Some((size, rest)) = bytes.split_first_chunk::<4>() else {
        return Err(ChecksumFault::Truncated);
    };
    let Some((bindings, rest)) = rest.split_first_chunk::<16>() else {
        return Err(ChecksumFault::Truncated);
    };
    let Some((flags, rest)) = rest.split_first_chunk::<4>() else {
        return Err(ChecksumFault::Truncated);
    };
    if *size != [16, 0, 0, 0] {
        return Err(ChecksumFault::BindingsLength);
    }
    Ok((*bindings, ContextFlags(u32::from_le_bytes(*flags)), rest))
}

/// The delegation, if there is one by the flags, and what is after it.
fn delegation(flags: ContextFlags, bytes: &[u8]) -> Result<(Option<&[u8]>, &[u8]), ChecksumFault>
    ensures { ReadsDelegation flags.0 result bytes.now }
{
    if !flags.has(ContextFlag::Delegation) {
        return Ok((None, bytes));
    }
    let (message, extensions) = message(bytes)?;
    Ok((Some(message), extensions))
}

/// The message of a delegation, and what is after it.
fn message(bytes: &[u8]) -> Result<(&[u8], &[u8]), ChecksumFault>
    ensures { (flags : ℕ) → ReadsMessage flags result bytes.now }
{
    let Some((option, rest)) = bytes.split_first_chunk::<2>() else {
        return Err(ChecksumFault::Truncated);
    };
    let Some((size, rest)) = rest.split_first_chunk::<2>() else {
        return Err(ChecksumFault::Truncated);
    };
    if *option != [1, 0] {
        return Err(ChecksumFault::DelegationOption);
    }
    let size = usize::from(u16::from_le_bytes(*size));
    let Some(parts) = rest.split_at_checked(size) else {
        return Err(ChecksumFault::Truncated);
    };
    Ok(parts)
}

/// Adds the delegation, if there is one, with its option and its length.
fn add_delegation(bytes: &mut Vec<u8>, delegation: Option<&[u8]>) -> Result<(), AllocError>
    requires { IsTooLong (bytes_if delegation) → ⊥ }
    ensures { OnOk result (bytes.new.items ≡ bytes.old.items ++ option_bytes (bytes_if delegation.entry)) }
{
    let Some(message) = delegation else {
        return Ok(());
    };
    let [low, high] = (message.len() as u16).to_le_bytes();
    bytes.extend_from_slice(&[1, 0, low, high])?;
    bytes.extend_from_slice(message)
}
