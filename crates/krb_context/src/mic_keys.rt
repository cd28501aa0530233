//! What makes and checks the MIC tokens of one side.

ghost use Rattle.std.specs.Prelude.{◌≡◌, ◌≤◌, ℕ, Ok, IfOk, IfErr, IsOk, if◌then◌else◌};
ghost use Rattle.krb_enc.specs.Written.{IsWritten};
ghost use Rattle.krb_context.specs.Side.{flags_of, sender_flag};
ghost use Rattle.krb_context.specs.Mic.{IsMic, mic_token};
ghost use Rattle.krb_context.specs.Faults.{IsMicFault, sender_bit, subkey_bit};
ghost use Rattle.krb_context.specs.Inner.Forms.{IsFlagFault};
ghost use Rattle.krb_context.specs.Inner.Prepared.{sender_of};

use crate::direction::put;
use crate::fault::MessageFault;
use crate::header::{HEADER_LEN, MicHeader};
use crate::role::Role;
use krb_enc::{ChecksumKey, Key, ShortSlice};
use std::marker::Model;

const SEALED: u8 = 2;

const ACCEPTOR_SUBKEY: u8 = 4;

/// The key of the MIC tokens that one side sends, prepared once for many texts.
///
/// A contract sees the key, the side and the flag AcceptorSubkey. The type has no `Debug`, so no log
/// shows a key.
#[derive(Drop)]
pub(crate) struct Mics {
    side: Role,
    is_acceptor_subkey: bool,
    key: ChecksumKey,
}

impl Model for Mics {
    ghost use Rattle.std.specs.Prelude.{◌≡◌};
    ghost use Rattle.krb_context.specs.Side.{Sender, sign_usage};
    ghost use Rattle.krb_context.specs.Inner.Prepared.{sender_of};

    ghost Value = { Sender };

    ghost view = { λ m. sender_of m.key.key m.side m.is_acceptor_subkey };

    ghost invariant = { λ m. m.key ≡ record { key = m.key.key; usage = sign_usage m.side } };
}

impl Mics {
    // Prepares the key for the tokens that `side` sends.
    pub(crate) fn new(key: &Key, side: Role, is_acceptor_subkey: bool) -> Mics
        ensures { result ≡ sender_of key.now side is_acceptor_subkey }
    {
        Mics {
            side,
            is_acceptor_subkey,
            key: key.for_checksums(side.sign_usage()),
        }
    }

    // Writes a MIC token (`Direction::mic_to`).
    pub(crate) fn mic_to(
        &self,
        number: u64,
        text: &[u8],
        token: &mut [u8],
    ) -> Result<usize, ShortSlice>
        ensures { IsWritten ShortSlice (λ needed. record { needed = needed })
            (mic_token self.now number text.now) token.old token.new result }
    {
        let header = MicHeader {
            flags: self.flags(false),
            number,
        }
        .bytes();
        put(&header, &[], &self.key.checksum(&[text, &header]), token)
    }

    // Checks a MIC token (`Direction::verify_mic`).
    pub(crate) fn verify_mic(&self, text: &[u8], token: &[u8]) -> Result<u64, MessageFault>
        ensures ok { IfOk result (λ number. IsMic self.now number text.now token.now) }
        ensures found { (number : ℕ) → IsMic self.now number text.now token.now → result ≡ Ok number }
        ensures fault { IfErr result (IsMicFault self.now text.now token.now) }
    {
        if token.len() < HEADER_LEN {
            return Err(MessageFault::Defective);
        }
        let (front, tag) = token.split_at(HEADER_LEN);
        let Some(header) = MicHeader::read(front) else {
            return Err(MessageFault::Defective);
        };
        if header.flags / 2 % 2 != 0 {
            return Err(MessageFault::Defective);
        }
        self.check_flags(header.flags)?;
        if self.key.verify(&[text, front], tag) {
            Ok(header.number)
        } else {
            Err(MessageFault::Integrity)
        }
    }

    // The flags of a token that this side sends.
    pub(crate) fn flags(&self, is_sealed: bool) -> u8
        ensures { result ≡ flags_of self.now is_sealed }
    {
        self.side.sender_flag()
            + if is_sealed { SEALED } else { 0 }
            + if self.is_acceptor_subkey {
                ACCEPTOR_SUBKEY
            } else {
                0
            }
    }

    // Whether flags are of this side and this key.
    pub(crate) fn check_flags(&self, flags: u8) -> Result<(), MessageFault>
        ensures ok { IsOk result
            → (sender_bit flags ≡ sender_flag self.now.side)
            × (subkey_bit flags ≡ (if self.now.acceptor_subkey then 1 else 0)) }
        ensures fault { IfErr result (IsFlagFault self.now flags) }
    {
        if flags % 2 != self.side.sender_flag() {
            return Err(MessageFault::Direction);
        }
        if (flags / 4 % 2 == 1) != self.is_acceptor_subkey {
            return Err(MessageFault::OtherKey);
        }
        Ok(())
    }
}
