//! What protects the tokens of both sides of a context.

ghost use Rattle.std.specs.Prelude.{◌≡◌, ◌≤◌, ℕ, Ok, IfOk, IfErr};
ghost use Rattle.krb_enc.specs.Key.{profile_of};
ghost use Rattle.krb_enc.specs.Written.{IsWritten};
ghost use Rattle.krb_context.specs.Side.{peer_sender};
ghost use Rattle.krb_context.specs.Mic.{IsMic, mic_token};
ghost use Rattle.krb_context.specs.Wrap.{wrap_overhead, wrap_token};
ghost use Rattle.krb_context.specs.Faults.{IsMicFault};
ghost use Rattle.krb_context.specs.Inner.Prepared.{sender_of};
ghost use Rattle.krb_context.specs.Inner.Unwraps.{Unwraps};

use crate::direction::{CONFOUNDER_LEN, Direction, Unwrapped};
use crate::fault::MessageFault;
use crate::header::HEADER_LEN;
use crate::mic_keys::Mics;
use crate::role::Role;
use krb_enc::etype::AES256_CTS_HMAC_SHA384_192;
use krb_enc::{Key, ShortSlice};
use std::alloc::{AllocError, Global};
use std::marker::Model;

/// The key of a context, and what is prepared of it for each side. A side that isn't prepared is
/// prepared for each token anew: it takes more time, but no memory.
///
/// A contract sees what protects the tokens of the own side. The type has no `Debug`, so no log shows
/// a key.
#[derive(Drop)]
pub(crate) struct Keys {
    key: Key,
    side: Role,
    is_acceptor_subkey: bool,
    sending: Option<Box<Direction>>,
    receiving: Option<Box<Direction>>,
}

impl Model for Keys {
    ghost use Rattle.std.specs.Prelude.{◌≡◌, IfSome};
    ghost use Rattle.krb_context.specs.Side.{Sender, peer_sender};
    ghost use Rattle.krb_context.specs.Inner.Prepared.{sender_of};

    ghost Value = { Sender };

    ghost view = { λ k. sender_of k.key k.side k.is_acceptor_subkey };

    ghost invariant = { λ k. IfSome k.sending (λ d. d.value ≡ sender_of k.key k.side k.is_acceptor_subkey)
        × IfSome k.receiving (λ d. d.value ≡ peer_sender (sender_of k.key k.side k.is_acceptor_subkey)) };
}

impl Keys {
    // The keys of the side `side`, of which nothing is prepared.
    pub(crate) fn new(key: &Key, side: Role, is_acceptor_subkey: bool) -> Keys
        ensures { result ≡ sender_of key.now side is_acceptor_subkey }
    {
        Keys {
            key: key.copy(),
            side,
            is_acceptor_subkey,
            sending: None,
            receiving: None,
        }
    }

    // Prepares both sides, unless memory runs out.
    pub(crate) fn prepare(&mut self, alloc: Global) -> Result<(), AllocError>
        ensures { self.new ≡ self.old }
    {
        let sending = boxed(alloc, &self.key, self.side, self.is_acceptor_subkey)?;
        let receiving = boxed(alloc, &self.key, self.side.peer(), self.is_acceptor_subkey)?;
        self.sending = Some(sending);
        self.receiving = Some(receiving);
        Ok(())
    }

    // Writes a MIC token of the own side (`Direction::mic_to`).
    pub(crate) fn mic_to(
        &self,
        number: u64,
        text: &[u8],
        token: &mut [u8],
    ) -> Result<usize, ShortSlice>
        ensures { IsWritten ShortSlice (λ needed. record { needed = needed })
            (mic_token self.now number text.now) token.old token.new result }
    {
        match &self.sending {
            Some(own) => own.mic_to(number, text, token),
            None => Mics::new(&self.key, self.side, self.is_acceptor_subkey).mic_to(
                number, text, token,
            ),
        }
    }

    // Writes a Wrap token of the own side (`Direction::wrap_to`).
    pub(crate) fn wrap_to(
        &self,
        is_sealed: bool,
        rotation: u16,
        number: u64,
        confounder: &[u8; 16],
        text: &[u8],
        token: &mut [u8],
    ) -> Result<usize, ShortSlice>
        ensures { IsWritten ShortSlice (λ needed. record { needed = needed })
            (wrap_token self.now is_sealed rotation confounder.now number text.now) token.old token.new result }
    {
        match &self.sending {
            Some(own) => own.wrap_to(is_sealed, rotation, number, confounder, text, token),
            None => Direction::new(&self.key, self.side, self.is_acceptor_subkey).wrap_to(
                is_sealed, rotation, number, confounder, text, token,
            ),
        }
    }

    // How much longer than its text a Wrap token of the own side is.
    pub(crate) fn wrap_overhead(&self, is_sealed: bool) -> usize
        ensures value { result ≡ wrap_overhead self.now is_sealed }
        ensures most { result ≤ 72 }
    {
        let beside_tag = if is_sealed {
            HEADER_LEN + CONFOUNDER_LEN + HEADER_LEN
        } else {
            HEADER_LEN
        };
        beside_tag + tag_len(&self.key)
    }

    // Checks a MIC token of the other side (`Direction::verify_mic`).
    pub(crate) fn verify_mic(&self, text: &[u8], token: &[u8]) -> Result<u64, MessageFault>
        ensures ok { IfOk result (λ number. IsMic (peer_sender self.now) number text.now token.now) }
        ensures found { (number : ℕ) → IsMic (peer_sender self.now) number text.now token.now → result ≡ Ok number }
        ensures fault { IfErr result (IsMicFault (peer_sender self.now) text.now token.now) }
    {
        match &self.receiving {
            Some(other) => other.verify_mic(text, token),
            None => Mics::new(&self.key, self.side.peer(), self.is_acceptor_subkey).verify_mic(
                text, token,
            ),
        }
    }

    // Opens a Wrap token of the other side in place (`Direction::unwrap`).
    pub(crate) fn unwrap(&self, token: &mut [u8]) -> Result<Unwrapped, MessageFault>
        ensures { Unwraps (peer_sender self.now) token.old token.new result }
    {
        match &self.receiving {
            Some(other) => unwrapped(other, token),
            None => unwrapped(
                &Direction::new(&self.key, self.side.peer(), self.is_acceptor_subkey),
                token,
            ),
        }
    }
}

fn unwrapped(direction: &Direction, token: &mut [u8]) -> Result<Unwrapped, MessageFault>
    ensures { Unwraps direction.now token.old token.new result }
{
    direction.unwrap(token)
}

// The length of the tags that a key makes.
fn tag_len(key: &Key) -> usize
    ensures value { result ≡ (profile_of key.now).tag_len }
    ensures most { result ≤ 24 }
{
    if key.etype() == AES256_CTS_HMAC_SHA384_192 {
        24
    } else {
        16
    }
}

// A side that is prepared in a box. It has a stack frame of its own, which is gone when the next one is prepared.
#[inline(never)]
fn boxed(
    alloc: Global,
    key: &Key,
    side: Role,
    is_acceptor_subkey: bool,
) -> Result<Box<Direction>, AllocError>
    ensures { IfOk result (λ it. it.value ≡ sender_of key.now side is_acceptor_subkey) }
{
    Ok(Box::new(alloc, Direction::new(key, side, is_acceptor_subkey))?)
}
