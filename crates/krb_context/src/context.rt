//! One side of a context: it sends tokens and takes those of the other side.

ghost use Rattle.std.specs.Prelude.{◌≡◌, ◌≤◌, ◌<◌, ◌+◌, ◌-◌, ◌^◌, ◌↔◌, ℕ, List, [], Bool, IfOk, IfErr, IfSome, IsNone, MatchResult, Ok, Some, length, take, drop, if◌then◌else◌};
ghost use Rattle.krb_context.specs.Side.{peer_of, peer_sender};
ghost use Rattle.krb_context.specs.Mic.{IsMic, mic_token};
ghost use Rattle.krb_context.specs.Wrap.{IsWrap, wrap_token};
ghost use Rattle.krb_context.specs.Sequence.{Stands};
ghost use Rattle.krb_context.specs.Context.{HasSentFirst, IsBegun, IsMicRefusal, IsOutOfOrder, IsSent, IsWrapRefusal, LeavesToken, Takes, first_of, number_after, sender_in};

use crate::agreed::{Agreed, Options};
use crate::direction::Unwrapped;
use crate::fault::{ReceiveFault, SendFault};
use crate::header::HEADER_LEN;
use crate::keys::Keys;
use crate::order::{Order, Window};
use crate::role::Role;
use krb_enc::ShortSlice;
use std::alloc::{AllocError, Global};
use std::marker::Model;

/// One side of a context: it counts the tokens that it sends, and knows which ones it took.
///
/// The type has no `Debug`, so no log shows a key.
#[derive(Drop)]
pub struct Context {
    keys: Keys,
    options: Options,
    next: Option<u64>,
    window: Window,
}

impl Model for Context {
    ghost use Rattle.std.specs.Prelude.{◌<◌, ◌^◌};
    ghost use Rattle.krb_context.specs.Context.{State};
    ghost use Rattle.krb_context.specs.Inner.Prepared.{state_of};

    ghost Value = { State };

    ghost view = { λ c. state_of c.keys c.options c.next c.window };

    ghost invariant = { λ c. c.options.rotation < 2 ^ 16 };
}

/// What a Wrap token that was taken says.
#[derive(Clone, Copy, Debug, PartialEq, Eq)]
pub struct Opened {
    /// Where the text is, whether it was sealed, and the token's number.
    pub text: Unwrapped,
    /// How the token stands to those that were taken before it.
    pub order: Order,
}

/// What a MIC token that was taken says.
#[derive(Clone, Copy, Debug, PartialEq, Eq)]
pub struct Verified {
    /// The token's sequence number.
    pub number: u64,
    /// How the token stands to those that were taken before it.
    pub order: Order,
}

impl Context {
    /// Makes the side `role` of the context that both sides agreed on. It has sent and taken nothing.
    ///
    /// Each call derives the keys that it needs, until `prepare` has derived them for all calls.
    ///
    /// Source: RFC 4121, section 2.
    pub fn new(role: Role, agreed: &Agreed, options: Options) -> Context
        ensures sender { result.sender ≡ sender_in agreed.now role }
        ensures options { result.options ≡ options }
        ensures next { result.next ≡ Some (first_of agreed.now role) }
        ensures window { Stands result.window (first_of agreed.now (peer_of role)) [] }
        ensures begun { IsBegun agreed.now role result }
    {
        let is_acceptor_subkey = agreed.acceptor_subkey.is_some();
        Context {
            keys: Keys::new(agreed.key(), role, is_acceptor_subkey),
            options,
            next: Some(agreed.first_number(role)),
            window: Window::new(agreed.first_number(role.peer())),
        }
    }

    /// Makes the side `role` of the context that both sides agreed on, after each side has sent its
    /// first token and taken that of the other: the MICs of a list of mechanisms.
    ///
    /// Source: RFC 4178, section 5.
    pub fn after_first(role: Role, agreed: &Agreed, options: Options) -> Context
        ensures options { result.options ≡ options }
        ensures sent { HasSentFirst agreed.now role result }
    {
        let mut context = Context::new(role, agreed, options);
        context.next = number_after(agreed.first_number(role));
        context.window.mark(agreed.first_number(role.peer()));
        context
    }

    /// Derives the keys of both sides, once for many messages: about 5 KiB of memory. No call answers
    /// otherwise after it, but each takes less time.
    ///
    /// # Errors
    /// `AllocError`: out of memory.
    pub fn prepare(&mut self, alloc: Global) -> Result<(), AllocError>
        ensures { self.new ≡ self.old }
    {
        self.keys.prepare(alloc)
    }

    /// Writes the MIC token of `text` with the next number to the start of `token`, and returns its
    /// length: 32 bytes (type 19) or 40 (type 20). The rest of `token` is unchanged.
    ///
    /// # Errors
    /// The first that applies. In each case the context and `token` are unchanged.
    /// - `NumbersUsedUp`: a token with the last number was sent.
    /// - `ShortSlice`: the MIC token is longer than `token`.
    ///
    /// Source: RFC 4121, sections 4.2.1, 4.2.2, 4.2.4 and 4.2.6.1.
    pub fn mic_to(&mut self, text: &[u8], token: &mut [u8]) -> Result<usize, SendFault>
        ensures { IsSent (λ number. mic_token self.old.sender number text.now)
            self.old self.new token.old token.new result }
    {
        let number = self.next.ok_or(SendFault::NumbersUsedUp)?;
        let written = self.keys.mic_to(number, text, token);
        self.counted(number, written)
    }

    /// Writes the Wrap token of `text` with the next number to the start of `token`, and returns its
    /// length. Sealed it has the text's length and 64 bytes (type 19) or 72 (type 20), in plain the
    /// text's and 32 or 40. The rest of `token` is unchanged.
    ///
    /// `confounder` is 16 random bytes, new for each call; a token in plain doesn't have them. A
    /// sealed token has no filler (EC is 0), and is rotated as the context's options say.
    ///
    /// # Errors
    /// The first that applies. In each case the context and `token` are unchanged.
    /// - `NumbersUsedUp`: a token with the last number was sent.
    /// - `ShortSlice`: the Wrap token is longer than `token`.
    ///
    /// Source: RFC 4121, sections 4.2.4, 4.2.5 and 4.2.6.2.
    pub fn wrap_to(
        &mut self,
        is_sealed: bool,
        confounder: &[u8; 16],
        text: &[u8],
        token: &mut [u8],
    ) -> Result<usize, SendFault>
        ensures { IsSent (λ number. wrap_token self.old.sender is_sealed self.old.options.rotation confounder.now number text.now)
            self.old self.new token.old token.new result }
    {
        let number = self.next.ok_or(SendFault::NumbersUsedUp)?;
        let written = self.keys.wrap_to(
            is_sealed,
            self.options.rotation,
            number,
            confounder,
            text,
            token,
        );
        self.counted(number, written)
    }

    /// Returns the length of the longest text whose Wrap token has at most `size` bytes; none if even
    /// the token of an empty text is longer.
    ///
    /// Source: RFC 2743, section 2.2.7.
    pub fn wrap_size_limit(&self, size: usize, is_sealed: bool) -> Option<usize>
        ensures fits { IfSome result (λ limit. (confounder text : List ℕ) (number : ℕ) → length confounder ≡ 16
            → (length (wrap_token self.now.sender is_sealed self.now.options.rotation confounder number text) ≤ size)
            ↔ (length text ≤ limit)) }
        ensures none { IsNone result → (confounder text : List ℕ) (number : ℕ) → length confounder ≡ 16
            → size < length (wrap_token self.now.sender is_sealed self.now.options.rotation confounder number text) }
    {
        size.checked_sub(self.keys.wrap_overhead(is_sealed))
    }

    /// Checks that `token` is a MIC token of `text` from the other side and takes it. Returns its
    /// number, and how it stands to those that were taken before it. Unless the options ask for order
    /// or refuse repeats, a repeat or an old token is taken, too: look at `order`.
    ///
    /// # Errors
    /// The first that applies. In each case the context is unchanged.
    /// - `NotAccepted`: `token` isn't the other side's for this text (see `Direction::verify_mic`).
    /// - `OutOfOrder`: it isn't the next one, and the options ask for order; or it is a repeat or too
    ///   old to know, and they refuse repeats.
    ///
    /// Source: RFC 4121, sections 4.2.2, 4.2.4 and 4.2.6.1; RFC 2743, section 1.2.3.
    pub fn verify_mic(&mut self, text: &[u8], token: &[u8]) -> Result<Verified, ReceiveFault>
        ensures ok { IfOk result (λ it. IsMic (peer_sender self.old.sender) it.number text.now token.now) }
        ensures taken { IfOk result (λ it. Takes self.old it.number it.order self.new) }
        ensures found { (number : ℕ) → IsMic (peer_sender self.old.sender) number text.now token.now
            → MatchResult result (λ it. it.number ≡ number) (λ fault. IsOutOfOrder self.old number fault) }
        ensures fault { IfErr result (λ fault. IsMicRefusal self.old text.now token.now fault) }
        ensures unchanged { IfErr result (λ _. self.new ≡ self.old) }
    {
        let number = self.keys.verify_mic(text, token)?;
        let order = self.take(number)?;
        Ok(Verified { number, order })
    }

    /// Opens a Wrap token of the other side in place and takes it. Returns where its text is in
    /// `token`, and how it stands to those that were taken before it. Unless the options ask for order
    /// or refuse repeats, a repeat or an old token is opened, too: look at `order`.
    ///
    /// # Errors
    /// The first that applies. In each case the context is unchanged. After `Integrity` and
    /// `OutOfOrder`, what comes after the header is zeros; otherwise `token` is unchanged.
    /// - `NotAccepted`: `token` isn't the other side's (see `Direction::unwrap`).
    /// - `OutOfOrder`: it isn't the next one, and the options ask for order; or it is a repeat or too
    ///   old to know, and they refuse repeats.
    ///
    /// Source: RFC 4121, sections 4.2.2 to 4.2.6; RFC 2743, section 1.2.3.
    pub fn unwrap(&mut self, token: &mut [u8]) -> Result<Opened, ReceiveFault>
        ensures ok { IfOk result (λ it. IsWrap (peer_sender self.old.sender) it.text.is_sealed it.text.number
            (take it.text.len (drop it.text.start token.new)) token.old) }
        ensures within { IfOk result (λ it. (16 ≤ it.text.start) × (it.text.start + it.text.len ≤ length token.new)) }
        ensures start { IfOk result (λ it. it.text.start ≡ (if it.text.is_sealed then 32 else 16)) }
        ensures length { length token.new ≡ length token.old }
        ensures taken { IfOk result (λ it. Takes self.old it.text.number it.order self.new) }
        ensures found { (is_sealed : Bool) (number : ℕ) (text : List ℕ)
            → IsWrap (peer_sender self.old.sender) is_sealed number text token.old
            → MatchResult result (λ it. (it.text.is_sealed ≡ is_sealed) × (it.text.number ≡ number)
            × (take it.text.len (drop it.text.start token.new) ≡ text)) (λ fault. IsOutOfOrder self.old number fault) }
        ensures fault { IfErr result (λ fault. IsWrapRefusal self.old token.old fault) }
        ensures unchanged { IfErr result (λ _. self.new ≡ self.old) }
        ensures header { take 16 token.new ≡ take 16 token.old }
        ensures token { IfErr result (λ fault. LeavesToken fault token.old token.new) }
    {
        let text = self.keys.unwrap(token)?;
        match self.take(text.number) {
            Ok(order) => Ok(Opened { text, order }),
            Err(fault) => {
                token[HEADER_LEN..].fill(0);
                Err(fault)
            }
        }
    }

    // What a sending call returns that wrote a token with this number, or didn't.
    fn counted(
        &mut self,
        number: u64,
        written: Result<usize, ShortSlice>,
    ) -> Result<usize, SendFault>
        ensures written { IfOk written (λ size. (result ≡ Ok size)
            × (self.new ≡ record self.old { next = number_after number })) }
        ensures short { IfErr written (λ short. (result ≡ Err (SendFault.ShortSlice short.needed))
            × (self.new ≡ self.old)) }
        ensures fits { number < 2 ^ 64 }
    {
        match written {
            Ok(size) => {
                self.next = number_after(number);
                Ok(size)
            }
            Err(short) => Err(SendFault::ShortSlice {
                needed: short.needed,
            }),
        }
    }

    // Takes a number, unless the options refuse it.
    fn take(&mut self, number: u64) -> Result<Order, ReceiveFault>
        ensures ok { IfOk result (λ order. Takes self.old number order self.new) }
        ensures fault { IfErr result (λ fault. IsOutOfOrder self.old number fault) }
        ensures unchanged { IfErr result (λ _. self.new ≡ self.old) }
    {
        let order = self.window.order(number);
        if !self.options.takes(order) {
            return Err(ReceiveFault::OutOfOrder(order));
        }
        self.window.mark(number);
        Ok(order)
    }
}

// The number of the next token, if there is one.
fn number_after(number: u64) -> Option<u64>
    ensures { result ≡ number_after number }
{
    number.checked_add(1)
}
