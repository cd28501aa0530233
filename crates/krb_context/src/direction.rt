//! What protects the tokens that one side sends.

ghost use Rattle.std.specs.Prelude.{◌≡◌, ◌==◌, ◌<◌, ◌+◌, ◌%◌, ◌/◌, ◌≤◌, ◌-◌, ◌++◌, ◌↔◌, ℕ, List, IfOk, IfErr, IfSome, IsNone, IsOkAnd, IsErrOf, IsOk, IsTrue, length, take, drop, replicate, Ok, if◌then◌else◌, Bool, true, false};
ghost use Rattle.krb_enc.specs.Key.{profile_of};
ghost use Rattle.krb_enc.specs.Written.{IsWritten};
ghost use Rattle.krb_context.specs.Side.{Sender, flags_of};
ghost use Rattle.krb_context.specs.Mic.{IsMic, mic_token};
ghost use Rattle.krb_context.specs.Wrap.{IsWrap, plain_token, rotated, sealed_token, wrap_checksum, wrap_header, wrap_token};
ghost use Rattle.krb_context.specs.Faults.{HasRoom, IsMicFault, IsWrapFault};
ghost use Rattle.krb_context.specs.Inner.Forms.{Holds, IsFormed, OpensTo};
ghost use Rattle.krb_context.specs.Inner.Prepared.{IsPrepared};

use crate::fault::MessageFault;
use crate::header::{HEADER_LEN, WrapHeader};
use crate::mic_keys::Mics;
use crate::role::Role;
use krb_enc::{ChecksumKey, Key, ShortSlice, Tag, UsageKey};
use std::marker::Model;

pub(crate) const CONFOUNDER_LEN: usize = 16;

/// What makes and checks the tokens that one side sends, prepared once for many texts.
///
/// A contract sees the key, the side and the flag AcceptorSubkey. The type has no `Debug`, so no log
/// shows a key.
#[derive(Drop)]
pub struct Direction {
    mics: Mics,
    checksums: ChecksumKey,
    sealing: UsageKey,
}

impl Model for Direction {
    ghost Value = { Sender };

    ghost view = { λ d. d.mics };

    ghost invariant = { λ d. IsPrepared d.mics d.checksums d.sealing };
}

/// Where the text of a Wrap token is, after the token was opened in place.
#[derive(Clone, Copy, Debug, PartialEq, Eq)]
pub struct Unwrapped {
    /// Where the text begins in the token.
    pub start: usize,
    /// How many bytes it has.
    pub len: usize,
    /// Whether it was sealed.
    pub is_sealed: bool,
    /// The token's sequence number.
    pub number: u64,
}

// Where a text is in what comes after a header.
#[derive(Clone, Copy)]
struct Place {
    start: usize,
    len: usize,
}

impl Direction {
    /// Prepares the keys of the tokens that `side` sends under `key`.
    ///
    /// `is_acceptor_subkey` says whether the key is a subkey that the acceptor asserted, as the
    /// tokens' flags say it.
    ///
    /// Source: RFC 4121, section 2.
    #[inline(never)]
    pub fn new(key: &Key, side: Role, is_acceptor_subkey: bool) -> Direction
        ensures { result ≡ record { key = key.now; side = side; acceptor_subkey = is_acceptor_subkey } }
    {
        Direction {
            mics: Mics::new(key, side, is_acceptor_subkey),
            checksums: key.for_checksums(side.seal_usage()),
            sealing: key.for_usage(side.seal_usage()),
        }
    }

    /// Writes the MIC token of `text` with the sequence number `number` to the start of `token`, and
    /// returns its length: 32 bytes (type 19) or 40 (type 20). The rest of `token` is unchanged.
    ///
    /// # Errors
    /// `ShortSlice`: the MIC token is longer than `token`, which is unchanged.
    ///
    /// Source: RFC 4121, sections 4.2.4 and 4.2.6.1.
    pub fn mic_to(&self, number: u64, text: &[u8], token: &mut [u8]) -> Result<usize, ShortSlice>
        ensures { IsWritten ShortSlice (λ needed. record { needed = needed })
            (mic_token self.now number text.now) token.old token.new result }
    {
        self.mics.mic_to(number, text, token)
    }

    /// Checks that `token` is a MIC token of `text` from this side, and returns its sequence number.
    ///
    /// # Errors
    /// The first that applies:
    /// - `Defective`: the bytes don't begin with the header of a MIC token, or it says that the
    ///   token is sealed.
    /// - `Direction`: it says that the other side sent it.
    /// - `OtherKey`: it says otherwise than this context whether the key is the acceptor's subkey.
    /// - `Integrity`: the rest isn't the checksum of the text and the header.
    ///
    /// Flags without a name are ignored.
    ///
    /// Source: RFC 4121, sections 4.2.2, 4.2.4 and 4.2.6.1.
    pub fn verify_mic(&self, text: &[u8], token: &[u8]) -> Result<u64, MessageFault>
        ensures ok { IfOk result (λ number. IsMic self.now number text.now token.now) }
        ensures found { (number : ℕ) → IsMic self.now number text.now token.now → result ≡ Ok number }
        ensures fault { IfErr result (IsMicFault self.now text.now token.now) }
    {
        self.mics.verify_mic(text, token)
    }

    /// Writes the sealed Wrap token of `text` with the sequence number `number` to the start of
    /// `token`, and returns its length: the text's and 64 bytes (type 19) or 72 (type 20). The rest
    /// of `token` is unchanged.
    ///
    /// `confounder` is 16 random bytes, new for each call. The token has no filler (EC is 0) and
    /// isn't rotated (RRC is 0).
    ///
    /// # Errors
    /// `ShortSlice`: the Wrap token is longer than `token`, which is unchanged.
    ///
    /// Source: RFC 4121, sections 4.2.4 and 4.2.6.2.
    pub fn seal_to(
        &self,
        number: u64,
        confounder: &[u8; 16],
        text: &[u8],
        token: &mut [u8],
    ) -> Result<usize, ShortSlice>
        ensures { IsWritten ShortSlice (λ needed. record { needed = needed })
            (sealed_token self.now confounder.now number text.now) token.old token.new result }
    {
        let header = self.wrap_header(true, 0, 0, number);
        let body_len = CONFOUNDER_LEN + text.len() + HEADER_LEN + self.sealing.tag_len();
        let needed = HEADER_LEN + body_len;
        if token.len() < needed {
            return Err(ShortSlice { needed });
        }
        let (front, rest) = token.split_at_mut(HEADER_LEN);
        front.copy_from_slice(&header);
        let (body, _) = rest.split_at_mut(body_len);
        lay_out(text, &header, body);
        self.sealing.seal_in_place(confounder, body)?;
        Ok(needed)
    }

    /// Writes the Wrap token of `text` without confidentiality, with the sequence number `number`, to
    /// the start of `token`, and returns its length: the text's and 32 bytes (type 19) or 40 (type
    /// 20). The rest of `token` is unchanged.
    ///
    /// # Errors
    /// `ShortSlice`: the Wrap token is longer than `token`, which is unchanged.
    ///
    /// Source: RFC 4121, sections 4.2.4 and 4.2.6.2.
    pub fn wrap_in_plain_to(
        &self,
        number: u64,
        text: &[u8],
        token: &mut [u8],
    ) -> Result<usize, ShortSlice>
        ensures { IsWritten ShortSlice (λ needed. record { needed = needed })
            (plain_token self.now number text.now) token.old token.new result }
    {
        let checksum = self
            .checksums
            .checksum(&[text, &self.wrap_header(false, 0, 0, number)]);
        let header = self.wrap_header(false, self.sealing.tag_len() as u16, 0, number);
        put(&header, text, &checksum, token)
    }

    // Writes the Wrap token, sealed and rotated or in plain.
    pub(crate) fn wrap_to(
        &self,
        is_sealed: bool,
        rotation: u16,
        number: u64,
        confounder: &[u8; 16],
        text: &[u8],
        token: &mut [u8],
    ) -> Result<usize, ShortSlice>
        ensures { IsWritten ShortSlice (λ needed. record { needed = needed })
            (wrap_token self.now is_sealed rotation confounder.now number text.now) token.old token.new result }
    {
        if is_sealed {
            let size = self.seal_to(number, confounder, text, token)?;
            let header = self.wrap_header(true, 0, rotation, number);
            rotate(&header, rotation, &mut token[..size]);
            Ok(size)
        } else {
            self.wrap_in_plain_to(number, text, token)
        }
    }

    /// Opens a Wrap token of this side in place, and returns where its text is in `token`.
    ///
    /// A sealed text was encrypted, and one in plain has a checksum. A token that was rotated is
    /// turned back; what comes after its header has changed then.
    ///
    /// # Errors
    /// The first that applies. After `Integrity`, what comes after the header is zeros; otherwise
    /// `token` is unchanged.
    /// - `Defective`: the bytes don't begin with the header of a Wrap token, or its EC doesn't fit
    ///   what comes after it.
    /// - `Direction`: the header says that the other side sent it.
    /// - `OtherKey`: it says otherwise than this context whether the key is the acceptor's subkey.
    /// - `Integrity`: the text doesn't open, or the header inside differs from the token's, or what
    ///   comes after a text in plain isn't its checksum.
    ///
    /// Flags without a name are ignored. A sealed text may have filler after it, and a token may be
    /// rotated by any number of bytes.
    ///
    /// Source: RFC 4121, sections 4.2.2 to 4.2.6.
    pub fn unwrap(&self, token: &mut [u8]) -> Result<Unwrapped, MessageFault>
        ensures ok { IfOk result (λ it.
            IsWrap self.now it.is_sealed it.number (take it.len (drop it.start token.new)) token.old) }
        ensures within { IfOk result (λ it. (16 ≤ it.start) × (it.start + it.len ≤ length token.new)) }
        ensures start { IfOk result (λ it. it.start ≡ (if it.is_sealed then 32 else 16)) }
        ensures length { length token.new ≡ length token.old }
        ensures header { take 16 token.new ≡ take 16 token.old }
        ensures found { (is_sealed : Bool) (number : ℕ) (text : List ℕ)
            → IsWrap self.now is_sealed number text token.old
            → IsOkAnd result (λ it. (it.is_sealed ≡ is_sealed) × (it.number ≡ number)
            × (take it.len (drop it.start token.new) ≡ text)) }
        ensures fault { IfErr result (IsWrapFault self.now token.old) }
        ensures unchanged { IfErr result (λ fault. (fault ≡ MessageFault.Integrity → ⊥)
            → token.new ≡ token.old) }
        ensures cleared { IsErrOf result MessageFault.Integrity
            → token.new ≡ take 16 token.old ++ replicate (length token.old - 16) 0 }
    {
        let header = self.wrap_form(token)?;
        let (_, body) = token.split_at_mut(HEADER_LEN);
        body.rotate_left(usize::from(header.rotation) % body.len());
        let Some(place) = self.opened(header, body) else {
            body.fill(0);
            return Err(MessageFault::Integrity);
        };
        Ok(Unwrapped {
            start: HEADER_LEN + place.start,
            len: place.len,
            is_sealed: header.flags / 2 % 2 == 1,
            number: header.number,
        })
    }

    fn wrap_header(
        &self,
        is_sealed: bool,
        extra: u16,
        rotation: u16,
        number: u64,
    ) -> [u8; HEADER_LEN]
        ensures { result ≡ wrap_header (flags_of self.now is_sealed) extra rotation number }
    {
        WrapHeader {
            flags: self.mics.flags(is_sealed),
            extra,
            rotation,
            number,
        }
        .bytes()
    }

    // The header of a token that has the form of a Wrap token of this side.
    fn wrap_form(&self, token: &[u8]) -> Result<WrapHeader, MessageFault>
        ensures form { IfOk result (λ it. IsFormed self.now token.now it) }
        ensures fault { IfErr result (λ fault. IsWrapFault self.now token.now fault) }
        ensures kind { IsErrOf result MessageFault.Integrity → ⊥ }
    {
        if token.len() < HEADER_LEN {
            return Err(MessageFault::Defective);
        }
        let (front, body) = token.split_at(HEADER_LEN);
        let Some(header) = WrapHeader::read(front) else {
            return Err(MessageFault::Defective);
        };
        if !self.has_room(header, body.len()) {
            return Err(MessageFault::Defective);
        }
        self.mics.check_flags(header.flags)?;
        Ok(header)
    }

    // Whether what a header says fits so many bytes after it.
    fn has_room(&self, header: WrapHeader, len: usize) -> bool
        ensures { IsTrue result ↔ HasRoom self.now header.flags header.extra len }
    {
        let extra = usize::from(header.extra);
        let tag_len = self.sealing.tag_len();
        if header.flags / 2 % 2 == 1 {
            len >= CONFOUNDER_LEN + extra + HEADER_LEN + tag_len
        } else {
            extra == tag_len && len >= extra
        }
    }

    // Where the text is in what comes after the header of a token, which it opens if it is sealed.
    fn opened(&self, header: WrapHeader, body: &mut [u8]) -> Option<Place>
        requires { HasRoom self.now header.flags header.extra (length body.old) }
        ensures found { IfSome result (λ place.
            Holds self.now header body.old (take place.len (drop place.start body.new))) }
        ensures within { IfSome result (λ place. place.start + place.len ≤ length body.new) }
        ensures start { IfSome result (λ place. place.start ≡ (if header.flags / 2 % 2 == 1 then 16 else 0)) }
        ensures none { IsNone result → (text : List ℕ) → Holds self.now header body.old text → ⊥ }
    {
        if header.flags / 2 % 2 == 1 {
            let len = self.open(header, body)?;
            Some(Place {
                start: CONFOUNDER_LEN,
                len,
            })
        } else {
            let len = self.check(header, body)?;
            Some(Place { start: 0, len })
        }
    }

    // The length of the text in what comes after the header of a sealed token, which it opens.
    fn open(&self, header: WrapHeader, body: &mut [u8]) -> Option<usize>
        requires { 32 + header.extra + (profile_of self.now.key).tag_len ≤ length body.old }
        ensures found { IfSome result (λ len.
            OpensTo self.now header body.old (take len (drop 16 body.new)) × (16 + len ≤ length body.new)) }
        ensures none { IsNone result → (text : List ℕ) → OpensTo self.now header body.old text → ⊥ }
    {
        self.sealing.open_in_place(body).ok()?;
        let end = body.len() - self.sealing.tag_len();
        text_before(header, &body[CONFOUNDER_LEN..end])
    }

    // The length of the text in what comes after the header of a token in plain.
    fn check(&self, header: WrapHeader, body: &[u8]) -> Option<usize>
        requires tag { header.extra ≡ (profile_of self.now.key).tag_len }
        requires room { header.extra ≤ length body.now }
        ensures found { IfSome result (λ len. (len ≤ length body.now) × (body.now ≡ take len body.now
            ++ wrap_checksum self.now header.flags header.number (take len body.now))) }
        ensures none { IsNone result → (text : List ℕ)
            → body.now ≡ text ++ wrap_checksum self.now header.flags header.number text → ⊥ }
    {
        let (text, tag) = body.split_at(body.len() - usize::from(header.extra));
        if self.is_checksum(header, text, tag) {
            Some(text.len())
        } else {
            None
        }
    }

    // Whether a tag is the checksum of a text in plain with this header.
    fn is_checksum(&self, header: WrapHeader, text: &[u8], tag: &[u8]) -> bool
        ensures { IsTrue result
            ↔ (tag.now ≡ wrap_checksum self.now header.flags header.number text.now) }
    {
        let bare = WrapHeader {
            extra: 0,
            rotation: 0,
            ..header
        }
        .bytes();
        self.checksums.verify(&[text, &bare], tag)
    }
}

// Writes a header, a text and a checksum one after another to the start of `token`.
pub(crate) fn put(
    header: &[u8; HEADER_LEN],
    text: &[u8],
    checksum: &Tag,
    token: &mut [u8],
) -> Result<usize, ShortSlice>
    ensures { IsWritten ShortSlice (λ needed. record { needed = needed })
        (header.now ++ (text.now ++ checksum.now)) token.old token.new result }
{
    let checksum = checksum.as_slice();
    let needed = HEADER_LEN + text.len() + checksum.len();
    if token.len() < needed {
        return Err(ShortSlice { needed });
    }
    let (front, rest) = token.split_at_mut(HEADER_LEN);
    front.copy_from_slice(header);
    let (middle, rest) = rest.split_at_mut(text.len());
    middle.copy_from_slice(text);
    let (end, _) = rest.split_at_mut(checksum.len());
    end.copy_from_slice(checksum);
    Ok(needed)
}

// Gives a token that isn't rotated another header, and rotates what comes after it.
fn rotate(header: &[u8; HEADER_LEN], rotation: u16, token: &mut [u8])
    requires { 16 < length token.old }
    ensures { token.new ≡ header.now ++ rotated rotation (drop 16 token.old) }
{
    let (front, body) = token.split_at_mut(HEADER_LEN);
    front.copy_from_slice(header);
    body.rotate_right(usize::from(rotation) % body.len());
}

// Writes a text and a header after it to where they stand in a body before it is sealed.
fn lay_out(text: &[u8], header: &[u8; HEADER_LEN], body: &mut [u8])
    requires { 32 + length text.now ≤ length body.old }
    ensures { body.new
        ≡ take 16 body.old ++ (text.now ++ (header.now ++ drop (32 + length text.now) body.old)) }
{
    let (_, rest) = body.split_at_mut(CONFOUNDER_LEN);
    let (middle, rest) = rest.split_at_mut(text.len());
    middle.copy_from_slice(text);
    let (end, _) = rest.split_at_mut(HEADER_LEN);
    end.copy_from_slice(header);
}

// The length of the text in what was encrypted: before the filler and the header, if that is the
// token's.
fn text_before(header: WrapHeader, plain: &[u8]) -> Option<usize>
    requires { header.extra + 16 ≤ length plain.now }
    ensures found { IfSome result (λ len. (len + (header.extra + 16) ≡ length plain.now)
        × (drop (len + header.extra) plain.now ≡ wrap_header header.flags header.extra 0 header.number)) }
    ensures none { IsNone result → drop (length plain.now - 16) plain.now
        ≡ wrap_header header.flags header.extra 0 header.number → ⊥ }
{
    let (front, end) = plain.split_at(plain.len() - HEADER_LEN);
    let inner = WrapHeader {
        rotation: 0,
        ..header
    }
    .bytes();
    if inner.as_slice() == end {
        Some(front.len() - usize::from(header.extra))
    } else {
        None
    }
}
