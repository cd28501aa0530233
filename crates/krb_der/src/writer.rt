//! Writing elements.

ghost use Rattle.std.specs.Prelude.{◌≡◌, ℕ, ◌+◌, ◌-◌, ◌≤◌, ◌<◌, ◌^◌, ◌↔◌, List, [], ◌∷◌, ◌++◌, length, take, drop, IsTrue, IfOk, OnOk, OnErr};
ghost use Rattle.krb_der.specs.Kind.{leaf, int32, uint32, microseconds, constant, octets, string, flags, time};
ghost use Rattle.krb_der.specs.Whole.{IsInteger};
ghost use Rattle.krb_der.specs.Spells.{IsElement};
ghost use Rattle.krb_der.specs.Inner.Limited.{limited_of, settled};
ghost use Rattle.krb_der.specs.Inner.HeadView.{IsHeadOf, filled_at, turned_at, without_room};
ghost use Rattle.krb_der.specs.Writing.{Appends, AppendsElement, Wraps};

use crate::cursor::MESSAGE_LIMIT;
use crate::head::head_of;
use crate::whole::shortest;
use crate::{EncodeFault, Flags, Microseconds, Seconds, tag};
use std::alloc::{AllocError, Global};
use std::fmt;
use std::marker::Model;

/// How many bytes the head of an element has if its content has less than 128 bytes.
const SHORT_HEAD: usize = 2;

/// The bytes that were written so far.
#[derive(Drop)]
pub struct Writer {
    bytes: Vec<u8>,
}

// Keys are written by a writer, so no byte is shown.
impl fmt::Debug for Writer {
    ghost use Rattle.std.specs.Prelude.{Some};
    ghost use Rattle.krb_der.specs.Shown.{shown_writer};

    ghost debug_output = { λ writer. Some (shown_writer writer) };

    fn fmt<W: fmt::Write>(&self, f: &mut fmt::Formatter<W>) -> fmt::Result {
        write!(f, "Writer({} bytes)", self.bytes.len())
    }
}

impl Model for Writer {
    ghost Value = { List ℕ };

    ghost view = { λ w. w.bytes.items };
}

impl Writer {
    /// Makes an empty writer. Allocates no memory.
    pub fn new(alloc: Global) -> Self
        ensures { result ≡ [] }
    {
        let bytes = Vec::new(alloc);
        Writer { bytes }
    }

    /// Makes an empty writer with room for that many bytes.
    pub(crate) fn with_room(alloc: Global, bytes: usize) -> Result<Self, AllocError>
        ensures { IfOk result (λ made. made ≡ []) }
    {
        let bytes = Vec::with_capacity(alloc, bytes)?;
        Ok(Writer { bytes })
    }

    /// Returns how many bytes were written.
    pub fn len(&self) -> usize
        ensures { result ≡ length self.now }
    {
        self.bytes.len()
    }

    /// Returns whether nothing was written.
    pub fn is_empty(&self) -> bool
        ensures { IsTrue result ↔ (self.now ≡ []) }
    {
        self.bytes.is_empty()
    }

    /// Returns the bytes that were written.
    pub fn into_bytes(self) -> Vec<u8>
        ensures { result.items ≡ self }
    {
        let Writer { bytes } = self;
        bytes
    }

    /// Writes `bytes` as they are.
    ///
    /// # Errors
    /// There is no memory. The writer is then unchanged.
    pub fn raw(&mut self, bytes: &[u8]) -> Result<(), AllocError>
        ensures ok { OnOk result (self.new ≡ self.old ++ bytes.now) }
        ensures kept { OnErr result (self.new ≡ self.old) }
    {
        self.bytes.extend_from_slice(bytes)
    }

    /// Writes the head of an element with this tag and a content of `count` bytes.
    pub(crate) fn head(&mut self, tag: u8, count: u32) -> Result<(), AllocError>
        ensures ok { OnOk result (Appends (IsHeadOf tag count) self.old self.new) }
        ensures kept { OnErr result (self.new ≡ self.old) }
    {
        let head = head_of(tag, count);
        self.bytes.extend_from_slice(&head.bytes[..head.len])?;
        Ok(())
    }

    /// Writes an element with this tag and content.
    pub(crate) fn element(&mut self, tag: u8, content: &[u8]) -> Result<(), AllocError>
        requires { length content.now < 2 ^ 32 }
        ensures ok { OnOk result (Appends (IsElement tag (λ c. c ≡ content.now)) self.old self.new) }
        ensures kept { OnErr result (self.new ≡ self.old) }
    {
        if content.len() < 0x80 {
            return self.short(tag, content);
        }
        let head = head_of(tag, content.len() as u32);
        let start = self.bytes.len();
        self.bytes.extend_from_slice(&head.bytes[..head.len])?;
        if let Err(error) = self.bytes.extend_from_slice(content) {
            self.bytes.truncate(start);
            return Err(error);
        }
        Ok(())
    }

    // The element, whose content has less than 128 bytes. Most are so, and room is made once.
    fn short(&mut self, tag: u8, content: &[u8]) -> Result<(), AllocError>
        requires { length content.now < 128 }
        ensures ok { OnOk result (Appends (IsElement tag (λ c. c ≡ content.now)) self.old self.new) }
        ensures kept { OnErr result (self.new ≡ self.old) }
    {
        self.bytes.reserve(SHORT_HEAD + content.len())?;
        self.bytes.push_reserved(tag);
        self.bytes.push_reserved(content.len() as u8);
        self.bytes.extend_from_slice(content)
    }

    /// Finishes a call that wrote from `start` on: removes what was refused or passes the limit of
    /// a message.
    pub(crate) fn limited(
        &mut self,
        start: usize,
        written: Result<(), AllocError>,
    ) -> Result<(), EncodeFault>
        requires { start ≤ length self.old }
        ensures answer { result ≡ limited_of written self.old }
        ensures left { self.new ≡ settled result start self.old }
    {
        let limited = match written {
            Err(_) => Err(EncodeFault::OutOfMemory),
            Ok(()) if self.bytes.len() > MESSAGE_LIMIT => Err(EncodeFault::TooLong),
            Ok(()) => Ok(()),
        };
        self.settle(start, limited)
    }

    /// Removes what was written from `start` on, if it was refused.
    pub(crate) fn settle(
        &mut self,
        start: usize,
        written: Result<(), EncodeFault>,
    ) -> Result<(), EncodeFault>
        requires { start ≤ length self.old }
        ensures answer { result ≡ written }
        ensures left { self.new ≡ settled result start self.old }
    {
        match written {
            Ok(()) => Ok(()),
            Err(fault) => {
                self.bytes.truncate(start);
                Err(fault)
            }
        }
    }

    /// Leaves room for the head of an element whose content has less than 128 bytes.
    pub(crate) fn open(&mut self) -> Result<(), AllocError>
        ensures ok { OnOk result (self.new ≡ self.old ++ (0 ∷ 0 ∷ [])) }
        ensures kept { OnErr result (self.new ≡ self.old) }
    {
        self.bytes.extend_from_slice(&[0; SHORT_HEAD])
    }

    /// Makes what was written after the room at `start` the content of an element with this tag.
    /// It only moves if it has 128 bytes or more.
    pub(crate) fn close(&mut self, tag: u8, start: usize) -> Result<(), AllocError>
        requires within { start + 2 ≤ length self.old }
        requires fits { length (drop (start + 2) self.old) < 2 ^ 32 }
        ensures ok { OnOk result (Wraps tag start (without_room start self.old) self.new) }
        ensures kept { OnErr result (self.new ≡ self.old) }
    {
        let count = self.bytes.len() - start - SHORT_HEAD;
        if count >= 0x80 {
            return self.close_long(tag, start);
        }
        fill_short(&mut self.bytes, start, tag, count as u8);
        Ok(())
    }

    fn close_long(&mut self, tag: u8, start: usize) -> Result<(), AllocError>
        requires within { start + 2 ≤ length self.old }
        requires fits { length (drop (start + 2) self.old) < 2 ^ 32 }
        ensures ok { OnOk result (Wraps tag start (without_room start self.old) self.new) }
        ensures kept { OnErr result (self.new ≡ self.old) }
    {
        let head = head_of(tag, (self.bytes.len() - start - SHORT_HEAD) as u32);
        // (a copy of a known length is no call)
        match head.len {
            3 => self.put_head(start, &head.bytes[..3]),
            4 => self.put_head(start, &head.bytes[..4]),
            len => self.put_head(start, &head.bytes[..len]),
        }
    }

    // Puts a head where room for one is left, and moves what was written after that.
    #[inline(always)]
    fn put_head(&mut self, start: usize, head: &[u8]) -> Result<(), AllocError>
        requires within { start + 2 ≤ length self.old }
        requires some { 2 ≤ length head.now }
        ensures ok { OnOk result (self.new ≡ take start self.old ++ (head.now ++ drop (start + 2) self.old)) }
        ensures kept { OnErr result (self.new ≡ self.old) }
    {
        let end = self.bytes.len();
        // which bytes doesn't matter: they are written over
        self.bytes.extend_from_slice(&head[SHORT_HEAD..])?;
        fill(&mut self.bytes, start, end, head);
        Ok(())
    }

    /// Writes a whole number from -2,147,483,648 to 2,147,483,647.
    ///
    /// # Errors
    /// There is no memory, as of every call here. The writer is then unchanged.
    pub fn int32(&mut self, value: i32) -> Result<(), AllocError>
        ensures { AppendsElement (leaf int32) value result self.old self.new }
    {
        self.whole(i64::from(value))
    }

    /// Writes a whole number from 0 to 4,294,967,295.
    pub fn uint32(&mut self, number: u32) -> Result<(), AllocError>
        ensures { AppendsElement (leaf uint32) number result self.old self.new }
    {
        self.whole(i64::from(number))
    }

    /// Writes a whole number from 0 to 999,999.
    pub fn microseconds(&mut self, value: Microseconds) -> Result<(), AllocError>
        ensures { AppendsElement (leaf microseconds) value result self.old self.new }
    {
        self.whole(i64::from(value.get()))
    }

    /// Writes the whole number `N`.
    pub fn constant<const N: u32>(&mut self) -> Result<(), AllocError>
        ensures { AppendsElement (leaf (constant N)) tt result self.old self.new }
    {
        self.whole(i64::from(N))
    }

    fn whole(&mut self, value: i64) -> Result<(), AllocError>
        ensures ok { OnOk result (Appends (IsElement 0x02 (IsInteger value)) self.old self.new) }
        ensures kept { OnErr result (self.new ≡ self.old) }
    {
        // Most numbers of a message are such, so this is for speed.
        if 0 <= value && value < 0x80 {
            return self.element(tag::INTEGER, &[value as u8]);
        }
        self.any_whole(value)
    }

    fn any_whole(&mut self, value: i64) -> Result<(), AllocError>
        ensures ok { OnOk result (Appends (IsElement 0x02 (IsInteger value)) self.old self.new) }
        ensures kept { OnErr result (self.new ≡ self.old) }
    {
        let bytes = value.to_be_bytes();
        self.element(tag::INTEGER, shortest(&bytes))
    }

    /// Writes an OCTET STRING of `bytes`, at most 4,294,967,295 of them.
    pub fn octets(&mut self, bytes: &[u8]) -> Result<(), AllocError>
        requires { length bytes.now < 2 ^ 32 }
        ensures { AppendsElement (leaf octets) bytes.now result self.old self.new }
    {
        self.element(tag::OCTET_STRING, bytes)
    }

    /// Writes a GeneralString of `bytes`, any bytes and at most 4,294,967,295 of them.
    pub fn string(&mut self, bytes: &[u8]) -> Result<(), AllocError>
        requires { length bytes.now < 2 ^ 32 }
        ensures { AppendsElement (leaf string) bytes.now result self.old self.new }
    {
        self.element(tag::GENERAL_STRING, bytes)
    }

    /// Writes a BIT STRING of 32 bits.
    pub fn flags(&mut self, value: Flags) -> Result<(), AllocError>
        ensures { AppendsElement (leaf flags) value.0 result self.old self.new }
    {
        let [a, b, c, d] = value.bits().to_be_bytes();
        self.element(tag::BIT_STRING, &[0, a, b, c, d])
    }

    /// Writes a GeneralizedTime.
    pub fn time(&mut self, value: Seconds) -> Result<(), AllocError>
        ensures { AppendsElement (leaf time) value result self.old self.new }
    {
        self.element(tag::GENERALIZED_TIME, &value.to_text())
    }

    /// Makes what was written from `start` on the content of an element with this tag: puts the tag
    /// and the shortest length before it. `start` is at most [`len`](Self::len), and there are at
    /// most 4,294,967,295 bytes from it on.
    ///
    /// # Errors
    /// There is no memory. The writer is then unchanged.
    pub fn wrap(&mut self, tag: u8, start: usize) -> Result<(), AllocError>
        requires within { start ≤ length self.old }
        requires fits { length (drop start self.old) < 2 ^ 32 }
        ensures ok { OnOk result (Wraps tag start self.old self.new) }
        ensures kept { OnErr result (self.new ≡ self.old) }
    {
        let head = head_of(tag, (self.bytes.len() - start) as u32);
        self.bytes.extend_from_slice(&head.bytes[..head.len])?;
        turn(&mut self.bytes, start, head.len);
        Ok(())
    }
}

/// Moves the last `count` bytes, a head of at most six, to `start`.
fn turn(bytes: &mut [u8], start: usize, count: usize)
    requires within { start + count ≤ length bytes.old }
    requires few { count ≤ 6 }
    ensures { bytes.new ≡ turned_at start (length bytes.old - count) bytes.old }
{
    let end = bytes.len() - count;
    let mut head = [0u8; 6];
    head[..count].copy_from_slice(&bytes[end..]);
    bytes.copy_within(start..end, start + count);
    bytes[start..start + count].copy_from_slice(&head[..count]);
}

/// Writes a tag and a length below 128 into the room at `start`.
fn fill_short(bytes: &mut [u8], start: usize, tag: u8, count: u8)
    requires { start + 2 ≤ length bytes.old }
    ensures { bytes.new ≡ filled_at start (tag ∷ count ∷ []) (length bytes.old) bytes.old }
{
    bytes[start..start + SHORT_HEAD].copy_from_slice(&[tag, count]);
}

/// Writes a head into the room at `start`, and moves what stands between the room and `end` to the
/// end of the head, which is as much longer than the room as there are bytes from `end` on.
fn fill(bytes: &mut [u8], start: usize, end: usize, head: &[u8])
    requires within { start + 2 ≤ end }
    requires some { 2 ≤ length head.now }
    requires longer { end + length head.now ≡ length bytes.old + 2 }
    ensures { bytes.new ≡ filled_at start head.now end bytes.old }
{
    bytes.copy_within(start + SHORT_HEAD..end, start + head.len());
    bytes[start..start + head.len()].copy_from_slice(head);
}
