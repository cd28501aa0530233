//! Reading elements from left to right.

ghost use Rattle.std.specs.Prelude.{◌≡◌, ◌+◌, ◌≤◌, ◌↔◌, [], length, IsTrue, IsOk, IfOk, IfErr};
ghost use Rattle.krb_der.specs.Place.{Place, begin_at, begins, end_of};
ghost use Rattle.krb_der.specs.Spells.{limit};
ghost use Rattle.krb_der.specs.Reading.{Reads, Enters, MayEnter};
ghost use Rattle.krb_der.specs.Computed.Gives.{Gives};
ghost use Rattle.krb_der.specs.Computed.Read.{enter_at, may_enter, split_at, length_fault, finish_at};

use crate::element::is_clear;
use crate::length::length;
use crate::{Element, Fault, FaultKind};
use std::fmt;
use std::marker::Model;

/// The greatest length of a message, in bytes.
pub const MESSAGE_LIMIT: usize = 1_048_576;

/// A place in a message: an offset, and the bytes from there to the end of the enclosing element.
#[derive(Drop)]
pub struct Cursor<'a> {
    at: usize,
    rest: &'a [u8],
}

// Keys are read by a cursor, so no byte is shown.
impl fmt::Debug for Cursor<'_> {
    ghost use Rattle.std.specs.Prelude.{Some};
    ghost use Rattle.krb_der.specs.Shown.{shown_cursor};

    ghost debug_output = { λ cursor. Some (shown_cursor cursor) };

    fn fmt<W: fmt::Write>(&self, f: &mut fmt::Formatter<W>) -> fmt::Result {
        write!(f, "Cursor({} bytes at {})", self.rest.len(), self.at)
    }
}

impl<'a> Model for Cursor<'a> {
    ghost Value = { Place };

    ghost view = { λ c. record { at = c.at; rest = c.rest.now } };

    ghost invariant = { λ c. c.at + length c.rest.now ≤ limit };
}

impl<'a> Cursor<'a> {
    /// Starts at the first byte of a message.
    ///
    /// # Errors
    /// `TooLong` at offset 0 above 1,048,576 bytes.
    pub fn new(bytes: &'a [u8]) -> Result<Cursor<'a>, Fault>
        ensures ok { IsOk result ↔ (length bytes.entry.now ≤ limit) }
        ensures start { IfOk result (λ c. c ≡ begin_at bytes.entry.now) }
        ensures too_long { IfErr result (λ f. f ≡ record { kind = FaultKind.TooLong; at = 0 }) }
    {
        if bytes.len() > MESSAGE_LIMIT {
            return Err(Fault {
                kind: FaultKind::TooLong,
                at: 0,
            });
        }
        Ok(Cursor { at: 0, rest: bytes })
    }

    /// Returns a second cursor at this place.
    pub fn again(&self) -> Cursor<'a>
        ensures { result ≡ self.now }
    {
        Cursor {
            at: self.at,
            rest: self.rest,
        }
    }

    /// Returns whether nothing is left of the enclosing element.
    pub fn is_at_end(&self) -> bool
        ensures { IsTrue result ↔ (self.now.rest ≡ []) }
    {
        self.rest.is_empty()
    }

    /// Returns the offset of this place in the message.
    pub fn at(&self) -> usize
        ensures { result ≡ self.now.at }
    {
        self.at
    }

    /// Returns the bytes that are left of the enclosing element.
    pub fn rest(&self) -> &'a [u8]
        ensures { result.now ≡ self.now.rest }
    {
        self.rest
    }

    /// Reads the next element, which must be of the type's kind.
    ///
    /// # Errors
    /// A fault of the element, by the rules of `specs::Fault`. The cursor is then unchanged.
    #[tactic(auto, using(crate::proofs::Reading::reads))]
    pub fn read<T: Element<'a>>(&mut self) -> Result<T, Fault>
        ensures { Reads T.kind T.view result self.old self.new }
    {
        is_clear::<T>();
        T::read(self)
    }

    /// Enters the next element, which must have this tag: returns a cursor over its content, and
    /// moves past the element.
    ///
    /// # Errors
    /// - `Truncated` at the end of the enclosing element: no byte is left, or the length or the
    ///   content is cut off.
    /// - `Tag` here: the next byte is another.
    /// - `Length` after the tag: the length is invalid, or not in its shortest form.
    #[tactic(auto, using(crate::proofs::Reading::enters))]
    pub fn enter(&mut self, tag: u8) -> Result<Cursor<'a>, Fault>
        ensures { Enters tag result self.old self.new }
    {
        self.step(tag)
    }

    fn step(&mut self, tag: u8) -> Result<Cursor<'a>, Fault>
        ensures { Gives (λ p. p) result self.old self.new (enter_at tag self.old) }
    {
        let (inside, after) = self.head(tag)?;
        *self = after;
        Ok(inside)
    }

    /// Ends the reading of a content or of a message.
    ///
    /// # Errors
    /// `Trailing` here: bytes are left.
    pub fn finish(&self) -> Result<(), Fault>
        ensures ok { IsOk result ↔ (self.now.rest ≡ []) }
        ensures trailing { IfErr result (λ f. f ≡ record { kind = FaultKind.Trailing; at = self.now.at }) }
    {
        if !self.rest.is_empty() {
            return Err(self.fault(FaultKind::Trailing));
        }
        Ok(())
    }

    /// Enters the next element if it has this tag; returns `None` if it doesn't.
    ///
    /// # Errors
    /// Those of [`enter`](Self::enter), if the tag is the next byte.
    #[tactic(auto, using(crate::proofs::Reading::may_enters))]
    pub fn optional(&mut self, tag: u8) -> Result<Option<Cursor<'a>>, Fault>
        ensures { MayEnter tag result self.old self.new }
    {
        self.optional_here(tag)
    }

    #[tactic(auto, unfolding(crate::specs::Computed::Read::may_enter))]
    fn optional_here(&mut self, tag: u8) -> Result<Option<Cursor<'a>>, Fault>
        ensures { Gives (λ o. o) result self.old self.new (may_enter tag self.old) }
    {
        if !self.begins(tag) {
            return Ok(None);
        }
        let inside = Cursor::step(self, tag)?;
        Ok(Some(inside))
    }

    /// Whether the next byte is this one.
    pub(crate) fn begins(&self, tag: u8) -> bool
        ensures { result ≡ begins tag self.now.rest }
    {
        match self.rest.first() {
            Some(first) => *first == tag,
            None => false,
        }
    }

    #[tactic(auto, unfolding(crate::specs::Computed::Read::finish_at))]
    pub(crate) fn finish_here(&self) -> Result<(), Fault>
        ensures { result ≡ finish_at self.now }
    {
        self.finish()
    }

    /// The fault of this kind of the element that begins here.
    pub(crate) fn fault(&self, kind: FaultKind) -> Fault
        ensures { result ≡ record { kind = kind; at = self.now.at } }
    {
        Fault { kind, at: self.at }
    }

    /// The fault of an element that begins here and doesn't end within the enclosing element.
    fn cut_off(&self) -> Fault
        ensures { result ≡ record { kind = FaultKind.Truncated; at = end_of self.now } }
    {
        Fault {
            kind: FaultKind::Truncated,
            at: self.at + self.rest.len(),
        }
    }

    /// The content of the element with this tag that begins here, and what comes after the element.
    #[tactic(auto, unfolding(crate::specs::Computed::Read::enter_at))]
    pub(crate) fn head(&self, tag: u8) -> Result<(Cursor<'a>, Cursor<'a>), Fault>
        ensures { result ≡ enter_at tag self.now }
    {
        let Some((first, sized)) = self.rest.split_first() else {
            return Err(self.cut_off());
        };
        if *first != tag {
            return Err(self.fault(FaultKind::Tag));
        }
        match length(sized) {
            Ok((len, rest)) => self.split(len, rest),
            Err(kind) => Err(self.length_fault(kind)),
        }
    }

    /// The fault of an element that begins here, whose length has a fault of this kind.
    fn length_fault(&self, kind: FaultKind) -> Fault
        ensures { result ≡ length_fault self.now kind }
    {
        match kind {
            FaultKind::Truncated => self.cut_off(),
            _ => Fault {
                kind: FaultKind::Length,
                at: self.at + 1,
            },
        }
    }

    /// The first bytes of `rest`, which is what is left here, and those after them.
    #[tactic(auto, unfolding(crate::specs::Computed::Read::split_at))]
    fn split(&self, len: usize, rest: &'a [u8]) -> Result<(Cursor<'a>, Cursor<'a>), Fault>
        requires { length rest.now ≤ length self.now.rest }
        ensures { result ≡ split_at self.now len rest.now }
    {
        if rest.len() < len {
            return Err(self.cut_off());
        }
        let at = self.at + (self.rest.len() - rest.len());
        let (inside, after) = rest.split_at(len);
        Ok((
            Cursor { at, rest: inside },
            Cursor {
                at: at + len,
                rest: after,
            },
        ))
    }
}
