//! Texts in a row.

ghost use Rattle.std.specs.Prelude.{refl, ◌≡◌, ℕ, List, IfOk};
ghost use Rattle.std.specs.Iterator.{YieldsFirstBy, item_count};
ghost use Rattle.krb_der.specs.Kind.{leaf, string};
ghost use Rattle.krb_der.specs.Computed.Listed.{AreListed, listed};
ghost use Rattle.krb_msg.specs.Module.{sequence_of};

use krb_der::{Cursor, Element, Fault, Text};
use krb_name::Components;
use std::alloc::{AllocError, Global};
use std::marker::Model;

/// A row of texts of a message (a SEQUENCE OF KerberosString, RFC 4120, section 5.2.1), as slices
/// of the input. A contract sees them as their list.
#[derive(Debug, Drop)]
pub struct Texts<'a> {
    content: Cursor<'a>,
}

impl<'a> Model for Texts<'a> {
    ghost Value = { List (List ℕ) };

    ghost view = { λ t. listed (leaf string) t.content };

    ghost invariant = { λ t. AreListed (leaf string) t.content };
}

impl<'a> Texts<'a> {
    /// Returns an iterator over the texts, in their order.
    pub fn iter(&self) -> TextsIter<'a>
        ensures { result ≡ self.now }
    {
        TextsIter {
            left: self.content.again(),
        }
    }

    /// Copies the texts, in their order.
    ///
    /// # Errors
    /// There is no memory.
    pub fn to_owned(&self, alloc: Global) -> Result<Components, AllocError>
        ensures { IfOk result (λ made. made ≡ self.now) }
    {
        let (count, len) = self.room();
        let mut made = Components::with_room(alloc, count, len)?;
        for text in self.iter() {
            made.push(text)?;
        }
        Ok(made)
    }
}

impl Texts<'_> {
    // How many texts there are, and how many bytes they have in all.
    fn room(&self) -> (usize, usize) {
        let mut count = 0usize;
        let mut len = 0usize;
        for text in self.iter() {
            count = count.saturating_add(1);
            len = len.saturating_add(text.len());
        }
        (count, len)
    }
}

/// An iterator over [`Texts`] that allocates no memory. A contract sees it as the texts that are
/// left.
#[derive(Debug, Drop)]
pub struct TextsIter<'a> {
    left: Cursor<'a>,
}

impl<'a> Model for TextsIter<'a> {
    ghost Value = { List (List ℕ) };

    ghost view = { λ t. listed (leaf string) t.left };

    ghost invariant = { λ t. AreListed (leaf string) t.left };
}

impl<'a> Iterator for TextsIter<'a> {
    type Item = &'a [u8];

    ghost next_gives = { YieldsFirstBy (λ x. x.now) (λ t. t) };

    ghost remaining = { item_count (λ t. t) };

    fn next(&mut self) -> Option<&'a [u8]> {
        self.left.next::<Text>().map(|text| text.0)
    }
}

impl<'a> Element<'a> for Texts<'a> {
    ghost kind = { sequence_of (leaf string) };

    ghost view = { λ t. t };

    ghost clear = { refl };

    fn read(cursor: &mut Cursor<'a>) -> Result<Texts<'a>, Fault> {
        let content = cursor.list::<Text>()?;
        Ok(Texts { content })
    }
}
