//! A principal's name.

ghost use Rattle.std.specs.Prelude.{◌≡◌, ◌↔◌, ◌++◌, Result, IsTrue, IfOk, OnOk, OnErr, string_bytes};

use crate::bytes::Bytes;
use crate::components::Components;
use crate::text::{write_components, write_escaped};
use crate::text_cursor::TextCursor;
use crate::text_fault::TextFault;
use std::alloc::{AllocError, Global};
use std::hash::{FoldHasher, Hasher};

/// A principal: a realm, and a name of a type and some components (RFC 4120, sections 5.2.2 and 6).
///
/// Its `Debug` text is for people, and nothing is promised about it. `to_text` returns the name's
/// own text.
#[derive(Debug, Drop)]
pub struct Principal {
    /// The realm.
    pub realm: Bytes,
    /// The name type (RFC 4120, section 6.2). It isn't part of the name's identity.
    pub name_type: i32,
    /// The components, in their order.
    pub components: Components,
}

impl Principal {
    ghost use Rattle.krb_name.specs.Name.{SameName, name_hash};
    ghost use Rattle.krb_name.specs.Text.{text_of};
    ghost use Rattle.krb_name.specs.Inner.Components.{Continues};

    /// Returns whether `self` and `other` name the same principal: the realms and the components
    /// are equal, byte for byte. Name types aren't compared (RFC 4120, section 6.2).
    pub fn same_name(&self, other: &Principal) -> bool
        ensures { IsTrue result ↔ SameName self.now other.now }
    {
        self.realm == other.realm && self.components == other.components
    }

    /// Returns a hash of the realm and the components, for looking names up.
    ///
    /// The same names have the same hash. The name type isn't hashed. The value may differ between
    /// versions of this library.
    #[tactic(auto, unfolding(crate::specs::Name::name_hash))]
    pub fn name_hash(&self) -> u32
        ensures { result ≡ name_hash self.now }
    {
        let mut hasher = FoldHasher::default();
        hasher.write(self.realm.as_slice());
        for component in self.components.iter() {
            hasher.write(component);
        }
        (hasher.finish() % (1 << 32)) as u32
    }

    /// Writes the name as text: the components with a `/` between each two, then `@` and the realm.
    ///
    /// In components and realm a `/`, `@` or `\` is written with a backslash before it. A byte
    /// outside 0x21 to 0x7e is written as `\x` and two hexadecimal digits in lower case. A name
    /// without components is written like one with a single empty component. For a name of printable
    /// bytes this is the form of RFC 1964, section 2.1.1, which has no hexadecimal.
    ///
    /// # Errors
    /// `AllocError`: there is no memory for the text.
    pub fn to_text(&self, alloc: Global) -> Result<String, AllocError>
        ensures { IfOk result (λ text. string_bytes text ≡ text_of self.now) }
    {
        let mut text = String::with_capacity(alloc, self.plain_len())?;
        self.write_into(&mut text)?;
        Ok(text)
    }

    /// Appends the text that `to_text` returns.
    ///
    /// # Errors
    /// There is no memory. The text is then unchanged.
    pub fn write_text(&self, text: &mut String) -> Result<(), AllocError>
        ensures ok { OnOk result (string_bytes text.new ≡ string_bytes text.old ++ text_of self.now) }
        ensures err { OnErr result (string_bytes text.new ≡ string_bytes text.old) }
    {
        let len = text.len();
        let written = self.write_into(text);
        if written.is_err() {
            text.truncate(len);
        }
        written
    }

    // Appends the text. Without memory, it may append a part of it.
    fn write_into(&self, text: &mut String) -> Result<(), AllocError>
        ensures ok { OnOk result (string_bytes text.new ≡ string_bytes text.old ++ text_of self.now) }
        ensures err { OnErr result (Continues (string_bytes text.old) (string_bytes text.new)) }
    {
        write_components(text, &self.components)?;
        text.push('@')?;
        write_escaped(text, self.realm.as_slice())
    }

    // The length of the text if nothing in it is escaped, or one more.
    fn plain_len(&self) -> usize {
        let mut length = self.realm.len().saturating_add(1);
        for component in self.components.iter() {
            length = length.saturating_add(component.len()).saturating_add(1);
        }
        length
    }
}

impl Principal {
    ghost use Rattle.krb_name.specs.Reading.{IsCheckedAs, IsReadAs, SameAnswer};

    /// Reads a name from the text that `to_text` writes for it, and gives it `name_type`.
    ///
    /// A text is read exactly if it is the text of a name with at least one component, and there is
    /// memory for the name.
    ///
    /// # Errors
    /// - `BadText`, at the offset of the first offence from the left: a byte outside 0x21 to 0x7e,
    ///   a backslash that doesn't begin an escape that `to_text` writes, or a bare `/` or `@` after
    ///   the first bare `@`.
    /// - `NoRealm`: there is no offence, and no bare `@` either.
    /// - `OutOfMemory`: there is no memory for the name, or a component has 4 GiB or more.
    pub fn from_text(alloc: Global, text: &str, name_type: i32) -> Result<Principal, TextFault>
        ensures read { IsReadAs text.now result }
        ensures only { (answer : Result Principal TextFault)
            → IsReadAs text.now answer → SameAnswer result answer }
        ensures name_type { IfOk result (λ principal. principal.name_type ≡ name_type) }
    {
        let mut cursor = TextCursor::new(text);
        let components = cursor.read_components(alloc)?;
        let realm = cursor.read_realm(alloc)?;
        Ok(Principal {
            realm,
            name_type,
            components,
        })
    }

    /// Checks whether `text` is the text of a name, and returns how many components the name has.
    /// Allocates no memory.
    ///
    /// # Errors
    /// `BadText` and `NoRealm`, as [`Principal::from_text`] says.
    pub fn check_text(text: &str) -> Result<usize, TextFault>
        ensures { IsCheckedAs text.now result }
    {
        let mut cursor = TextCursor::new(text);
        let count = cursor.count_components()?;
        cursor.skip_realm()?;
        Ok(count)
    }
}

impl Clone for Principal {
    ghost is_clone = { λ old made. made ≡ old };

    fn clone(&self) -> Result<Principal, AllocError> {
        Ok(Principal {
            realm: self.realm.clone()?,
            name_type: self.name_type,
            components: self.components.clone()?,
        })
    }
}
