//! Parts of a record: how many bytes they take, and how they are written over existing bytes.

ghost use Rattle.std.specs.Prelude.{◌≡◌, ◌+◌, ◌<◌, ◌≤◌, ◌^◌, ◌++◌, ℕ, ⊤, List, All, length};
ghost use Rattle.std.specs.Int.{w16, w32};
ghost use Rattle.std.specs.List.{flat_map};
ghost use Rattle.krb_file.specs.Cursor.{number_bytes, data_bytes};
ghost use Rattle.krb_keytab.specs.Inner.Putting.{PutsTo};

use crate::field::Data;
use byteorder::{BigEndian, ByteOrder};
use krb_name::Components;

/// A part of a record, or a row of parts in nested pairs.
pub(crate) trait Part {
    /// What is written of it.
    ghost spelled: { Self → List ℕ };

    /// Whether its lengths fit into the format.
    ghost Fits: { Self → Type 0 } = { λ _. ⊤ };

    /// Returns how many bytes it takes.
    fn size(&self) -> usize
        requires { length (spelled self.now) < 2 ^ 64 }
        ensures { result ≡ length (spelled self.now) };

    /// Writes it from an offset on, and returns the offset after it.
    fn put(&self, out: &mut [u8], at: usize) -> usize
        requires fits { Fits self.now }
        requires room { at + length (spelled self.now) ≤ length out.old }
        ensures { PutsTo out.old at (spelled self.now) out.new result };
}

impl<A: Part, B: Part> Part for (A, B) {
    ghost spelled = { λ pair. A.spelled pair.0 ++ B.spelled pair.1 };

    ghost Fits = { λ pair. A.Fits pair.0 × B.Fits pair.1 };

    #[tactic(auto, using(crate::proofs::PutLaws::sizes))]
    fn size(&self) -> usize {
        self.0.size() + self.1.size()
    }

    fn put(&self, out: &mut [u8], at: usize) -> usize {
        let next = self.0.put(out, at);
        self.1.put(out, next)
    }
}

impl Part for Data<'_> {
    ghost spelled = { data_bytes w16 };

    ghost Fits = { λ bytes. length bytes < 2 ^ 16 };

    fn size(&self) -> usize {
        2 + self.bytes.len()
    }

    fn put(&self, out: &mut [u8], at: usize) -> usize {
        let next = bytes_of_u16(self.bytes.len() as u16).put(out, at);
        put_bytes(out, next, self.bytes)
    }
}

impl Part for &Components {
    ghost spelled = { λ components. flat_map (data_bytes w16) components.now };

    ghost Fits = { λ components. All (λ component. length component < 2 ^ 16) components.now };

    fn size(&self) -> usize {
        let mut sum = 0;
        for bytes in self.iter() {
            sum += Data { bytes }.size();
        }
        sum
    }

    fn put(&self, out: &mut [u8], at: usize) -> usize {
        let mut end = at;
        for bytes in self.iter() {
            end = Data { bytes }.put(out, end);
        }
        end
    }
}

impl<const N: usize> Part for [u8; N] {
    ghost spelled = { λ bytes. bytes };

    fn size(&self) -> usize {
        N
    }

    fn put(&self, out: &mut [u8], at: usize) -> usize {
        put_bytes(out, at, self)
    }
}

/// Returns the bytes of a number of 16 bits.
pub(crate) fn bytes_of_u16(number: u16) -> [u8; 2]
    ensures { result ≡ number_bytes w16 number }
{
    let mut bytes = [0u8; 2];
    BigEndian::write_u16(&mut bytes, number);
    bytes
}

/// Returns the bytes of a number of 32 bits.
pub(crate) fn bytes_of_u32(number: u32) -> [u8; 4]
    ensures { result ≡ number_bytes w32 number }
{
    let mut bytes = [0u8; 4];
    BigEndian::write_u32(&mut bytes, number);
    bytes
}

// Writes bytes from an offset on, and returns the offset after them.
fn put_bytes(out: &mut [u8], at: usize, bytes: &[u8]) -> usize
    requires { at + length bytes.now ≤ length out.old }
    ensures { PutsTo out.old at bytes.now out.new result }
{
    let end = at + bytes.len();
    out[at..end].copy_from_slice(bytes);
    end
}
