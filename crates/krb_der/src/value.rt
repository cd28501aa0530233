//! Values that share a Rust type with others.

ghost use Rattle.std.specs.Prelude.{◌≡◌, ◌<◌, ◌↔◌, ℕ, IsTrue};
ghost use Rattle.krb_der.specs.Flags.{HasBit, weight};

use std::fmt;

/// The bytes of an OCTET STRING.
#[derive(Clone, Copy, PartialEq, Eq)]
pub struct Octets<'a>(pub &'a [u8]);

// They may be those of a key, so none is shown.
impl fmt::Debug for Octets<'_> {
    ghost use Rattle.std.specs.Prelude.{Some};
    ghost use Rattle.krb_der.specs.Shown.{shown_octets};

    ghost debug_output = { λ octets. Some (shown_octets octets.0.now) };

    fn fmt<W: fmt::Write>(&self, f: &mut fmt::Formatter<W>) -> fmt::Result {
        write!(f, "Octets({} bytes)", self.0.len())
    }
}

/// The bytes of a GeneralString, any bytes.
#[derive(Clone, Copy, Debug, PartialEq, Eq)]
pub struct Text<'a>(pub &'a [u8]);

/// 32 flags. Bit 0 is the most significant (RFC 4120, section 5.2.8).
#[derive(Clone, Copy, Debug, PartialEq, Eq)]
pub struct Flags(pub u32);

impl Flags {
    /// Returns flags with no bit set.
    pub fn none() -> Self
        ensures value { result.0 ≡ 0 }
        ensures clear { (n : ℕ) → HasBit result.0 n → ⊥ }
    {
        Flags(0)
    }

    /// Returns flags with only the bit of this number set, 0 to 31; from 32 on with none.
    #[tactic(auto, using(crate::proofs::FlagLaws::only_flag, crate::proofs::FlagLaws::shifted))]
    pub fn only(bit: u32) -> Self
        ensures value { bit < 32 → result.0 ≡ weight bit }
        ensures set { (n : ℕ) → HasBit result.0 n ↔ ((n ≡ bit) × (n < 32)) }
    {
        if bit >= 32 {
            return Flags(0);
        }
        Flags(1 << (31 - bit))
    }

    /// Returns whether the bit of this number is set; from 32 on none is.
    pub fn has(self, bit: u32) -> bool
        ensures { IsTrue result ↔ HasBit self.0 bit }
    {
        bit < 32 && (self.0 >> (31 - bit)) % 2 == 1
    }

    /// Returns the flags as a number.
    pub fn bits(self) -> u32
        ensures { result ≡ self.0 }
    {
        self.0
    }
}

/// A sequence number (RFC 4120, section 5.5.1), which some senders write as the negative number of
/// the same 32 bits.
#[derive(Clone, Copy, Debug, PartialEq, Eq)]
pub struct SeqNumber(pub u32);

/// The whole number `N`, at a place at which no other is allowed.
#[derive(Clone, Copy, Debug, PartialEq, Eq)]
pub struct Constant<const N: u32>;
