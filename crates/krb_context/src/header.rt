//! Headers of tokens: 16 bytes.

ghost use Rattle.std.specs.Prelude.{◌≡◌, ◌<◌, ◌^◌, ℕ, IfSome, IsNone, length};
ghost use Rattle.std.specs.Int.{w64, from_be_bytes};
ghost use Rattle.krb_context.specs.Mic.{mic_header};
ghost use Rattle.krb_context.specs.Wrap.{wrap_header};

pub(crate) const HEADER_LEN: usize = 16;

// What the header of a MIC token says.
#[derive(Clone, Copy)]
pub(crate) struct MicHeader {
    pub(crate) flags: u8,
    pub(crate) number: u64,
}

impl MicHeader {
    // The header of these 16 bytes.
    pub(crate) fn read(bytes: &[u8]) -> Option<MicHeader>
        requires { length bytes.now ≡ 16 }
        ensures found { IfSome result (λ it. bytes.now ≡ mic_header it.flags it.number) }
        ensures none { IsNone result → (flags number : ℕ) → number < 2 ^ 64
            → bytes.now ≡ mic_header flags number → ⊥ }
    {
        let header = MicHeader {
            flags: bytes[2],
            number: number_of(&bytes[8..]),
        };
        if header.bytes().as_slice() == bytes {
            Some(header)
        } else {
            None
        }
    }

    pub(crate) fn bytes(self) -> [u8; HEADER_LEN]
        ensures { result ≡ mic_header self.flags self.number }
    {
        let [a, b, c, d, e, f, g, h] = self.number.to_be_bytes();
        [
            4, 4, self.flags, 0xff, 0xff, 0xff, 0xff, 0xff, a, b, c, d, e, f, g, h,
        ]
    }
}

// What the header of a Wrap token says.
#[derive(Clone, Copy)]
pub(crate) struct WrapHeader {
    pub(crate) flags: u8,
    pub(crate) extra: u16,
    pub(crate) rotation: u16,
    pub(crate) number: u64,
}

impl WrapHeader {
    // The header of these 16 bytes.
    pub(crate) fn read(bytes: &[u8]) -> Option<WrapHeader>
        requires { length bytes.now ≡ 16 }
        ensures found { IfSome result (λ it.
            bytes.now ≡ wrap_header it.flags it.extra it.rotation it.number) }
        ensures none { IsNone result → (flags extra rotation number : ℕ)
            → extra < 2 ^ 16 → rotation < 2 ^ 16 → number < 2 ^ 64
            → bytes.now ≡ wrap_header flags extra rotation number → ⊥ }
    {
        let header = WrapHeader {
            flags: bytes[2],
            extra: u16::from_be_bytes([bytes[4], bytes[5]]),
            rotation: u16::from_be_bytes([bytes[6], bytes[7]]),
            number: number_of(&bytes[8..]),
        };
        if header.bytes().as_slice() == bytes {
            Some(header)
        } else {
            None
        }
    }

    pub(crate) fn bytes(self) -> [u8; HEADER_LEN]
        ensures { result ≡ wrap_header self.flags self.extra self.rotation self.number }
    {
        let [i, j] = self.extra.to_be_bytes();
        let [k, l] = self.rotation.to_be_bytes();
        let [a, b, c, d, e, f, g, h] = self.number.to_be_bytes();
        [5, 4, self.flags, 0xff, i, j, k, l, a, b, c, d, e, f, g, h]
    }
}

// A number of 8 bytes, high first.
fn number_of(bytes: &[u8]) -> u64
    requires { length bytes.now ≡ 8 }
    ensures { result ≡ from_be_bytes w64 bytes.now }
{
    u64::from_be_bytes([
        bytes[0], bytes[1], bytes[2], bytes[3], bytes[4], bytes[5], bytes[6], bytes[7],
    ])
}
