//! Heads: a tag and the shortest length (X.690, sections 8.1.2, 8.1.3 and 10.1).

ghost use Rattle.std.specs.Prelude.{◌≡◌, ◌≤◌, length, take};
ghost use Rattle.krb_der.specs.Inner.HeadView.{head_bytes};

/// The first `len` of these bytes.
#[derive(Clone, Copy)]
pub struct Head {
    pub bytes: [u8; 6],
    pub len: usize,
    ghost within: { len ≤ 6 },
}

/// Returns the head of an element with this tag and a content of `len` bytes.
pub fn head_of(tag: u8, len: u32) -> Head
    ensures is { take result.len result.bytes ≡ head_bytes tag len }
    ensures width { length (take result.len result.bytes) ≡ result.len }
    ensures some { 2 ≤ result.len }
{
    let [a, b, c, d] = len.to_be_bytes();
    match len {
        0..=0x7f => Head {
            bytes: [tag, d, 0, 0, 0, 0],
            len: 2,
        },
        0x80..=0xff => Head {
            bytes: [tag, 0x81, d, 0, 0, 0],
            len: 3,
        },
        0x100..=0xffff => Head {
            bytes: [tag, 0x82, c, d, 0, 0],
            len: 4,
        },
        0x1_0000..=0xff_ffff => Head {
            bytes: [tag, 0x83, b, c, d, 0],
            len: 5,
        },
        _ => Head {
            bytes: [tag, 0x84, a, b, c, d],
            len: 6,
        },
    }
}
