//! Lengths (X.690, sections 8.1.3 and 10.1).

ghost use Rattle.std.specs.Prelude.{◌≡◌, ◌<◌, ◌≤◌, length, IfOk};
ghost use Rattle.krb_der.specs.Computed.Read.{length_of, long_of};
ghost use Rattle.krb_der.specs.Inner.LengthView.{plain_length};

use crate::FaultKind;
use crate::whole::number;

/// The length that the next `count` bytes give, and the bytes after it.
#[tactic(auto, unfolding(crate::specs::Computed::Read::long_of))]
fn long(count: usize, bytes: &[u8]) -> Result<(usize, &[u8]), FaultKind>
    requires few { count ≤ 4 }
    requires some { 1 ≤ count }
    ensures value { plain_length result ≡ long_of count bytes.now }
    ensures shorter { IfOk result (λ x. length x.1.now ≤ length bytes.now) }
{
    if bytes.len() < count {
        return Err(FaultKind::Truncated);
    }
    let (digits, rest) = bytes.split_at(count);
    let length = number(digits);
    if digits[0] == 0 || length < 0x80 {
        return Err(FaultKind::Length);
    }
    Ok((length as usize, rest))
}

/// Reads the length that the bytes begin with. Returns it, and the bytes after it.
#[tactic(auto, unfolding(crate::specs::Computed::Read::length_of))]
pub fn length(bytes: &[u8]) -> Result<(usize, &[u8]), FaultKind>
    ensures value { plain_length result ≡ length_of bytes.now }
    ensures shorter { IfOk result (λ x. length x.1.now < length bytes.now) }
{
    let Some((first, rest)) = bytes.split_first() else {
        return Err(FaultKind::Truncated);
    };
    match *first {
        0..=0x7f => Ok((usize::from(*first), rest)),
        0x81..=0x84 => long(usize::from(*first - 0x80), rest),
        _ => Err(FaultKind::Length),
    }
}
