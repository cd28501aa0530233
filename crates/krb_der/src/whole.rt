//! Contents that are whole numbers or flags (X.690, sections 8.3 and 8.6).

ghost use Rattle.std.specs.Prelude.{◌≡◌, ◌<◌, ◌≤◌, ◌^◌, length};
ghost use Rattle.krb_der.specs.Content.{seq_number};
ghost use Rattle.krb_der.specs.Whole.{number};
ghost use Rattle.krb_der.specs.Computed.Read.{content_of};
ghost use Rattle.krb_der.specs.Inner.Shortest.{shortest_of};
ghost use Rattle.krb_der.specs.Computed.Whole.{is_redundant, is_negative, whole_of, flags_of};

/// Whether the first nine bits are one value, or there are no bits: no whole number is spelled so.
fn is_redundant(content: &[u8]) -> bool
    ensures { result ≡ is_redundant content.now }
{
    match content {
        [] | [0, 0..=0x7f, ..] | [0xff, 0x80..=0xff, ..] => true,
        _ => false,
    }
}

/// Whether the first bit is 1.
fn is_negative(content: &[u8]) -> bool
    ensures { result ≡ is_negative content.now }
{
    match content {
        [0x80..=0xff, ..] => true,
        _ => false,
    }
}

/// Returns the number that the bytes are, the most significant first.
pub fn number(bytes: &[u8]) -> u64
    requires { length bytes.now ≤ 5 }
    ensures value { result ≡ number bytes.now }
    ensures small { result < 2 ^ 40 }
{
    let mut number = 0u64;
    for byte in bytes {
        number = number * 0x100 + u64::from(*byte);
    }
    number
}

/// Returns the whole number that the content is, if it has its shortest form and at most five bytes.
#[tactic(auto, unfolding(crate::specs::Computed::Whole::whole_of))]
pub fn whole(content: &[u8]) -> Option<i64>
    ensures { result ≡ whole_of content.now }
{
    match content {
        // Most numbers of a message are such, so this is for speed.
        [byte @ 0..=0x7f] => Some(i64::from(*byte)),
        _ => any_whole(content),
    }
}

#[tactic(auto, unfolding(crate::specs::Computed::Whole::whole_of))]
fn any_whole(content: &[u8]) -> Option<i64>
    ensures { result ≡ whole_of content.now }
{
    if content.len() > 5 || is_redundant(content) {
        return None;
    }
    let number = number(content) as i64;
    Some(if is_negative(content) {
        number - (1 << (8 * content.len()))
    } else {
        number
    })
}

/// Returns the 32 bits of a content without unused bits.
#[tactic(auto, using(crate::proofs::ShortestLaws::number4), unfolding(crate::specs::Computed::Whole::flags_of))]
pub fn flags_in(content: &[u8]) -> Option<u32>
    ensures { result ≡ flags_of content.now }
{
    match content {
        [0, a, b, c, d] => Some(u32::from_be_bytes([*a, *b, *c, *d])),
        _ => None,
    }
}

/// Returns the sequence number that the content is. A negative number stands for the one of the same 32 bits.
pub fn seq_number_in(content: &[u8]) -> Option<u32>
    ensures { result ≡ content_of seq_number content.now }
{
    let number = whole(content)?;
    if number < i64::from(i32::MIN) {
        return None;
    }
    u32::try_from(if number < 0 {
        number + 0x1_0000_0000
    } else {
        number
    })
    .ok()
}

/// Returns the bytes without the leading ones that the whole number doesn't need.
#[tactic(auto, using(crate::proofs::ShortestLaws::shortest_of_one), unfolding(crate::specs::Inner::Shortest::shortest_of))]
pub fn shortest(bytes: &[u8]) -> &[u8]
    ensures value { result.now ≡ shortest_of bytes.now }
    ensures shorter { length result.now ≤ length bytes.now }
{
    let mut rest = bytes;
    while rest.len() > 1 && is_redundant(rest) {
        rest = &rest[1..];
    }
    rest
}
