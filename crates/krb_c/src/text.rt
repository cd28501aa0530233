//! Sealed texts and checksums.

ghost use Rattle.std.specs.Prelude.{◌≡◌, ◌≢◌};
ghost use Rattle.krb_c.specs.Answer.{Delivers};
ghost use Rattle.krb_c.specs.Codes.{out_of_memory};
ghost use Rattle.krb_c.specs.Choice.{IsChecked, IsKeyFault, IsOpenFault, IsSealFault, OpensTo, SealsTo, key_value};
ghost use Rattle.krb_enc.specs.Key.{IsUsable, profile_of};
ghost use Rattle.krb_enc.specs.Sealed.{checksum_of};

use crate::answer::hand_over;
use crate::code;
use crate::key::{block_of, key_of};
use crate::structs::Answer;
use krb_enc::OpenToFault;

/// Seals a plain text under a key for a usage (RFC 8009, section 5). The confounder is 16 random
/// bytes, new for each call. It allocates no memory.
#[unsafe(no_mangle)]
pub extern "C" fn fevstunik_seal(
    key_type: i32,
    key: &[u8],
    usage: u32,
    confounder: &[u8],
    plain: &[u8],
    buffer: &mut [u8],
) -> Answer
    ensures delivered { Delivers (λ text. SealsTo (key_value key_type key.now) usage confounder.now plain.now text)
        (λ answer. IsSealFault (key_value key_type key.now) confounder.now answer) buffer.old buffer.new result }
    ensures memory { result.code ≢ out_of_memory }
{
    let key = match key_of(key_type, key) {
        Ok(key) => key,
        Err(answer) => return answer,
    };
    let confounder = match block_of(confounder) {
        Ok(confounder) => confounder,
        Err(answer) => return answer,
    };
    match key.for_usage(usage).seal_to(&confounder, plain, buffer) {
        Ok(size) => Answer::sized(code::OK, size),
        Err(fault) => Answer::sized(code::SHORT_BUFFER, fault.needed),
    }
}

/// Opens a text that was sealed under a key for a usage (RFC 8009, section 5), and returns the
/// plain text. It allocates no memory.
#[unsafe(no_mangle)]
pub extern "C" fn fevstunik_open(
    key_type: i32,
    key: &[u8],
    usage: u32,
    text: &[u8],
    buffer: &mut [u8],
) -> Answer
    ensures delivered { Delivers (λ plain. OpensTo (key_value key_type key.now) usage text.now plain)
        (λ answer. IsOpenFault (key_value key_type key.now) usage text.now answer) buffer.old buffer.new result }
    ensures memory { result.code ≢ out_of_memory }
{
    let key = match key_of(key_type, key) {
        Ok(key) => key,
        Err(answer) => return answer,
    };
    match key.for_usage(usage).open_to(text, buffer) {
        Ok(size) => Answer::sized(code::OK, size),
        Err(OpenToFault::Short) => Answer::plain(code::TEXT_SHORT),
        Err(OpenToFault::Integrity) => Answer::plain(code::TEXT_INTEGRITY),
        Err(OpenToFault::ShortSlice { needed }) => Answer::sized(code::SHORT_BUFFER, needed),
    }
}

/// Returns the checksum of a text under a key for a usage (RFC 8009, section 6): 16 bytes (type 19)
/// or 24 (type 20). It allocates no memory.
#[unsafe(no_mangle)]
pub extern "C" fn fevstunik_checksum(
    key_type: i32,
    key: &[u8],
    usage: u32,
    text: &[u8],
    buffer: &mut [u8],
) -> Answer
    ensures { Delivers (λ tag. IsUsable (key_value key_type key.now) × (tag ≡ checksum_of (profile_of (key_value key_type key.now)) key.now usage text.now))
        (λ answer. IsKeyFault key_type key.now answer) buffer.old buffer.new result }
{
    match key_of(key_type, key) {
        Ok(key) => hand_over(key.checksum(usage, text).as_slice(), buffer),
        Err(answer) => answer,
    }
}

/// Checks whether a tag is the whole checksum of a text under a key for a usage (RFC 8009, section
/// 6). It allocates no memory.
#[unsafe(no_mangle)]
pub extern "C" fn fevstunik_checksum_check(
    key_type: i32,
    key: &[u8],
    usage: u32,
    text: &[u8],
    tag: &[u8],
) -> Answer
    ensures { IsChecked (key_value key_type key.now) usage text.now tag.now result }
{
    match key_of(key_type, key) {
        Ok(key) => {
            if key.verify_checksum(usage, text, tag) {
                Answer::plain(code::OK)
            } else {
                Answer::plain(code::TEXT_INTEGRITY)
            }
        }
        Err(answer) => answer,
    }
}
