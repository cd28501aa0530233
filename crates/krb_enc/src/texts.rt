//! Encryption and decryption of texts with their confounders.

ghost use Rattle.std.specs.Prelude.{◌≡◌, ◌≤◌, ◌<◌, ◌+◌, ◌++◌, length, drop, IfOk, vec_len};
ghost use Rattle.krb_cts.specs.Stealing.{cts};
ghost use Rattle.krb_cts.specs.Undo.{undo};

use krb_aes::KeySchedule;
use std::alloc::{AllocError, Global};

pub(crate) const CONFOUNDER_LEN: usize = 16;

// The cipher state before the first text (RFC 8009, section 5).
pub(crate) const INITIAL_VECTOR: [u8; 16] = [0; 16];

// Encrypts a confounder and a plain text, and keeps room for a tag of so many bytes.
pub(crate) fn encrypted(
    alloc: Global,
    schedule: &KeySchedule,
    confounder: &[u8; CONFOUNDER_LEN],
    plain: &[u8],
    tag_len: usize,
) -> Result<Vec<u8>, AllocError>
    requires { tag_len ≤ 24 }
    ensures text { IfOk result (λ text. text.items ≡ cts schedule.now (confounder.now ++ plain.now)) }
    ensures length { IfOk result (λ text. vec_len text ≡ 16 + length plain.now) }
{
    let mut text = Vec::with_capacity(alloc, CONFOUNDER_LEN + plain.len() + tag_len)?;
    text.extend_from_slice(confounder)?;
    text.extend_from_slice(plain)?;
    krb_cts::encrypt(schedule, &mut text);
    Ok(text)
}

// Encrypts a confounder and a plain text into a slice of their length.
pub(crate) fn encrypt_to(
    schedule: &KeySchedule,
    confounder: &[u8; CONFOUNDER_LEN],
    plain: &[u8],
    text: &mut [u8],
)
    requires { length text.old ≡ 16 + length plain.now }
    ensures { text.new ≡ cts schedule.now (confounder.now ++ plain.now) }
{
    let (first, rest) = text.split_at_mut(CONFOUNDER_LEN);
    rest.copy_from_slice(plain);
    first.copy_from_slice(confounder);
    krb_cts::encrypt(schedule, text);
}

// Decrypts a text, without its confounder.
pub(crate) fn decrypted(
    alloc: Global,
    schedule: &KeySchedule,
    text: &[u8],
) -> Result<Vec<u8>, AllocError>
    requires { 16 ≤ length text.now }
    ensures { IfOk result (λ plain. plain.items ≡ drop 16 (undo schedule.now text.now)) }
{
    let mut plain = vec![in alloc; 0; text.len() - CONFOUNDER_LEN]?;
    krb_cts::decrypt_after_first(schedule, text, &mut plain);
    Ok(plain)
}
