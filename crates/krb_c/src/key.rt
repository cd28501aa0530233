//! Keys and confounders in the form in which C passes them.

ghost use Rattle.std.specs.Prelude.{IfErr, IfOk, length, pos, ◌≡◌, ◌≢◌};
ghost use Rattle.krb_enc.specs.Key.{IsUsable};
ghost use Rattle.krb_c.specs.Choice.{IsChosen, IsConfounderFault, IsKeyFault, key_value};
ghost use Rattle.krb_c.specs.Known.{key_bytes, key_type};

use crate::code;
use crate::structs::Answer;
use krb_enc::{Key, KeyFault};
use krb_msg::RawKey;

/// The key of a type and bytes.
pub(crate) fn key_of(etype: i32, bytes: &[u8]) -> Result<Key, Answer>
    ensures made { IfOk result (λ key. key ≡ key_value etype bytes.now) }
    ensures usable { IfOk result IsUsable }
    ensures fault { IfErr result (λ answer. IsKeyFault etype bytes.now answer) }
{
    match Key::new(etype, bytes) {
        Ok(key) => Ok(key),
        Err(KeyFault::UnknownEtype) => Err(Answer::plain(code::KEY_TYPE)),
        Err(KeyFault::WrongLength) => Err(Answer::plain(code::KEY_LENGTH)),
    }
}

/// The key of a type and bytes, or none for the type 0.
pub(crate) fn key_or_none_of(etype: i32, bytes: &[u8]) -> Result<Option<Key>, Answer>
    ensures chosen { IfOk result (IsChosen etype bytes.now) }
    ensures fault { IfErr result (λ answer. (etype ≢ pos 0) × IsKeyFault etype bytes.now answer) }
{
    if etype == 0 {
        return Ok(None);
    }
    match key_of(etype, bytes) {
        Ok(key) => Ok(Some(key)),
        Err(answer) => Err(answer),
    }
}

/// A confounder's 16 bytes.
pub(crate) fn block_of(bytes: &[u8]) -> Result<[u8; 16], Answer>
    ensures made { IfOk result (λ block. block ≡ bytes.now) }
    ensures size { IfOk result (λ block. length bytes.now ≡ 16) }
    ensures fault { IfErr result (λ answer. IsConfounderFault bytes.now answer) }
{
    match bytes.try_into() {
        Ok(block) => Ok(block),
        Err(_) => Err(Answer::plain(code::BAD_CONFOUNDER)),
    }
}

pub(crate) fn bytes_of(key: &Option<RawKey>) -> &[u8]
    ensures { result.now ≡ key_bytes key.now }
{
    match key {
        Some(key) => key.bytes.as_slice(),
        None => &[],
    }
}

pub(crate) fn type_of(key: &Option<RawKey>) -> i32
    ensures { result ≡ key_type key.now }
{
    match key {
        Some(key) => key.etype,
        None => 0,
    }
}
