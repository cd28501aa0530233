//! Reading a message that is given as a text.

ghost use Rattle.std.specs.Prelude.{◌≡◌, ◌≢◌, ◌≤◌, true, Err, IfOk, IfErr, length};
ghost use Rattle.std.specs.List.{filter, prefix_len};
ghost use Rattle.std.specs.Char.{is_ascii_hexdigit};
ghost use Rattle.hex.specs.Hex.{decode_of as hex_decode_of};
ghost use Rattle.base64.specs.GeneralPurpose.{decode_of as base64_decode_of};
ghost use Rattle.base64.specs.Engines.{standard};
ghost use Rattle.krb_explain.specs.Input.{AreWhole, HasWholeDigits, begins_with, decoded, is_no_colon, is_symbol, may_stand, name_len, read_of, scheme_len, space_len, start_of, of_hex, of_base64};

use base64::DecodeAllocError;
use base64::engine::general_purpose::STANDARD;
use hex::FromHexError;
use std::alloc::{AllocError, Global};
use thiserror::Error;

/// Why a text doesn't spell bytes.
#[derive(Clone, Copy, Debug, PartialEq, Eq, Error)]
pub enum InputFault {
    /// There are no digits.
    #[error("there are no digits")]
    NoBytes,
    /// The byte at this offset is neither white space nor a character of hexadecimal or base64.
    #[error("no digit at {at}")]
    Symbol {
        /// An offset in the text.
        at: usize,
    },
    /// The digits aren't whole: of hexadecimal there is one too few, or base64 isn't padded as it must be.
    #[error("the digits aren't whole at their end, {at}")]
    End {
        /// The length of the text.
        at: usize,
    },
    /// There is no memory for the bytes.
    #[error("out of memory")]
    OutOfMemory,
}

impl From<AllocError> for InputFault {
    ghost use Rattle.krb_explain.specs.declared.input.InputFault.TheVariants.{OutOfMemory};

    ghost from_gives = { λ _ fault. fault ≡ OutOfMemory };

    fn from(_: AllocError) -> InputFault {
        InputFault::OutOfMemory
    }
}

// The scheme of a header line (RFC 4559, section 4), in small letters.
const SCHEME: &[u8] = b"negotiate";

/// Returns the bytes that a text spells: in hexadecimal digits of either case, or in base64 with padding (RFC 4648, section 4).
///
/// White space doesn't count. What comes before the digits is passed over: a header's name with its colon, and the scheme
/// `Negotiate` in letters of either case. A text whose digits are all hexadecimal is read as that.
///
/// # Errors
/// The first that holds:
/// - `Symbol`: a byte is neither white space nor a character of hexadecimal or base64.
/// - `NoBytes`: there are no digits.
/// - `End`: an odd number of hexadecimal digits.
/// - `OutOfMemory`.
/// - `End`: base64 that isn't whole or has another padding.
pub fn message_bytes(alloc: Global, text: &[u8]) -> Result<Vec<u8>, InputFault>
    ensures bytes { IfOk result (λ bytes. read_of text.now ≡ Ok bytes.items) }
    ensures fault { IfErr result (λ fault. fault ≢ InputFault.OutOfMemory → read_of text.now ≡ Err fault) }
    ensures memory { result ≡ Err InputFault.OutOfMemory → HasWholeDigits text.now }
{
    let start = start_of(text);
    let (_, rest) = text.split_at(start);
    let good = good_len(rest);
    if good != rest.len() {
        return Err(InputFault::Symbol { at: start + good });
    }
    read_digits(alloc, start + rest.len(), rest)
}

// The bytes of digits that end at an offset, with white space among them.
fn read_digits(alloc: Global, end: usize, text: &[u8]) -> Result<Vec<u8>, InputFault>
    ensures bytes { IfOk result (λ bytes. decoded end (filter is_symbol text.now) ≡ Ok bytes.items) }
    ensures fault { IfErr result (λ fault. fault ≢ InputFault.OutOfMemory → decoded end (filter is_symbol text.now) ≡ Err fault) }
    ensures memory { result ≡ Err InputFault.OutOfMemory → AreWhole (filter is_symbol text.now) }
{
    let count = symbol_count(text);
    if count == 0 {
        return Err(InputFault::NoBytes);
    }
    if hex_len(text) != count {
        return of_base64(alloc, end, text);
    }
    if count % 2 == 1 {
        return Err(InputFault::End { at: end });
    }
    of_hex(alloc, end, text)
}

// Where the digits begin.
fn start_of(text: &[u8]) -> usize
    ensures value { result ≡ start_of text.now }
    ensures within { result ≤ length text.now }
{
    let name = name_len(text);
    let (_, rest) = text.split_at(name);
    name + scheme_len(rest)
}

// How long a header's name is, with its colon.
fn name_len(text: &[u8]) -> usize
    ensures value { result ≡ name_len text.now }
    ensures within { result ≤ length text.now }
{
    let len = colon_at(text);
    if len < text.len() { len + 1 } else { 0 }
}

fn colon_at(text: &[u8]) -> usize
    ensures value { result ≡ prefix_len is_no_colon text.now }
    ensures within { result ≤ length text.now }
{
    let mut len = 0;
    for byte in text {
        if *byte == b':' {
            return len;
        }
        len += 1;
    }
    len
}

// How long the scheme is, with the white space before it.
fn scheme_len(text: &[u8]) -> usize
    ensures value { result ≡ scheme_len text.now }
    ensures within { result ≤ length text.now }
{
    let spaces = space_len(text);
    let (_, word) = text.split_at(spaces);
    if begins_with(SCHEME, word) {
        spaces + SCHEME.len()
    } else {
        0
    }
}

fn space_len(text: &[u8]) -> usize
    ensures value { result ≡ space_len text.now }
    ensures within { result ≤ length text.now }
{
    let mut len = 0;
    for byte in text {
        if !byte.is_ascii_whitespace() {
            return len;
        }
        len += 1;
    }
    len
}

// Whether the text begins with the word, in letters of either case.
fn begins_with(word: &[u8], text: &[u8]) -> bool
    ensures value { result ≡ begins_with word.now text.now }
    ensures longer { result ≡ true → length word.now ≤ length text.now }
{
    let mut rest = text;
    for letter in word {
        let Some((first, others)) = rest.split_first() else {
            return false;
        };
        if first.to_ascii_lowercase() != *letter {
            return false;
        }
        rest = others;
    }
    true
}

// How many bytes come before the first that may not stand among digits.
fn good_len(text: &[u8]) -> usize
    ensures value { result ≡ prefix_len may_stand text.now }
    ensures within { result ≤ length text.now }
{
    let mut len = 0;
    for byte in text {
        if !may_stand(*byte) {
            return len;
        }
        len += 1;
    }
    len
}

fn may_stand(byte: u8) -> bool
    ensures { result ≡ may_stand byte }
{
    byte.is_ascii_whitespace()
        || byte.is_ascii_alphanumeric()
        || byte == b'+'
        || byte == b'/'
        || byte == b'='
}

// The bytes that aren't white space.
fn symbols_of(alloc: Global, text: &[u8]) -> Result<Vec<u8>, AllocError>
    ensures { IfOk result (λ symbols. symbols.items ≡ filter is_symbol text.now) }
{
    let mut symbols = Vec::new(alloc);
    for byte in text {
        if !byte.is_ascii_whitespace() {
            symbols.push(*byte)?;
        }
    }
    Ok(symbols)
}

// How many bytes aren't white space.
fn symbol_count(text: &[u8]) -> usize
    ensures { result ≡ length (filter is_symbol text.now) }
{
    let mut count = 0;
    for byte in text {
        if !byte.is_ascii_whitespace() {
            count += 1;
        }
    }
    count
}

// How many of these come before the first that isn't a hexadecimal digit.
fn hex_len(text: &[u8]) -> usize
    ensures { result ≡ prefix_len is_ascii_hexdigit (filter is_symbol text.now) }
{
    let mut len = 0;
    for byte in text {
        if byte.is_ascii_hexdigit() {
            len += 1;
        } else if !byte.is_ascii_whitespace() {
            return len;
        }
    }
    len
}

fn of_hex(alloc: Global, end: usize, text: &[u8]) -> Result<Vec<u8>, InputFault>
    ensures bytes { IfOk result (λ bytes. of_hex end (hex_decode_of (filter is_symbol text.now)) ≡ Ok bytes.items) }
    ensures fault { IfErr result (λ fault. fault ≢ InputFault.OutOfMemory
        → of_hex end (hex_decode_of (filter is_symbol text.now)) ≡ Err fault) }
{
    let symbols = symbols_of(alloc, text)?;
    match hex::decode(alloc, symbols.as_slice()) {
        Ok(bytes) => Ok(bytes),
        Err(fault) => match fault {
            FromHexError::OutOfMemory => Err(InputFault::OutOfMemory),
            _ => Err(InputFault::End { at: end }),
        },
    }
}

fn of_base64(alloc: Global, end: usize, text: &[u8]) -> Result<Vec<u8>, InputFault>
    ensures bytes { IfOk result (λ bytes. of_base64 end (base64_decode_of standard (filter is_symbol text.now)) ≡ Ok bytes.items) }
    ensures fault { IfErr result (λ fault. fault ≢ InputFault.OutOfMemory
        → of_base64 end (base64_decode_of standard (filter is_symbol text.now)) ≡ Err fault) }
{
    let symbols = symbols_of(alloc, text)?;
    match STANDARD.decode(alloc, symbols.as_slice()) {
        Ok(bytes) => Ok(bytes),
        Err(fault) => match fault {
            DecodeAllocError::OutOfMemory => Err(InputFault::OutOfMemory),
            DecodeAllocError::DecodeError(_) => Err(InputFault::End { at: end }),
        },
    }
}
