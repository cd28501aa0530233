//! The lines that `accept` reads.

ghost use Rattle.std.specs.Prelude.{◌≡◌, Option, ◌≤◌, ℕ, ℤ, List, None, Some, IfOk, IfSome, Ok, SomeIff};
ghost use Rattle.std.specs.Str.Parse.{digits_value};
ghost use Rattle.krb_time.specs.Time.{IsSeconds};
ghost use Rattle.krb_time.specs.Moments.{micros_of};
ghost use Rattle.krb_call_lines.specs.CallLine.{SpellsCall, SpellsConfounder, SpellsMessage, SpellsRest, SpellsNumber, SpellsSeconds, IsBadLine};
ghost use Rattle.krb_call_lines.specs.Inner.Moments.{TellsMoment};

use crate::cut::cut_at;
use crate::digits::decode;
use hex::FromHex;
use krb_msg::Moment;
use krb_time::LATEST_SECOND;
use std::alloc::{AllocError, Global};

/// How many bytes a line of `accept` may have, its end not counted.
pub const LINE_LIMIT: usize = 4_194_304;

const MOST_MICROS: u64 = 999_999;

const SPACE: u8 = b' ';

/// A call that a line spells: a message, and the moment that is handed in with it; and a confounder for a reply.
#[derive(Drop)]
pub struct SpelledCall {
    /// The message.
    pub bytes: Vec<u8>,
    /// The moment.
    pub now: Moment,
    /// The confounder, if the line has one.
    pub confounder: Option<[u8; 16]>,
}

/// Reads a line of `accept`, without its end: `SECONDS MICROS HEX` or `SECONDS MICROS HEX CONFOUNDER`, with single spaces between.
///
/// SECONDS is an optional minus and 1 to 19 digits, MICROS is 1 to 6 digits, and both make a moment. HEX is one byte or more
/// in hexadecimal digits of either case, or a minus for no bytes. CONFOUNDER is 32 such digits. The answer is `None` for a line of
/// another form, and for one of more than 4,194,304 bytes.
///
/// # Errors
/// `AllocError`: there was no room for the message.
pub fn call_of(alloc: Global, line: &[u8]) -> Result<Option<SpelledCall>, AllocError>
    ensures found { IfOk result (λ spelled. IfSome spelled (λ call. SpellsCall line.now call.bytes.items call.now call.confounder)) }
    ensures bad { result ≡ Ok None → IsBadLine line.now }
{
    if line.len() > LINE_LIMIT {
        return Ok(None);
    }
    let Some(told) = moment_of(line) else {
        return Ok(None);
    };
    match rest_of(alloc, told.rest)? {
        Some(rest) => Ok(Some(SpelledCall {
            bytes: rest.bytes,
            now: told.now,
            confounder: rest.confounder,
        })),
        None => Ok(None),
    }
}

// The moment that a line begins with, and what follows it.
#[derive(Clone, Copy)]
struct ToldMoment<'a> {
    now: Moment,
    rest: &'a [u8],
}

fn moment_of(line: &[u8]) -> Option<ToldMoment<'_>>
    ensures found { IfSome result (λ told. TellsMoment line.now told.now told.rest.now) }
    ensures none { result ≡ None → (moment : ℤ) (rest : List ℕ) → TellsMoment line.now moment rest → ⊥ }
{
    let (seconds, others) = cut_at(SPACE, line)?;
    let (micros, rest) = cut_at(SPACE, others)?;
    let now = Moment::new(seconds_of(seconds)?, micros_of(micros)?)?;
    Some(ToldMoment { now, rest })
}

// (The earliest second of a moment is nearer to 0 than the latest.)
fn seconds_of(text: &[u8]) -> Option<i64>
    ensures found { IfSome result (λ seconds. SpellsSeconds text.now seconds) }
    ensures none { result ≡ None → (seconds : ℤ) → SpellsSeconds text.now seconds → IsSeconds seconds → ⊥ }
{
    match text.split_first() {
        Some((b'-', digits)) => {
            let number = number_of(digits, 19, LATEST_SECOND as u64)?;
            Some(-(number as i64))
        }
        _ => {
            let number = number_of(text, 19, LATEST_SECOND as u64)?;
            Some(number as i64)
        }
    }
}

fn micros_of(text: &[u8]) -> Option<u32>
    ensures { SomeIff result (SpellsNumber 6 text.now (digits_value 10 text.now) × (digits_value 10 text.now ≤ 999_999)) (digits_value 10 text.now) }
{
    Some(number_of(text, 6, MOST_MICROS)? as u32)
}

// The number that so many digits at most write, if it is no greater than `greatest`.
fn number_of(digits: &[u8], most: usize, greatest: u64) -> Option<u64>
    requires { greatest ≤ 1_000_000_000_000 }
    ensures { SomeIff result (SpellsNumber most digits.now (digits_value 10 digits.now) × (digits_value 10 digits.now ≤ greatest))
        (digits_value 10 digits.now) }
{
    if digits.is_empty() || digits.len() > most {
        return None;
    }
    let mut number = 0;
    for digit in digits {
        if !digit.is_ascii_digit() {
            return None;
        }
        number = 10 * number + u64::from(*digit - b'0');
        if number > greatest {
            return None;
        }
    }
    Some(number)
}

// What follows the moment.
#[derive(Drop)]
struct ToldRest {
    bytes: Vec<u8>,
    confounder: Option<[u8; 16]>,
}

fn rest_of(alloc: Global, text: &[u8]) -> Result<Option<ToldRest>, AllocError>
    ensures found { IfOk result (λ told. IfSome told (λ rest. SpellsRest text.now rest.bytes.items rest.confounder)) }
    ensures none { result ≡ Ok None → (bytes : List ℕ) (confounder : Option (List ℕ)) → SpellsRest text.now bytes confounder → ⊥ }
{
    let Some((message, digits)) = cut_at(SPACE, text) else {
        return message_with(alloc, text, None);
    };
    match confounder_of(digits) {
        Some(confounder) => message_with(alloc, message, Some(confounder)),
        None => Ok(None),
    }
}

// A message, and the confounder that stands after it.
fn message_with(
    alloc: Global,
    text: &[u8],
    confounder: Option<[u8; 16]>,
) -> Result<Option<ToldRest>, AllocError>
    ensures found { IfOk result (λ told. IfSome told (λ rest. SpellsMessage text.now rest.bytes.items × (rest.confounder ≡ confounder))) }
    ensures none { result ≡ Ok None → (bytes : List ℕ) → SpellsMessage text.now bytes → ⊥ }
{
    match message_of(alloc, text)? {
        Some(bytes) => Ok(Some(ToldRest { bytes, confounder })),
        None => Ok(None),
    }
}

/// Reads 16 bytes off 32 hexadecimal digits of either case. `None` for any other text.
pub fn confounder_of(text: &[u8]) -> Option<[u8; 16]>
    ensures found { IfSome result (λ confounder. SpellsConfounder text.now confounder) }
    ensures none { result ≡ None → (confounder : List ℕ) → SpellsConfounder text.now confounder → ⊥ }
{
    <[u8; 16] as FromHex>::from_hex(text).ok()
}

// The bytes of a message.
fn message_of(alloc: Global, text: &[u8]) -> Result<Option<Vec<u8>>, AllocError>
    ensures found { IfOk result (λ message. IfSome message (λ bytes. SpellsMessage text.now bytes.items)) }
    ensures none { result ≡ Ok None → (bytes : List ℕ) → SpellsMessage text.now bytes → ⊥ }
{
    if text == b"-".as_slice() {
        return Ok(Some(Vec::new(alloc)));
    }
    match decode(alloc, text)? {
        Some(bytes) if bytes.is_empty() => Ok(None),
        decoded => Ok(decoded),
    }
}
