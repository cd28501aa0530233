//! Hexadecimal digits.

ghost use Rattle.std.specs.Prelude.{◌≡◌, ◌≢◌, ◌*◌, ℕ, List, Ok, None, IfOk, IfSome, IsTrue, false, length, max, unwrap_or};
ghost use Rattle.hex.specs.Hex.{decode_of, hex_digit_value};

use std::alloc::{AllocError, Global};

// What stands for the value of a byte that isn't a digit.
const NO_DIGIT: u8 = 16;

/// Decodes digits of either case, two for each byte. Returns `None` for any other text.
///
/// The crate `hex` takes a branch at each digit, and a processor can't foresee which one. Here
/// nothing is decided until the end, which takes a fraction of the time.
///
/// # Errors
/// `AllocError`: there is no memory for the bytes.
pub(crate) fn decode(alloc: Global, digits: &[u8]) -> Result<Option<Vec<u8>>, AllocError>
    ensures found { IfOk result (λ found. IfSome found (λ bytes. decode_of digits.now ≡ Ok bytes.items)) }
    ensures none { result ≡ Ok None → (bytes : List ℕ) → decode_of digits.now ≢ Ok bytes }
{
    if digits.len() % 2 != 0 {
        return Ok(None);
    }
    let mut bytes = vec![in alloc; 0u8; digits.len() / 2]?;
    if decode_into(digits, bytes.as_mut_slice()) {
        Ok(Some(bytes))
    } else {
        Ok(None)
    }
}

// Decodes two digits into each byte, and returns whether all of them are digits.
fn decode_into(digits: &[u8], bytes: &mut [u8]) -> bool
    requires { length digits.now ≡ 2 * length bytes.old }
    ensures decoded { IsTrue result → decode_of digits.now ≡ Ok bytes.new }
    ensures refused { result ≡ false → (made : List ℕ) → decode_of digits.now ≢ Ok made }
{
    let mut greatest = 0;
    for at in 0..bytes.len() {
        let high = value(digits[2 * at]);
        let low = value(digits[2 * at + 1]);
        bytes[at] = high % 16 * 16 + low % 16;
        greatest = greater(greatest, greater(high, low));
    }
    greatest < NO_DIGIT
}

fn greater(one: u8, other: u8) -> u8
    ensures { result ≡ max one other }
{
    if one < other { other } else { one }
}

// The value of a digit, or 16.
fn value(digit: u8) -> u8
    ensures { result ≡ unwrap_or (hex_digit_value digit) 16 }
{
    match digit {
        b'0'..=b'9' => digit - b'0',
        b'a'..=b'f' => digit - b'a' + 10,
        b'A'..=b'F' => digit - b'A' + 10,
        _ => NO_DIGIT,
    }
}
