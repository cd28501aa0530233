//! Flags, in hexadecimal and by their names.

ghost use Rattle.std.specs.Prelude.{◌≡◌, IfOk, string_bytes, map};
ghost use Rattle.krb_explain.specs.Inner.Tables.{bit_of};
ghost use Rattle.krb_explain.specs.Registry.{flags_text, flag_names, option_names};

use krb_der::Flags;
use std::alloc::{AllocError, Global};

// A flag: its bit, where bit 0 is the most significant, and its name.
struct Bit(u32, &'static str);

// The options of a request (RFC 4120, section 5.5.1).
static OPTIONS: [Bit; 2] = [Bit(1, "use-session-key"), Bit(2, "mutual-required")];

// The flags of a ticket (RFC 4120, section 5.3; of bit 15 RFC 6806, section 11, and of bit 16 RFC 8062, section 3).
static FLAGS: [Bit; 15] = [
    Bit(1, "forwardable"),
    Bit(2, "forwarded"),
    Bit(3, "proxiable"),
    Bit(4, "proxy"),
    Bit(5, "may-postdate"),
    Bit(6, "postdated"),
    Bit(7, "invalid"),
    Bit(8, "renewable"),
    Bit(9, "initial"),
    Bit(10, "pre-authent"),
    Bit(11, "hw-authent"),
    Bit(12, "transited-policy-checked"),
    Bit(13, "ok-as-delegate"),
    Bit(15, "enc-pa-rep"),
    Bit(16, "anonymous"),
];

/// Returns the options of a request in hexadecimal, and the names of those that are set.
pub(crate) fn options_text(alloc: Global, options: Flags) -> Result<String, AllocError>
    ensures { IfOk result (λ text. string_bytes text ≡ flags_text option_names options.0) }
{
    flags_text(alloc, &OPTIONS, options)
}

/// Returns the flags of a ticket in hexadecimal, and the names of those that are set.
pub fn ticket_flags_text(alloc: Global, flags: Flags) -> Result<String, AllocError>
    ensures { IfOk result (λ text. string_bytes text ≡ flags_text flag_names flags.0) }
{
    flags_text(alloc, &FLAGS, flags)
}

// The flags in hexadecimal, and the names of a table whose bits are set.
fn flags_text(alloc: Global, table: &[Bit], flags: Flags) -> Result<String, AllocError>
    ensures { IfOk result (λ text. string_bytes text ≡ flags_text (map bit_of table.now) flags.0) }
{
    let mut text = hex::encode(alloc, flags.bits().to_be_bytes())?;
    for bit in table {
        if flags.has(bit.0) {
            text.push(' ')?;
            text.push_str(bit.1)?;
        }
    }
    Ok(text)
}
