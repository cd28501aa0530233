//! A ticket's flags as letters.

ghost use Rattle.std.specs.Prelude.{◌≡◌, IfOk, string_bytes, map};
ghost use Rattle.std.specs.List.{flat_map};
ghost use Rattle.krb_readable.specs.Flags.{letter_if_set, flags_text};
ghost use Rattle.krb_readable.specs.Inner.Tables.{letter_of};

use krb_der::Flags;
use std::alloc::{AllocError, Global};

// A flag: its bit, where bit 0 is the most significant, and the letter that klist shows.
struct Flag(u32, &'static str);

static FLAGS: [Flag; 14] = [
    Flag(1, "F"),
    Flag(2, "f"),
    Flag(3, "P"),
    Flag(4, "p"),
    Flag(5, "D"),
    Flag(6, "d"),
    Flag(7, "i"),
    Flag(8, "R"),
    Flag(9, "I"),
    Flag(11, "H"),
    Flag(10, "A"),
    Flag(12, "T"),
    Flag(13, "O"),
    Flag(16, "a"),
];

/// Returns the letters of the flags that are set, or `-` if none has a letter.
#[tactic(auto, unfolding(crate::specs::Flags::flags_text))]
pub(crate) fn flags_text(alloc: Global, flags: u32) -> Result<String, AllocError>
    ensures { IfOk result (λ text. string_bytes text ≡ flags_text flags) }
{
    let text = letters_in(alloc, &FLAGS, flags)?;
    if text.is_empty() {
        return String::from_str(alloc, "-");
    }
    Ok(text)
}

// The letters of a table whose bits are set.
fn letters_in(alloc: Global, table: &[Flag], flags: u32) -> Result<String, AllocError>
    ensures { IfOk result (λ text.
        string_bytes text ≡ flat_map (letter_if_set flags) (map letter_of table.now)) }
{
    let mut text = String::new(alloc);
    for flag in table {
        if Flags(flags).has(flag.0) {
            text.push_str(flag.1)?;
        }
    }
    Ok(text)
}
