//! The width of a cell of a table.

ghost use Rattle.std.specs.Prelude.{◌≡◌};
ghost use Rattle.krb_readable.specs.Table.{width};
ghost use Rattle.std.specs.Fmt.{is_char_start};

use crate::text::Text;

/// Returns the number of Unicode scalar values of a cell.
pub(crate) fn width(cell: &Text) -> usize
    ensures { result ≡ width cell.now }
{
    characters(cell.as_str().as_bytes())
}

// How many bytes begin a character.
fn characters(bytes: &[u8]) -> usize
    ensures { result ≡ width bytes.now }
{
    bytes.iter().filter(|byte| starts(**byte)).count()
}

// Whether the byte begins a character.
fn starts(byte: u8) -> bool
    ensures { result ≡ is_char_start byte }
{
    byte < 0x80 || byte >= 0xc0
}
