//! The versions of the format.

ghost use Rattle.std.specs.Prelude.{◌≡◌, ◌≤◌, None, Some, IfOk, OnErr};
ghost use Rattle.krb_ccache.specs.Format.{second_size};
ghost use Rattle.krb_ccache.specs.Inner.Reading.{layout_at};

use krb_file::{FileCursor, Short};

/// How the parts of a file are laid out: by its version.
#[derive(Clone, Copy)]
pub(crate) enum Layout {
    /// Version 0x0503: there is no header, and a key's encryption type is written twice.
    Version3,
    /// Version 0x0504.
    Version4,
}

const VERSION_3: u16 = 0x0503;

/// The version that is written.
pub(crate) const VERSION_4: u16 = 0x0504;

impl Layout {
    /// Returns the length of the second copy of a key's encryption type, in bytes.
    pub(crate) fn second_size(self) -> usize
        ensures size { result ≡ second_size self }
        ensures few { result ≤ 2 }
    {
        match self {
            Layout::Version3 => 2,
            Layout::Version4 => 0,
        }
    }
}

/// Reads the version that begins here, and moves past it.
#[tactic(auto, unfolding(crate::specs::Inner::Reading::layout_at))]
pub(crate) fn read_layout(cursor: &mut FileCursor<'_>) -> Result<Layout, Short>
    ensures read { IfOk result (λ layout. layout_at cursor.old ≡ Some (layout, cursor.new)) }
    ensures short { OnErr result (layout_at cursor.old ≡ None) }
{
    match cursor.read_u16()? {
        VERSION_3 => Ok(Layout::Version3),
        VERSION_4 => Ok(Layout::Version4),
        _ => Err(Short),
    }
}
