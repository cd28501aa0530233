//! What can be read as one element.

ghost use Rattle.std.specs.Prelude.{◌≡◌, true};
ghost use Rattle.krb_der.specs.Kind.{Kind, ValueOf};
ghost use Rattle.krb_der.specs.Clear.{is_clear};
ghost use Rattle.krb_der.specs.Computed.Gives.{Gives};
ghost use Rattle.krb_der.specs.Computed.Read.{element_at};

use crate::{Cursor, Fault};

/// A type whose values are those of one kind of element.
pub trait Element<'a>: Sized {
    ghost kind: { Kind };

    ghost view: { Self → ValueOf kind };

    /// Reads the next element, as `specs::Computed` has it. On an error the cursor is unchanged.
    fn read(cursor: &mut Cursor<'a>) -> Result<Self, Fault>
        ensures { Gives view result cursor.old cursor.new (element_at kind cursor.old) };

    // Each optional field differs from what may follow it.
    ghost clear: { is_clear kind ≡ true };
}

/// The law of [`Element`], for callers.
pub(crate) fn is_clear<'a, T: Element<'a>>()
    ensures { is_clear T.kind ≡ true }
{}
