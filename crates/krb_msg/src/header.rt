//! The first fields of requests, replies and errors.

ghost use Rattle.krb_der.specs.Kind.{leaf, must, field, constant};
ghost use Rattle.krb_msg.specs.Parts.{◌▸◌};

use krb_der::{Constant, Cursor, Fault, Field, Row};

/// The fields of a message after `pvno`, which is 5, and `msg-type`, which is this number.
#[derive(Drop)]
pub(crate) struct Header<const TYPE: u32, R>(pub(crate) R);

impl<'a, const TYPE: u32, R: Row<'a> + Drop> Row<'a> for Header<TYPE, R> {
    ghost fields = { must (field 0 (leaf (constant 5))) (must (field 1 (leaf (constant TYPE))) R.fields) };

    ghost view = { λ h. tt ▸ tt ▸ R.view h.0 };

    fn read_row(content: Cursor<'a>) -> Result<Header<TYPE, R>, Fault> {
        match Row::read_row(content) {
            Ok(row) => {
                let (Field::<0xa0, Constant<5>>(_), row) = row;
                let (Field::<0xa1, Constant<TYPE>>(_), row) = row;
                Ok(Header(row))
            }
            Err(fault) => Err(fault),
        }
    }
}
