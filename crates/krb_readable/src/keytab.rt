//! A keytab as a table.

ghost use Rattle.std.specs.Prelude.{◌≡◌, ◌∷◌, IfOk, string_bytes, map};
ghost use Rattle.krb_readable.specs.Readable.{keytab_head, keytab_row, keytab_table};

use crate::enctype::enctype_text;
use crate::row::Row;
use crate::table::write_table;
use crate::text::Text;
use crate::time::date_text;
use krb_keytab::{Entry, Keytab};
use std::alloc::{AllocError, Global};

/// Returns a keytab as a table for people to read: a row that names the columns `KVNO`, `ENCTYPE`,
/// `TIMESTAMP` and `PRINCIPAL`, then a row for each entry, in the order of the file.
///
/// The encryption type is shown by its name in IANA's registry "Kerberos Encryption Type Numbers", or
/// by its number if it has none there; the timestamp as a date in UTC, `2026-11-24T01:31:49Z`; and the
/// principal as `Principal::to_text` writes it. Each cell but a row's last is filled with spaces to
/// the greatest number of Unicode scalar values that a cell of its column has, up to 256. Two spaces
/// follow it. Each row ends in a line feed.
///
/// # Errors
/// `AllocError` if there is no memory for the text.
#[tactic(auto, unfolding(crate::specs::Readable::keytab_table))]
pub fn readable_keytab(alloc: Global, keytab: &Keytab) -> Result<String, AllocError>
    ensures { IfOk result (λ text. string_bytes text ≡ keytab_table keytab.now) }
{
    let rows = keytab_rows(alloc, keytab.entries())?;
    let mut text = String::new(alloc);
    write_table(alloc, &mut text, rows.as_slice())?;
    Ok(text)
}

fn keytab_rows(alloc: Global, entries: &[Entry]) -> Result<Vec<Row>, AllocError>
    ensures { IfOk result (λ rows. rows.items ≡ keytab_head ∷ map keytab_row entries.now) }
{
    let mut rows = Vec::new(alloc);
    rows.push(keytab_head(alloc)?)?;
    for entry in entries {
        rows.push(keytab_row(alloc, entry)?)?;
    }
    Ok(rows)
}

fn keytab_head(alloc: Global) -> Result<Row, AllocError>
    ensures { IfOk result (λ row. row ≡ keytab_head) }
{
    Row::copied(alloc, &["KVNO", "ENCTYPE", "TIMESTAMP"], "PRINCIPAL")
}

fn keytab_row(alloc: Global, entry: &Entry) -> Result<Row, AllocError>
    ensures { IfOk result (λ row. row ≡ keytab_row entry.now) }
{
    let kvno = entry.kvno();
    let kvno = Text::new(format!(in alloc; "{kvno}")?);
    let etype = Text::new(enctype_text(alloc, entry.etype())?);
    let timestamp = Text::new(date_text(alloc, entry.timestamp())?);
    let principal = Text::new(entry.principal().to_text(alloc)?);
    Row::new(alloc, [kvno, etype, timestamp], principal)
}
