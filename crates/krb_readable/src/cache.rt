//! A credential cache as a table.

ghost use Rattle.std.specs.Prelude.{◌≡◌, ◌∷◌, IfOk, string_bytes, map};
ghost use Rattle.krb_readable.specs.Readable.{head_lines, cache_head, cache_row, config_row, ticket_row, ticket_kind, time_text, cache_table};

use crate::enctype::enctype_text;
use crate::flags::flags_text;
use crate::row::Row;
use crate::table::write_table;
use crate::text::Text;
use crate::time::date_text;
use krb_ccache::{CCache, Credential};
use krb_name::Principal;
use std::alloc::{AllocError, Global};

/// Returns a credential cache for people to read: the line `default NAME`; the line `offset SECONDS
/// MICROSECONDS` if the header has the KDC's clock offset; then a table with a row that names the
/// columns `KIND`, `ENCTYPE`, `AUTHTIME`, `STARTTIME`, `ENDTIME`, `RENEW-TILL`, `FLAGS`, `CLIENT` and
/// `SERVER`, and a row for each credential, in the order of the file.
///
/// The kind is `config` for a configuration entry; `expired` for a ticket whose endtime is before
/// `now`, in seconds since 1970-01-01 (RFC 4120, section 5.3: after its endtime a ticket isn't
/// honored); else `ticket`. If `now` is `None`, no ticket is shown as expired. A configuration entry
/// has `-` between its kind and its names.
///
/// The encryption type is shown by its name in IANA's registry "Kerberos Encryption Type Numbers", or
/// by its number if it has none there. A time is a date in UTC, `2026-11-24T01:31:49Z`, or `-` if it
/// is 0. Flags are the letters of MIT krb5's klist, or `-` if none of the flags that have a letter is
/// set. Names are written as `Principal::to_text` does. Cells are filled with spaces as in
/// `readable_keytab`.
///
/// # Errors
/// `AllocError` if there is no memory for the text.
#[tactic(auto, unfolding(crate::specs::Readable::cache_table))]
pub fn readable_ccache(
    alloc: Global,
    cache: &CCache,
    now: Option<u64>,
) -> Result<String, AllocError>
    ensures { IfOk result (λ text. string_bytes text ≡ cache_table now cache.now) }
{
    let mut text = head_lines(alloc, cache.default_principal(), cache.kdc_offset())?;
    let rows = cache_rows(alloc, cache.credentials(), now)?;
    write_table(alloc, &mut text, rows.as_slice())?;
    Ok(text)
}

/// Returns the lines that come before the credentials of a cache: `default NAME`, and `offset SECONDS MICROSECONDS` if there is an
/// offset of the KDC's clock.
///
/// # Errors
/// `AllocError` if there is no memory for them.
pub fn head_lines(
    alloc: Global,
    name: &Principal,
    offset: Option<(i32, i32)>,
) -> Result<String, AllocError>
    ensures { IfOk result (λ lines. string_bytes lines ≡ head_lines name.now offset) }
{
    let name = name.to_text(alloc)?;
    match offset {
        Some((seconds, micros)) => {
            format!(in alloc; "default {name}\noffset {seconds} {micros}\n")
        }
        None => format!(in alloc; "default {name}\n"),
    }
}

fn cache_rows(
    alloc: Global,
    credentials: &[Credential],
    now: Option<u64>,
) -> Result<Vec<Row>, AllocError>
    ensures { IfOk result (λ rows. rows.items ≡ cache_head ∷ map (cache_row now) credentials.now) }
{
    let mut rows = Vec::new(alloc);
    rows.push(cache_head(alloc)?)?;
    for credential in credentials {
        rows.push(cache_row(alloc, credential, now)?)?;
    }
    Ok(rows)
}

fn cache_head(alloc: Global) -> Result<Row, AllocError>
    ensures { IfOk result (λ row. row ≡ cache_head) }
{
    let cells = [
        "KIND",
        "ENCTYPE",
        "AUTHTIME",
        "STARTTIME",
        "ENDTIME",
        "RENEW-TILL",
        "FLAGS",
        "CLIENT",
    ];
    Row::copied(alloc, &cells, "SERVER")
}

fn cache_row(alloc: Global, credential: &Credential, now: Option<u64>) -> Result<Row, AllocError>
    ensures { IfOk result (λ row. row ≡ cache_row now credential.now) }
{
    if CCache::is_configuration(credential) {
        config_row(alloc, credential)
    } else {
        ticket_row(alloc, credential, now)
    }
}

fn config_row(alloc: Global, credential: &Credential) -> Result<Row, AllocError>
    ensures { IfOk result (λ row. row ≡ config_row credential.now) }
{
    let client = credential.client.to_text(alloc)?;
    let server = credential.server.to_text(alloc)?;
    let cells = ["config", "-", "-", "-", "-", "-", "-", client.as_str()];
    Row::copied(alloc, &cells, server.as_str())
}

fn ticket_row(alloc: Global, credential: &Credential, now: Option<u64>) -> Result<Row, AllocError>
    ensures { IfOk result (λ row. row ≡ ticket_row now credential.now) }
{
    let kind = Text::of(alloc, kind(credential.endtime, now))?;
    let etype = Text::new(enctype_text(alloc, credential.etype)?);
    let authtime = time_cell(alloc, credential.authtime)?;
    let starttime = time_cell(alloc, credential.starttime)?;
    let endtime = time_cell(alloc, credential.endtime)?;
    let renew_till = time_cell(alloc, credential.renew_till)?;
    let flags = Text::new(flags_text(alloc, credential.ticket_flags)?);
    let client = Text::new(credential.client.to_text(alloc)?);
    let server = Text::new(credential.server.to_text(alloc)?);
    let cells = [
        kind, etype, authtime, starttime, endtime, renew_till, flags, client,
    ];
    Row::new(alloc, cells, server)
}

// What kind of row a ticket with this endtime has.
fn kind(endtime: u32, now: Option<u64>) -> &'static str
    ensures { result.now ≡ ticket_kind now endtime }
{
    match now {
        Some(now) if u64::from(endtime) < now => "expired",
        _ => "ticket",
    }
}

// The cell of a time; 0 says that there is none.
fn time_cell(alloc: Global, time: u32) -> Result<Text, AllocError>
    ensures { IfOk result (λ cell. cell ≡ time_text time) }
{
    if time == 0 {
        return Text::of(alloc, "-");
    }
    Ok(Text::new(date_text(alloc, time)?))
}
