//! The lines of a keytab and of a cache, for programs.

ghost use Rattle.std.specs.Prelude.{◌≡◌, ◌++◌, ◌∷◌, [], OnOk, string_bytes};
ghost use Rattle.std.specs.Int.{w32};
ghost use Rattle.hex.specs.Hex.{encode_lower};
ghost use Rattle.krb_file.specs.Cursor.{number_bytes};
ghost use Rattle.krb_file_commands.specs.Lines.{keytab_line, keytab_lines, cache_lines, credential_line, config_line, ticket_line, times_of, names_of};

use crate::walk::{FromCredentials, FromEntries};
use itoa::{Buffer, Integer};
use krb_ccache::{CCache, CacheFault, Credential, CredentialReader};
use krb_file::Source;
use krb_keytab::{Entry, EntryReader, KeytabFault};
use krb_readable::head_lines;
use std::alloc::{AllocError, Global};

/// Makes the lines.
pub(crate) struct Lines;

impl FromEntries for Lines {
    ghost of_entries = { keytab_lines };

    fn from_entries<S: Source>(
        alloc: Global,
        reader: &mut EntryReader<S>,
    ) -> Result<Vec<u8>, KeytabFault> {
        krb_keytab::laws::each_file_has_one_answer();
        krb_keytab::laws::a_reader_tells_the_file();
        let mut lines = String::new(alloc);
        while let Some(entry) = reader.next(alloc)? {
            write_entry(&entry, &mut lines)?;
        }
        Ok(lines.into_bytes())
    }
}

/// Writes the line of an entry after a text.
pub(crate) fn write_entry(entry: &Entry, text: &mut String) -> Result<(), AllocError>
    ensures { OnOk result (string_bytes text.new ≡ string_bytes text.old ++ keytab_line entry.now) }
{
    write_column(entry.kvno(), text)?;
    write_column(entry.etype(), text)?;
    write_column(entry.timestamp(), text)?;
    entry.principal().write_text(text)?;
    text.push('\n')
}

// Writes a number in decimal, and a space.
fn write_column<N: Integer>(number: N, text: &mut String) -> Result<(), AllocError>
    ensures { OnOk result (string_bytes text.new ≡ string_bytes text.old ++ (N.text number ++ 32 ∷ [])) }
{
    let mut digits = Buffer::new();
    text.push_str(digits.format(number))?;
    text.push(' ')
}

impl FromCredentials for Lines {
    ghost of_cache = { cache_lines };

    fn from_credentials<S: Source>(
        alloc: Global,
        reader: &mut CredentialReader<S>,
    ) -> Result<Vec<u8>, CacheFault> {
        krb_ccache::laws::each_file_has_one_answer();
        krb_ccache::laws::a_source_tells_its_file();
        let mut lines = head_lines(alloc, reader.default_principal(), reader.kdc_offset())?;
        while let Some(credential) = reader.next(alloc)? {
            write_credential(alloc, &credential, &mut lines)?;
        }
        Ok(lines.into_bytes())
    }
}

fn write_credential(
    alloc: Global,
    credential: &Credential,
    text: &mut String,
) -> Result<(), AllocError>
    ensures { OnOk result (string_bytes text.new ≡ string_bytes text.old ++ credential_line credential.now) }
{
    if CCache::is_configuration(credential) {
        write_config(credential, text)
    } else {
        write_ticket(alloc, credential, text)
    }
}

fn write_config(credential: &Credential, text: &mut String) -> Result<(), AllocError>
    ensures { OnOk result (string_bytes text.new ≡ string_bytes text.old ++ config_line credential.now) }
{
    text.push_str("config ")?;
    credential.server.write_text(text)?;
    text.push('\n')
}

fn write_ticket(alloc: Global, credential: &Credential, text: &mut String) -> Result<(), AllocError>
    ensures { OnOk result (string_bytes text.new ≡ string_bytes text.old ++ ticket_line credential.now) }
{
    text.push_str("ticket ")?;
    write_column(credential.etype, text)?;
    write_times(credential, text)?;
    write_flags(alloc, credential, text)?;
    write_names(credential, text)
}

fn write_times(credential: &Credential, text: &mut String) -> Result<(), AllocError>
    ensures { OnOk result (string_bytes text.new ≡ string_bytes text.old ++ (times_of credential.now ++ 32 ∷ [])) }
{
    write_column(credential.authtime, text)?;
    write_column(credential.starttime, text)?;
    write_column(credential.endtime, text)?;
    write_column(credential.renew_till, text)
}

fn write_flags(alloc: Global, credential: &Credential, text: &mut String) -> Result<(), AllocError>
    ensures { OnOk result (string_bytes text.new
        ≡ string_bytes text.old ++ (encode_lower (number_bytes w32 credential.now.ticket_flags) ++ 32 ∷ [])) }
{
    let flags = hex::encode(alloc, credential.ticket_flags.to_be_bytes())?;
    text.push_str(&flags)?;
    text.push(' ')
}

fn write_names(credential: &Credential, text: &mut String) -> Result<(), AllocError>
    ensures { OnOk result (string_bytes text.new ≡ string_bytes text.old ++ (names_of credential.now ++ 10 ∷ [])) }
{
    credential.client.write_text(text)?;
    text.push(' ')?;
    credential.server.write_text(text)?;
    text.push('\n')
}
