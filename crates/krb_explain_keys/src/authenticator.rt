//! The lines of an opened authenticator.

ghost use Rattle.std.specs.Prelude.{◌≡◌, IfOk, string_bytes};
ghost use Rattle.std.specs.Option.{option_map};
ghost use Rattle.krb_msg.specs.Borrowed.{authenticator_of, key_of, typed_of};
ghost use Rattle.krb_explain_keys.specs.Authenticator.{AreAuthenticatorLines, AreBindingLines, AreChecksumLines, AreTypedLines, IsTimeLine, MayHaveBindings, SaysBindings, authenticator_end, subkey_text};

use crate::age::age_text;
use crate::data::types_text;
use krb_explain::{date_line, listed, name_line, type_text};
use krb_gss::{CHECKSUM_TYPE, Checksum};
use krb_msg::{AuthenticatorRef, KeyRef, Microseconds, Moment, Seconds, TypedRef};
use krb_readable::Text;
use std::alloc::{AllocError, Global};

/// Makes the lines of an authenticator that was opened at this moment.
pub(crate) fn authenticator_lines(
    alloc: Global,
    auth: &AuthenticatorRef,
    now: Moment,
) -> Result<Vec<Text>, AllocError>
    ensures { IfOk result (λ lines. AreAuthenticatorLines now (authenticator_of auth.now) lines.items) }
{
    let client = name_line(alloc, "authenticator's client", auth.crealm, &auth.cname)?;
    let time = time_line(alloc, auth.ctime, auth.cusec, now)?;
    let mut lines = listed(alloc, [client, time])?;
    lines.append(&mut checksum_lines(alloc, auth.checksum)?)?;
    lines.append(&mut authenticator_end(alloc, auth)?)?;
    Ok(lines)
}

fn time_line(
    alloc: Global,
    second: Seconds,
    cusec: Microseconds,
    now: Moment,
) -> Result<Text, AllocError>
    ensures { IfOk result (λ line. IsTimeLine now second cusec line) }
{
    let date = date_line(alloc, "authenticator's time: ", second)?;
    let text = date.as_str();
    let micros = cusec.get();
    let age = age_text(alloc, Moment::at(second, cusec), now)?;
    Ok(Text::new(format!(in alloc; "{text} and {micros} microseconds ({age})")?))
}

fn checksum_lines(alloc: Global, checksum: Option<TypedRef>) -> Result<Vec<Text>, AllocError>
    ensures { IfOk result (λ lines. AreChecksumLines (option_map typed_of checksum.entry) lines.items) }
{
    match checksum {
        Some(checksum) => typed_lines(alloc, checksum.kind, checksum.bytes),
        None => listed(alloc, [Text::of(alloc, "authenticator's checksum: none")?]),
    }
}

fn typed_lines(alloc: Global, kind: i32, bytes: &[u8]) -> Result<Vec<Text>, AllocError>
    ensures { IfOk result (λ lines. AreTypedLines kind bytes.now lines.items) }
{
    let line = Text::new(format!(in alloc; "authenticator's checksum: type {kind}")?);
    let mut lines = listed(alloc, [line])?;
    lines.append(&mut may_have_bindings(alloc, kind, bytes)?)?;
    Ok(lines)
}

fn may_have_bindings(alloc: Global, kind: i32, bytes: &[u8]) -> Result<Vec<Text>, AllocError>
    ensures { IfOk result (λ lines. MayHaveBindings kind bytes.now lines.items) }
{
    if kind == CHECKSUM_TYPE {
        binding_lines(alloc, bytes)
    } else {
        Ok(Vec::new(alloc))
    }
}

fn binding_lines(alloc: Global, bytes: &[u8]) -> Result<Vec<Text>, AllocError>
    ensures { IfOk result (λ lines. AreBindingLines bytes.now lines.items) }
{
    let text = bindings_text(bytes);
    listed(
        alloc,
        [Text::new(format!(in alloc; "channel bindings: {text}")?)],
    )
}

fn bindings_text(bytes: &[u8]) -> &'static str
    ensures { SaysBindings bytes.now result.now }
{
    match Checksum::parse(bytes) {
        Ok(checksum) => {
            if checksum.has_bindings(&[0; 16]) {
                "none"
            } else {
                "some"
            }
        }
        Err(_) => "none that can be read",
    }
}

// The subkey's type, and the types of authorization data.
fn authenticator_end(alloc: Global, auth: &AuthenticatorRef) -> Result<Vec<Text>, AllocError>
    ensures { IfOk result (λ lines. lines.items ≡ authenticator_end (authenticator_of auth.now)) }
{
    let key = subkey_text(alloc, &auth.subkey)?;
    let subkey = Text::new(format!(in alloc; "authenticator's subkey: {key}")?);
    let types = types_text(alloc, &auth.authorization)?;
    let data = Text::new(format!(in alloc; "authenticator's authorization data:{types}")?);
    listed(alloc, [subkey, data])
}

fn subkey_text(alloc: Global, subkey: &Option<KeyRef>) -> Result<String, AllocError>
    ensures { IfOk result (λ text. string_bytes text ≡ subkey_text (option_map key_of subkey.now)) }
{
    match subkey {
        Some(key) => {
            let etype = type_text(alloc, key.etype)?;
            format!(in alloc; "type {etype}")
        }
        None => String::from_str(alloc, "none"),
    }
}
