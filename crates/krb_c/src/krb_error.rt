//! What a KRB-ERROR says.

ghost use Rattle.std.specs.Prelude.{IfOk, Some, option_map, string_bytes, ◌≡◌};
ghost use Rattle.krb_c.specs.Errors.{ReadsError, bytes_or_none, client_text, error_bytes, error_told, has_both, seconds_or_zero};
ghost use Rattle.krb_c.specs.Known.{number_or_zero};

use crate::answer::{append, hand_over_with};
use crate::code;
use crate::structs::{Answer, KrbError, Time};
use krb_msg::{KrbError as Message, KrbErrorRef, Microseconds, Name, Seconds};
use krb_name::{Bytes, Principal};
use std::alloc::{AllocError, Global};

/// Reads a KRB-ERROR (`krb_msg::KrbErrorRef::parse`). Writes its texts and its data to the buffer,
/// and their places and the numbers to `found`, even if the buffer is too short.
#[unsafe(no_mangle)]
pub extern "C" fn fevstunik_krb_error_read(
    alloc: Global,
    error: &[u8],
    found: &mut KrbError,
    buffer: &mut [u8],
) -> Answer
    ensures { ReadsError error.now found.old found.new buffer.old buffer.new result }
{
    match KrbErrorRef::parse(error) {
        Ok(read) => match read.to_owned(alloc) {
            Ok(message) => hand_over_with(told(alloc, message), found, buffer),
            Err(_) => Answer::plain(code::OUT_OF_MEMORY),
        },
        Err(fault) => Answer::placed(code::ERROR_MALFORMED, fault.at),
    }
}

// The bytes that are returned, and the place of each part.
fn told(alloc: Global, message: Message) -> Result<(Vec<u8>, KrbError), AllocError>
    ensures { IfOk result (λ made. (made.0.items ≡ error_bytes message) × (made.1 ≡ error_told message)) }
{
    let has_client = has_both(&message.crealm, &message.cname);
    let stime = Time {
        seconds: message.stime.get(),
        micros: message.susec.get(),
    };
    let ctime = client_time(message.ctime, message.cusec);
    let mut bytes = Vec::new(alloc);
    let name = message.service.to_text(alloc)?;
    let service = append(&mut bytes, name.as_bytes())?;
    let name = client_text(alloc, message.crealm, message.cname)?;
    let client = append(&mut bytes, name.as_bytes())?;
    let text = append(&mut bytes, text_bytes(&message.e_text))?;
    let data = append(&mut bytes, data_bytes(&message.e_data))?;
    let told = KrbError {
        service,
        client,
        text,
        data,
        stime,
        ctime,
        code: message.error_code,
        service_type: message.service.name_type,
        has_client,
        has_text: message.e_text.is_some(),
        has_data: message.e_data.is_some(),
        has_ctime: message.ctime.is_some(),
    };
    Ok((bytes, told))
}

fn has_both(realm: &Option<Bytes>, name: &Option<Name>) -> bool
    ensures { result ≡ has_both realm.now name.now }
{
    realm.is_some() && name.is_some()
}

fn client_time(seconds: Option<Seconds>, micros: Option<Microseconds>) -> Time
    ensures { result ≡ record { seconds = seconds_or_zero seconds; micros = number_or_zero micros } }
{
    Time {
        seconds: match seconds {
            Some(seconds) => seconds.get(),
            None => 0,
        },
        micros: match micros {
            Some(micros) => micros.get(),
            None => 0,
        },
    }
}

fn client_text(
    alloc: Global,
    realm: Option<Bytes>,
    name: Option<Name>,
) -> Result<String, AllocError>
    ensures { IfOk result (λ text. string_bytes text ≡ client_text realm name) }
{
    match (realm, name) {
        (Some(realm), Some(name)) => named(alloc, realm, name),
        _ => Ok(String::new(alloc)),
    }
}

fn named(alloc: Global, realm: Bytes, name: Name) -> Result<String, AllocError>
    ensures { IfOk result (λ text. string_bytes text ≡ client_text (Some realm) (Some name)) }
{
    let Name {
        name_type,
        components,
    } = name;
    let client = Principal {
        realm,
        name_type,
        components,
    };
    client.to_text(alloc)
}

fn text_bytes(text: &Option<Bytes>) -> &[u8]
    ensures { result.now ≡ bytes_or_none text.now }
{
    match text {
        Some(bytes) => bytes.as_slice(),
        None => &[],
    }
}

fn data_bytes(content: &Option<Vec<u8>>) -> &[u8]
    ensures { result.now ≡ bytes_or_none (option_map (λ x. x.items) content.now) }
{
    match content {
        Some(bytes) => bytes.as_slice(),
        None => &[],
    }
}
