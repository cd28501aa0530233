//! Examples of keys, messages and tokens.

use anyhow::Result;
use krb_gss::{Opened, open_token};
use krb_msg::{ApReqRef, Authenticator, MUTUAL_REQUIRED, Moment};
use krb_name::Principal;
use krb_time::{Microseconds, Seconds};
use krb_words::{Answer, Words};
use std::alloc::Global;
use std::fmt::Write;

/// Makes a message's code and keys.
pub fn derive(header: &[u8], body: &[u8], base_key: [u8; 16], long_base_key: [u8; 32]) {
    use krb_kdf::{
        HmacSha256, MacPurpose, Purpose, derive_19, derive_20, derive_20_ke, hmac_sha256,
    };

    // The text may come in parts, as `header` and `body` of one message.
    let code: [u8; 32] = hmac_sha256(b"key", &[header, body]);

    // The keys of key usage 2, which seals tickets.
    let ke: [u8; 16] = derive_19(&base_key, 2, Purpose::Ke);
    let ki: [u8; 16] = derive_19(&base_key, 2, Purpose::Ki);
    let ke: [u8; 32] = derive_20_ke(&long_base_key, 2);
    let ki: [u8; 24] = derive_20(&long_base_key, 2, MacPurpose::Ki);

    // A key made ready once gives many codes, or many keys, for half the work.
    let ready = HmacSha256::new(&base_key);
    let ke: [u8; 16] = ready.derive_19(2, Purpose::Ke);
}

/// Returns the microseconds of a moment a quarter of a second after a message's time.
pub fn a_quarter_after(text: &[u8]) -> Option<i64> {
    let second = Seconds::from_text(text)?;
    let moment = Moment::at(second, Microseconds::new(250_000)?);
    Some(moment.micros())
}

/// Prints the service of a request, and writes an authenticator.
pub fn read_and_write(
    rt: &HostRuntime,
    alloc: Global,
    bytes: &[u8],
    client: Principal,
    now: Moment,
) -> Result<(bool, Vec<u8>)> {
    let request = ApReqRef::parse(bytes)?;
    let is_mutual = request.options.has(MUTUAL_REQUIRED);
    for component in request.ticket.sname.components.iter() {
        println!(rt; "{component:?}")?;
    }

    let (ctime, cusec) = now.parts();
    let authenticator = Authenticator {
        client,
        checksum: None,
        cusec,
        ctime,
        subkey: None,
        seq_number: None,
        authorization: None,
    };
    let plain = authenticator.encode(alloc)?;
    Ok((is_mutual, plain))
}

/// Shows what a token holds.
pub fn show_token(alloc: Global, bytes: &[u8], text: &mut String) -> Option<()> {
    match open_token(bytes) {
        Ok(opened) => show_opened(alloc, opened, text),
        Err(fault) => write!(text, "refused {fault}").ok(),
    }
}

fn show_opened(_alloc: Global, opened: Opened, text: &mut String) -> Option<()> {
    write!(text, "a request of {} bytes", opened.request.len()).ok()
}

/// Answers a line.
pub fn answer_line(alloc: Global, line: &str, answer: &mut Answer) -> Option<()> {
    let mut words = Words::new(alloc, line);
    match words.next()? {
        "code" => answer.bytes(&code_of(&words.bytes()?)),
        _ => None,
    }
}

fn code_of(bytes: &[u8]) -> [u8; 32] {
    krb_kdf::hmac_sha256(b"key", &[bytes])
}
