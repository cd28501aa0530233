//! The engine of `request`, and the words that it reads.

ghost use Rattle.std.specs.Prelude.{◌≡◌, ◌≢◌, ◌<◌, ◌≤◌, ℕ, List, None, length, IfOk, IfErr, IfSome, IsErrOf, OnOk, string_bytes};
ghost use Rattle.krb_ccache.specs.Format.{IsCache};
ghost use Rattle.krb_der.specs.Spells.{limit};
ghost use Rattle.krb_gss.specs.Wrapping.{request_size};
ghost use Rattle.krb_gss.specs.declared.opening.Wrapping.{Wrapping};
ghost use Rattle.krb_ap.specs.Request.{HasGoodTicket};
ghost use Rattle.krb_ap.specs.declared.request.RequestFault.TheVariants.{OutOfMemory};
ghost use Rattle.krb_call_lines.specs.CallLine.{SpellsConfounder};
ghost use Rattle.krb_file_commands.specs.Engine.{OfFile};
ghost use Rattle.krb_client_commands.specs.Requesting.{AllowsUnrequested, IsAskedFor, IsRequested, IsRequestLine, IsTokenOf, IsTokenTooLong, IsTokenWord, IsUnprinted, IsUnrequested, PreventsAsked, chosen_options, plain_context, request_line};
ghost use Rattle.krb_client_commands.specs.Status.{client_reads};

use crate::fault::ClientFault;
use krb_ap::laws::built_or_prevented;
use krb_ap::{ContextRequest, RequestFault, RequestOptions, make_request};
use krb_call_lines::confounder_of;
use krb_ccache::CCache;
use krb_file::Source;
use krb_file_commands::Product;
use krb_gss::{Mechanism, WrapFault, Wrapping, wrap_request};
use krb_msg::Moment;
use krb_name::Principal;
use std::alloc::{AllocError, Global};

/// Reads a confounder: 16 bytes in hexadecimal. `None` unless there are 32 digits, of either case, and nothing else.
pub fn read_confounder(text: &str) -> Option<[u8; 16]>
    ensures found { IfSome result (λ confounder. SpellsConfounder text.now confounder) }
    ensures none { result ≡ None → (confounder : List ℕ) → SpellsConfounder text.now confounder → ⊥ }
{
    confounder_of(text.as_bytes())
}

/// Reads the word for the kind of token that holds a request: `gss` for a token of Kerberos alone, `spnego` for one in a negotiation that
/// names Kerberos. `None` for any other word.
pub fn read_wrapping(word: &str) -> Option<Wrapping>
    ensures found { IfSome result (IsTokenWord word.now) }
    ensures none { result ≡ None → (wrapping : Wrapping) → IsTokenWord word.now wrapping → ⊥ }
{
    match word {
        "gss" => Some(Wrapping::Bare),
        "spnego" => Some(Wrapping::Negotiated(Mechanism::Kerberos)),
        _ => None,
    }
}

/// What is asked of a credential cache.
///
/// `request` makes a request with the cache, as `make_request` does, or the token that holds it, as a line of lower-case hexadecimal
/// digits. The request has no subkey. In a token it has the sequence number 0 and the checksum that GSS-API asks for (RFC 4121, section
/// 4.1.1), with the flag of a reply if one is asked for; otherwise it has neither. The token is that of `wrap_request`, and gives
/// Kerberos its own name.
#[derive(Drop)]
pub struct Asked {
    /// The service that the request is for.
    pub service: Principal,
    /// The client's clock.
    pub at: Moment,
    /// 16 random bytes, new for each request.
    pub confounder: [u8; 16],
    /// Whether the service is asked for a reply.
    pub wants_reply: bool,
    /// What the token that holds the request stands in; `None` for the request without a token.
    pub wrapping: Option<Wrapping>,
}

impl Product for Asked {
    type Fault = ClientFault;

    ghost makes = { λ asked from line. OfFile IsCache from (λ cache. IsRequestLine cache asked line) };

    ghost faults = { IsUnrequested };

    ghost allows = { AllowsUnrequested };

    ghost failed_reads = { client_reads };

    fn make<S: Source>(&self, alloc: Global, source: &mut S) -> Result<Vec<u8>, ClientFault> {
        krb_ccache::laws::each_file_has_one_answer();
        built_or_prevented();
        let cache = CCache::read(alloc, source)?;
        let bytes = printed_bytes(alloc, &cache, self)?;
        let line = line_of(alloc, &bytes)?;
        Ok(line.into_bytes())
    }
}

// The bytes that are printed: the request, or the token that holds it.
fn printed_bytes(alloc: Global, cache: &CCache, asked: &Asked) -> Result<Vec<u8>, RequestFault>
    ensures bytes { IfOk result (λ bytes. IsAskedFor cache.now asked.now bytes.items) }
    ensures fits { OnOk result (IsTokenTooLong cache.now asked.now → ⊥) }
    ensures fault { IfErr result (λ fault. fault ≢ OutOfMemory → IsUnprinted cache.now asked.now fault) }
    ensures memory { IsErrOf result OutOfMemory → HasGoodTicket cache.now asked.now.service asked.now.at }
{
    built_or_prevented();
    let request = requested(alloc, cache, asked)?;
    match asked.wrapping {
        Some(wrapping) => token_of(alloc, wrapping, &request),
        None => Ok(request),
    }
}

// The request's bytes.
fn requested(alloc: Global, cache: &CCache, asked: &Asked) -> Result<Vec<u8>, RequestFault>
    ensures request { IfOk result (λ bytes.
        IsRequested cache.now asked.now bytes.items) }
    ensures fault { IfErr result (λ fault. fault ≢ OutOfMemory → PreventsAsked cache.now asked.now fault) }
    ensures memory { IsErrOf result OutOfMemory → HasGoodTicket cache.now asked.now.service asked.now.at }
{
    let options = options_of(asked);
    let (bytes, _) = make_request(
        alloc,
        cache,
        &asked.service,
        asked.at,
        &asked.confounder,
        options,
    )?;
    Ok(bytes)
}

fn options_of(asked: &Asked) -> RequestOptions
    ensures { result ≡ chosen_options asked.now.wants_reply asked.now.wrapping }
{
    match asked.wrapping {
        Some(_) => RequestOptions {
            mutual: asked.wants_reply,
            subkey: None,
            seq: Some(0),
            context: Some(plain_context()),
        },
        None => RequestOptions {
            mutual: asked.wants_reply,
            subkey: None,
            seq: None,
            context: None,
        },
    }
}

// What the client of a token asks for.
fn plain_context() -> ContextRequest
    ensures { result ≡ plain_context }
{
    ContextRequest {
        flags: 0,
        bindings: [0; 16],
    }
}

// The token that holds the request.
fn token_of(alloc: Global, wrapping: Wrapping, request: &[u8]) -> Result<Vec<u8>, RequestFault>
    ensures token { IfOk result (λ token. IsTokenOf wrapping request.now token.items) }
    ensures fits { OnOk result (request_size wrapping (length request.now) ≤ limit) }
    ensures fault { IfErr result (λ fault. fault ≢ OutOfMemory
        → (fault ≡ RequestFault.TooLong) × (limit < request_size wrapping (length request.now))) }
{
    match wrap_request(alloc, wrapping, Mechanism::Kerberos, request) {
        Ok(token) => Ok(token),
        Err(fault) => match fault {
            WrapFault::TooLong => Err(RequestFault::TooLong),
            WrapFault::OutOfMemory => Err(RequestFault::OutOfMemory),
        },
    }
}

fn line_of(alloc: Global, bytes: &[u8]) -> Result<String, AllocError>
    ensures { IfOk result (λ line. string_bytes line ≡ request_line bytes.now) }
{
    let digits = hex::encode(alloc, bytes)?;
    format!(in alloc; "{digits}\n")
}
