//! The engine of `finish`, and the words that it reads.

ghost use Rattle.std.specs.Prelude.{◌%◌, length, ◌≡◌, ◌≢◌, ℕ, List, Ok, IfOk, IfErr, IfSome, IsErrOf, string_bytes};
ghost use Rattle.hex.specs.Hex.{decode_of};
ghost use Rattle.krb_ccache.specs.Format.{IsCache};
ghost use Rattle.krb_ap.specs.Request.{HasGoodTicket};
ghost use Rattle.krb_ap.specs.declared.request.RequestFault.TheVariants.{OutOfMemory};
ghost use Rattle.krb_ap.specs.declared.finish.FinishFault.TheVariants.{OutOfMemory as Unread};
ghost use Rattle.krb_file_commands.specs.Engine.{OfFile};
ghost use Rattle.krb_client_commands.specs.Finishing.{AllowsUnfinished, IsAgreedLine, IsAgreement, IsPending, IsReadable, IsRefusedReply, IsUnasked, IsUnfinished, agreed_line, seq_text, subkey_text};
ghost use Rattle.krb_client_commands.specs.Status.{client_reads};

use crate::fault::ClientFault;
use hex::FromHexError;
use krb_ap::laws::{agreed_or_refused, built_or_prevented};
use krb_ap::{Agreed, FinishFault, Pending, RequestFault, RequestOptions, make_request};
use krb_ccache::CCache;
use krb_file::Source;
use krb_file_commands::Product;
use krb_msg::{Moment, RawKey};
use krb_name::Principal;
use std::alloc::{AllocError, Global};

// The request was sent with a confounder of its own, on which nothing of the reply depends.
const NO_CONFOUNDER: [u8; 16] = [0; 16];

/// Reads the bytes of a reply: hexadecimal digits of either case, two for each byte. `None` for any other text.
///
/// # Errors
/// `AllocError`: there was no room for the bytes.
pub fn read_reply(alloc: Global, text: &str) -> Result<Option<Vec<u8>>, AllocError>
    ensures found { IfOk result (λ reply. IfSome reply (λ bytes. decode_of text.now ≡ Ok bytes.items)) }
    ensures none { result ≡ Ok None → (bytes : List ℕ) → decode_of text.now ≡ Ok bytes → ⊥ }
    // Out of memory is never reported for a text of odd length.
    ensures odd { length text.now % 2 ≡ 1 → result ≡ Ok None }
{
    match hex::decode(alloc, text.as_bytes()) {
        Ok(bytes) => Ok(Some(bytes)),
        Err(fault) => match fault {
            FromHexError::OutOfMemory => Err(AllocError),
            _ => Ok(None),
        },
    }
}

/// The reply to a request, and which request it answers: the one that is made at the moment `at`.
///
/// `finish` reads the reply, as `Pending::finish` does, and makes a line of what client and service agree on: `agreed`, the client,
/// and the encryption type of the session key; then ` seq` and the service's first sequence number, and ` subkey` and the encryption
/// type of the service's key, if the reply has them.
#[derive(Drop)]
pub struct Replied {
    /// The service that the request is for.
    pub service: Principal,
    /// The request's moment.
    pub at: Moment,
    /// The reply's bytes.
    pub reply: Vec<u8>,
}

impl Product for Replied {
    type Fault = ClientFault;

    ghost makes = { λ replied from line. OfFile IsCache from (λ cache. IsAgreedLine cache replied line) };

    ghost faults = { IsUnfinished };

    ghost allows = { AllowsUnfinished };

    ghost failed_reads = { client_reads };

    fn make<S: Source>(&self, alloc: Global, source: &mut S) -> Result<Vec<u8>, ClientFault> {
        krb_ccache::laws::each_file_has_one_answer();
        built_or_prevented();
        agreed_or_refused();
        let cache = CCache::read(alloc, source)?;
        let answer = answer_of(alloc, &cache, &self.service, self.at, &self.reply)?;
        let agreed = answer?;
        let line = agreed_line(alloc, &agreed)?;
        Ok(line.into_bytes())
    }
}

// What the reply gives to the client that sent the request.
fn answer_of(
    alloc: Global,
    cache: &CCache,
    service: &Principal,
    at: Moment,
    reply: &[u8],
) -> Result<Result<Agreed, FinishFault>, RequestFault>
    ensures agreed { IfOk result (λ answer. IfOk answer (IsAgreement cache.now service.now at reply.now)) }
    ensures refused { IfOk result (λ answer. IfErr answer (λ fault. fault ≢ Unread → IsRefusedReply cache.now service.now at reply.now fault)) }
    ensures fault { IfErr result (λ fault. fault ≢ OutOfMemory → IsUnasked cache.now service.now at fault) }
    ensures memory { IsErrOf result OutOfMemory → HasGoodTicket cache.now service.now at }
    ensures unread_reply { IfOk result (λ answer. IsErrOf answer Unread → IsReadable cache.now service.now at reply.now) }
{
    let pending = pending_of(alloc, cache, service, at)?;
    Ok(pending.finish(alloc, reply))
}

// What the client kept of its request.
fn pending_of(
    alloc: Global,
    cache: &CCache,
    service: &Principal,
    at: Moment,
) -> Result<Pending, RequestFault>
    ensures pending { IfOk result (λ pending. IsPending cache.now service.now at pending) }
    ensures fault { IfErr result (λ fault. fault ≢ OutOfMemory → IsUnasked cache.now service.now at fault) }
    ensures memory { IsErrOf result OutOfMemory → HasGoodTicket cache.now service.now at }
{
    let options = RequestOptions {
        mutual: true,
        subkey: None,
        seq: None,
        context: None,
    };
    let (_, pending) = make_request(alloc, cache, service, at, &NO_CONFOUNDER, options)?;
    Ok(pending)
}

fn agreed_line(alloc: Global, agreed: &Agreed) -> Result<String, AllocError>
    ensures { IfOk result (λ line. string_bytes line ≡ agreed_line agreed.now) }
{
    let client = agreed.client.to_text(alloc)?;
    let etype = agreed.session_key.etype();
    let seq = seq_text(alloc, agreed.service_seq)?;
    let subkey = subkey_text(alloc, &agreed.service_subkey)?;
    format!(in alloc; "agreed {client} {etype}{seq}{subkey}\n")
}

fn seq_text(alloc: Global, seq: Option<u32>) -> Result<String, AllocError>
    ensures { IfOk result (λ text. string_bytes text ≡ seq_text seq) }
{
    match seq {
        Some(number) => format!(in alloc; " seq {number}"),
        None => Ok(String::new(alloc)),
    }
}

fn subkey_text(alloc: Global, subkey: &Option<RawKey>) -> Result<String, AllocError>
    ensures { IfOk result (λ text. string_bytes text ≡ subkey_text subkey.now) }
{
    match subkey {
        Some(key) => {
            let etype = key.etype;
            format!(in alloc; " subkey {etype}")
        }
        None => Ok(String::new(alloc)),
    }
}
