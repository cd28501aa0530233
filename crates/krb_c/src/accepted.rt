//! An accepted request.

ghost use Rattle.std.specs.Prelude.{None, Some, ◌≡◌, ◌⊎◌};
ghost use Rattle.krb_c.specs.Service.{nothing_kept};
ghost use Rattle.krb_c.specs.Answer.{plain};
ghost use Rattle.krb_c.specs.Codes.{empty_handle, ok, out_of_memory};
ghost use Rattle.std.specs.Option.{MatchOption};
ghost use Rattle.krb_c.specs.Known.{TellsKnown};
ghost use Rattle.krb_c.specs.Items.{Counts, TellsItem};
ghost use Rattle.krb_c.specs.Choice.{TellsReply};
ghost use Rattle.krb_c.specs.Messages.{CountsSent};

use crate::accepted_state::AcceptedState;
use crate::code;
use crate::handle::{empty, put, with_held};
use crate::handles::AcceptedHandle;
use crate::list::{count, hand_item};
use crate::structs::{Answer, Choice, Known};
use std::alloc::Global;

/// Makes a handle in which `fevstunik_acceptor_accept` keeps what it accepts. Nothing is kept in it
/// yet. What the handle held is freed. If memory runs out, the handle is unchanged.
#[unsafe(no_mangle)]
pub extern "C" fn fevstunik_accepted_new(accepted: &mut AcceptedHandle, alloc: Global) -> Answer
    ensures { ((result ≡ plain ok) × (accepted.new.value ≡ Some nothing_kept)) ⊎ ((result ≡ plain out_of_memory) × (accepted.new.value ≡ accepted.old.value)) }
{
    match Box::new(alloc, AcceptedState::nothing()) {
        Ok(kept) => {
            put(accepted, kept);
            Answer::plain(code::OK)
        }
        Err(_) => Answer::plain(code::OUT_OF_MEMORY),
    }
}

/// Reads what was accepted. Writes the client's text, the session key, the client's subkey and the
/// text of the service that was asked for to the buffer, and their places and the numbers to
/// `known`. The places are written even if the buffer is too short.
#[unsafe(no_mangle)]
pub extern "C" fn fevstunik_accepted_known(
    accepted: &mut AcceptedHandle,
    alloc: Global,
    known: &mut Known,
    buffer: &mut [u8],
) -> Answer
    ensures told { MatchOption accepted.old.value ((result ≡ plain empty_handle) × ((known.new ≡ known.old) × (buffer.new ≡ buffer.old)))
        (λ kept. TellsKnown kept.accepted known.old known.new buffer.old buffer.new result) }
    ensures stays { accepted.new.value ≡ accepted.old.value }
{
    with_held!(accepted, alloc, kept => kept.tell(alloc, known, buffer))
}

/// Counts the items of a list of what was accepted: 1 the ticket's addresses, 2 the ticket's
/// authorization data, 3 the authenticator's, 4 the authenticator's checksum, 5 the realms that the
/// ticket passed through, as it encodes them.
#[unsafe(no_mangle)]
pub extern "C" fn fevstunik_accepted_count(
    accepted: &mut AcceptedHandle,
    alloc: Global,
    list: u32,
) -> Answer
    ensures count { MatchOption accepted.old.value (result ≡ plain empty_handle) (λ kept. Counts kept.accepted list result) }
    ensures stays { accepted.new.value ≡ accepted.old.value }
{
    with_held!(accepted, alloc, kept => count(&kept.accepted, list))
}

/// Reads one item of a list of what was accepted; `index` counts from 0. Writes its type to `kind`,
/// and its bytes to the buffer.
#[unsafe(no_mangle)]
pub extern "C" fn fevstunik_accepted_item(
    accepted: &mut AcceptedHandle,
    alloc: Global,
    list: u32,
    index: usize,
    kind: &mut i32,
    buffer: &mut [u8],
) -> Answer
    ensures item { MatchOption accepted.old.value ((result ≡ plain empty_handle) × ((kind.new ≡ kind.old) × (buffer.new ≡ buffer.old)))
        (λ kept. TellsItem kept.accepted list index kind.old kind.new buffer.old buffer.new result) }
    ensures stays { accepted.new.value ≡ accepted.old.value }
{
    with_held!(accepted, alloc, kept => hand_item(&kept.accepted, list, index, kind, buffer))
}

/// Builds the reply to what was accepted. The confounder is 16 random bytes, new for each call.
#[unsafe(no_mangle)]
pub extern "C" fn fevstunik_accepted_reply(
    accepted: &mut AcceptedHandle,
    alloc: Global,
    confounder: &[u8],
    choice: &Choice,
    subkey: &[u8],
    buffer: &mut [u8],
) -> Answer
    ensures reply { MatchOption accepted.old.value ((result ≡ plain empty_handle) × (buffer.new ≡ buffer.old))
        (λ kept. TellsReply kept.accepted confounder.now choice.now subkey.now buffer.old buffer.new result) }
    ensures stays { accepted.new.value ≡ accepted.old.value }
{
    with_held!(accepted, alloc, kept => kept.reply(alloc, confounder, choice, subkey, buffer))
}

/// Counts the messages that each side has sent in the login itself: 1 if the client's list of mechanisms
/// was checked, since each side has sent its MIC, and otherwise 0.
#[unsafe(no_mangle)]
pub extern "C" fn fevstunik_accepted_sent(accepted: &mut AcceptedHandle, alloc: Global) -> Answer
    ensures sent { MatchOption accepted.old.value (result ≡ plain empty_handle) (λ kept. CountsSent kept result) }
    ensures stays { accepted.new.value ≡ accepted.old.value }
{
    with_held!(accepted, alloc, kept => kept.count_sent())
}

/// Frees what the handle holds. The handle is empty then.
#[unsafe(no_mangle)]
pub extern "C" fn fevstunik_accepted_free(accepted: &mut AcceptedHandle, alloc: Global)
    ensures { accepted.new.value ≡ None }
{
    *accepted = empty(alloc);
}
