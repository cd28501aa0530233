//! The context of an accepted request and its reply.

ghost use Rattle.std.specs.Prelude.{◌≡◌, None, IfOk, OnErr, if◌then◌else◌};
ghost use Rattle.std.specs.Option.{MatchOption};
ghost use Rattle.krb_talk.specs.Agreeing.{HasOtherKey, IsContextOf, IsSubkey, agreed_by, number_or_0};

use krb_ap::{Accepted, ReplyOptions};
use krb_context::{Agreed, Context, Options, Role};
use krb_enc::{Key, KeyFault};
use krb_msg::RawKey;

/// Makes the service's side of the context. There is none if the client's subkey isn't of type 19 or 20.
#[inline(never)]
pub(crate) fn context_of(
    accepted: &Accepted,
    choice: &ReplyOptions,
    options: Options,
) -> Option<Context>
    ensures { MatchOption result (HasOtherKey accepted.now.subkey) (IsContextOf accepted.now choice.now options) }
{
    match subkey_of(&accepted.subkey) {
        Ok(subkey) => {
            let agreed = agreed_by(accepted, choice, subkey);
            Some(Context::new(Role::Acceptor, &agreed, options))
        }
        Err(_) => None,
    }
}

/// The client's subkey.
fn subkey_of(raw: &Option<RawKey>) -> Result<Option<Key>, KeyFault>
    ensures found { IfOk result (IsSubkey raw.now) }
    ensures other { OnErr result (HasOtherKey raw.now) }
{
    match raw {
        None => Ok(None),
        Some(raw) => match Key::new(raw.etype, raw.bytes.as_slice()) {
            Ok(key) => Ok(Some(key)),
            Err(fault) => Err(fault),
        },
    }
}

/// What both sides know.
fn agreed_by(accepted: &Accepted, choice: &ReplyOptions, subkey: Option<Key>) -> Agreed
    ensures { result ≡ agreed_by accepted.now choice.now subkey }
{
    let (acceptor_subkey, acceptor_number) = of_reply(accepted, choice);
    Agreed {
        session_key: accepted.session_key.copy(),
        initiator_subkey: subkey,
        acceptor_subkey,
        initiator_number: accepted.seq.unwrap_or(0),
        acceptor_number,
    }
}

/// The service's subkey, and its first number.
fn of_reply(accepted: &Accepted, choice: &ReplyOptions) -> (Option<Key>, u32)
    ensures key { result.0 ≡ (if accepted.now.mutual then choice.now.subkey else None) }
    ensures number { result.1 ≡ (if accepted.now.mutual then number_or_0 choice.now.seq else number_or_0 accepted.now.seq) }
{
    if accepted.mutual {
        (copied(&choice.subkey), choice.seq.unwrap_or(0))
    } else {
        (None, accepted.seq.unwrap_or(0))
    }
}

fn copied(key: &Option<Key>) -> Option<Key>
    ensures { result ≡ key.now }
{
    match key {
        Some(key) => Some(key.copy()),
        None => None,
    }
}

/// A copy of what a service chooses for a reply.
pub(crate) fn choice_again(choice: &ReplyOptions) -> ReplyOptions
    ensures { result ≡ choice.now }
{
    ReplyOptions {
        subkey: copied(&choice.subkey),
        seq: choice.seq,
    }
}
