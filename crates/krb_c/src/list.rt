//! The lists of an accepted request.

ghost use Rattle.krb_c.specs.Items.{Counts, TellsItem, item_of, list_of};
ghost use Rattle.std.specs.Prelude.{[], ◌∷◌, ◌≡◌};
ghost use Rattle.std.specs.Option.{option_copied, option_map};

use crate::answer::hand_over;
use crate::code;
use crate::structs::Answer;
use krb_ap::Accepted;
use krb_msg::Typed;
use std::slice::from_ref;

// The numbers of the lists. The header has them under the same names.
const ADDRESSES: u32 = 1;

const TICKET_AUTHORIZATION: u32 = 2;

const AUTHENTICATOR_AUTHORIZATION: u32 = 3;

const CHECKSUM: u32 = 4;

const TRANSITED: u32 = 5;

/// Counts the items of a list, if the request has it.
pub(crate) fn count(accepted: &Option<Accepted>, list: u32) -> Answer
    ensures { Counts accepted.now list result }
{
    match accepted {
        Some(accepted) => match list_of(accepted, list) {
            Some(items) => Answer::sized(code::OK, items.len()),
            None => Answer::plain(code::NO_SUCH_ENTRY),
        },
        None => Answer::plain(code::NOTHING_THERE),
    }
}

/// Returns the item of a list at an index: its type, and its bytes in the buffer.
pub(crate) fn hand_item(
    accepted: &Option<Accepted>,
    list: u32,
    index: usize,
    kind: &mut i32,
    buffer: &mut [u8],
) -> Answer
    ensures { TellsItem accepted.now list index kind.old kind.new buffer.old buffer.new result }
{
    match accepted {
        Some(accepted) => match item_of(accepted, list, index) {
            Some(item) => {
                *kind = item.kind;
                hand_over(item.bytes.as_slice(), buffer)
            }
            None => Answer::plain(code::NO_SUCH_ENTRY),
        },
        None => Answer::plain(code::NOTHING_THERE),
    }
}

fn item_of(accepted: &Accepted, list: u32, index: usize) -> Option<&Typed>
    ensures { option_copied result ≡ item_of (list_of list accepted.now) index }
{
    match list_of(accepted, list) {
        Some(items) => items.get(index),
        None => None,
    }
}

// The list that a number stands for, if the request has it.
fn list_of(accepted: &Accepted, list: u32) -> Option<&[Typed]>
    ensures { option_copied result ≡ list_of list accepted.now }
{
    match list {
        ADDRESSES => listed(&accepted.addresses),
        TICKET_AUTHORIZATION => listed(&accepted.ticket_authorization),
        AUTHENTICATOR_AUTHORIZATION => listed(&accepted.authenticator_authorization),
        CHECKSUM => single(&accepted.checksum),
        TRANSITED => Some(from_ref(&accepted.transited)),
        _ => None,
    }
}

fn listed(items: &Option<Vec<Typed>>) -> Option<&[Typed]>
    ensures { option_copied result ≡ option_map (λ l. l.items) items.now }
{
    match items {
        Some(items) => Some(items.as_slice()),
        None => None,
    }
}

fn single(item: &Option<Typed>) -> Option<&[Typed]>
    ensures { option_copied result ≡ option_map (λ c. c ∷ []) item.now }
{
    match item {
        Some(item) => Some(from_ref(item)),
        None => None,
    }
}
