//! The fields of messages: how each kind is shown.

use krb_msg::{KeyRef, NameRef, TypedListRef, TypedRef};
use krb_words::Answer;

/// Shows the type and the list of the components.
pub(crate) fn show_name(view: &NameRef, out: &mut Answer) -> Option<()> {
    out.shown(view.name_type);
    out.word("[");
    for component in view.components.iter() {
        out.bytes(component);
    }
    out.word("]")
}

pub(crate) fn show_name_or_none(view: &Option<NameRef>, out: &mut Answer) -> Option<()> {
    match view {
        Some(view) => show_name(view, out),
        None => out.word("none"),
    }
}

pub(crate) fn show_octets_or_none(octets: Option<&[u8]>, out: &mut Answer) -> Option<()> {
    match octets {
        Some(octets) => out.bytes(octets),
        None => out.word("none"),
    }
}

pub(crate) fn show_key(view: KeyRef, out: &mut Answer) -> Option<()> {
    out.shown(view.etype);
    out.bytes(view.bytes)
}

pub(crate) fn show_key_or_none(view: Option<KeyRef>, out: &mut Answer) -> Option<()> {
    match view {
        Some(view) => show_key(view, out),
        None => out.word("none"),
    }
}

pub(crate) fn show_typed(view: TypedRef, out: &mut Answer) -> Option<()> {
    out.shown(view.kind);
    out.bytes(view.bytes)
}

pub(crate) fn show_typed_or_none(view: Option<TypedRef>, out: &mut Answer) -> Option<()> {
    match view {
        Some(view) => show_typed(view, out),
        None => out.word("none"),
    }
}

pub(crate) fn show_list_or_none(view: &Option<TypedListRef>, out: &mut Answer) -> Option<()> {
    match view {
        Some(elements) => {
            out.word("[");
            for element in elements.iter() {
                show_typed(element, out);
            }
            out.word("]")
        }
        None => out.word("none"),
    }
}
