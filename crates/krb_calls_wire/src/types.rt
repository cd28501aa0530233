// Made from crates/krb_msg/messages.toml by tools/generate. Don't edit this file.
//! Each type of message: read, shown, copied and written.

use crate::sealing::show;
use crate::views::{
    show_ap_rep, show_ap_req, show_authenticator, show_enc_ap_rep, show_enc_ticket, show_krb_error,
    show_ticket,
};
use krb_msg::{
    ApRepRef, ApReqRef, AuthenticatorRef, EncApRepRef, EncTicketRef, KrbErrorRef, TicketRef,
};
use krb_words::Answer;
use std::alloc::Global;

/// Shows the fields of a message of this type and the bytes of a copy, or the fault.
pub(crate) fn parse(of: &str, bytes: &[u8], alloc: Global, out: &mut Answer) -> Option<()> {
    match of {
        "ticket" => ticket(bytes, alloc, out),
        "authenticator" => authenticator(bytes, alloc, out),
        "enc-ticket" => enc_ticket(bytes, alloc, out),
        "ap-req" => ap_req(bytes, alloc, out),
        "ap-rep" => ap_rep(bytes, alloc, out),
        "enc-ap-rep" => enc_ap_rep(bytes, alloc, out),
        "krb-error" => krb_error(bytes, alloc, out),
        _ => None,
    }
}

fn ticket(bytes: &[u8], alloc: Global, out: &mut Answer) -> Option<()> {
    match TicketRef::parse(bytes) {
        Ok(view) => {
            show_ticket(&view, out);
            show(view.to_owned(alloc).ok()?.encode(alloc), out)
        }
        Err(fault) => out.shown(fault),
    }
}

fn authenticator(bytes: &[u8], alloc: Global, out: &mut Answer) -> Option<()> {
    match AuthenticatorRef::parse(bytes) {
        Ok(view) => {
            show_authenticator(&view, out);
            show(view.to_owned(alloc).ok()?.encode(alloc), out)
        }
        Err(fault) => out.shown(fault),
    }
}

fn enc_ticket(bytes: &[u8], alloc: Global, out: &mut Answer) -> Option<()> {
    match EncTicketRef::parse(bytes) {
        Ok(view) => {
            show_enc_ticket(&view, out);
            show(view.to_owned(alloc).ok()?.encode(alloc), out)
        }
        Err(fault) => out.shown(fault),
    }
}

fn ap_req(bytes: &[u8], alloc: Global, out: &mut Answer) -> Option<()> {
    match ApReqRef::parse(bytes) {
        Ok(view) => {
            show_ap_req(&view, out);
            show(view.to_owned(alloc).ok()?.encode(alloc), out)
        }
        Err(fault) => out.shown(fault),
    }
}

fn ap_rep(bytes: &[u8], alloc: Global, out: &mut Answer) -> Option<()> {
    match ApRepRef::parse(bytes) {
        Ok(view) => {
            show_ap_rep(&view, out);
            show(view.to_owned(alloc).ok()?.encode(alloc), out)
        }
        Err(fault) => out.shown(fault),
    }
}

fn enc_ap_rep(bytes: &[u8], alloc: Global, out: &mut Answer) -> Option<()> {
    match EncApRepRef::parse(bytes) {
        Ok(view) => {
            show_enc_ap_rep(&view, out);
            show(view.to_owned(alloc).ok()?.encode(alloc), out)
        }
        Err(fault) => out.shown(fault),
    }
}

fn krb_error(bytes: &[u8], alloc: Global, out: &mut Answer) -> Option<()> {
    match KrbErrorRef::parse(bytes) {
        Ok(view) => {
            show_krb_error(&view, out);
            show(view.to_owned(alloc).ok()?.encode(alloc), out)
        }
        Err(fault) => out.shown(fault),
    }
}
