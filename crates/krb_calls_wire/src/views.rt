// Made from crates/krb_msg/messages.toml by tools/generate. Don't edit this file.
//! Messages as they are read: each field, in the order of the standard's table.

use crate::field_words::{
    show_key, show_key_or_none, show_list_or_none, show_name, show_name_or_none,
    show_octets_or_none, show_typed, show_typed_or_none,
};
use krb_msg::{
    ApRepRef, ApReqRef, AuthenticatorRef, EncApRepRef, EncTicketRef, EncryptedRef, KrbErrorRef,
    Microseconds, Seconds, TicketRef,
};
use krb_words::Answer;

pub(crate) fn show_encrypted(view: &EncryptedRef, out: &mut Answer) -> Option<()> {
    out.shown(view.etype);
    out.shown_or_none(view.kvno);
    out.bytes(view.cipher)
}

pub(crate) fn show_ticket(view: &TicketRef, out: &mut Answer) -> Option<()> {
    out.bytes(view.realm);
    show_name(&view.sname, out);
    show_encrypted(&view.enc_part, out)
}

pub(crate) fn show_authenticator(view: &AuthenticatorRef, out: &mut Answer) -> Option<()> {
    out.bytes(view.crealm);
    show_name(&view.cname, out);
    show_typed_or_none(view.checksum, out);
    out.shown(view.cusec.get());
    out.shown(view.ctime.get());
    show_key_or_none(view.subkey, out);
    out.shown_or_none(view.seq_number);
    show_list_or_none(&view.authorization, out)
}

pub(crate) fn show_enc_ticket(view: &EncTicketRef, out: &mut Answer) -> Option<()> {
    out.shown(view.flags.bits());
    show_key(view.key, out);
    out.bytes(view.crealm);
    show_name(&view.cname, out);
    show_typed(view.transited, out);
    out.shown(view.authtime.get());
    out.shown_or_none(view.starttime.map(Seconds::get));
    out.shown(view.endtime.get());
    out.shown_or_none(view.renew_till.map(Seconds::get));
    show_list_or_none(&view.caddr, out);
    show_list_or_none(&view.authorization, out)
}

pub(crate) fn show_ap_req(view: &ApReqRef, out: &mut Answer) -> Option<()> {
    out.shown(view.options.bits());
    show_ticket(&view.ticket, out);
    show_encrypted(&view.authenticator, out)
}

pub(crate) fn show_ap_rep(view: &ApRepRef, out: &mut Answer) -> Option<()> {
    show_encrypted(&view.enc_part, out)
}

pub(crate) fn show_enc_ap_rep(view: &EncApRepRef, out: &mut Answer) -> Option<()> {
    out.shown(view.ctime.get());
    out.shown(view.cusec.get());
    show_key_or_none(view.subkey, out);
    out.shown_or_none(view.seq_number)
}

pub(crate) fn show_krb_error(view: &KrbErrorRef, out: &mut Answer) -> Option<()> {
    out.shown_or_none(view.ctime.map(Seconds::get));
    out.shown_or_none(view.cusec.map(Microseconds::get));
    out.shown(view.stime.get());
    out.shown(view.susec.get());
    out.shown(view.error_code);
    show_octets_or_none(view.crealm, out);
    show_name_or_none(&view.cname, out);
    out.bytes(view.realm);
    show_name(&view.sname, out);
    show_octets_or_none(view.e_text, out);
    show_octets_or_none(view.e_data, out)
}
