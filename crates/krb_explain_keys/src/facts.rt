//! Laws of the layers below, for the proofs of this crate.

ghost use Rattle.krb_ap.specs.Inner.Facts.{Facts};

/// Does nothing: its contract is what is known of messages, keys and choices.
pub(crate) fn facts()
    ensures { Facts }
{
    krb_msg::laws::one_value();
    krb_enc::laws::one_plain_text();
    krb_keytab::laws::each_choice_is_one();
}
