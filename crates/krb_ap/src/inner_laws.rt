//! Laws of the layers below, for the proofs of this crate.

ghost use Rattle.krb_ap.specs.Inner.Decisions.{Decisions};
ghost use Rattle.krb_ap.specs.Inner.Facts.{Facts, WritingFacts};

/// Does nothing: its contract is what is known of messages, keys and choices.
pub(crate) fn facts()
    ensures { Facts }
{
    krb_msg::laws::one_value();
    krb_enc::laws::one_plain_text();
    krb_keytab::laws::each_choice_is_one();
}

/// Does nothing: its contract is what is decided of messages, flags, keys and choices.
pub(crate) fn decisions()
    ensures { Decisions }
{
    krb_msg::laws::decided();
    krb_msg::laws::faulty();
    krb_der::laws::bit_decided();
    krb_enc::laws::usable_is_decided();
    krb_enc::laws::opening_is_decided();
    krb_keytab::laws::a_choice_exists();
}

/// Does nothing: its contract is what is known of what is written.
pub(crate) fn writing()
    ensures { WritingFacts }
{
    krb_der::laws::written();
}
