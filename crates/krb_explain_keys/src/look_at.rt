// Made from crates/krb_ap/causes.toml by `make generate`. Don't edit this file.

//! What a person who runs a service may look at, for each cause.

ghost use Rattle.std.specs.Prelude.{◌≡◌, map};
ghost use Rattle.std.specs.Option.{option_map};
ghost use Rattle.krb_explain_keys.specs.LookAt.{look_at, look_in};
ghost use Rattle.krb_explain_keys.specs.Inner.Looks.{look_of};

// The place of a cause in the order, and what to look at.
struct Look(u32, &'static str);

static LOOKS: [Look; 18] = [
    Look(
        100,
        "whether the client speaks another protocol, or wraps the request (GSS-API, SPNEGO: open the token first)",
    ),
    Look(
        200,
        "whether the message was cut off, or something was sent after it",
    ),
    Look(
        300,
        "the client asks for user-to-user authentication, which isn't supported",
    ),
    Look(
        400,
        "the service's keys at the KDC: it needs keys of type 19 or 20 alone; if it is in use, change its keys",
    ),
    Look(
        500,
        "the service's name as the client asks for it, with host name and realm; `krbtool list-keytab`",
    ),
    Look(600, "the types in the keytab"),
    Look(
        700,
        "the key was changed at the KDC: add the new key to the keytab, and have the service read it; or the client's ticket is old",
    ),
    Look(
        800,
        "the keytab's key isn't the KDC's of that version number; of two entries of one name, type and number the first is used",
    ),
    Look(900, "the type of session keys that the KDC makes"),
    Look(
        1000,
        "what the client sent: `krbtool explain` shows the request; then the client's library and its version",
    ),
    Look(
        1100,
        "what the client sent: `krbtool explain` shows the request; then the client's library and its version",
    ),
    Look(1200, "the clocks of both machines"),
    Look(
        1250,
        "nothing: clients that try again after the pause succeed (see below)",
    ),
    Look(
        1300,
        "a message sent twice; two processes of one user in the same microsecond; or an attack",
    ),
    Look(1400, "the clocks; a postdated ticket that wasn't validated"),
    Look(1500, "the client's tickets"),
    Look(1600, "the KDC's check of transited realms"),
    Look(1700, "what the KDC or the client puts there"),
];

/// Returns what to look at for the cause of this place, if there is one.
#[tactic(auto, unfolding(crate::specs::LookAt::look_at))]
pub(crate) fn look_at(place: u32) -> Option<&'static str>
    ensures { option_map (λ x. x.now) result ≡ look_at place }
{
    look_in(&LOOKS, place)
}

fn look_in(looks: &[Look], place: u32) -> Option<&'static str>
    ensures { option_map (λ x. x.now) result ≡ look_in (map look_of looks.now) place }
{
    for look in looks {
        if look.0 == place {
            return Some(look.1);
        }
    }
    None
}
