//! The bits of flags that the exchange uses, by their numbers, as `Flags::has` and `Flags::only`
//! take them.

/// Of `ap-options` (RFC 4120, section 5.5.1): the ticket is sealed with the session key of another
/// ticket.
pub const USE_SESSION_KEY: u32 = 1;

/// Of `ap-options` (RFC 4120, section 5.5.1): the client asks for a reply.
pub const MUTUAL_REQUIRED: u32 = 2;

/// Of a ticket's flags (RFC 4120, section 5.3): the ticket isn't valid until it is validated.
pub const INVALID: u32 = 7;

/// Of a ticket's flags (RFC 4120, section 5.3): the realms on the path of the client's
/// authentication were checked.
pub const TRANSITED_POLICY_CHECKED: u32 = 12;
