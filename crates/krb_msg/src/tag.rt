//! The first bytes of messages: their application tags (RFC 4120, section 5.10).

/// Of a ticket.
pub const TICKET: u8 = 0x61;

/// Of an authenticator.
pub const AUTHENTICATOR: u8 = 0x62;

/// Of a ticket's sealed part.
pub const ENC_TICKET_PART: u8 = 0x63;

/// Of a request.
pub const AP_REQ: u8 = 0x6e;

/// Of a reply.
pub const AP_REP: u8 = 0x6f;

/// Of a reply's sealed part.
pub const ENC_AP_REP_PART: u8 = 0x7b;

/// Of an error.
pub const KRB_ERROR: u8 = 0x7e;
