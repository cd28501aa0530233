//! The numbers of messages (RFC 4120, section 7.5.7).

/// Of a request.
pub const AP_REQ: u32 = 14;

/// Of a reply.
pub const AP_REP: u32 = 15;

/// Of an error.
pub const KRB_ERROR: u32 = 30;
