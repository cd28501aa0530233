//! Key usages of the exchange (RFC 4120, section 7.5.1).

/// Of a ticket's sealed part, under the service's key.
pub const TICKET: u32 = 2;

/// Of the authenticator of an AP-REQ, under the session key.
pub const AUTHENTICATOR: u32 = 11;

/// Of the sealed part of an AP-REP, under the session key.
pub const AP_REP: u32 = 12;
