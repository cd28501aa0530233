//! Error codes of a KRB-ERROR that the exchange uses, under their assigned names (RFC 4120, section
//! 7.5.9).

/// The KDC or service doesn't support the encryption type.
pub const KDC_ERR_ETYPE_NOSUPP: i32 = 14;

/// A sealed part failed its integrity check.
pub const KRB_AP_ERR_BAD_INTEGRITY: i32 = 31;

/// The ticket has expired.
pub const KRB_AP_ERR_TKT_EXPIRED: i32 = 32;

/// The ticket isn't valid yet.
pub const KRB_AP_ERR_TKT_NYV: i32 = 33;

/// The request is a repeat.
pub const KRB_AP_ERR_REPEAT: i32 = 34;

/// The ticket is for another service.
pub const KRB_AP_ERR_NOT_US: i32 = 35;

/// The ticket and the authenticator don't match.
pub const KRB_AP_ERR_BADMATCH: i32 = 36;

/// The clocks differ by too much.
pub const KRB_AP_ERR_SKEW: i32 = 37;

/// The message is of another type.
pub const KRB_AP_ERR_MSG_TYPE: i32 = 40;

/// The key's version isn't available.
pub const KRB_AP_ERR_BADKEYVER: i32 = 44;

/// The service's key isn't available.
pub const KRB_AP_ERR_NOKEY: i32 = 45;

/// Mutual authentication failed.
pub const KRB_AP_ERR_MUT_FAIL: i32 = 46;

/// Anything else.
pub const KRB_ERR_GENERIC: i32 = 60;
