//! The identifier octets of the subset (X.690, section 8.1.2).

/// INTEGER.
pub const INTEGER: u8 = 0x02;

/// BIT STRING.
pub const BIT_STRING: u8 = 0x03;

/// OCTET STRING.
pub const OCTET_STRING: u8 = 0x04;

/// GeneralizedTime.
pub const GENERALIZED_TIME: u8 = 0x18;

/// GeneralString.
pub const GENERAL_STRING: u8 = 0x1b;

/// SEQUENCE and SEQUENCE OF.
pub const SEQUENCE: u8 = 0x30;
