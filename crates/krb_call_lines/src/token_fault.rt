//! The line of `accept` for a token that can't be opened.

ghost use Rattle.std.specs.Prelude.{◌≡◌, IfOk, string_bytes};
ghost use Rattle.krb_call_lines.specs.TokenText.{bad_token_line, foreign_name, kind_name, token_text};

use krb_der::FaultKind;
use krb_gss::{Foreign, TokenFault};
use std::alloc::{AllocError, Global};

/// Gives the line for a token with this fault: `bad token NAME at OFFSET`.
pub fn bad_token_text(alloc: Global, fault: &TokenFault) -> Result<String, AllocError>
    ensures { IfOk result (λ text. string_bytes text ≡ bad_token_line fault.now) }
{
    let (name, at) = token_text(fault);
    format!(in alloc; "bad token {name} at {at}\n")
}

// The fault's name and its offset in bytes. Another kind of token is known by its first byte.
fn token_text(fault: &TokenFault) -> (&'static str, usize)
    ensures { (result.0.now, result.1) ≡ token_text fault.now }
{
    match fault {
        TokenFault::Malformed(fault) => (kind_name(fault.kind), fault.at),
        TokenFault::NotToken => ("NotToken", 0),
        TokenFault::Response => ("Response", 0),
        TokenFault::OtherMechanism(foreign, at) => (foreign_name(*foreign), *at),
        TokenFault::NoToken(at) => ("NoToken", *at),
        TokenFault::TokenId(at) => ("TokenId", *at),
        TokenFault::Unframed(at) => ("Unframed", *at),
        TokenFault::Ended => ("Ended", 0),
    }
}

fn kind_name(kind: FaultKind) -> &'static str
    ensures { result.now ≡ kind_name kind }
{
    match kind {
        FaultKind::Truncated => "Truncated",
        FaultKind::Tag => "Tag",
        FaultKind::Length => "Length",
        FaultKind::Integer => "Integer",
        FaultKind::Time => "Time",
        FaultKind::Flags => "Flags",
        FaultKind::Trailing => "Trailing",
        FaultKind::TooLong => "TooLong",
    }
}

fn foreign_name(foreign: Foreign) -> &'static str
    ensures { result.now ≡ foreign_name foreign }
{
    match foreign {
        Foreign::Negotiation => "Negotiation",
        Foreign::Ntlm => "Ntlm",
        Foreign::IaKerb => "IaKerb",
        Foreign::Unknown => "OtherMechanism",
    }
}
