//! What is said of bytes that are neither a message nor a token.

ghost use Rattle.std.specs.Prelude.{◌≡◌, IfOk};
ghost use Rattle.krb_explain.specs.Faults.{fault_line, foreign_text, rule_line, rule_text, token_text};

use krb_der::{Fault, FaultKind};
use krb_gss::{Foreign, TokenFault};
use krb_readable::Text;
use std::alloc::{AllocError, Global};

/// Makes the line of a fault of a message.
pub(crate) fn rule_line(alloc: Global, fault: Fault) -> Result<Text, AllocError>
    ensures { IfOk result (λ line. line ≡ rule_line fault) }
{
    fault_line(alloc, rule_text(fault.kind), fault.at)
}

/// Makes the line of a fault of a token.
pub(crate) fn token_fault_line(alloc: Global, fault: TokenFault) -> Result<Text, AllocError>
    ensures { IfOk result (λ line. line ≡ fault_line (token_text fault)) }
{
    let (text, at) = token_text(fault);
    fault_line(alloc, text, at)
}

fn fault_line(alloc: Global, text: &str, at: usize) -> Result<Text, AllocError>
    ensures { IfOk result (λ line. line ≡ fault_line (text.now, at)) }
{
    Ok(Text::new(format!(in alloc; "fault at byte {at}: {text}")?))
}

fn rule_text(kind: FaultKind) -> &'static str
    ensures { result.now ≡ rule_text kind }
{
    match kind {
        FaultKind::Truncated => "the bytes end before the element does",
        FaultKind::Tag => "another element is required here",
        FaultKind::Length => "the length is invalid, or not in its shortest form",
        FaultKind::Integer => {
            "the whole number is empty, not in its shortest form, or out of its range"
        }
        FaultKind::Time => "the time isn't of the form, or not in the calendar",
        FaultKind::Flags => "the flags aren't 32 bits",
        FaultKind::Trailing => "there are bytes after the last element",
        FaultKind::TooLong => "there are more than 1048576 bytes",
    }
}

// What is wrong with a token, and at which byte.
fn token_text(fault: TokenFault) -> (&'static str, usize)
    ensures { (result.0.now, result.1) ≡ token_text fault }
{
    match fault {
        TokenFault::Malformed(fault) => (rule_text(fault.kind), fault.at),
        TokenFault::NotToken => ("this is neither a message nor a token of Kerberos", 0),
        TokenFault::Response => ("the token continues a negotiation", 0),
        TokenFault::OtherMechanism(foreign, at) => (foreign_text(foreign), at),
        TokenFault::NoToken(at) => (
            "the negotiation has no token of the mechanism that is named here",
            at,
        ),
        TokenFault::TokenId(at) => ("the token's identifier is another", at),
        TokenFault::Unframed(at) => ("a request stands here without a token around it", at),
        TokenFault::Ended => ("the negotiation is over", 0),
    }
}

fn foreign_text(foreign: Foreign) -> &'static str
    ensures { result.now ≡ foreign_text foreign }
{
    match foreign {
        Foreign::Negotiation => "the mechanism is a negotiation (SPNEGO)",
        Foreign::Ntlm => "the mechanism is NTLM",
        Foreign::IaKerb => "the mechanism is IAKERB",
        Foreign::Unknown => "the mechanism isn't Kerberos",
    }
}
