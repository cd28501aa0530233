//! The lines of the layers around a message.

ghost use Rattle.std.specs.Prelude.{◌≡◌, ◌++◌, IfOk, string_bytes, codes};
ghost use Rattle.krb_explain.specs.Layer.{layer_lines, mechanism_text, negotiation_line, token_line, token_lines, verdict_text};
ghost use Rattle.krb_explain.specs.Inner.Borrowed.{layer_of};

use crate::faults::token_fault_line;
use crate::layer::Layer;
use crate::line::listed;
use krb_gss::{Mechanism, Verdict, Wrapping};
use krb_readable::Text;
use std::alloc::{AllocError, Global};

/// Makes the lines of what bytes are from the outside.
pub(crate) fn layer_lines(alloc: Global, layer: &Layer) -> Result<Vec<Text>, AllocError>
    ensures { IfOk result (λ lines. lines.items ≡ layer_lines (layer_of layer.now)) }
{
    match layer {
        Layer::Alone(_, _) => Ok(Vec::new(alloc)),
        Layer::Asks(opened) => token_lines(alloc, "client's", opened.wrapping, opened.mechanism),
        Layer::Answers(answered) => {
            token_lines(alloc, "service's", answered.wrapping, answered.mechanism)
        }
        Layer::Says(verdict) => listed(alloc, [verdict_line(alloc, *verdict)?]),
        Layer::Other(fault) => listed(alloc, [token_fault_line(alloc, *fault)?]),
    }
}

// The lines of a token of one side.
fn token_lines(
    alloc: Global,
    side: &str,
    wrapping: Wrapping,
    mechanism: Mechanism,
) -> Result<Vec<Text>, AllocError>
    ensures { IfOk result (λ lines. lines.items ≡ token_lines side.now wrapping mechanism) }
{
    let token = token_line(alloc, side, mechanism)?;
    match wrapping {
        Wrapping::Bare => Ok(listed(alloc, [token])?),
        Wrapping::Negotiated(first) => {
            let negotiation = negotiation_line(alloc, side, first)?;
            Ok(listed(alloc, [negotiation, token])?)
        }
    }
}

fn token_line(alloc: Global, side: &str, mechanism: Mechanism) -> Result<Text, AllocError>
    ensures { IfOk result (λ line. line ≡ token_line side.now mechanism) }
{
    let name = mechanism_text(mechanism);
    Ok(Text::new(format!(in alloc; "{side} token (GSS-API): mechanism {name}")?))
}

fn negotiation_line(alloc: Global, side: &str, first: Mechanism) -> Result<Text, AllocError>
    ensures { IfOk result (λ line. line ≡ negotiation_line side.now first) }
{
    let name = mechanism_text(first);
    Ok(Text::new(format!(in alloc; "{side} negotiation (SPNEGO): mechanism {name}")?))
}

fn verdict_line(alloc: Global, verdict: Verdict) -> Result<Text, AllocError>
    ensures { IfOk result (λ line. line ≡ codes "service's negotiation (SPNEGO): " ++ verdict_text verdict) }
{
    let text = verdict_text(alloc, verdict)?;
    Ok(Text::new(format!(in alloc; "service's negotiation (SPNEGO): {text}")?))
}

fn verdict_text(alloc: Global, verdict: Verdict) -> Result<String, AllocError>
    ensures { IfOk result (λ text. string_bytes text ≡ verdict_text verdict) }
{
    match verdict {
        Verdict::Completed(None) => String::from_str(alloc, "accept-completed"),
        Verdict::Completed(Some(first)) => {
            let name = mechanism_text(first);
            format!(in alloc; "accept-completed, mechanism {name}")
        }
        Verdict::Incomplete(first) => {
            let name = mechanism_text(first);
            format!(in alloc; "accept-incomplete: it asks for a token of the mechanism {name}")
        }
        Verdict::Rejected => String::from_str(alloc, "reject"),
    }
}

fn mechanism_text(mechanism: Mechanism) -> &'static str
    ensures { result.now ≡ mechanism_text mechanism }
{
    match mechanism {
        Mechanism::Kerberos => "Kerberos (1.2.840.113554.1.2.2)",
        Mechanism::Microsoft => "Kerberos (1.2.840.48018.1.2.2)",
        Mechanism::Draft => "Kerberos (1.3.5.1.5.2)",
    }
}
