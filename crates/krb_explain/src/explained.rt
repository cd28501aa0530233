//! The page that explains bytes.

ghost use Rattle.std.specs.Prelude.{◌≡◌, IfOk, string_bytes};
ghost use Rattle.std.specs.Option.{option_map};
ghost use Rattle.krb_explain.specs.Explained.{Explains, ExplainsCarried, IsExplanation, size_line};
ghost use Rattle.krb_explain.specs.Inner.Borrowed.{message_in};

use crate::form::Form;
use crate::layer::Layer;
use crate::layer_lines::layer_lines;
use crate::line::{joined, listed, page};
use crate::message::message_lines;
use krb_readable::Text;
use std::alloc::{AllocError, Global};

/// Explains bytes without any key: a message `AP-REQ`, `AP-REP` or `KRB-ERROR` (RFC 4120, sections 5.5 and 5.9), a token that
/// holds one (GSS-API, RFC 4121, section 4.1; SPNEGO, RFC 4178, section 4.2), or what a service says in a negotiation.
///
/// The page has a line for the size, for each layer around a message and for each thing that can be read in it, each with a line
/// feed after it. Of sealed parts it has the encryption type, the version number of the key and the size. If the bytes are none of
/// these, it says at which byte they aren't, and why. `specs/Explained` says which lines there are.
///
/// # Errors
/// `AllocError` if there is no memory for the page.
pub fn explain(alloc: Global, bytes: &[u8]) -> Result<String, AllocError>
    ensures { IfOk result (λ text. IsExplanation bytes.now (string_bytes text)) }
{
    let explained = explain_lines(alloc, bytes)?;
    page(alloc, explained.lines.as_slice())
}

/// The lines that explain bytes, and what a service judges of them.
#[derive(Drop)]
pub struct Explained<'a> {
    /// The lines of the page.
    pub lines: Vec<Text>,
    /// What a service that takes requests judges: the message in a client's token, or bytes that don't begin as a token. `None` if
    /// the bytes are what a service sends in a token, or a token with a fault.
    pub request: Option<&'a [u8]>,
}

/// Explains bytes as [`explain`] does, and returns the lines of the page.
///
/// # Errors
/// `AllocError` if there is no memory for the lines.
pub fn explain_lines<'a>(alloc: Global, bytes: &'a [u8]) -> Result<Explained<'a>, AllocError>
    ensures { IfOk result (λ e. Explains bytes.entry.now e.lines.items (option_map (λ x. x.now) e.request)) }
{
    let layer = Layer::of(bytes);
    let size = listed(alloc, [size_line(alloc, bytes.len())?])?;
    let outer = joined(size, layer_lines(alloc, &layer)?)?;
    let lines = joined(outer, carried_lines(alloc, layer.carried())?)?;
    let request = layer.judged(bytes);
    Ok(Explained { lines, request })
}

fn size_line(alloc: Global, size: usize) -> Result<Text, AllocError>
    ensures { IfOk result (λ line. line ≡ size_line size) }
{
    Ok(Text::new(format!(in alloc; "size: {size} bytes")?))
}

// The lines of the message inside, if there is one.
fn carried_lines(alloc: Global, carried: Option<(Form, &[u8])>) -> Result<Vec<Text>, AllocError>
    ensures { IfOk result (λ lines. ExplainsCarried (option_map message_in carried.entry) lines.items) }
{
    match carried {
        Some((form, bytes)) => message_lines(alloc, form, bytes),
        None => Ok(Vec::new(alloc)),
    }
}
