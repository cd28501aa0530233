//! The lines of a page.

ghost use Rattle.std.specs.Prelude.{◌≡◌, ◌++◌, IfOk, string_bytes};
ghost use Rattle.krb_explain.specs.Page.{page_of};

use krb_readable::Text;
use std::alloc::{AllocError, Global};

/// Makes a list of these lines.
pub fn listed<const N: usize>(alloc: Global, lines: [Text; N]) -> Result<Vec<Text>, AllocError>
    ensures { IfOk result (λ made. made.items ≡ lines.entry) }
{
    Ok(Vec::from_array(alloc, lines)?)
}

/// Joins two lists of lines.
pub fn joined(lines: Vec<Text>, more: Vec<Text>) -> Result<Vec<Text>, AllocError>
    ensures { IfOk result (λ made. made.items ≡ lines.items ++ more.items) }
{
    let mut made = lines;
    let mut more = more;
    made.append(&mut more)?;
    Ok(made)
}

/// Returns a page: the lines, each with a line feed after it.
pub fn page(alloc: Global, lines: &[Text]) -> Result<String, AllocError>
    ensures { IfOk result (λ text. string_bytes text ≡ page_of lines.now) }
{
    let mut text = String::new(alloc);
    for line in lines {
        text.push_str(line.as_str())?;
        text.push('\n')?;
    }
    Ok(text)
}
