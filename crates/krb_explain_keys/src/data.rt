//! The types of authorization data, and dates that may be absent.

ghost use Rattle.std.specs.Prelude.{◌≡◌, ◌++◌, IfOk, OnOk, string_bytes};
ghost use Rattle.std.specs.List.{flat_map};
ghost use Rattle.krb_explain_keys.specs.Data.{AreDates, MayBeDated, IsOneDate, type_word, types_text};

use krb_explain::{date_line, listed};
use krb_msg::{Seconds, TypedListRef};
use krb_readable::Text;
use std::alloc::{AllocError, Global};
use std::fmt::Write;

/// Returns the types of authorization data.
pub(crate) fn types_text(
    alloc: Global,
    elements: &Option<TypedListRef>,
) -> Result<String, AllocError>
    ensures { IfOk result (λ text. string_bytes text ≡ types_text elements.now) }
{
    match elements {
        Some(elements) => {
            let mut text = String::from_str(alloc, " types")?;
            add_types(&mut text, elements)?;
            Ok(text)
        }
        None => String::from_str(alloc, " none"),
    }
}

// Adds a space and the type of each element.
fn add_types(text: &mut String, elements: &TypedListRef) -> Result<(), AllocError>
    ensures { OnOk result (string_bytes text.new ≡ string_bytes text.old ++ flat_map type_word elements.now) }
{
    for element in elements.iter() {
        let kind = element.kind;
        write!(text, " {kind}")?;
    }
    Ok(())
}

/// Makes the line of a time, and after it that of one that may be absent.
pub(crate) fn date_lines(
    alloc: Global,
    label: &str,
    seconds: Seconds,
    other: &str,
    may: Option<Seconds>,
) -> Result<Vec<Text>, AllocError>
    ensures { IfOk result (λ lines. AreDates label.now seconds other.now may lines.items) }
{
    let line = date_line(alloc, label, seconds)?;
    let mut lines = listed(alloc, [line])?;
    lines.append(&mut may_be_dated(alloc, other, may)?)?;
    Ok(lines)
}

fn may_be_dated(alloc: Global, label: &str, may: Option<Seconds>) -> Result<Vec<Text>, AllocError>
    ensures { IfOk result (λ lines. MayBeDated label.now may lines.items) }
{
    match may {
        Some(seconds) => one_date(alloc, label, seconds),
        None => Ok(Vec::new(alloc)),
    }
}

fn one_date(alloc: Global, label: &str, seconds: Seconds) -> Result<Vec<Text>, AllocError>
    ensures { IfOk result (λ lines. IsOneDate label.now seconds lines.items) }
{
    let line = date_line(alloc, label, seconds)?;
    listed(alloc, [line])
}
