//! The parts of a tuple, written as bytes after what was written before.

ghost use Rattle.std.specs.Prelude.{◌≡◌, ◌<◌, ◌^◌, ◌++◌, All, FitsSigned, OnOk, length};
ghost use Rattle.std.specs.Int.{w64, cast_unsigned};
ghost use Rattle.std.specs.List.{flat_map};
ghost use Rattle.krb_replay.specs.Bytes.{HasLengths, name_bytes, number_bytes, text_bytes};
ghost use Rattle.krb_replay.specs.Stamp.{name_of};

use krb_name::{Components, Principal};
use krb_time::Moment;
use std::alloc::AllocError;

fn write_number(out: &mut Vec<u8>, number: u64) -> Result<(), AllocError>
    ensures { OnOk result (out.new.items ≡ out.old.items ++ number_bytes number) }
{
    out.extend_from_slice(&number.to_be_bytes())
}

/// Writes a time.
pub(crate) fn write_time(out: &mut Vec<u8>, time: Moment) -> Result<(), AllocError>
    ensures written { OnOk result (out.new.items ≡ out.old.items ++ number_bytes (cast_unsigned w64 time)) }
    ensures fits { FitsSigned w64 time }
{
    write_number(out, time.micros().cast_unsigned())
}

fn write_text(out: &mut Vec<u8>, text: &[u8]) -> Result<(), AllocError>
    ensures written { OnOk result (out.new.items ≡ out.old.items ++ text_bytes text.now) }
    ensures fits { length text.now < 2 ^ 64 }
{
    write_number(out, text.len() as u64)?;
    out.extend_from_slice(text)
}

fn write_components(out: &mut Vec<u8>, components: &Components) -> Result<(), AllocError>
    ensures written { OnOk result (out.new.items ≡ out.old.items ++ flat_map text_bytes components.now) }
    ensures fit { OnOk result (All (λ component. length component < 2 ^ 64) components.now) }
{
    for component in components.iter() {
        write_text(out, component)?;
    }
    Ok(())
}

/// Writes a name. Its type isn't written.
pub(crate) fn write_name(out: &mut Vec<u8>, name: &Principal) -> Result<(), AllocError>
    ensures written { OnOk result (out.new.items ≡ out.old.items ++ name_bytes (name_of name.now)) }
    ensures fits { OnOk result (HasLengths (name_of name.now)) }
{
    write_text(out, name.realm.as_slice())?;
    write_number(out, name.components.len() as u64)?;
    write_components(out, &name.components)
}
