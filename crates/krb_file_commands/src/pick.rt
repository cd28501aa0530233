//! What `pick-key` makes: the line of the entry that is picked.

ghost use Rattle.std.specs.Prelude.{◌≡◌, IfErr, IfOk};
ghost use Rattle.krb_keytab.specs.Format.{IsKeytab};
ghost use Rattle.krb_keytab.specs.Pick.{chosen};
ghost use Rattle.krb_file_commands.specs.Engine.{OfFile};
ghost use Rattle.krb_file_commands.specs.Lines.{keytab_line};
ghost use Rattle.krb_file_commands.specs.Picking.{AllowsUnpicked, IsChoiceOf, IsPickedLine, IsUnmet, IsUnpicked};
ghost use Rattle.krb_file_commands.specs.Status.{pick_reads};

use crate::engine::Product;
use crate::fault::PickFault;
use crate::lines::write_entry;
use crate::of_type::pick_of;
use krb_file::Source;
use krb_keytab::laws::{each_choice_is_one, each_file_has_one_answer};
use krb_keytab::{Entry, Keytab, Picked};
use krb_name::Principal;
use std::alloc::{AllocError, Global};

/// `pick-key` makes the line of the entry of a keytab that has the key of a ticket for `name`. `Keytab::pick` picks it if the type is 19 or
/// 20. An entry of another type, whose key opens no ticket, is picked by the same rule, whatever the length of its key. The line is that of
/// `list-keytab`.
#[derive(Drop)]
pub struct PickKey {
    /// The name of the service.
    pub name: Principal,
    /// The encryption type.
    pub etype: i32,
    /// The version number, if only that one will do.
    pub kvno: Option<u32>,
}

impl Product for PickKey {
    type Fault = PickFault;

    ghost makes = { λ wanted from bytes. OfFile IsKeytab from (λ entries. IsPickedLine wanted entries bytes) };

    ghost faults = { IsUnpicked };

    ghost allows = { AllowsUnpicked };

    ghost failed_reads = { pick_reads };

    fn make<S: Source>(&self, alloc: Global, source: &mut S) -> Result<Vec<u8>, PickFault> {
        each_file_has_one_answer();
        each_choice_is_one();
        let keytab = Keytab::read(alloc, source)?;
        let entry = picked(&keytab, self)?;
        let line = line_of(alloc, entry)?;
        Ok(line)
    }
}

fn picked<'a>(keytab: &'a Keytab, wanted: &PickKey) -> Result<&'a Entry, PickFault>
    ensures chosen { IfOk result (λ entry. IsChoiceOf wanted.now keytab.entry.now (chosen entry.now)) }
    ensures unpicked { IfErr result (IsUnmet wanted.now keytab.entry.now) }
{
    let etype = wanted.etype;
    match pick_of(keytab, &wanted.name, etype, wanted.kvno) {
        Picked::Entry(entry) => Ok(entry),
        Picked::NoName => Err(PickFault::NoName),
        Picked::NoKey => Err(PickFault::NoKey),
        Picked::NoVersion => Err(PickFault::NoVersion),
    }
}

fn line_of(alloc: Global, entry: &Entry) -> Result<Vec<u8>, AllocError>
    ensures { IfOk result (λ line. line.items ≡ keytab_line entry.now) }
{
    let mut line = String::new(alloc);
    write_entry(entry, &mut line)?;
    Ok(line.into_bytes())
}
