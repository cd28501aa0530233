//! The name of a service on the command line.

ghost use Rattle.std.specs.Prelude.{◌≡◌, ◌⊎◌, Result, Ok, Err, pos, IfErr, IfOk};
ghost use Rattle.krb_file_commands.specs.Status as status_of;
ghost use Rattle.krb_name.specs.Reading.{IsReadAs, SameAnswer};
ghost use Rattle.krb_name.specs.declared.principal.Principal.{Principal};
ghost use Rattle.krb_name.specs.declared.text_fault.TextFault.{TextFault};

use crate::fault::service_status;
use crate::fault_lines::name_line;
use crate::run::complain;
use krb_name::{Principal, TextFault};
use std::alloc::Global;

// A service on a host (RFC 4120, section 6.2: KRB_NT_SRV_HST).
const SERVICE_NAME_TYPE: i32 = 3;

/// Reads a service's name off its text, as `Principal::from_text` does, and gives it the name type 3, that of a service on a host
/// (RFC 4120, section 6.2).
///
/// # Errors
/// Those of `Principal::from_text`.
pub fn read_service(alloc: Global, text: &str) -> Result<Principal, TextFault>
    ensures read { IsReadAs text.now result }
    ensures only { (answer : Result Principal TextFault) → IsReadAs text.now answer → SameAnswer result answer }
    ensures name_type { IfOk result (λ service. service.name_type ≡ pos 3) }
{
    Principal::from_text(alloc, text, SERVICE_NAME_TYPE)
}

/// Reads a service's name off the words of the command line. If they aren't a name, that is printed, and the exit status is the error.
pub fn service_of<R: AllocGlobal + Eprint>(
    rt: &R,
    argument: &str,
    text: &str,
) -> Result<Principal, u8>
    ensures read { IfOk result (λ name. IsReadAs text.now (Ok name) × (name.name_type ≡ pos 3)) }
    ensures status { IfErr result (λ status. (status ≡ 2) ⊎ (status ≡ 3)) }
    ensures fault { IfErr result (λ status. (fault : TextFault) × (IsReadAs text.now (Err fault) × (status ≡ status_of.service_status fault))) }
{
    match read_service(rt.alloc(), text) {
        Ok(name) => Ok(name),
        Err(fault) => Err(complain(rt, name_line(argument, &fault), service_status(&fault))),
    }
}
