//! Names of principals.

ghost use Rattle.krb_c.specs.Request.{IsNameChecked, IsNameFault, name_answer};
ghost use Rattle.std.specs.Prelude.{IfErr, IfOk, Ok, ◌≡◌};
ghost use Rattle.krb_name.specs.Reading.{IsReadAs};
ghost use Rattle.krb_c.specs.Answer.{plain};

use crate::code;
use crate::structs::Answer;
use krb_name::{Principal, TextFault};
use std::alloc::Global;

/// Checks whether bytes are the text of a name (`krb_name::Principal::check_text`), and returns how
/// many components it has. Allocates no memory.
#[unsafe(no_mangle)]
pub extern "C" fn fevstunik_name_check(name: &[u8]) -> Answer
    ensures { IsNameChecked name.now result }
{
    let Ok(text) = str::from_utf8(name) else {
        return Answer::plain(code::NOT_UTF8);
    };
    match Principal::check_text(text) {
        Ok(count) => Answer::sized(code::OK, count),
        Err(fault) => name_told(fault),
    }
}

/// Reads a principal from its text.
pub(crate) fn name_of(alloc: Global, bytes: &[u8]) -> Result<Principal, Answer>
    ensures name { IfOk result (λ name. IsReadAs bytes.now (Ok name)) }
    ensures fault { IfErr result (λ answer. IsNameFault bytes.now answer) }
{
    typed_name_of(alloc, bytes, 0)
}

/// Reads a principal from its text, and gives it a type.
pub(crate) fn typed_name_of(
    alloc: Global,
    bytes: &[u8],
    name_type: i32,
) -> Result<Principal, Answer>
    ensures name { IfOk result (λ name. IsReadAs bytes.now (Ok name)) }
    ensures name_type { IfOk result (λ name. name.name_type ≡ name_type) }
    ensures fault { IfErr result (λ answer. IsNameFault bytes.now answer) }
{
    let text = match str::from_utf8(bytes) {
        Ok(text) => text,
        Err(_) => return Err(Answer::plain(code::NOT_UTF8)),
    };
    match Principal::from_text(alloc, text, name_type) {
        Ok(name) => Ok(name),
        Err(fault) => Err(name_told(fault)),
    }
}

fn name_told(fault: TextFault) -> Answer
    ensures { result ≡ name_answer fault }
{
    match fault {
        TextFault::BadText { at } => Answer::placed(code::BAD_TEXT, at),
        TextFault::NoRealm => Answer::plain(code::NO_REALM),
        TextFault::OutOfMemory => Answer::plain(code::OUT_OF_MEMORY),
    }
}
