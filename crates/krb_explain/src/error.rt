//! The lines of an error.

ghost use Rattle.std.specs.Prelude.{◌≡◌, ◌-ℤ◌, IfOk};
ghost use Rattle.std.specs.Option.{option_map};
ghost use Rattle.krb_msg.specs.Borrowed.{krb_error_of, name_of};
ghost use Rattle.krb_explain.specs.Message.{AreErrorLines, AreTimes, MayHaveTimes, AreClientTimes, client_lines, code_line, data_lines, difference_line, error_body, error_names, error_values, order_text, text_lines};

use crate::date::{date_line, write_shown};
use crate::error_codes::error_name;
use crate::line::{joined, listed};
use crate::parts::{head_line, name_line, with_name};
use krb_msg::{KrbErrorRef, NameRef, Seconds};
use krb_readable::Text;
use std::alloc::{AllocError, Global};

/// Makes the lines of an error of so many bytes.
pub(crate) fn error_lines(
    alloc: Global,
    size: usize,
    error: &KrbErrorRef,
) -> Result<Vec<Text>, AllocError>
    ensures { IfOk result (λ lines. AreErrorLines size (error_values (krb_error_of error.now)) lines.items) }
{
    let head = head_line(alloc, "KRB-ERROR", size)?;
    let code = code_line(alloc, error.error_code)?;
    let begun = listed(alloc, [head, code])?;
    let untimed = joined(begun, error_body(alloc, error)?)?;
    Ok(joined(untimed, times(alloc, error.ctime, error.stime)?)?)
}

// The lines between the code and the times.
fn error_body(alloc: Global, error: &KrbErrorRef) -> Result<Vec<Text>, AllocError>
    ensures { IfOk result (λ lines. lines.items ≡ error_body (error_values (krb_error_of error.now))) }
{
    let text = text_lines(alloc, error.e_text)?;
    let named = joined(text, error_names(alloc, error)?)?;
    Ok(joined(named, data_lines(alloc, error.e_data)?)?)
}

fn code_line(alloc: Global, code: i32) -> Result<Text, AllocError>
    ensures { IfOk result (λ line. line ≡ code_line code) }
{
    let text = with_name(alloc, code, error_name(code))?;
    Ok(Text::new(format!(in alloc; "code: {text}")?))
}

fn text_lines(alloc: Global, text: Option<&[u8]>) -> Result<Vec<Text>, AllocError>
    ensures { IfOk result (λ lines. lines.items ≡ text_lines (option_map (λ x. x.now) text.entry)) }
{
    let Some(bytes) = text else {
        return Ok(Vec::new(alloc));
    };
    let mut text = String::from_str(alloc, "text: ")?;
    write_shown(&mut text, bytes)?;
    listed(alloc, [Text::new(text)])
}

// The lines of the service and of the client.
fn error_names(alloc: Global, error: &KrbErrorRef) -> Result<Vec<Text>, AllocError>
    ensures { IfOk result (λ lines. lines.items ≡ error_names (error_values (krb_error_of error.now))) }
{
    let service = name_line(alloc, "service", error.realm, &error.sname)?;
    let lines = listed(alloc, [service])?;
    Ok(joined(lines, client_lines(alloc, error.crealm, &error.cname)?)?)
}

fn client_lines(
    alloc: Global,
    realm: Option<&[u8]>,
    name: &Option<NameRef>,
) -> Result<Vec<Text>, AllocError>
    ensures { IfOk result (λ lines. lines.items ≡ client_lines (option_map (λ x. x.now) realm.entry) (option_map name_of name.now)) }
{
    match (realm, name) {
        (Some(realm), Some(name)) => { listed(alloc, [name_line(alloc, "client", realm, name)?]) }
        _ => Ok(Vec::new(alloc)),
    }
}

fn data_lines(alloc: Global, bytes: Option<&[u8]>) -> Result<Vec<Text>, AllocError>
    ensures { IfOk result (λ lines. lines.items ≡ data_lines (option_map (λ x. x.now) bytes.entry)) }
{
    let Some(bytes) = bytes else {
        return Ok(Vec::new(alloc));
    };
    let size = bytes.len();
    listed(alloc, [Text::new(format!(in alloc; "data: {size} bytes")?)])
}

// The lines of the service's time and of the client's, and how far they are apart.
fn times(alloc: Global, ctime: Option<Seconds>, stime: Seconds) -> Result<Vec<Text>, AllocError>
    ensures { IfOk result (λ lines. AreTimes ctime stime lines.items) }
{
    let line = date_line(alloc, "service's time: ", stime)?;
    let lines = listed(alloc, [line])?;
    Ok(joined(lines, client_times(alloc, ctime, stime)?)?)
}

fn client_times(
    alloc: Global,
    ctime: Option<Seconds>,
    stime: Seconds,
) -> Result<Vec<Text>, AllocError>
    ensures { IfOk result (λ lines. MayHaveTimes ctime stime lines.items) }
{
    match ctime {
        Some(ctime) => client_time(alloc, ctime, stime),
        None => Ok(Vec::new(alloc)),
    }
}

fn client_time(alloc: Global, ctime: Seconds, stime: Seconds) -> Result<Vec<Text>, AllocError>
    ensures { IfOk result (λ lines. AreClientTimes ctime stime lines.items) }
{
    let line = date_line(alloc, "client's time: ", ctime)?;
    let difference = difference_line(alloc, ctime, stime)?;
    let lines = listed(alloc, [line, difference])?;
    Ok(lines)
}

fn difference_line(alloc: Global, ctime: Seconds, stime: Seconds) -> Result<Text, AllocError>
    ensures { IfOk result (λ line. line ≡ difference_line (stime -ℤ ctime)) }
{
    let difference = stime.get() - ctime.get();
    let seconds = difference.unsigned_abs();
    let order = order_text(difference);
    Ok(Text::new(format!(in alloc;
        "clock difference: the service's time is {seconds} seconds {order} the client's"
    )?))
}

fn order_text(difference: i64) -> &'static str
    ensures { result.now ≡ order_text difference }
{
    if difference < 0 { "before" } else { "after" }
}
