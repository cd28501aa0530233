//! Reading a message, and its lines.

ghost use Rattle.std.specs.Prelude.{◌≡◌, ◌∷◌, [], IfOk};
ghost use Rattle.krb_explain.specs.Message.{AreLinesOf, ExplainsMessage, IsRead, form_name};
ghost use Rattle.krb_explain.specs.Faults.{rule_line};
ghost use Rattle.krb_explain.specs.Parts.{head_line};
ghost use Rattle.krb_explain.specs.Inner.Borrowed.{message_of_read};

use crate::error::error_lines;
use crate::faults::rule_line;
use crate::form::Form;
use crate::line::listed;
use crate::parts::head_line;
use crate::request::{reply_lines, request_lines};
use krb_der::Fault;
use krb_msg::{ApRepRef, ApReqRef, KrbErrorRef};
use krb_readable::Text;
use std::alloc::{AllocError, Global};

/// What bytes are that are to be a message.
#[derive(Drop)]
pub(crate) enum Message<'a> {
    Request(ApReqRef<'a>),
    Reply(ApRepRef<'a>),
    Error(KrbErrorRef<'a>),
    /// Not a message of this kind.
    Faulty(Form, Fault),
}

/// Makes the lines that explain bytes which are to be a message of this kind.
pub(crate) fn message_lines(
    alloc: Global,
    form: Form,
    bytes: &[u8],
) -> Result<Vec<Text>, AllocError>
    ensures { IfOk result (λ lines. ExplainsMessage form bytes.now lines.items) }
{
    let message = read(form, bytes);
    lines_of(alloc, bytes.len(), &message)
}

fn read<'a>(form: Form, bytes: &'a [u8]) -> Message<'a>
    ensures { IsRead form bytes.entry.now (message_of_read result) }
{
    match form {
        Form::Request => read_request(bytes),
        Form::Reply => read_reply(bytes),
        Form::Error => read_error(bytes),
    }
}

fn read_request<'a>(bytes: &'a [u8]) -> Message<'a>
    ensures { IsRead Form.Request bytes.entry.now (message_of_read result) }
{
    match ApReqRef::parse(bytes) {
        Ok(request) => Message::Request(request),
        Err(fault) => Message::Faulty(Form::Request, fault),
    }
}

fn read_reply<'a>(bytes: &'a [u8]) -> Message<'a>
    ensures { IsRead Form.Reply bytes.entry.now (message_of_read result) }
{
    match ApRepRef::parse(bytes) {
        Ok(reply) => Message::Reply(reply),
        Err(fault) => Message::Faulty(Form::Reply, fault),
    }
}

fn read_error<'a>(bytes: &'a [u8]) -> Message<'a>
    ensures { IsRead Form.Error bytes.entry.now (message_of_read result) }
{
    match KrbErrorRef::parse(bytes) {
        Ok(error) => Message::Error(error),
        Err(fault) => Message::Faulty(Form::Error, fault),
    }
}

fn lines_of(alloc: Global, size: usize, message: &Message) -> Result<Vec<Text>, AllocError>
    ensures { IfOk result (λ lines. AreLinesOf size (message_of_read message.now) lines.items) }
{
    match message {
        Message::Request(request) => request_lines(alloc, size, request),
        Message::Reply(reply) => reply_lines(alloc, size, reply),
        Message::Error(error) => error_lines(alloc, size, error),
        Message::Faulty(form, fault) => faulty_lines(alloc, size, *form, *fault),
    }
}

fn faulty_lines(
    alloc: Global,
    size: usize,
    form: Form,
    fault: Fault,
) -> Result<Vec<Text>, AllocError>
    ensures { IfOk result (λ lines. lines.items ≡ head_line (form_name form) size ∷ rule_line fault ∷ []) }
{
    let head = head_line(alloc, form.name(), size)?;
    let rule = rule_line(alloc, fault)?;
    listed(alloc, [head, rule])
}
