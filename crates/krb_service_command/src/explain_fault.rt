//! Why nothing is explained, what the program says of it, and its exit status.

ghost use Rattle.std.specs.Prelude.{◌≡◌};
ghost use Rattle.krb_explain.specs.declared.input.InputFault.TheVariants.{OutOfMemory};
ghost use Rattle.krb_file.specs.File.{fault_of_read};
ghost use Rattle.krb_service_command.specs.Explaining.{explain_status, explain_text, input_text};
ghost use Rattle.krb_service_command.specs.declared.explain_fault.ExplainFault.TheVariants.{Text, Read};

use krb_explain::InputFault;
use krb_file::ReadFault;
use krb_file_commands::{FAILED, Failure, FailureText, REFUSED};
use std::alloc::AllocError;

/// Why nothing is explained.
#[derive(Clone, Copy)]
pub enum ExplainFault {
    /// The text doesn't spell bytes, or memory ran out.
    Text(InputFault),
    /// The text has more than 16,777,216 bytes.
    TooLong,
    /// The text couldn't be read.
    Read,
}

impl From<InputFault> for ExplainFault {
    ghost from_gives = { λ input fault. fault ≡ Text input };

    fn from(fault: InputFault) -> ExplainFault {
        ExplainFault::Text(fault)
    }
}

impl From<AllocError> for ExplainFault {
    ghost from_gives = { λ _ fault. fault ≡ Text OutOfMemory };

    fn from(_: AllocError) -> ExplainFault {
        ExplainFault::Text(InputFault::OutOfMemory)
    }
}

impl From<ReadFault> for ExplainFault {
    ghost from_gives = { λ read fault. fault ≡ fault_of_read (Text OutOfMemory) Read read };

    fn from(fault: ReadFault) -> ExplainFault {
        match fault {
            ReadFault::Read => ExplainFault::Read,
            ReadFault::OutOfMemory => ExplainFault::Text(InputFault::OutOfMemory),
        }
    }
}

impl Failure for ExplainFault {
    ghost printed = { explain_text };

    ghost exit_status = { explain_status };

    ghost subject = { λ _ file _. file };

    fn text(&self) -> FailureText {
        match self {
            ExplainFault::Text(fault) => input_text(*fault),
            ExplainFault::TooLong => ("TooLong", None),
            ExplainFault::Read => ("Read", None),
        }
    }

    fn status(&self) -> u8 {
        match self {
            ExplainFault::Text(InputFault::OutOfMemory) | ExplainFault::Read => FAILED,
            _ => REFUSED,
        }
    }

    fn named<'a>(&self, file: &'a str, _command: &'a str) -> &'a str {
        file
    }
}

fn input_text(fault: InputFault) -> FailureText
    ensures { (result.0.now, result.1) ≡ input_text fault }
{
    match fault {
        InputFault::NoBytes => ("NoBytes", None),
        InputFault::Symbol { at } => ("Symbol", Some(at)),
        InputFault::End { at } => ("End", Some(at)),
        InputFault::OutOfMemory => ("OutOfMemory", None),
    }
}
