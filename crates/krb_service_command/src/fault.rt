//! Why a service ended early, what the program says of it, and its exit status.

ghost use Rattle.std.specs.Prelude.{◌≡◌};
ghost use Rattle.krb_service_command.specs.Status.{status_of, subject_of, text_of};
ghost use Rattle.krb_service_command.specs.declared.fault.ServiceFault.TheVariants.{Input, Write, OutOfMemory};

use krb_file::{SinkFailed, SourceFailed};
use krb_file_commands::{FAILED, Failure, FailureText};
use std::alloc::AllocError;

/// Why a service ended early.
#[derive(Clone, Copy)]
pub enum ServiceFault {
    /// The lines couldn't be read, or there were more of them than is taken.
    Input,
    /// The sink couldn't be written.
    Write,
    /// There was no room, other than in a call or for a reply or an error.
    OutOfMemory,
}

impl From<SourceFailed> for ServiceFault {
    ghost from_gives = { λ _ fault. fault ≡ Input };

    fn from(_: SourceFailed) -> ServiceFault {
        ServiceFault::Input
    }
}

impl From<SinkFailed> for ServiceFault {
    ghost from_gives = { λ _ fault. fault ≡ Write };

    fn from(_: SinkFailed) -> ServiceFault {
        ServiceFault::Write
    }
}

impl From<AllocError> for ServiceFault {
    ghost from_gives = { λ _ fault. fault ≡ OutOfMemory };

    fn from(_: AllocError) -> ServiceFault {
        ServiceFault::OutOfMemory
    }
}

impl Failure for ServiceFault {
    ghost printed = { text_of };

    ghost exit_status = { status_of };

    ghost subject = { subject_of };

    fn text(&self) -> FailureText {
        match self {
            ServiceFault::Input => ("Read", None),
            ServiceFault::Write => ("Write", None),
            ServiceFault::OutOfMemory => ("OutOfMemory", None),
        }
    }

    fn status(&self) -> u8 {
        FAILED
    }

    fn named<'a>(&self, _file: &'a str, command: &'a str) -> &'a str {
        match self {
            ServiceFault::Input => "input",
            ServiceFault::Write => "output",
            ServiceFault::OutOfMemory => command,
        }
    }
}
