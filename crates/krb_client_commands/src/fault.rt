//! Why a client's command ended early, what the program says of it, and its exit status.

ghost use Rattle.std.specs.Prelude.{◌≡◌};
ghost use Rattle.krb_client_commands.specs.FaultText.{request_text, finish_text, subject_of, text_of};
ghost use Rattle.krb_client_commands.specs.Status.{status_of};
ghost use Rattle.krb_client_commands.specs.declared.fault.ClientFault.TheVariants.{Cache, Request, Finish, OutOfMemory};

use krb_ap::{FinishFault, RequestFault};
use krb_ccache::CacheFault;
use krb_file_commands::{FAILED, Failure, FailureText, REFUSED};
use std::alloc::AllocError;

/// Why a client's command ended early.
#[derive(Clone, Copy)]
pub enum ClientFault {
    /// The credential cache couldn't be read, memory ran out for it, or what was read isn't one.
    Cache(CacheFault),
    /// No request is built with the credential cache, or memory ran out for it.
    Request(RequestFault),
    /// The reply is refused, or memory ran out for it.
    Finish(FinishFault),
    /// There is no memory for the line.
    OutOfMemory,
}

impl From<CacheFault> for ClientFault {
    ghost from_gives = { λ cache fault. fault ≡ Cache cache };

    fn from(fault: CacheFault) -> ClientFault {
        ClientFault::Cache(fault)
    }
}

impl From<RequestFault> for ClientFault {
    ghost from_gives = { λ request fault. fault ≡ Request request };

    fn from(fault: RequestFault) -> ClientFault {
        ClientFault::Request(fault)
    }
}

impl From<FinishFault> for ClientFault {
    ghost from_gives = { λ finish fault. fault ≡ Finish finish };

    fn from(fault: FinishFault) -> ClientFault {
        ClientFault::Finish(fault)
    }
}

impl From<AllocError> for ClientFault {
    ghost from_gives = { λ _ fault. fault ≡ OutOfMemory };

    fn from(_: AllocError) -> ClientFault {
        ClientFault::OutOfMemory
    }
}

impl Failure for ClientFault {
    ghost printed = { text_of };

    ghost exit_status = { status_of };

    ghost subject = { subject_of };

    fn text(&self) -> FailureText {
        match self {
            ClientFault::Cache(fault) => fault.text(),
            ClientFault::Request(fault) => request_text(fault),
            ClientFault::Finish(fault) => finish_text(fault),
            ClientFault::OutOfMemory => ("OutOfMemory", None),
        }
    }

    fn status(&self) -> u8 {
        match self {
            ClientFault::Cache(fault) => fault.status(),
            ClientFault::Request(RequestFault::OutOfMemory) => FAILED,
            ClientFault::Finish(FinishFault::OutOfMemory) => FAILED,
            ClientFault::Request(_) | ClientFault::Finish(_) => REFUSED,
            ClientFault::OutOfMemory => FAILED,
        }
    }

    fn named<'a>(&self, file: &'a str, command: &'a str) -> &'a str {
        match self {
            ClientFault::Cache(_) => file,
            ClientFault::Request(_) => "request",
            ClientFault::Finish(_) => "finish",
            ClientFault::OutOfMemory => command,
        }
    }
}

fn request_text(fault: &RequestFault) -> FailureText
    ensures { (result.0.now, result.1) ≡ request_text fault.now }
{
    match fault {
        RequestFault::NoCredential => ("NoCredential", None),
        RequestFault::NoUsableKey => ("NoUsableKey", None),
        RequestFault::Expired => ("Expired", None),
        RequestFault::BadTicket => ("BadTicket", None),
        RequestFault::TooLong => ("TooLong", None),
        RequestFault::OutOfMemory => ("OutOfMemory", None),
    }
}

fn finish_text(fault: &FinishFault) -> FailureText
    ensures { (result.0.now, result.1) ≡ finish_text fault.now }
{
    match fault {
        FinishFault::MessageType => ("MessageType", None),
        FinishFault::Malformed(fault) => ("Malformed", Some(fault.at)),
        FinishFault::Integrity => ("Integrity", None),
        FinishFault::Mismatch => ("Mismatch", None),
        FinishFault::OutOfMemory => ("OutOfMemory", None),
    }
}
