//! The commands of krbtool for a client: `request`, and `finish`, which reads the reply to a request.
//!
//! [`Asked`] and [`Replied`] say what is made of a credential cache, as a `Product` of `krb_file_commands`, whose engine
//! writes it. [`run_request`] and [`run_finish`] read the words of the command line, open the file, run the engine and
//! return the exit status.
#![tactic(auto)]

mod commands;
mod fault;
mod finish;
mod request;

pub use commands::{run_finish, run_request};
pub use fault::ClientFault;
pub use finish::{Replied, read_reply};
pub use request::{Asked, read_confounder, read_wrapping};
