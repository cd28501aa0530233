//! The commands of krbtool for a service: `accept`, which answers the lines of standard input, and `explain`, which
//! says what is in a message.
//!
//! [`accept_lines`] is the engine, over a source and a sink; its contract says which answers are written, and which
//! history the acceptor's memory then stands for. [`run_accept`] reads the words of the command line, opens the
//! keytab, runs the engine and returns the exit status. [`Explain`] says what is made of a text, and
//! [`ExplainWithKeys`] what is made of a keytab, as a `Product` of `krb_file_commands`, whose engine writes it;
//! [`run_explain`] runs it.
#![tactic(auto)]

mod accept;
mod answer_end;
mod answering;
mod commands;
mod explain;
mod explain_command;
mod explain_fault;
mod explain_keys;
mod fault;
mod opening;
mod task;
mod text;

pub use accept::{AnswerOptions, accept_lines};
pub use commands::run_accept;
pub use explain::Explain;
pub use explain_command::run_explain;
pub use explain_fault::ExplainFault;
pub use explain_keys::ExplainWithKeys;
pub use fault::ServiceFault;
