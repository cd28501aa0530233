//! The command line of krbtool: its commands, and what the words of a command line ask for.
//!
//! [`read_words`] reads the words by `clap`, and returns a [`Command`] with its operands and options as they
//! were given. Its contract says which command it is, by clap's own definition of a simple command. A number is
//! a text of decimal digits within the range that the command's row in `commands.toml` gives.
#![tactic(auto)]

mod arguments;
mod command_line;
mod commands;
mod matches;
mod reading;
mod table;
mod words;

pub use command_line::{
    AcceptWords, AddWords, CacheForm, Command, ExplainWords, FinishWords, PickWords, RemoveWords,
    RequestWords,
};
pub use words::{is_command, read_words};
