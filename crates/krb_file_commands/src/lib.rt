//! The commands of krbtool that work on files alone: listing, checking and writing again keytabs and credential
//! caches, and picking, removing and adding keys.
//!
//! What a command makes of the file that it reads is said by its [`Product`], and what is written of that by
//! [`produce`], the engine. [`add_keys`] makes a keytab of two. A keytab that is changed is written by [`replace`],
//! so that it is either as it was or whole. A function whose name begins with `run_` opens the files, runs the
//! engine, prints a fault's line on standard error and returns the exit status. [`Failure`], [`Product`] and
//! [`run_product`] serve the commands of other crates too.
#![tactic(auto)]

mod add;
mod checking;
mod commands;
mod converting;
mod count;
mod engine;
mod etype_words;
mod failure;
mod fault;
mod fault_lines;
mod lines;
mod listing;
mod new_file;
mod of_type;
mod one_file;
mod pick;
mod remove;
mod replacing;
mod run;
mod service;
mod store;
mod target;
mod task;
mod walk;
mod whole;

pub use add::add_keys;
pub use checking::{CheckCcache, CheckKeytab};
pub use commands::{
    run_add, run_check_ccache, run_check_keytab, run_convert_ccache, run_convert_keytab,
    run_list_ccache, run_list_keytab, run_pick, run_remove,
};
pub use converting::{ConvertCcache, ConvertKeytab};
pub use engine::{Ended, Product, produce};
pub use failure::{FAILED, Failure, FailureText, REFUSED, WRONG_WORDS};
pub use fault::{AddFault, PickFault, service_status};
pub use fault_lines::{
    FaultLine, fault_line, file_line, hex_line, memory_line, name_line, word_line, write_line,
};
pub use listing::{CacheListing, ListKeytab};
pub use pick::PickKey;
pub use remove::RemoveKey;
pub use replacing::{Replacement, StepFailed, Unreplaced, replace};
pub use run::{complain, complain_of, open_file, run_product, source_of};
pub use service::{read_service, service_of};
