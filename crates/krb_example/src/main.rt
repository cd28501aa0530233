//! The examples of the documents, so that they are proved. The program runs the one of docs/LIBRARY.md, which is the file `hello.rt`.
//! Those of the crates' documentation stand in functions of the other files, word for word (tests/documents compares them).
#![tactic(auto)]

mod exchange;
mod files;
mod hello;
mod wire;

use anyhow::Result;

fn main(rt: HostRuntime) -> Result<()> {
    hello::main(rt)
}
