//! Opening a command's file.

ghost use Rattle.std.specs.Prelude.{◌≡◌, IfErr};

use krb_file::ReadSource;
use krb_file_commands::{open_file, source_of};
use std::io::BufReader;
use std::rt::Files;

/// Opens a file of the command, as a source. If that fails, it is printed, and the exit status is the error.
pub(crate) fn opened_source<R: AllocGlobal + Files + Eprint>(
    rt: &R,
    file: &str,
    command: &str,
) -> Result<ReadSource<BufReader<R::File>>, u8>
    ensures { IfErr result (λ status. status ≡ 3) }
{
    let opened = open_file(rt, file)?;
    source_of(rt, opened, command)
}
