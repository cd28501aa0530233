//! Running a command: each is in the crate of its kind.

ghost use Rattle.std.specs.Prelude.{◌≤◌};

use krb_client_commands::{run_finish, run_request};
use krb_command_line::Command;
use krb_file_commands::{
    run_add, run_check_ccache, run_check_keytab, run_convert_ccache, run_convert_keytab,
    run_list_ccache, run_list_keytab, run_pick, run_remove,
};
use krb_service_command::{run_accept, run_explain};
use std::io::Input;
use std::random::RandomSource;
use std::rt::Files;
use std::time::Clock;

/// Runs a command, and returns the exit status: 0 if all is well, 1 if content is refused, 2 if
/// the words are wrong, 3 if a file, the output or memory failed.
pub(crate) fn run<R: AllocGlobal + Files + RandomSource + Clock + Input + Print + Eprint>(
    rt: &R,
    command: Command<'_>,
) -> u8
    ensures { result ≤ 3 }
{
    match command {
        Command::ListKeytab { file, readable } => run_list_keytab(rt, file, readable),
        Command::ListCcache { file, form } => run_list_ccache(rt, file, form),
        Command::CheckKeytab { file } => run_check_keytab(rt, file),
        Command::CheckCcache { file } => run_check_ccache(rt, file),
        Command::ConvertKeytab { file, out, replace } => run_convert_keytab(rt, file, out, replace),
        Command::ConvertCcache { file, out, replace } => run_convert_ccache(rt, file, out, replace),
        Command::Request(words) => run_request(rt, words),
        Command::Accept(words) => run_accept(rt, words),
        Command::Explain(words) => run_explain(rt, words),
        Command::Finish(words) => run_finish(rt, words),
        Command::PickKey(words) => run_pick(rt, words),
        Command::RemoveKey(words) => run_remove(rt, words),
        Command::AddKeys(words) => run_add(rt, words),
    }
}
