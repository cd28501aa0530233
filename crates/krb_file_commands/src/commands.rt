//! The commands on files, by the words of the command line.

ghost use Rattle.std.specs.Prelude.{◌≡◌, ◌≢◌, ◌<◌, ◌≤◌, ◌^◌, ℕ, IfErr};
ghost use Rattle.krb_file_commands.specs.OfType.{IsUsableType};
ghost use Rattle.krb_file_commands.specs.Tasks.{IsUnreadPick};
ghost use Rattle.krb_file_commands.specs.Words.{AsksListing, FitsListing, IsNumber};
ghost use Rattle.krb_file_commands.specs.declared.listing.CacheListing.{CacheListing};
ghost use Rattle.krb_file_commands.specs.declared.task.UnreadPick.{UnreadPick};
ghost use Rattle.krb_file_commands.specs.declared.task.UnreadPick.TheVariants.{Name};
ghost use Rattle.krb_name.specs.declared.text_fault.TextFault.TheVariants.{OutOfMemory};

use crate::add::add_keys;
use crate::checking::{CheckCcache, CheckKeytab};
use crate::converting::{ConvertCcache, ConvertKeytab};
use crate::engine::Product;
use crate::failure::{REFUSED, WRONG_WORDS};
use crate::fault::{AddFault, service_status};
use crate::fault_lines::{name_line, type_line, word_line};
use crate::of_type::is_usable_type;
use crate::run::{complain, complain_of, open_file, run_product, source_of};
use crate::store::{run_storing, store};
use crate::task::{
    Addition, Task, To, UnreadPick, addition_of, ccache_listing_of, copy_of, keytab_listing_of,
    pick_of_words, removal_of,
};
use krb_command_line::{AddWords, CacheForm, PickWords, RemoveWords};
use std::random::RandomSource;
use std::rt::Files;

/// Lists a keytab, and returns the exit status.
pub fn run_list_keytab<R: AllocGlobal + Files + Print + Eprint>(
    rt: &R,
    file: &str,
    readable: bool,
) -> u8
    ensures known { result ≤ 3 }
    ensures ran { result ≢ 2 }
{
    print_task(rt, "list-keytab", &keytab_listing_of(file, readable))
}

/// Lists a credential cache, and returns the exit status.
pub fn run_list_ccache<R: AllocGlobal + Files + Print + Eprint>(
    rt: &R,
    file: &str,
    form: CacheForm<'_>,
) -> u8
    ensures known { result ≤ 3 }
    ensures words { result ≡ 2 → (listing : CacheListing) → FitsListing listing → ¬ AsksListing form.entry listing }
{
    match ccache_listing_of(file, form) {
        Some(task) => print_task(rt, "list-ccache", &task),
        None => WRONG_WORDS,
    }
}

/// Checks a keytab, and returns the exit status.
pub fn run_check_keytab<R: AllocGlobal + Files + Print + Eprint>(rt: &R, file: &str) -> u8
    ensures known { result ≤ 3 }
    ensures ran { result ≢ 2 }
{
    run_product(rt, &CheckKeytab, "check-keytab", file, None)
}

/// Checks a credential cache, and returns the exit status.
pub fn run_check_ccache<R: AllocGlobal + Files + Print + Eprint>(rt: &R, file: &str) -> u8
    ensures known { result ≤ 3 }
    ensures ran { result ≢ 2 }
{
    run_product(rt, &CheckCcache, "check-ccache", file, None)
}

/// Writes a keytab again, into OUT, and returns the exit status. OUT is emptied first, or replaced.
pub fn run_convert_keytab<R: AllocGlobal + Files + RandomSource + Print + Eprint>(
    rt: &R,
    file: &str,
    out: &str,
    replace: bool,
) -> u8
    ensures known { result ≤ 3 }
    ensures ran { result ≢ 2 }
{
    let (task, to) = copy_of(ConvertKeytab, file, out, replace);
    write_task(rt, "convert-keytab", &task, to)
}

/// Writes a credential cache again, into OUT, and returns the exit status. OUT is emptied first, or replaced.
pub fn run_convert_ccache<R: AllocGlobal + Files + RandomSource + Print + Eprint>(
    rt: &R,
    file: &str,
    out: &str,
    replace: bool,
) -> u8
    ensures known { result ≤ 3 }
    ensures ran { result ≢ 2 }
{
    let (task, to) = copy_of(ConvertCcache, file, out, replace);
    write_task(rt, "convert-ccache", &task, to)
}

// Prints what a command of this name makes, and returns the exit status.
fn print_task<R: AllocGlobal + Files + Print + Eprint, P: Product>(
    rt: &R,
    command: &str,
    task: &Task<'_, P>,
) -> u8
    ensures known { result ≤ 3 }
    ensures ran { result ≢ 2 }
{
    run_product(rt, &task.product, command, task.file, None)
}

// Writes what a command of this name makes, and returns the exit status.
fn write_task<R: AllocGlobal + Files + RandomSource + Print + Eprint, P: Product>(
    rt: &R,
    command: &str,
    task: &Task<'_, P>,
    to: To<'_>,
) -> u8
    ensures known { result ≤ 3 }
    ensures ran { result ≢ 2 }
{
    match to {
        To::Emptied(out) => run_product(rt, &task.product, command, task.file, Some(out)),
        To::Replaced(out) => run_storing(rt, &task.product, command, task.file, out),
    }
}

/// Prints the entry of the keytab that is picked, and returns the exit status. If the encryption type isn't usable, that is printed after
/// the entry, and the status is 1.
pub fn run_pick<R: AllocGlobal + Files + Print + Eprint>(rt: &R, words: PickWords<'_>) -> u8
    ensures known { result ≤ 3 }
    ensures words { result ≡ 2 → (why : UnreadPick) × (why ≢ Name OutOfMemory) × IsUnreadPick words.entry why }
{
    match pick_of_words(rt.alloc(), words) {
        Ok(task) => {
            let status = print_task(rt, "pick-key", &task);
            noted(rt, status, task.product.etype)
        }
        Err(UnreadPick::Etype) => complain(rt, word_line("etype"), WRONG_WORDS),
        Err(UnreadPick::Version) => WRONG_WORDS,
        Err(UnreadPick::Name(fault)) => {
            complain(rt, name_line("name", &fault), service_status(&fault))
        }
    }
}

// A line of a type that isn't usable was printed: so is that it isn't.
fn noted<R: Eprint>(rt: &R, status: u8, etype: i32) -> u8
    ensures usable { IsUsableType etype → result ≡ status }
    ensures unusable { ¬ IsUsableType etype → status ≡ 0 → result ≡ 1 }
    ensures failed { status ≢ 0 → result ≡ status }
{
    if status == 0 && !is_usable_type(etype) {
        complain(rt, type_line("pick-key"), REFUSED)
    } else {
        status
    }
}

/// Writes a keytab without an entry into OUT, or into itself, and returns the exit status.
pub fn run_remove<R: AllocGlobal + Files + RandomSource + Print + Eprint>(
    rt: &R,
    words: RemoveWords<'_>,
) -> u8
    ensures known { result ≤ 3 }
    ensures words { result ≡ 2 → (index : ℕ) → index < 2 ^ 64 → ¬ IsNumber words.entry.index.now index }
{
    match removal_of(words) {
        Some((task, out)) => run_storing(rt, &task.product, "remove-key", task.file, out),
        None => WRONG_WORDS,
    }
}

/// Writes a keytab with the keys of another into OUT, or into itself, and returns the exit status.
pub fn run_add<R: AllocGlobal + Files + RandomSource + Print + Eprint>(
    rt: &R,
    words: AddWords<'_>,
) -> u8
    ensures known { result ≤ 3 }
    ensures ran { result ≢ 2 }
{
    let files = addition_of(words);
    match extended(rt, files) {
        Ok(Ok(bytes)) => store(rt, &bytes, "add-keys", files.out),
        Ok(Err(fault)) => complain_of(rt, &fault, files.faulty(&fault), "add-keys"),
        Err(status) => status,
    }
}

// The keytab with the keys of the other. If a file can't be read, that is printed, and the exit status is the error.
fn extended<R: AllocGlobal + Files + Eprint>(
    rt: &R,
    files: Addition<'_>,
) -> Result<Result<Vec<u8>, AddFault>, u8>
    ensures { IfErr result (λ status. status ≡ 3) }
{
    let keytab = open_file(rt, files.keytab)?;
    let from = open_file(rt, files.from)?;
    let mut source = source_of(rt, keytab, "add-keys")?;
    let mut others = source_of(rt, from, "add-keys")?;
    Ok(add_keys(rt.alloc(), &mut source, &mut others))
}
