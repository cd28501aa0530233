//! What the name of a file to write leads to.

ghost use Rattle.std.specs.Prelude.{◌≡◌, ◌↔◌, IsTrue};
ghost use Rattle.std.specs.Path.{path_buf_bytes, path_parent};
ghost use Rattle.krb_file_commands.specs.Inner.Paths.{EndsInName, folder_by};

use std::fs::Metadata;
use std::io::ErrorKind;
use std::path::PathBuf;
use std::rt::Files;
use std::{fs, io};

// How many links are followed, as many as Linux follows.
const LINKS: usize = 40;

// What the descriptors of a process are found under.
const PROCESSES: &str = "/proc";

/// What a name leads to.
#[derive(Drop)]
pub(crate) enum Target {
    /// A regular file, or none yet.
    File {
        /// Its path, whose last part isn't a link.
        path: PathBuf,
        /// What is known of it, if it is there.
        old: Option<Metadata>,
    },
    /// Anything else: a device, a pipe, a folder, or a descriptor of a process.
    Other,
}

// What a path leads to, or the path that a link names.
#[derive(Drop)]
enum Step {
    At(Target),
    Link(PathBuf),
}

/// Follows the links of a name.
///
/// # Errors
/// - `FilesystemLoop`: there are more than 40 links.
/// - `OutOfMemory`: there is no memory for a path.
/// - Those of the system.
pub(crate) fn target_of<R: AllocGlobal + Files>(rt: &R, name: &str) -> io::Result<Target> {
    let mut path = PathBuf::from_str(rt.alloc(), name)?;
    for _ in 0..LINKS {
        match look_at(rt, path)? {
            Step::At(target) => return Ok(target),
            Step::Link(next) => path = next,
        }
    }
    Err(io::Error::from(ErrorKind::FilesystemLoop))
}

fn look_at<R: AllocGlobal + Files>(rt: &R, path: PathBuf) -> io::Result<Step> {
    if !has_name(&path) {
        return Ok(Step::At(Target::Other));
    }
    match fs::symlink_metadata(rt, &path) {
        Ok(found) if found.is_symlink() => followed(rt, path),
        Ok(found) if found.is_file() => Ok(Step::At(Target::File {
            path,
            old: Some(found),
        })),
        Ok(_) => Ok(Step::At(Target::Other)),
        Err(error) if error.kind() == ErrorKind::NotFound => {
            Ok(Step::At(Target::File { path, old: None }))
        }
        Err(error) => Err(error),
    }
}

// Whether the path ends in a name, and not in `..`, `.` or a slash, which name folders.
fn has_name(path: &PathBuf) -> bool
    ensures { IsTrue result ↔ EndsInName (path_buf_bytes path.now) }
{
    match path.file_name() {
        Some(name) => path.as_str().ends_with(name),
        None => false,
    }
}

// A link below /proc may name an open file that has no path.
fn followed<R: AllocGlobal + Files>(rt: &R, link: PathBuf) -> io::Result<Step> {
    if fs::canonicalize(rt, folder_of(&link))?.starts_with(PROCESSES) {
        return Ok(Step::At(Target::Other));
    }
    let named = fs::read_link(rt, &link)?;
    let mut path = link;
    path.set_file_name(named.as_str())?;
    Ok(Step::Link(path))
}

/// The folder of a file.
pub(crate) fn folder_of(path: &PathBuf) -> &str
    ensures { result.now ≡ folder_by (path_parent (path_buf_bytes path.entry.now)) }
{
    match path.parent() {
        Some(folder) if !folder.as_str().is_empty() => folder.as_str(),
        _ => ".",
    }
}
