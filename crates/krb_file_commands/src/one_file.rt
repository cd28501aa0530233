//! Whether a name leads to a file that is open.

use std::fs;
use std::fs::{Metadata, OpenFile};
use std::os::unix::fs::MetadataExt;
use std::rt::Files;

/// Returns whether this name leads to the regular file that is open: also through a link, as another name of the file, or by
/// another path.
pub(crate) fn is_open_file<R: Files>(rt: &R, opened: &R::File, name: &str) -> bool {
    match (opened.metadata(), fs::metadata(rt, name)) {
        (Ok(opened), Ok(named)) => opened.is_file() && are_of_one_file(&opened, &named),
        _ => false,
    }
}

// No two files of a system have the same device and inode.
fn are_of_one_file(one: &Metadata, other: &Metadata) -> bool {
    one.dev() == other.dev() && one.ino() == other.ino()
}
