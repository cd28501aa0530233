//! Standard streams that were closed before the program began.

use std::fs::File;
use std::io;
use std::os::fd::{AsRawFd, RawFd};

/// What takes the place of a stream that was closed: a folder, from which no byte can be read, and to which none can be written.
pub(crate) const NOWHERE: &str = "/";

const STANDARD_ERROR: RawFd = 2;

/// The descriptors of closed streams, which are taken as long as this value is there.
#[derive(Drop)]
pub(crate) struct HeldStreams {
    _input: Option<File>,
    _output: Option<File>,
    _error: Option<File>,
}

/// Takes the descriptors 0, 1 and 2 if they are free.
///
/// A file that is opened gets the lowest free descriptor. Without this, a file that is opened after a standard
/// stream was closed would become that stream, and answers and faults would be written into it. Reading and writing
/// what is taken fails, as on a closed stream.
///
/// # Errors
/// The folder can't be opened.
pub(crate) fn hold_streams(rt: &HostRuntime) -> io::Result<HeldStreams> {
    Ok(HeldStreams {
        _input: hold_one(rt)?,
        _output: hold_one(rt)?,
        _error: hold_one(rt)?,
    })
}

// Takes the lowest free descriptor, if it is a standard stream's.
fn hold_one(rt: &HostRuntime) -> io::Result<Option<File>> {
    let file = File::open(rt, NOWHERE)?;
    if file.as_raw_fd() <= STANDARD_ERROR {
        Ok(Some(file))
    } else {
        Ok(None)
    }
}
