//! Files that are read from a source.

/// How many bytes a file may have: 16,777,216. A reader takes no more than one byte past it.
pub const FILE_LIMIT: usize = 16_777_216;
