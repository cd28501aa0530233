//! What the program says of a command that failed, and its exit status.

ghost use Rattle.std.specs.Prelude.{◌≡◌, ◌≢◌, ◌≤◌, ℕ, List};
ghost use Rattle.krb_file_commands.specs.FaultText.{FaultText};

/// What is printed of a fault: its name, and its offset in bytes if it has one.
pub type FailureText = (&'static str, Option<usize>);

/// Why a command ended early.
pub trait Failure: Copy {
    // What is printed of it.
    ghost printed: { Self → FaultText };

    // The exit status that it leads to.
    ghost exit_status: { Self → ℕ };

    // What it is of, by the names of a file and of a command.
    ghost subject: { Self → List ℕ → List ℕ → List ℕ };

    /// Returns what is printed of the fault.
    fn text(&self) -> FailureText
        ensures { (result.0.now, result.1) ≡ printed self.now };

    /// Returns the exit status for the fault: 3 if a file, an input, an output or memory failed, 1 if content is
    /// refused.
    fn status(&self) -> u8
        ensures status { result ≡ exit_status self.now }
        ensures failed { 1 ≤ result }
        ensures known { result ≤ 3 }
        ensures ran { result ≢ 2 };

    /// Returns what the fault is of: the file, the command, or a stream.
    fn named<'a>(&self, file: &'a str, command: &'a str) -> &'a str
        ensures { result.now ≡ subject self.now file.entry.now command.entry.now };
}

/// The command line is wrong.
pub const WRONG_WORDS: u8 = 2;

/// The content of a file is refused.
pub const REFUSED: u8 = 1;

/// A file, an output or memory failed.
pub const FAILED: u8 = 3;
