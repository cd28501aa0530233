//! Replacing a file by a new one, which is written beside it.

ghost use Rattle.std.specs.Prelude.{◌≡◌, Option, None, Err, IfErr, OnOk};
ghost use Rattle.krb_file_commands.specs.Replacing.{Becomes, Holds, IsAlone, IsEmpty, IsSafe, Stays, TwoFiles, created, removed, renamed, synced, written};

/// A step of a replacement failed.
#[derive(Clone, Copy)]
pub struct StepFailed;

/// Why a file wasn't replaced. It is as it was.
#[derive(Clone, Copy)]
pub enum Unreplaced {
    /// A step failed, and there is no new file.
    Failed,
    /// A step failed, and the new file is left, because it couldn't be removed.
    Left,
}

/// A file, and a new one beside it that is to take its place.
///
/// Only `put_in_place` changes what the file holds, and it does that at once.
pub trait Replacement {
    /// The two files, if they are known.
    ghost files: { Self → Option TwoFiles } = { λ _. None };

    /// Creates the new file. An error leaves none.
    fn create(&mut self) -> Result<(), StepFailed>
        ensures done { OnOk result (Becomes created (files self.old) (files self.new)) }
        ensures err { IfErr result (λ _. files self.new ≡ files self.old) };

    /// Writes the bytes to the end of the new file. After an error, it has unspecified bytes.
    fn write_all(&mut self, bytes: &[u8]) -> Result<(), StepFailed>
        ensures done { OnOk result (Becomes (written bytes.now) (files self.old) (files self.new)) }
        ensures err { IfErr result (λ _. Stays (files self.old) (files self.new)) };

    /// Waits until the disk has what the new file holds.
    fn sync(&mut self) -> Result<(), StepFailed>
        ensures done { OnOk result (Becomes synced (files self.old) (files self.new)) }
        ensures err { IfErr result (λ _. Stays (files self.old) (files self.new)) };

    /// Renames the new file, which takes the place of the old one. After an error, both are as they were.
    ///
    /// Condition: the disk has what the new file holds.
    fn put_in_place(&mut self) -> Result<(), StepFailed>
        requires { IsSafe (files self.old) }
        ensures done { OnOk result (Becomes renamed (files self.old) (files self.new)) }
        ensures err { IfErr result (λ _. files self.new ≡ files self.old) };

    /// Removes the new file.
    fn remove(&mut self) -> Result<(), StepFailed>
        ensures done { OnOk result (Becomes removed (files self.old) (files self.new)) }
        ensures err { IfErr result (λ _. Stays (files self.old) (files self.new)) };
}

/// Replaces the file by one that holds these bytes.
///
/// # Errors
/// The file is as it was.
/// - `Failed`: a step failed, and there is no new file.
/// - `Left`: a step failed, and the new file is left, because it couldn't be removed.
#[tactic(auto, using(crate::proofs::ReplaceLaws::created_empty, crate::proofs::ReplaceLaws::created_stays, crate::proofs::ReplaceLaws::removed_stays, crate::proofs::ReplaceLaws::removed_alone))]
pub fn replace<F: Replacement>(files: &mut F, bytes: &[u8]) -> Result<(), Unreplaced>
    requires { IsAlone (F.files files.old) }
    ensures replaced { OnOk result (Holds bytes.now (F.files files.new)) }
    ensures kept { IfErr result (λ _. Stays (F.files files.old) (F.files files.new)) }
    ensures alone { result ≡ Err Unreplaced.Failed → IsAlone (F.files files.new) }
{
    let Ok(()) = files.create() else {
        return Err(Unreplaced::Failed);
    };
    match fill(files, bytes) {
        Ok(()) => Ok(()),
        Err(StepFailed) => match files.remove() {
            Ok(()) => Err(Unreplaced::Failed),
            Err(StepFailed) => Err(Unreplaced::Left),
        },
    }
}

// Writes the bytes into the new file, which holds none yet, and puts it in place.
#[tactic(auto, using(crate::proofs::ReplaceLaws::written_stays, crate::proofs::ReplaceLaws::synced_stays, crate::proofs::ReplaceLaws::synced_safe, crate::proofs::ReplaceLaws::replaced))]
fn fill<F: Replacement>(files: &mut F, bytes: &[u8]) -> Result<(), StepFailed>
    requires { IsEmpty (F.files files.old) }
    ensures replaced { OnOk result (Holds bytes.now (F.files files.new)) }
    ensures kept { IfErr result (λ _. Stays (F.files files.old) (F.files files.new)) }
{
    files.write_all(bytes)?;
    files.sync()?;
    files.put_in_place()
}
