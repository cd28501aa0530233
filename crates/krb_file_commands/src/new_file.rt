//! A new file that takes the place of another.

ghost use Rattle.std.specs.Prelude.{◌≡◌, ◌++◌, IfOk, bit_and, codes, if◌then◌else◌, is_ok, string_bytes};
ghost use Rattle.hex.specs.Hex.{encode_lower};

use crate::replacing::{Replacement, StepFailed};
use crate::target::folder_of;
use std::alloc::{AllocError, Global};
use std::fs::{File, Metadata, OpenFile, OpenOptions, Permissions};
use std::io::Write;
use std::os::unix::fs::{MetadataExt, OpenOptionsExt, PermissionsExt, lchown};
use std::path::PathBuf;
use std::random::RandomSource;
use std::rt::Files;
use std::{fs, io};

/// The mode of a file that its owner alone may read and write.
pub(crate) const OWNER_ALONE: u32 = 0o600;

// What of a mode is for the owner and the group, and for the owner.
const OWNER_AND_GROUP: u32 = 0o770;

const OWNER: u32 = 0o700;

/// A new file in the folder of another, whose place it takes. Its name is `.krbtool-` and 16 hexadecimal digits.
#[derive(Drop)]
pub(crate) struct NewFile<'a, R: Files> {
    rt: &'a R,
    /// The path of the other, and what is known of it, if it is there.
    path: PathBuf,
    old: Option<Metadata>,
    /// The path of the new file, and the file once it is open.
    own_path: PathBuf,
    file: Option<R::File>,
}

impl<'a, R: AllocGlobal + Files + RandomSource> NewFile<'a, R> {
    /// Names a file that isn't created yet.
    ///
    /// # Errors
    /// The system has no random bytes, or there is no memory for the path.
    pub(crate) fn new(rt: &'a R, path: PathBuf, old: Option<Metadata>) -> io::Result<Self> {
        let mut random = [0u8; 8];
        rt.fill_bytes(&mut random)?;
        let name = name_of(rt.alloc(), random)?;
        let own_path = path.as_path().with_file_name(rt.alloc(), name.as_str())?;
        Ok(NewFile {
            rt,
            path,
            old,
            own_path,
            file: None,
        })
    }
}

fn name_of(alloc: Global, random: [u8; 8]) -> Result<String, AllocError>
    ensures { IfOk result (λ name. string_bytes name ≡ codes ".krbtool-" ++ encode_lower random) }
{
    let digits = hex::encode(alloc, random)?;
    format!(in alloc; ".krbtool-{digits}")
}

impl<R: Files> Replacement for NewFile<'_, R> {
    fn create(&mut self) -> Result<(), StepFailed> {
        let mut options = OpenOptions::new();
        let options = options.write(true).create_new(true).mode(OWNER_ALONE);
        match options.open(self.rt, &self.own_path) {
            Ok(file) => {
                self.file = Some(file);
                Ok(())
            }
            Err(_) => Err(StepFailed),
        }
    }

    fn write_all(&mut self, bytes: &[u8]) -> Result<(), StepFailed> {
        match &mut self.file {
            Some(file) => done(file.write_all(bytes)),
            None => Err(StepFailed),
        }
    }

    // The file gets the owner and the mode of the old one first.
    fn sync(&mut self) -> Result<(), StepFailed> {
        let Some(file) = &self.file else {
            return Err(StepFailed);
        };
        if let Some(old) = &self.old {
            keep_rights(self.rt, &self.own_path, file, old);
        }
        done(file.sync_all())
    }

    fn put_in_place(&mut self) -> Result<(), StepFailed> {
        done(fs::rename(self.rt, &self.own_path, &self.path))?;
        sync_folder(self.rt, folder_of(&self.path));
        Ok(())
    }

    fn remove(&mut self) -> Result<(), StepFailed> {
        done(fs::remove_file(self.rt, &self.own_path))
    }
}

fn done(step: io::Result<()>) -> Result<(), StepFailed>
    ensures { is_ok result ≡ is_ok step }
{
    match step {
        Ok(()) => Ok(()),
        Err(_) => Err(StepFailed),
    }
}

// Gives a new file the owner, the group and the mode of an old one, as far as this process may.
fn keep_rights<R: Files>(rt: &R, path: &PathBuf, file: &R::File, old: &Metadata) {
    let _ = lchown(rt, path, Some(old.uid()), None);
    let is_group_kept = lchown(rt, path, None, Some(old.gid())).is_ok();
    let mode = kept_mode(old.mode(), is_group_kept);
    let _ = file.set_permissions(Permissions::from_mode(mode));
}

/// Takes from others what a mode lets them do, and from the group if it isn't that of the file the mode is of.
pub(crate) fn kept_mode(mode: u32, is_group_kept: bool) -> u32
    ensures { result ≡ bit_and mode (if is_group_kept then 0o770 else 0o700) }
{
    if is_group_kept {
        mode & OWNER_AND_GROUP
    } else {
        mode & OWNER
    }
}

/// Takes from others what the mode of a file that is open lets them do, if this process may.
pub(crate) fn close_to_others<F: OpenFile>(file: &F) {
    if let Ok(found) = file.metadata() {
        let mode = kept_mode(found.mode(), true);
        if found.is_file() && mode != found.mode() & 0o777 {
            let _ = file.set_permissions(Permissions::from_mode(mode));
        }
    }
}

// A folder that can't be synced is left alone: the file is whole under its name by then.
fn sync_folder<R: Files>(rt: &R, folder: &str) {
    if let Ok(opened) = File::open(rt, folder) {
        let _ = opened.sync_all();
    }
}
