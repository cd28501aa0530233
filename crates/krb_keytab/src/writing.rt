//! Writing records into existing bytes.

ghost use Rattle.std.specs.Prelude.{◌≡◌, ◌+◌, ◌-◌, ◌<◌, ◌≤◌, ◌^◌, IfErr, OnErr, OnOk, Err, length, take, ◌++◌, vec_capacity};
ghost use Rattle.std.specs.Vec.{VecUnchanged};
ghost use Rattle.krb_keytab.specs.Entry.{LengthsFit, FitsEntry};
ghost use Rattle.krb_keytab.specs.Format.{record_bytes};
ghost use Rattle.krb_keytab.specs.Written.{padded_record, written_record, record_length};
ghost use Rattle.krb_keytab.specs.Edit.{zero_hole, AddsEntry, WouldGrow, WouldPass, IsUnadded};
ghost use Rattle.krb_keytab.specs.Inner.Finding.{IsFoundRoom};
ghost use Rattle.krb_keytab.specs.Inner.Room.{PutsIn};
ghost use Rattle.krb_keytab.specs.Inner.Putting.{Puts};

use crate::entry::Entry;
use crate::fault::KeytabFault;
use crate::finding::Room;
use crate::part::{Part, bytes_of_u32};
use crate::step::SIZE_LENGTH;
use krb_file::FILE_LIMIT;
use std::alloc::AllocError;

// Makes the bytes between two offsets a record of `entry`: its size, the entry, and zeros to the
// end.
fn fill_in(file: &mut Vec<u8>, from: usize, to: usize, entry: &Entry)
    requires lengths { LengthsFit entry.now.principal entry.now.key }
    requires room { from + record_length entry.now ≤ to }
    requires within { to ≤ length file.old.items }
    requires most { to < 2 ^ 31 }
    ensures filled { Puts file.old.items from
        (record_bytes (padded_record entry.now (to - from - record_length entry.now))) file.new.items }
    ensures fits { FitsEntry entry.now }
{
    fill_record(&mut file[from..to], entry);
}

/// Makes the bytes between two offsets a hole: its size, and zeros.
pub(crate) fn clear_in(file: &mut Vec<u8>, from: usize, to: usize)
    requires least { from + 4 < to }
    requires within { to ≤ length file.old.items }
    requires most { to < 2 ^ 31 }
    ensures { Puts file.old.items from (record_bytes (zero_hole (to - from - 4))) file.new.items }
{
    clear_record(&mut file[from..to]);
}

/// Cuts `file` off at an offset, and puts the record of `entry` there, which has `size` bytes. If
/// there is no memory, `file` is unchanged.
pub(crate) fn put_record(
    file: &mut Vec<u8>,
    at: usize,
    size: usize,
    entry: &Entry,
) -> Result<(), AllocError>
    requires at { at ≤ length file.old.items }
    requires size { size ≡ record_length entry.now }
    requires lengths { LengthsFit entry.now.principal entry.now.key }
    requires most { at + record_length entry.now < 2 ^ 31 }
    ensures ok { OnOk result (file.new.items ≡ take at file.old.items ++ record_bytes (written_record entry.now)) }
    ensures fits { OnOk result (FitsEntry entry.now) }
    ensures err { OnErr result (VecUnchanged file.old file.new) }
    ensures full { OnErr result (vec_capacity file.old < at + record_length entry.now) }
{
    file.resize(at + size, 0)?;
    fill_record(&mut file[at..], entry);
    Ok(())
}

/// Puts the record of `entry`, which has `size` bytes, into the room that was found for it.
///
/// # Errors
/// None if the room is a hole. After each, `file` is unchanged.
/// - `TooLong`: the longer file would have more than 16,777,216 bytes.
/// - `OutOfMemory`: there is no memory for the longer file.
pub(crate) fn put_in(
    file: &mut Vec<u8>,
    room: Room,
    size: usize,
    entry: &Entry,
) -> Result<(), KeytabFault>
    requires room { IsFoundRoom file.old.items (record_length entry.now) room }
    requires size { size ≡ record_length entry.now }
    requires lengths { LengthsFit entry.now.principal entry.now.key }
    ensures puts { PutsIn room entry.now file.old.items file.new.items result }
    ensures ok { OnOk result (AddsEntry file.old.items entry.now file.new.items) }
    ensures too_long { WouldPass file.old.items entry.now → result ≡ Err KeytabFault.TooLong }
    ensures unadded { IfErr result (IsUnadded file.old.items entry.now) }
    ensures memory { result ≡ Err KeytabFault.OutOfMemory
        → WouldGrow file.old.items entry.now (λ count. vec_capacity file.old < count) }
    ensures err { OnErr result (VecUnchanged file.old file.new) }
{
    match room {
        Room::Hole(hole) => {
            fill_in(file, hole.from, hole.to, entry);
            Ok(())
        }
        Room::End(end) => {
            if FILE_LIMIT - end < size {
                return Err(KeytabFault::TooLong);
            }
            put_record(file, end, size, entry)?;
            Ok(())
        }
    }
}

// Makes the bytes a record of `entry`: its size, the entry, and zeros to the end.
fn fill_record(out: &mut [u8], entry: &Entry)
    requires lengths { LengthsFit entry.now.principal entry.now.key }
    requires room { record_length entry.now ≤ length out.old }
    requires most { length out.old < 4 + 2 ^ 31 }
    ensures filled { out.new ≡ record_bytes (padded_record entry.now (length out.old - record_length entry.now)) }
    ensures fits { FitsEntry entry.now }
{
    let size = (out.len() - SIZE_LENGTH) as u32;
    let at = bytes_of_u32(size).put(out, 0);
    let end = entry.body().put(out, at);
    out[end..].fill(0);
}

// Makes the bytes a hole: its size, and zeros.
fn clear_record(out: &mut [u8])
    requires least { 4 < length out.old }
    requires most { length out.old < 4 + 2 ^ 31 }
    ensures { out.new ≡ record_bytes (zero_hole (length out.old - 4)) }
{
    let size = (out.len() - SIZE_LENGTH) as i32;
    let at = bytes_of_u32((-size).cast_unsigned()).put(out, 0);
    out[at..].fill(0);
}
