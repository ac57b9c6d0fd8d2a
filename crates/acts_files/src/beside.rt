//! What a file has at a place.

ghost use Rattle.std.specs.Prelude.{◌≡◌, ◌+◌, ◌≤◌, ◌++◌, ℕ, List, IsTrue, IfOk, IfErr, OnOk, true, false, length};
ghost use Rattle.sqlite_disk.specs.Disk.{Holds};
ghost use Rattle.histories.specs.Reading.{IsLine};
ghost use Rattle.acts_files.specs.Kept.{IsSameFile};
ghost use Rattle.acts_files.specs.Faults.{IsOfFile};

use crate::fault::ActsFault;
use histories::LINE_MAX;
use sqlite_disk::Disk;
use std::alloc::Global;

/// How many bytes the file has.
pub(crate) fn file_len<D: Disk>(disk: &mut D) -> Result<usize, ActsFault>
    ensures same { IsSameFile D.Disk disk.old disk.new }
    ensures steady { OnOk result (D.Disk.faults disk.new ≡ D.Disk.faults disk.old) }
    ensures len { IfOk result (λ len. IsTrue (D.Disk.is_clean disk.new) → len ≡ length (D.Disk.seen disk.old)) }
    ensures fault { IfErr result IsOfFile }
{
    if !disk.may_be_used() {
        return Err(ActsFault::File);
    }
    Ok(disk.len()?)
}

/// So many bytes that the file has there.
pub(crate) fn bytes_at<D: Disk>(
    alloc: Global,
    disk: &mut D,
    at: usize,
    len: usize,
) -> Result<Vec<u8>, ActsFault>
    ensures same { IsSameFile D.Disk disk.old disk.new }
    ensures usable { OnOk result (IsTrue (D.Disk.is_usable disk.new)) }
    ensures long { IfOk result (λ found. length found.items ≡ len) }
    ensures read { IfOk result (λ found. IsTrue (D.Disk.is_clean disk.new) → at + len ≤ length (D.Disk.seen disk.old) → Holds (D.Disk.seen disk.old) at found.items) }
    ensures fault { IfErr result IsOfFile }
{
    if !disk.may_be_used() {
        return Err(ActsFault::File);
    }
    let mut found = Vec::new(alloc);
    found.resize(len, 0)?;
    disk.read_at(at, found.as_mut_slice())?;
    Ok(found)
}

/// Whether the file, which has so many bytes, has these there.
pub(crate) fn has_there<D: Disk>(
    alloc: Global,
    disk: &mut D,
    size: usize,
    at: usize,
    bytes: &[u8],
) -> Result<bool, ActsFault>
    ensures same { IsSameFile D.Disk disk.old disk.new }
    ensures within { IfOk result (λ is. is ≡ true → at + length bytes.now ≤ size) }
    ensures there { IfOk result (λ is. is ≡ true → IsTrue (D.Disk.is_clean disk.new) → size ≡ length (D.Disk.seen disk.old) → Holds (D.Disk.seen disk.old) at bytes.now) }
    ensures other { IfOk result (λ is. is ≡ false → IsTrue (D.Disk.is_clean disk.new) → size ≡ length (D.Disk.seen disk.old) → ¬ Holds (D.Disk.seen disk.old) at bytes.now) }
    ensures fault { IfErr result IsOfFile }
{
    if size < at || size - at < bytes.len() {
        return Ok(false);
    }
    let found = bytes_at(alloc, disk, at, bytes.len())?;
    Ok(found.as_slice() == bytes)
}

/// The first line that the file has, with its line feed; where none is whole among its first [`LINE_MAX`] bytes, these bytes.
pub fn first_line<D: Disk>(alloc: Global, disk: &mut D) -> Result<Vec<u8>, ActsFault>
    ensures same { IsSameFile D.Disk disk.old disk.new }
    ensures line { IfOk result (λ found. IsTrue (D.Disk.is_clean disk.new) → (line more : List ℕ) → D.Disk.seen disk.old ≡ line ++ more → IsLine line → length line ≤ 8_192 → found.items ≡ line) }
    ensures fault { IfErr result IsOfFile }
{
    let size = file_len(disk)?;
    let mut head = bytes_at(alloc, disk, 0, size.min(LINE_MAX))?;
    head.truncate(line_len(head.as_slice()));
    Ok(head)
}

/// How many bytes the line has with which these begin; all of them, where there is none.
fn line_len(bytes: &[u8]) -> usize
    ensures { (line more : List ℕ) → bytes.now ≡ line ++ more → IsLine line → result ≡ length line }
{
    for (i, byte) in bytes.iter().enumerate() {
        if *byte == b'\n' {
            return i + 1;
        }
    }
    bytes.len()
}
