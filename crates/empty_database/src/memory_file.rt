//! A file in memory, which is gone with the process.

ghost use Rattle.std.specs.Prelude.{◌≡◌, [], length, false, true, refl, is_ok, IfOk, OnOk};
ghost use Rattle.sqlite_disk.specs.Disk.{Holds, Mixed, Cut, CountsFault};
ghost use Rattle.sqlite_disk.specs.Refusal.{finds_no_room};

use sqlite_disk::{Disk, Tally};
use std::alloc::{AllocError, Global};
use std::io;

/// A file that is kept in memory. What is written is there, and nothing else is: a sync has nothing to do, and no read has to
/// be tested.
#[derive(Drop)]
pub struct MemoryFile {
    bytes: Vec<u8>,
    /// How many calls have failed, since there was no memory or nothing was there.
    faults: u64,
}

impl MemoryFile {
    ghost use Rattle.empty_database.specs.File.{bytes_of};

    /// An empty file.
    pub fn new(alloc: Global) -> MemoryFile
        ensures { bytes_of result ≡ [] }
    {
        MemoryFile {
            bytes: Vec::new(alloc),
            faults: 0,
        }
    }

    /// A file of these bytes.
    pub fn of(alloc: Global, bytes: &[u8]) -> Result<MemoryFile, AllocError>
        ensures { IfOk result (λ file. bytes_of file ≡ bytes.now) }
    {
        let mut file = MemoryFile::new(alloc);
        file.bytes.extend_from_slice(bytes)?;
        Ok(file)
    }
}

impl Disk for MemoryFile {
    ghost seen = { λ m. m.bytes.items };

    ghost may_leave = { λ m left. left ≡ m.bytes.items };

    ghost is_usable = { λ _. true };

    ghost faults = { λ m. m.faults };

    ghost is_clean = { λ _. true };

    ghost tally_of = { λ _. record { caught = 0; refused = 0 } };

    ghost key_of = { λ _. 0 };

    ghost is_fair = { λ _ _. true };

    ghost is_mixing = { λ _. true };

    ghost fair_if_clean = { λ _ _ _. refl };

    ghost seen_may_stay = { λ _. refl };

    fn mixes(&self) -> bool {
        true
    }

    fn key(&self) -> u64 {
        0
    }

    fn tally(&self) -> Tally {
        Tally {
            caught: 0,
            refused: 0,
        }
    }

    fn may_be_used(&self) -> bool {
        true
    }

    fn len(&mut self) -> io::Result<usize> {
        Ok(self.bytes.len())
    }

    fn read_at(&mut self, at: usize, buf: &mut [u8]) -> io::Result<()> {
        if at > self.bytes.len() || buf.len() > self.bytes.len() - at {
            self.faults = self.faults.saturating_add(1);
            return Err(io::ErrorKind::UnexpectedEof.into());
        }
        buf.copy_from_slice(&self.bytes[at..at + buf.len()]);
        Ok(())
    }

    fn read_checked(&mut self, _key: u64, _want: u64, at: usize, buf: &mut [u8]) -> io::Result<()> {
        self.read_at(at, buf)
    }

    fn write_at(&mut self, at: usize, bytes: &[u8]) -> io::Result<()> {
        count(overwrite(&mut self.bytes, at, bytes), &mut self.faults)
    }

    fn set_len(&mut self, len: usize) -> io::Result<()> {
        count(resize(&mut self.bytes, len), &mut self.faults)
    }

    fn sync(&mut self) -> io::Result<()> {
        Ok(())
    }
}

/// Counts a call that failed for want of memory.
fn count(outcome: Result<(), AllocError>, faults: &mut u64) -> io::Result<()>
    ensures variant { is_ok result ≡ is_ok outcome }
    ensures kind { finds_no_room result ≡ false }
    ensures faults { CountsFault result faults.old faults.new }
{
    if outcome.is_err() {
        *faults = faults.saturating_add(1);
        return Err(io::ErrorKind::OutOfMemory.into());
    }
    Ok(())
}

fn resize(bytes: &mut Vec<u8>, len: usize) -> Result<(), AllocError>
    ensures len { OnOk result (length bytes.new.items ≡ len) }
    ensures others { Cut len bytes.old.items bytes.new.items }
{
    bytes.resize(len, 0)
}

fn overwrite(file: &mut Vec<u8>, at: usize, bytes: &[u8]) -> Result<(), AllocError>
    ensures written { OnOk result (Holds file.new.items at bytes.now) }
    ensures others { Mixed at bytes.now file.old.items file.new.items }
{
    let end = at.checked_add(bytes.len()).ok_or(AllocError)?;
    if end > file.len() {
        resize(file, end)?;
    }
    file[at..end].copy_from_slice(bytes);
    Ok(())
}
