//! The disk under the file of the acts, in memory.

use sqlite_disk::{Crash, Disk, Fuse, Memory};
use std::alloc::Global;
use std::process::Abort;

/// A disk that stops after so many calls.
pub(crate) type Stopping = Fuse<Memory>;

/// More calls than anything takes.
pub(crate) const ALWAYS: u64 = u64::MAX;

/// A disk that holds these bytes, all of them synced, and stops after so many calls.
pub(crate) fn disk_of(rt: &impl Abort, alloc: Global, bytes: &[u8], calls: u64) -> Stopping {
    let mut file = Memory::new(alloc);
    assert!(rt; file.write_at(0, bytes).is_ok());
    assert!(rt; file.sync().is_ok());
    Fuse::new(file, calls)
}

/// What a disk holds.
#[derive(Drop)]
pub(crate) struct Held {
    /// The bytes as they are read.
    pub(crate) written: Vec<u8>,
    /// Those at its last sync.
    pub(crate) synced: Vec<u8>,
    /// It took each call, and takes one more.
    pub(crate) has_spare: bool,
}

impl Held {
    pub(crate) fn by(rt: &impl Abort, alloc: Global, disk: Stopping) -> Held {
        let mut disk = disk;
        let has_spare = disk.may_be_used() && disk.len().is_ok();
        let written = disk.inner().bytes().to_vec(alloc).expect(rt, "memory");
        disk.crash();
        let synced = disk.inner().bytes().to_vec(alloc).expect(rt, "memory");
        drop(disk);
        Held {
            written,
            synced,
            has_spare,
        }
    }

    /// Whether it has these bytes, as they are read and after a stop.
    pub(crate) fn is(&self, bytes: &[u8]) -> bool {
        self.written.as_slice() == bytes && self.synced.as_slice() == bytes
    }
}
