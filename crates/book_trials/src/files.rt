//! Files in memory, as they stand and as a stop of their disks leaves them: the two of the books, and others.

use sqlite::Files;
use sqlite_disk::{Crash, Disk, Memory};
use std::alloc::Global;
use trial_disk::{Failing, Failure};

/// A disk in memory of which some calls fail.
pub type Stopping = Failing<Memory>;

/// How much of a file a disk writes at once.
const SECTOR: usize = 512;

/// A file as it stands, and as it stood at its last sync.
#[derive(Drop)]
pub struct Stored {
    written: Vec<u8>,
    synced: Vec<u8>,
    /// How many of its calls read bytes, and how many failed.
    reads: u64,
    refused: u64,
}

/// The two files.
#[derive(Drop)]
pub struct Pair {
    log: Stored,
    db: Stored,
}

/// Which calls of each file fail.
#[derive(Clone, Copy)]
pub struct Failures {
    /// Those of the log.
    pub log: Failure,
    /// Those of the database.
    pub db: Failure,
}

impl Failures {
    /// No call fails.
    pub const NONE: Failures = Failures {
        log: Failure::NONE,
        db: Failure::NONE,
    };
}

/// What of a file is lost that was written after its last sync.
#[derive(Clone, Copy)]
pub enum Loss {
    /// Nothing.
    Nothing,
    /// All.
    All,
    /// Every other sector.
    Torn,
}

fn copied(alloc: Global, bytes: &[u8]) -> Option<Vec<u8>> {
    bytes.to_vec(alloc).ok()
}

// What was written, with every other sector as it was synced.
fn torn(alloc: Global, written: &[u8], synced: &[u8]) -> Option<Vec<u8>> {
    let mut bytes = copied(alloc, written)?;
    for (at, byte) in bytes.iter_mut().enumerate() {
        if at / SECTOR % 2 == 1 {
            *byte = synced.get(at).copied().unwrap_or(0);
        }
    }
    Some(bytes)
}

impl Stored {
    fn empty(alloc: Global) -> Stored {
        Stored {
            written: Vec::new(alloc),
            synced: Vec::new(alloc),
            reads: 0,
            refused: 0,
        }
    }

    /// A file that is synced.
    pub fn holding(alloc: Global, bytes: Vec<u8>) -> Option<Stored> {
        let synced = copied(alloc, bytes.as_slice())?;
        Some(Stored {
            written: bytes,
            synced,
            reads: 0,
            refused: 0,
        })
    }

    /// The file that the disk holds.
    pub fn of(alloc: Global, disk: Stopping) -> Option<Stored> {
        let mut disk = disk;
        let (reads, refused) = (disk.reads(), disk.refused());
        let written = copied(alloc, disk.inner().bytes());
        disk.crash();
        let synced = copied(alloc, disk.inner().bytes());
        drop(disk);
        match (written, synced) {
            (Some(written), Some(synced)) => Some(Stored {
                written,
                synced,
                reads,
                refused,
            }),
            _ => None,
        }
    }

    /// A disk that holds the file, and stops after so many calls.
    pub fn disk(&self, alloc: Global, calls: u64) -> Option<Stopping> {
        self.failing(alloc, Failure::stop(calls))
    }

    // A disk that holds the file, and of which these calls fail.
    fn failing(&self, alloc: Global, failure: Failure) -> Option<Stopping> {
        let mut file = Memory::new(alloc);
        let is_made = file.write_at(0, self.synced.as_slice()).is_ok()
            && file.sync().is_ok()
            && file.set_len(self.written.len()).is_ok()
            && file.write_at(0, self.written.as_slice()).is_ok();
        match is_made {
            true => Some(Failing::new(file, failure)),
            false => None,
        }
    }

    fn left(&self, alloc: Global, loss: Loss) -> Option<Stored> {
        let (written, synced) = (self.written.as_slice(), self.synced.as_slice());
        let bytes = match loss {
            Loss::Nothing => copied(alloc, written),
            Loss::All => copied(alloc, synced),
            Loss::Torn => torn(alloc, written, synced),
        };
        match bytes {
            Some(bytes) => Stored::holding(alloc, bytes),
            None => None,
        }
    }

    /// Its bytes as they are read.
    pub fn written(&self) -> &[u8] {
        self.written.as_slice()
    }

    /// Those at its last sync.
    pub fn synced(&self) -> &[u8] {
        self.synced.as_slice()
    }

    fn is_synced(&self) -> bool {
        self.written.as_slice() == self.synced.as_slice()
    }
}

impl Pair {
    fn both(log: Option<Stored>, db: Option<Stored>) -> Option<Pair> {
        match (log, db) {
            (Some(log), Some(db)) => Some(Pair { log, db }),
            _ => None,
        }
    }

    /// A file of the books that holds these bytes, and a log with nothing in it.
    pub fn holding(alloc: Global, bytes: Vec<u8>) -> Option<Pair> {
        Pair::both(Some(Stored::empty(alloc)), Stored::holding(alloc, bytes))
    }

    /// Files with nothing in them.
    pub fn empty(alloc: Global) -> Pair {
        Pair {
            log: Stored::empty(alloc),
            db: Stored::empty(alloc),
        }
    }

    /// The files that the disks hold.
    pub fn of(alloc: Global, files: Files<Stopping>) -> Option<Pair> {
        let Files { log, db } = files;
        Pair::both(Stored::of(alloc, log), Stored::of(alloc, db))
    }

    /// Disks that hold the files, and of which these calls fail.
    pub fn disks(&self, alloc: Global, failures: Failures) -> Option<Files<Stopping>> {
        match (
            self.log.failing(alloc, failures.log),
            self.db.failing(alloc, failures.db),
        ) {
            (Some(log), Some(db)) => Some(Files { log, db }),
            _ => None,
        }
    }

    /// The files as a stop leaves them.
    pub fn left(&self, alloc: Global, log: Loss, db: Loss) -> Option<Pair> {
        Pair::both(self.log.left(alloc, log), self.db.left(alloc, db))
    }

    /// Whether the database has the same bytes. Its log is begun anew at each opening.
    pub fn is_same_database(&self, other: &Pair) -> bool {
        self.db.written.as_slice() == other.db.written.as_slice()
    }

    /// Of how many of the files a stop can lose what was written.
    pub fn unsynced(&self) -> usize {
        usize::from(!self.log.is_synced()) + usize::from(!self.db.is_synced())
    }

    /// How often the disks were read.
    pub fn reads(&self) -> u64 {
        self.log.reads.saturating_add(self.db.reads)
    }

    /// How many calls of the disks failed.
    pub fn refused(&self) -> u64 {
        self.log.refused.saturating_add(self.db.refused)
    }
}
