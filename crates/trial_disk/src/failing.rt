//! A disk that passes calls on, fails some, and passes on those after them.

ghost use Rattle.std.specs.Prelude.{◌≡◌, ◌+◌, ◌&&◌, not, false};
ghost use Rattle.sqlite_disk.specs.Disk.{CountsFault};
ghost use Rattle.sqlite_disk.specs.Refusal.{finds_no_room};

use sqlite_disk::{Crash, Disk, Tally};
use std::io;

/// Which calls of a disk fail.
#[derive(Clone, Copy)]
pub struct Failure {
    /// How many calls come before them.
    pub after: u64,
    /// How many fail.
    pub count: u64,
}

impl Failure {
    /// No call.
    pub const NONE: Failure = Failure { after: 0, count: 0 };

    /// Each call after so many: the disk stops.
    pub fn stop(after: u64) -> Failure {
        Failure {
            after,
            count: u64::MAX,
        }
    }

    /// The one call after so many.
    pub fn once(after: u64) -> Failure {
        Failure { after, count: 1 }
    }
}

/// A disk of which some calls fail. After a sync that failed it is used no more.
#[derive(Drop)]
pub struct Failing<D: Disk> {
    inner: D,
    failure: Failure,
    calls: u64,
    reads: u64,
    refused: u64,
    sync_refused: bool,
}

impl<D: Disk> Failing<D> {
    /// The disk, of which these calls fail.
    pub fn new(inner: D, failure: Failure) -> Failing<D> {
        Failing {
            inner,
            failure,
            calls: 0,
            reads: 0,
            refused: 0,
            sync_refused: false,
        }
    }

    /// The disk that calls are passed on to.
    pub fn inner(&self) -> &D {
        &self.inner
    }

    /// How many of its calls were made that read bytes.
    pub fn reads(&self) -> u64 {
        self.reads
    }

    /// How many of its calls failed here.
    pub fn refused(&self) -> u64 {
        self.refused
    }
}

// Counts a call, which may be one that fails.
fn pass(calls: &mut u64, refused: &mut u64, failure: Failure) -> io::Result<()>
    ensures faults { CountsFault result refused.old refused.new }
    ensures kind { finds_no_room result ≡ false }
{
    let at = *calls;
    *calls = at.saturating_add(1);
    if at >= failure.after && at - failure.after < failure.count {
        *refused = refused.saturating_add(1);
        return Err(io::Error::other("the disk failed"));
    }
    Ok(())
}

impl<D: Disk> Disk for Failing<D> {
    ghost seen = { λ f. D.Disk.seen f.inner };

    ghost may_leave = { λ f. D.Disk.may_leave f.inner };

    ghost is_usable = { λ f. D.Disk.is_usable f.inner && not f.sync_refused };

    ghost faults = { λ f. D.Disk.faults f.inner + f.refused };

    ghost tally_of = { λ f. D.Disk.tally_of f.inner };

    ghost is_rotten = { λ f. D.Disk.is_rotten f.inner };

    ghost key_of = { λ f. D.Disk.key_of f.inner };

    ghost is_clean = { λ f. D.Disk.is_clean f.inner };

    ghost is_fair = { λ f. D.Disk.is_fair f.inner };

    ghost fair_if_clean = { λ f. D.Disk.fair_if_clean f.inner };

    ghost seen_may_stay = { λ f. D.Disk.seen_may_stay f.inner };

    ghost is_mixing = { λ f. D.Disk.is_mixing f.inner };

    fn mixes(&self) -> bool {
        self.inner.mixes()
    }

    fn key(&self) -> u64 {
        self.inner.key()
    }

    fn tally(&self) -> Tally {
        self.inner.tally()
    }

    fn may_be_used(&self) -> bool {
        self.inner.may_be_used() && !self.sync_refused
    }

    fn len(&mut self) -> io::Result<usize> {
        pass(&mut self.calls, &mut self.refused, self.failure)?;
        self.inner.len()
    }

    fn read_at(&mut self, at: usize, buf: &mut [u8]) -> io::Result<()> {
        self.reads = self.reads.saturating_add(1);
        pass(&mut self.calls, &mut self.refused, self.failure)?;
        self.inner.read_at(at, buf)
    }

    fn read_checked(&mut self, key: u64, want: u64, at: usize, buf: &mut [u8]) -> io::Result<()> {
        self.reads = self.reads.saturating_add(1);
        pass(&mut self.calls, &mut self.refused, self.failure)?;
        self.inner.read_checked(key, want, at, buf)
    }

    fn write_at(&mut self, at: usize, bytes: &[u8]) -> io::Result<()> {
        pass(&mut self.calls, &mut self.refused, self.failure)?;
        self.inner.write_at(at, bytes)
    }

    fn set_len(&mut self, len: usize) -> io::Result<()> {
        pass(&mut self.calls, &mut self.refused, self.failure)?;
        self.inner.set_len(len)
    }

    fn sync(&mut self) -> io::Result<()> {
        if let Err(error) = pass(&mut self.calls, &mut self.refused, self.failure) {
            self.sync_refused = true;
            return Err(error);
        }
        self.inner.sync()
    }
}

/// The machine comes back with a disk that fails no more.
impl<D: Crash> Crash for Failing<D> {
    fn crash(&mut self) {
        self.inner.crash();
        self.failure = Failure::NONE;
        self.sync_refused = false;
    }
}
