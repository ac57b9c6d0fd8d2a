//! The file of the acts.

ghost use Rattle.std.specs.Prelude.{◌≡◌, ◌⊎◌, ◌+◌, ◌≤◌, ◌++◌, ℕ, ℤ, List, length, OnOk, OnErr, IfErr};
ghost use Rattle.sqlite.specs.Held.{state};
ghost use Rattle.sqlite.specs.State.{Survives};
ghost use Rattle.sqlite_disk.specs.Disk.{MoreFaults};
ghost use Rattle.machine.specs.Acts.{Act};
ghost use Rattle.machine.specs.Once.{IsHistory};
ghost use Rattle.machine.specs.Standing.{today};
ghost use Rattle.histories.specs.Newer.{newer_text};
ghost use Rattle.store.specs.Books.{HoldsBooks, IsClean, AreAsBefore};
ghost use Rattle.acts_files.specs.Faults.{IsNoMisfit, IsOfFile};
ghost use Rattle.acts_files.specs.Kept.{HasText, IsSameFile, HasAtMost};
ghost use Rattle.acts_files.specs.KeptActs.{KeepsActs, HasPassed, IsCleanFile, BeginsWithActs, KeepsTexts, KeepsNext, LacksNext, NoHistory};

use crate::beside::file_len;
use crate::fault::ActsFault;
use crate::keeping::append;
use crate::newer::{acts_of, lines_above};
use label::Day;
use sqlite::Alter;
use sqlite_disk::Disk;
use std::alloc::Global;
use store::Books;

/// How many lines are made and added at once.
pub(crate) const AT_ONCE: u64 = 1_000;

/// A file that has the lines of the acts of books, by number, and nothing else.
#[derive(Drop)]
pub struct ActsFile<D> {
    pub(crate) disk: D,
    /// How many bytes its lines have.
    pub(crate) len: usize,
    /// The number of the last act.
    pub(crate) done: u64,
    /// The business day after it.
    pub(crate) day: Day,
}

impl<D: Disk> ActsFile<D> {
    /// The disk under the file.
    pub fn into_disk(self) -> D
        ensures { result ≡ self.disk }
    {
        let ActsFile { disk, .. } = self;
        disk
    }

    /// Writes the lines of the next acts, which lead to this number and this day, behind those that it has, over what stands
    /// there, by one write, and syncs. After an error the file is to be opened again.
    pub(crate) fn put(&mut self, lines: &[u8], done: u64, day: Day) -> Result<(), ActsFault>
        ensures kept { (begun : ℤ) (newer older : List Act) → lines.now ≡ newer_text begun newer older → done ≡ length (newer ++ older) → day ≡ today begun (newer ++ older)
            → HasPassed D.Disk begun older self.old → (IsCleanFile D.Disk self.old → length (D.Disk.seen self.old.disk) ≤ self.old.len + length lines.now) → OnOk result (KeepsActs D.Disk begun (newer ++ older) self.new) }
        ensures few { (text : List ℕ) → (IsCleanFile D.Disk self.old → (self.old.len ≡ length text) × HasAtMost D.Disk text (length lines.now) self.old.disk) → IsCleanFile D.Disk self.new → HasAtMost D.Disk text (length lines.now) self.new.disk }
        ensures loses { KeepsTexts D.Disk self.old self.new }
        ensures same { OnErr result ((self.new.len ≡ self.old.len) × (self.new.done ≡ self.old.done) × (self.new.day ≡ self.old.day)) }
        ensures steady { OnOk result (D.Disk.faults self.new.disk ≡ D.Disk.faults self.old.disk) }
        ensures fails { OnErr result (MoreFaults (D.Disk.faults self.old.disk) (D.Disk.faults self.new.disk) ⊎ (self.new.disk ≡ self.old.disk)) }
        ensures fault { IfErr result IsOfFile }
    {
        if lines.is_empty() || !self.disk.may_be_used() {
            return Err(ActsFault::File);
        }
        let Some(len) = self.len.checked_add(lines.len()) else {
            return Err(ActsFault::File);
        };
        append(&mut self.disk, self.len, lines)?;
        self.len = len;
        self.done = done;
        self.day = day;
        Ok(())
    }

    /// The same, where the file has just the bytes that were left in it. A file that another program has changed is `File`.
    fn add(&mut self, lines: &[u8], done: u64, day: Day) -> Result<(), ActsFault>
        ensures kept { (begun : ℤ) (newer older : List Act) → lines.now ≡ newer_text begun newer older → done ≡ length (newer ++ older) → day ≡ today begun (newer ++ older)
            → KeepsActs D.Disk begun older self.old → OnOk result (KeepsActs D.Disk begun (newer ++ older) self.new) }
        ensures few { (text : List ℕ) → (IsCleanFile D.Disk self.old → HasText D.Disk text self.old.len self.old.disk) → IsCleanFile D.Disk self.new → HasAtMost D.Disk text (length lines.now) self.new.disk }
        ensures loses { KeepsTexts D.Disk self.old self.new }
        ensures same { OnErr result ((self.new.len ≡ self.old.len) × (self.new.done ≡ self.old.done) × (self.new.day ≡ self.old.day)) }
        ensures steady { OnOk result (D.Disk.faults self.new.disk ≡ D.Disk.faults self.old.disk) }
        ensures fails { OnErr result (MoreFaults (D.Disk.faults self.old.disk) (D.Disk.faults self.new.disk) ⊎ IsSameFile D.Disk self.old.disk self.new.disk) }
        ensures fault { IfErr result IsOfFile }
    {
        if file_len(&mut self.disk)? != self.len {
            return Err(ActsFault::File);
        }
        self.put(lines, done, day)
    }

    /// Adds the lines of the next acts that the books, which are of so many acts, have, if there are more.
    fn add_next<S: Alter>(
        &mut self,
        alloc: Global,
        books: &mut Books<S>,
        all: u64,
    ) -> Result<(), ActsFault>
        ensures clean { IsClean S.Store books.new → IsClean S.Store books.old }
        ensures kept { IsClean S.Store books.new → (first begun : ℤ) (newer older : List Act) → IsHistory first (newer ++ older) → HoldsBooks S.Store first (newer ++ older) books.old → all ≡ length (newer ++ older) → KeepsActs D.Disk begun older self.old
            → HoldsBooks S.Store first (newer ++ older) books.new × OnOk result (KeepsNext D.Disk begun newer older self.new) × OnErr result (LacksNext D.Disk begun newer older self.old self.new) }
        ensures loses { KeepsTexts D.Disk self.old self.new }
        ensures steady { OnOk result (D.Disk.faults self.new.disk ≡ D.Disk.faults self.old.disk) }
        ensures holds { IsClean S.Store books.new → (first : ℤ) (acts : List Act) → IsHistory first acts → HoldsBooks S.Store first acts books.old → HoldsBooks S.Store first acts books.new }
        ensures as_before { IsClean S.Store books.new → AreAsBefore S.Store books.old books.new }
        ensures fault { IfErr result IsNoMisfit }
        ensures survives { Survives (state S.Store books.old.conn) (state S.Store books.new.conn) (NoHistory S.Store books.old) }
    {
        if self.done >= all {
            return Ok(());
        }
        let lines = lines_above(alloc, books, all, self.done, self.day, AT_ONCE)?;
        self.add(lines.out.as_slice(), lines.done, lines.day)
    }

    /// Adds the lines of the acts that the books have and the file lacks, so many at once, and syncs. At `Ok` the file has the
    /// lines of all acts, as it reads and after a stop. At each moment, and after an error, whatever a stop leaves of it
    /// begins with the lines that it had, and has behind the lines of some acts at most as many bytes as those that were
    /// being added. Where the file has not the bytes that were left in it, the fault is `File`. After an error the file is to
    /// be opened again.
    pub fn bring_up<S: Alter>(
        &mut self,
        alloc: Global,
        books: &mut Books<S>,
    ) -> Result<(), ActsFault>
        ensures clean { IsClean S.Store books.new → IsClean S.Store books.old }
        ensures kept { IsClean S.Store books.new → (first begun : ℤ) (newer older : List Act) → IsHistory first (newer ++ older) → HoldsBooks S.Store first (newer ++ older) books.old → KeepsActs D.Disk begun older self.old
            → HoldsBooks S.Store first (newer ++ older) books.new × OnOk result (KeepsActs D.Disk begun (newer ++ older) self.new) × OnErr result (LacksNext D.Disk begun newer older self.old self.new) }
        ensures begins { (begun : ℤ) (older : List Act) → KeepsActs D.Disk begun older self.old → BeginsWithActs D.Disk begun older self.new }
        ensures loses { KeepsTexts D.Disk self.old self.new }
        ensures holds { IsClean S.Store books.new → (first : ℤ) (acts : List Act) → IsHistory first acts → HoldsBooks S.Store first acts books.old → HoldsBooks S.Store first acts books.new }
        ensures as_before { IsClean S.Store books.new → AreAsBefore S.Store books.old books.new }
        ensures fault { IfErr result IsNoMisfit }
        ensures survives { Survives (state S.Store books.old.conn) (state S.Store books.new.conn) (NoHistory S.Store books.old) }
    {
        let all = acts_of(books)?;
        for _ in self.done..all {
            self.add_next(alloc, books, all)?;
        }
        if self.done == all {
            Ok(())
        } else {
            Err(ActsFault::Foreign)
        }
    }
}
