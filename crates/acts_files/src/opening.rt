//! The file of the acts, opened beside the books.

ghost use Rattle.std.specs.Prelude.{◌≡◌, ◌↔◌, ◌≤◌, ◌++◌, [], ℕ, ℤ, List, length, true, false, IsTrue, IfOk, IfErr, OnOk, OnErr};
ghost use Rattle.sqlite.specs.Held.{state};
ghost use Rattle.sqlite.specs.State.{Survives};
ghost use Rattle.machine.specs.Acts.{Act, next_number};
ghost use Rattle.machine.specs.Once.{IsHistory};
ghost use Rattle.store.specs.Books.{HoldsBooks, IsClean};
ghost use Rattle.acts_files.specs.Faults.{IsNoMisfit};
ghost use Rattle.acts_files.specs.Kept.{IsAtMost, IsSameFile, LosesNoLine};
ghost use Rattle.acts_files.specs.KeptActs.{NoHistory, HasPassed, IsCleanFile};
ghost use Rattle.acts_files.specs.Torn.{IsLeftOf};
ghost use Rattle.acts_files.specs.Opened.{PassesMore, EndsAt, HasWalked, KeepsLines, IsMeasured, IsPut, IsNotPut, IsOwn, IsOpened, IsNotOpenedBy, IsNotOpened, LeavesOldest, rest_of};

use crate::acts_file::{AT_ONCE, ActsFile};
use crate::beside::{bytes_at, file_len, has_there};
use crate::fault::ActsFault;
use crate::keeping::cut_to;
use crate::newer::{acts_of, lines_above};
use crate::torn::{is_left_of, is_part_of};
use histories::{LINE_MAX, is_numbered};
use label::Day;
use sqlite::Alter;
use sqlite_disk::Disk;
use std::alloc::Global;
use store::Books;

/// Why a file was not opened, and the disk under it.
#[derive(Drop)]
pub struct NotOpened<D> {
    pub disk: D,
    pub fault: ActsFault,
}

/// Holds the file against the books, whose acts began on this day: its lines have to be those of their oldest acts. What it
/// has behind them is written over, where a torn write of the next lines leaves that: at most as many bytes as the lines of
/// the next thousand acts have, each of them 0 or the one that stands there, and no whole line. Behind the lines of all acts
/// it may have part of the line of the next act, which is cut. Then the lines that it lacks are added, so many at once.
/// `Differs` and `Lacks` where it has anything else behind them, and there alone: nothing of it was changed. `File`, `Store`
/// and `Foreign` where the file, or memory or the disk of the books, or their rows, did not suffice: then whatever a stop
/// leaves of it is no longer than it was, or has lines of the oldest acts and part of what was being added. However it ends,
/// and whatever the books are, each whole line that the file had first stands in it.
pub fn open_beside<S: Alter, D: Disk>(
    alloc: Global,
    disk: D,
    books: &mut Books<S>,
    begun: Day,
) -> Result<ActsFile<D>, NotOpened<D>>
    ensures clean { IsClean S.Store books.new → IsClean S.Store books.old }
    ensures kept { IsClean S.Store books.new → (first : ℤ) (acts : List Act) → IsHistory first acts → HoldsBooks S.Store first acts books.old
        → HoldsBooks S.Store first acts books.new × IfOk result (IsOpened D.Disk begun acts disk) × IfErr result (IsNotOpened D.Disk begun acts disk) }
    ensures own { IsClean S.Store books.new → (first : ℤ) (acts : List Act) → IsHistory first acts → HoldsBooks S.Store first acts books.old
        → IfErr result (λ e. IsTrue (D.Disk.is_clean e.disk) → IsOwn D.Disk begun acts disk → IsNoMisfit e.fault) }
    ensures leaves { IsClean S.Store books.new → (first : ℤ) (acts : List Act) → IsHistory first acts → HoldsBooks S.Store first acts books.old
        → IfErr result (λ e. LeavesOldest D.Disk begun acts disk e.disk) }
    ensures lines { IfOk result (KeepsLines D.Disk disk) }
    ensures unopened { IfErr result (λ e. LosesNoLine D.Disk disk e.disk) }
    ensures survives { Survives (state S.Store books.old.conn) (state S.Store books.new.conn) (NoHistory S.Store books.old) }
{
    let mut file = ActsFile {
        disk,
        len: 0,
        done: 0,
        day: begun,
    };
    match file.open(alloc, books) {
        Ok(()) => Ok(file),
        Err(fault) => Err(NotOpened {
            disk: file.into_disk(),
            fault,
        }),
    }
}

impl<D: Disk> ActsFile<D> {
    /// Passes the lines that it has, and adds those that it lacks.
    fn open<S: Alter>(&mut self, alloc: Global, books: &mut Books<S>) -> Result<(), ActsFault>
        ensures clean { IsClean S.Store books.new → IsClean S.Store books.old }
        ensures kept { IsClean S.Store books.new → (first : ℤ) (acts : List Act) → IsHistory first acts → HoldsBooks S.Store first acts books.old → (self.old.len ≡ 0) × (self.old.done ≡ 0)
            → HoldsBooks S.Store first acts books.new × OnOk result (IsOpened D.Disk self.old.day acts self.old.disk self.new)
            × IfErr result (λ fault. IsNotOpenedBy D.Disk self.old.day acts self.old.disk self.new.disk fault fault) }
        ensures leaves { IsClean S.Store books.new → (first : ℤ) (acts : List Act) → IsHistory first acts → HoldsBooks S.Store first acts books.old → (self.old.len ≡ 0) × (self.old.done ≡ 0)
            → OnErr result (LeavesOldest D.Disk self.old.day acts self.old.disk self.new.disk) }
        ensures lines { self.old.len ≡ 0 → OnOk result (KeepsLines D.Disk self.old.disk self.new) }
        ensures loses { self.old.len ≡ 0 → LosesNoLine D.Disk self.old.disk self.new.disk }
        ensures survives { Survives (state S.Store books.old.conn) (state S.Store books.new.conn) (NoHistory S.Store books.old) }
    {
        let found = self.walk(alloc, books)?;
        self.put_right(alloc, books, found.0, found.1)?;
        self.bring_up(alloc, books)
    }

    /// Passes the lines that it has: how many bytes it has, and of how many acts the books are.
    fn walk<S: Alter>(
        &mut self,
        alloc: Global,
        books: &mut Books<S>,
    ) -> Result<(usize, u64), ActsFault>
        ensures clean { IsClean S.Store books.new → IsClean S.Store books.old }
        ensures walked { IsClean S.Store books.new → (first : ℤ) (acts : List Act) → IsHistory first acts → HoldsBooks S.Store first acts books.old → (self.old.len ≡ 0) × (self.old.done ≡ 0)
            → HoldsBooks S.Store first acts books.new × IfOk result (λ found. (found.1 ≡ length acts) × HasWalked D.Disk self.old.day 1 acts [] self.new) }
        ensures same { IsSameFile D.Disk self.old.disk self.new.disk }
        ensures within { self.old.len ≡ 0 → IfOk result (λ found. self.new.len ≤ found.0) }
        ensures measured { IfOk result (λ found. IsMeasured D.Disk found.0 self.new) }
        ensures fault { IfErr result IsNoMisfit }
        ensures holds { IsClean S.Store books.new → (first : ℤ) (acts : List Act) → IsHistory first acts → HoldsBooks S.Store first acts books.old → HoldsBooks S.Store first acts books.new }
        ensures survives { Survives (state S.Store books.old.conn) (state S.Store books.new.conn) (NoHistory S.Store books.old) }
    {
        let size = file_len(&mut self.disk)?;
        let all = acts_of(books)?;
        self.pass(alloc, books, size, all, AT_ONCE)?;
        self.pass(alloc, books, size, all, 1)?;
        Ok((size, all))
    }

    /// Passes the lines of the acts of the books, so many at once, as long as it has them behind those that were passed.
    fn pass<S: Alter>(
        &mut self,
        alloc: Global,
        books: &mut Books<S>,
        size: usize,
        all: u64,
        most: u64,
    ) -> Result<(), ActsFault>
        ensures clean { IsClean S.Store books.new → IsClean S.Store books.old }
        ensures passed { IsClean S.Store books.new → (first begun : ℤ) (newer older : List Act) → IsHistory first (newer ++ older) → HoldsBooks S.Store first (newer ++ older) books.old → all ≡ length (newer ++ older)
            → HasPassed D.Disk begun older self.old → IsMeasured D.Disk size self.old
            → HoldsBooks S.Store first (newer ++ older) books.new × OnOk result (HasWalked D.Disk begun most newer older self.new) }
        ensures same { IsSameFile D.Disk self.old.disk self.new.disk }
        ensures within { self.old.len ≤ size → self.new.len ≤ size }
        ensures fault { IfErr result IsNoMisfit }
        ensures holds { IsClean S.Store books.new → (first : ℤ) (acts : List Act) → IsHistory first acts → HoldsBooks S.Store first acts books.old → HoldsBooks S.Store first acts books.new }
        ensures survives { Survives (state S.Store books.old.conn) (state S.Store books.new.conn) (NoHistory S.Store books.old) }
    {
        for _ in self.done..all {
            if !self.pass_next(alloc, books, size, all, most)? {
                return Ok(());
            }
        }
        if self.done >= all {
            Ok(())
        } else {
            Err(ActsFault::Foreign)
        }
    }

    /// Passes the next lines, if there are more and it has all of them.
    fn pass_next<S: Alter>(
        &mut self,
        alloc: Global,
        books: &mut Books<S>,
        size: usize,
        all: u64,
        most: u64,
    ) -> Result<bool, ActsFault>
        ensures clean { IsClean S.Store books.new → IsClean S.Store books.old }
        ensures passed { IsClean S.Store books.new → (first begun : ℤ) (newer older : List Act) → IsHistory first (newer ++ older) → HoldsBooks S.Store first (newer ++ older) books.old → all ≡ length (newer ++ older)
            → HasPassed D.Disk begun older self.old → IsMeasured D.Disk size self.old
            → HoldsBooks S.Store first (newer ++ older) books.new
            × IfOk result (λ is. (is ≡ true → PassesMore D.Disk begun newer older self.new) × (is ≡ false → HasPassed D.Disk begun older self.new × EndsAt D.Disk begun most newer older self.new)) }
        ensures same { IsSameFile D.Disk self.old.disk self.new.disk }
        ensures within { self.old.len ≤ size → self.new.len ≤ size }
        ensures fault { IfErr result IsNoMisfit }
        ensures holds { IsClean S.Store books.new → (first : ℤ) (acts : List Act) → IsHistory first acts → HoldsBooks S.Store first acts books.old → HoldsBooks S.Store first acts books.new }
        ensures survives { Survives (state S.Store books.old.conn) (state S.Store books.new.conn) (NoHistory S.Store books.old) }
    {
        if self.done >= all {
            return Ok(false);
        }
        let lines = lines_above(alloc, books, all, self.done, self.day, most)?;
        if lines.out.is_empty() {
            return Err(ActsFault::Foreign);
        }
        let Some(len) = self.len.checked_add(lines.out.len()) else {
            return Err(ActsFault::File);
        };
        if !has_there(alloc, &mut self.disk, size, self.len, lines.out.as_slice())? {
            return Ok(false);
        }
        self.len = len;
        self.done = lines.done;
        self.day = lines.day;
        Ok(true)
    }

    /// Writes over what stands behind the lines that were passed, or cuts it, where a stop leaves that; else nothing is
    /// changed.
    fn put_right<S: Alter>(
        &mut self,
        alloc: Global,
        books: &mut Books<S>,
        size: usize,
        all: u64,
    ) -> Result<(), ActsFault>
        ensures clean { IsClean S.Store books.new → IsClean S.Store books.old }
        ensures put { IsClean S.Store books.new → (first begun : ℤ) (newer older : List Act) → IsHistory first (newer ++ older) → HoldsBooks S.Store first (newer ++ older) books.old → all ≡ length (newer ++ older)
            → HasPassed D.Disk begun older self.old → EndsAt D.Disk begun 1 newer older self.old → IsMeasured D.Disk size self.old → self.old.len ≤ size
            → HoldsBooks S.Store first (newer ++ older) books.new × OnOk result (IsPut D.Disk begun newer older self.old self.new) × IfErr result (IsNotPut D.Disk begun newer older self.old self.new) }
        ensures leaves { IsClean S.Store books.new → (first begun : ℤ) (newer older : List Act) → IsHistory first (newer ++ older) → HoldsBooks S.Store first (newer ++ older) books.old → all ≡ length (newer ++ older)
            → HasPassed D.Disk begun older self.old → IsMeasured D.Disk size self.old → self.old.len ≤ size → OnErr result (LeavesOldest D.Disk begun (newer ++ older) self.old.disk self.new.disk) }
        ensures lines { self.old.len ≤ size → IsMeasured D.Disk size self.old → OnOk result (KeepsLines D.Disk self.old.disk self.new) }
        ensures loses { self.old.len ≤ size → IsMeasured D.Disk size self.old → LosesNoLine D.Disk self.old.disk self.new.disk }
        ensures calm { IsCleanFile D.Disk self.new → IsCleanFile D.Disk self.old }
        ensures holds { IsClean S.Store books.new → (first : ℤ) (acts : List Act) → IsHistory first acts → HoldsBooks S.Store first acts books.old → HoldsBooks S.Store first acts books.new }
        ensures survives { Survives (state S.Store books.old.conn) (state S.Store books.new.conn) (NoHistory S.Store books.old) }
    {
        let Some(next) = self.done.checked_add(1) else {
            return Err(ActsFault::Foreign);
        };
        if self.done >= all {
            return self.cut_rest(alloc, size, next);
        }
        let lines = lines_above(alloc, books, all, self.done, self.day, AT_ONCE)?;
        if self.has_left_of(alloc, size, lines.out.as_slice())? {
            self.put(lines.out.as_slice(), lines.done, lines.day)
        } else {
            Err(ActsFault::Differs(next))
        }
    }

    /// Whether what it has behind the lines that were passed is what a torn write of these lines leaves.
    fn has_left_of(&mut self, alloc: Global, size: usize, lines: &[u8]) -> Result<bool, ActsFault>
        ensures same { IsSameFile D.Disk self.old.disk self.new.disk }
        ensures kept { (self.new.len ≡ self.old.len) × (self.new.done ≡ self.old.done) × (self.new.day ≡ self.old.day) }
        ensures left { IfOk result (λ is. IsCleanFile D.Disk self.new → IsMeasured D.Disk size self.old → self.old.len ≤ size → IsTrue is ↔ IsLeftOf lines.now (rest_of D.Disk self.old)) }
        ensures fault { IfErr result IsNoMisfit }
    {
        let rest = size.saturating_sub(self.len);
        if rest > lines.len() {
            return Ok(false);
        }
        let found = bytes_at(alloc, &mut self.disk, self.len, rest)?;
        Ok(is_left_of(lines, found.as_slice()))
    }

    /// Cuts what it has behind the lines of all acts, where that is part of the line of the next one.
    fn cut_rest(&mut self, alloc: Global, size: usize, next: u64) -> Result<(), ActsFault>
        ensures put { (begun : ℤ) (acts : List Act) → next ≡ next_number acts → HasPassed D.Disk begun acts self.old → IsMeasured D.Disk size self.old → self.old.len ≤ size
            → OnOk result (IsPut D.Disk begun [] acts self.old self.new) × IfErr result (IsNotPut D.Disk begun [] acts self.old self.new) }
        ensures short { (most : ℕ) → self.old.len ≤ most → IsAtMost D.Disk most self.old.disk → IsAtMost D.Disk most self.new.disk }
        ensures lines { self.old.len ≤ size → IsMeasured D.Disk size self.old → OnOk result (KeepsLines D.Disk self.old.disk self.new) }
        ensures loses { self.old.len ≤ size → IsMeasured D.Disk size self.old → LosesNoLine D.Disk self.old.disk self.new.disk }
        ensures calm { IsCleanFile D.Disk self.new → IsCleanFile D.Disk self.old }
    {
        let rest = size.saturating_sub(self.len);
        let head = bytes_at(alloc, &mut self.disk, self.len, rest.min(LINE_MAX))?;
        if is_part_of(next, head.as_slice()) {
            cut_to(&mut self.disk, self.len)?;
            return Ok(());
        }
        Err(if is_numbered(next, head.as_slice()) {
            ActsFault::Lacks(next)
        } else {
            ActsFault::Differs(next)
        })
    }
}
