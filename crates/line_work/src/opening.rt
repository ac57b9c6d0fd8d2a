//! The file of the acts, opened beside the books.

ghost use Rattle.std.specs.Prelude.{◌≡◌, ℤ, List, IsTrue, IfOk, IfErr, Err};
ghost use Rattle.sqlite.specs.Held.{state};
ghost use Rattle.sqlite.specs.State.{Survives};
ghost use Rattle.machine.specs.Acts.{Act};
ghost use Rattle.machine.specs.Once.{IsHistory};
ghost use Rattle.store.specs.Books.{HoldsBooks, IsClean};
ghost use Rattle.acts_files.specs.KeptActs.{NoHistory};
ghost use Rattle.acts_files.specs.Faults.{IsNoMisfit};
ghost use Rattle.acts_files.specs.Kept.{IsSameFile, LosesNoLine};
ghost use Rattle.acts_files.specs.Opened.{KeepsLines};
ghost use Rattle.applies.specs.Begun.{BegunOn, FitsLine};
ghost use Rattle.line_work.specs.Beside.{FitsFile, IsOpenedBeside, IsNotOpenedBeside};
ghost use Rattle.line_work.specs.Faults.{fault_of_acts as fault_of_acts_lem};

use crate::fault::fault_of_acts;
use acts_files::{ActsFault, ActsFile, NotOpened, first_line, open_beside};
use applies::{NotApplied, find_begun};
use label::Day;
use service::AfterWork;
use sqlite::Alter;
use sqlite_disk::Disk;
use std::alloc::Global;
use store::Books;

/// Holds the file against the books, as `open_beside` does, from the day on which their acts began. Where the tables do not
/// tell that day, it is that of the first line, if it may be: so the file of these acts is not refused, whatever day they began
/// on, if it has a whole line or is empty. However it ends, and whatever the books are, each whole line
/// that the file had first stands in it.
pub fn open_acts<S: Alter, D: Disk>(
    alloc: Global,
    disk: D,
    books: &mut Books<S>,
) -> Result<ActsFile<D>, NotOpened<D>>
    ensures clean { IsClean S.Store books.new → IsClean S.Store books.old }
    ensures kept { IsClean S.Store books.new → (first : ℤ) (acts : List Act) → IsHistory first acts → HoldsBooks S.Store first acts books.old
        → HoldsBooks S.Store first acts books.new × IfOk result (IsOpenedBeside D.Disk first acts disk) × IfErr result (IsNotOpenedBeside D.Disk first acts disk) }
    ensures lines { IfOk result (KeepsLines D.Disk disk) }
    ensures unopened { IfErr result (λ e. LosesNoLine D.Disk disk e.disk) }
    ensures survives { Survives (state S.Store books.old.conn) (state S.Store books.new.conn) (NoHistory S.Store books.old) }
{
    let mut disk = disk;
    match begun_beside(alloc, &mut disk, books) {
        Ok(begun) => open_beside(alloc, disk, books, begun),
        Err(fault) => Err(NotOpened { disk, fault }),
    }
}

/// The day on which the acts of the books began.
fn begun_beside<S: Alter, D: Disk>(
    alloc: Global,
    disk: &mut D,
    books: &mut Books<S>,
) -> Result<Day, ActsFault>
    ensures clean { IsClean S.Store books.new → IsClean S.Store books.old }
    ensures same { IsSameFile D.Disk disk.old disk.new }
    ensures begun { IsClean S.Store books.new → (first : ℤ) (acts : List Act) → IsHistory first acts → HoldsBooks S.Store first acts books.old
        → HoldsBooks S.Store first acts books.new × IfOk result (BegunOn first acts) }
    ensures fits { IsClean S.Store books.new → (first : ℤ) (acts : List Act) → IsHistory first acts → HoldsBooks S.Store first acts books.old
        → IfOk result (λ day. IsTrue (D.Disk.is_clean disk.new) → FitsFile D.Disk first acts disk.old day) }
    ensures fault { IfErr result IsNoMisfit }
    ensures survives { Survives (state S.Store books.old.conn) (state S.Store books.new.conn) (NoHistory S.Store books.old) }
{
    let line = first_line(alloc, disk)?;
    begun_by(alloc, books, line.as_slice())
}

/// The day on which the acts of the books began, whose file begins with this line.
fn begun_by<S: Alter>(alloc: Global, books: &mut Books<S>, line: &[u8]) -> Result<Day, ActsFault>
    ensures clean { IsClean S.Store books.new → IsClean S.Store books.old }
    ensures begun { IsClean S.Store books.new → (first : ℤ) (acts : List Act) → IsHistory first acts → HoldsBooks S.Store first acts books.old
        → HoldsBooks S.Store first acts books.new × IfOk result (BegunOn first acts) }
    ensures fits { IsClean S.Store books.new → (first : ℤ) (acts : List Act) → IsHistory first acts → HoldsBooks S.Store first acts books.old
        → IfOk result (FitsLine first acts line.now) }
    ensures fault { IfErr result IsNoMisfit }
    ensures survives { Survives (state S.Store books.old.conn) (state S.Store books.new.conn) (NoHistory S.Store books.old) }
{
    match find_begun(alloc, books, line) {
        Ok(day) => Ok(day),
        Err(NotApplied::Foreign) => Err(ActsFault::Foreign),
        Err(_) => Err(ActsFault::Store),
    }
}

/// The books closed, where the file was not opened, and how the line ends.
pub(crate) fn not_kept<S: Alter, D>(books: Books<S>, not_opened: NotOpened<D>) -> (AfterWork<S>, D)
    ensures conn { result.0.0 ≡ books.conn }
    ensures end { result.0.1 ≡ Err (fault_of_acts_lem not_opened.fault) }
    ensures disk { result.1 ≡ not_opened.disk }
{
    let NotOpened { disk, fault } = not_opened;
    ((books.close(), Err(fault_of_acts(fault))), disk)
}
