//! The lines of the next acts of books.

ghost use Rattle.std.specs.Prelude.{◌≡◌, ◌++◌, ℤ, List, length, IfOk, IfErr};
ghost use Rattle.sqlite.specs.Held.{state};
ghost use Rattle.sqlite.specs.State.{Survives};
ghost use Rattle.machine.specs.Acts.{Act};
ghost use Rattle.machine.specs.Once.{IsHistory};
ghost use Rattle.machine.specs.Standing.{today};
ghost use Rattle.store.specs.Books.{HoldsBooks, IsClean, AreAsBefore};
ghost use Rattle.acts_files.specs.Newer.{AreNextLines, IsTaken};
ghost use Rattle.acts_files.specs.KeptActs.{NoHistory};
ghost use Rattle.acts_files.specs.Faults.{IsOfBooks};

use crate::fault::ActsFault;
use crate::few_lines::FewLines;
use histories::{HistoryFault, HistoryLines};
use label::Day;
use sqlite::Alter;
use std::alloc::Global;
use store::{Books, EachFault, Fault};

/// How many acts the books are of.
pub(crate) fn acts_of<S: Alter>(books: &mut Books<S>) -> Result<u64, ActsFault>
    ensures clean { IsClean S.Store books.new → IsClean S.Store books.old }
    ensures all { IsClean S.Store books.new → (first : ℤ) (acts : List Act) → IsHistory first acts → HoldsBooks S.Store first acts books.old
        → HoldsBooks S.Store first acts books.new × IfOk result (λ all. all ≡ length acts) }
    ensures as_before { IsClean S.Store books.new → AreAsBefore S.Store books.old books.new }
    ensures fault { IfErr result IsOfBooks }
    ensures survives { Survives (state S.Store books.old.conn) (state S.Store books.new.conn) (NoHistory S.Store books.old) }
{
    match books.acts_done() {
        Ok(all) => Ok(all),
        Err(Fault::Foreign) => Err(ActsFault::Foreign),
        Err(_) => Err(ActsFault::Store),
    }
}

/// The lines of the next acts of the books, which are of `all` acts, above number `done`, where the business day after that
/// act is `day`: `most` lines, or those of all. `Foreign` where the rows above that number are not those of the acts in turn.
pub(crate) fn lines_above<S: Alter>(
    alloc: Global,
    books: &mut Books<S>,
    all: u64,
    done: u64,
    day: Day,
    most: u64,
) -> Result<HistoryLines<Vec<u8>>, ActsFault>
    ensures clean { IsClean S.Store books.new → IsClean S.Store books.old }
    ensures told { IsClean S.Store books.new → (first begun : ℤ) (newer older : List Act) → IsHistory first (newer ++ older) → HoldsBooks S.Store first (newer ++ older) books.old → all ≡ length (newer ++ older) → done ≡ length older → day ≡ today begun older
        → HoldsBooks S.Store first (newer ++ older) books.new × IfOk result (AreNextLines begun most newer older) }
    ensures holds { IsClean S.Store books.new → (first : ℤ) (acts : List Act) → IsHistory first acts → HoldsBooks S.Store first acts books.old → HoldsBooks S.Store first acts books.new }
    ensures as_before { IsClean S.Store books.new → AreAsBefore S.Store books.old books.new }
    ensures fault { IfErr result IsOfBooks }
    ensures survives { Survives (state S.Store books.old.conn) (state S.Store books.new.conn) (NoHistory S.Store books.old) }
{
    let mut few = FewLines {
        lines: HistoryLines {
            alloc,
            day,
            done,
            fault: HistoryFault::Output,
            out: Vec::new(alloc),
        },
        room: most,
    };
    let end = books.each_act_above(done, &mut few);
    next_lines(few, end, all)
}

/// The lines that were taken, where they come to the number of all acts, or there was room for no more.
fn next_lines(
    few: FewLines,
    end: Result<(), EachFault>,
    all: u64,
) -> Result<HistoryLines<Vec<u8>>, ActsFault>
    ensures next { IfOk result (IsTaken few end all) }
    ensures fault { IfErr result IsOfBooks }
{
    let FewLines { lines, room } = few;
    match end {
        Ok(()) if lines.done == all => Ok(lines),
        Err(EachFault::Stopped) if room == 0 => Ok(lines),
        Ok(()) | Err(EachFault::Fault(Fault::Foreign)) => Err(ActsFault::Foreign),
        Err(EachFault::Stopped) => Err(ActsFault::from(lines.fault)),
        Err(EachFault::Fault(_)) => Err(ActsFault::Store),
    }
}
