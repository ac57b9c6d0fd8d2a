//! The history of the books, printed.

ghost use Rattle.std.specs.Prelude.{◌≡◌, ◌⊎◌, false, ℤ, List, IfErr};
ghost use Rattle.sqlite.specs.Held.{state};
ghost use Rattle.sqlite.specs.State.{HasCleanDisk, Survives, IsUnchanged, IsRolledBack};
ghost use Rattle.machine.specs.Acts.{Act};
ghost use Rattle.machine.specs.Once.{IsHistory};
ghost use Rattle.machine.specs.Standing.{today as today_of};
ghost use Rattle.texts.specs.Writing.{Writes};
ghost use Rattle.table_words.specs.Steps.{IsReady};
ghost use Rattle.histories.specs.Text.{history_text};
ghost use Rattle.histories.specs.Books.{HasRowsOf};
ghost use Rattle.histories.specs.Faults.{IsOfRows};
ghost use Rattle.histories.specs.Printed.{IsHistoryPrinted};

use crate::HistoryFault;
use crate::lines::HistoryLines;
use crate::start::find_first_day;
use label::Day;
use sqlite::{Alter, Connection};
use std::alloc::Global;
use std::io::Write;
use tables::repeats::Repeats;
use whole_tables::each_of_all;

/// Prints a line for each act of the books, by number: no call takes memory that grows with the acts. `today` is the
/// business day of the books. After a fault a beginning stands. Nothing is changed. `Foreign` only where the rows of the acts
/// are not stored in their order.
pub fn print_history<S: Alter, W: Write>(
    alloc: Global,
    conn: &mut Connection<S>,
    today: Day,
    out: W,
) -> (W, Result<(), HistoryFault>)
    ensures printed { HasCleanDisk (state S.Store conn.new) → IsReady (state S.Store conn.old).now → (first : ℤ) (acts : List Act) → IsHistory first acts → HasRowsOf first acts (state S.Store conn.old).now.trees → today ≡ today_of first acts
        → IsHistoryPrinted first acts (W.contents out) (W.contents result.0) result.1 }
    ensures foreign { HasCleanDisk (state S.Store conn.new) → IsReady (state S.Store conn.old).now → (first : ℤ) (acts : List Act) → IsHistory first acts → HasRowsOf first acts (state S.Store conn.old).now.trees
        → IfErr result.1 (IsOfRows (state S.Store conn.old).now.trees) }
    ensures left { HasCleanDisk (state S.Store conn.new) → IsReady (state S.Store conn.old).now → IsUnchanged (state S.Store conn.old) (state S.Store conn.new) ⊎ IsRolledBack (state S.Store conn.old) (state S.Store conn.new) }
    ensures outside { conn.old.in_transaction ≡ false → conn.new.in_transaction ≡ false }
    ensures survives { Survives (state S.Store conn.old) (state S.Store conn.new) (λ _. ¬ IsReady (state S.Store conn.old).now) }
{
    match find_first_day(alloc, conn, today) {
        Ok(begun) => print_from(alloc, conn, begun, out),
        Err(fault) => (out, Err(fault)),
    }
}

/// Prints a line for each act, by number, as of acts that began on this day.
fn print_from<S: Alter, W: Write>(
    alloc: Global,
    conn: &mut Connection<S>,
    begun: Day,
    out: W,
) -> (W, Result<(), HistoryFault>)
    ensures printed { HasCleanDisk (state S.Store conn.new) → IsReady (state S.Store conn.old).now → (first : ℤ) (acts : List Act) → IsHistory first acts → HasRowsOf first acts (state S.Store conn.old).now.trees
        → Writes result.1 (W.contents out) (W.contents result.0) (history_text begun acts) }
    ensures foreign { HasCleanDisk (state S.Store conn.new) → IsReady (state S.Store conn.old).now → (first : ℤ) (acts : List Act) → IsHistory first acts → HasRowsOf first acts (state S.Store conn.old).now.trees
        → IfErr result.1 (IsOfRows (state S.Store conn.old).now.trees) }
    ensures left { HasCleanDisk (state S.Store conn.new) → IsReady (state S.Store conn.old).now → IsUnchanged (state S.Store conn.old) (state S.Store conn.new) ⊎ IsRolledBack (state S.Store conn.old) (state S.Store conn.new) }
    ensures outside { conn.old.in_transaction ≡ false → conn.new.in_transaction ≡ false }
    ensures survives { Survives (state S.Store conn.old) (state S.Store conn.new) (λ _. ¬ IsReady (state S.Store conn.old).now) }
{
    let mut lines = HistoryLines {
        alloc,
        day: begun,
        done: 0,
        fault: HistoryFault::Output,
        out,
    };
    let handed = each_of_all::<Repeats, S, HistoryLines<W>>(alloc, conn, &mut lines);
    let HistoryLines { fault, out, .. } = lines;
    match handed {
        Ok(()) => (out, Ok(())),
        Err(cause) => (out, Err(HistoryFault::of(cause, fault))),
    }
}
