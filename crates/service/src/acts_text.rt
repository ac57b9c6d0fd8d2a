//! The acts of the books, printed.

ghost use Rattle.std.specs.Prelude.{◌≡◌, ℤ, List, true, IsTrue, IsErr, IsErrAnd, IfOk, IfErr};
ghost use Rattle.books_schema.specs.declared.ready_connection.Leftover.TheVariants as leftover;
ghost use Rattle.sqlite.specs.Held.{state};
ghost use Rattle.sqlite.specs.State.{HasCleanDisk};
ghost use Rattle.machine.specs.Acts.{Act};
ghost use Rattle.machine.specs.Once.{IsHistory};
ghost use Rattle.store.specs.Books.{KeepsBooks, HoldsBooks, IsClean};
ghost use Rattle.store.specs.Opening.{IsOfNone, AreFoundRows};
ghost use Rattle.histories.specs.Printed.{IsHistoryPrinted};
ghost use Rattle.service.specs.Failing.{IsUnopened};
ghost use Rattle.service.specs.ActsTold.{fault_told};

use crate::lent::Lent;
use crate::{AfterWork, NotBegun, open_books};
use books_schema::ready_connection::Orderly;
use command_line::Fault;
use histories::{HistoryFault, print_history};
use sqlite::{Alter, Connection};
use std::alloc::Global;
use std::io::Write;
use store::Books;

/// Opens the books, and then prints their acts, one a line. Nothing is changed.
pub fn open_and_print_acts<S: Orderly + Drop, W: Write>(
    alloc: Global,
    conn: Connection<S>,
    out: &mut W,
) -> Result<AfterWork<S>, NotBegun<S>>
    ensures clean { IfOk result (λ w. HasCleanDisk (state S.Store w.0) → HasCleanDisk (state S.Store conn)) }
    ensures printed { IfOk result (λ w. HasCleanDisk (state S.Store w.0) → (first : ℤ) (acts : List Act) → IsHistory first acts
        → AreFoundRows first acts (state S.Store conn).committed.trees → KeepsBooks first acts (state S.Store w.0)) }
    ensures told { IfOk result (λ w. HasCleanDisk (state S.Store w.0) → (first : ℤ) (acts : List Act) → IsHistory first acts
        → AreFoundRows first acts (state S.Store conn).committed.trees → IsHistoryPrinted first acts (W.contents out.old) (W.contents out.new) w.1) }
    ensures other { IsOfNone (state S.Store conn).now.schema → IsErr result }
    ensures within { conn.in_transaction ≡ true → IsErrAnd result (λ e. (e.0 ≡ leftover.Connection conn) × (e.1 ≡ Fault.Store)) }
    ensures left { IfErr result (λ e. IsUnopened S.Store conn e.0 e.1) }
    ensures silent { IsErr result → out.new ≡ out.old }
{
    match open_books(alloc, conn) {
        Ok(books) => Ok(print_acts(alloc, books, out)),
        Err(fault) => Err(fault),
    }
}

fn print_acts<S: Alter + Drop, W: Write>(
    alloc: Global,
    books: Books<S>,
    out: &mut W,
) -> AfterWork<S>
    ensures clean { HasCleanDisk (state S.Store result.0) → IsClean S.Store books }
    ensures printed { HasCleanDisk (state S.Store result.0) → IsTrue (state S.Store books.conn).is_open → (first : ℤ) (acts : List Act) → IsHistory first acts → HoldsBooks S.Store first acts books
        → KeepsBooks first acts (state S.Store result.0) }
    ensures told { HasCleanDisk (state S.Store result.0) → IsTrue (state S.Store books.conn).is_open → (first : ℤ) (acts : List Act) → IsHistory first acts → HoldsBooks S.Store first acts books
        → IsHistoryPrinted first acts (W.contents out.old) (W.contents out.new) result.1 }
{
    let today = books.day();
    let mut conn = books.close();
    let (lent, end) = print_history(alloc, &mut conn, today, Lent { out });
    // The reference ends here, and what it leaves is known.
    let Lent { out: _out } = lent;
    (conn, line_result(end))
}

/// How the printing went, as the line tells it.
fn line_result(end: Result<(), HistoryFault>) -> Result<(), Fault>
    ensures { result ≡ fault_told end }
{
    match end {
        Ok(()) => Ok(()),
        Err(HistoryFault::Store) => Err(Fault::Store),
        Err(HistoryFault::Foreign) => Err(Fault::Foreign),
        Err(HistoryFault::Output) => Err(Fault::Io),
    }
}
