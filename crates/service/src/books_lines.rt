//! A text of a lot, printed from books that are opened for it.

ghost use Rattle.std.specs.Prelude.{◌≡◌, ℤ, List, true, IsErr, IsErrAnd, IfOk, IfErr};
ghost use Rattle.books_schema.specs.declared.ready_connection.Leftover.TheVariants as leftover;
ghost use Rattle.sqlite.specs.Held.{state};
ghost use Rattle.sqlite.specs.State.{HasCleanDisk};
ghost use Rattle.machine.specs.Acts.{Act};
ghost use Rattle.machine.specs.Once.{IsHistory};
ghost use Rattle.store.specs.Books.{KeepsBooks, HoldsBooks, IsClean};
ghost use Rattle.store.specs.Opening.{IsOfNone, AreFoundRows};
ghost use Rattle.service.specs.Failing.{IsUnopened};
ghost use Rattle.service.specs.Printing.{IsSheetPrinted, LeavesSheet};

use crate::lot_texts::{print_card, print_notice};
use crate::{AfterWork, NotBegun, open_books};
use books_schema::ready_connection::Orderly;
use command_line::Fault;
use sqlite::{Alter, Connection};
use std::alloc::Global;
use std::io::Write;
use store::Books;
use values::LotId;

/// A text of a lot.
#[derive(Clone, Copy)]
pub enum Sheet {
    /// The stock card.
    Card,
    /// The recall notice.
    Notice,
}

/// Opens the books, and then prints a text of a lot.
pub fn open_and_print<S: Orderly + Drop, W: Write>(
    alloc: Global,
    conn: Connection<S>,
    sheet: Sheet,
    lot: &LotId,
    out: &mut W,
) -> Result<AfterWork<S>, NotBegun<S>>
    ensures clean { IfOk result (λ w. HasCleanDisk (state S.Store w.0) → HasCleanDisk (state S.Store conn)) }
    ensures printed { IfOk result (λ w. HasCleanDisk (state S.Store w.0) → (first : ℤ) (acts : List Act) → IsHistory first acts
        → AreFoundRows first acts (state S.Store conn).committed.trees → KeepsBooks first acts (state S.Store w.0)) }
    ensures told { IfOk result (λ w. HasCleanDisk (state S.Store w.0) → (first : ℤ) (acts : List Act) → IsHistory first acts
        → AreFoundRows first acts (state S.Store conn).committed.trees → LeavesSheet S.Store first acts sheet lot.now (W.contents out.old) (W.contents out.new) w.1 w.0) }
    ensures other { IsOfNone (state S.Store conn).now.schema → IsErr result }
    ensures within { conn.in_transaction ≡ true → IsErrAnd result (λ e. (e.0 ≡ leftover.Connection conn) × (e.1 ≡ Fault.Store)) }
    ensures left { IfErr result (λ e. IsUnopened S.Store conn e.0 e.1) }
    ensures silent { IsErr result → out.new ≡ out.old }
{
    match open_books(alloc, conn) {
        Ok(books) => Ok(print_books(books, sheet, lot, out)),
        Err(fault) => Err(fault),
    }
}

fn print_books<S: Alter + Drop, W: Write>(
    books: Books<S>,
    sheet: Sheet,
    lot: &LotId,
    out: &mut W,
) -> AfterWork<S>
    ensures clean { HasCleanDisk (state S.Store result.0) → IsClean S.Store books }
    ensures printed { HasCleanDisk (state S.Store result.0) → (first : ℤ) (acts : List Act) → IsHistory first acts → HoldsBooks S.Store first acts books
        → KeepsBooks first acts (state S.Store result.0) }
    ensures told { HasCleanDisk (state S.Store result.0) → (first : ℤ) (acts : List Act) → IsHistory first acts → HoldsBooks S.Store first acts books
        → LeavesSheet S.Store first acts sheet lot.now (W.contents out.old) (W.contents out.new) result.1 result.0 }
{
    let mut books = books;
    let end = print_sheet(&mut books, sheet, lot, out);
    (books.close(), end)
}

fn print_sheet<S: Alter, W: Write>(
    books: &mut Books<S>,
    sheet: Sheet,
    lot: &LotId,
    out: &mut W,
) -> Result<(), Fault>
    ensures clean { IsClean S.Store books.new → IsClean S.Store books.old }
    ensures printed { IsClean S.Store books.new → (first : ℤ) (acts : List Act) → IsHistory first acts → HoldsBooks S.Store first acts books.old
        → IsSheetPrinted S.Store first acts sheet lot.now books.old books.new (W.contents out.old) (W.contents out.new) result }
{
    match sheet {
        Sheet::Card => print_card(books, lot, out),
        Sheet::Notice => print_notice(books, lot, out),
    }
}
