ghost use Rattle.std.specs.Prelude.{◌≡◌, ◌≢◌, ◌↔◌, ℤ, [], List, true, false, IsTrue, IsErr, IsErrAnd, IfOk, IfErr};
ghost use Rattle.sqlite.specs.Held.{state};
ghost use Rattle.sqlite.specs.State.{HasCleanDisk};
ghost use Rattle.table_words.specs.Schema.{schema_0};
ghost use Rattle.machine.specs.Acts.{Act};
ghost use Rattle.machine.specs.Once.{IsHistory};
ghost use Rattle.store.specs.Books.{KeepsBooks, HoldsBooks, IsClean, LeavesOnly};
ghost use Rattle.store.specs.Opening.{IsOfNone, AreFoundRows};
ghost use Rattle.service.specs.Failing.{fault_of_books as fault_of_books_lem, IsUnmade, IsUnopened};

use books_schema::ready_connection::{Leftover, Orderly};
use command_line::Fault;
use label::BusinessDay;
use sqlite::{Alter, Connection};
use std::alloc::Global;
use store::{Books, OpenFault};

/// A connection after the work over it, and how that work ended.
pub type AfterWork<S> = (Connection<S>, Result<(), Fault>);

/// What is left of a connection over which no work was begun, and why: `Foreign` or `Store`.
pub type NotBegun<S> = (Leftover<S>, Fault);

/// Makes the books, which begin on the business day. `Foreign` where the database has tables, `Store` where memory or the
/// disk fails.
pub fn make_books<S: Alter + Drop>(
    alloc: Global,
    conn: Connection<S>,
    day: BusinessDay,
) -> Result<AfterWork<S>, NotBegun<S>>
    ensures clean { IfOk result (λ w. HasCleanDisk (state S.Store w.0) → HasCleanDisk (state S.Store conn)) }
    ensures made { IfOk result (λ w. HasCleanDisk (state S.Store w.0) → KeepsBooks day [] (state S.Store w.0) × IsTrue (state S.Store w.0).is_open) }
    ensures done { IfOk result (λ w. w.1 ≡ Ok tt) }
    ensures foreign { conn.in_transaction ≡ false → IsErrAnd result (λ e. e.1 ≡ Fault.Foreign) ↔ ((state S.Store conn).now.schema ≢ schema_0) }
    ensures left { IfErr result (λ e. IsUnmade S.Store conn day e.0 e.1) }
    ensures within { conn.in_transaction ≡ true → IsErrAnd result (λ e. (e.0 ≡ Leftover.Connection conn) × (e.1 ≡ Fault.Store)) }
{
    if !conn.is_autocommit() {
        return Err((Leftover::Connection(conn), Fault::Store));
    }
    match Books::create(alloc, conn, day) {
        Ok(books) => Ok((books.close(), Ok(()))),
        Err(fault) => Err(cause(fault)),
    }
}

/// Opens the books. `Foreign` where the tables are none of books, `Store` where memory or the disk fails.
pub fn open_books<S: Orderly + Drop>(
    alloc: Global,
    conn: Connection<S>,
) -> Result<Books<S>, NotBegun<S>>
    ensures clean { IfOk result (λ b. IsClean S.Store b → HasCleanDisk (state S.Store conn)) }
    ensures books { IfOk result (λ b. IsClean S.Store b → (first : ℤ) (acts : List Act) → IsHistory first acts
        → AreFoundRows first acts (state S.Store conn).committed.trees → HoldsBooks S.Store first acts b × LeavesOnly first acts (state S.Store b.conn)) }
    ensures open { IfOk result (λ b. IsClean S.Store b → IsTrue (state S.Store b.conn).is_open) }
    ensures other { IsOfNone (state S.Store conn).now.schema → IsErr result }
    ensures within { conn.in_transaction ≡ true → IsErrAnd result (λ e. (e.0 ≡ Leftover.Connection conn) × (e.1 ≡ Fault.Store)) }
    ensures left { IfErr result (λ e. IsUnopened S.Store conn e.0 e.1) }
{
    if !conn.is_autocommit() {
        return Err((Leftover::Connection(conn), Fault::Store));
    }
    match Books::open(alloc, conn) {
        Ok(books) => Ok(books),
        Err(fault) => Err(cause(fault)),
    }
}

/// What is left, and why, as the line tells it.
fn cause<S: Alter + Drop>(fault: OpenFault<S>) -> NotBegun<S>
    ensures left { result.0 ≡ fault.left }
    ensures fault { result.1 ≡ fault_of_books_lem fault.fault }
{
    let OpenFault { left, fault } = fault;
    (left, fault_of_books(fault))
}

/// Why there are no books to work with, as the line tells it: `Foreign` or `Store`.
pub fn fault_of_books(fault: store::Fault) -> Fault
    ensures { result ≡ fault_of_books_lem fault }
{
    match fault {
        store::Fault::Foreign => Fault::Foreign,
        _ => Fault::Store,
    }
}
