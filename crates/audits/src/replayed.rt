//! The acts of the rows, done again on books in memory.

ghost use Rattle.std.specs.Prelude.{◌≡◌, [], false, IfOk, IfErr};
ghost use Rattle.store.specs.Books.{HoldsBooks};
ghost use Rattle.replays.specs.Replaying.{IsOpen};
ghost use Rattle.replays.specs.declared.fault.NotReplayed.TheVariants.{Store};
ghost use Rattle.audits.specs.Auditing.{AreDone, AreNone};

use commands::RepeatRow;
use empty_database::Honest;
use label::BusinessDay;
use replays::{NotReplayed, Progress, replay_rows};
use sqlite::Connection;
use std::alloc::Global;
use store::Books;

/// Books of this day in which nothing has been done, over an empty database.
fn new_books<M: Honest + Drop>(
    alloc: Global,
    empty: Connection<M>,
    day: BusinessDay,
) -> Result<Books<M>, NotReplayed>
    requires { empty.in_transaction ≡ false }
    ensures books { IfOk result (HoldsBooks M.Store day []) }
    ensures open { IfOk result (IsOpen M.Store) }
    ensures fault { IfErr result (λ e. e ≡ Store) }
{
    match Books::create(alloc, empty, day) {
        Ok(books) => Ok(books),
        Err(_) => Err(NotReplayed::Store),
    }
}

/// A connection over the books of the acts that the rows spell, the newest first, begun on this day, in what was an empty
/// database; or why they are no history from that day.
pub(crate) fn act_rows<M: Honest + Drop, P: Progress>(
    alloc: Global,
    empty: Connection<M>,
    day: BusinessDay,
    rows: Vec<RepeatRow>,
    progress: &mut P,
) -> Result<Connection<M>, NotReplayed>
    requires { empty.in_transaction ≡ false }
    ensures outside { IfOk result (λ conn. conn.in_transaction ≡ false) }
    ensures done { IfOk result (AreDone M.Store day rows.items) }
    ensures none { IfErr result (AreNone day rows.items) }
{
    // The books may begin on it.
    let _business = day.day();
    let mut books = new_books(alloc, empty, day)?;
    replay_rows(alloc, &mut books, rows, progress)?;
    Ok(books.close())
}
