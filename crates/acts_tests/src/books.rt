//! Books in memory, beside which the file of the acts is opened.

use crate::acting::acts_of;
use crate::counting::{Counting, Counts};
use crate::disk::{ALWAYS, Held, Stopping, disk_of};
use crate::fails::each_call_fails;
use crate::filed::{are_filed, day_is_given, is_printed};
use crate::memory::is_kept;
use crate::opened::{are_opened, bytes_are_changed, is_cut_at_each_byte, tails_are_long};
use crate::statements::are_counted;
use crate::stops::{Start, stops};
use crate::torn::{a_thousand_rows_are_kept, many_are_added, writes_are_torn};
use acts_files::{ActsFault, NotOpened, open_beside};
use label::{BusinessDay, Day};
use sqlite::{Alter, Connection, MemStore};
use std::alloc::Global;
use std::process::Abort;
use store::Books;

/// What is tried over new books of 2026-05-04.
#[derive(Clone, Copy)]
pub(crate) enum Trial<'a> {
    /// Files are opened.
    Opened(&'a str),
    /// The file has the lines up to each byte.
    Cut,
    /// A byte of the file is changed, each in turn.
    Bytes,
    /// Long tails stand behind the lines.
    Tails,
    /// Goods-in files, and acts that come again.
    Filed,
    /// The text of the history that is printed is that of the file.
    Printed,
    /// A day is opened before anything is received.
    DayGiven,
    /// The disk of the file stops.
    Stops(&'a Start),
    /// A call on its disk fails.
    Fails,
    /// Writes of which a stop left a part.
    Torn,
    /// More acts than are added at once.
    Many,
    /// A goods-in file of a thousand rows.
    Thousand,
    /// The statements of acts are counted.
    Counted,
    /// There may be no memory.
    Memory(&'a HostRuntime),
}

/// A day that is written so.
pub(crate) fn day(rt: &impl Abort, text: &str) -> Day {
    Day::parse(text.as_bytes()).expect(rt, "a day")
}

/// The day of the books.
pub(crate) fn first_day(rt: &impl Abort) -> Day {
    day(rt, "2026-05-04")
}

fn new_books<S: Alter + Drop>(rt: &impl Abort, alloc: Global, conn: Connection<S>) -> Books<S> {
    assert!(rt; conn.is_autocommit());
    let day = BusinessDay::new(first_day(rt)).expect(rt, "a business day");
    match Books::create(alloc, conn, day) {
        Ok(books) => books,
        Err(_) => panic!(rt; "no books were made"),
    }
}

/// Does the act of each line.
pub(crate) fn act<S: Alter>(rt: &impl Abort, alloc: Global, books: &mut Books<S>, text: &[u8]) {
    let acts = acts_of(rt, alloc, text);
    for (key, command) in acts.as_slice() {
        let reply = books.act(key, command);
        assert!(rt; !reply.expect(rt, "an act").repeated);
    }
    drop(acts);
}

/// Opens the file on this disk beside the books, as of acts that began on this day. The disk comes back, and why the file was
/// not opened.
pub(crate) fn opened<S: Alter>(
    alloc: Global,
    books: &mut Books<S>,
    begun: Day,
    disk: Stopping,
) -> (Stopping, Option<ActsFault>) {
    match open_beside(alloc, disk, books, begun) {
        Ok(file) => (file.into_disk(), None),
        Err(NotOpened { disk, fault }) => (disk, Some(fault)),
    }
}

/// The file, opened as of acts that began on this day, then has this text; or it is not opened, for this cause, and is as it was.
pub(crate) fn is_of_day<S: Alter>(
    rt: &impl Abort,
    alloc: Global,
    books: &mut Books<S>,
    file: &[u8],
    begun: Day,
    expected: Result<&[u8], ActsFault>,
) {
    let (disk, fault) = opened(alloc, books, begun, disk_of(rt, alloc, file, ALWAYS));
    let held = Held::by(rt, alloc, disk);
    let is_so = match expected {
        Ok(text) => fault.is_none() && held.is(text),
        Err(expected) => fault == Some(expected) && held.is(file),
    };
    drop(held);
    assert!(rt; is_so, "{fault:?}");
}

/// Likewise of acts that began on the day of the books.
pub(crate) fn is_so<S: Alter>(
    rt: &impl Abort,
    alloc: Global,
    books: &mut Books<S>,
    file: &[u8],
    expected: Result<&[u8], ActsFault>,
) {
    is_of_day(rt, alloc, books, file, first_day(rt), expected);
}

fn tried<S: Alter + Drop>(
    rt: &impl Abort,
    alloc: Global,
    conn: Connection<S>,
    counts: &Counts,
    trial: Trial<'_>,
) {
    let mut books = new_books(rt, alloc, conn);
    match trial {
        Trial::Opened(cases) => are_opened(rt, alloc, &mut books, cases),
        Trial::Cut => is_cut_at_each_byte(rt, alloc, &mut books),
        Trial::Bytes => bytes_are_changed(rt, alloc, &mut books),
        Trial::Tails => tails_are_long(rt, alloc, &mut books),
        Trial::Filed => are_filed(rt, alloc, &mut books),
        Trial::Printed => is_printed(rt, alloc, books),
        Trial::DayGiven => day_is_given(rt, alloc, &mut books),
        Trial::Stops(start) => stops(rt, alloc, &mut books, start),
        Trial::Fails => each_call_fails(rt, alloc, &mut books),
        Trial::Torn => writes_are_torn(rt, alloc, &mut books),
        Trial::Many => many_are_added(rt, alloc, &mut books),
        Trial::Thousand => a_thousand_rows_are_kept(rt, alloc, &mut books),
        Trial::Counted => are_counted(rt, alloc, &mut books, counts),
        Trial::Memory(host) => is_kept(host, rt, &mut books),
    }
}

/// Tries it over new books in memory.
// The one function over the connection's own type: each takes long to check.
pub(crate) fn in_memory(rt: &impl Abort, alloc: Global, trial: Trial<'_>) {
    let counts = Counts::new();
    let store = MemStore::new(alloc, &[]).ok().expect(rt, "memory");
    match Connection::over(alloc, Counting::new(store, &counts)) {
        Ok(conn) => tried(rt, alloc, conn, &counts, trial),
        Err(_) => panic!(rt; "no connection opens"),
    }
}
