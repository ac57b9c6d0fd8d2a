//! Goods-in files and acts that come again, whose lines are added once; and the day on which the acts began.

use crate::acting::acts_of;
use crate::books::{Trial, act, day, first_day, in_memory, is_of_day, opened};
use crate::disk::{ALWAYS, Held, Stopping, disk_of};
use crate::history::{lines, part};
use acts_files::{ActsFault, ActsFile, NotOpened, open_beside};
use commands::Refusal;
use histories::print_history;
use sqlite::Alter;
use std::alloc::Global;
use std::process::Abort;
use store::{Books, RowFault, Tally};

/// How many acts the books have before.
const HAD: usize = 5;

/// How many calls the disk takes: the length, a read, a write and a sync as the file is opened, and the length, a write and a
/// sync for the rows of the goods-in file.
const CALLS: u64 = 7;

// A goods-in file, as lines of its rows: two of them acted before, and one stands twice.
static FILE: &[u8] =
    b"\t\tD/D-1/1\tRECEIVE\t09506000134352\tL1\t2026-06-30\tA-01\t10\n\t\tD/D-3/1\tRECEIVE\t09506000134352\tL4\t2026-08-31\tA-01\t2\n\t\tD/D-3/1\tRECEIVE\t09506000134352\tL4\t2026-08-31\tA-01\t2\n\t\tD/D-1/2\tRECEIVE\t09506000134352\tL2\t2026-05-31\tA-01\t10\n\t\tD/D-3/2\tRECEIVE\t09506000134352\tL5\t2026-08-31\tA-01\t3\n";

// What is added for it.
static ADDED: &[u8] =
    b"6\t2026-05-04\tD/D-3/1\tRECEIVE\t09506000134352\tL4\t2026-08-31\tA-01\t2\n7\t2026-05-04\tD/D-3/2\tRECEIVE\t09506000134352\tL5\t2026-08-31\tA-01\t3\n";

// The second row is of an item that nobody took into the range.
static REFUSED: &[u8] =
    b"\t\tD/D-4/1\tRECEIVE\t09506000134352\tL6\t2026-08-31\tA-01\t2\n\t\tD/D-4/2\tRECEIVE\t04012345000016\tL6\t2026-08-31\tA-01\t2\n";

static ALL_REPEATED: Tally = Tally {
    accepted: 0,
    repeated: 5,
};

static TWO_ACCEPTED: Tally = Tally {
    accepted: 2,
    repeated: 3,
};

fn filed<S: Alter>(
    rt: &impl Abort,
    alloc: Global,
    books: &mut Books<S>,
    text: &[u8],
) -> Result<Tally, RowFault> {
    let rows = acts_of(rt, alloc, text);
    assert!(rt; rows.len() <= 1000);
    let found = books.act_all(rows.as_slice());
    drop(rows);
    found
}

// The last act comes again.
fn repeats<S: Alter>(rt: &impl Abort, alloc: Global, books: &mut Books<S>) {
    let acts = acts_of(rt, alloc, part(HAD - 1, HAD));
    for (key, command) in acts.as_slice() {
        let reply = books.act(key, command);
        assert!(rt; reply.expect(rt, "an act").repeated);
    }
    drop(acts);
}

fn begun<S: Alter>(
    rt: &impl Abort,
    alloc: Global,
    books: &mut Books<S>,
    disk: Stopping,
) -> ActsFile<Stopping> {
    match open_beside(alloc, disk, books, first_day(rt)) {
        Ok(file) => file,
        Err(NotOpened { fault, .. }) => panic!(rt; "{fault:?}"),
    }
}

// The file of the acts is brought up after a goods-in file, after the same one again, after an act that comes again and after
// a file that is refused.
fn brought_up<S: Alter>(
    rt: &impl Abort,
    alloc: Global,
    books: &mut Books<S>,
    file: &mut ActsFile<Stopping>,
) {
    assert!(rt; filed(rt, alloc, books, FILE) == Ok(TWO_ACCEPTED));
    assert!(rt; file.bring_up(alloc, books) == Ok(()));
    assert!(rt; filed(rt, alloc, books, FILE) == Ok(ALL_REPEATED));
    assert!(rt; file.bring_up(alloc, books) == Ok(()));
    repeats(rt, alloc, books);
    assert!(rt; file.bring_up(alloc, books) == Ok(()));
    let refused = RowFault::Refused {
        row: 2,
        refusal: Refusal::UnknownItem,
    };
    assert!(rt; filed(rt, alloc, books, REFUSED) == Err(refused));
    assert!(rt; file.bring_up(alloc, books) == Ok(()));
}

// The file has the lines that it had, and those that were added.
fn has_added(rt: &impl Abort, alloc: Global, disk: Stopping) -> bool {
    let mut text = part(0, HAD).to_vec(alloc).expect(rt, "memory");
    assert!(rt; text.extend_from_slice(ADDED).is_ok());
    let held = Held::by(rt, alloc, disk);
    let is_so = held.is(text.as_slice()) && !held.has_spare;
    drop(held);
    is_so
}

/// Only rows that were accepted are added, once, and the disk is asked for nothing more.
pub(crate) fn are_filed<S: Alter>(rt: &impl Abort, alloc: Global, books: &mut Books<S>) {
    act(rt, alloc, books, part(0, HAD));
    let mut file = begun(rt, alloc, books, disk_of(rt, alloc, b"", CALLS));
    brought_up(rt, alloc, books, &mut file);
    assert!(rt; has_added(rt, alloc, file.into_disk()));
}

/// The file has the text that is printed of the same acts.
pub(crate) fn is_printed<S: Alter + Drop>(rt: &impl Abort, alloc: Global, books: Books<S>) {
    let mut books = books;
    act(rt, alloc, &mut books, lines());
    let disk = disk_of(rt, alloc, b"", ALWAYS);
    let (disk, fault) = opened(alloc, &mut books, first_day(rt), disk);
    let today = books.day();
    let mut conn = books.close();
    let (text, end) = print_history(alloc, &mut conn, today, Vec::new(alloc));
    drop(conn);
    let held = Held::by(rt, alloc, disk);
    let is_so = held.is(text.as_slice()) && text.as_slice() == lines();
    drop(held);
    assert!(rt; fault.is_none() && end.is_ok() && is_so);
}

// A day is opened before anything is received: no table tells on which day the acts began.
static OPENED_FIRST: &[u8] =
    b"1\t2026-05-04\tK/K-1\tITEM\t09506000134352\tOat drink\n2\t2026-05-08\tK/K-2\tOPENDAY\t2026-05-08\n";

static BEGUN_LATER: &[u8] =
    b"1\t2026-05-07\tK/K-1\tITEM\t09506000134352\tOat drink\n2\t2026-05-08\tK/K-2\tOPENDAY\t2026-05-08\n";

/// The lines before the first opening have the day that is given.
pub(crate) fn day_is_given<S: Alter>(rt: &impl Abort, alloc: Global, books: &mut Books<S>) {
    act(rt, alloc, books, OPENED_FIRST);
    let (own, later) = (first_day(rt), day(rt, "2026-05-07"));
    for (file, begun, expected) in [
        (b"".as_slice(), own, Ok(OPENED_FIRST)),
        (b"".as_slice(), later, Ok(BEGUN_LATER)),
        (OPENED_FIRST, own, Ok(OPENED_FIRST)),
        (OPENED_FIRST, later, Err(ActsFault::Differs(1))),
        (BEGUN_LATER, own, Err(ActsFault::Differs(1))),
    ] {
        is_of_day(rt, alloc, books, file, begun, expected);
    }
}

#[test]
fn rows_of_a_goods_in_file_are_added_once(rt: HostRuntime) {
    in_memory(&rt, rt.alloc(), Trial::Filed);
}

#[test]
fn a_file_is_the_history_that_is_printed(rt: HostRuntime) {
    in_memory(&rt, rt.alloc(), Trial::Printed);
}

#[test]
fn acts_began_on_the_day_that_is_given(rt: HostRuntime) {
    in_memory(&rt, rt.alloc(), Trial::DayGiven);
}
