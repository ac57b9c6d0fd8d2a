//! Writes of lines of which a stop left a part, and files of many acts and of long ones.

use crate::acting::acts_of;
use crate::books::{Trial, act, first_day, in_memory, is_so};
use crate::disk::{ALWAYS, Held, disk_of};
use crate::history::{ALL, lines, part};
use acts_files::{ActsFault, open_beside};
use sqlite::Alter;
use std::alloc::Global;
use std::process::Abort;
use store::{Books, Tally};

/// What a stop leaves of a write: of each byte 0, or the one that was written.
#[derive(Clone, Copy)]
enum Left {
    Zeros,
    /// Line feeds alone.
    Feeds,
    /// What stands behind so many bytes.
    Behind(usize),
    /// Each second run of so many bytes.
    Runs(usize),
}

static LEFT: [Left; 7] = [
    Left::Zeros,
    Left::Feeds,
    Left::Behind(1),
    Left::Behind(16),
    Left::Behind(100),
    Left::Runs(8),
    Left::Runs(64),
];

impl Left {
    fn has(self, at: usize, byte: u8) -> bool {
        match self {
            Left::Zeros => false,
            Left::Feeds => byte == b'\n',
            Left::Behind(place) => place <= at,
            Left::Runs(size) => at.checked_div(size).unwrap_or(0) % 2 == 1,
        }
    }
}

fn torn(rt: &impl Abort, alloc: Global, had: &[u8], write: &[u8], left: Left) -> Vec<u8> {
    let mut file = had.to_vec(alloc).expect(rt, "memory");
    for (at, byte) in write.iter().enumerate() {
        let found = if left.has(at, *byte) { *byte } else { 0 };
        assert!(rt; file.push(found).is_ok());
    }
    file
}

fn is_torn<S: Alter>(rt: &impl Abort, alloc: Global, books: &mut Books<S>, had: usize, end: usize) {
    for left in LEFT.as_slice() {
        let file = torn(rt, alloc, part(0, had), part(had, end), *left);
        is_so(rt, alloc, books, file.as_slice(), Ok(lines()));
    }
}

/// The lines behind each line, up to each, were being written.
pub(crate) fn writes_are_torn<S: Alter>(rt: &impl Abort, alloc: Global, books: &mut Books<S>) {
    act(rt, alloc, books, lines());
    for had in 0..ALL {
        for end in had..=ALL {
            is_torn(rt, alloc, books, had, end);
        }
    }
}

/// The lines of so many acts, from this number on.
fn bins(rt: &impl Abort, alloc: Global, from: u64, to: u64) -> Vec<u8> {
    let mut text: Vec<u8> = Vec::new(alloc);
    for number in from..to {
        let line = format!(in alloc;
            "{number}\t2026-05-04\tK/B-{number}\tBIN\tA-{number}\tSTORE\n"
        );
        let line = line.ok().expect(rt, "memory");
        assert!(rt; text.extend_from_slice(line.as_bytes()).is_ok());
    }
    text
}

/// More acts than are added at once: the file is empty, and a thousand lines are torn, and one more.
pub(crate) fn many_are_added<S: Alter>(rt: &impl Abort, alloc: Global, books: &mut Books<S>) {
    let text = bins(rt, alloc, 1, 2_101);
    act(rt, alloc, books, text.as_slice());
    let had = bins(rt, alloc, 1, 51);
    let write = bins(rt, alloc, 51, 1_051);
    let longer = bins(rt, alloc, 51, 1_052);
    let runs = Left::Runs(512);
    let whole = Ok(text.as_slice());
    is_so(rt, alloc, books, b"", whole);
    let file = torn(rt, alloc, had.as_slice(), write.as_slice(), runs);
    is_so(rt, alloc, books, file.as_slice(), whole);
    let file = torn(rt, alloc, had.as_slice(), longer.as_slice(), runs);
    is_so(
        rt,
        alloc,
        books,
        file.as_slice(),
        Err(ActsFault::Differs(51)),
    );
}

static THOUSAND: Tally = Tally {
    accepted: 1_000,
    repeated: 0,
};

/// The lines of the receipts of a goods-in file of a thousand rows, behind the lines of the history.
fn receipts(rt: &impl Abort, alloc: Global) -> Vec<u8> {
    let mut text: Vec<u8> = Vec::new(alloc);
    for row in 1..1_001u64 {
        let number = row.saturating_add(ALL as u64);
        let line = format!(in alloc;
            "{number}\t2026-05-05\tD/F-1/{row}\tRECEIVE\t09506000134352\tL9\t2026-08-31\tA-01\t1\n"
        );
        let line = line.ok().expect(rt, "memory");
        assert!(rt; text.extend_from_slice(line.as_bytes()).is_ok());
    }
    text
}

/// A goods-in file of a thousand rows is kept, and the file opened again.
pub(crate) fn a_thousand_rows_are_kept<S: Alter>(
    rt: &impl Abort,
    alloc: Global,
    books: &mut Books<S>,
) {
    act(rt, alloc, books, lines());
    let Ok(mut file) = open_beside(alloc, disk_of(rt, alloc, b"", ALWAYS), books, first_day(rt))
    else {
        panic!(rt; "not opened");
    };
    let added = receipts(rt, alloc);
    let rows = acts_of(rt, alloc, added.as_slice());
    assert!(rt; rows.len() <= 1000);
    assert!(rt; books.act_all(rows.as_slice()) == Ok(THOUSAND));
    drop(rows);
    assert!(rt; file.bring_up(alloc, books) == Ok(()));
    let mut text = lines().to_vec(alloc).expect(rt, "memory");
    assert!(rt; text.extend_from_slice(added.as_slice()).is_ok());
    let held = Held::by(rt, alloc, file.into_disk());
    assert!(rt; held.is(text.as_slice()));
    is_so(
        rt,
        alloc,
        books,
        held.synced.as_slice(),
        Ok(text.as_slice()),
    );
    drop(held);
}

#[test]
fn a_write_that_is_torn_is_made_whole(rt: HostRuntime) {
    in_memory(&rt, rt.alloc(), Trial::Torn);
}

#[test]
fn lines_are_added_a_thousand_at_once(rt: HostRuntime) {
    in_memory(&rt, rt.alloc(), Trial::Many);
}

#[test]
fn a_goods_in_file_of_a_thousand_rows_is_kept(rt: HostRuntime) {
    in_memory(&rt, rt.alloc(), Trial::Thousand);
}
