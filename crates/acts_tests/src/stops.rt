//! A disk that stops at each call of two days' work: the file is a beginning of the history, and opening it again makes it
//! whole.

use crate::books::{Trial, act, first_day, in_memory, is_so};
use crate::disk::{ALWAYS, Held, Stopping, disk_of};
use crate::history::{ALL, lines, part};
use acts_files::{ActsFault, ActsFile, NotOpened, open_beside};
use sqlite::Alter;
use std::alloc::Global;
use std::process::Abort;
use store::Books;

/// How the work begins.
#[derive(Clone, Copy)]
pub(crate) struct Start {
    /// How many acts the books have as the file is opened.
    acts: usize,
    /// The file has so many whole lines, and so many bytes more.
    lines: usize,
    more: usize,
    /// At so many calls at least its disk can stop, from there to the end of the work.
    least: usize,
}

/// After how many calls a disk stops at the latest. The work takes fewer.
const MOST: u64 = 40;

/// After how many acts the file is brought up: two at once are those of a goods-in file.
static ENDS: [usize; 9] = [1, 2, 4, 5, 6, 7, 8, 9, ALL];

/// What a stop leaves of what was not synced.
#[derive(Clone, Copy)]
enum Loss {
    Nothing,
    /// A half of its bytes.
    Half,
    /// Its length alone.
    Bytes,
    All,
}

static LOSSES: [Loss; 4] = [Loss::Nothing, Loss::Half, Loss::Bytes, Loss::All];

fn left(rt: &impl Abort, alloc: Global, held: &Held, loss: Loss) -> Vec<u8> {
    let mut bytes = held.written.to_vec(alloc).expect(rt, "memory");
    let from = held.synced.len().min(bytes.len());
    match loss {
        Loss::Nothing => bytes,
        Loss::Half => {
            bytes.truncate(from + (bytes.len() - from) / 2);
            bytes
        }
        Loss::Bytes => {
            for byte in &mut bytes[from..] {
                *byte = 0;
            }
            bytes
        }
        Loss::All => held.synced.to_vec(alloc).expect(rt, "memory"),
    }
}

// The bytes are a beginning of the history, which has the lines of so many acts.
fn is_beginning(bytes: &[u8], kept: usize) -> bool {
    lines().starts_with(bytes) && part(0, kept).len() <= bytes.len()
}

/// Files on disks that stop at each call, beside the same books.
#[derive(Drop)]
struct Files {
    /// Those that are brought up with the books.
    open: Vec<ActsFile<Stopping>>,
    /// How many stopped, and how many of them had something that was not synced.
    stopped: usize,
    unsynced: usize,
}

impl Files {
    fn push(&mut self, rt: &impl Abort, file: ActsFile<Stopping>) {
        assert!(rt; self.open.push(file).is_ok());
    }

    // The disk has stopped: the file has the lines of so many acts, and whatever is left of it is opened. Its work goes on with
    // what was written.
    fn stop<S: Alter>(
        &mut self,
        rt: &impl Abort,
        alloc: Global,
        books: &mut Books<S>,
        disk: Stopping,
        kept: usize,
        acts: usize,
    ) {
        let held = Held::by(rt, alloc, disk);
        assert!(rt; is_beginning(held.written.as_slice(), kept));
        assert!(rt; is_beginning(held.synced.as_slice(), kept));
        for loss in LOSSES.as_slice() {
            let bytes = left(rt, alloc, &held, *loss);
            is_so(rt, alloc, books, bytes.as_slice(), Ok(part(0, acts)));
        }
        let is_synced = held.is(held.written.as_slice());
        self.stopped = self.stopped.saturating_add(1);
        self.unsynced = self.unsynced.saturating_add(usize::from(!is_synced));
        let disk = disk_of(rt, alloc, held.written.as_slice(), ALWAYS);
        drop(held);
        match open_beside(alloc, disk, books, first_day(rt)) {
            Ok(file) => self.push(rt, file),
            Err(NotOpened { fault, .. }) => panic!(rt; "{fault:?}"),
        }
    }

    // Opens the file on this disk.
    fn open<S: Alter>(
        &mut self,
        rt: &impl Abort,
        alloc: Global,
        books: &mut Books<S>,
        disk: Stopping,
        start: &Start,
    ) {
        match open_beside(alloc, disk, books, first_day(rt)) {
            Ok(file) => self.push(rt, file),
            Err(NotOpened { disk, fault }) => {
                assert!(rt; fault == ActsFault::File, "{fault:?}");
                self.stop(rt, alloc, books, disk, start.lines, start.acts);
            }
        }
    }

    // Brings the file up, which has the lines of so many acts. Where that fails, it is no use to try again.
    fn bring_up<S: Alter>(
        &mut self,
        rt: &impl Abort,
        alloc: Global,
        books: &mut Books<S>,
        file: ActsFile<Stopping>,
        kept: usize,
        acts: usize,
    ) {
        let mut file = file;
        match file.bring_up(alloc, books) {
            Ok(()) => self.push(rt, file),
            Err(fault) => {
                let again = file.bring_up(alloc, books);
                assert!(rt; fault == ActsFault::File && again == Err(fault));
                self.stop(rt, alloc, books, file.into_disk(), kept, acts);
            }
        }
    }
}

// The files are brought up to so many acts.
fn brought_up<S: Alter>(
    rt: &impl Abort,
    alloc: Global,
    books: &mut Books<S>,
    files: Files,
    kept: usize,
    acts: usize,
) -> Files {
    let Files {
        open,
        stopped,
        unsynced,
    } = files;
    let mut next = Files {
        open: Vec::new(alloc),
        stopped,
        unsynced,
    };
    for file in open {
        next.bring_up(rt, alloc, books, file, kept, acts);
    }
    next
}

// Files on disks that stop after each number of calls.
fn begun<S: Alter>(rt: &impl Abort, alloc: Global, books: &mut Books<S>, start: &Start) -> Files {
    let size = part(0, start.lines).len().saturating_add(start.more);
    let bytes = lines().get(..size).expect(rt, "a place");
    let mut files = Files {
        open: Vec::new(alloc),
        stopped: 0,
        unsynced: 0,
    };
    for calls in 0..MOST {
        let disk = disk_of(rt, alloc, bytes, calls);
        files.open(rt, alloc, books, disk, start);
    }
    files
}

// Each file has all lines in the end.
fn are_whole(rt: &impl Abort, alloc: Global, files: Vec<ActsFile<Stopping>>) {
    for file in files {
        let held = Held::by(rt, alloc, file.into_disk());
        let is_whole = held.is(lines());
        drop(held);
        assert!(rt; is_whole);
    }
}

/// Tries it over new books.
pub(crate) fn stops<S: Alter>(rt: &impl Abort, alloc: Global, books: &mut Books<S>, start: &Start) {
    act(rt, alloc, books, part(0, start.acts));
    let mut files = begun(rt, alloc, books, start);
    let mut acts = start.acts;
    for end in ENDS.as_slice() {
        if acts < *end {
            act(rt, alloc, books, part(acts, *end));
            files = brought_up(rt, alloc, books, files, acts, *end);
            acts = *end;
        }
    }
    let Files {
        open,
        stopped,
        unsynced,
    } = files;
    are_whole(rt, alloc, open);
    assert!(rt;
        start.least <= stopped && (stopped as u64) < MOST,
        "{stopped} stops"
    );
    assert!(rt;
        0 < unsynced && unsynced < stopped,
        "{unsynced} of {stopped}"
    );
}

/// Beside new books; as a file is filled; as a tail is cut; beside a file that is whole, but for the end of its last line.
static STARTS: [Start; 4] = [
    Start {
        acts: 0,
        lines: 0,
        more: 0,
        least: 20,
    },
    Start {
        acts: 5,
        lines: 0,
        more: 0,
        least: 15,
    },
    Start {
        acts: 6,
        lines: 2,
        more: 30,
        least: 15,
    },
    Start {
        acts: ALL,
        lines: 9,
        more: 45,
        least: 12,
    },
];

#[test]
fn the_disk_stops_at_each_call(rt: HostRuntime) {
    for start in STARTS.as_slice() {
        in_memory(&rt, rt.alloc(), Trial::Stops(start));
    }
}
