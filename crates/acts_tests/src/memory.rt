//! A file of the acts that is opened and brought up, for each request for which there may be no memory. A line is printed
//! before each call and after it: by these `memory.sh` knows which requests for memory to refuse, and what came of it.

use crate::books::{Trial, act, first_day, in_memory};
use crate::disk::{ALWAYS, Held, Stopping, disk_of};
use crate::history::{lines, part};
use acts_files::{ActsFault, ActsFile, NotOpened, open_beside};
use refused_calls::{Call, Told, is_refused};
use sqlite::Alter;
use std::alloc::Global;
use std::process::Abort;
use store::Books;

/// How many acts the books have as the file is opened, which has two lines and a part of the third.
const HAD: usize = 4;

const SIZE: usize = 100;

/// A call that opens the file.
#[derive(Clone, Copy)]
struct Opening {
    name: &'static str,
    opened: &'static str,
}

const OPEN: Opening = Opening {
    name: "open",
    opened: "the file",
};

/// Where it was not brought up, it is opened again.
const BRING_UP: Opening = Opening {
    name: "bring up",
    opened: "all lines",
};

// The books had no memory, or the disk, which is in memory too.
fn told_by(fault: ActsFault) -> Told {
    match fault {
        ActsFault::Store | ActsFault::File => Told::NoMemory,
        ActsFault::Foreign | ActsFault::Differs(_) | ActsFault::Lacks(_) => Told::Other,
    }
}

// What a stop leaves on the disk: a beginning of the history.
fn left_on(rt: &impl Abort, alloc: Global, disk: Stopping) -> Vec<u8> {
    let Held { synced, .. } = Held::by(rt, alloc, disk);
    assert!(rt; lines().starts_with(synced.as_slice()));
    synced
}

fn opened<S: Alter>(
    host: &HostRuntime,
    rt: &impl Abort,
    books: &mut Books<S>,
    bytes: &[u8],
    opening: Opening,
) -> Result<ActsFile<Stopping>, Vec<u8>> {
    let alloc = host.alloc();
    let (day, disk) = (first_day(rt), disk_of(rt, alloc, bytes, ALWAYS));
    let call = Call::begin(host, opening.name, opening.opened, "no memory");
    match open_beside(alloc, disk, books, day) {
        Ok(file) => {
            call.end(host, Told::Expected);
            Ok(file)
        }
        Err(NotOpened { disk, fault }) => {
            let told = call.end(host, told_by(fault));
            assert!(rt; is_refused(host, told), "{fault:?}");
            Err(left_on(rt, alloc, disk))
        }
    }
}

// The file is opened, at the second time where there was no memory.
fn opened_at_last<S: Alter>(
    host: &HostRuntime,
    rt: &impl Abort,
    books: &mut Books<S>,
    bytes: &[u8],
    opening: Opening,
) -> ActsFile<Stopping> {
    match opened(host, rt, books, bytes, opening) {
        Ok(file) => file,
        Err(left) => {
            let again = opened(host, rt, books, left.as_slice(), opening);
            again.ok().expect(rt, "memory")
        }
    }
}

fn brought_up<S: Alter>(
    host: &HostRuntime,
    rt: &impl Abort,
    books: &mut Books<S>,
    file: ActsFile<Stopping>,
) -> ActsFile<Stopping> {
    let alloc = host.alloc();
    let mut file = file;
    let call = Call::begin(host, BRING_UP.name, BRING_UP.opened, "no memory");
    match file.bring_up(alloc, books) {
        Ok(()) => {
            call.end(host, Told::Expected);
            file
        }
        Err(fault) => {
            let told = call.end(host, told_by(fault));
            assert!(rt; is_refused(host, told), "{fault:?}");
            let left = left_on(rt, alloc, file.into_disk());
            opened_at_last(host, rt, books, left.as_slice(), BRING_UP)
        }
    }
}

/// The file has all lines in the end.
pub(crate) fn is_kept<S: Alter>(host: &HostRuntime, rt: &impl Abort, books: &mut Books<S>) {
    let alloc = host.alloc();
    act(rt, alloc, books, part(0, HAD));
    let bytes = lines().get(..SIZE).expect(rt, "a place");
    let file = opened_at_last(host, rt, books, bytes, OPEN);
    act(rt, alloc, books, part(HAD, HAD + 1));
    let file = brought_up(host, rt, books, file);
    let held = Held::by(rt, alloc, file.into_disk());
    let is_whole = held.is(part(0, HAD + 1));
    drop(held);
    assert!(rt; is_whole);
}

#[test]
fn acts_are_kept_without_memory(rt: HostRuntime) {
    in_memory(&rt, rt.alloc(), Trial::Memory(&rt));
}
