//! A disk of which one call fails and the next does not, under a file of more acts than the books have: every byte stays.

use crate::books::{Trial, act, first_day, in_memory};
use crate::history::{lines, part};
use acts_files::{ActsFault, NotOpened, open_beside};
use sqlite::Alter;
use sqlite_disk::{Disk, Memory};
use std::alloc::Global;
use std::process::Abort;
use store::Books;
use trial_disk::{Failing, Failure};

/// How many acts the books have.
const HAD: usize = 4;

/// The number of the first act that only the file has.
const LACKED: u64 = 5;

// Why it is not opened, where the call after so many fails.
fn told<S: Alter>(rt: &impl Abort, alloc: Global, books: &mut Books<S>, after: u64) -> ActsFault {
    let mut file = Memory::new(alloc);
    assert!(rt; file.write_at(0, lines()).is_ok());
    assert!(rt; file.sync().is_ok());
    let disk = Failing::new(file, Failure::once(after));
    match open_beside(alloc, disk, books, first_day(rt)) {
        Ok(_) => panic!(rt; "opened"),
        Err(NotOpened { disk, fault }) => {
            assert!(rt; disk.inner().bytes() == lines());
            fault
        }
    }
}

/// Each call fails in turn. Where none does, it is told which act the books lack.
pub(crate) fn each_call_fails<S: Alter>(rt: &impl Abort, alloc: Global, books: &mut Books<S>) {
    act(rt, alloc, books, part(0, HAD));
    for after in 0..20 {
        let fault = told(rt, alloc, books, after);
        if fault == ActsFault::Lacks(LACKED) {
            assert!(rt; after > 2);
            return;
        }
        assert!(rt; fault == ActsFault::File);
    }
    panic!(rt; "no end");
}

#[test]
fn a_file_of_more_acts_stays_where_a_call_fails(rt: HostRuntime) {
    in_memory(&rt, rt.alloc(), Trial::Fails);
}
