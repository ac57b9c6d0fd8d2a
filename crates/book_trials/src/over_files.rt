//! Work over a connection to files in memory.

use crate::files::{Failures, Pair, Stopping};
use books_schema::ready_connection::{Leftover, Orderly};
use sqlite::{Alter, Connection, Files, Options};
use std::alloc::Global;

/// What is done over one connection.
pub trait Work {
    /// Does it, and gives what is left of the connection.
    fn work<S: Orderly + Drop>(&mut self, conn: Connection<S>) -> Leftover<S>;
}

// The one function over the connection's own type: each takes long to check.
fn worked<W: Work>(
    alloc: Global,
    files: Files<Stopping>,
    options: Options,
    work: &mut W,
) -> (Files<Stopping>, bool) {
    if !files.may_be_used() {
        return (files, false);
    }
    let conn = match Connection::open_files(alloc, files, options) {
        Ok(conn) => conn,
        Err((_, left)) => return (left.into_files(), false),
    };
    let conn = match work.work(conn) {
        Leftover::Connection(conn) => conn,
        Leftover::Store(store) => return (store.close(), false),
    };
    match conn.close_files() {
        Ok(files) => (files, true),
        Err((_, store)) => (store.close(), false),
    }
}

/// Opens a connection over the files, works and closes it: the files after it. None where they do not open, or do not close.
pub fn after_work<W: Work>(
    alloc: Global,
    files: &Pair,
    options: Options,
    work: &mut W,
) -> Option<Pair> {
    let files = files.disks(alloc, Failures::NONE)?;
    let (files, is_closed) = worked(alloc, files, options, work);
    let files = Pair::of(alloc, files)?;
    match is_closed {
        true => Some(files),
        false => None,
    }
}
