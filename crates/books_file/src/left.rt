//! What is left of the files of books.

ghost use Rattle.books_file.specs.Lines.{IsStoreOf};

use crate::opening::NotOpened;
use books_schema::ready_connection::Leftover;
use sqlite::{Alter, FileStore, Files};
use sqlite_disk::Disk;

/// What a line leaves of the file of the books and its log. `S` is what is supposed of them: who opens them gives it away, so
/// it is there to be given back only where they were not opened.
pub enum FilesLeft<D: Disk, S> {
    /// They were not touched.
    Unopened(S),
    /// The system did not open them.
    NotOpened(NotOpened<S>),
    /// They were opened, and there were no books to read in them.
    Failed(sqlite::Leftover<D>),
    /// Both, closed.
    Closed(Files<D>),
    /// The store over them: no work was begun with the books, or the files could not be closed after it.
    Store(FileStore<D>),
}

/// Why no file of the acts is left, likewise.
#[derive(Drop)]
pub enum NoActs<A> {
    /// It was not touched.
    Unopened(A),
    /// The system did not open it.
    NotOpened(NotOpened<A>),
}

/// What a line leaves of the files of the books, and of that of the acts.
#[derive(Drop)]
pub struct LineLeft<D: Disk, S, A: Disk, T> {
    pub books: FilesLeft<D, S>,
    /// The file of the acts, where the line named one, or why it was not opened.
    pub acts: Result<Option<A>, NoActs<T>>,
}

// It is written out, so that a caller does not prove again how each part is dropped.
impl<D: Disk + Drop, S: Drop> Drop for FilesLeft<D, S> {
    fn drop(self) {
        match self {
            FilesLeft::Unopened(_start) => {}
            FilesLeft::NotOpened(_none) => {}
            FilesLeft::Failed(_left) => {}
            FilesLeft::Closed(_files) => {}
            FilesLeft::Store(_store) => {}
        }
    }
}

/// The store of what is left of a connection: what was not committed is rolled back, and nothing is written.
pub(crate) fn store_of<S: Alter + Drop>(left: Leftover<S>) -> S
    ensures { IsStoreOf S.Store left result }
{
    match left {
        Leftover::Connection(conn) => conn.into_store(),
        Leftover::Store(store) => store,
    }
}
