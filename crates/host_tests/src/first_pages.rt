//! The first page of new books is laid in files of the host that stop after each number of calls, and of which a stop leaves
//! what was synced.

use crate::host_lines::{first_page, making};
use books_file::{LockFiles, is_ready};
use std::alloc::Allocator;
use std::cell::Cell;
use std::fs::{self, File, Files, Metadata, OpenFile, OpenOptions, Permissions};
use std::io::{self, ErrorKind, Read, Seek, SeekFrom, Write};
use std::process::Abort;

const FOLDER: &str = "new_pages";

const DB: &str = "new_pages/stock.db";

/// What is known of the files.
#[derive(Drop)]
struct Seen {
    /// How many calls more change something.
    calls: Cell<u32>,
    /// What was written last was synced.
    is_synced: Cell<bool>,
}

impl Seen {
    // One call more, where there is one.
    fn call(&self) -> io::Result<()> {
        match self.calls.get().checked_sub(1) {
            Some(left) => {
                self.calls.set(left);
                Ok(())
            }
            None => Err(io::Error::from(ErrorKind::Other)),
        }
    }
}

/// The files of the host, until they stop.
#[derive(Clone, Copy)]
struct Stopping<'a> {
    host: &'a HostRuntime,
    seen: &'a Seen,
}

/// An open one.
#[derive(Drop)]
struct StoppingFile<'a> {
    file: File,
    seen: &'a Seen,
}

impl Read for StoppingFile<'_> {
    fn read(&mut self, buf: &mut [u8]) -> io::Result<usize> {
        self.file.read(buf)
    }
}

impl Write for StoppingFile<'_> {
    fn write(&mut self, bytes: &[u8]) -> io::Result<usize> {
        self.seen.call()?;
        self.seen.is_synced.set(false);
        self.file.write(bytes)
    }

    fn flush(&mut self) -> io::Result<()> {
        self.file.flush()
    }
}

impl Seek for StoppingFile<'_> {
    fn seek(&mut self, to: SeekFrom) -> io::Result<u64> {
        self.file.seek(to)
    }
}

impl OpenFile for StoppingFile<'_> {
    fn metadata(&self) -> io::Result<Metadata> {
        self.file.metadata()
    }

    fn set_len(&self, size: u64) -> io::Result<()> {
        self.seen.call()?;
        self.file.set_len(size)
    }

    fn sync_all(&self) -> io::Result<()> {
        self.seen.call()?;
        self.seen.is_synced.set(true);
        self.file.sync_all()
    }

    fn sync_data(&self) -> io::Result<()> {
        self.sync_all()
    }

    fn set_permissions(&self, permissions: Permissions) -> io::Result<()> {
        self.seen.call()?;
        self.file.set_permissions(permissions)
    }
}

impl<'a> Files for Stopping<'a> {
    type File = StoppingFile<'a>;

    type Dir = <HostRuntime as Files>::Dir;

    fn open_file(&self, how: &OpenOptions, path: &str) -> io::Result<StoppingFile<'a>> {
        self.seen.call()?;
        let file = self.host.open_file(how, path)?;
        Ok(StoppingFile {
            file,
            seen: self.seen,
        })
    }

    fn open_dir(&self, path: &str) -> io::Result<<HostRuntime as Files>::Dir> {
        self.host.open_dir(path)
    }

    fn metadata(&self, path: &str) -> io::Result<Metadata> {
        self.host.metadata(path)
    }

    fn symlink_metadata(&self, path: &str) -> io::Result<Metadata> {
        self.host.symlink_metadata(path)
    }

    fn copy(&self, from: &str, to: &str) -> io::Result<u64> {
        self.seen.call()?;
        self.host.copy(from, to)
    }

    // A stop may leave the new name, and nothing of what was not synced.
    fn rename(&self, from: &str, to: &str) -> io::Result<()> {
        self.seen.call()?;
        if !self.seen.is_synced.get() {
            fs::write(self.host, from, b"")?;
        }
        self.host.rename(from, to)
    }

    fn remove_file(&self, path: &str) -> io::Result<()> {
        self.seen.call()?;
        self.host.remove_file(path)
    }

    fn create_dir(&self, path: &str) -> io::Result<()> {
        self.seen.call()?;
        self.host.create_dir(path)
    }

    fn remove_dir(&self, path: &str) -> io::Result<()> {
        self.seen.call()?;
        self.host.remove_dir(path)
    }

    fn remove_dir_all<B: Allocator>(&self, alloc: B, path: &str) -> io::Result<()> {
        self.seen.call()?;
        self.host.remove_dir_all(alloc, path)
    }
}

impl LockFiles for Stopping<'_> {
    fn try_lock(&self, file: &StoppingFile<'_>) -> io::Result<()> {
        self.host.try_lock(&file.file)
    }
}

// Whether the page is laid by so many calls: the path then has it whole, and else what it had.
fn is_laid(host: &HostRuntime, rt: &impl Abort, was: Option<&[u8]>, calls: u32) -> bool {
    let _ = fs::remove_dir_all(host, FOLDER);
    fs::create_dir(host, FOLDER).expect(rt, "a folder");
    if let Some(held) = was {
        fs::write(host, DB, held).expect(rt, "a file");
    }
    let seen = Seen {
        calls: Cell::new(calls),
        is_synced: Cell::new(true),
    };
    let files = Stopping { host, seen: &seen };
    let is_laid = is_ready(&files, host.alloc(), DB, &making(rt));
    let page = first_page();
    let expected = if is_laid { Some(page.as_slice()) } else { was };
    match fs::read(host, DB) {
        Ok(found) => assert!(rt; expected == Some(found.as_slice()), "after {calls} calls"),
        Err(_) => assert!(rt; expected.is_none(), "after {calls} calls"),
    }
    fs::remove_dir_all(host, FOLDER).expect(rt, "a folder");
    is_laid
}

// Five calls lay it: a file is opened, cut, written, synced and renamed. Where an empty file is at the path, its permissions are
// taken over by a sixth.
#[test]
fn stops_before_each_call(rt: HostRuntime) {
    for calls in 0..9 {
        assert!(rt; is_laid(&rt, &rt, None, calls) == (5 <= calls));
        assert!(rt; is_laid(&rt, &rt, Some(b"".as_slice()), calls) == (6 <= calls));
    }
}

const LOCKED: &str = "locked_pages";

const LOCKED_DB: &str = "locked_pages/stock.db";

// Whether the path is ready for books.
fn is_made(host: &HostRuntime, rt: &impl Abort) -> bool {
    is_ready(host, host.alloc(), LOCKED_DB, &making(rt))
}

// While another process lays a page none is laid; then it is. Books that came meanwhile stay, and no file is left beside them.
#[test]
fn one_of_two_lays_it(rt: HostRuntime) {
    let _ = fs::remove_dir_all(&rt, LOCKED);
    fs::create_dir(&rt, LOCKED).expect(&rt, "a folder");
    let other = File::create(&rt, "locked_pages/stock.db-new").expect(&rt, "a file");
    assert!(rt; rt.try_lock(&other).is_ok());
    assert!(rt; !is_made(&rt, &rt));
    assert!(rt; !fs::exists(&rt, LOCKED_DB).expect(&rt, "a folder"));
    drop(other);
    assert!(rt; is_made(&rt, &rt));
    fs::write(&rt, LOCKED_DB, b"books").expect(&rt, "a file");
    assert!(rt; is_made(&rt, &rt));
    let held = fs::read(&rt, LOCKED_DB).expect(&rt, "a file");
    assert!(rt; held.as_slice() == b"books".as_slice());
    assert!(rt; !fs::exists(&rt, "locked_pages/stock.db-new").expect(&rt, "a folder"));
    drop(held);
    fs::remove_dir_all(&rt, LOCKED).expect(&rt, "a folder");
}
