//! A database in memory, over a file and a log that are kept there.

ghost use Rattle.std.specs.Prelude.{◌≡◌, false, IfOk};

use crate::first_page::first_page;
use crate::memory_file::MemoryFile;
use sqlite::{Alter, Connection, FileStore, Files, Options};
use std::alloc::{AllocError, Global};

/// A store that reads what was written: no disk of its own could return anything else.
pub trait Honest: Alter {
    ghost use Rattle.sqlite_trees.specs.View.{IsClean};

    ghost always_clean: { (s : Self) → IsClean (Self.Store.view s) };
}

impl Honest for FileStore<MemoryFile> {
    ghost use Rattle.std.specs.Prelude.{refl};
    ghost use Rattle.empty_database.specs.Clean.{store_is_clean};

    ghost always_clean = { store_is_clean _ (λ _. refl) };
}

/// An empty database in memory; `AllocError` where none can be opened, whatever the cause. Its salts are made from no
/// random number: nobody else sees its log.
pub fn open_in_memory(alloc: Global) -> Result<Connection<FileStore<MemoryFile>>, AllocError>
    ensures { IfOk result (λ conn. conn.in_transaction ≡ false) }
{
    let files = Files {
        log: MemoryFile::new(alloc),
        db: MemoryFile::of(alloc, &first_page())?,
    };
    match Connection::open_files(alloc, files, Options::new(0)) {
        Ok(conn) => Ok(conn),
        Err(_) => Err(AllocError),
    }
}
