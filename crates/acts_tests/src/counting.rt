//! A store that passes calls on, and counts the statements that ask for them.

ghost use Rattle.std.specs.Prelude.{◌≡◌};

use sqlite::Alter;
use sqlite_trees::error::StoreError;
use sqlite_trees::schema::Object;
use sqlite_trees::store::{Direction, Shape, Store};
use sqlite_value::row::Row;
use std::alloc::{AllocError, Global};
use std::cell::Cell;

/// How many statements a store has run.
#[derive(Drop)]
pub(crate) struct Counts {
    /// Those that read: each seeks a place in a tree, once. One that reads a row by its number seeks none.
    reads: Cell<u64>,
    /// Those that write: each is begun at a mark, to which it goes back where it is refused.
    writes: Cell<u64>,
}

impl Counts {
    /// None so far.
    pub(crate) fn new() -> Counts {
        Counts {
            reads: Cell::new(0),
            writes: Cell::new(0),
        }
    }

    /// How many read and how many write, since this was last asked.
    pub(crate) fn take(&self) -> (u64, u64) {
        (self.reads.replace(0), self.writes.replace(0))
    }
}

fn count(cell: &Cell<u64>) {
    cell.set(cell.get().saturating_add(1));
}

/// A store that counts statements.
#[derive(Drop)]
pub(crate) struct Counting<'a, S: Alter> {
    inner: S,
    counts: &'a Counts,
    /// A statement is being run that writes: what it seeks is no read.
    is_writing: bool,
}

impl<'a, S: Alter> Counting<'a, S> {
    /// The store, whose statements are counted here.
    pub(crate) fn new(inner: S, counts: &'a Counts) -> Counting<'a, S>
        ensures { result.inner ≡ inner }
    {
        Counting {
            inner,
            counts,
            is_writing: false,
        }
    }
}

impl<S: Alter> Store for Counting<'_, S> {
    ghost view = { λ c. S.Store.view c.inner };

    ghost faults = { λ c. S.Store.faults c.inner };

    ghost recovers = { λ c. S.Store.recovers c.inner };

    ghost is_shielded = { λ c. S.Store.is_shielded c.inner };

    ghost is_step = { λ old new. S.Store.is_step old.inner new.inner };

    ghost blamed = { λ c. S.Store.blamed c.inner };

    ghost names = { λ old new. S.Store.names old.inner new.inner };

    ghost ordered = { λ c. S.Store.ordered c.inner };

    ghost shut_if_dirty = { λ c. S.Store.shut_if_dirty c.inner };

    ghost empty_if_dirty = { λ c. S.Store.empty_if_dirty c.inner };

    ghost broken_if_shut = { λ c. S.Store.broken_if_shut c.inner };

    ghost settled = { λ c. S.Store.settled c.inner };

    ghost stays = { λ c. S.Store.stays c.inner };

    ghost survives = { λ c. S.Store.survives c.inner };

    ghost unaltered = { λ c. S.Store.unaltered c.inner };

    fn is_broken(&self) -> bool {
        self.inner.is_broken()
    }

    fn shape(&self, tree: u32) -> Shape {
        self.inner.shape(tree)
    }

    fn tree_count(&self) -> u64 {
        self.inner.tree_count()
    }

    fn reals(&self, tree: u32) -> u64 {
        self.inner.reals(tree)
    }

    fn seek(
        &mut self,
        cursor: u16,
        tree: u32,
        key: &Row,
        direction: Direction,
    ) -> Result<(), StoreError> {
        if !self.is_writing {
            count(&self.counts.reads);
        }
        self.inner.seek(cursor, tree, key, direction)
    }

    fn next(&mut self, cursor: u16, row: &mut Row) -> Result<bool, StoreError> {
        self.inner.next(cursor, row)
    }

    fn get(&mut self, table: u32, id: i64, row: &mut Row) -> Result<bool, StoreError> {
        self.inner.get(table, id, row)
    }

    fn put(&mut self, table: u32, row: &Row) -> Result<(), StoreError> {
        self.inner.put(table, row)
    }

    fn delete(&mut self, table: u32, id: i64) -> Result<(), StoreError> {
        self.inner.delete(table, id)
    }

    fn insert(&mut self, index: u32, entry: &Row) -> Result<(), StoreError> {
        self.inner.insert(index, entry)
    }

    fn remove(&mut self, index: u32, entry: &Row) -> Result<(), StoreError> {
        self.inner.remove(index, entry)
    }

    fn commit(&mut self) -> Result<(), StoreError> {
        self.inner.commit()
    }

    fn rollback(&mut self) {
        self.is_writing = false;
        self.inner.rollback();
    }

    fn savepoint(&mut self) -> Result<(), StoreError> {
        count(&self.counts.writes);
        self.is_writing = true;
        self.inner.savepoint()
    }

    fn release(&mut self) -> Result<(), StoreError> {
        self.is_writing = false;
        self.inner.release()
    }

    fn rollback_to(&mut self) -> Result<(), StoreError> {
        self.inner.rollback_to()
    }
}

impl<S: Alter> Alter for Counting<'_, S> {
    ghost listed = { λ c. S.Alter.listed c.inner };

    fn objects(&self, alloc: Global) -> Result<Vec<Row>, AllocError> {
        self.inner.objects(alloc)
    }

    fn create(&mut self, tree: u32, object: &Object<'_>) -> Result<(), StoreError> {
        self.inner.create(tree, object)
    }

    fn destroy(&mut self, tree: u32) -> Result<(), StoreError> {
        self.inner.destroy(tree)
    }

    fn relist(&mut self, changes: &[(u32, Object<'_>)]) -> Result<(), StoreError> {
        self.inner.relist(changes)
    }

    fn version(&self) -> u32 {
        self.inner.version()
    }

    fn set_version(&mut self, version: u32) -> Result<(), StoreError> {
        self.inner.set_version(version)
    }
}
