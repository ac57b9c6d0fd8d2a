//! A connection whose tables are ready.

ghost use Rattle.std.specs.Prelude.{◌≡◌, ◌⊎◌, ◌≤◌, ℤ, false, None, IfOk, IfErr, OnOk, OnErr, IsErrAnd, IsTrue};
ghost use Rattle.sqlite.specs.State.{HasCleanDisk, Survives, IsUnchanged, IsRolledBack};
ghost use Rattle.sqlite.specs.Held.{state};
ghost use Rattle.sqlite.specs.Tree.{Trees};
ghost use Rattle.sqlite_trees.specs.View.{doubt};
ghost use Rattle.sqlite.specs.declared.error.ErrorCode.TheVariants.{OutOfMemory};
ghost use Rattle.sqlite.specs.declared.error.Error.TheVariants.{SqliteFailure};
ghost use Rattle.table_words.specs.declared.error.TableFault.TheVariants.{Foreign, Store};
ghost use Rattle.books_schema.specs.Causes.{IsOfFault, HasCause};
ghost use Rattle.books_schema.specs.Opening.{HasSchema, IsOfNone, IsReadyAs, HasDayIn, AreReadTyped, ComesTo, IsCome, IsLeftAs, TellTables, IsLeft, IsOpenAndSettled};
ghost use Rattle.books_schema.specs.declared.ready_connection.Found.{Found};

use crate::checking::has_tables;
use crate::migration::bring_up;
use crate::older::{OlderBooks, is_schema_of};
use crate::settling::settle;
use label::BusinessDay;
use sqlite::{Alter, Connection, Error, FileStore, MemStore};
use sqlite_disk::Disk;
use sqlite_schema::schema::Schema;
use std::alloc::Global;
use table_words::error::TableFault;

/// What is left of a connection that was not opened.
#[derive(Drop)]
pub enum Leftover<S: Alter> {
    /// The connection, as it was.
    Connection(Connection<S>),
    /// Its store, whose tables are as they were: memory failed, or the disk had shut it.
    Store(S),
}

/// Which books a schema is that of.
#[derive(Clone, Copy)]
pub enum Found {
    /// Books with the newest tables, whatever stands beside these: of the newest schema, or of schema 3, as the row of
    /// `meta` tells.
    Newest,
    /// Books that lack tables, with nothing of another's making beside those that they have.
    Older(OlderBooks),
}

/// Which books the schema is that of; `Foreign` where it is that of none.
fn judge(alloc: Global, schema: &Schema) -> Result<Found, TableFault>
    ensures found { IfOk result (λ found. HasSchema found schema.now) }
    ensures foreign { IfErr result (λ e. e ≡ Foreign → IsOfNone schema.now) }
    ensures other { IsOfNone schema.now → IsErrAnd result (λ e. (e ≡ Foreign) ⊎ (e ≡ Store (SqliteFailure OutOfMemory))) }
    ensures cause { IfErr result (λ e. (e ≡ Foreign) ⊎ (e ≡ Store (SqliteFailure OutOfMemory))) }
{
    if has_tables(alloc, schema)? {
        return Ok(Found::Newest);
    }
    if is_schema_of(alloc, schema, OlderBooks::First)? {
        return Ok(Found::Older(OlderBooks::First));
    }
    if is_schema_of(alloc, schema, OlderBooks::Second)? {
        return Ok(Found::Older(OlderBooks::Second));
    }
    Err(TableFault::Foreign)
}

/// A store of which it is known, whatever its transaction is in, that the trees of the last commit are listed and in order.
pub trait Orderly: Alter {
    ghost use Rattle.books_schema.specs.Orderly.{IsInOrder};

    ghost in_order: { (s : Self) → IsTrue (Self.Store.view s).is_open → IsInOrder (Self.Store.view s) };
}

impl<D: Disk> Orderly for FileStore<D> {
    ghost use Rattle.books_schema.specs.Orderly.{file_in_order};

    ghost in_order = { file_in_order _ };
}

impl Orderly for MemStore {
    ghost use Rattle.books_schema.specs.Orderly.{memory_in_order};

    ghost in_order = { λ s _. memory_in_order s };
}

// A statement that is made ready and never run. It has no parameters and no columns, so nothing is copied.
const NEVER_RUN: &str = "BEGIN";

/// Lifts the limit on steps, and finds the connection open, or fails: makes a statement ready.
fn find_open<S: Alter>(conn: &mut Connection<S>) -> Result<(), Error>
    ensures open { HasCleanDisk (state S.Store conn.new) → OnOk result (IsUnchanged (state S.Store conn.old) (state S.Store conn.new)) }
    ensures failed { HasCleanDisk (state S.Store conn.new) → OnErr result (IsUnchanged (state S.Store conn.old) (state S.Store conn.new) ⊎ IsRolledBack (state S.Store conn.old) (state S.Store conn.new)) }
    ensures outside { conn.old.in_transaction ≡ false → conn.new.in_transaction ≡ false }
    ensures limit { conn.new.step_limit ≡ None }
    ensures clean { doubt (state S.Store conn.old).is_clean ≤ doubt (state S.Store conn.new).is_clean }
    ensures shield { (state S.Store conn.old).IsShielded → (state S.Store conn.new).IsShielded }
    ensures crash { HasCleanDisk (state S.Store conn.new) → (db : Trees) → (state S.Store conn.new).may_leave db → (state S.Store conn.old).may_leave db }
    ensures cause { HasCleanDisk (state S.Store conn.new) → IsTrue (state S.Store conn.old).is_open → IfErr result (IsOfFault (state S.Store conn.old) (state S.Store conn.new)) }
{
    conn.set_step_limit(None);
    conn.prepare(NEVER_RUN)?;
    Ok(())
}

/// A connection over the tables, outside a transaction, found open, and which books they are. `Foreign` where the schema
/// is not one of books: the connection is then as it was, and so it is where there is no memory to compare the schema.
/// `Store` where memory fails, or the disk has shut the connection.
pub fn ready<S: Orderly + Drop>(
    alloc: Global,
    conn: Connection<S>,
) -> Result<(Connection<S>, Found), (Leftover<S>, TableFault)>
    requires outside { conn.in_transaction ≡ false }
    ensures ready { IfOk result (λ r. HasCleanDisk (state S.Store r.0) → IsReadyAs r.1 (state S.Store r.0).now) }
    ensures found { IfOk result (λ r. HasSchema r.1 (state S.Store conn).now.schema) }
    ensures opens { IfOk result (λ r. HasCleanDisk (state S.Store r.0) → IsOpenAndSettled (state S.Store r.0)) }
    ensures outside { IfOk result (λ r. r.0.in_transaction ≡ false) }
    ensures unlimited { IfOk result (λ r. r.0.step_limit ≡ None) }
    ensures same { IfOk result (λ r. HasCleanDisk (state S.Store r.0) → (state S.Store r.0).now.trees ≡ (state S.Store conn).committed.trees) }
    ensures crash { IfOk result (λ r. HasCleanDisk (state S.Store r.0) → (db : Trees) → (state S.Store r.0).may_leave db → db ≡ (state S.Store conn).committed.trees) }
    ensures clean { IfOk result (λ r. doubt (state S.Store conn).is_clean ≤ doubt (state S.Store r.0).is_clean) }
    ensures shield { IfOk result (λ r. (state S.Store conn).IsShielded → (state S.Store r.0).IsShielded) }
    ensures foreign { IfErr result (λ e. e.1 ≡ Foreign → IsOfNone (state S.Store conn).now.schema) }
    ensures other { IsOfNone (state S.Store conn).now.schema
        → IsErrAnd result (λ e. (e.0 ≡ Leftover.Connection conn) × ((e.1 ≡ Foreign) ⊎ (e.1 ≡ Store (SqliteFailure OutOfMemory)))) }
    ensures left { IfErr result (λ e. IsLeft S.Store conn e.0) }
    ensures cause { IfErr result (λ e. HasCause S.Store conn e.0 e.1) }
{
    // Outside a transaction the connection shows what is committed.
    let _outside = conn.is_autocommit();
    let found = match judge(alloc, conn.schema()) {
        Ok(found) => found,
        Err(fault) => return Err((Leftover::Connection(conn), fault)),
    };
    let mut conn = conn;
    match find_open(&mut conn) {
        Ok(()) => Ok((conn, found)),
        Err(error) => Err((Leftover::Store(conn.into_store()), TableFault::Store(error))),
    }
}

/// The business day that is stored, over books that were found: those with the newest tables get the newest number,
/// and others are brought up, in one transaction. `Foreign` where the row of `meta` is missing, has
/// another number or a value that no row has, or in books of schema 1 an item has one. After an error the tables are as
/// they were.
pub fn settle_found<S: Alter>(
    alloc: Global,
    conn: &mut Connection<S>,
    found: Found,
) -> Result<BusinessDay, TableFault>
    requires outside { conn.old.in_transaction ≡ false }
    ensures day { HasCleanDisk (state S.Store conn.new) → IsReadyAs found (state S.Store conn.old).now → IfOk result (HasDayIn found (state S.Store conn.old).now.trees) }
    ensures foreign { HasCleanDisk (state S.Store conn.new) → IsReadyAs found (state S.Store conn.old).now
        → IfErr result (λ e. e ≡ Foreign → (day : ℤ) → HasDayIn found (state S.Store conn.old).now.trees day → ¬ AreReadTyped found (state S.Store conn.old).now.trees) }
    ensures open { HasCleanDisk (state S.Store conn.new) → OnOk result (IsTrue (state S.Store conn.new).is_open) }
    ensures comes { HasCleanDisk (state S.Store conn.new) → IsReadyAs found (state S.Store conn.old).now → (state S.Store conn.old).now ≡ (state S.Store conn.old).committed
        → OnOk result (IsCome found (state S.Store conn.old).now.trees (state S.Store conn.new)) }
    ensures failed { HasCleanDisk (state S.Store conn.new) → IsReadyAs found (state S.Store conn.old).now → (state S.Store conn.old).now ≡ (state S.Store conn.old).committed
        → IsTrue (state S.Store conn.new).is_open → OnErr result (IsLeftAs found (state S.Store conn.old).now.trees (state S.Store conn.new)) }
    ensures survives { Survives (state S.Store conn.old) (state S.Store conn.new)
        (λ db. IsReadyAs found (state S.Store conn.old).now → ComesTo found (state S.Store conn.old).now.trees db × TellTables db) }
    ensures outside { conn.new.in_transaction ≡ false }
{
    match found {
        Found::Newest => settle(alloc, conn),
        Found::Older(older) => bring_up(alloc, conn, older),
    }
}
