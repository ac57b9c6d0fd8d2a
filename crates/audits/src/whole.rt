//! An audit.

ghost use Rattle.std.specs.Prelude.{◌≡◌, ◌⊎◌, ℕ, ℤ, List, Some, None, Ok, false, IfOk, IfErr, IsErr, reverse};
ghost use Rattle.sqlite.specs.Held.{state};
ghost use Rattle.sqlite.specs.State.{HasCleanDisk, Survives};
ghost use Rattle.sqlite.specs.Tree.{Trees};
ghost use Rattle.table_words.specs.Steps.{IsReady};
ghost use Rattle.table_words.specs.Typed.{tables_in};
ghost use Rattle.machine.specs.Acts.{Act};
ghost use Rattle.machine.specs.Once.{IsHistory};
ghost use Rattle.slices.specs.Books.{IsBooksOf};
ghost use Rattle.store.specs.Opening.{IsCleanLeft, HasSchema, AreRowsAt};
ghost use Rattle.store.specs.declared.fault.Fault.TheVariants.{Store as StoreFault, Foreign as ForeignFault};
ghost use Rattle.tables.specs.Repeats.{repeats};
ghost use Rattle.books_schema.specs.Opening.{IsOfNone, IsReadyAs};
ghost use Rattle.books_schema.specs.declared.ready_connection.Found.{Found as FoundBooks};
ghost use Rattle.whole_tables.specs.Whole.{AreAll};
ghost use Rattle.replays.specs.Spelled.{AreRepeats};
ghost use Rattle.audits.specs.Raising.{IsBegunOver, CannotBeRaised};
ghost use Rattle.audits.specs.Auditing.{IsHeld, SaysIn, IsFound, IsFinding, AreSoundBooks, AreNotRaised, IsLeftAlone, told_unread};

use crate::comparing::compare_tables;
use crate::finding::{Finding, Unread};
use crate::first_day::{Begun, first_day};
use crate::newest_tables::raise;
use crate::reading::{middle_of, read_acts};
use crate::replayed::act_rows;
use books_schema::ready_connection::{Found, Leftover, Orderly, ready};
use commands::RepeatRow;
use empty_database::{Honest, open_in_memory};
use label::BusinessDay;
use replays::{NotReplayed, Progress, by_act, start_of};
use sqlite::{Alter, Connection, Transaction};
use std::alloc::Global;
use store::Fault;

/// What is found where tables were not read.
fn tell_unread(unread: Unread) -> Result<Finding, Fault>
    ensures told { result ≡ told_unread unread }
    ensures fault { IfErr result (λ e. e ≡ StoreFault) }
{
    match unread {
        Unread::Untyped(name) => Ok(Finding::Untyped(name)),
        Unread::Store => Err(Fault::Store),
    }
}

/// Compares the tables with those of books of so many acts.
fn hold_against<S: Alter, M: Honest + Drop>(
    alloc: Global,
    tx: &mut Transaction<'_, S>,
    replayed: Connection<M>,
    acts: usize,
    day: BusinessDay,
) -> Result<Finding, Fault>
    requires outside { replayed.in_transaction ≡ false }
    ensures same_reference { tx.new.conn.ghost_name ≡ tx.old.conn.ghost_name }
    ensures held { HasCleanDisk (state S.Store tx.new.conn.now) → IsReady (state S.Store tx.old.conn.now).now → (done : List Act) → IsBooksOf day done (state M.Store replayed).now
        → IfOk result (IsHeld day done acts (state S.Store tx.old.conn.now).now.trees) }
    ensures fault { IfErr result (λ e. e ≡ StoreFault) }
    ensures survives { Survives (state S.Store tx.old.conn.now) (state S.Store tx.new.conn.now) (λ _. ⊥) }
{
    let mut replayed = replayed;
    let mut other = replayed.transaction();
    // An act adds one row to most of the tables that grow.
    let middle = middle_of(acts as u64);
    let told = compare_tables(alloc, tx, &mut other, &middle);
    other.rollback();
    match told {
        Ok(None) => Ok(Finding::Sound {
            acts: acts as u64,
            day,
        }),
        Ok(Some(row)) => Ok(Finding::Differs(row)),
        Err(unread) => tell_unread(unread),
    }
}

/// The acts of the rows, the oldest first, done again in an empty database, and the tables compared with those of them.
fn do_again<S: Alter, M: Honest + Drop, P: Progress>(
    alloc: Global,
    tx: &mut Transaction<'_, S>,
    empty: Connection<M>,
    day: BusinessDay,
    mut rows: Vec<RepeatRow>,
    progress: &mut P,
) -> Result<Finding, Fault>
    requires { empty.in_transaction ≡ false }
    ensures same_reference { tx.new.conn.ghost_name ≡ tx.old.conn.ghost_name }
    ensures found { HasCleanDisk (state S.Store tx.new.conn.now) → IsReady (state S.Store tx.old.conn.now).now → AreRepeats (reverse rows.items) (tables_in (state S.Store tx.old.conn.now).now.trees)
        → IfOk result (SaysIn (state S.Store tx.old.conn.now).now.trees (Some day)) }
    ensures fault { IfErr result (λ e. e ≡ StoreFault) }
    ensures survives { Survives (state S.Store tx.old.conn.now) (state S.Store tx.new.conn.now) (λ _. ⊥) }
{
    let acts = rows.as_slice().len();
    rows.reverse();
    match act_rows(alloc, empty, day, rows, progress) {
        Ok(replayed) => hold_against(alloc, tx, replayed, acts, day),
        Err(NotReplayed::Unspelled { act }) => Ok(Finding::Unspelled { act }),
        Err(NotReplayed::Refused { act, why }) => Ok(Finding::Refused { act, why }),
        Err(NotReplayed::Store | NotReplayed::Foreign) => Err(Fault::Store),
    }
}

/// The audit from the day that the tables tell, by the rows of `repeats`, the oldest first.
fn audit_told<S: Alter, M: Honest + Drop, P: Progress>(
    alloc: Global,
    tx: &mut Transaction<'_, S>,
    empty: Connection<M>,
    rows: Vec<RepeatRow>,
    progress: &mut P,
) -> Result<Finding, Fault>
    requires { empty.in_transaction ≡ false }
    ensures same_reference { tx.new.conn.ghost_name ≡ tx.old.conn.ghost_name }
    ensures found { HasCleanDisk (state S.Store tx.new.conn.now) → IsReady (state S.Store tx.old.conn.now).now → AreRepeats (reverse rows.items) (tables_in (state S.Store tx.old.conn.now).now.trees)
        → IfOk result (SaysIn (state S.Store tx.old.conn.now).now.trees None) }
    ensures fault { IfErr result (λ e. e ≡ StoreFault) }
    ensures survives { Survives (state S.Store tx.old.conn.now) (state S.Store tx.new.conn.now) (λ _. ⊥) }
{
    let start = start_of(alloc, rows.as_slice())?;
    let middle = middle_of(rows.as_slice().len() as u64);
    match first_day(alloc, tx, start, &middle)? {
        Begun::On(day) => do_again(alloc, tx, empty, day, rows, progress),
        Begun::Missing(row) => Ok(Finding::Differs(row)),
        Begun::Untyped(name) => Ok(Finding::Untyped(name)),
    }
}

/// The audit by all rows of `repeats`.
fn audit_rows<S: Alter, M: Honest + Drop, P: Progress>(
    alloc: Global,
    tx: &mut Transaction<'_, S>,
    empty: Connection<M>,
    given: Option<BusinessDay>,
    mut rows: Vec<RepeatRow>,
    progress: &mut P,
) -> Result<Finding, Fault>
    requires { empty.in_transaction ≡ false }
    ensures same_reference { tx.new.conn.ghost_name ≡ tx.old.conn.ghost_name }
    ensures found { HasCleanDisk (state S.Store tx.new.conn.now) → IsReady (state S.Store tx.old.conn.now).now → AreAll repeats (tables_in (state S.Store tx.old.conn.now).now.trees) rows.items
        → IfOk result (SaysIn (state S.Store tx.old.conn.now).now.trees given) }
    ensures fault { IfErr result (λ e. e ≡ StoreFault) }
    ensures survives { Survives (state S.Store tx.old.conn.now) (state S.Store tx.new.conn.now) (λ _. ⊥) }
{
    if let Some(key) = by_act(&mut rows) {
        return Ok(Finding::Unnumbered(key));
    }
    match given {
        Some(day) => do_again(alloc, tx, empty, day, rows, progress),
        None => audit_told(alloc, tx, empty, rows, progress),
    }
}

/// The audit within a transaction.
fn audit_inside<S: Alter, M: Honest + Drop, P: Progress>(
    alloc: Global,
    tx: &mut Transaction<'_, S>,
    empty: Connection<M>,
    given: Option<BusinessDay>,
    progress: &mut P,
) -> Result<Finding, Fault>
    requires { empty.in_transaction ≡ false }
    ensures same_reference { tx.new.conn.ghost_name ≡ tx.old.conn.ghost_name }
    ensures found { HasCleanDisk (state S.Store tx.new.conn.now) → IsReady (state S.Store tx.old.conn.now).now
        → IfOk result (SaysIn (state S.Store tx.old.conn.now).now.trees given) }
    ensures fault { IfErr result (λ e. e ≡ StoreFault) }
    ensures survives { Survives (state S.Store tx.old.conn.now) (state S.Store tx.new.conn.now) (λ _. ⊥) }
{
    match read_acts(alloc, tx) {
        Ok(rows) => audit_rows(alloc, tx, empty, given, rows, progress),
        Err(unread) => tell_unread(unread),
    }
}

/// The audit within a transaction over these books, whose tables are made the newest first.
fn audit_raised<S: Alter, M: Honest + Drop, P: Progress>(
    alloc: Global,
    tx: &mut Transaction<'_, S>,
    empty: Connection<M>,
    found: Found,
    given: Option<BusinessDay>,
    progress: &mut P,
) -> Result<Finding, Fault>
    requires { empty.in_transaction ≡ false }
    ensures same_reference { tx.new.conn.ghost_name ≡ tx.old.conn.ghost_name }
    ensures found { HasCleanDisk (state S.Store tx.new.conn.now) → (base : Trees) → IsBegunOver found base (state S.Store tx.old.conn.now) → IfOk result (IsFound found given base) }
    ensures foreign { HasCleanDisk (state S.Store tx.new.conn.now) → (base : Trees) → IsBegunOver found base (state S.Store tx.old.conn.now) → IfErr result (λ e. e ≡ ForeignFault → CannotBeRaised found base) }
    ensures fault { IfErr result (λ e. (e ≡ ForeignFault) ⊎ (e ≡ StoreFault)) }
    ensures survives { Survives (state S.Store tx.old.conn.now) (state S.Store tx.new.conn.now) (λ _. ⊥) }
{
    match raise(alloc, tx, found) {
        Ok(()) => audit_inside(alloc, tx, empty, given, progress),
        Err(fault) => Err(Fault::from(fault)),
    }
}

/// The audit over a connection to these books, in a transaction of its own that is rolled back.
fn audit_open<S: Alter, M: Honest + Drop, P: Progress>(
    alloc: Global,
    conn: &mut Connection<S>,
    empty: Connection<M>,
    found: Found,
    given: Option<BusinessDay>,
    progress: &mut P,
) -> Result<Finding, Fault>
    requires outside { conn.old.in_transaction ≡ false }
    requires outside_too { empty.in_transaction ≡ false }
    ensures outside { conn.new.in_transaction ≡ false }
    ensures found { HasCleanDisk (state S.Store conn.new) → IsReadyAs found (state S.Store conn.old).now → IfOk result (IsFound found given (state S.Store conn.old).now.trees) }
    ensures foreign { HasCleanDisk (state S.Store conn.new) → IsReadyAs found (state S.Store conn.old).now → IfErr result (λ e. e ≡ ForeignFault → CannotBeRaised found (state S.Store conn.old).now.trees) }
    ensures fault { IfErr result (λ e. (e ≡ ForeignFault) ⊎ (e ≡ StoreFault)) }
    ensures survives { Survives (state S.Store conn.old) (state S.Store conn.new) (λ _. ⊥) }
{
    let mut tx = conn.transaction();
    let finding = audit_raised(alloc, &mut tx, empty, found, given, progress);
    tx.rollback();
    finding
}

/// The same, against books in memory.
// The one function over the type of their connection: each costs the proof as much as several others (docs/GATE.md).
fn audit_in_memory<S: Alter, P: Progress>(
    alloc: Global,
    conn: &mut Connection<S>,
    found: Found,
    given: Option<BusinessDay>,
    progress: &mut P,
) -> Result<Finding, Fault>
    requires outside { conn.old.in_transaction ≡ false }
    ensures outside { conn.new.in_transaction ≡ false }
    ensures found { HasCleanDisk (state S.Store conn.new) → IsReadyAs found (state S.Store conn.old).now → IfOk result (IsFound found given (state S.Store conn.old).now.trees) }
    ensures foreign { HasCleanDisk (state S.Store conn.new) → IsReadyAs found (state S.Store conn.old).now → IfErr result (λ e. e ≡ ForeignFault → CannotBeRaised found (state S.Store conn.old).now.trees) }
    ensures fault { IfErr result (λ e. (e ≡ ForeignFault) ⊎ (e ≡ StoreFault)) }
    ensures survives { Survives (state S.Store conn.old) (state S.Store conn.new) (λ _. ⊥) }
{
    match open_in_memory(alloc) {
        Ok(empty) => audit_open(alloc, conn, empty, found, given, progress),
        Err(_) => Err(Fault::Store),
    }
}

/// Holds the tables of the books over this connection against the acts that their `repeats` spells: does the acts again, the
/// oldest first, on books in memory, and compares every row of every table. They are begun on the given day, or where none
/// is given, on the one that the tables tell: the day of the books, where no act opens a day or receives; that of the line
/// of the first receipt in its lot's card, where no act opens a day before it; or else the day before the first that was
/// opened. Books of an older schema are compared as they would be brought up. `Sound` exactly where the tables are those of
/// the acts, and else the first difference, as far as memory and the disk suffice. Sound books are opened by `Books::open`
/// as those of these acts, and are never `Foreign` to it. No row is changed, and nothing is committed. `Foreign` where the
/// tables are not those of books, and where those of an older schema cannot be brought up: never on books of a history.
/// `Store` where memory or the disk fails.
pub fn audit<S: Orderly + Drop, P: Progress>(
    alloc: Global,
    conn: Connection<S>,
    given: Option<BusinessDay>,
    progress: &mut P,
) -> (Leftover<S>, Result<Finding, Fault>)
    requires outside { conn.in_transaction ≡ false }
    ensures found { IsCleanLeft S.Store result.0 → IfOk result.1 (IsFinding given (state S.Store conn)) }
    ensures sound { IsCleanLeft S.Store result.0 → (acts : ℕ) (day : ℤ) → result.1 ≡ Ok (Finding.Sound acts day) → AreSoundBooks (state S.Store conn) acts day }
    ensures foreign { IsCleanLeft S.Store result.0 → IfErr result.1 (λ e. e ≡ ForeignFault → IsOfNone (state S.Store conn).now.schema ⊎ AreNotRaised (state S.Store conn)) }
    ensures known { IsCleanLeft S.Store result.0 → (found : FoundBooks) → HasSchema found (state S.Store conn).now.schema → (first : ℤ) (acts : List Act) → IsHistory first acts
        → AreRowsAt found first acts (state S.Store conn).committed.trees → IfErr result.1 (λ e. e ≡ StoreFault) }
    ensures fault { IfErr result.1 (λ e. (e ≡ ForeignFault) ⊎ (e ≡ StoreFault)) }
    ensures left { IsLeftAlone S.Store conn result.0 }
    ensures other { IsOfNone (state S.Store conn).now.schema → IsErr result.1 }
{
    let (mut checked, found) = match ready(alloc, conn) {
        Ok(opened) => opened,
        Err((left, fault)) => return (left, Err(Fault::from(fault))),
    };
    let finding = audit_in_memory(alloc, &mut checked, found, given, progress);
    (Leftover::Connection(checked), finding)
}
