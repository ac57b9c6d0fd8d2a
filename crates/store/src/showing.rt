//! What is asked of the books, shown.

ghost use Rattle.std.specs.Prelude.{◌≡◌, false, ℤ, List, OnOk, Ok, Err};
ghost use Rattle.std.specs.Option.{option_copied};
ghost use Rattle.sqlite.specs.State.{HasCleanDisk, Survives, KeepsCommit};
ghost use Rattle.sqlite.specs.Held.{state};
ghost use Rattle.commands.specs.Tables.{Tables};
ghost use Rattle.commands.specs.declared.refusal.Refusal.{Refusal as Why};
ghost use Rattle.machine.specs.Acts.{Act};
ghost use Rattle.machine.specs.Once.{IsHistory};
ghost use Rattle.machine.specs.Standing.{today};
ghost use Rattle.machine.specs.Tables.{tables_of};
ghost use Rattle.slices.specs.Remembering.{KnowsRows};
ghost use Rattle.queries.specs.Asked.{IsKnownOf};
ghost use Rattle.store.specs.Books.{KeepsBooks, IsSettled};
ghost use Rattle.store.specs.Inside.{IsInside};
ghost use Rattle.store.specs.Knowing.{IsKnown};
ghost use Rattle.store.specs.Showing.{IsFoundAs, Looks, IsShownAs, IsShownOn};

use crate::Fault;
use crate::repeats::find_open;
use commands::Refusal;
use label::BusinessDay;
use queries::Query;
use slices::{Known, RowsKnown};
use sqlite::{Alter, Connection, Transaction};
use std::alloc::Global;
use std::mem;

/// Shows what is asked as it stands on the business day, or the refusal, and changes nothing of the tables. Rows that it
/// reads are known after, where anything is known of the books.
pub fn show<Q: Query, S: Alter>(
    alloc: Global,
    conn: &mut Connection<S>,
    day: BusinessDay,
    known: &mut Option<Known>,
    query: &Q,
) -> Result<Q::View, Fault>
    requires outside { conn.old.in_transaction ≡ false }
    requires known { IsKnown known.old (state S.Store conn.old) }
    ensures outside { conn.new.in_transaction ≡ false }
    ensures known { IsKnown known.new (state S.Store conn.new) }
    ensures shown { HasCleanDisk (state S.Store conn.new) → (first : ℤ) (acts : List Act) → IsHistory first acts → KeepsBooks first acts (state S.Store conn.old)
        → today first acts ≡ day → IsShownOn first acts (Q.shown first acts query.now) result (state S.Store conn.new) }
    ensures stays { HasCleanDisk (state S.Store conn.new) → IsSettled (state S.Store conn.old) → KeepsCommit (state S.Store conn.old) (state S.Store conn.new) × IsSettled (state S.Store conn.new) }
    ensures survives { Survives (state S.Store conn.old) (state S.Store conn.new) (λ _. ⊥) }
{
    let mut rows = take_rows(alloc, known);
    let mut tx = conn.transaction();
    let found = find_found(alloc, &mut tx, known.as_ref(), &mut rows, query);
    tx.rollback();
    put_back(known, rows, &found);
    view_of(alloc, day, query, found)
}

// The rows that are known, taken out; none, where nothing is known.
fn take_rows(alloc: Global, known: &mut Option<Known>) -> RowsKnown
    ensures { (t : Tables) → IsKnownOf known.old t → IsKnownOf known.new t × KnowsRows t result }
{
    match known {
        Some(known) => mem::replace(&mut known.rows, RowsKnown::new(alloc)),
        None => RowsKnown::for_one_query(alloc),
    }
}

// The rows are known again, unless a read failed.
fn put_back<X>(known: &mut Option<Known>, rows: RowsKnown, found: &Result<X, Fault>)
    ensures { (t : Tables) → IsKnownOf known.old t → OnOk found.now (KnowsRows t rows) → IsKnownOf known.new t }
{
    match found {
        Ok(_) => know_rows(known, rows),
        Err(_) => drop(rows),
    }
}

// Other rows are known, where anything is.
fn know_rows(known: &mut Option<Known>, rows: RowsKnown)
    ensures { (t : Tables) → IsKnownOf known.old t → KnowsRows t rows → IsKnownOf known.new t }
{
    match known {
        Some(known) => known.rows = rows,
        None => drop(rows),
    }
}

// The rows by which it is shown, or the refusal.
fn find_found<Q: Query, S: Alter>(
    alloc: Global,
    tx: &mut Transaction<'_, S>,
    known: Option<&Known>,
    rows: &mut RowsKnown,
    query: &Q,
) -> Result<Result<Q::Found, Refusal>, Fault>
    ensures same_reference { tx.new.conn.ghost_name ≡ tx.old.conn.ghost_name }
    ensures looks { IsInside (Looks (λ t found. Q.is_in query.now t found) (option_copied known.entry) rows.old rows.new result) (state S.Store tx.old.conn.now) (state S.Store tx.new.conn.now) }
{
    find_open(tx)?;
    match query.read(alloc, tx, known, rows) {
        Ok(found) => Ok(found),
        Err(fault) => Err(Fault::from(fault)),
    }
}

// The view, where the rows were read. A refusal is no want of memory.
fn view_of<Q: Query>(
    alloc: Global,
    day: BusinessDay,
    query: &Q,
    found: Result<Result<Q::Found, Refusal>, Fault>,
) -> Result<Q::View, Fault>
    ensures shown { (first : ℤ) (acts : List Act) → IsHistory first acts → today first acts ≡ day → IsFoundAs (λ x. Q.is_in query.now (tables_of first acts) x) found → IsShownAs (Q.shown first acts query.now) result }
    ensures refused { (why : Why) → found ≡ Ok (Err why) → result ≡ Err (Fault.Refused why) }
{
    match found {
        Err(fault) => Err(fault),
        Ok(Err(why)) => Err(Fault::Refused(why)),
        Ok(Ok(found)) => Ok(query.view(alloc, day, found)?),
    }
}
