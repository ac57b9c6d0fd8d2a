//! What is known of the books beside their tables: read where it has not been yet, and after a change.

ghost use Rattle.std.specs.Prelude.{◌≡◌, None, IfSome, OnOk, OnErr, IfOk, IfErr};
ghost use Rattle.sqlite.specs.Held.{state};
ghost use Rattle.commands.specs.Tables.{Tables};
ghost use Rattle.slices.specs.Following.{Follows};
ghost use Rattle.slices.specs.Reading.{IsRead};
ghost use Rattle.slices.specs.Slicing.{HoldsOf, HoldsBeside};
ghost use Rattle.queries.specs.Asked.{IsKnownOf};
ghost use Rattle.store.specs.Knowing.{HasLeft};

use crate::{Fault, Reply};
use rules::Change;
use slices::{Known, RowsKnown};
use sqlite::{Alter, Transaction};
use std::alloc::Global;
use table_words::error::TableFault;

/// What is known of the books, taken out; where nothing is yet, it is read from the tables.
pub fn known_in<S: Alter>(
    alloc: Global,
    tx: &mut Transaction<'_, S>,
    known: &mut Option<Known>,
) -> Result<Known, TableFault>
    ensures same_reference { tx.new.conn.ghost_name ≡ tx.old.conn.ghost_name }
    ensures read { IsRead (λ t found. IsKnownOf known.old t → HoldsOf found t) (state S.Store tx.old.conn.now) (state S.Store tx.new.conn.now) result }
    ensures taken { known.new ≡ None }
{
    match known.take() {
        Some(found) => Ok(found),
        None => Known::read(alloc, tx),
    }
}

/// Once a change has been written, what follows what is written has its rows.
pub fn follow(known: &mut Known, change: &Change, written: &Result<(), TableFault>)
    ensures same { known.new ≡ record known.old { rows = record known.old.rows { followed = known.new.rows.followed } } }
    ensures follows { IfOk written.now (λ _. Follows change.now known.old.rows.followed known.new.rows.followed) }
    ensures unwritten { IfErr written.now (λ _. known.new ≡ known.old) }
{
    match written {
        Ok(_) => known.rows.followed.follow(change),
        Err(_) => {}
    }
}

// No row is known any more.
fn forget_rows(alloc: Global, known: &mut Known)
    ensures { (t : Tables) → HoldsBeside known.old t → HoldsOf known.new t }
{
    known.rows = RowsKnown::new(alloc);
}

/// Where a change was written and is not committed, no row is known any more.
pub fn forget_undone(
    alloc: Global,
    known: &mut Option<Known>,
    acted: bool,
    reply: &Result<Reply, Fault>,
)
    ensures committed { OnOk reply.now (known.new ≡ known.old) }
    ensures undone { OnErr reply.now ((t : Tables) → HasLeft acted known.old t → IfSome known.new (λ k. HoldsOf k t)) }
{
    if acted && reply.is_err() {
        if let Some(found) = known {
            forget_rows(alloc, found);
        }
    }
}
