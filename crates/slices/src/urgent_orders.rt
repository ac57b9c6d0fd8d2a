//! Which of the orders of a slice are urgent.

ghost use Rattle.std.specs.Prelude.{◌≡◌, IfOk};
ghost use Rattle.sqlite.specs.Held.{state};
ghost use Rattle.slices.specs.Reading.{IsRead};
ghost use Rattle.slices.specs.Remembering.{Learning};
ghost use Rattle.slices.specs.Slicing.{names_at, AreUrgentsFor};

use crate::known_lists::seek_urgents;
use crate::rows_known::RowsKnown;
use commands::{OrderRow, UrgentRow};
use rows_in_memory::OpenLines;
use rows_in_memory::urgent_rows::names_among;
use sqlite::{Alter, Transaction};
use std::alloc::{AllocError, Global};
use table_words::error::TableFault;
use values::{Gtin, Name};

/// The orders that may be urgent and have a line of one of the items.
fn names_with(alloc: Global, known: &OpenLines, gtins: &[Gtin]) -> Result<Vec<Name>, AllocError>
    ensures { IfOk result (λ names. names.items ≡ names_at known.now gtins.now) }
{
    let mut names = Vec::new(alloc);
    for gtin in gtins {
        names.extend_from_slice(known.orders_of(gtin))?;
    }
    Ok(names)
}

/// The rows of the urgent ones among these orders, as far as they may be urgent and have a line of one of the items.
pub fn read_urgents<S: Alter>(
    alloc: Global,
    tx: &mut Transaction<'_, S>,
    known: &OpenLines,
    rows: &mut RowsKnown,
    gtins: &[Gtin],
    orders: &[OrderRow],
) -> Result<Vec<UrgentRow>, TableFault>
    ensures same_reference { tx.new.conn.ghost_name ≡ tx.old.conn.ghost_name }
    ensures read { IsRead (Learning rows.old rows.new (λ t found. AreUrgentsFor known.now gtins.now orders.now t found.items)) (state S.Store tx.old.conn.now) (state S.Store tx.new.conn.now) result }
{
    let may_be = names_with(alloc, known, gtins)?;
    let names = names_among(alloc, may_be.as_slice(), orders)?;
    seek_urgents(alloc, tx, rows, names.as_slice())
}
