//! A list of rows with one row more or fewer.

ghost use Rattle.std.specs.Prelude.{◌≡◌, ◌+◌, ◌<◌, ◌^◌, ◌++◌, true, false, [], ◌∷◌, IfOk, OnOk, is_err};
ghost use Rattle.std.specs.Option.{option_map, unwrap_or};
ghost use Rattle.rows_in_memory.specs.KnownRows.{list_weight, placed, without_row};

use crate::keyed::KeyedRow;
use std::alloc::{AllocError, Global};

/// Without the row that has the key of this one.
pub fn drop_from<R: KeyedRow>(rows: &mut Vec<R>, row: &R)
    ensures { rows.new.items ≡ without_row R.same_row row.now rows.old.items }
{
    rows.retain(|other| !other.is_same(row));
}

// With the row behind the others. A first one takes no more room than its own, since most lists stay lists of one.
fn push_into<R: Copy>(rows: &mut Vec<R>, row: &R) -> Result<(), AllocError>
    ensures { OnOk result (rows.new.items ≡ rows.old.items ++ row.now ∷ []) }
{
    if rows.is_empty() {
        rows.reserve_exact(1)?;
    }
    rows.push(*row)?;
    Ok(())
}

/// With the row in place of the one that has its key. Where the row is new there is none, and the list is not walked.
pub fn put_in<R: KeyedRow>(rows: &mut Vec<R>, row: &R, is_new: bool) -> Result<(), AllocError>
    ensures { OnOk result (rows.new.items ≡ placed R.same_row is_new row.now rows.old.items) }
{
    if !is_new {
        drop_from::<R>(rows, row);
    }
    push_into::<R>(rows, row)
}

/// The row alone.
pub fn one_row<R: Copy>(alloc: Global, row: &R) -> Result<Vec<R>, AllocError>
    ensures { IfOk result (λ rows. rows.items ≡ row.now ∷ []) }
{
    let mut rows = Vec::with_capacity(alloc, 1)?;
    rows.push(*row)?;
    Ok(rows)
}

/// What a list weighs: 1, and each of its rows 1 more.
pub fn weight_of<R>(rows: &Vec<R>) -> u64
    ensures { result ≡ list_weight rows.now }
{
    rows.len() as u64 + 1
}

/// What a list weighs, if there is one.
pub fn weight_if<R>(rows: &Option<Vec<R>>) -> u64
    ensures { result ≡ unwrap_or (option_map list_weight rows.now) 0 }
{
    match rows {
        Some(rows) => weight_of(rows),
        None => 0,
    }
}

/// Whether a list was made, and what it weighs with others is no more than a number can be.
pub fn can_weigh(made: &Result<(), AllocError>, others: u64, more: u64) -> bool
    ensures { result ≡ true → (is_err made.now ≡ false) × (others + more < 2 ^ 64) }
{
    made.is_ok() && others.checked_add(more).is_some()
}
