//! Rows put into lists of rows: where they are wanted or found, and in front.

ghost use Rattle.std.specs.Prelude.{◌≡◌, ◌==◌, ◌++◌, [], ◌∷◌, if◌then◌else◌, OnOk, IfOk};
ghost use Rattle.std.specs.List.{cons_option};

use std::alloc::{AllocError, Global};

/// One more row, if it is wanted.
pub fn push_if<T: Copy>(rows: &mut Vec<T>, wanted: bool, row: T) -> Result<(), AllocError>
    ensures { OnOk result (rows.new.items ≡ rows.old.items ++ (if wanted then row ∷ [] else [])) }
{
    if wanted {
        rows.push(row)?;
    }
    Ok(())
}

/// One more row, if there is one.
pub fn push_found<T: Copy>(rows: &mut Vec<T>, row: Option<T>) -> Result<(), AllocError>
    ensures { OnOk result (rows.new.items ≡ rows.old.items ++ cons_option row []) }
{
    if let Some(r) = row {
        rows.push(r)?;
    }
    Ok(())
}

/// The row that is dropped where so many units are left of it: a row of no units is not kept.
pub fn row_gone<T: Copy>(alloc: Global, row: Option<T>, left: u64) -> Result<Vec<T>, AllocError>
    ensures { IfOk result (λ v. v.items ≡ if left == 0 then cons_option row [] else []) }
{
    let mut gone = Vec::new(alloc);
    if left == 0 {
        push_found(&mut gone, row)?;
    }
    Ok(gone)
}

/// A row in front of others.
pub fn in_front<T: Copy>(alloc: Global, row: T, rows: &[T]) -> Result<Vec<T>, AllocError>
    ensures { IfOk result (λ v. v.items ≡ row ∷ rows.now) }
{
    let mut all = Vec::new(alloc);
    all.push(row)?;
    all.extend_from_slice(rows)?;
    Ok(all)
}
