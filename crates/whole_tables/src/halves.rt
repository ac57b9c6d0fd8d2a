//! Tables that are read in two halves, each of which takes half the memory.

ghost use Rattle.std.specs.Prelude.{◌≡◌};
ghost use Rattle.sqlite.specs.Held.{state};
ghost use Rattle.whole_tables.specs.Halves.{FindsHalf, FindsStored};
ghost use Rattle.whole_tables.specs.Whole.{rows_of};

use crate::entire::Entire;
use keyed_rows::reading::query_rows;
use sqlite::{Alter, Transaction};
use std::alloc::Global;
use table_words::columns::of_signed;
use table_words::error::TableFault;

/// A half of the rows of a table, about a rowid.
#[derive(Clone, Copy)]
pub enum Half {
    /// Those up to it.
    Lower,
    /// Those above it.
    Upper,
}

/// A table that is read in two halves.
pub trait Halved: Entire {
    ghost use Rattle.std.specs.Prelude.{ℕ, List};
    ghost use Rattle.whole_tables.specs.declared.halves.Half.{Half as Part};
    ghost use Rattle.whole_tables.specs.Halves.{HalvesAre};

    /// The query of the rows of a half, the oldest first.
    ghost half: { Part → List ℕ };

    /// Its text.
    fn half_text(part: Half) -> &'static str
        ensures { result.now ≡ half part };

    ghost halves_laws: { HalvesAre Self.table half };
}

/// The rows of a half of the table about this rowid, the oldest first; `Foreign` where one of them has a value that no row
/// has.
pub fn half_rows<T: Halved, S: Alter>(
    alloc: Global,
    tx: &mut Transaction<'_, S>,
    part: Half,
    middle: &i64,
) -> Result<Vec<T::Row>, TableFault>
    ensures same_reference { tx.new.conn.ghost_name ≡ tx.old.conn.ghost_name }
    ensures finds { FindsHalf T.table part middle.now (state S.Store tx.old.conn.now) (state S.Store tx.new.conn.now) result }
{
    query_rows::<T, S>(alloc, tx, T::half_text(part), &[of_signed(middle)])
}

/// All rows of the table, the oldest first, read one half after the other about this rowid, which takes less memory than to
/// read them at once; `Foreign` where one of them has a value that no row has.
pub fn rows_by_halves<T: Halved, S: Alter>(
    alloc: Global,
    tx: &mut Transaction<'_, S>,
    middle: &i64,
) -> Result<Vec<T::Row>, TableFault>
    ensures same_reference { tx.new.conn.ghost_name ≡ tx.old.conn.ghost_name }
    ensures finds { FindsStored T.table (rows_of T.table) (state S.Store tx.old.conn.now) (state S.Store tx.new.conn.now) result }
{
    let mut rows = match half_rows::<T, S>(alloc, tx, Half::Lower, middle) {
        Ok(lower) => lower,
        Err(fault) => return Err(fault),
    };
    let mut upper = match half_rows::<T, S>(alloc, tx, Half::Upper, middle) {
        Ok(upper) => upper,
        Err(fault) => return Err(fault),
    };
    match rows.append(&mut upper) {
        Ok(()) => Ok(rows),
        Err(fault) => Err(TableFault::from(fault)),
    }
}
