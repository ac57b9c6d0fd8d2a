//! Rows that are found by what they have, without a walk over all of them for each that is sought.

ghost use Rattle.std.specs.Prelude.{◌≡◌, filter, find, if◌then◌else◌, IfOk};
ghost use Rattle.std.specs.List.{list_any};
ghost use Rattle.commands.specs.Lists.{total};
ghost use Rattle.row_rules.specs.Seen.{capped};

use crate::having::{Has, HasUnits};
use crate::row_index::{HasText, RowsByText, by_text};
use crate::row_search::{find_row, has_row, units_with};
use std::alloc::{AllocError, Global};
use std::marker::{Model, PhantomData};

/// Rows to be found by a key that they have. In contracts it is the list of the rows.
#[derive(Drop)]
pub struct RowsByKey<'a, K: HasText, T: Has<K>> {
    rows: &'a [T],
    found: RowsByText<'a, T>,
    key: PhantomData<K>,
}

impl<'a, K: HasText, T: Has<K>> Model for RowsByKey<'a, K, T> {
    ghost use Rattle.std.specs.Prelude.{List};
    ghost use Rattle.row_rules.specs.LookUps.{rows_given, GivesRows};

    ghost Value = { List T };

    ghost view = { λ m. m.rows.now };

    ghost invariant = { λ m. GivesRows (λ r. K.text (T.of_row r)) (rows_given m.found) m.rows.now };
}

/// The rows, to be found so many times by a key that they have.
pub fn by_key<'a, K: HasText, T: Has<K>>(
    alloc: Global,
    rows: &'a [T],
    times: usize,
) -> Result<RowsByKey<'a, K, T>, AllocError>
    ensures { IfOk result (λ found. found ≡ rows.now) }
{
    let found = by_text::<K, T>(alloc, rows, times)?;
    Ok(RowsByKey {
        rows,
        found,
        key: PhantomData,
    })
}

impl<'a, K: HasText, T: Has<K>> RowsByKey<'a, K, T> {
    /// All rows.
    pub fn all(&self) -> &'a [T]
        ensures { result.now ≡ self.now }
    {
        self.rows
    }

    /// The rows among which those with the key are: all of them, in their order, and maybe others.
    pub fn candidates(&self, key: &K) -> &[T]
        ensures { filter (λ r. K.same key.now (T.of_row r)) result.now ≡ filter (λ r. K.same key.now (T.of_row r)) self.now }
    {
        self.found.candidates(key)
    }

    /// The first row with the key.
    pub fn find(&self, key: &K) -> Option<T>
        ensures { result ≡ find (λ r. K.same key.now (T.of_row r)) self.now }
    {
        find_row(self.candidates(key), key)
    }

    /// Whether one of the rows has the key.
    pub fn has(&self, key: &K) -> bool
        ensures { result ≡ list_any (λ r. K.same key.now (T.of_row r)) self.now }
    {
        has_row(self.candidates(key), key)
    }

    /// The units of the rows that have the key, held at the greatest `u64`.
    pub fn units(&self, key: &K) -> u64
    where
        T: HasUnits,
        ensures { result ≡ capped (total (λ r. if K.same key.now (T.of_row r) then T.units r else 0) self.now) }
    {
        units_with(self.candidates(key), key)
    }
}
