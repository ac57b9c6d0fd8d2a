//! Rows by what they have: found, kept, left out, and their units summed.

ghost use Rattle.std.specs.Prelude.{◌≡◌, find, filter, map, not, if◌then◌else◌, IfOk};
ghost use Rattle.std.specs.List.{list_any};
ghost use Rattle.commands.specs.Lists.{total};
ghost use Rattle.row_rules.specs.Seen.{capped};

use crate::having::{Has, HasUnits};
use crate::list_parts::push_if;
use crate::loops::{Test, failing, passing};
use crate::same::Same;
use std::alloc::{AllocError, Global};

/// The first row that has the value.
pub fn find_row<K: Same, R: Has<K>>(rows: &[R], value: &K) -> Option<R>
    ensures { result ≡ find (λ r. K.same value.now (R.of_row r)) rows.now }
{
    for row in rows {
        if value.is_same(&row.value()) {
            return Some(*row);
        }
    }
    None
}

/// Whether one of the rows has the value.
pub fn has_row<K: Same, R: Has<K>>(rows: &[R], value: &K) -> bool
    ensures { result ≡ list_any (λ r. K.same value.now (R.of_row r)) rows.now }
{
    for row in rows {
        if value.is_same(&row.value()) {
            return true;
        }
    }
    false
}

/// The rows that have the value.
pub fn rows_with<K: Same, R: Has<K>>(
    alloc: Global,
    rows: &[R],
    value: &K,
) -> Result<Vec<R>, AllocError>
    ensures { IfOk result (λ v. v.items ≡ filter (λ r. K.same value.now (R.of_row r)) rows.now) }
{
    passing(alloc, rows, &HasValue { value })
}

/// The rows that do not have the value.
pub fn rows_without<K: Same, R: Has<K>>(
    alloc: Global,
    rows: &[R],
    value: &K,
) -> Result<Vec<R>, AllocError>
    ensures { IfOk result (λ v. v.items ≡ filter (λ r. not (K.same value.now (R.of_row r))) rows.now) }
{
    failing(alloc, rows, &HasValue { value })
}

// That a row has the value.
#[derive(Clone, Copy)]
struct HasValue<'a, K> {
    value: &'a K,
}

impl<K: Same, R: Has<K>> Test<R> for HasValue<'_, K> {
    ghost test = { λ t r. K.same t.value.now (R.of_row r) };

    fn passes(&self, row: &R) -> bool {
        self.value.is_same(&row.value())
    }
}

/// The rows that do not have what one of the others has.
pub fn rows_not_among<K: Same, R: Has<K>, O: Has<K>>(
    alloc: Global,
    rows: &[R],
    others: &[O],
) -> Result<Vec<R>, AllocError>
    ensures { IfOk result (λ v. v.items ≡ filter (λ r. not (list_any (λ o. K.same (R.of_row r) (O.of_row o)) others.now)) rows.now) }
{
    let mut left = Vec::new(alloc);
    for row in rows {
        let there = has_row(others, &row.value());
        push_if(&mut left, !there, *row)?;
    }
    Ok(left)
}

/// The units of the rows that have the value. The sum is held at the greatest `u64`, since a slice is
/// not trusted.
pub fn units_with<K: Same, R: Has<K> + HasUnits>(rows: &[R], value: &K) -> u64
    ensures { result ≡ capped (total (λ r. if K.same value.now (R.of_row r) then R.units r else 0) rows.now) }
{
    let mut sum = 0_u64;
    for row in rows {
        if value.is_same(&row.value()) {
            sum = sum.saturating_add(row.units());
        }
    }
    sum
}

/// What the rows have, row after row.
pub fn values_of<K: Copy, R: Has<K>>(alloc: Global, rows: &[R]) -> Result<Vec<K>, AllocError>
    ensures { IfOk result (λ v. v.items ≡ map R.of_row rows.now) }
{
    let mut values = Vec::new(alloc);
    for row in rows {
        values.push(row.value())?;
    }
    Ok(values)
}
