//! Rows of units in places of one kind, and postings made in them.

ghost use Rattle.std.specs.Prelude.{◌≡◌, [], Some, IfOk, OnOk};
ghost use Rattle.std.specs.List.{cons_option, list_any};
ghost use Rattle.rules.specs.Shelf.{units_at as units_at_lem, with_key as with_key_lem, rows_with_units as rows_with_units_lem, taken as taken_lem, brought as brought_lem, rows_posted as rows_posted_lem, rows_put as rows_put_lem, row_gone as row_gone_lem, rows_gone as rows_gone_lem};
ghost use Rattle.rules.specs.Told.{place_of, listed, shelf_of, keys_of};

use crate::posting::{Place, Posting};
use commands::{StagedRow, StockRow};
use row_rules::having::{Has, HasUnits};
use row_rules::row_search::{find_row, rows_without};
use row_rules::same::Same;
use std::alloc::{AllocError, Global};
use values::{LotId, Name};

/// A row of units under a key, which is that of a lot in a place.
pub trait Held<K: Same>: Has<K> + HasUnits {
    ghost use Rattle.std.specs.Prelude.{ℕ, Option};
    ghost use Rattle.values.specs.declared.lot.LotId.{LotId as Lot};
    ghost use Rattle.machine.specs.Postings.{Place as Where};

    ghost row_of: { K → ℕ → Self };

    ghost key_at: { Where → Lot → Option K };

    fn row(key: &K, units: u64) -> Self
        ensures { result ≡ row_of key.now units };

    /// The key of a lot in a place, or none where it is of another kind.
    fn at(place: &Place, lot: &LotId) -> Option<K>
        ensures { result ≡ key_at (place_of place.now) lot.now };
}

impl Held<(LotId, Name)> for StockRow {
    ghost use Rattle.rules.specs.Shelf.{bin_at};

    ghost row_of = { λ k q. record { lot = k.0; bin = k.1; qty = q } };

    ghost key_at = { bin_at };

    fn row(key: &(LotId, Name), units: u64) -> StockRow {
        StockRow {
            lot: key.0,
            bin: key.1,
            qty: units,
        }
    }

    fn at(place: &Place, lot: &LotId) -> Option<(LotId, Name)> {
        match place {
            Place::InBin(bin) => Some((*lot, *bin)),
            _ => None,
        }
    }
}

impl Held<(Name, LotId)> for StagedRow {
    ghost use Rattle.rules.specs.Shelf.{stage_at};

    ghost row_of = { λ k q. record { order = k.0; lot = k.1; qty = q } };

    ghost key_at = { stage_at };

    fn row(key: &(Name, LotId), units: u64) -> StagedRow {
        StagedRow {
            order: key.0,
            lot: key.1,
            qty: units,
        }
    }

    fn at(place: &Place, lot: &LotId) -> Option<(Name, LotId)> {
        match place {
            Place::Stage(order) => Some((*order, *lot)),
            _ => None,
        }
    }
}

/// The units under a key.
pub fn units_at<K: Same, R: Held<K>>(rows: &[R], key: &K) -> u64
    ensures { result ≡ units_at_lem (shelf_of K.same R.of_row R.row_of R.units R.key_at) key.now rows.now }
{
    match find_row(rows, key) {
        None => 0,
        Some(row) => row.units(),
    }
}

/// The rows where so many units are under the key. A row of no units is not kept.
pub fn rows_with_units<K: Same, R: Held<K>>(
    alloc: Global,
    rows: &[R],
    key: &K,
    units: u64,
) -> Result<Vec<R>, AllocError>
    ensures { IfOk result (λ v. v.items ≡ rows_with_units_lem (shelf_of K.same R.of_row R.row_of R.units R.key_at) key.now units rows.now) }
{
    let mut after = Vec::new(alloc);
    if units != 0 {
        after.push(R::row(key, units))?;
    }
    let others = rows_without(alloc, rows, key)?;
    after.extend_from_slice(others.as_slice())?;
    Ok(after)
}

// The rows where so many more units are under the key.
fn with_more<K: Same, R: Held<K>>(
    alloc: Global,
    rows: &[R],
    key: &K,
    more: u64,
) -> Result<Vec<R>, AllocError>
    ensures { IfOk result (λ v. v.items ≡ brought_lem (shelf_of K.same R.of_row R.row_of R.units R.key_at) (Some key.now) more rows.now) }
{
    let there = units_at(rows, key).saturating_add(more);
    rows_with_units(alloc, rows, key, there)
}

// The rows after units are brought, if they come under a key.
fn brought<K: Same, R: Held<K>>(
    alloc: Global,
    rows: &[R],
    end: Option<K>,
    qty: u64,
) -> Result<Vec<R>, AllocError>
    ensures { IfOk result (λ v. v.items ≡ brought_lem (shelf_of K.same R.of_row R.row_of R.units R.key_at) end qty rows.now) }
{
    match end {
        None => copied(alloc, rows),
        Some(key) => with_more(alloc, rows, &key, qty),
    }
}

fn brought_too<K: Same, R: Held<K>>(
    alloc: Global,
    rows: Vec<R>,
    end: Option<K>,
    qty: u64,
) -> Result<Vec<R>, AllocError>
    ensures { IfOk result (λ v. v.items ≡ brought_lem (shelf_of K.same R.of_row R.row_of R.units R.key_at) end qty rows.items) }
{
    match end {
        None => Ok(rows),
        Some(key) => with_more(alloc, rows.as_slice(), &key, qty),
    }
}

fn copied<R: Copy>(alloc: Global, rows: &[R]) -> Result<Vec<R>, AllocError>
    ensures { IfOk result (λ v. v.items ≡ rows.now) }
{
    let mut own = Vec::new(alloc);
    own.extend_from_slice(rows)?;
    Ok(own)
}

// The rows after units go from under one key to another, where there are such keys.
fn posted_between<K: Same, R: Held<K>>(
    alloc: Global,
    rows: &[R],
    from: Option<K>,
    to: Option<K>,
    qty: u64,
) -> Result<Vec<R>, AllocError>
    ensures { IfOk result (λ v. v.items ≡ brought_lem (shelf_of K.same R.of_row R.row_of R.units R.key_at) to qty (taken_lem (shelf_of K.same R.of_row R.row_of R.units R.key_at) from qty rows.now)) }
{
    match from {
        None => brought(alloc, rows, to, qty),
        Some(key) => {
            let left = units_at(rows, &key).saturating_sub(qty);
            let less = rows_with_units(alloc, rows, &key, left)?;
            brought_too(alloc, less, to, qty)
        }
    }
}

/// The rows after a posting, if there is one.
pub fn rows_posted<K: Same, R: Held<K>>(
    alloc: Global,
    rows: &[R],
    posting: &Option<Posting>,
) -> Result<Vec<R>, AllocError>
    ensures { IfOk result (λ v. v.items ≡ rows_posted_lem (shelf_of K.same R.of_row R.row_of R.units R.key_at) (listed 0 posting.now) rows.now) }
{
    match posting {
        None => copied(alloc, rows),
        Some(p) => {
            let (from, to) = (R::at(&p.from, &p.lot), R::at(&p.to, &p.lot));
            posted_between(alloc, rows, from, to, p.qty)
        }
    }
}

// Whether the key is among these.
fn has_key<K: Same>(keys: &[K], key: &K) -> bool
    ensures { result ≡ list_any (K.same key.now) keys.now }
{
    for other in keys {
        if key.is_same(other) {
            return true;
        }
    }
    false
}

// One key more in front, unless it is among them.
fn with_key<K: Same, R: Held<K>>(keys: &mut Vec<K>, end: Option<K>) -> Result<(), AllocError>
    ensures { OnOk result (keys.new.items ≡ with_key_lem (shelf_of K.same R.of_row R.row_of R.units R.key_at) end keys.old.items) }
{
    match end {
        None => Ok(()),
        Some(key) => {
            if !has_key(keys.as_slice(), &key) {
                keys.insert(0, key)?;
            }
            Ok(())
        }
    }
}

/// The keys that a posting names, each once.
pub fn keys_posted<K: Same, R: Held<K>>(
    alloc: Global,
    posting: &Option<Posting>,
) -> Result<Vec<K>, AllocError>
    ensures { IfOk result (λ v. v.items ≡ keys_of (shelf_of K.same R.of_row R.row_of R.units R.key_at) posting.now) }
{
    let mut keys = Vec::new(alloc);
    match posting {
        None => Ok(keys),
        Some(p) => {
            with_key::<K, R>(&mut keys, R::at(&p.to, &p.lot))?;
            with_key::<K, R>(&mut keys, R::at(&p.from, &p.lot))?;
            Ok(keys)
        }
    }
}

/// The rows put under these keys, as they are after postings.
pub fn rows_put<K: Same, R: Held<K>>(
    alloc: Global,
    keys: &[K],
    after: &[R],
) -> Result<Vec<R>, AllocError>
    ensures { IfOk result (λ v. v.items ≡ rows_put_lem (shelf_of K.same R.of_row R.row_of R.units R.key_at) keys.now after.now) }
{
    let mut put = Vec::new(alloc);
    for key in keys {
        let units = units_at(after, key);
        if units != 0 {
            put.push(R::row(key, units))?;
        }
    }
    Ok(put)
}

// The row dropped under the key, if one is.
fn row_gone<K: Same, R: Held<K>>(key: &K, before: &[R], after: &[R]) -> Option<R>
    ensures { cons_option result [] ≡ row_gone_lem (shelf_of K.same R.of_row R.row_of R.units R.key_at) key.now before.now after.now }
{
    if units_at(after, key) == 0 {
        find_row(before, key)
    } else {
        None
    }
}

/// The rows dropped under these keys.
pub fn rows_gone<K: Same, R: Held<K>>(
    alloc: Global,
    keys: &[K],
    before: &[R],
    after: &[R],
) -> Result<Vec<R>, AllocError>
    ensures { IfOk result (λ v. v.items ≡ rows_gone_lem (shelf_of K.same R.of_row R.row_of R.units R.key_at) keys.now before.now after.now) }
{
    let mut gone = Vec::new(alloc);
    for key in keys {
        if let Some(row) = row_gone(key, before, after) {
            gone.push(row)?;
        }
    }
    Ok(gone)
}
