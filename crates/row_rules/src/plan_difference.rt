//! Rows of a plan that another plan does not have.

ghost use Rattle.std.specs.Prelude.{◌≡◌, ◌||◌, true, is_some, IfOk, OnOk};
ghost use Rattle.std.specs.List.{list_any};
ghost use Rattle.std.specs.BTreeSet.{contains};
ghost use Rattle.plan.specs.declared.Row.{Row as RowType};
ghost use Rattle.row_rules.specs.Replanning.{same_row, rows_apart as rows_apart_lem};
ghost use Rattle.row_rules.specs.Apart.{row_key, row_cmp, HasRows};

use crate::list_parts::push_if;
use crate::loops::{Test, failing};
use plan::Row;
use std::alloc::{AllocError, Global};
use std::collections::BTreeSet;

/// Up to so many rows a walk over the others is as good as a set of them.
const FEW: usize = 32;

/// So many of the others are looked at where a row may stand.
const NEAR: usize = 8;

/// The rows that are not among the others, in their order.
///
/// Two plans of an item mostly have the same rows in the same order, so most rows are met as both are
/// walked along. Only the rest is looked for.
pub fn rows_apart(alloc: Global, others: &[Row], rows: &[Row]) -> Result<Vec<Row>, AllocError>
    ensures { IfOk result (λ v. v.items ≡ rows_apart_lem others.now rows.now) }
{
    let left = rows_not_met(alloc, others, rows)?;
    rows_not_found(alloc, others, left.as_slice())
}

fn rows_not_found(alloc: Global, others: &[Row], rows: &[Row]) -> Result<Vec<Row>, AllocError>
    ensures { IfOk result (λ v. v.items ≡ rows_apart_lem others.now rows.now) }
{
    if rows.len() <= FEW {
        return failing(alloc, rows, &IsAmong { others });
    }
    let known = row_set(alloc, others)?;
    failing(alloc, rows, &IsIn { known })
}

// That a row is among these.
#[derive(Clone, Copy)]
struct IsAmong<'a> {
    others: &'a [Row],
}

impl Test<Row> for IsAmong<'_> {
    ghost use Rattle.std.specs.List.{list_any};
    ghost use Rattle.row_rules.specs.Replanning.{same_row};

    ghost test = { λ t r. list_any (same_row r) t.others.now };

    fn passes(&self, row: &Row) -> bool {
        place_of(self.others, row).is_some()
    }
}

// That a row is in the set.
#[derive(Drop)]
struct IsIn {
    known: BTreeSet<(u64, u64, u64)>,
}

impl Test<Row> for IsIn {
    ghost use Rattle.std.specs.BTreeSet.{contains};
    ghost use Rattle.row_rules.specs.Apart.{row_key, row_cmp};

    ghost test = { λ t r. contains row_cmp t.known (row_key r) };

    fn passes(&self, row: &Row) -> bool {
        self.known.contains(&key_of(row))
    }
}

// The rows without those that are met as both are walked along.
fn rows_not_met(alloc: Global, others: &[Row], rows: &[Row]) -> Result<Vec<Row>, AllocError>
    ensures { IfOk result (λ v. rows_apart_lem others.now v.items ≡ rows_apart_lem others.now rows.now) }
{
    let mut left = Vec::new(alloc);
    let mut place = 0;
    for row in rows {
        let met = meets(others, &mut place, row);
        push_if(&mut left, !met, *row)?;
    }
    Ok(left)
}

// Whether the row is one of the next few of the others, which then go on behind it.
fn meets(others: &[Row], place: &mut usize, row: &Row) -> bool
    ensures { result ≡ true → list_any (same_row row.now) others.now ≡ true }
{
    let from = (*place).min(others.len());
    let to = from.saturating_add(NEAR).min(others.len());
    match place_of(&others[from..to], row) {
        None => false,
        Some(found) => {
            *place = from.saturating_add(found).saturating_add(1);
            true
        }
    }
}

// Where the row stands.
fn place_of(others: &[Row], row: &Row) -> Option<usize>
    ensures { is_some result ≡ list_any (same_row row.now) others.now }
{
    for (index, other) in others.iter().enumerate() {
        if is_same_row(row, other) {
            return Some(index);
        }
    }
    None
}

fn is_same_row(a: &Row, b: &Row) -> bool
    ensures { result ≡ same_row a.now b.now }
{
    a.booking == b.booking && a.lot == b.lot && a.qty == b.qty
}

fn key_of(row: &Row) -> (u64, u64, u64)
    ensures { result ≡ row_key row.now }
{
    (row.booking, row.lot, row.qty)
}

// The rows as a set.
fn row_set(alloc: Global, rows: &[Row]) -> Result<BTreeSet<(u64, u64, u64)>, AllocError>
    ensures { IfOk result (λ set. HasRows set rows.now) }
{
    let mut set = BTreeSet::new(alloc);
    for row in rows {
        insert_row(&mut set, row)?;
    }
    Ok(set)
}

// One row more.
fn insert_row(set: &mut BTreeSet<(u64, u64, u64)>, row: &Row) -> Result<(), AllocError>
    ensures { OnOk result ((r : RowType) → contains row_cmp set.new (row_key r) ≡ contains row_cmp set.old (row_key r) || same_row r row.now) }
{
    set.insert(key_of(row))?;
    Ok(())
}
