//! The first row that two lists have otherwise.

ghost use Rattle.std.specs.Prelude.{◌≡◌, ◌↔◌, None, IfSome, IsPermutation, IsTrue};
ghost use Rattle.std.specs.List.Sorted.{IsSortedBy};
ghost use Rattle.std.specs.Ordering.{is_lt};
ghost use Rattle.whole_tables.specs.Same.{AreOnce, FindAlike, IsFirstOther, ArePartedAt, lesser};

use crate::entire::Entire;
use crate::key::RowKey;
use std::cmp::Ordering;

/// The first row by key that one of the two lists has otherwise than the other, or has alone; `None` where they are the
/// same table. Each key stands in a list once at most. It sorts them.
pub fn first_difference<T: Entire>(mine: &mut [T::Row], theirs: &mut [T::Row]) -> Option<RowKey>
    ensures none { AreOnce T.table.same T.table.key mine.old → AreOnce T.table.same T.table.key theirs.old → result ≡ None → FindAlike T.table.same T.table.key mine.old theirs.old }
    ensures some { AreOnce T.table.same T.table.key mine.old → AreOnce T.table.same T.table.key theirs.old
        → IfSome result (λ row. (k : T.Key) × (row ≡ T.named k) × IsFirstOther T.table.same T.table.key T.order mine.old theirs.old k) }
{
    sort::<T>(mine);
    sort::<T>(theirs);
    first_apart::<T>(mine, theirs)
}

/// Whether two lists have the same rows in the same order.
pub fn are_same<T: Entire>(mine: &[T::Row], theirs: &[T::Row]) -> bool
    ensures { IsTrue result ↔ (mine.now ≡ theirs.now) }
{
    first_apart::<T>(mine, theirs).is_none()
}

fn sort<T: Entire>(rows: &mut [T::Row])
    ensures permutation { IsPermutation rows.old rows.new }
    ensures sorted { IsSortedBy (λ a b. is_lt (T.order (T.table.key a) (T.table.key b))) rows.new }
{
    rows.sort_unstable_by(|a, b| T::by_key(a, b));
}

/// The row with the lesser key where the lists begin to differ.
fn first_apart<T: Entire>(xs: &[T::Row], ys: &[T::Row]) -> Option<RowKey>
    ensures none { result ≡ None → xs.now ≡ ys.now }
    ensures some { IfSome result (λ row. (k : T.Key) × (row ≡ T.named k) × ArePartedAt T.table.key T.order xs.now ys.now k) }
{
    let both = if xs.len() < ys.len() {
        xs.len()
    } else {
        ys.len()
    };
    for i in 0..both {
        if !T::same_row(&xs[i], &ys[i]) {
            return Some(lesser_of::<T>(&xs[i], &ys[i]));
        }
    }
    if both < xs.len() {
        return Some(T::row_key(&xs[both]));
    }
    if both < ys.len() {
        return Some(T::row_key(&ys[both]));
    }
    None
}

/// The one of two rows whose key is the lesser.
fn lesser_of<T: Entire>(a: &T::Row, b: &T::Row) -> RowKey
    ensures { result ≡ T.named (lesser T.order (T.table.key a.now) (T.table.key b.now)) }
{
    match T::by_key(a, b) {
        Ordering::Greater => T::row_key(b),
        _ => T::row_key(a),
    }
}
