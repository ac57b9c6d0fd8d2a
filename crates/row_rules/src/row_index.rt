//! Rows that are found by a text or by a number of theirs, without a walk over all of them for each
//! that is sought.

ghost use Rattle.std.specs.Prelude.{◌≡◌, ℕ, ◌==◌, ◌<◌, length, reverse, map, find, if◌then◌else◌, Some, None, IfOk, OnOk};
ghost use Rattle.std.specs.List.{All};
ghost use Rattle.std.specs.Option.{option_or};
ghost use Rattle.std.specs.Ordering.{nat_cmp};
ghost use Rattle.std.specs.BTreeMap.{get};
ghost use Rattle.row_rules.specs.LookUps.{rows_placed, rows_given, row_given, GivesRows, GivesFirst};

use crate::having::Has;
use crate::same::Same;
use crate::sorted_rows::{SortedRows, sorted_rows};
use commands::{LotRow, OrderRow};
use std::alloc::{AllocError, Global};
use std::collections::BTreeMap;
use values::{Gtin, Lot, LotId, Name, TextKey};

/// Up to so many rows, or look-ups, a walk over the rows is as good as a map of them.
const FEW: usize = 32;

// By a text

/// A value that has a text, and which no other has where the texts differ.
pub trait HasText: Same {
    ghost use Rattle.std.specs.Prelude.{◌≡◌, ℕ, true, List, reverse};
    ghost use Rattle.values.specs.Values.{same_text};

    ghost text: { Self → List ℕ };

    fn key(&self) -> TextKey
        ensures { result ≡ reverse (text self.now) };

    ghost told: { (a b : Self) → Self.same a b ≡ true → same_text (text a) (text b) ≡ true };
}

impl HasText for Gtin {
    ghost text = { λ g. g };

    ghost told = { λ a b e. e };

    fn key(&self) -> TextKey {
        TextKey::of_gtin(self)
    }
}

impl HasText for Lot {
    ghost text = { λ l. l };

    ghost told = { λ a b e. e };

    fn key(&self) -> TextKey {
        TextKey::of_lot(self)
    }
}

impl HasText for Name {
    ghost text = { λ n. n };

    ghost told = { λ a b e. e };

    fn key(&self) -> TextKey {
        TextKey::of_name(self)
    }
}

// The lot's own number, which tells more of them apart than the item.
impl HasText for LotId {
    ghost use Rattle.values.specs.Values.{same_text};
    ghost use Rattle.machine.proofs.Tests.{and_both};

    ghost text = { λ l. l.lot };

    ghost told = { λ a b e. (and_both (same_text a.gtin b.gtin) (same_text a.lot b.lot) e).1 };

    fn key(&self) -> TextKey {
        self.lot.key()
    }
}

impl<A: HasText, B: Same> HasText for (A, B) {
    ghost use Rattle.machine.proofs.Tests.{and_both};

    ghost text = { λ p. A.text p.0 };

    ghost told = { λ a b e. A.told a.0 b.0 (and_both (A.same a.0 b.0) (B.same a.1 b.1) e).0 };

    fn key(&self) -> TextKey {
        self.0.key()
    }
}

/// Rows by the text of something that they have: in the order of their keys, or, where none are, the
/// others as they came.
#[derive(Drop)]
pub struct RowsByText<'a, T> {
    sorted: SortedRows<T>,
    others: &'a [T],
}

impl<'a, T> RowsByText<'a, T> {
    /// The rows among which those with the value are: all of them, in their order, and maybe others.
    pub fn candidates<K: HasText>(&self, value: &K) -> &[T]
        ensures { result.now ≡ rows_given self.now (K.text value.now) }
    {
        if self.sorted.is_empty() {
            return self.others;
        }
        self.sorted.rows_of(&value.key())
    }
}

/// The rows, to be found so many times by a value that they have.
pub fn by_text<'a, K: HasText, T: Has<K>>(
    alloc: Global,
    rows: &'a [T],
    times: usize,
) -> Result<RowsByText<'a, T>, AllocError>
    ensures { IfOk result (λ found. GivesRows (λ r. K.text (T.of_row r)) (rows_given found) rows.now) }
{
    if rows.len() <= FEW || times <= FEW {
        return Ok(RowsByText {
            sorted: SortedRows::new(alloc),
            others: rows,
        });
    }
    let mut places = places_by_text::<K, T>(alloc, rows)?;
    let sorted = sorted_rows(alloc, &mut places, rows)?;
    Ok(RowsByText {
        sorted,
        others: &rows[..0],
    })
}

// The places of the rows, each beside the key of its row's text.
fn places_by_text<K: HasText, T: Has<K>>(
    alloc: Global,
    rows: &[T],
) -> Result<Vec<(TextKey, usize)>, AllocError>
    ensures within { IfOk result (λ places. All (λ p. p.1 < length rows.now) places.items) }
    ensures rows { IfOk result (λ places. rows_placed rows.now places.items ≡ map (λ r. (reverse (K.text (T.of_row r)), r)) rows.now) }
{
    let mut places = Vec::with_capacity(alloc, rows.len())?;
    for row in rows {
        let place = places.len();
        places.push((row.value().key(), place))?;
    }
    Ok(places)
}

// By a number

/// A row that is found by a number.
pub trait Numbered: Copy {
    ghost use Rattle.std.specs.Prelude.{ℕ};

    ghost number: { Self → ℕ };

    fn number_of(&self) -> u64
        ensures { result ≡ number self.now };
}

/// The first row of each number. Where none stands with a number, the others may have one.
#[derive(Drop)]
pub struct RowsByNumber<'a, T> {
    firsts: BTreeMap<u64, T>,
    others: &'a [T],
}

impl<'a, T: Numbered> RowsByNumber<'a, T> {
    /// The first row of the number.
    pub fn row_of(&self, number: u64) -> Option<T>
        ensures { result ≡ row_given T.number self.now number }
    {
        match self.firsts.get(&number) {
            Some(row) => Some(*row),
            None => find_numbered(self.others, number),
        }
    }
}

fn find_numbered<T: Numbered>(rows: &[T], number: u64) -> Option<T>
    ensures { result ≡ find (λ r. number == T.number r) rows.now }
{
    for row in rows {
        if number == row.number_of() {
            return Some(*row);
        }
    }
    None
}

/// The rows, to be found by their numbers so many times.
pub fn by_number<'a, T: Numbered>(
    alloc: Global,
    rows: &'a [T],
    times: usize,
) -> Result<RowsByNumber<'a, T>, AllocError>
    ensures { IfOk result (λ found. GivesFirst T.number (row_given T.number found) rows.now) }
{
    if rows.len() <= FEW || times <= FEW {
        return Ok(RowsByNumber {
            firsts: BTreeMap::new(alloc),
            others: rows,
        });
    }
    let firsts = first_rows(alloc, rows)?;
    Ok(RowsByNumber {
        firsts,
        others: &rows[..0],
    })
}

fn first_rows<T: Numbered>(alloc: Global, rows: &[T]) -> Result<BTreeMap<u64, T>, AllocError>
    ensures { IfOk result (λ firsts. (n : ℕ) → get nat_cmp firsts n ≡ find (λ r. n == T.number r) rows.now) }
{
    let mut firsts = BTreeMap::new(alloc);
    for row in rows {
        add_first(&mut firsts, row)?;
    }
    Ok(firsts)
}

// The row, if it is the first of its number.
fn add_first<T: Numbered>(firsts: &mut BTreeMap<u64, T>, row: &T) -> Result<(), AllocError>
    ensures { OnOk result ((n : ℕ) → get nat_cmp firsts.new n ≡ option_or (get nat_cmp firsts.old n) (if n == T.number row.now then Some row.now else None)) }
{
    let number = row.number_of();
    if !firsts.contains_key(&number) {
        firsts.insert(number, *row)?;
    }
    Ok(())
}

// The numbers of rows

impl Numbered for OrderRow {
    ghost number = { λ r. r.act };

    fn number_of(&self) -> u64 {
        self.act
    }
}

impl Numbered for LotRow {
    ghost number = { λ r. r.came };

    fn number_of(&self) -> u64 {
        self.came
    }
}
