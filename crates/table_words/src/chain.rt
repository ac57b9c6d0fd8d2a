//! Columns, one after another: one alone, or the first and the others.

ghost use Rattle.std.specs.Prelude.{◌≡◌, ◌≤◌, true, take};
ghost use Rattle.sqlite.specs.Values.{bound};
ghost use Rattle.table_words.specs.declared.chain.TheConstants.{COLUMNS_MAX};

use crate::column::{Column, read_column};
use sqlite::Row;
use sqlite::types::ValueRef;
use values::{Gtin, Lot, LotId};

/// The most columns of a row.
pub const COLUMNS_MAX: usize = 8;

/// Types that are stored in columns, one after another.
pub trait Chain: Copy {
    ghost use Rattle.std.specs.Prelude.{◌≡◌, ◌↔◌, ◌≤◌, ◌+◌, ℕ, true, false, None, IsTrue, IfSome};
    ghost use Rattle.sqlite_value.specs.Value.{owned};
    ghost use Rattle.sqlite_value.specs.Order.{column};
    ghost use Rattle.table_words.specs.Stored.{Columns, AreColumns};
    ghost use Rattle.table_words.specs.declared.chain.TheConstants.{COLUMNS_MAX};

    /// How they are stored.
    ghost columns: { Columns Self };

    /// How many they are.
    ghost count: { ℕ };

    fn count() -> usize
        requires { count ≤ COLUMNS_MAX }
        ensures { result ≡ count };

    /// Whether each is within its limit.
    fn fit(&self) -> bool
        ensures { result ≡ columns.fits self.now };

    /// The value of the column at this place, from 0 on, and NULL past the end.
    fn value_at(&self, at: usize) -> ValueRef<'_>
        requires { columns.fits self.now ≡ true }
        ensures { owned result ≡ column (columns.cells self.now) at };

    /// Nothing: what is stored reads as one.
    fn is_stored(&self)
        requires { columns.fits self.now ≡ true }
        ensures { columns.has 0 (columns.cells self.now) ≡ true };

    /// What the columns of the row read as, from this one on, or `None` where one has a value that it cannot have.
    fn read_at(row: &Row, at: usize) -> Option<Self>
        requires { at + count ≤ COLUMNS_MAX }
        ensures some { IfSome result (λ x. (columns.has at row.now ≡ true) × (columns.reads at row.now ≡ x)) }
        ensures none { result ≡ None → columns.has at row.now ≡ false };

    fn are_same(&self, other: &Self) -> bool
        ensures { IsTrue result ↔ (self.now ≡ other.now) };

    ghost chain_laws: { AreColumns columns count };
}

/// The values of the columns, and behind them NULL.
pub fn values<C: Chain>(columns: &C) -> [ValueRef<'_>; COLUMNS_MAX]
    requires fit { C.columns.fits columns.now ≡ true }
    requires few { C.count ≤ COLUMNS_MAX }
    ensures { bound (take C.count result) ≡ C.columns.cells columns.now }
{
    [
        columns.value_at(0),
        columns.value_at(1),
        columns.value_at(2),
        columns.value_at(3),
        columns.value_at(4),
        columns.value_at(5),
        columns.value_at(6),
        columns.value_at(7),
    ]
}

impl<A: Column> Chain for A {
    ghost use Rattle.table_words.specs.Stored.{one, one_column};

    ghost columns = { one A.stored };

    ghost count = { 1 };

    ghost chain_laws = { one_column A.stored A.stored_laws };

    fn count() -> usize {
        1
    }

    fn fit(&self) -> bool {
        self.fits()
    }

    fn value_at(&self, at: usize) -> ValueRef<'_> {
        if at == 0 {
            return self.value();
        }
        ValueRef::Null
    }

    fn is_stored(&self) {
        let _ = self.value();
    }

    fn read_at(row: &Row, at: usize) -> Option<A> {
        read_column(row, at)
    }

    fn are_same(&self, other: &A) -> bool {
        self.is_same(other)
    }
}

impl<A: Column, R: Chain> Chain for (A, R) {
    ghost use Rattle.std.specs.Prelude.{◌+◌};
    ghost use Rattle.table_words.specs.Stored.{pair, more_columns};

    ghost columns = { pair A.stored R.columns };

    ghost count = { R.count + 1 };

    ghost chain_laws = { more_columns A.stored A.stored_laws R.columns R.count R.chain_laws };

    fn count() -> usize {
        R::count() + 1
    }

    fn fit(&self) -> bool {
        self.0.fits() && self.1.fit()
    }

    fn value_at(&self, at: usize) -> ValueRef<'_> {
        if at == 0 {
            return self.0.value();
        }
        self.1.value_at(at - 1)
    }

    fn is_stored(&self) {
        let _ = self.0.value();
        self.1.is_stored();
    }

    fn read_at(row: &Row, at: usize) -> Option<(A, R)> {
        let first = read_column(row, at)?;
        let others = R::read_at(row, at + 1)?;
        Some((first, others))
    }

    fn are_same(&self, other: &(A, R)) -> bool {
        self.0.is_same(&other.0) && self.1.are_same(&other.1)
    }
}

impl Chain for LotId {
    ghost use Rattle.table_words.specs.Stored.{lot_columns, are_lot_columns};

    ghost columns = { lot_columns };

    ghost count = { 2 };

    ghost chain_laws = { are_lot_columns };

    fn count() -> usize {
        2
    }

    fn fit(&self) -> bool {
        true
    }

    fn value_at(&self, at: usize) -> ValueRef<'_> {
        match at {
            0 => self.gtin.value(),
            1 => self.lot.value(),
            _ => ValueRef::Null,
        }
    }

    fn is_stored(&self) {
        let _ = self.gtin.value();
        let _ = self.lot.value();
    }

    fn read_at(row: &Row, at: usize) -> Option<LotId> {
        match <(Gtin, Lot)>::read_at(row, at) {
            Some((gtin, lot)) => Some(LotId { gtin, lot }),
            None => None,
        }
    }

    fn are_same(&self, other: &LotId) -> bool {
        *self == *other
    }
}
