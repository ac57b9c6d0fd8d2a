//! Tables whose rows are mapped to columns.

use crate::running::run_with;
use crate::table::Table;
use sqlite::{Alter, Row, Transaction};
use std::alloc::Global;
use table_words::chain::Chain;
use table_words::error::TableFault;

/// A table whose rows are mapped to columns.
pub trait Mapped {
    ghost use Rattle.std.specs.Prelude.{◌≡◌};
    ghost use Rattle.table_words.specs.Stored.{Mapping};
    ghost use Rattle.keyed_rows.specs.Described.{Described, IsLawful};
    ghost use Rattle.keyed_rows.specs.Mapped.{IsMapped};

    type Row: Drop;

    /// What rows are told apart by.
    type Key;

    /// The columns of a row.
    type Parts: Chain;

    ghost mapping: { Mapping Self.Row Self.Parts };

    /// What the table is.
    ghost described: { Described Self.Row Self.Key };

    fn parts(row: &Self::Row) -> Self::Parts
        ensures { result ≡ mapping.parts row.now };

    fn of(parts: Self::Parts) -> Self::Row
        ensures { result ≡ mapping.of parts };

    /// The statement that adds a row.
    fn add_text() -> &'static str
        ensures { result.now ≡ described.add };

    ghost mapped: { IsMapped Self.Parts.columns Self.Parts.count mapping described };

    ghost mapped_laws: { IsLawful described };
}

impl<L: Mapped> Table for L {
    type Row = L::Row;

    type Key = L::Key;

    ghost table = { L.described };

    ghost fits = { λ s. L.Parts.columns.fits (L.mapping.parts s) };

    ghost laws = { L.mapped_laws };

    fn add_text() -> &'static str {
        <L as Mapped>::add_text()
    }

    fn fits(row: &L::Row) -> bool {
        L::parts(row).fit()
    }

    fn run<S: Alter>(
        tx: &mut Transaction<'_, S>,
        sql: &str,
        row: &L::Row,
    ) -> Result<usize, TableFault> {
        run_with(&L::parts(row), tx, sql)
    }

    fn read(_: Global, row: &Row) -> Result<L::Row, TableFault> {
        match L::Parts::read_at(row, 0) {
            Some(parts) => Ok(L::of(parts)),
            None => Err(TableFault::Foreign),
        }
    }
}
