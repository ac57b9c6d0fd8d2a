//! The table `meta`.

ghost use Rattle.std.specs.Prelude.{◌≡◌, ◌≢◌, ◌<◌, ◌↔◌, ℕ, true, false, None, find, OnOk, OnErr, IfOk, IfErr};
ghost use Rattle.std.specs.List.{AllByRecursion};
ghost use Rattle.sqlite.specs.State.{HasCleanDisk, Survives, KeepsCommit, IsUnchanged};
ghost use Rattle.sqlite.specs.Held.{state};
ghost use Rattle.table_words.specs.Steps.{IsReady, Goes, ChangesNone, IsTooBig};
ghost use Rattle.table_words.specs.Typed.{tables_in, with_meta, is_meta, is_meta_at, has_meta, meta_read, meta_rows_rows, meta_at, AreTyped, AreTypedAt};
ghost use Rattle.table_words.specs.declared.error.TableFault.TheVariants.{Foreign};

use crate::goods_texts::{ADD_META, CHANGE_META, META_ROWS};
use commands::MetaRow;
use commands::limits::{ACTS_MAX, SCHEMA_VERSION};
use keyed_rows::running::count;
use keyed_rows::table::{Changing, Table, put};
use label::BusinessDay;
use sqlite::{Alter, Row, Transaction};
use std::alloc::Global;
use table_words::chain::Chain;
use table_words::column::{Column, Number};
use table_words::columns::{expect_mark, expect_number, of_mark, of_number};
use table_words::error::TableFault;
use table_words::reading::{Readable, query};

/// The newest schema number, which the books are kept under.
pub const NEWEST: u32 = SCHEMA_VERSION as u32;

/// The table.
pub struct Meta;

/// The columns that are no constants.
type Told = (BusinessDay, (Number<ACTS_MAX>, Number<ACTS_MAX>));

impl Table for Meta {
    ghost use Rattle.tables.specs.Meta.{meta, fits_meta, meta_laws};

    type Row = MetaRow;

    type Key = ();

    ghost table = { meta };

    ghost fits = { fits_meta };

    ghost laws = { meta_laws };

    fn add_text() -> &'static str {
        ADD_META
    }

    fn fits(row: &MetaRow) -> bool {
        row.acts <= ACTS_MAX && row.shipments <= ACTS_MAX
    }

    fn run<S: Alter>(
        tx: &mut Transaction<'_, S>,
        sql: &str,
        row: &MetaRow,
    ) -> Result<usize, TableFault> {
        let cells = [
            of_number(1),
            of_mark(),
            of_number(SCHEMA_VERSION),
            row.day.value(),
            of_number(row.acts),
            of_number(row.shipments),
        ];
        count(tx, sql, &cells)
    }

    fn read(_: Global, row: &Row) -> Result<MetaRow, TableFault> {
        row_at(NEWEST, row)
    }
}

/// What the row of all columns reads as in books of this schema number; `Foreign` where a column has a value that no row
/// of such books has.
fn row_at(version: u32, row: &Row) -> Result<MetaRow, TableFault>
    ensures ok { IfOk result (λ s. (has_meta version row.now ≡ true) × (meta_read row.now ≡ s)) }
    ensures foreign { IfErr result (λ e. e ≡ Foreign → has_meta version row.now ≡ false) }
{
    match (
        expect_number(row, 0, 1),
        expect_mark(row, 1),
        expect_number(row, 2, u64::from(version)),
        Told::read_at(row, 3),
    ) {
        (Ok(()), Ok(()), Ok(()), Some((day, (acts, shipments)))) => Ok(MetaRow {
            day,
            acts: acts.number,
            shipments: shipments.number,
        }),
        _ => Err(TableFault::Foreign),
    }
}

impl Changing for Meta {
    ghost use Rattle.tables.specs.Meta.{change_meta, change_meta_laws};

    ghost change = { change_meta };

    ghost change_laws = { change_meta_laws };

    fn change_text() -> &'static str {
        CHANGE_META
    }
}

/// Puts the row, in place of one with its key. A number above its limit is refused as too big.
pub fn put_meta<S: Alter>(tx: &mut Transaction<'_, S>, row: &MetaRow) -> Result<(), TableFault>
    ensures same_reference { tx.new.conn.ghost_name ≡ tx.old.conn.ghost_name }
    ensures done { HasCleanDisk (state S.Store tx.new.conn.now) → IsReady (state S.Store tx.old.conn.now).now
        → OnOk result (Goes (with_meta row.now) (state S.Store tx.old.conn.now) (state S.Store tx.new.conn.now)) }
    ensures refused { HasCleanDisk (state S.Store tx.new.conn.now) → IsReady (state S.Store tx.old.conn.now).now → OnErr result (ChangesNone (state S.Store tx.old.conn.now) (state S.Store tx.new.conn.now)) }
    ensures kept { HasCleanDisk (state S.Store tx.new.conn.now) → KeepsCommit (state S.Store tx.old.conn.now) (state S.Store tx.new.conn.now) }
    ensures survives { Survives (state S.Store tx.old.conn.now) (state S.Store tx.new.conn.now) (λ _. ⊥) }
    ensures never_foreign { IfErr result (λ e. e ≢ Foreign) }
    ensures size_acts { ACTS_MAX < row.now.acts → IsTooBig result tx.old.conn.now tx.new.conn.now }
    ensures size_shipments { ACTS_MAX < row.now.shipments → IsTooBig result tx.old.conn.now tx.new.conn.now }
{
    put::<Meta, S>(tx, row, false)
}

/// Puts the row in place of the one that books of an older schema have, which are then of the newest number; each stored row
/// keeps the rules of its values exactly where each did before. `Foreign` where they have none. A number above its limit is
/// refused as too big.
pub fn raise_meta<S: Alter>(tx: &mut Transaction<'_, S>, row: &MetaRow) -> Result<(), TableFault>
    ensures same_reference { tx.new.conn.ghost_name ≡ tx.old.conn.ghost_name }
    ensures done { HasCleanDisk (state S.Store tx.new.conn.now) → IsReady (state S.Store tx.old.conn.now).now
        → OnOk result (Goes (with_meta row.now) (state S.Store tx.old.conn.now) (state S.Store tx.new.conn.now)) }
    ensures typed { HasCleanDisk (state S.Store tx.new.conn.now) → IsReady (state S.Store tx.old.conn.now).now → (version : ℕ)
        → AllByRecursion (λ r. is_meta_at version r ≡ true) (meta_rows_rows 1 (state S.Store tx.old.conn.now).now.trees)
        → OnOk result (AreTypedAt version (state S.Store tx.old.conn.now).now.trees ↔ AreTyped (state S.Store tx.new.conn.now).now.trees) }
    ensures foreign { HasCleanDisk (state S.Store tx.new.conn.now) → IsReady (state S.Store tx.old.conn.now).now
        → IfErr result (λ e. e ≡ Foreign → (version : ℕ) → meta_at version (state S.Store tx.old.conn.now).now.trees ≡ None) }
    ensures kept { HasCleanDisk (state S.Store tx.new.conn.now) → KeepsCommit (state S.Store tx.old.conn.now) (state S.Store tx.new.conn.now) }
    ensures survives { Survives (state S.Store tx.old.conn.now) (state S.Store tx.new.conn.now) (λ _. ⊥) }
{
    if !Meta::fits(row) {
        return Err(TableFault::too_big());
    }
    match Meta::run(tx, CHANGE_META, row) {
        Ok(0) => Err(TableFault::Foreign),
        Ok(_) => Ok(()),
        Err(fault) => Err(fault),
    }
}

/// How the rows of the table are read in books of schema number `VERSION`.
struct MetaAt<const VERSION: u32>;

impl<const VERSION: u32> Readable for MetaAt<VERSION> {
    ghost use Rattle.table_words.specs.Typed.{has_meta, meta_read};

    type Record = MetaRow;

    ghost has = { has_meta VERSION };

    ghost reads = { meta_read };

    fn read(_: Global, row: &Row) -> Result<MetaRow, TableFault> {
        row_at(VERSION, row)
    }
}

/// The rows of `meta` in books of schema number `VERSION`, which is one at most, the oldest first; `Foreign` where one of
/// them has a value that no row of such books has, another number too.
pub fn meta_rows_at<const VERSION: u32, S: Alter>(
    alloc: Global,
    tx: &mut Transaction<'_, S>,
) -> Result<Vec<MetaRow>, TableFault>
    ensures same_reference { tx.new.conn.ghost_name ≡ tx.old.conn.ghost_name }
    ensures rows { HasCleanDisk (state S.Store tx.new.conn.now) → IsReady (state S.Store tx.old.conn.now).now
        → IfOk result (λ rows. find (λ r. true) rows.items ≡ meta_at VERSION (state S.Store tx.old.conn.now).now.trees) }
    ensures typed { HasCleanDisk (state S.Store tx.new.conn.now) → IsReady (state S.Store tx.old.conn.now).now
        → OnOk result (AllByRecursion (λ r. is_meta_at VERSION r ≡ true) (meta_rows_rows 1 (state S.Store tx.old.conn.now).now.trees)) }
    ensures foreign { HasCleanDisk (state S.Store tx.new.conn.now) → IsReady (state S.Store tx.old.conn.now).now
        → IfErr result (λ e. e ≡ Foreign → ¬ AllByRecursion (λ r. is_meta_at VERSION r ≡ true) (meta_rows_rows 1 (state S.Store tx.old.conn.now).now.trees)) }
    ensures same { HasCleanDisk (state S.Store tx.new.conn.now) → IsReady (state S.Store tx.old.conn.now).now → OnOk result (IsUnchanged (state S.Store tx.old.conn.now) (state S.Store tx.new.conn.now)) }
    ensures still { HasCleanDisk (state S.Store tx.new.conn.now) → IsReady (state S.Store tx.old.conn.now).now
        → IfErr result (λ e. e ≡ Foreign → IsUnchanged (state S.Store tx.old.conn.now) (state S.Store tx.new.conn.now)) }
    ensures refused { HasCleanDisk (state S.Store tx.new.conn.now) → IsReady (state S.Store tx.old.conn.now).now → OnErr result (ChangesNone (state S.Store tx.old.conn.now) (state S.Store tx.new.conn.now)) }
    ensures kept { HasCleanDisk (state S.Store tx.new.conn.now) → IsReady (state S.Store tx.old.conn.now).now → KeepsCommit (state S.Store tx.old.conn.now) (state S.Store tx.new.conn.now) }
    ensures survives { Survives (state S.Store tx.old.conn.now) (state S.Store tx.new.conn.now) (λ _. ⊥) }
{
    query::<MetaAt<VERSION>, S>(alloc, tx, META_ROWS, &[of_number(1)])
}

/// The rows of `meta`, which is one at most, the oldest first; `Foreign` where one of them has a value that no row has.
pub fn meta_rows<S: Alter>(
    alloc: Global,
    tx: &mut Transaction<'_, S>,
) -> Result<Vec<MetaRow>, TableFault>
    ensures same_reference { tx.new.conn.ghost_name ≡ tx.old.conn.ghost_name }
    ensures rows { HasCleanDisk (state S.Store tx.new.conn.now) → IsReady (state S.Store tx.old.conn.now).now
        → IfOk result (λ rows. find (λ r. true) rows.items ≡ (tables_in (state S.Store tx.old.conn.now).now.trees).meta) }
    ensures typed { HasCleanDisk (state S.Store tx.new.conn.now) → IsReady (state S.Store tx.old.conn.now).now
        → OnOk result (AllByRecursion (λ r. is_meta r ≡ true) (meta_rows_rows 1 (state S.Store tx.old.conn.now).now.trees)) }
    ensures foreign { HasCleanDisk (state S.Store tx.new.conn.now) → IsReady (state S.Store tx.old.conn.now).now
        → IfErr result (λ e. e ≡ Foreign → ¬ AllByRecursion (λ r. is_meta r ≡ true) (meta_rows_rows 1 (state S.Store tx.old.conn.now).now.trees)) }
    ensures same { HasCleanDisk (state S.Store tx.new.conn.now) → IsReady (state S.Store tx.old.conn.now).now → OnOk result (IsUnchanged (state S.Store tx.old.conn.now) (state S.Store tx.new.conn.now)) }
    ensures refused { HasCleanDisk (state S.Store tx.new.conn.now) → IsReady (state S.Store tx.old.conn.now).now → OnErr result (ChangesNone (state S.Store tx.old.conn.now) (state S.Store tx.new.conn.now)) }
    ensures kept { HasCleanDisk (state S.Store tx.new.conn.now) → IsReady (state S.Store tx.old.conn.now).now → KeepsCommit (state S.Store tx.old.conn.now) (state S.Store tx.new.conn.now) }
    ensures survives { Survives (state S.Store tx.old.conn.now) (state S.Store tx.new.conn.now) (λ _. ⊥) }
{
    meta_rows_at::<NEWEST, S>(alloc, tx)
}
