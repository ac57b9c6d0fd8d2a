//! The tables of orders, read whole and compared.

use crate::columns::same_columns;
use crate::entire::Entire;
use crate::halves::{Half, Halved};
use crate::key::{RowKey, TableName};
use crate::ordered::Ordered;
use crate::texts::{
    ALL_LINES, ALL_ORDERS, ALL_RESERVED, LOWER_LINES, LOWER_RESERVED, UPPER_LINES, UPPER_RESERVED,
};
use commands::{LineRow, OrderRow, ReservedRow, StagedRow, UrgentRow};
use keyed_rows::reading::{All, Sought};
use std::cmp::Ordering;
use tables::lines::Lines;
use tables::orders::Orders;
use tables::reserved::Reserved;
use tables::staged::Staged;
use tables::urgents::Urgents;

impl Entire for Orders {
    ghost use Rattle.std.specs.Prelude.{refl};
    ghost use Rattle.whole_tables.specs.Keys.{text_total, text_same};
    ghost use Rattle.whole_tables.specs.Laws.{orders_is};
    ghost use Rattle.whole_tables.specs.Same.{text_cmp};
    ghost use Rattle.whole_tables.specs.declared.key.RowKey.TheVariants as row;
    ghost use Rattle.whole_tables.specs.declared.key.TableName.TheVariants as table;
    ghost use Rattle.whole_tables.specs.declared.texts.TheConstants.{ALL_ORDERS};

    ghost whole = { ALL_ORDERS.now };

    ghost whole_laws = { orders_is };

    ghost order = { text_cmp };

    ghost table_name = { table.Orders };

    ghost named = { row.Order };

    ghost compared_laws = { record { called = refl; alike = λ a b same. same; total = text_total; same_is = text_same; differs = λ k a b differ. differ } };

    fn whole_text() -> &'static str {
        ALL_ORDERS
    }

    fn table_name() -> TableName {
        TableName::Orders
    }

    fn by_key(a: &OrderRow, b: &OrderRow) -> Ordering {
        a.order.order(&b.order)
    }

    fn same_row(a: &OrderRow, b: &OrderRow) -> bool {
        same_columns::<Orders>(a, b)
    }

    fn row_key(row: &OrderRow) -> RowKey {
        RowKey::Order(row.order)
    }
}

impl Entire for Urgents {
    ghost use Rattle.std.specs.Prelude.{refl};
    ghost use Rattle.whole_tables.specs.Keys.{text_total, text_same};
    ghost use Rattle.whole_tables.specs.Same.{text_cmp};
    ghost use Rattle.whole_tables.specs.Words.{all_urgents, all_urgents_laws};
    ghost use Rattle.whole_tables.specs.declared.key.RowKey.TheVariants as row;
    ghost use Rattle.whole_tables.specs.declared.key.TableName.TheVariants as table;

    ghost whole = { all_urgents.text };

    ghost whole_laws = { all_urgents_laws.is };

    ghost order = { text_cmp };

    ghost table_name = { table.Urgents };

    ghost named = { row.Urgent };

    ghost compared_laws = { record { called = refl; alike = λ a b same. same; total = text_total; same_is = text_same; differs = λ k a b differ. differ } };

    fn whole_text() -> &'static str {
        <Urgents as Sought<All>>::query_text(&All)
    }

    fn table_name() -> TableName {
        TableName::Urgents
    }

    fn by_key(a: &UrgentRow, b: &UrgentRow) -> Ordering {
        a.order.order(&b.order)
    }

    fn same_row(a: &UrgentRow, b: &UrgentRow) -> bool {
        same_columns::<Urgents>(a, b)
    }

    fn row_key(row: &UrgentRow) -> RowKey {
        RowKey::Urgent(row.order)
    }
}

impl Entire for Lines {
    ghost use Rattle.std.specs.Prelude.{bytes_eq, refl};
    ghost use Rattle.whole_tables.specs.Keys.{text_total, text_same, pair_total, pair_same};
    ghost use Rattle.whole_tables.specs.Laws.{lines_is};
    ghost use Rattle.whole_tables.specs.Same.{text_cmp, pair_cmp};
    ghost use Rattle.whole_tables.specs.declared.key.RowKey.TheVariants as row;
    ghost use Rattle.whole_tables.specs.declared.key.TableName.TheVariants as table;
    ghost use Rattle.whole_tables.specs.declared.texts.TheConstants.{ALL_LINES};

    ghost whole = { ALL_LINES.now };

    ghost whole_laws = { lines_is };

    ghost order = { pair_cmp text_cmp text_cmp };

    ghost table_name = { table.Lines };

    ghost named = { λ k. row.Line k.0 k.1 };

    ghost compared_laws = { record { called = refl; alike = λ a b same. same; total = pair_total text_cmp text_cmp text_total text_total; same_is = pair_same text_cmp text_cmp bytes_eq bytes_eq text_same text_same; differs = λ k a b differ. differ } };

    fn whole_text() -> &'static str {
        ALL_LINES
    }

    fn table_name() -> TableName {
        TableName::Lines
    }

    fn by_key(a: &LineRow, b: &LineRow) -> Ordering {
        a.order.order(&b.order).then(a.gtin.order(&b.gtin))
    }

    fn same_row(a: &LineRow, b: &LineRow) -> bool {
        same_columns::<Lines>(a, b)
    }

    fn row_key(row: &LineRow) -> RowKey {
        RowKey::Line(row.order, row.gtin)
    }
}

impl Entire for Staged {
    ghost use Rattle.std.specs.Prelude.{bytes_eq, refl};
    ghost use Rattle.tables.specs.Staged.{all_staged};
    ghost use Rattle.whole_tables.specs.Keys.{text_total, text_same, lot_total, lot_same, pair_total, pair_same};
    ghost use Rattle.whole_tables.specs.Laws.{staged_is};
    ghost use Rattle.whole_tables.specs.Same.{text_cmp, lot_cmp, pair_cmp};
    ghost use Rattle.whole_tables.specs.Words.{same_lot_id};
    ghost use Rattle.whole_tables.specs.declared.key.RowKey.TheVariants as row;
    ghost use Rattle.whole_tables.specs.declared.key.TableName.TheVariants as table;

    ghost whole = { all_staged.text };

    ghost whole_laws = { staged_is };

    ghost order = { pair_cmp text_cmp lot_cmp };

    ghost table_name = { table.Staged };

    ghost named = { λ k. row.Staged k.0 k.1 };

    ghost compared_laws = { record { called = refl; alike = λ a b same. same; total = pair_total text_cmp lot_cmp text_total lot_total; same_is = pair_same text_cmp lot_cmp bytes_eq same_lot_id text_same lot_same; differs = λ k a b differ. differ } };

    fn whole_text() -> &'static str {
        <Staged as Sought<All>>::query_text(&All)
    }

    fn table_name() -> TableName {
        TableName::Staged
    }

    fn by_key(a: &StagedRow, b: &StagedRow) -> Ordering {
        a.order.order(&b.order).then(a.lot.order(&b.lot))
    }

    fn same_row(a: &StagedRow, b: &StagedRow) -> bool {
        same_columns::<Staged>(a, b)
    }

    fn row_key(row: &StagedRow) -> RowKey {
        RowKey::Staged(row.order, row.lot)
    }
}

impl Entire for Reserved {
    ghost use Rattle.std.specs.Prelude.{bytes_eq, refl};
    ghost use Rattle.whole_tables.specs.Keys.{text_total, text_same, lot_total, lot_same, pair_total, pair_same};
    ghost use Rattle.whole_tables.specs.Laws.{reserved_is};
    ghost use Rattle.whole_tables.specs.Same.{text_cmp, lot_cmp, pair_cmp};
    ghost use Rattle.whole_tables.specs.Words.{same_lot_id};
    ghost use Rattle.whole_tables.specs.declared.key.RowKey.TheVariants as row;
    ghost use Rattle.whole_tables.specs.declared.key.TableName.TheVariants as table;
    ghost use Rattle.whole_tables.specs.declared.texts.TheConstants.{ALL_RESERVED};

    ghost whole = { ALL_RESERVED.now };

    ghost whole_laws = { reserved_is };

    ghost order = { pair_cmp text_cmp lot_cmp };

    ghost table_name = { table.Reserved };

    ghost named = { λ k. row.Reserved k.0 k.1 };

    ghost compared_laws = { record { called = refl; alike = λ a b same. same; total = pair_total text_cmp lot_cmp text_total lot_total; same_is = pair_same text_cmp lot_cmp bytes_eq same_lot_id text_same lot_same; differs = λ k a b differ. differ } };

    fn whole_text() -> &'static str {
        ALL_RESERVED
    }

    fn table_name() -> TableName {
        TableName::Reserved
    }

    fn by_key(a: &ReservedRow, b: &ReservedRow) -> Ordering {
        a.order.order(&b.order).then(a.lot.order(&b.lot))
    }

    fn same_row(a: &ReservedRow, b: &ReservedRow) -> bool {
        same_columns::<Reserved>(a, b)
    }

    fn row_key(row: &ReservedRow) -> RowKey {
        RowKey::Reserved(row.order, row.lot)
    }
}

impl Halved for Lines {
    ghost use Rattle.whole_tables.specs.Laws.{lines_half, lines_halves};

    ghost half = { lines_half };

    ghost halves_laws = { lines_halves };

    fn half_text(part: Half) -> &'static str {
        match part {
            Half::Lower => LOWER_LINES,
            Half::Upper => UPPER_LINES,
        }
    }
}

impl Halved for Reserved {
    ghost use Rattle.whole_tables.specs.Laws.{reserved_half, reserved_halves};

    ghost half = { reserved_half };

    ghost halves_laws = { reserved_halves };

    fn half_text(part: Half) -> &'static str {
        match part {
            Half::Lower => LOWER_RESERVED,
            Half::Upper => UPPER_RESERVED,
        }
    }
}
