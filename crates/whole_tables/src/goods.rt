//! The tables of items, bins and lots, read whole and compared.

use crate::columns::same_columns;
use crate::entire::Entire;
use crate::halves::{Half, Halved};
use crate::key::{RowKey, TableName};
use crate::ordered::Ordered;
use crate::texts::{ALL_LEAST, ALL_META, ALL_RECALLS, ALL_STOCK, LOWER_STOCK, UPPER_STOCK};
use commands::{BinRow, ItemRow, LeastRow, LotRow, MetaRow, RecallRow, StockRow};
use keyed_rows::reading::{All, Sought};
use std::cmp::Ordering;
use tables::bins::Bins;
use tables::items::Items;
use tables::least::Least;
use tables::lots::Lots;
use tables::meta::Meta;
use tables::recalls::Recalls;
use tables::stock::Stock;

impl Entire for Meta {
    ghost use Rattle.std.specs.Prelude.{refl};
    ghost use Rattle.whole_tables.specs.Keys.{one_total};
    ghost use Rattle.whole_tables.specs.Laws.{meta_is};
    ghost use Rattle.whole_tables.specs.Same.{one_cmp};
    ghost use Rattle.whole_tables.specs.declared.key.RowKey.TheVariants as row;
    ghost use Rattle.whole_tables.specs.declared.key.TableName.TheVariants as table;
    ghost use Rattle.whole_tables.specs.declared.texts.TheConstants.{ALL_META};

    ghost whole = { ALL_META.now };

    ghost whole_laws = { meta_is };

    ghost order = { one_cmp };

    ghost table_name = { table.Meta };

    ghost named = { λ k. row.Meta };

    ghost compared_laws = { record { called = refl; alike = λ a b same. same; total = one_total; same_is = λ a b. refl; differs = λ k a b differ. differ } };

    fn whole_text() -> &'static str {
        ALL_META
    }

    fn table_name() -> TableName {
        TableName::Meta
    }

    fn by_key(_: &MetaRow, _: &MetaRow) -> Ordering {
        Ordering::Equal
    }

    fn same_row(a: &MetaRow, b: &MetaRow) -> bool {
        a.day == b.day && a.acts == b.acts && a.shipments == b.shipments
    }

    fn row_key(_: &MetaRow) -> RowKey {
        RowKey::Meta
    }
}

impl Entire for Items {
    ghost use Rattle.std.specs.Prelude.{refl};
    ghost use Rattle.tables.specs.Items.{all_items};
    ghost use Rattle.whole_tables.specs.Keys.{text_total, text_same};
    ghost use Rattle.whole_tables.specs.Laws.{items_is};
    ghost use Rattle.whole_tables.specs.Same.{text_cmp};
    ghost use Rattle.whole_tables.specs.declared.key.RowKey.TheVariants as row;
    ghost use Rattle.whole_tables.specs.declared.key.TableName.TheVariants as table;

    ghost whole = { all_items.text };

    ghost whole_laws = { items_is };

    ghost order = { text_cmp };

    ghost table_name = { table.Items };

    ghost named = { row.Item };

    ghost compared_laws = { record { called = refl; alike = λ a b same. same; total = text_total; same_is = text_same; differs = λ k a b differ. differ } };

    fn whole_text() -> &'static str {
        <Items as Sought<All>>::query_text(&All)
    }

    fn table_name() -> TableName {
        TableName::Items
    }

    fn by_key(a: &ItemRow, b: &ItemRow) -> Ordering {
        a.gtin.order(&b.gtin)
    }

    fn same_row(a: &ItemRow, b: &ItemRow) -> bool {
        same_columns::<Items>(a, b)
    }

    fn row_key(row: &ItemRow) -> RowKey {
        RowKey::Item(row.gtin)
    }
}

impl Entire for Least {
    ghost use Rattle.std.specs.Prelude.{refl};
    ghost use Rattle.whole_tables.specs.Keys.{text_total, text_same};
    ghost use Rattle.whole_tables.specs.Laws.{least_is};
    ghost use Rattle.whole_tables.specs.Same.{text_cmp};
    ghost use Rattle.whole_tables.specs.declared.key.RowKey.TheVariants as row;
    ghost use Rattle.whole_tables.specs.declared.key.TableName.TheVariants as table;
    ghost use Rattle.whole_tables.specs.declared.texts.TheConstants.{ALL_LEAST};

    ghost whole = { ALL_LEAST.now };

    ghost whole_laws = { least_is };

    ghost order = { text_cmp };

    ghost table_name = { table.Least };

    ghost named = { row.Least };

    ghost compared_laws = { record { called = refl; alike = λ a b same. same; total = text_total; same_is = text_same; differs = λ k a b differ. differ } };

    fn whole_text() -> &'static str {
        ALL_LEAST
    }

    fn table_name() -> TableName {
        TableName::Least
    }

    fn by_key(a: &LeastRow, b: &LeastRow) -> Ordering {
        a.gtin.order(&b.gtin)
    }

    fn same_row(a: &LeastRow, b: &LeastRow) -> bool {
        same_columns::<Least>(a, b)
    }

    fn row_key(row: &LeastRow) -> RowKey {
        RowKey::Least(row.gtin)
    }
}

impl Entire for Bins {
    ghost use Rattle.std.specs.Prelude.{refl};
    ghost use Rattle.tables.specs.Bins.{all_bins};
    ghost use Rattle.whole_tables.specs.Keys.{text_total, text_same};
    ghost use Rattle.whole_tables.specs.Laws.{bins_is};
    ghost use Rattle.whole_tables.specs.Same.{text_cmp};
    ghost use Rattle.whole_tables.specs.declared.key.RowKey.TheVariants as row;
    ghost use Rattle.whole_tables.specs.declared.key.TableName.TheVariants as table;

    ghost whole = { all_bins.text };

    ghost whole_laws = { bins_is };

    ghost order = { text_cmp };

    ghost table_name = { table.Bins };

    ghost named = { row.Bin };

    ghost compared_laws = { record { called = refl; alike = λ a b same. same; total = text_total; same_is = text_same; differs = λ k a b differ. differ } };

    fn whole_text() -> &'static str {
        <Bins as Sought<All>>::query_text(&All)
    }

    fn table_name() -> TableName {
        TableName::Bins
    }

    fn by_key(a: &BinRow, b: &BinRow) -> Ordering {
        a.name.order(&b.name)
    }

    fn same_row(a: &BinRow, b: &BinRow) -> bool {
        same_columns::<Bins>(a, b)
    }

    fn row_key(row: &BinRow) -> RowKey {
        RowKey::Bin(row.name)
    }
}

impl Entire for Lots {
    ghost use Rattle.std.specs.Prelude.{refl};
    ghost use Rattle.tables.specs.Lots.{all_lots};
    ghost use Rattle.whole_tables.specs.Keys.{lot_total, lot_same};
    ghost use Rattle.whole_tables.specs.Laws.{lots_is};
    ghost use Rattle.whole_tables.specs.Same.{lot_cmp};
    ghost use Rattle.whole_tables.specs.declared.key.RowKey.TheVariants as row;
    ghost use Rattle.whole_tables.specs.declared.key.TableName.TheVariants as table;

    ghost whole = { all_lots.text };

    ghost whole_laws = { lots_is };

    ghost order = { lot_cmp };

    ghost table_name = { table.Lots };

    ghost named = { row.Lot };

    ghost compared_laws = { record { called = refl; alike = λ a b same. same; total = lot_total; same_is = lot_same; differs = λ k a b differ. differ } };

    fn whole_text() -> &'static str {
        <Lots as Sought<All>>::query_text(&All)
    }

    fn table_name() -> TableName {
        TableName::Lots
    }

    fn by_key(a: &LotRow, b: &LotRow) -> Ordering {
        a.lot.order(&b.lot)
    }

    fn same_row(a: &LotRow, b: &LotRow) -> bool {
        same_columns::<Lots>(a, b)
    }

    fn row_key(row: &LotRow) -> RowKey {
        RowKey::Lot(row.lot)
    }
}

impl Entire for Recalls {
    ghost use Rattle.std.specs.Prelude.{refl};
    ghost use Rattle.whole_tables.specs.Keys.{lot_total, lot_same};
    ghost use Rattle.whole_tables.specs.Laws.{recalls_is};
    ghost use Rattle.whole_tables.specs.Same.{lot_cmp};
    ghost use Rattle.whole_tables.specs.declared.key.RowKey.TheVariants as row;
    ghost use Rattle.whole_tables.specs.declared.key.TableName.TheVariants as table;
    ghost use Rattle.whole_tables.specs.declared.texts.TheConstants.{ALL_RECALLS};

    ghost whole = { ALL_RECALLS.now };

    ghost whole_laws = { recalls_is };

    ghost order = { lot_cmp };

    ghost table_name = { table.Recalls };

    ghost named = { row.Recall };

    ghost compared_laws = { record { called = refl; alike = λ a b same. same; total = lot_total; same_is = lot_same; differs = λ k a b differ. differ } };

    fn whole_text() -> &'static str {
        ALL_RECALLS
    }

    fn table_name() -> TableName {
        TableName::Recalls
    }

    fn by_key(a: &RecallRow, b: &RecallRow) -> Ordering {
        a.lot.order(&b.lot)
    }

    fn same_row(a: &RecallRow, b: &RecallRow) -> bool {
        same_columns::<Recalls>(a, b)
    }

    fn row_key(row: &RecallRow) -> RowKey {
        RowKey::Recall(row.lot)
    }
}

impl Entire for Stock {
    ghost use Rattle.std.specs.Prelude.{bytes_eq, refl};
    ghost use Rattle.whole_tables.specs.Keys.{text_total, text_same, lot_total, lot_same, pair_total, pair_same};
    ghost use Rattle.whole_tables.specs.Laws.{stock_is};
    ghost use Rattle.whole_tables.specs.Same.{text_cmp, lot_cmp, pair_cmp};
    ghost use Rattle.whole_tables.specs.Words.{same_lot_id};
    ghost use Rattle.whole_tables.specs.declared.key.RowKey.TheVariants as row;
    ghost use Rattle.whole_tables.specs.declared.key.TableName.TheVariants as table;
    ghost use Rattle.whole_tables.specs.declared.texts.TheConstants.{ALL_STOCK};

    ghost whole = { ALL_STOCK.now };

    ghost whole_laws = { stock_is };

    ghost order = { pair_cmp lot_cmp text_cmp };

    ghost table_name = { table.Stock };

    ghost named = { λ k. row.Stock k.0 k.1 };

    ghost compared_laws = { record { called = refl; alike = λ a b same. same; total = pair_total lot_cmp text_cmp lot_total text_total; same_is = pair_same lot_cmp text_cmp same_lot_id bytes_eq lot_same text_same; differs = λ k a b differ. differ } };

    fn whole_text() -> &'static str {
        ALL_STOCK
    }

    fn table_name() -> TableName {
        TableName::Stock
    }

    fn by_key(a: &StockRow, b: &StockRow) -> Ordering {
        a.lot.order(&b.lot).then(a.bin.order(&b.bin))
    }

    fn same_row(a: &StockRow, b: &StockRow) -> bool {
        same_columns::<Stock>(a, b)
    }

    fn row_key(row: &StockRow) -> RowKey {
        RowKey::Stock(row.lot, row.bin)
    }
}

impl Halved for Stock {
    ghost use Rattle.whole_tables.specs.Laws.{stock_half, stock_halves};

    ghost half = { stock_half };

    ghost halves_laws = { stock_halves };

    fn half_text(part: Half) -> &'static str {
        match part {
            Half::Lower => LOWER_STOCK,
            Half::Upper => UPPER_STOCK,
        }
    }
}
