//! The tables of what has gone and of the acts, read whole and compared.

use crate::columns::same_columns;
use crate::entire::Entire;
use crate::halves::{Half, Halved};
use crate::key::{RowKey, TableName};
use crate::ordered::Ordered;
use crate::texts::{
    ALL_CARDS, ALL_REPEATS, ALL_SHIPLINES, ALL_SHIPMENTS, LOWER_CARDS, LOWER_REPEATS,
    LOWER_SHIPLINES, UPPER_CARDS, UPPER_REPEATS, UPPER_SHIPLINES,
};
use commands::{CardRow, RepeatRow, ShiplineRow, ShipmentRow};
use std::cmp::Ordering;
use tables::cards::Cards;
use tables::repeats::Repeats;
use tables::shiplines::Shiplines;
use tables::shipments::Shipments;

impl Entire for Shipments {
    ghost use Rattle.std.specs.Prelude.{refl};
    ghost use Rattle.std.proofs.lemmas.Cmp.{nat_cmp_total};
    ghost use Rattle.std.specs.Ordering.{nat_cmp};
    ghost use Rattle.whole_tables.specs.Keys.{number_same};
    ghost use Rattle.whole_tables.specs.Laws.{shipments_is};
    ghost use Rattle.whole_tables.specs.declared.key.RowKey.TheVariants as row;
    ghost use Rattle.whole_tables.specs.declared.key.TableName.TheVariants as table;
    ghost use Rattle.whole_tables.specs.declared.texts.TheConstants.{ALL_SHIPMENTS};

    ghost whole = { ALL_SHIPMENTS.now };

    ghost whole_laws = { shipments_is };

    ghost order = { nat_cmp };

    ghost table_name = { table.Shipments };

    ghost named = { row.Shipment };

    ghost compared_laws = { record { called = refl; alike = λ a b same. same; total = nat_cmp_total; same_is = number_same; differs = λ k a b differ. differ } };

    fn whole_text() -> &'static str {
        ALL_SHIPMENTS
    }

    fn table_name() -> TableName {
        TableName::Shipments
    }

    fn by_key(a: &ShipmentRow, b: &ShipmentRow) -> Ordering {
        a.number.order(&b.number)
    }

    fn same_row(a: &ShipmentRow, b: &ShipmentRow) -> bool {
        same_columns::<Shipments>(a, b)
    }

    fn row_key(row: &ShipmentRow) -> RowKey {
        RowKey::Shipment(row.number)
    }
}

impl Entire for Shiplines {
    ghost use Rattle.std.proofs.lemmas.Cmp.{nat_cmp_total};
    ghost use Rattle.std.specs.Ordering.{nat_cmp};
    ghost use Rattle.std.specs.Prelude.{nat_eq, refl};
    ghost use Rattle.whole_tables.specs.Keys.{number_same, lot_total, lot_same, pair_total, pair_same};
    ghost use Rattle.whole_tables.specs.Laws.{shiplines_is};
    ghost use Rattle.whole_tables.specs.Same.{lot_cmp, pair_cmp};
    ghost use Rattle.whole_tables.specs.Words.{same_lot_id};
    ghost use Rattle.whole_tables.specs.declared.key.RowKey.TheVariants as row;
    ghost use Rattle.whole_tables.specs.declared.key.TableName.TheVariants as table;
    ghost use Rattle.whole_tables.specs.declared.texts.TheConstants.{ALL_SHIPLINES};

    ghost whole = { ALL_SHIPLINES.now };

    ghost whole_laws = { shiplines_is };

    ghost order = { pair_cmp nat_cmp lot_cmp };

    ghost table_name = { table.Shiplines };

    ghost named = { λ k. row.Shipline k.0 k.1 };

    ghost compared_laws = { record { called = refl; alike = λ a b same. same; total = pair_total nat_cmp lot_cmp nat_cmp_total lot_total; same_is = pair_same nat_cmp lot_cmp nat_eq same_lot_id number_same lot_same; differs = λ k a b differ. differ } };

    fn whole_text() -> &'static str {
        ALL_SHIPLINES
    }

    fn table_name() -> TableName {
        TableName::Shiplines
    }

    fn by_key(a: &ShiplineRow, b: &ShiplineRow) -> Ordering {
        a.number.order(&b.number).then(a.lot.order(&b.lot))
    }

    fn same_row(a: &ShiplineRow, b: &ShiplineRow) -> bool {
        same_columns::<Shiplines>(a, b)
    }

    fn row_key(row: &ShiplineRow) -> RowKey {
        RowKey::Shipline(row.number, row.lot)
    }
}

impl Entire for Cards {
    ghost use Rattle.std.proofs.lemmas.Cmp.{nat_cmp_total};
    ghost use Rattle.std.specs.Ordering.{nat_cmp};
    ghost use Rattle.std.specs.Prelude.{nat_eq, refl};
    ghost use Rattle.whole_tables.specs.Keys.{number_same, lot_total, lot_same, pair_total, pair_same};
    ghost use Rattle.whole_tables.specs.Laws.{cards_is};
    ghost use Rattle.whole_tables.specs.Same.{lot_cmp, pair_cmp};
    ghost use Rattle.whole_tables.specs.Words.{same_lot_id};
    ghost use Rattle.whole_tables.specs.declared.key.RowKey.TheVariants as row;
    ghost use Rattle.whole_tables.specs.declared.key.TableName.TheVariants as table;
    ghost use Rattle.whole_tables.specs.declared.texts.TheConstants.{ALL_CARDS};

    ghost whole = { ALL_CARDS.now };

    ghost whole_laws = { cards_is };

    ghost order = { pair_cmp lot_cmp nat_cmp };

    ghost table_name = { table.Cards };

    ghost named = { λ k. row.Card k.0 k.1 };

    ghost compared_laws = { record { called = refl; alike = λ a b same. same; total = pair_total lot_cmp nat_cmp lot_total nat_cmp_total; same_is = pair_same lot_cmp nat_cmp same_lot_id nat_eq lot_same number_same; differs = λ k a b differ. differ } };

    fn whole_text() -> &'static str {
        ALL_CARDS
    }

    fn table_name() -> TableName {
        TableName::Cards
    }

    fn by_key(a: &CardRow, b: &CardRow) -> Ordering {
        a.lot.order(&b.lot).then(a.act.order(&b.act))
    }

    fn same_row(a: &CardRow, b: &CardRow) -> bool {
        a.lot == b.lot
            && a.act == b.act
            && a.day == b.day
            && a.kind == b.kind
            && a.note == b.note
            && a.qty == b.qty
            && a.rest == b.rest
    }

    fn row_key(row: &CardRow) -> RowKey {
        RowKey::Card(row.lot, row.act)
    }
}

impl Entire for Repeats {
    ghost use Rattle.std.specs.Prelude.{refl};
    ghost use Rattle.whole_tables.specs.Keys.{text_total, text_same};
    ghost use Rattle.whole_tables.specs.Laws.{repeats_is};
    ghost use Rattle.whole_tables.specs.Same.{text_cmp};
    ghost use Rattle.whole_tables.specs.declared.key.RowKey.TheVariants as row;
    ghost use Rattle.whole_tables.specs.declared.key.TableName.TheVariants as table;
    ghost use Rattle.whole_tables.specs.declared.texts.TheConstants.{ALL_REPEATS};

    ghost whole = { ALL_REPEATS.now };

    ghost whole_laws = { repeats_is };

    ghost order = { text_cmp };

    ghost table_name = { table.Repeats };

    ghost named = { row.Repeat };

    ghost compared_laws = { record { called = refl; alike = λ a b same. same; total = text_total; same_is = text_same; differs = λ k a b differ. differ } };

    fn whole_text() -> &'static str {
        ALL_REPEATS
    }

    fn table_name() -> TableName {
        TableName::Repeats
    }

    fn by_key(a: &RepeatRow, b: &RepeatRow) -> Ordering {
        a.k.as_bytes().cmp(b.k.as_bytes())
    }

    fn same_row(a: &RepeatRow, b: &RepeatRow) -> bool {
        a.k == b.k
            && a.act == b.act
            && a.spell.as_slice() == b.spell.as_slice()
            && a.reply.as_bytes() == b.reply.as_bytes()
    }

    fn row_key(row: &RepeatRow) -> RowKey {
        RowKey::Repeat(row.k)
    }
}

impl Halved for Shiplines {
    ghost use Rattle.whole_tables.specs.Laws.{shiplines_half, shiplines_halves};

    ghost half = { shiplines_half };

    ghost halves_laws = { shiplines_halves };

    fn half_text(part: Half) -> &'static str {
        match part {
            Half::Lower => LOWER_SHIPLINES,
            Half::Upper => UPPER_SHIPLINES,
        }
    }
}

impl Halved for Cards {
    ghost use Rattle.whole_tables.specs.Laws.{cards_half, cards_halves};

    ghost half = { cards_half };

    ghost halves_laws = { cards_halves };

    fn half_text(part: Half) -> &'static str {
        match part {
            Half::Lower => LOWER_CARDS,
            Half::Upper => UPPER_CARDS,
        }
    }
}

impl Halved for Repeats {
    ghost use Rattle.whole_tables.specs.Laws.{repeats_half, repeats_halves};

    ghost half = { repeats_half };

    ghost halves_laws = { repeats_halves };

    fn half_text(part: Half) -> &'static str {
        match part {
            Half::Lower => LOWER_REPEATS,
            Half::Upper => UPPER_REPEATS,
        }
    }
}
