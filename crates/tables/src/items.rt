//! The table `items`.

use crate::goods_texts::{ADD_ITEM, ALL_ITEMS, ITEMS_OF};
use commands::ItemRow;
use keyed_rows::mapped::Mapped;
use keyed_rows::reading::{All, SoughtBy};
use values::{Gtin, Title};

/// The table.
pub struct Items;

impl Mapped for Items {
    ghost use Rattle.std.specs.Prelude.{refl};
    ghost use Rattle.table_words.specs.Typed.{item_mapping};
    ghost use Rattle.tables.specs.Items.{items, items_laws};

    type Row = ItemRow;

    type Key = Gtin;

    type Parts = (Gtin, Title);

    ghost mapping = { item_mapping };

    ghost described = { items };

    ghost mapped = { record { few = refl; cells = λ s. refl; has = λ r. refl; seen = λ r. refl; back = λ s. refl } };

    ghost mapped_laws = { items_laws };

    fn parts(row: &ItemRow) -> Self::Parts {
        (row.gtin, row.name)
    }

    fn of((gtin, name): Self::Parts) -> ItemRow {
        ItemRow { gtin, name }
    }

    fn add_text() -> &'static str {
        ADD_ITEM
    }
}

impl SoughtBy<Gtin> for Items {
    ghost use Rattle.tables.specs.Items.{items_of, items_of_laws};

    ghost asks = { items_of };

    ghost asked = { items_of_laws };

    fn asking_text() -> &'static str {
        ITEMS_OF
    }
}

impl SoughtBy<All> for Items {
    ghost use Rattle.tables.specs.Items.{all_items, all_items_laws};

    ghost asks = { all_items };

    ghost asked = { all_items_laws };

    fn asking_text() -> &'static str {
        ALL_ITEMS
    }
}
