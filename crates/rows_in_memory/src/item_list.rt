//! Items, each once, however many rows are of them.

use crate::key_list::{KeyList, KeyOf};
use values::{Gtin, TextKey};

/// The items of rows.
pub type ItemList = KeyList<Gtin, TextKey>;

impl KeyOf<Gtin> for TextKey {
    ghost use Rattle.std.specs.Prelude.{reverse};
    ghost use Rattle.values.specs.Values.{same_text};
    ghost use Rattle.rows_in_memory.specs.NameOrder.{names_told, names_exact};

    ghost same = { same_text };

    ghost key = { reverse };

    ghost told = { names_told };

    ghost exact = { names_exact };

    fn of(gtin: &Gtin) -> Self {
        TextKey::of_gtin(gtin)
    }
}
