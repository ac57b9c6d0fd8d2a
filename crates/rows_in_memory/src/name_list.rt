//! Names, each once, however many rows have them.

use crate::key_list::{KeyList, KeyOf};
use values::{Name, TextKey};

/// The names of orders, or of bins.
pub type NameList = KeyList<Name, TextKey>;

impl KeyOf<Name> for TextKey {
    ghost use Rattle.std.specs.Prelude.{reverse};
    ghost use Rattle.values.specs.Values.{same_text};
    ghost use Rattle.rows_in_memory.specs.NameOrder.{names_told, names_exact};

    ghost same = { same_text };

    ghost key = { reverse };

    ghost told = { names_told };

    ghost exact = { names_exact };

    fn of(name: &Name) -> Self {
        TextKey::of_name(name)
    }
}
