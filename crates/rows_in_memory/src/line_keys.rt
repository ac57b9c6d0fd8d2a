//! Lines of orders as keys: in the order of the orders' names, and then of the GTINs.

use crate::key_list::KeyOf;
use values::{Gtin, Name, TextKey};

/// The order and the item of a line, as a key.
#[derive(Clone, Copy, PartialEq, Eq, PartialOrd, Ord)]
pub struct LineKey {
    pub order: TextKey,
    pub item: TextKey,
}

impl KeyOf<(Name, Gtin)> for LineKey {
    ghost use Rattle.rows_in_memory.specs.LineOrder.{same_line, turned_line, lines_told, lines_exact};

    ghost same = { same_line };

    ghost key = { turned_line };

    ghost told = { lines_told };

    ghost exact = { lines_exact };

    fn of(line: &(Name, Gtin)) -> Self {
        LineKey {
            order: TextKey::of_name(&line.0),
            item: TextKey::of_gtin(&line.1),
        }
    }
}
