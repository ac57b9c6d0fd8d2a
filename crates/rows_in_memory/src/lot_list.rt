//! Lots, each once, however many rows name them.

use crate::key_list::{KeyList, KeyOf};
use values::{LotId, LotKey};

/// The lots of rows.
pub type LotList = KeyList<LotId, LotKey>;

impl KeyOf<LotId> for LotKey {
    ghost use Rattle.machine.specs.Postings.{is_lot};
    ghost use Rattle.rows_in_memory.specs.LotOrder.{lot_key, lots_told, lots_exact};

    ghost same = { is_lot };

    ghost key = { lot_key };

    ghost told = { lots_told };

    ghost exact = { lots_exact };

    fn of(lot: &LotId) -> Self {
        LotKey::of(lot)
    }
}
