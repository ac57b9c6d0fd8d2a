//! Lots as keys: in the order of their texts, and then of their GTINs.

ghost use Rattle.std.specs.Prelude.{◌≡◌, reverse};

use crate::lot::LotId;
use crate::text_key::TextKey;

/// A lot as a key.
#[derive(Clone, Copy, PartialEq, Eq, PartialOrd, Ord)]
pub struct LotKey {
    pub lot: TextKey,
    pub item: TextKey,
}

impl LotKey {
    pub fn of(lot: &LotId) -> Self
        ensures { result ≡ record { lot = reverse lot.now.lot; item = reverse lot.now.gtin } }
    {
        LotKey {
            lot: TextKey::of_lot(&lot.lot),
            item: TextKey::of_gtin(&lot.gtin),
        }
    }
}
