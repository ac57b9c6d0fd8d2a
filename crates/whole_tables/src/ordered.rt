//! The order of keys.

use std::cmp::Ordering;
use values::{Gtin, LotId, Name};

/// A key, or a part of one.
pub(crate) trait Ordered {
    ghost use Rattle.std.specs.Prelude.{◌≡◌};
    ghost use Rattle.std.specs.declared.cmp.Ordering.{Ordering as Order};

    ghost order: { Self → Self → Order };

    fn order(&self, other: &Self) -> Ordering
        ensures { result ≡ order self.now other.now };
}

impl Ordered for Gtin {
    ghost use Rattle.whole_tables.specs.Same.{text_cmp};

    ghost order = { text_cmp };

    fn order(&self, other: &Gtin) -> Ordering {
        self.as_bytes().cmp(other.as_bytes())
    }
}

impl Ordered for Name {
    ghost use Rattle.whole_tables.specs.Same.{text_cmp};

    ghost order = { text_cmp };

    fn order(&self, other: &Name) -> Ordering {
        self.as_bytes().cmp(other.as_bytes())
    }
}

/// By GTIN, then by lot.
impl Ordered for LotId {
    ghost use Rattle.whole_tables.specs.Same.{lot_cmp};

    ghost order = { lot_cmp };

    fn order(&self, other: &LotId) -> Ordering {
        let lot = self.lot.as_bytes().cmp(other.lot.as_bytes());
        self.gtin.order(&other.gtin).then(lot)
    }
}

impl Ordered for u64 {
    ghost use Rattle.std.specs.Ordering.{nat_cmp};

    ghost order = { nat_cmp };

    fn order(&self, other: &u64) -> Ordering {
        self.cmp(other)
    }
}
