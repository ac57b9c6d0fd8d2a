//! When two of the values that rows have are the same.

ghost use Rattle.std.specs.Prelude.{◌≡◌};

use values::{Gtin, Lot, LotId, Name};

/// A value that rows have.
pub trait Same: Copy {
    ghost use Rattle.std.specs.Prelude.{Bool};

    ghost same: { Self → Self → Bool };

    fn is_same(&self, other: &Self) -> bool
        ensures { result ≡ same self.now other.now };
}

// The check digit and the one before it are compared first, since most items differ in them.
impl Same for Gtin {
    ghost use Rattle.values.specs.Values.{same_text};

    ghost same = { same_text };

    fn is_same(&self, other: &Self) -> bool {
        let (digits, others) = (self.as_bytes(), other.as_bytes());
        if digits.get(13) != others.get(13) || digits.get(12) != others.get(12) {
            return false;
        }
        *self == *other
    }
}

impl Same for Lot {
    ghost use Rattle.values.specs.Values.{same_text};

    ghost same = { same_text };

    fn is_same(&self, other: &Self) -> bool {
        *self == *other
    }
}

impl Same for Name {
    ghost use Rattle.values.specs.Values.{same_text};

    ghost same = { same_text };

    fn is_same(&self, other: &Self) -> bool {
        *self == *other
    }
}

// The lots are compared first, since mostly they are of one item.
impl Same for LotId {
    ghost use Rattle.machine.specs.Postings.{is_lot};

    ghost same = { is_lot };

    fn is_same(&self, other: &Self) -> bool {
        self.lot.is_same(&other.lot) && self.gtin.is_same(&other.gtin)
    }
}

impl<A: Same, B: Same> Same for (A, B) {
    ghost use Rattle.std.specs.Prelude.{◌&&◌};

    ghost same = { λ x y. A.same x.0 y.0 && B.same x.1 y.1 };

    fn is_same(&self, other: &Self) -> bool {
        self.0.is_same(&other.0) && self.1.is_same(&other.1)
    }
}
