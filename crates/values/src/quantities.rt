ghost use Rattle.std.specs.Prelude.{◌≡◌, ◌≤◌, IsTrue};
ghost use Rattle.values.specs.Values.{checked, is_between, is_delta};

use std::marker::Model;

/// The most units that one command books.
pub const QTY_MAX: u32 = 1_000_000;

/// The highest number of a line of a delivery.
pub const LINE_MAX: u32 = 9_999;

/// The least remaining days that an item asks for, at most.
pub const LEAST_DAYS_MAX: u32 = 3_650;

/// A number from `LOW` to `HIGH`.
#[derive(Clone, Copy, PartialEq, Eq, Debug)]
pub struct Bounded<const LOW: u32, const HIGH: u32> {
    number: u32,
}

impl<const LOW: u32, const HIGH: u32> Model for Bounded<LOW, HIGH> {
    ghost use Rattle.std.specs.Prelude.{ℕ, IsTrue};
    ghost use Rattle.values.specs.Values.{is_between};

    ghost Value = { ℕ };

    ghost view = { λ v. v.number };

    ghost invariant = { λ v. IsTrue (is_between LOW HIGH v.number) };

    ghost inverse = { λ n. record { number = n } };
}

impl<const LOW: u32, const HIGH: u32> Bounded<LOW, HIGH> {
    /// That number, or `None` outside the bounds.
    pub fn new(number: u64) -> Option<Self>
        ensures { result ≡ checked (is_between LOW HIGH) number }
    {
        if LOW as u64 <= number && number <= HIGH as u64 {
            Some(Bounded {
                number: number as u32,
            })
        } else {
            None
        }
    }
}

/// How many units a command books: 1 to 1,000,000.
pub type Qty = Bounded<1, QTY_MAX>;

impl Qty {
    /// The number of units.
    pub fn units(self) -> u32
        ensures value { result ≡ self }
        ensures some { 1 ≤ result }
        ensures limit { result ≤ QTY_MAX }
    {
        self.number
    }
}

/// How many units of a lot were found in a bin: 0 to 1,000,000.
pub type Counted = Bounded<0, QTY_MAX>;

impl Counted {
    /// The number of units.
    pub fn units(self) -> u32
        ensures value { result ≡ self }
        ensures limit { result ≤ QTY_MAX }
    {
        self.number
    }
}

/// The number of a line of a delivery: 1 to 9,999.
pub type LineNo = Bounded<1, LINE_MAX>;

impl LineNo {
    /// The number.
    pub fn number(self) -> u16
        ensures value { result ≡ self }
        ensures some { 1 ≤ result }
        ensures limit { result ≤ LINE_MAX }
    {
        self.number as u16
    }
}

/// How many days an item's lots must have left to be shipped: 0 to 3,650.
pub type LeastDays = Bounded<0, LEAST_DAYS_MAX>;

impl LeastDays {
    /// The number of days.
    pub fn days(self) -> u16
        ensures value { result ≡ self }
        ensures limit { result ≤ LEAST_DAYS_MAX }
    {
        self.number as u16
    }
}

/// By how many units a quantity changes: -1,000,000 to 1,000,000, and not 0.
#[derive(Clone, Copy, PartialEq, Eq, Debug)]
pub struct Delta {
    change: i32,
}

impl Model for Delta {
    ghost use Rattle.std.specs.Prelude.{ℤ, IsTrue};
    ghost use Rattle.values.specs.Values.{is_delta};

    ghost Value = { ℤ };

    ghost view = { λ v. v.change };

    ghost invariant = { λ v. IsTrue (is_delta v.change) };

    ghost inverse = { λ n. record { change = n } };
}

impl Delta {
    /// The change by that many units, or `None` for 0 and beyond 1,000,000 either way.
    pub fn new(change: i64) -> Option<Delta>
        ensures { result ≡ checked is_delta change }
    {
        let size = change.unsigned_abs();
        if 1 <= size && size <= QTY_MAX as u64 {
            Some(Delta {
                change: change as i32,
            })
        } else {
            None
        }
    }

    /// The number of units, negative where units go.
    pub fn change(self) -> i32
        ensures value { result ≡ self }
        ensures rule { IsTrue (is_delta result) }
    {
        self.change
    }
}
