ghost use Rattle.std.specs.Prelude.{◌≡◌, length};

use std::fmt;

/// Why a command or a query is refused.
#[derive(Clone, Copy, PartialEq, Eq)]
pub enum Refusal {
    /// K01: an earlier act bears the key with another command.
    KeyUsed,
    /// F01: the limit of acts is reached.
    ActsFull,
    /// U01: unknown item.
    UnknownItem,
    /// U02: unknown bin.
    UnknownBin,
    /// U03: unknown lot.
    UnknownLot,
    /// U04: unknown order.
    UnknownOrder,
    /// U05: the order has no line of the item.
    NoSuchLine,
    /// X01: the item exists, or the limit of items is reached.
    ItemExists,
    /// X02: the bin exists, or the limit of bins is reached.
    BinExists,
    /// X03: the order exists.
    OrderExists,
    /// X04: an item stands twice in the order.
    ItemTwice,
    /// X05: the lot is known with another expiry.
    OtherExpiry,
    /// S01: the lot is recalled.
    LotRecalled,
    /// S02: the lot is expired.
    LotExpired,
    /// S03: the lot is held.
    LotHeld,
    /// S04: the lot is not held.
    LotNotHeld,
    /// S05: the lot is recalled already.
    AlreadyRecalled,
    /// S06: the bin is not a STORE bin.
    NotStoreBin,
    /// S07: the order is closed.
    OrderClosed,
    /// S08: units are still staged for the order.
    StillStaged,
    /// S09: nothing is staged for the order.
    NothingStaged,
    /// S10: the day is not later than the business day.
    DayNotLater,
    /// S11: the lot is not expired, but has fewer days left than its item asks for.
    TooFewDays,
    /// Q01: the bin has not that many units of the lot.
    NotInBin,
    /// Q02: more than is reserved.
    OverReserved,
    /// Q03: more than is staged for that order line and lot.
    OverStaged,
    /// Q04: the two bins are one.
    SameBin,
    /// Q05: the units of the item in the house would exceed the limit.
    OverUnits,
    /// Q06: the open units ordered of an item would exceed the limit.
    OverOrdered,
    /// N01: no notice, since the lot is not recalled.
    NoNotice,
}

impl Refusal {
    ghost use Rattle.commands.specs.Refusals.{refusal_code};

    /// The code, a letter and two digits.
    pub fn code(self) -> &'static str
        ensures code { result.now ≡ refusal_code self }
        ensures length { length result.now ≡ 3 }
    {
        match self {
            Refusal::KeyUsed => "K01",
            Refusal::ActsFull => "F01",
            Refusal::UnknownItem => "U01",
            Refusal::UnknownBin => "U02",
            Refusal::UnknownLot => "U03",
            Refusal::UnknownOrder => "U04",
            Refusal::NoSuchLine => "U05",
            Refusal::ItemExists => "X01",
            Refusal::BinExists => "X02",
            Refusal::OrderExists => "X03",
            Refusal::ItemTwice => "X04",
            Refusal::OtherExpiry => "X05",
            Refusal::LotRecalled => "S01",
            Refusal::LotExpired => "S02",
            Refusal::LotHeld => "S03",
            Refusal::LotNotHeld => "S04",
            Refusal::AlreadyRecalled => "S05",
            Refusal::NotStoreBin => "S06",
            Refusal::OrderClosed => "S07",
            Refusal::StillStaged => "S08",
            Refusal::NothingStaged => "S09",
            Refusal::DayNotLater => "S10",
            Refusal::TooFewDays => "S11",
            Refusal::NotInBin => "Q01",
            Refusal::OverReserved => "Q02",
            Refusal::OverStaged => "Q03",
            Refusal::SameBin => "Q04",
            Refusal::OverUnits => "Q05",
            Refusal::OverOrdered => "Q06",
            Refusal::NoNotice => "N01",
        }
    }
}

/// The code.
impl fmt::Debug for Refusal {
    fn fmt<W: fmt::Write>(&self, f: &mut fmt::Formatter<W>) -> fmt::Result {
        f.write_str(self.code())
    }
}
