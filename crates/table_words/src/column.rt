//! Types that are stored in one column.

ghost use Rattle.std.specs.Prelude.{◌≡◌, true, false, None, IfSome};
ghost use Rattle.sqlite_value.specs.Value.{owned};
ghost use Rattle.sqlite_value.specs.Order.{column};
ghost use Rattle.table_words.specs.Stored.{up_to};

use commands::limits::UNITS_MAX;
use commands::{BinKind, CardKind, OrderState, Short};
use label::{BusinessDay, Day};
use sqlite::Row;
use sqlite::types::ValueRef;
use std::marker::Model;
use values::{Gtin, LEAST_DAYS_MAX, LeastDays, Lot, Name, QTY_MAX, Text, Title};

/// The units of an order line, at most.
pub const QTY: u64 = QTY_MAX as u64;

/// A type that is stored in one column.
pub trait Column: Copy {
    ghost use Rattle.std.specs.Prelude.{◌≡◌, ◌↔◌, true, false, None, IsTrue, IfSome};
    ghost use Rattle.sqlite_value.specs.Value.{owned};
    ghost use Rattle.table_words.specs.Stored.{Stored, IsStored};

    /// How it is stored.
    ghost stored: { Stored Self };

    /// Whether it is within its limit.
    fn fits(&self) -> bool
        ensures { result ≡ stored.fits self.now };

    /// The value of the column.
    fn value(&self) -> ValueRef<'_>
        requires { stored.fits self.now ≡ true }
        ensures value { owned result ≡ stored.value self.now }
        ensures rule { stored.is (stored.value self.now) ≡ true };

    /// What the value reads as, or `None` where the column cannot have it.
    fn of(value: ValueRef<'_>) -> Option<Self>
        ensures some { IfSome result (λ x. (stored.is (owned value.entry) ≡ true) × (stored.reads (owned value.entry) ≡ x)) }
        ensures none { result ≡ None → stored.is (owned value.entry) ≡ false };

    fn is_same(&self, other: &Self) -> bool
        ensures { IsTrue result ↔ (self.now ≡ other.now) };

    ghost stored_laws: { IsStored stored };
}

/// What the column of the row reads as, or `None` where the column cannot have it.
pub fn read_column<C: Column>(row: &Row, at: usize) -> Option<C>
    ensures some { IfSome result (λ x. (C.stored.is (column row.now at) ≡ true) × (C.stored.reads (column row.now at) ≡ x)) }
    ensures none { result ≡ None → C.stored.is (column row.now at) ≡ false }
{
    match row.get_ref(at) {
        Ok(value) => C::of(value),
        Err(_) => None,
    }
}

impl Column for Gtin {
    ghost use Rattle.std.specs.Prelude.{refl};
    ghost use Rattle.values.specs.Values.{is_gtin};
    ghost use Rattle.table_words.specs.Stored.{text_stored};

    ghost stored = { text_stored is_gtin };

    ghost stored_laws = { record { not_null = refl; bound = λ x. refl } };

    fn fits(&self) -> bool {
        true
    }

    fn value(&self) -> ValueRef<'_> {
        ValueRef::Text(self.as_bytes())
    }

    fn of(value: ValueRef<'_>) -> Option<Gtin> {
        match value {
            ValueRef::Text(text) => Gtin::new(text).ok(),
            _ => None,
        }
    }

    fn is_same(&self, other: &Gtin) -> bool {
        *self == *other
    }
}

impl Column for Lot {
    ghost use Rattle.std.specs.Prelude.{refl};
    ghost use Rattle.values.specs.Values.{is_lot_text};
    ghost use Rattle.table_words.specs.Stored.{text_stored};

    ghost stored = { text_stored is_lot_text };

    ghost stored_laws = { record { not_null = refl; bound = λ x. refl } };

    fn fits(&self) -> bool {
        true
    }

    fn value(&self) -> ValueRef<'_> {
        ValueRef::Text(self.as_bytes())
    }

    fn of(value: ValueRef<'_>) -> Option<Lot> {
        match value {
            ValueRef::Text(text) => Lot::new(text).ok(),
            _ => None,
        }
    }

    fn is_same(&self, other: &Lot) -> bool {
        *self == *other
    }
}

impl Column for Name {
    ghost use Rattle.std.specs.Prelude.{refl};
    ghost use Rattle.values.specs.Values.{is_name};
    ghost use Rattle.table_words.specs.Stored.{text_stored};

    ghost stored = { text_stored is_name };

    ghost stored_laws = { record { not_null = refl; bound = λ x. refl } };

    fn fits(&self) -> bool {
        true
    }

    fn value(&self) -> ValueRef<'_> {
        ValueRef::Text(self.as_bytes())
    }

    fn of(value: ValueRef<'_>) -> Option<Name> {
        match value {
            ValueRef::Text(text) => Name::new(text),
            _ => None,
        }
    }

    fn is_same(&self, other: &Name) -> bool {
        *self == *other
    }
}

impl Column for Title {
    ghost use Rattle.std.specs.Prelude.{refl};
    ghost use Rattle.values.specs.Values.{is_title};
    ghost use Rattle.table_words.specs.Stored.{text_stored};

    ghost stored = { text_stored is_title };

    ghost stored_laws = { record { not_null = refl; bound = λ x. refl } };

    fn fits(&self) -> bool {
        true
    }

    fn value(&self) -> ValueRef<'_> {
        ValueRef::Text(self.as_bytes())
    }

    fn of(value: ValueRef<'_>) -> Option<Title> {
        match value {
            ValueRef::Text(text) => Title::new(text),
            _ => None,
        }
    }

    fn is_same(&self, other: &Title) -> bool {
        *self == *other
    }
}

impl<const N: usize> Column for Text<N> {
    ghost use Rattle.std.specs.Prelude.{refl};
    ghost use Rattle.table_words.specs.Cells.{fits_in};
    ghost use Rattle.table_words.specs.Stored.{text_stored};

    ghost stored = { text_stored (fits_in N) };

    ghost stored_laws = { record { not_null = refl; bound = λ x. refl } };

    fn fits(&self) -> bool {
        true
    }

    fn value(&self) -> ValueRef<'_> {
        let _ = self.len();
        ValueRef::Text(self.as_bytes())
    }

    fn of(value: ValueRef<'_>) -> Option<Text<N>> {
        match value {
            ValueRef::Text(text) => Text::new(text),
            _ => None,
        }
    }

    fn is_same(&self, other: &Text<N>) -> bool {
        *self == *other
    }
}

impl Column for Short {
    ghost use Rattle.std.specs.Prelude.{refl};
    ghost use Rattle.commands.specs.declared.limits.TheConstants.{SHORT_MAX};
    ghost use Rattle.table_words.specs.Cells.{fits_in};
    ghost use Rattle.table_words.specs.Stored.{text_stored};

    ghost stored = { text_stored (fits_in SHORT_MAX) };

    ghost stored_laws = { record { not_null = refl; bound = λ x. refl } };

    fn fits(&self) -> bool {
        true
    }

    fn value(&self) -> ValueRef<'_> {
        ValueRef::Text(self.as_bytes())
    }

    fn of(value: ValueRef<'_>) -> Option<Short> {
        match value {
            ValueRef::Text(text) => Short::new(text),
            _ => None,
        }
    }

    fn is_same(&self, other: &Short) -> bool {
        self.as_bytes() == other.as_bytes()
    }
}

impl Column for LeastDays {
    ghost use Rattle.std.specs.Prelude.{refl};
    ghost use Rattle.values.specs.Values.{LEAST_DAYS_MAX};
    ghost use Rattle.table_words.specs.Stored.{number_stored};

    ghost stored = { number_stored LEAST_DAYS_MAX };

    ghost stored_laws = { record { not_null = refl; bound = λ x. refl } };

    fn fits(&self) -> bool {
        u32::from(self.days()) <= LEAST_DAYS_MAX
    }

    fn value(&self) -> ValueRef<'_> {
        ValueRef::Int(i64::from(self.days()))
    }

    fn of(value: ValueRef<'_>) -> Option<LeastDays> {
        match value {
            ValueRef::Int(n) if 0 <= n => LeastDays::new(n as u64),
            _ => None,
        }
    }

    fn is_same(&self, other: &LeastDays) -> bool {
        *self == *other
    }
}

impl Column for BusinessDay {
    ghost use Rattle.std.specs.Prelude.{refl};
    ghost use Rattle.table_words.specs.Stored.{day_stored};

    ghost stored = { day_stored };

    ghost stored_laws = { record { not_null = refl; bound = λ x. refl } };

    fn fits(&self) -> bool {
        true
    }

    fn value(&self) -> ValueRef<'_> {
        ValueRef::Int(i64::from(self.day().number()))
    }

    fn of(value: ValueRef<'_>) -> Option<BusinessDay> {
        match value {
            ValueRef::Int(n) => BusinessDay::new(Day::new(n)?),
            _ => None,
        }
    }

    fn is_same(&self, other: &BusinessDay) -> bool {
        *self == *other
    }
}

/// The expiry of a lot, as a column has it: none is before 2000-01-01.
#[derive(Clone, Copy)]
pub struct Expiry {
    pub day: Day,
}

impl Model for Expiry {
    ghost use Rattle.std.specs.Prelude.{ℤ};

    ghost Value = { ℤ };

    ghost view = { λ v. v.day };

    ghost inverse = { λ n. record { day = n } };
}

impl Column for Expiry {
    ghost use Rattle.std.specs.Prelude.{refl};
    ghost use Rattle.table_words.specs.Cells.{is_expiry};
    ghost use Rattle.table_words.specs.Stored.{signed_stored};

    ghost stored = { signed_stored is_expiry };

    ghost stored_laws = { record { not_null = refl; bound = λ x. refl } };

    fn fits(&self) -> bool {
        10_957 <= self.day.number()
    }

    fn value(&self) -> ValueRef<'_> {
        ValueRef::Int(i64::from(self.day.number()))
    }

    fn of(value: ValueRef<'_>) -> Option<Expiry> {
        match value {
            ValueRef::Int(n) if 10_957 <= n => Some(Expiry { day: Day::new(n)? }),
            _ => None,
        }
    }

    fn is_same(&self, other: &Expiry) -> bool {
        self.day == other.day
    }
}

/// The units of a card line, as a column has them, below 0 where they went: up to 1,000,000 that come, up to 10,000,000,000
/// that go, and not none.
#[derive(Clone, Copy)]
pub struct CardUnits {
    pub units: i64,
}

impl Model for CardUnits {
    ghost use Rattle.std.specs.Prelude.{ℤ};

    ghost Value = { ℤ };

    ghost view = { λ v. v.units };

    ghost inverse = { λ n. record { units = n } };
}

impl Column for CardUnits {
    ghost use Rattle.std.specs.Prelude.{refl};
    ghost use Rattle.table_words.specs.Cells.{is_card_units};
    ghost use Rattle.table_words.specs.Stored.{signed_stored};

    ghost stored = { signed_stored is_card_units };

    ghost stored_laws = { record { not_null = refl; bound = λ x. refl } };

    fn fits(&self) -> bool {
        let limit = if self.units < 0 {
            UNITS_MAX
        } else {
            u64::from(QTY_MAX)
        };
        let size = self.units.unsigned_abs();
        1 <= size && size <= limit
    }

    fn value(&self) -> ValueRef<'_> {
        ValueRef::Int(self.units)
    }

    fn of(value: ValueRef<'_>) -> Option<CardUnits> {
        match value {
            ValueRef::Int(units) => {
                let read = CardUnits { units };
                if read.fits() { Some(read) } else { None }
            }
            _ => None,
        }
    }

    fn is_same(&self, other: &CardUnits) -> bool {
        self.units == other.units
    }
}

impl Column for bool {
    ghost use Rattle.std.specs.Prelude.{refl};
    ghost use Rattle.table_words.specs.Stored.{flag_stored};

    ghost stored = { flag_stored };

    ghost stored_laws = { record { not_null = refl; bound = λ x. refl } };

    fn fits(&self) -> bool {
        true
    }

    fn value(&self) -> ValueRef<'_> {
        ValueRef::Int(if *self { 1 } else { 0 })
    }

    fn of(value: ValueRef<'_>) -> Option<bool> {
        match value {
            ValueRef::Int(0) => Some(false),
            ValueRef::Int(1) => Some(true),
            _ => None,
        }
    }

    fn is_same(&self, other: &bool) -> bool {
        *self == *other
    }
}

impl Column for BinKind {
    ghost use Rattle.std.specs.Prelude.{refl};
    ghost use Rattle.table_words.specs.Stored.{bin_kind_stored};

    ghost stored = { bin_kind_stored };

    ghost stored_laws = { record { not_null = refl; bound = λ x. refl } };

    fn fits(&self) -> bool {
        true
    }

    fn value(&self) -> ValueRef<'_> {
        ValueRef::Text(self.word().as_bytes())
    }

    fn of(value: ValueRef<'_>) -> Option<BinKind> {
        match value {
            ValueRef::Text(text) => BinKind::from_word(text),
            _ => None,
        }
    }

    fn is_same(&self, other: &BinKind) -> bool {
        match *self {
            BinKind::Store => matches!(*other, BinKind::Store),
            BinKind::Hold => matches!(*other, BinKind::Hold),
        }
    }
}

impl Column for OrderState {
    ghost use Rattle.std.specs.Prelude.{refl};
    ghost use Rattle.table_words.specs.Stored.{order_state_stored};

    ghost stored = { order_state_stored };

    ghost stored_laws = { record { not_null = refl; bound = λ x. refl } };

    fn fits(&self) -> bool {
        true
    }

    fn value(&self) -> ValueRef<'_> {
        ValueRef::Text(self.word().as_bytes())
    }

    fn of(value: ValueRef<'_>) -> Option<OrderState> {
        match value {
            ValueRef::Text(text) => OrderState::from_word(text),
            _ => None,
        }
    }

    fn is_same(&self, other: &OrderState) -> bool {
        match *self {
            OrderState::Open => matches!(*other, OrderState::Open),
            OrderState::Done => matches!(*other, OrderState::Done),
            OrderState::Cancelled => matches!(*other, OrderState::Cancelled),
        }
    }
}

impl Column for CardKind {
    ghost use Rattle.std.specs.Prelude.{refl};
    ghost use Rattle.table_words.specs.Stored.{card_kind_stored};

    ghost stored = { card_kind_stored };

    ghost stored_laws = { record { not_null = refl; bound = λ x. refl } };

    fn fits(&self) -> bool {
        true
    }

    fn value(&self) -> ValueRef<'_> {
        ValueRef::Text(self.word().as_bytes())
    }

    fn of(value: ValueRef<'_>) -> Option<CardKind> {
        match value {
            ValueRef::Text(text) => CardKind::from_word(text),
            _ => None,
        }
    }

    fn is_same(&self, other: &CardKind) -> bool {
        match *self {
            CardKind::Receipt => matches!(*other, CardKind::Receipt),
            CardKind::WriteOn => matches!(*other, CardKind::WriteOn),
            CardKind::WriteOff => matches!(*other, CardKind::WriteOff),
            CardKind::Shipment => matches!(*other, CardKind::Shipment),
        }
    }
}

/// The limit of numbers up to `max`: a column has none above 2 ^ 63 - 1.
fn limit(max: u64) -> u64
    ensures { result ≡ up_to max }
{
    if max <= 9_223_372_036_854_775_807 {
        max
    } else {
        9_223_372_036_854_775_807
    }
}

/// A number from 0 to `MAX`, as a column has it.
#[derive(Clone, Copy)]
pub struct Number<const MAX: u64> {
    pub number: u64,
}

impl<const MAX: u64> Model for Number<MAX> {
    ghost use Rattle.std.specs.Prelude.{ℕ};

    ghost Value = { ℕ };

    ghost view = { λ v. v.number };

    ghost inverse = { λ n. record { number = n } };
}

impl<const MAX: u64> Column for Number<MAX> {
    ghost use Rattle.std.specs.Prelude.{refl};
    ghost use Rattle.table_words.specs.Stored.{up_to, number_stored};

    ghost stored = { number_stored (up_to MAX) };

    ghost stored_laws = { record { not_null = refl; bound = λ x. refl } };

    fn fits(&self) -> bool {
        self.number <= limit(MAX)
    }

    fn value(&self) -> ValueRef<'_> {
        ValueRef::Int(self.number as i64)
    }

    fn of(value: ValueRef<'_>) -> Option<Number<MAX>> {
        match value {
            ValueRef::Int(n) if 0 <= n && n as u64 <= limit(MAX) => Some(Number {
                number: n as u64,
            }),
            _ => None,
        }
    }

    fn is_same(&self, other: &Number<MAX>) -> bool {
        self.number == other.number
    }
}

/// A number from 1 to `MAX`, as a column has it.
#[derive(Clone, Copy)]
pub struct Count<const MAX: u64> {
    pub number: u64,
}

impl<const MAX: u64> Model for Count<MAX> {
    ghost use Rattle.std.specs.Prelude.{ℕ};

    ghost Value = { ℕ };

    ghost view = { λ v. v.number };

    ghost inverse = { λ n. record { number = n } };
}

impl<const MAX: u64> Column for Count<MAX> {
    ghost use Rattle.std.specs.Prelude.{refl};
    ghost use Rattle.table_words.specs.Stored.{up_to, count_stored};

    ghost stored = { count_stored (up_to MAX) };

    ghost stored_laws = { record { not_null = refl; bound = λ x. refl } };

    fn fits(&self) -> bool {
        1 <= self.number && self.number <= limit(MAX)
    }

    fn value(&self) -> ValueRef<'_> {
        ValueRef::Int(self.number as i64)
    }

    fn of(value: ValueRef<'_>) -> Option<Count<MAX>> {
        match value {
            ValueRef::Int(n) if 1 <= n && n as u64 <= limit(MAX) => Some(Count {
                number: n as u64,
            }),
            _ => None,
        }
    }

    fn is_same(&self, other: &Count<MAX>) -> bool {
        self.number == other.number
    }
}
