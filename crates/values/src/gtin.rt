ghost use Rattle.std.specs.Prelude.{◌≡◌, ◌↔◌, ◌≤◌, ◌==◌, ◌%◌, length, IsTrue, IsOk};
ghost use Rattle.values.specs.Values.{is_gtin, first_is, weighted_sum};
ghost use Rattle.values.specs.Faults.{sound_or, gtin_text_fault};

use crate::{LabelFault, Text, are_digits};
use std::marker::Model;

/// A Global Trade Item Number of fourteen digits; a shorter one is filled with zeros on the left.
/// The last digit is the check digit, and the first is not 9, which marks goods of variable
/// measure. (GS1 General Specifications, GTIN (01); check digit calculations.)
#[derive(Clone, Copy, PartialEq, Eq, Debug)]
pub struct Gtin {
    text: Text<14>,
}

impl Model for Gtin {
    ghost use Rattle.std.specs.Prelude.{List, ℕ, IsTrue};
    ghost use Rattle.values.specs.Values.{is_gtin};

    ghost Value = { List ℕ };

    ghost view = { λ v. v.text };

    ghost invariant = { λ v. IsTrue (is_gtin v.text) };

    ghost inverse = { λ text. record { text = text } };
}

impl Gtin {
    /// The GTIN that a text is. Otherwise the first fault of these: `L03` unless it has fourteen
    /// characters, `L04` for one that is no digit, `L06` for a first digit 9, `L05` for a check
    /// digit that does not fit.
    pub fn new(text: &[u8]) -> Result<Gtin, LabelFault>
        ensures value { result ≡ sound_or (gtin_text_fault text.now) text.now }
        ensures rule { IsOk result ↔ IsTrue (is_gtin text.now) }
    {
        if text.len() != 14 {
            return Err(LabelFault::CutShort);
        }
        if !are_digits(text) {
            return Err(LabelFault::NotADigit);
        }
        if is_variable_measure(text) {
            return Err(LabelFault::VariableMeasure);
        }
        if !is_checked(text) {
            return Err(LabelFault::CheckDigit);
        }
        match Text::new(text) {
            Some(text) => Ok(Gtin { text }),
            None => Err(LabelFault::CutShort),
        }
    }

    /// The fourteen digits.
    pub fn as_bytes(&self) -> &[u8]
        ensures text { result.now ≡ self.now }
        ensures rule { IsTrue (is_gtin result.now) }
    {
        self.text.as_bytes()
    }
}

fn is_variable_measure(text: &[u8]) -> bool
    ensures { result ≡ first_is 57 text.now }
{
    match text {
        [] => false,
        [first, ..] => *first == b'9',
    }
}

// The digits with their weights add up to a multiple of ten.
fn is_checked(text: &[u8]) -> bool
    requires { length text.now ≤ 14 }
    ensures { result ≡ (weighted_sum 3 text.now % 10 == 0) }
{
    weighted(text) % 10 == 0
}

fn weighted(text: &[u8]) -> u32
    requires { length text.now ≤ 14 }
    ensures { result ≡ weighted_sum 3 text.now }
{
    let mut sum = 0;
    let mut weight = 3;
    for c in text {
        sum += weight * c.saturating_sub(b'0') as u32;
        weight = 4 - weight;
    }
    sum
}
