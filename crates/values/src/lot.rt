ghost use Rattle.std.specs.Prelude.{◌≡◌, ◌↔◌, codes, IsTrue, IsOk};
ghost use Rattle.std.specs.List.{list_all};
ghost use Rattle.values.specs.Values.{is_lot_text, is_set_82, is_one_of};
ghost use Rattle.values.specs.Faults.{sound_or, lot_text_fault};

use crate::{Gtin, LabelFault, Text};
use std::marker::Model;

/// The longest lot, in characters.
pub const LOT_MAX: usize = 20;

/// A batch or lot: 1 to 20 characters of character set 82. (GS1 General Specifications, batch or
/// lot number (10); GS1 AI encodable character set 82.)
#[derive(Clone, Copy, PartialEq, Eq, Debug)]
pub struct Lot {
    text: Text<20>,
}

impl Model for Lot {
    ghost use Rattle.std.specs.Prelude.{List, ℕ, IsTrue};
    ghost use Rattle.values.specs.Values.{is_lot_text};

    ghost Value = { List ℕ };

    ghost view = { λ v. v.text };

    ghost invariant = { λ v. IsTrue (is_lot_text v.text) };

    ghost inverse = { λ text. record { text = text } };
}

/// A lot of an item.
#[derive(Clone, Copy, Debug)]
pub struct LotId {
    pub gtin: Gtin,
    pub lot: Lot,
}

impl PartialEq for LotId {
    ghost use Rattle.std.specs.Prelude.{◌&&◌};
    ghost use Rattle.std.specs.Str.{bytes_eq};
    ghost use Rattle.std.proofs.Common.{rules};
    ghost use Rattle.std.specs.Cmp.Rules.{comparing};

    ghost eq = { λ a b. bytes_eq a.gtin b.gtin && bytes_eq a.lot b.lot };

    ghost laws = { Prim.search (comparing, rules) };

    // Mostly lots of one item are compared.
    fn eq(&self, other: &Self) -> bool {
        self.lot == other.lot && self.gtin == other.gtin
    }
}

impl Eq for LotId {
    ghost use Rattle.std.proofs.Common.{rules};
    ghost use Rattle.std.specs.Cmp.Rules.{comparing};

    ghost laws = { Prim.search (comparing, rules) };
}

impl Lot {
    /// The lot that a text is. Otherwise the first fault of these: `L07` for no character, `L08`
    /// for more than 20, `L09` for one outside character set 82.
    pub fn new(text: &[u8]) -> Result<Lot, LabelFault>
        ensures value { result ≡ sound_or (lot_text_fault text.now) text.now }
        ensures rule { IsOk result ↔ IsTrue (is_lot_text text.now) }
    {
        if text.is_empty() {
            return Err(LabelFault::LotEmpty);
        }
        if text.len() > LOT_MAX {
            return Err(LabelFault::LotTooLong);
        }
        if !are_in_set_82(text) {
            return Err(LabelFault::LotCharacter);
        }
        match Text::new(text) {
            Some(text) => Ok(Lot { text }),
            None => Err(LabelFault::LotTooLong),
        }
    }

    /// The characters of the lot, 1 to 20 bytes of ASCII.
    pub fn as_bytes(&self) -> &[u8]
        ensures text { result.now ≡ self.now }
        ensures rule { IsTrue (is_lot_text result.now) }
    {
        self.text.as_bytes()
    }
}

fn are_in_set_82(text: &[u8]) -> bool
    ensures { result ≡ list_all is_set_82 text.now }
{
    text.iter().all(|c| is_in_set_82(*c))
}

fn is_in_set_82(c: u8) -> bool
    ensures { result ≡ is_set_82 c }
{
    (b'A' <= c && c <= b'Z') || (b'a' <= c && c <= b'z') || (b'0' <= c && c <= b'9') || is_sign(c)
}

fn is_sign(c: u8) -> bool
    ensures { result ≡ is_one_of (codes "!\"%&'()*+,-./:;<=>?_") c }
{
    b"!\"%&'()*+,-./:;<=>?_".iter().any(|sign| c == *sign)
}
