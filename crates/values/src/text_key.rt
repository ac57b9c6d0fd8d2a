//! Texts as keys, in the order of their bytes from the last one on.

ghost use Rattle.std.specs.Prelude.{◌≡◌, ◌≤◌, length, reverse};
ghost use Rattle.values.specs.Packed.{at_the_end};

use crate::gtin::Gtin;
use crate::lot::Lot;
use crate::name::Name;
use std::cmp::Ordering;
use std::marker::Model;

/// A text as a key: the name of an order or of a bin, a GTIN, or a lot among those of its item. It is
/// kept from the last character to the first, since most texts differ in their last ones.
#[derive(Clone, Copy)]
pub struct TextKey {
    turned: Packed,
}

// A text as numbers, which compare faster than its bytes: eight of them, eight more and four more, zeros
// where the text has ended, and then its length.
#[derive(Clone, Copy, PartialEq, Eq, PartialOrd, Ord)]
struct Packed {
    first: u64,
    second: u64,
    last: u32,
    len: u32,
}

impl Model for TextKey {
    ghost use Rattle.std.specs.Prelude.{List, ℕ};
    ghost use Rattle.values.specs.Packed.{packed, text_of, IsPacked};

    ghost Value = { List ℕ };

    ghost view = { λ v. text_of v.turned };

    ghost invariant = { λ v. IsPacked v.turned };

    ghost inverse = { λ text. record { turned = packed text } };

    ghost inverse_ok = { λ v h i. record { turned = h.back i } };
}

impl TextKey {
    pub fn of_name(name: &Name) -> Self
        ensures { result ≡ reverse name.now }
    {
        turned(name.as_bytes())
    }

    pub fn of_gtin(gtin: &Gtin) -> Self
        ensures { result ≡ reverse gtin.now }
    {
        turned(gtin.as_bytes())
    }

    pub fn of_lot(lot: &Lot) -> Self
        ensures { result ≡ reverse lot.now }
    {
        turned(lot.as_bytes())
    }
}

fn turned(text: &[u8]) -> TextKey
    requires { length text.now ≤ 20 }
    ensures { result ≡ reverse text.now }
{
    let bytes = at_the_end(text);
    let first = u64::from_be_bytes([
        bytes[19], bytes[18], bytes[17], bytes[16], bytes[15], bytes[14], bytes[13], bytes[12],
    ]);
    let second = u64::from_be_bytes([
        bytes[11], bytes[10], bytes[9], bytes[8], bytes[7], bytes[6], bytes[5], bytes[4],
    ]);
    let last = u32::from_be_bytes([bytes[3], bytes[2], bytes[1], bytes[0]]);
    TextKey {
        turned: Packed {
            first,
            second,
            last,
            len: text.len() as u32,
        },
    }
}

// The text in an array, which it fills from its end.
fn at_the_end(text: &[u8]) -> [u8; 20]
    requires { length text.now ≤ 20 }
    ensures { result ≡ at_the_end 20 text.now }
{
    let mut bytes = [0; 20];
    bytes[20 - text.len()..].copy_from_slice(text);
    bytes
}

impl PartialEq for TextKey {
    ghost use Rattle.std.specs.Str.{bytes_eq};
    ghost use Rattle.std.proofs.Common.{rules};
    ghost use Rattle.std.specs.Cmp.Rules.{comparing};

    ghost eq = { bytes_eq };

    ghost laws = { Prim.search (comparing, rules) };

    fn eq(&self, other: &Self) -> bool {
        self.cmp(other).is_eq()
    }
}

impl Eq for TextKey {
    ghost use Rattle.std.proofs.Common.{rules};
    ghost use Rattle.std.specs.Cmp.Rules.{comparing};

    ghost laws = { Prim.search (comparing, rules) };
}

impl PartialOrd for TextKey {
    ghost use Rattle.std.specs.Prelude.{Some};
    ghost use Rattle.std.specs.Ordering.{nat_cmp};
    ghost use Rattle.std.specs.Cmp.Lexicographic.{slice_cmp, texts_po};

    ghost partial_cmp = { λ x y. Some (slice_cmp nat_cmp x y) };

    ghost laws = { texts_po };

    fn partial_cmp(&self, other: &Self) -> Option<Ordering> {
        Some(self.cmp(other))
    }
}

impl Ord for TextKey {
    ghost use Rattle.std.specs.Ordering.{nat_cmp};
    ghost use Rattle.std.specs.Cmp.Lexicographic.{slice_cmp, texts_ties, nat_list_cmp_total};
    ghost use Rattle.std.proofs.Common.{refl};

    ghost cmp = { slice_cmp nat_cmp };

    ghost total = { nat_list_cmp_total };

    ghost matches_partial_cmp = { λ x y. refl };

    ghost matches_eq = { texts_ties };

    fn cmp(&self, other: &Self) -> Ordering {
        self.turned.cmp(&other.turned)
    }
}
