ghost use Rattle.std.specs.Prelude.{◌≡◌, IsUtf8};

use values::{Gtin, Lot, Name, Title};

/// The text of these bytes.
pub fn readable(bytes: &[u8]) -> &str
    requires { IsUtf8 bytes.now }
    ensures { result.now ≡ bytes.now }
{
    std::str::from_utf8(bytes).unwrap()
}

#[tactic(auto, using(crate::proofs::Texts::name_is_utf8))]
pub fn name_text(name: &Name) -> &str
    ensures { result.now ≡ name.now }
{
    readable(name.as_bytes())
}

#[tactic(auto, using(crate::proofs::Texts::title_is_utf8))]
pub fn title_text(title: &Title) -> &str
    ensures { result.now ≡ title.now }
{
    readable(title.as_bytes())
}

#[tactic(auto, using(crate::proofs::Texts::gtin_is_utf8))]
pub fn gtin_text(gtin: &Gtin) -> &str
    ensures { result.now ≡ gtin.now }
{
    readable(gtin.as_bytes())
}

#[tactic(auto, using(crate::proofs::Texts::lot_is_utf8))]
pub fn lot_text(lot: &Lot) -> &str
    ensures { result.now ≡ lot.now }
{
    readable(lot.as_bytes())
}
