use crate::Day;
use values::{Gtin, Lot};

/// What a label says: Application Identifiers 01 (GTIN), 10 (batch or lot) and 17 (expiration
/// date).
#[derive(Clone, Copy, PartialEq, Eq, Debug)]
pub struct Label {
    pub gtin: Gtin,
    pub lot: Lot,
    pub expiry: Day,
}

/// The byte that ends a lot which is not last in its label: FNC1 as readers transmit it, `GS`.
pub(crate) const SEPARATOR: u8 = 29;
