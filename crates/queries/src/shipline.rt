//! The line of a shipment that a line of a stock card is of.

ghost use Rattle.std.specs.Prelude.{◌≡◌, ◌≤◌, ◌<◌, ◌^◌, ℕ, Some, decimal};
ghost use Rattle.commands.specs.declared.limits.TheConstants.{ACTS_MAX};
ghost use Rattle.commands.specs.declared.rows.ShiplineRow.{ShiplineRow as Line};
ghost use Rattle.queries.specs.Shipped.{IsLineOf};

use commands::limits::ACTS_MAX;
use commands::{CardRow, ShiplineRow};

/// The line of the shipment that this line of a card is of: the card refers to the shipment by its number, and the units
/// went. `None` where the reference is no number of a shipment or units came, as in no books.
pub(crate) fn shipline_of(card: &CardRow) -> Option<ShiplineRow>
    ensures { (s : Line) → s.number ≤ ACTS_MAX → IsLineOf card.now s → result ≡ Some s }
{
    let number = number_of(card.note.as_bytes())?;
    if number > ACTS_MAX || card.qty > 0 {
        return None;
    }
    Some(ShiplineRow {
        number,
        lot: card.lot,
        qty: card.qty.unsigned_abs(),
    })
}

// The number that is printed so, if one is.
pub(crate) fn number_of(text: &[u8]) -> Option<u64>
    ensures { (n : ℕ) → n < 2 ^ 64 → text.now ≡ decimal n → result ≡ Some n }
{
    match str::from_utf8(text) {
        Ok(text) => text.parse().ok(),
        Err(_) => None,
    }
}
