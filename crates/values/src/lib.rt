//! The values that labels and commands are made of: GTINs, lots, names, titles, quantities, and the
//! faults of labels; texts and lots as keys in an order. Every value keeps its characters in place
//! and takes no memory.
#![tactic(auto)]

mod digits;
mod fault;
mod gtin;
mod lot;
mod lot_key;
mod name;
mod quantities;
mod text;
mod text_key;
mod title;

pub use digits::{are_digits, written_number};
pub use fault::LabelFault;
pub use gtin::Gtin;
pub use lot::{LOT_MAX, Lot, LotId};
pub use lot_key::LotKey;
pub use name::{NAME_MAX, Name};
pub use quantities::{
    Bounded, Counted, Delta, LEAST_DAYS_MAX, LINE_MAX, LeastDays, LineNo, QTY_MAX, Qty,
};
pub use text::Text;
pub use text_key::TextKey;
pub use title::{TITLE_MAX, Title};
