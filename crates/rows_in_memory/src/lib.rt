//! Rows and names in memory: which a command names, which orders may be open, and what was sought.
#![tactic(auto)]

pub mod command_names;
pub mod day_opening;
mod item_list;
pub mod item_rows;
pub mod key_list;
mod keyed;
mod known;
mod known_lists;
mod line_keys;
mod lines;
mod lists;
mod lot_list;
pub mod lot_names;
pub mod lots_held;
mod name_list;
mod name_set;
pub mod order_names;
pub mod order_rows;
pub mod urgent_rows;

pub use keyed::{ExactKey, KeyedRow};
pub use known::{KnownRows, WEIGHT_MAX};
pub use line_keys::LineKey;
pub use lines::OpenLines;
