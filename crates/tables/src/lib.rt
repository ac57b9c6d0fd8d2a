//! The tables of the books, one call for each statement.
#![tactic(auto)]

pub mod bins;
pub mod cards;
pub mod goods_texts;
pub mod history_texts;
pub mod items;
pub mod least;
pub mod lines;
pub mod lots;
pub mod meta;
pub mod order_texts;
pub mod orders;
pub mod recalls;
pub mod repeats;
pub mod reserved;
pub mod shiplines;
pub mod shipments;
pub mod staged;
pub mod stock;
pub mod urgents;
