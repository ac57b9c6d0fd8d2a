//! The rows that a command is decided by, read by seeks, from memory where they are known.
#![tactic(auto)]

mod day_items;
mod followed;
mod knowing;
mod known_change;
mod known_followed;
mod known_goods;
mod known_lists;
mod known_orders;
mod known_read;
mod one_table;
mod order_filled;
mod order_slices;
mod picks;
mod rows_known;
mod shipments;
mod slice_rows;
mod slices;
mod sought;
mod sought_rows;
mod urgent_orders;

pub use followed::Followed;
pub use knowing::{Bounds, Known};
pub use known_followed::{
    known_meta, seek_reserved, seek_reserved_for, seek_staged, seek_staged_for, seek_stock,
    seek_stock_of, seek_stock_of_lots,
};
pub use known_goods::{
    seek_bin, seek_bins, seek_item, seek_items, seek_least, seek_least_of, seek_lot, seek_lots,
    seek_lots_of, seek_recalls, seek_recalls_of,
};
pub use known_lists::{seek_lines, seek_order, seek_orders, seek_urgents};
pub use known_orders::read_known_orders;
pub use one_table::{line_row, meta_row};
pub use order_slices::add_line;
pub use rows_known::RowsKnown;
pub use slices::read_slice;
pub use sought::{seek_all_known, seek_known};
pub use sought_rows::{read_row, read_rows, seek_all, seek_both};
pub use urgent_orders::read_urgents;
