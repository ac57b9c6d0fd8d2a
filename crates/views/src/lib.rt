//! What queries show, from the rows of the tables.
#![tactic(auto)]

mod bin_lots;
mod bins;
mod expiring;
mod figures;
mod found_rows;
mod item_names;
mod item_shorts;
mod least;
mod line_short;
mod lines;
mod lots;
mod open_orders;
mod order;
mod order_shorts;
mod pages;
mod picks;
mod stock;
mod text_order;

pub use bin_lots::{bin_page, bin_view};
pub use bins::bins_of_lot;
pub use expiring::{expiring_page, expiring_view};
pub use figures::figures_view;
pub use item_names::{item_names_view, items_page};
pub use item_shorts::short_view;
pub use open_orders::{ServedOrder, open_orders_view, open_page};
pub use order::order_view;
pub use pages::{front_of, page_of};
pub use picks::picks_view;
pub use stock::stock_view;
