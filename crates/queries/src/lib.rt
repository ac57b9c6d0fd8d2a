//! Queries: the rows by which something is shown, read from the tables by seeks, and what is shown of them.
#![tactic(auto)]

mod all_open;
mod by_item;
mod by_order;
mod query;
mod reading;
mod shipline;
mod shipped;
mod shown_acts;
mod shown_bin;
mod shown_books;
mod shown_expiring;
mod shown_figures;
mod shown_heads;
mod shown_names;
mod shown_notice;
mod shown_open;
mod shown_orders;
mod shown_picks;
mod shown_shorts;
mod shown_stock;
mod shown_trace;
mod traced;

pub use query::Query;
pub use shown_acts::ActsQuery;
pub use shown_bin::BinQuery;
pub use shown_books::BooksQuery;
pub use shown_expiring::ExpiringQuery;
pub use shown_figures::FiguresQuery;
pub use shown_heads::CardHeadQuery;
pub use shown_names::ItemNamesQuery;
pub use shown_notice::{NoticeQuery, NoticeRows};
pub use shown_open::OpenQuery;
pub use shown_orders::OrderQuery;
pub use shown_picks::PicksQuery;
pub use shown_shorts::ShortQuery;
pub use shown_stock::StockQuery;
pub use shown_trace::{TraceQuery, TraceRows};
