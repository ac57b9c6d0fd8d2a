//! The serving of a port, and the work of the lines with books that are made or opened, wherever the books are kept.
#![tactic(auto)]

mod acts_text;
mod books_lines;
mod fault;
mod goods_file;
mod lent;
mod line_opening;
mod lot_texts;
mod port;
mod serve;
mod timed;

pub use acts_text::open_and_print_acts;
pub use books_lines::{Sheet, open_and_print};
pub use goods_file::import_books;
pub use line_opening::{AfterWork, NotBegun, fault_of_books, make_books, open_books};
pub use lot_texts::{print_card, print_notice};
pub use port::serve_books;
pub use serve::{Stopped, serve_kept, serve_logged, serve_on};
