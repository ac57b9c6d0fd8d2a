//! What the tests over books share: what is asked and answered as they write it down, a worked history, the two files of the
//! books in memory, the rows of the tables, and lines of the program over one connection.
//!
//! Nothing here ends a test. It tells what it found, and the test judges that. `None` is told too where there is no memory.
#![tactic(auto)]

mod dice;
mod ends;
mod exchange;
mod files;
mod history;
mod lines;
mod opening;
mod over_files;
mod ports;
mod random_acts;
mod rows;
mod spread;

pub use dice::Dice;
pub use ends::{Receiver, Sender};
pub use exchange::{Exchange, answer, text_asked, text_told};
pub use files::{Failures, Loss, Pair, Stopping, Stored};
pub use history::History;
pub use lines::{Came, run_line};
pub use opening::{closed, first_day, new_books, opened_books};
pub use over_files::{Work, after_work};
pub use ports::free_port;
pub use random_acts::random_requests;
pub use rows::{QUERIES, shown};
pub use spread::{Spread, acts_on_each, line_of, of_act, of_numbers};
