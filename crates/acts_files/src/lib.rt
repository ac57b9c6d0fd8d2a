//! A file that keeps the acts of books: a line each, as the history is printed.
#![tactic(auto)]

mod acts_file;
mod beside;
mod fault;
mod few_lines;
mod keeping;
pub mod laws;
mod newer;
mod opening;
mod torn;

pub use acts_file::ActsFile;
pub use beside::first_line;
pub use fault::ActsFault;
pub use few_lines::FewLines;
pub use keeping::{append, cut_to};
pub use opening::{NotOpened, open_beside};
