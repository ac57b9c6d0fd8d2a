//! The work of the program's lines with the books in a file of the host, and with their acts in another.
#![tactic(auto)]

mod acts_file;
mod first_page;
mod host_files;
mod left;
mod line;
mod opening;
mod path_files;
mod program;
mod streams;

pub use first_page::is_ready;
pub use host_files::{HostFile, HostFiles};
pub use left::{FilesLeft, LineLeft, NoActs};
pub use line::{InFiles, line_worked};
pub use opening::NotOpened;
pub use path_files::LockFiles;
pub use program::{NoWords, run_words, words_given};
