//! A database in which nothing is yet: its first page, and one that is kept in memory.
#![tactic(auto)]

pub mod first_page;
mod in_memory;
mod memory_file;

pub use in_memory::{Honest, open_in_memory};
pub use memory_file::MemoryFile;
