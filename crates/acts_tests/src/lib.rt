//! The tests of the file of the acts, beside books in memory: a disk that stops, tails that a stop leaves, files of other
//! books, of older and of newer ones, and goods-in files. And how many statements an act of the books runs.
#![tactic(auto)]

#[cfg(test)]
mod acting;
#[cfg(test)]
mod books;
#[cfg(test)]
mod counting;
#[cfg(test)]
mod disk;
#[cfg(test)]
mod fails;
#[cfg(test)]
mod filed;
#[cfg(test)]
mod history;
#[cfg(test)]
mod memory;
#[cfg(test)]
mod opened;
#[cfg(test)]
mod statements;
#[cfg(test)]
mod stops;
#[cfg(test)]
mod torn;
