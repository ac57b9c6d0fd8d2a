//! The tests of what needs no connection: goods-in files and requests of others, a label and days, the lines of a card and of a
//! log, what is told of a line's end, and how much is kept of rows that are known.
#![tactic(auto)]

#[cfg(test)]
mod asked;
#[cfg(test)]
mod cards;
#[cfg(test)]
mod ends;
#[cfg(test)]
mod files;
#[cfg(test)]
mod known;
#[cfg(test)]
mod labels;
#[cfg(test)]
mod logs;
