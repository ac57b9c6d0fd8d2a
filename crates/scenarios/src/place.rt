//! Where the steps are, and what a step has beside its line.

use crate::script::Script;
use books_schema::ready_connection::{Leftover, Orderly};
use house::House;
use sqlite::{Alter, Connection};
use std::alloc::Global;
use store::{Books, OpenFault};

/// Where scenarios run, and the text that they stand in.
#[derive(Clone, Copy)]
pub struct Scene<'a> {
    pub host: &'a HostRuntime,
    pub script: &'a Script<'a>,
}

/// What a step has beside its line.
#[derive(Clone, Copy)]
pub struct Beside<'a> {
    pub scene: Scene<'a>,
    /// What a line of the program reads.
    pub input: &'a str,
    /// How many bytes it can print, where its output is to be full.
    pub room: Option<usize>,
    /// It may have been done before, since a call of a disk failed.
    pub is_again: bool,
}

impl Beside<'_> {
    /// Where memory is taken.
    pub fn alloc(self) -> Global {
        self.scene.host.alloc()
    }
}

/// How a step ended.
#[derive(Clone, Copy)]
pub enum End {
    /// As its line says.
    So,
    /// The disk failed, or it is not known whether it did.
    Failed,
    /// Otherwise.
    Other,
}

/// The end of what is so, or is not for all that is known.
pub fn end_of(is_so: bool) -> End {
    match is_so {
        true => End::So,
        false => End::Failed,
    }
}

/// Where the steps are: what is left of the connection, or a house over it.
#[derive(Drop)]
pub enum At<S: Alter> {
    Left(Leftover<S>),
    House(House<S>),
    Lost,
}

/// With the house closed.
pub fn closed_at<S: Alter + Drop>(at: At<S>) -> At<S> {
    match at {
        At::House(house) => At::Left(Leftover::Connection(house.close().close())),
        other => other,
    }
}

/// What is left of the connection.
pub fn left_at<S: Alter + Drop>(at: At<S>) -> Option<Leftover<S>> {
    match closed_at(at) {
        At::Left(left) => Some(left),
        _ => None,
    }
}

fn opened<S: Orderly + Drop>(alloc: Global, conn: Connection<S>) -> At<S> {
    if !conn.is_autocommit() {
        return At::Left(Leftover::Connection(conn));
    }
    match Books::open(alloc, conn) {
        Ok(books) => At::House(House::new(alloc, books)),
        Err(found) => {
            let OpenFault { left, .. } = found;
            At::Left(left)
        }
    }
}

/// A house over the books, opened where there is none.
pub fn house_at<S: Orderly + Drop>(alloc: Global, at: At<S>) -> At<S> {
    match at {
        At::Left(Leftover::Connection(conn)) => opened(alloc, conn),
        other => other,
    }
}

/// The text, where U+2420, U+240A, U+240D and U+241D stand for a space, a line feed, a carriage return and the separator.
pub fn signs_read(alloc: Global, text: &str) -> Option<String> {
    let text = text.replace(alloc, '␠', " ").ok()?;
    let text = text.as_str().replace(alloc, '␊', "\n").ok()?;
    let text = text.as_str().replace(alloc, '␍', "\r").ok()?;
    text.as_str().replace(alloc, '␝', "\x1d").ok()
}

/// Each of the lines with its end.
pub fn lined(alloc: Global, text: &str, between: &str) -> Option<String> {
    let mut lines = String::new(alloc);
    for line in text.split(between) {
        lines.push_str(line).ok()?;
        lines.push_str("\n").ok()?;
    }
    Some(lines)
}
