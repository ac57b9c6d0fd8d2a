//! Books of 2026-05-04.

use books_schema::ready_connection::Orderly;
use label::{BusinessDay, Day};
use sqlite::{Alter, Connection};
use std::alloc::Global;
use store::Books;

/// The day of the books: 2026-05-04.
pub fn first_day() -> Option<BusinessDay> {
    let day = Day::parse(b"2026-05-04")?;
    BusinessDay::new(day)
}

/// New books of that day.
pub fn new_books<S: Alter + Drop>(alloc: Global, conn: Connection<S>) -> Option<Books<S>> {
    match (conn.is_autocommit(), first_day()) {
        (true, Some(day)) => Books::create(alloc, conn, day).ok(),
        _ => None,
    }
}

/// The books that are there.
pub fn opened_books<S: Orderly + Drop>(alloc: Global, conn: Connection<S>) -> Option<Books<S>> {
    match conn.is_autocommit() {
        true => Books::open(alloc, conn).ok(),
        false => None,
    }
}

/// The connection of books of that day.
pub fn closed<S: Alter + Drop>(books: Books<S>) -> Option<Connection<S>> {
    let day = books.day();
    let conn = books.close();
    match day.text().as_slice() == b"2026-05-04".as_slice() {
        true => Some(conn),
        false => None,
    }
}
