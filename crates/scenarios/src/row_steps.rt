//! Steps over the tables: rows, queries, and statements of another program.

use crate::place::{lined, signs_read};
use crate::told::Told;
use book_trials::{QUERIES, shown};
use sqlite::{Alter, Connection};
use std::alloc::Global;

// What reads the rows of the table.
fn query_of(table: &str) -> Option<&'static str> {
    for query in QUERIES.as_slice() {
        if let Some((_, rest)) = query.split_once(" FROM ") {
            if let Some((own, _)) = rest.split_once(" ") {
                if own == table {
                    return Some(*query);
                }
            }
        }
    }
    None
}

// The query gives these rows, with `; ` between them; or `none`.
fn gives<S: Alter>(
    alloc: Global,
    conn: &mut Connection<S>,
    query: &str,
    rows: &str,
    told: &mut Told,
) -> bool {
    let expected = match rows {
        "none" => Some(String::new(alloc)),
        rows => lined(alloc, rows, "; "),
    };
    match (shown(alloc, conn, query), expected) {
        (Some(found), Some(expected)) => {
            told.note(found.as_bytes());
            found.as_str() == expected.as_str()
        }
        _ => false,
    }
}

/// `TABLE => ROWS`: the rows by the table's key.
pub fn has_rows<S: Alter>(
    alloc: Global,
    conn: &mut Connection<S>,
    text: &str,
    told: &mut Told,
) -> bool {
    let (table, rows) = text.split_once(" => ").unwrap_or((text, ""));
    match query_of(table) {
        Some(query) => gives(alloc, conn, query, rows, told),
        None => false,
    }
}

/// Executes statements.
pub fn executes<S: Alter>(alloc: Global, conn: &mut Connection<S>, text: &str) -> bool {
    match signs_read(alloc, text) {
        Some(text) => conn.execute_batch(text.as_str()).is_ok(),
        None => false,
    }
}

/// Statements; or a query and its rows.
pub fn sql<S: Alter>(alloc: Global, conn: &mut Connection<S>, text: &str, told: &mut Told) -> bool {
    match text.split_once(" => ") {
        Some((query, rows)) => gives(alloc, conn, query, rows, told),
        None => executes(alloc, conn, text),
    }
}
