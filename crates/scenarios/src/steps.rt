//! The steps of a scenario over one connection.

use crate::exchanges::ask;
use crate::lines::{line, note, run_over, text_of, words};
use crate::place::{At, Beside, End, closed_at, end_of};
use crate::row_steps::{executes, has_rows, sql};
use crate::told::Told;
use book_trials::Came;
use books_schema::ready_connection::{Leftover, Orderly};
use sqlite::Connection;

const MAKE: &str = "init --day 2026-05-04 => 0";

const MAKE_NONE: &str = "init --day 2026-05-04 => 1 lotd: foreign books";

const OPEN: &str = "history";

const OPEN_NONE: &str = "history => 1 lotd: foreign books";

const AUDIT_FROM: &str = "audit --day 2026-05-04";

/// The line of an audit.
pub const AUDIT: &str = "audit";

// Whether a line told or printed one of these, parted by ` or `.
fn is_one_of(found: &[u8], expected: &str) -> bool {
    let Some(line) = found.strip_suffix(b"\n".as_slice()) else {
        return false;
    };
    for words in expected.split(" or ") {
        if line == words.as_bytes() {
            return true;
        }
    }
    false
}

fn audit<S: Orderly + Drop>(
    beside: Beside<'_>,
    at: At<S>,
    words: &str,
    expected: &str,
    told: &mut Told,
) -> (At<S>, bool) {
    match at {
        At::Left(Leftover::Connection(conn)) => match run_over(beside, conn, words) {
            (at, Some(came)) => {
                note(beside.alloc(), &came, told);
                let is_so = is_one_of(text_of(&came), expected);
                (at, is_so)
            }
            (at, None) => (at, false),
        },
        other => (other, false),
    }
}

// `=> TEXT`, or `SQL => TEXT`: an audit that is given the first day, and one that finds it, tell this, after the statements.
fn audits<S: Orderly + Drop>(
    beside: Beside<'_>,
    conn: Connection<S>,
    text: &str,
    told: &mut Told,
) -> (At<S>, End) {
    let mut conn = conn;
    let (change, expected) = text.split_once("=> ").unwrap_or((text, ""));
    if !change.is_empty() && !executes(beside.alloc(), &mut conn, change) {
        told.note(b"the statement fails");
        return (At::Left(Leftover::Connection(conn)), End::Failed);
    }
    let at = At::Left(Leftover::Connection(conn));
    let (at, is_from) = audit(beside, at, AUDIT_FROM, expected, told);
    if !is_from {
        return (at, End::Failed);
    }
    let (at, is_so) = audit(beside, at, AUDIT, expected, told);
    (at, end_of(is_so))
}

/// What a line over the books prints, where it ends well.
pub fn whole_line<S: Orderly + Drop>(
    beside: Beside<'_>,
    conn: Connection<S>,
    words: &str,
    told: &mut Told,
) -> (At<S>, Option<Vec<u8>>) {
    match run_over(beside, conn, words) {
        (at, Some(came)) => {
            note(beside.alloc(), &came, told);
            let Came {
                status,
                printed,
                ..
            } = came;
            match status {
                0 => (at, Some(printed)),
                _ => (at, None),
            }
        }
        (at, None) => (at, None),
    }
}

fn open<S: Orderly + Drop>(
    beside: Beside<'_>,
    conn: Connection<S>,
    told: &mut Told,
) -> (At<S>, End) {
    let (at, found) = whole_line(beside, conn, OPEN, told);
    (at, end_of(found.is_some()))
}

// Books are made, unless they were before.
fn make<S: Orderly + Drop>(
    beside: Beside<'_>,
    conn: Connection<S>,
    told: &mut Told,
) -> (At<S>, End) {
    if !beside.is_again {
        return line(beside, conn, MAKE, told);
    }
    match line(beside, conn, MAKE, told) {
        (At::Left(Leftover::Connection(conn)), End::Other) => open(beside, conn, told),
        other => other,
    }
}

fn word<S: Orderly + Drop>(
    beside: Beside<'_>,
    conn: Connection<S>,
    word: &str,
    told: &mut Told,
) -> (At<S>, End) {
    match word {
        "make" => make(beside, conn, told),
        "make none" => line(beside, conn, MAKE_NONE, told),
        "open" => open(beside, conn, told),
        "open none" => line(beside, conn, OPEN_NONE, told),
        _ => {
            told.note(b"no such step");
            (At::Left(Leftover::Connection(conn)), End::Other)
        }
    }
}

fn on_connection<S: Orderly + Drop>(
    beside: Beside<'_>,
    conn: Connection<S>,
    text: &str,
    told: &mut Told,
) -> (At<S>, End) {
    let alloc = beside.alloc();
    let mut conn = conn;
    let (first, rest) = text.split_once(" ").unwrap_or((text, ""));
    match first {
        "sql" => {
            let is_so = sql(alloc, &mut conn, rest, told);
            (At::Left(Leftover::Connection(conn)), end_of(is_so))
        }
        "rows" => {
            let is_so = has_rows(alloc, &mut conn, rest, told);
            (At::Left(Leftover::Connection(conn)), end_of(is_so))
        }
        "line" => line(beside, conn, rest, told),
        "audit" => audits(beside, conn, rest, told),
        _ => word(beside, conn, text, told),
    }
}

/// A step, and how it ended.
pub fn step<S: Orderly + Drop>(
    beside: Beside<'_>,
    at: At<S>,
    text: &str,
    told: &mut Told,
) -> (At<S>, End) {
    let (first, rest) = text.split_once(" ").unwrap_or((text, ""));
    match first {
        "GET" | "POST" | "raw" | "times" => ask(beside, at, text, told),
        "words" => (at, words(beside, rest, told)),
        _ => match closed_at(at) {
            At::Left(Leftover::Connection(conn)) => on_connection(beside, conn, text, told),
            other => (other, End::Failed),
        },
    }
}
