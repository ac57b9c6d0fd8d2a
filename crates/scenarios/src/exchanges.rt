//! Steps over a house: requests and their answers.

use crate::place::{At, Beside, End, end_of, house_at, signs_read};
use crate::told::Told;
use book_trials::{Exchange, acts_on_each};
use books_schema::ready_connection::Orderly;
use house::House;
use sqlite::Alter;
use std::alloc::Global;

// The status and the body of an answer.
fn short_of(alloc: Global, found: &str) -> Option<String> {
    let (head, body) = found.split_once("\r\n\r\n").unwrap_or((found, ""));
    let status = head.get(9..12).unwrap_or(head);
    format!(in alloc; "{status} {body}").ok()
}

fn note_answer(alloc: Global, found: &str, told: &mut Told) {
    if let Some(text) = short_of(alloc, found) {
        told.note(text.as_bytes());
    }
}

// The answer is this, or, where the request may have acted before, the answer again; or the disk failed.
fn judged(beside: Beside<'_>, found: &str, exchange: &Exchange, told: &mut Told) -> End {
    if found == exchange.told.as_str() || beside.is_again && found == exchange.again.as_str() {
        return End::So;
    }
    note_answer(beside.alloc(), found, told);
    match found.starts_with("HTTP/1.1 503 ") {
        true => End::Failed,
        false => End::Other,
    }
}

fn exchanged<S: Alter>(
    beside: Beside<'_>,
    house: &mut House<S>,
    line: &str,
    told: &mut Told,
) -> End {
    let Some(exchange) = Exchange::of_line(beside.alloc(), line) else {
        told.note(b"no exchange");
        return End::Other;
    };
    let found = house.answer(exchange.asked.as_bytes());
    match std::str::from_utf8(found.as_bytes()) {
        Ok(found) => judged(beside, found, &exchange, told),
        Err(_) => End::Other,
    }
}

// Whether the answer is this, whole or its status and its body.
fn is_answer(alloc: Global, found: &str, expected: &str) -> bool {
    match short_of(alloc, found) {
        Some(short) => found == expected || short.as_str() == expected,
        None => false,
    }
}

// `TEXT => TEXT`: any text that is sent, and the answer.
fn is_raw<S: Alter>(alloc: Global, house: &mut House<S>, text: &str, told: &mut Told) -> bool {
    let (asked, expected) = text.split_once(" => ").unwrap_or((text, ""));
    let (Some(asked), Some(expected)) = (signs_read(alloc, asked), signs_read(alloc, expected))
    else {
        return false;
    };
    let found = house.answer(asked.as_bytes());
    told.note(found.as_bytes());
    match std::str::from_utf8(found.as_bytes()) {
        Ok(found) => is_answer(alloc, found, expected.as_str()),
        Err(_) => false,
    }
}

// `COUNT ACT EXCHANGE`: an exchange about each of so many numbers, from this act on.
fn are_times<S: Alter>(alloc: Global, house: &mut House<S>, text: &str) -> bool {
    let Some((count, rest)) = text.split_once(" ") else {
        return false;
    };
    let Some((first, line)) = rest.split_once(" ") else {
        return false;
    };
    match (count.parse::<u64>(), first.parse::<u64>()) {
        (Ok(count), Ok(first)) => acts_on_each(alloc, house, line, count, first),
        _ => false,
    }
}

fn asked<S: Alter>(beside: Beside<'_>, house: &mut House<S>, text: &str, told: &mut Told) -> End {
    let alloc = beside.alloc();
    let (first, rest) = text.split_once(" ").unwrap_or((text, ""));
    match first {
        "raw" => end_of(is_raw(alloc, house, rest, told)),
        "times" => end_of(are_times(alloc, house, rest)),
        _ => exchanged(beside, house, text, told),
    }
}

/// A step over a house, which is opened where there is none.
pub fn ask<S: Orderly + Drop>(
    beside: Beside<'_>,
    at: At<S>,
    text: &str,
    told: &mut Told,
) -> (At<S>, End) {
    match house_at(beside.alloc(), at) {
        At::House(house) => {
            let mut house = house;
            let end = asked(beside, &mut house, text, told);
            (At::House(house), end)
        }
        other => {
            told.note(b"no books");
            (other, End::Failed)
        }
    }
}
