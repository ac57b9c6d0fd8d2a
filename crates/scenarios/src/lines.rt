//! Lines of the program: their words, their exit status, what they print and what they tell.

use crate::handed::NoBooks;
use crate::place::{At, Beside, End, lined, signs_read};
use crate::script::Script;
use crate::told::Told;
use book_trials::{Came, Receiver, run_line};
use books_schema::ready_connection::{Leftover, Orderly};
use command_line::{FilesAt, run};
use sqlite::Connection;
use std::alloc::Global;
use std::io;

/// What a line reads, in whatever file it says.
#[derive(Clone, Copy)]
struct Input<'a> {
    text: &'a str,
}

impl<'a> FilesAt for Input<'a> {
    type File = &'a [u8];

    fn open(&self, _name: &str) -> io::Result<&'a [u8]> {
        Ok(self.text.as_bytes())
    }
}

/// What is printed, or told where nothing is printed.
pub fn text_of(came: &Came) -> &[u8] {
    match came.printed.is_empty() {
        true => came.told.as_slice(),
        false => came.printed.as_slice(),
    }
}

// The words of a line; over books, with the file of the books behind the first.
fn words_of(alloc: Global, text: &str, has_books: bool) -> Option<Vec<String>> {
    let mut words = Vec::new(alloc);
    words.push(String::from_str(alloc, "lotd").ok()?).ok()?;
    if text.is_empty() {
        return Some(words);
    }
    for (at, word) in text.split(" ").enumerate() {
        words.push(signs_read(alloc, word)?).ok()?;
        if at == 0 && has_books {
            words.push(String::from_str(alloc, "--db").ok()?).ok()?;
            words.push(String::from_str(alloc, "stock.db").ok()?).ok()?;
        }
    }
    Some(words)
}

// The words of a line, of which there may be none, and what is behind `=> `.
fn parted<'a>(text: &'a str) -> (&'a str, &'a str) {
    let (asked, expected) = text.split_once("=> ").unwrap_or((text, ""));
    (asked.strip_suffix(" ").unwrap_or(asked), expected)
}

// Where a line prints.
fn paper(beside: Beside<'_>) -> Receiver {
    match beside.room {
        Some(room) => Receiver::failing(beside.alloc(), room),
        None => Receiver::whole(beside.alloc()),
    }
}

/// Runs a line of these words over the books.
pub fn run_over<S: Orderly + Drop>(
    beside: Beside<'_>,
    conn: Connection<S>,
    text: &str,
) -> (At<S>, Option<Came>) {
    let Some(words) = words_of(beside.alloc(), text, true) else {
        return (At::Left(Leftover::Connection(conn)), None);
    };
    let files = Input { text: beside.input };
    let host = beside.scene.host;
    let (left, came) = run_line(host, &files, conn, words.as_slice(), paper(beside));
    match left {
        Some(left) => (At::Left(left), Some(came)),
        None => (At::Lost, Some(came)),
    }
}

// Runs a line of these words, which has no books.
fn run_alone(beside: Beside<'_>, text: &str) -> Option<Came> {
    let alloc = beside.alloc();
    let words = words_of(alloc, text, false)?;
    let mut paper = paper(beside);
    let mut told: Vec<u8> = Vec::new(alloc);
    let books = NoBooks { alloc };
    let (_, status) = run(alloc, books, words.as_slice(), &mut paper, &mut told);
    let Receiver { taken, .. } = paper;
    Some(Came {
        status,
        printed: taken,
        told,
    })
}

// What a line prints: `|LINE|LINE`, or `@PART 1 5`; else it prints nothing.
fn printed(alloc: Global, script: &Script<'_>, text: &str) -> Option<String> {
    if let Some(part) = text.strip_prefix("@") {
        return script.part_lines(alloc, part);
    }
    match text.strip_prefix("|") {
        Some(lines) => lined(alloc, lines, "|"),
        None => Some(String::new(alloc)),
    }
}

// What is printed and what is told of `PRINTED`, `PRINTED ! TOLD` or `TOLD`.
fn both_of<'a>(text: &'a str) -> (&'a str, &'a str) {
    match text.split_once(" ! ") {
        Some(both) => both,
        None if text.starts_with("|") || text.starts_with("@") => (text, ""),
        None => ("", text),
    }
}

// As much of it as there is room for.
fn within<'a>(bytes: &'a [u8], room: Option<usize>) -> &'a [u8] {
    match room {
        Some(room) => bytes.get(..room).unwrap_or(bytes),
        None => bytes,
    }
}

fn is_told(found: &[u8], text: &str) -> bool {
    match found.strip_suffix(b"\n".as_slice()) {
        Some(line) => line == text.as_bytes(),
        None => found.is_empty() && text.is_empty(),
    }
}

// Of `DONE A KNOWN B` and what comes behind: A and B together, and that.
fn tally<'a>(text: &'a str) -> Option<(u64, &'a str)> {
    let (_, rest) = text.split_once(" ")?;
    let (done, rest) = rest.split_once(" ")?;
    let (_, rest) = rest.split_once(" ")?;
    let (known, rest) = rest.split_once(" ").unwrap_or((rest, ""));
    let (done, known): (u64, u64) = (done.parse().ok()?, known.parse().ok()?);
    Some((done.saturating_add(known), rest))
}

// What was done before is known now: both together are as many.
fn adds_up(found: &[u8], expected: &str) -> bool {
    let Ok(found) = std::str::from_utf8(found) else {
        return false;
    };
    match (tally(found.trim_end()), tally(expected.trim_end())) {
        (Some((all, rest)), Some((same, behind))) => all == same && rest == behind,
        _ => false,
    }
}

fn is_printed(beside: Beside<'_>, found: &[u8], text: &str) -> bool {
    match printed(beside.alloc(), beside.scene.script, text) {
        Some(expected) => {
            found == within(expected.as_bytes(), beside.room)
                || beside.is_again && adds_up(found, expected.as_str())
        }
        None => false,
    }
}

// `~PART`: something is printed, or told, but not both, with this in it.
fn has_part(alloc: Global, came: &Came, part: &str) -> bool {
    match (std::str::from_utf8(text_of(came)), signs_read(alloc, part)) {
        (Ok(text), Some(part)) => {
            came.printed.is_empty() != came.told.is_empty() && text.contains(part.as_str())
        }
        _ => false,
    }
}

// `STATUS`, and behind it what is printed and what is told.
fn is_so(beside: Beside<'_>, came: &Came, text: &str) -> bool {
    let (status, rest) = text.split_once(" ").unwrap_or((text, ""));
    let is_ended = status.parse::<u8>().ok() == Some(came.status);
    if let Some(part) = rest.strip_prefix("~") {
        return is_ended && has_part(beside.alloc(), came, part);
    }
    let (paper, line) = both_of(rest);
    is_ended
        && is_printed(beside, came.printed.as_slice(), paper)
        && is_told(came.told.as_slice(), line)
}

/// Notes the exit status, and what is printed or told.
pub fn note(alloc: Global, came: &Came, told: &mut Told) {
    let text = std::str::from_utf8(text_of(came)).unwrap_or("");
    if let Ok(found) = format!(in alloc; "{} {text}", came.status) {
        told.note(found.as_bytes());
    }
}

fn judged(beside: Beside<'_>, came: Option<Came>, expected: &str, told: &mut Told) -> End {
    let Some(came) = came else {
        return End::Other;
    };
    note(beside.alloc(), &came, told);
    match is_so(beside, &came, expected) {
        true => End::So,
        false if came.told.as_slice() == b"lotd: store\n".as_slice() => End::Failed,
        false => End::Other,
    }
}

/// `WORDS => STATUS ..`: a line over the books.
pub fn line<S: Orderly + Drop>(
    beside: Beside<'_>,
    conn: Connection<S>,
    text: &str,
    told: &mut Told,
) -> (At<S>, End) {
    let (asked, expected) = parted(text);
    let (at, came) = run_over(beside, conn, asked);
    (at, judged(beside, came, expected, told))
}

/// `WORDS => STATUS ..`: a line that has no books. What it would do with them is printed.
pub fn words(beside: Beside<'_>, text: &str, told: &mut Told) -> End {
    let (asked, expected) = parted(text);
    judged(beside, run_alone(beside, asked), expected, told)
}
