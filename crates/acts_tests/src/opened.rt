//! Files that are opened beside books: whole, with a tail that a stop leaves, of other books, of older and of newer ones.

use crate::books::{Trial, act, in_memory, is_so};
use crate::history::{ALL, line_at, lines, part};
use acts_files::ActsFault;
use histories::LINE_MAX;
use sqlite::Alter;
use std::alloc::Global;
use std::process::Abort;
use store::Books;

// Cases, a line each, by the number of acts that the books have: `ACTS|LINES|BYTES|FROM => END`. The file has so many of the first
// lines, these bytes, and all lines behind so many. It is made whole, it differs from an act, or the books lack one. Signs stand
// for a tab, a line feed, a carriage return and a zero.

// What a stop leaves: the file then has the lines of all acts.
static TORN: &str = r#"0|0||10 => whole
0|0|1␉2026-05-04␉K/K-1␉ITEM|10 => whole
4|4|5␉2026-05-04␉K/K-5␉ORD|10 => whole
10|0||10 => whole
10|4|5␉2026-05-04␉K/K-5␉ORD|10 => whole
10|4|␀|10 => whole
10|4|␀␀␀␀␀␀␀␀␀␀␀␀␀␀␀␀|10 => whole
10|10|␀␀␀␀␀␀␀␀␀␀␀␀␀␀␀␀|10 => whole
10|4|5␉2026-05-04␀␀␀␀␀␀␀␀␀|10 => whole
10|10|11␉2026-05-05␉K/K-11␉RECALL␉09506000134352␉L2|10 => whole
10|10|1␀␀␀␀␀␀␀|10 => whole"#;

// What no stop leaves, and the file is as it was: books of fewer acts than the file; other books; a line that is left out, doubled
// or without its end; other line ends, and lines with nothing in them; what is no part of the line of the next act; small files
// of another kind; another number, day, key or word.
static OTHER: &str = r#"0|1||10 => lacks 1
4|10||10 => lacks 5
4|5|6␉2026-05-05␉K/K-6␉OPEN|10 => lacks 5
9|10||10 => lacks 10
10|0|1␉2026-05-04␉K/K-1␉ITEM␉04012345000016␉Rye bread␊|1 => differs 1
10|4|5␉2026-05-04␉K/K-5␉ORDER␉S-1␉Corner Shop␉09506000134352␉13␊|5 => differs 5
10|9|10␉2026-05-05␉K/K-10␉RECALL␉09506000134352␉L1␊|10 => differs 10
10|2||3 => differs 3
10|3||2 => differs 4
10|10||9 => differs 11
10|1|2␉2026-05-04␉K/K-2␉BIN␉A-01␉STORE|2 => differs 2
10|1|2␉2026-05-04␉K/K-2␉BIN␉A-01␉STORE␍␊|2 => differs 2
10|0|␊|0 => differs 1
10|10|␊|10 => differs 11
10|10|10␉2026-05-05␉K/K-10␉RECALL␉09506000134352␉L2|10 => differs 11
10|10|␍|10 => differs 11
10|0|1␉2026-05-04␉K/OTHER␉ITEM|10 => differs 1
10|0|{"port": 8090}|10 => differs 1
10|0|[Unit]␊Description=stock␊|10 => differs 1
10|4|␀␀␀␀␀␀␀␀␊|10 => differs 5
10|2|03␉2026-05-04␉D/D-1/1␉RECEIVE␉09506000134352␉L1␉2026-06-30␉A-01␉10␊|3 => differs 3
10|5|6␉2026-05-04␉K/K-6␉OPENDAY␉2026-05-05␊|6 => differs 6
10|6|7␉2026-05-04␉K/K-7␉PICK␉S-1␉09506000134352␉L2␉A-01␉10␊|7 => differs 7
10|7|8␉2026-05-05␉D/K-8␉SHIP␉S-1␊|8 => differs 8
10|7|8␉2026-05-05␉K/K-8␉SHIP␉S-1␉␊|8 => differs 8
10|7|8␉2026-05-05␉K/K-8␉SHIP␊|8 => differs 8"#;

// The text with what its signs stand for.
fn unmarked(rt: &impl Abort, alloc: Global, text: &str) -> String {
    let text = text.replace(alloc, '␉', "\t").ok().expect(rt, "memory");
    let text = text.replace(alloc, '␊', "\n").ok().expect(rt, "memory");
    let text = text.replace(alloc, '␍', "\r").ok().expect(rt, "memory");
    text.replace(alloc, '␀', "\0").ok().expect(rt, "memory")
}

fn number(rt: &impl Abort, text: &str) -> usize {
    text.parse().ok().expect(rt, "a number")
}

/// A file, and books of the acts of the first lines.
#[derive(Drop)]
struct Case {
    acts: usize,
    file: Vec<u8>,
    /// Why it is not opened.
    fault: Option<ActsFault>,
}

fn fault_of(rt: &impl Abort, end: &str) -> Option<ActsFault> {
    let (word, act) = end.split_once(" ")?;
    let act = number(rt, act) as u64;
    match word {
        "lacks" => Some(ActsFault::Lacks(act)),
        _ => Some(ActsFault::Differs(act)),
    }
}

fn case_of(rt: &impl Abort, alloc: Global, line: &str) -> Case {
    let (case, end) = line.split_once(" => ").expect(rt, "two parts");
    let (acts, rest) = case.split_once("|").expect(rt, "four fields");
    let (first, rest) = rest.split_once("|").expect(rt, "four fields");
    let (bytes, from) = rest.split_once("|").expect(rt, "four fields");
    let bytes = unmarked(rt, alloc, bytes);
    let mut file: Vec<u8> = Vec::new(alloc);
    let (front, behind) = (part(0, number(rt, first)), part(number(rt, from), ALL));
    for piece in [front, bytes.as_bytes(), behind] {
        assert!(rt; file.extend_from_slice(piece).is_ok());
    }
    Case {
        acts: number(rt, acts),
        file,
        fault: fault_of(rt, end),
    }
}

// The file then has the lines of so many acts; or it is not opened, for this cause.
fn end_of(acts: usize, fault: Option<ActsFault>) -> Result<&'static [u8], ActsFault> {
    match fault {
        None => Ok(part(0, acts)),
        Some(fault) => Err(fault),
    }
}

/// Tries each beside books that come to its acts: no case has fewer than the one before.
pub(crate) fn are_opened<S: Alter>(
    rt: &impl Abort,
    alloc: Global,
    books: &mut Books<S>,
    cases: &str,
) {
    let mut had = 0;
    for line in cases.lines() {
        let Case { acts, file, fault } = case_of(rt, alloc, line);
        act(rt, alloc, books, part(had, acts));
        had = acts;
        is_so(rt, alloc, books, file.as_slice(), end_of(acts, fault));
    }
}

/// The file has the lines up to each byte. The whole lines are held, and the part behind them is cut. A whole line of an act
/// that the books lack is not.
pub(crate) fn is_cut_at_each_byte<S: Alter>(rt: &impl Abort, alloc: Global, books: &mut Books<S>) {
    let mut had = 0;
    for acts in [0, 4, ALL] {
        act(rt, alloc, books, part(had, acts));
        had = acts;
        let own = part(0, acts).len();
        let next = part(0, acts.saturating_add(1));
        for size in 0..=next.len() {
            let is_more = own < size && size == next.len();
            let fault = is_more.then_some(ActsFault::Lacks(line_at(own)));
            is_so(rt, alloc, books, &next[..size], end_of(acts, fault));
        }
    }
}

// The text, of which the byte at this place is another.
fn changed(rt: &impl Abort, alloc: Global, text: &[u8], at: usize) -> Vec<u8> {
    let mut bytes = text.to_vec(alloc).expect(rt, "memory");
    match bytes.get_mut(at) {
        Some(byte) => *byte ^= 1,
        None => panic!(rt; "no byte"),
    }
    bytes
}

/// Each byte of the file is another: its line differs, and nothing is changed.
pub(crate) fn bytes_are_changed<S: Alter>(rt: &impl Abort, alloc: Global, books: &mut Books<S>) {
    let text = lines();
    act(rt, alloc, books, text);
    for at in 0..text.len() {
        let fault = Err(ActsFault::Differs(line_at(at)));
        let file = changed(rt, alloc, text, at);
        is_so(rt, alloc, books, file.as_slice(), fault);
    }
}

/// So many lines, and a tail of so many bytes without an end.
#[derive(Clone, Copy)]
struct Tail {
    lines: usize,
    byte: u8,
    size: usize,
}

impl Tail {
    fn file(&self, rt: &impl Abort, alloc: Global) -> Vec<u8> {
        let mut file = part(0, self.lines).to_vec(alloc).expect(rt, "memory");
        for _ in 0..self.size {
            assert!(rt; file.push(self.byte).is_ok());
        }
        file
    }
}

// Tails behind so many lines, and whether they are cut: behind the lines of all acts zeros are that are fewer than the longest
// line may have.
fn tails_are_told<S: Alter>(
    rt: &impl Abort,
    alloc: Global,
    books: &mut Books<S>,
    lines: usize,
    acts: usize,
) {
    let misfit = ActsFault::Differs((lines as u64).saturating_add(1));
    for (byte, size) in [
        (0, LINE_MAX - 1),
        (b'x', LINE_MAX - 1),
        (0, LINE_MAX),
        (b'x', LINE_MAX),
        (0, 100_000),
    ] {
        let is_cut = lines == acts && byte == 0 && size < LINE_MAX;
        let file = Tail { lines, byte, size }.file(rt, alloc);
        let fault = (!is_cut).then_some(misfit);
        is_so(rt, alloc, books, file.as_slice(), end_of(acts, fault));
    }
}

/// Long tails stand behind none, some and all of the lines of the books.
pub(crate) fn tails_are_long<S: Alter>(rt: &impl Abort, alloc: Global, books: &mut Books<S>) {
    tails_are_told(rt, alloc, books, 0, 0);
    act(rt, alloc, books, part(0, 4));
    for lines in [4, 2, 0] {
        tails_are_told(rt, alloc, books, lines, 4);
    }
}

#[test]
fn a_tail_that_a_stop_leaves_is_cut(rt: HostRuntime) {
    in_memory(&rt, rt.alloc(), Trial::Opened(TORN));
}

#[test]
fn a_file_of_other_books_is_not_opened(rt: HostRuntime) {
    in_memory(&rt, rt.alloc(), Trial::Opened(OTHER));
}

#[test]
fn a_file_is_cut_at_each_byte(rt: HostRuntime) {
    in_memory(&rt, rt.alloc(), Trial::Cut);
}

#[test]
fn each_byte_of_a_file_is_another(rt: HostRuntime) {
    in_memory(&rt, rt.alloc(), Trial::Bytes);
}

#[test]
fn a_long_tail_is_not_cut(rt: HostRuntime) {
    in_memory(&rt, rt.alloc(), Trial::Tails);
}
