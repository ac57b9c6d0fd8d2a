//! Texts of acts that are taken in by a line of the program: cut at each byte, behind which the input ends or fails; with a line
//! that is too long; and lines that print into an output that is full.

use crate::deeds::{Deed, Heard, at, books_after, done, heard_of, is_heard, joined};
use book_trials::{History, Pair};
use command_line::Work as LineWork;
use std::process::Abort;
use values::{Gtin, Lot, LotId};

/// The acts of the two customers.
static LINES: &str =
    "1\t2026-05-04\tK/K-1\tITEM\t09506000134352\tOat drink\n2\t2026-05-04\tK/K-2\tITEM\t04012345000016\tRye bread\n3\t2026-05-04\tK/K-3\tBIN\tA-01\tSTORE\n4\t2026-05-04\tK/K-4\tBIN\tA-02\tSTORE\n5\t2026-05-04\tK/K-5\tBIN\tQ-01\tHOLD\n6\t2026-05-04\tD/D-1/1\tRECEIVE\t09506000134352\tL1\t2026-06-30\tA-01\t10\n7\t2026-05-04\tD/D-1/2\tRECEIVE\t09506000134352\tL2\t2026-05-31\tA-01\t10\n8\t2026-05-04\tK/K-8\tORDER\tS-1\tCorner Shop\t09506000134352\t12\n9\t2026-05-04\tK/K-9\tORDER\tS-2\tHarbour Cafe\t09506000134352\t12\n10\t2026-05-04\tD/D-2/1\tRECEIVE\t09506000134352\tL0\t2026-05-10\tA-01\t5\n11\t2026-05-04\tK/K-11\tPICK\tS-1\t09506000134352\tL0\tA-01\t5\n12\t2026-05-04\tK/K-12\tPICK\tS-1\t09506000134352\tL2\tA-01\t7\n13\t2026-05-04\tK/K-13\tSHIP\tS-1\n14\t2026-05-04\tK/K-14\tRECALL\t09506000134352\tL2\n";

/// How many they are.
pub(crate) const ALL: usize = 14;

/// All lines.
pub(crate) fn lines() -> &'static str {
    LINES
}

/// The lines before the first so many bytes.
pub(crate) fn whole_lines(text: &str) -> &str {
    match text.rfind('\n') {
        Some(at) => text.get(..at.saturating_add(1)).unwrap_or(""),
        None => "",
    }
}

/// All acts are printed.
pub(crate) fn history<'a>() -> Deed<'a> {
    Deed::Line(LineWork::History, b"", true, usize::MAX)
}

/// The text is taken in, and behind it the input ends or fails.
pub(crate) fn taken_in(text: &[u8], ends: bool) -> Deed<'_> {
    Deed::Line(LineWork::Apply { file: "-" }, text, ends, usize::MAX)
}

fn tally(host: &HostRuntime, rt: &impl Abort, done: usize, known: usize) -> String {
    let text = format!(in host.alloc(); "applied {done} known {known} beyond 0\n");
    text.ok().expect(rt, "memory")
}

// What is done and what is heard of it: the text is taken in up to each byte in turn, and the history is printed.
fn heard_of_cuts(host: &HostRuntime, rt: &impl Abort, ends: bool) -> Heard {
    let mut deeds = Vec::new(host.alloc());
    assert!(rt; deeds.push(Deed::Make).is_ok());
    for size in 0..=LINES.len() {
        let cut = LINES.get(..size).expect(rt, "a place");
        assert!(rt; deeds.push(taken_in(cut.as_bytes(), ends)).is_ok());
        assert!(rt; deeds.push(history()).is_ok());
    }
    heard_of(host, rt, deeds.as_slice())
}

// What the line of this number printed and told.
fn both<'a>(rt: &impl Abort, heard: &'a Heard, line: usize) -> (&'a [u8], &'a [u8]) {
    let place = line.saturating_mul(2);
    (at(rt, heard, place), at(rt, heard, place.saturating_add(1)))
}

// How many whole lines a text has.
fn count(text: &str) -> usize {
    text.bytes().filter(|byte| *byte == b'\n').count()
}

// The books have the whole lines before each byte, and the part behind them is passed over.
#[test]
fn a_text_is_cut_at_each_byte(rt: HostRuntime) {
    let heard = heard_of_cuts(&rt, &rt, true);
    let mut known = 0;
    for size in 0..=LINES.len() {
        let whole = whole_lines(LINES.get(..size).expect(&rt, "a place"));
        let all = count(whole);
        let tally = tally(&rt, &rt, all.saturating_sub(known), known);
        let (printed, told) = both(&rt, &heard, size.saturating_mul(2));
        assert!(&rt; printed == tally.as_bytes() && told.is_empty(), "{size}");
        let (printed, _) = both(&rt, &heard, size.saturating_mul(2).saturating_add(1));
        assert!(&rt; printed == whole.as_bytes(), "{size}");
        known = all;
    }
    assert!(&rt; known == ALL);
}

// Where the input fails there, that is told, and the books have them too.
#[test]
fn the_input_fails(rt: HostRuntime) {
    let heard = heard_of_cuts(&rt, &rt, false);
    for size in 0..=LINES.len() {
        let whole = whole_lines(LINES.get(..size).expect(&rt, "a place"));
        let (printed, told) = both(&rt, &heard, size.saturating_mul(2));
        assert!(&rt;
            printed.is_empty() && told == b"lotd: io\n".as_slice(),
            "{size}"
        );
        let (printed, _) = both(&rt, &heard, size.saturating_mul(2).saturating_add(1));
        assert!(&rt; printed == whole.as_bytes(), "{size}");
    }
}

/// How many bytes a line may have.
const LINE_MAX: usize = 8_192;

// A line of so many bytes: of an act that reads, but for its title, which is too long.
fn long_line(host: &HostRuntime, rt: &impl Abort, size: usize) -> String {
    let front = "1\t2026-05-04\tK/K-1\tITEM\t09506000134352\t";
    let title = "x"
        .repeat(
            host.alloc(),
            size.saturating_sub(front.len().saturating_add(1)),
        )
        .ok()
        .expect(rt, "memory");
    let line = format!(in host.alloc(); "{front}{title}\n");
    line.ok().expect(rt, "memory")
}

fn is_no_line(host: &HostRuntime, rt: &impl Abort, text: &[u8]) {
    let deeds = [Deed::Make, taken_in(text, true), history()];
    let heard = heard_of(host, rt, deeds.as_slice());
    assert!(rt; is_heard(rt, &heard, 1, "lotd: line 1\n") && at(rt, &heard, 2).is_empty());
}

// A line as long as one may be, longer ones, and one with a byte that is no text: all are told, and nothing is done.
#[test]
fn a_line_is_too_long(rt: HostRuntime) {
    for size in [LINE_MAX - 1, LINE_MAX, LINE_MAX + 1, 2 * LINE_MAX, 100_000] {
        let line = long_line(&rt, &rt, size);
        is_no_line(&rt, &rt, line.as_bytes());
    }
    is_no_line(
        &rt,
        &rt,
        b"1\t2026-05-04\tK/K-1\tITEM\t09506000134352\t\xff\n",
    );
}

static ROW: &[u8] =
    b"delivery,line,gtin,lot,expiry,bin,qty\nD-1,1,09506000134352,L1,260630,A-01,10\n";

/// A line that prints. The file and the text are known to the books.
#[derive(Clone, Copy)]
enum Prints {
    Card,
    Notice,
    History,
    Audit,
    Import,
    Apply,
}

fn lot(rt: &impl Abort) -> LotId {
    LotId {
        gtin: Gtin::new(b"09506000134352").ok().expect(rt, "a GTIN"),
        lot: Lot::new(b"L2").ok().expect(rt, "a lot"),
    }
}

fn import() -> LineWork<'static> {
    LineWork::Import {
        file: "goods.csv",
        acts: None,
    }
}

// The line, into an output that takes so many bytes.
fn printing(rt: &impl Abort, prints: Prints, room: usize) -> Deed<'static> {
    match prints {
        Prints::Card => Deed::Line(LineWork::Card(lot(rt)), b"", true, room),
        Prints::Notice => Deed::Line(LineWork::Notice(lot(rt)), b"", true, room),
        Prints::History => Deed::Line(LineWork::History, b"", true, room),
        Prints::Audit => Deed::Line(LineWork::Audit(None), b"", true, room),
        Prints::Import => Deed::Line(import(), ROW, true, room),
        Prints::Apply => Deed::Line(LineWork::Apply { file: "-" }, LINES.as_bytes(), true, room),
    }
}

// Where there is room for less than all, the line prints as much, and tells that. Then it prints all again.
fn is_full(host: &HostRuntime, rt: &impl Abort, files: &Pair, prints: Prints, all: &[u8]) {
    let mut deeds = Vec::new(host.alloc());
    for room in 0..all.len() {
        assert!(rt; deeds.push(printing(rt, prints, room)).is_ok());
    }
    assert!(rt; deeds.push(printing(rt, prints, usize::MAX)).is_ok());
    let (left, heard) = done(host, rt, files, deeds.as_slice());
    drop(left);
    for room in 0..all.len() {
        let (printed, told) = both(rt, &heard, room);
        assert!(rt; Some(printed) == all.get(..room), "{room}");
        assert!(rt; told == b"lotd: io\n".as_slice(), "{room}");
    }
    let (printed, told) = both(rt, &heard, all.len());
    assert!(rt; printed == all && told.is_empty());
}

// What the line prints, and whether it does so after each byte of it.
fn prints_all(host: &HostRuntime, rt: &impl Abort, files: &Pair, prints: Prints) {
    let deeds = [printing(rt, prints, usize::MAX)];
    let (left, heard) = done(host, rt, files, deeds.as_slice());
    drop(left);
    let (all, told) = both(rt, &heard, 0);
    assert!(rt; !all.is_empty() && told.is_empty());
    is_full(host, rt, files, prints, all);
}

#[test]
fn an_output_is_full_after_each_byte(rt: HostRuntime) {
    let parts = [
        History::GoodsAndBins.text(),
        History::TwoCustomers.text(),
        History::Picked.text(),
        History::ShippedAndRecalled.text(),
    ];
    let history = joined(&rt, rt.alloc(), parts.as_slice());
    let files = books_after(&rt, &rt, history.as_str());
    prints_all(&rt, &rt, &files, Prints::Card);
    prints_all(&rt, &rt, &files, Prints::Notice);
    prints_all(&rt, &rt, &files, Prints::History);
    prints_all(&rt, &rt, &files, Prints::Audit);
    prints_all(&rt, &rt, &files, Prints::Import);
    prints_all(&rt, &rt, &files, Prints::Apply);
}

/// Acts of every command.
static WEEKS: &str = "1\t2026-05-04\tK/I-1\tITEM\t09506000134352\tOat drink
2\t2026-05-04\tK/I-2\tITEM\t04012345000016\tRye bread
3\t2026-05-04\tK/B-1\tBIN\tA-01\tSTORE
4\t2026-05-04\tK/B-2\tBIN\tA-02\tSTORE
5\t2026-05-04\tK/B-3\tBIN\tQ-01\tHOLD
6\t2026-05-04\tD/D-1/1\tRECEIVE\t09506000134352\tL1\t2026-06-30\tA-01\t10
7\t2026-05-04\tD/D-1/2\tRECEIVE\t09506000134352\tL2\t2026-05-31\tA-01\t10
8\t2026-05-04\tD/D-2/1\tRECEIVE\t04012345000016\tN1\t2026-05-20\tA-02\t8
9\t2026-05-04\tK/O-1\tORDER\tS-1\tCorner Shop\t09506000134352\t12\t04012345000016\t3
10\t2026-05-04\tK/P-1\tPICK\tS-1\t09506000134352\tL2\tA-01\t6
11\t2026-05-04\tK/N-1\tUNPICK\tS-1\t09506000134352\tL2\tA-02\t1
12\t2026-05-04\tK/S-1\tSHIP\tS-1
13\t2026-05-04\tK/M-1\tMOVE\t09506000134352\tL1\tA-01\tQ-01\t2
14\t2026-05-04\tK/C-1\tCOUNT\t04012345000016\tN1\tA-02\t7
15\t2026-05-04\tK/A-1\tADJUST\t09506000134352\tL1\tA-01\t1
16\t2026-05-04\tK/O-2\tORDER\tS-2\tHarbour Cafe\t09506000134352\t2
17\t2026-05-04\tK/X-1\tCANCEL\tS-2
18\t2026-05-04\tK/U-1\tURGENT\tS-3\tMill Inn\t09506000134352\t4
19\t2026-05-04\tK/H-1\tHOLD\t04012345000016\tN1
20\t2026-05-04\tK/R-1\tRELEASE\t04012345000016\tN1
21\t2026-05-04\tK/L-1\tLEAST\t04012345000016\t5
22\t2026-05-04\tK/P-2\tPICK\tS-1\t04012345000016\tN1\tA-02\t2
23\t2026-05-04\tD/D-3/1\tRECEIVE\t09506000134352\tL3\t2026-07-31\tA-02\t6
24\t2026-05-04\tK/R-2\tRECALL\t09506000134352\tL3
25\t2026-05-05\tK/D-1\tOPENDAY\t2026-05-05
26\t2026-05-05\tK/P-3\tPICK\tS-3\t09506000134352\tL2\tA-01\t3
27\t2026-05-05\tD/D-4/1\tRECEIVE\t04012345000016\tN2\t2026-06-15\tA-02\t4
28\t2026-05-05\tK/H-2\tHOLD\t04012345000016\tN2
";

// Such an act is spelled otherwise, or it or a later one is refused, or a row differs.
fn is_noticed(told: &[u8]) -> bool {
    let is_differing = told.starts_with(b"lotd: differs ");
    let is_of_act = told.windows(5).any(|five| five == b" act ".as_slice());
    is_differing || is_of_act
}

// The spelling of an act is that of its line behind the key, with line feeds between the fields.
fn spelling(host: &HostRuntime, rt: &impl Abort, line: &str) -> String {
    let fields = line.splitn(4, "\t").nth(3).expect(rt, "fields");
    fields
        .replace(host.alloc(), '\t', "\n")
        .ok()
        .expect(rt, "memory")
}

// The spelling with each of its bytes changed, one at a time.
fn damaged(host: &HostRuntime, rt: &impl Abort, spelling: &str) -> Vec<Vec<u8>> {
    let mut all = Vec::new(host.alloc());
    for place in 0..spelling.len() {
        let mut bytes = spelling
            .as_bytes()
            .to_vec(host.alloc())
            .ok()
            .expect(rt, "memory");
        *bytes.get_mut(place).expect(rt, "a byte") ^= 1;
        assert!(rt; all.push(bytes).is_ok());
    }
    all
}

// An audit tells of each of these.
fn are_noticed(host: &HostRuntime, rt: &impl Abort, files: &Pair, act: i64, spellings: &[Vec<u8>]) {
    let mut deeds = Vec::new(host.alloc());
    for spelling in spellings {
        let audit = Deed::Line(LineWork::Audit(None), b"", true, usize::MAX);
        assert!(rt; deeds.push(Deed::Spell(act, spelling.as_slice())).is_ok());
        assert!(rt; deeds.push(audit).is_ok());
    }
    let (left, heard) = done(host, rt, files, deeds.as_slice());
    drop(left);
    for place in 0..spellings.len() {
        let (printed, told) = both(rt, &heard, place);
        assert!(rt; printed.is_empty() && is_noticed(told), "{act} {place}");
    }
}

#[test]
fn each_byte_of_a_spelling_is_looked_at(rt: HostRuntime) {
    let deeds = [Deed::Make, taken_in(WEEKS.as_bytes(), true)];
    let (files, heard) = done(&rt, &rt, &Pair::empty(rt.alloc()), deeds.as_slice());
    assert!(&rt; is_heard(&rt, &heard, 0, "applied 28 known 0 beyond 0\n"));
    let mut act: i64 = 1;
    for line in WEEKS.lines() {
        let spelling = spelling(&rt, &rt, line);
        let damaged = damaged(&rt, &rt, spelling.as_str());
        are_noticed(&rt, &rt, &files, act, damaged.as_slice());
        act = act.saturating_add(1);
    }
}
