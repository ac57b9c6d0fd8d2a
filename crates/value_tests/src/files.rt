//! Goods-in files of others: what each reads as, and that a reader which fails is told as such.

ghost use Rattle.std.specs.Prelude.{IsTrue};
ghost use Rattle.label.specs.Days.{is_business_day};

use crate::labels::today;
use goodsin::{FileFault, read_file};
use label::Day;
use std::alloc::Global;
use std::io;
use std::io::{Error, ErrorKind, Read};
use std::process::Abort;

// Files, and how many rows each has or its fault. A bar ends a line; `␍` is a return, `⍾` the mark of an order of bytes.
static FILES: &str = r#" => G01
|| => G01
delivery,line,gtin,lot,expiry,bin| => G01
delivery,line,gtin,lot,expiry,bin,qty,| => G01
Delivery,line,gtin,lot,expiry,bin,qty| => G01
delivery,line,gtin,lot,expiry,bin, qty| => G01
D-9,1,09506000134352,M1,261130,A-01,5| => G01
delivery,line,gtin,lot,expiry,bin,qty => 0
delivery,line,gtin,lot,expiry,bin,qty␍|␍| => 0
⍾delivery,line,gtin,lot,expiry,bin,qty|D-9,1,09506000134352,M1,261130,A-01,5 => 1
delivery,line,gtin,lot,expiry,bin,qty␍|D-9,1,09506000134352,M1,261130,A-01,5␍| => 1
delivery,line,gtin,lot,expiry,bin,qty␍D-9,1,09506000134352,M1,261130,A-01,5␍ => 1
"delivery",line,gtin,lot,expiry,bin,qty|||"D-9","1","09506000134352","A,""B""","261130","A-01","5"| => 1
delivery,line,gtin,lot,expiry,bin,qty|D-9,1,09506000134352,M1,261130,A-01,"5 => 1
delivery,line,gtin,lot,expiry,bin,qty|D-9,1,09506000134352,M1,261130,A-01,5|D-9,2,09506000134352,M1,261130,A-01,0| => G02 row 2
delivery,line,gtin,lot,expiry,bin,qty|D-9,1,09506000134352,M1,261130,A-01,5|D-9,01,09506000134352,M1,261130,A-01,5| => G02 row 2
delivery,line,gtin,lot,expiry,bin,qty|D-9,1,09506000134352,M1,261130,A-01|D-9,2,09506000134352,M1,261130,A-01,0| => G04
delivery,line,gtin,lot,expiry,bin,qty|D-9,1,09506000134352,M1,261130,A-01,0|D-9,2,09506000134352,M1,261130,A-01| => G02 row 1
delivery,line,gtin,lot,expiry,bin,qty|D-9,1,09506000134352,M1,261130,A-01,5,| => G04"#;

// Rows that are sound, and rows that are not.
static SOUND: &str = "D-9,1,09506000134352,M1,261130,A-01,5
D-9,9999,09506000134352,M1,261130,A-01,1000000
ABCDEFGHIJKLMNOPQRST,1,09506000134352,!x,261200,9,1";

static UNSOUND: &str = "ABCDEFGHIJKLMNOPQRSTU,1,09506000134352,M1,261130,A-01,5
,1,09506000134352,M1,261130,A-01,5
d-9,1,09506000134352,M1,261130,A-01,5
D-9,0,09506000134352,M1,261130,A-01,5
D-9,10000,09506000134352,M1,261130,A-01,5
D-9,,09506000134352,M1,261130,A-01,5
D-9,+1,09506000134352,M1,261130,A-01,5
D-9, 1,09506000134352,M1,261130,A-01,5
D-9,18446744073709551617,09506000134352,M1,261130,A-01,5
D-9,1,09506000134353,M1,261130,A-01,5
D-9,1,9506000134352,M1,261130,A-01,5
D-9,1,95060001343520,M1,261130,A-01,5
D-9,1,,M1,261130,A-01,5
D-9,1,09506000134352,,261130,A-01,5
D-9,1,09506000134352,A B,261130,A-01,5
D-9,1,09506000134352,ABCDEFGHIJKLMNOPQRSTU,261130,A-01,5
D-9,1,09506000134352,M1,261131,A-01,5
D-9,1,09506000134352,M1,26113,A-01,5
D-9,1,09506000134352,M1,2026-11-30,A-01,5
D-9,1,09506000134352,M1,261300,A-01,5
D-9,1,09506000134352,M1,261130,,5
D-9,1,09506000134352,M1,261130,a-01,5
D-9,1,09506000134352,M1,261130,A-01,1000001
D-9,1,09506000134352,M1,261130,A-01,05
D-9,1,09506000134352,M1,261130,A-01,-5
D-9,1,09506000134352,M1,261130,A-01,5.0
D-9,1,09506000134352,M1,261130,A-01,1e2
D-9,1,09506000134352,M1,261130,A-01,5 ";

// A row 1,001, and the fault of a file of 1,000 sound rows and that one.
static ROWS_1001: [(&str, &str); 3] = [
    ("D-9,1,09506000134352,M1,261130,A-01,5", "G03"),
    ("d-9,01,1,,1,,0", "G03"),
    ("D-9,1,09506000134352,M1,261130,A-01", "G04"),
];

const HEADER: &str = "delivery,line,gtin,lot,expiry,bin,qty\n";

const ROW: &str = "D-9,1,09506000134352,M1,261130,A-01,5\n";

// What the text reads as: the number of its rows, or the code of its fault.
fn outcome(rt: &impl Abort, alloc: Global, text: &str, today: Day) -> String
    requires { IsTrue (is_business_day today) }
{
    let told = match read_file(alloc, text.as_bytes(), today) {
        Ok(rows) => format!(in alloc; "{}", rows.as_slice().len()),
        Err(FileFault::Row(row)) => format!(in alloc; "G02 row {row}"),
        Err(fault) => format!(in alloc; "{}", fault.code()),
    };
    told.ok().expect(rt, "memory")
}

fn reads(rt: &impl Abort, alloc: Global, text: &str, today: Day, expected: &str)
    requires { IsTrue (is_business_day today) }
{
    let found = outcome(rt, alloc, text, today);
    assert!(rt; found.as_str() == expected, "{text:?}");
}

// What the row reads as behind the header.
fn reads_row(rt: &impl Abort, alloc: Global, row: &str, today: Day, expected: &str)
    requires { IsTrue (is_business_day today) }
{
    let text = format!(in alloc; "{HEADER}{row}\n")
        .ok()
        .expect(rt, "memory");
    reads(rt, alloc, text.as_str(), today, expected);
}

// The file as a line of the table writes it down.
fn unmarked(rt: &impl Abort, alloc: Global, text: &str) -> String {
    let text = text.replace(alloc, '|', "\n").ok().expect(rt, "memory");
    let text = text.replace(alloc, '␍', "\r").ok().expect(rt, "memory");
    text.replace(alloc, '⍾', "\u{feff}")
        .ok()
        .expect(rt, "memory")
}

#[test]
fn reads_files(rt: HostRuntime) {
    let (alloc, today) = (rt.alloc(), today(&rt));
    for line in FILES.lines() {
        let (text, expected) = line.split_once(" => ").expect(&rt, "two parts");
        let text = unmarked(&rt, alloc, text);
        reads(&rt, alloc, text.as_str(), today, expected);
    }
    for row in SOUND.lines() {
        reads_row(&rt, alloc, row, today, "1");
    }
    for row in UNSOUND.lines() {
        reads_row(&rt, alloc, row, today, "G02 row 1");
    }
}

#[test]
fn takes_1000_rows(rt: HostRuntime) {
    let (alloc, today) = (rt.alloc(), today(&rt));
    let rows = ROW.repeat(alloc, 1_000).ok().expect(&rt, "memory");
    reads_row(&rt, alloc, rows.as_str().trim(), today, "1000");
    for (row, fault) in ROWS_1001.as_slice() {
        let text = format!(in alloc; "{rows}{row}").ok().expect(&rt, "memory");
        reads_row(&rt, alloc, text.as_str(), today, fault);
    }
}

const RECEIPTS: &[u8] = b"delivery,line,gtin,lot,expiry,bin,qty
D-9,1,09506000134352,M1,261130,A-01,5
D-9,2,09506000134352,M2,261231,A-02,7
D-9,3,04012345000016,N1,261200,B-99,4
";

// A reader that fails behind its bytes.
#[derive(Clone, Copy)]
struct Breaking<'b> {
    left: &'b [u8],
}

impl Read for Breaking<'_> {
    fn read(&mut self, buf: &mut [u8]) -> io::Result<usize> {
        if self.left.is_empty() {
            return Err(Error::from(ErrorKind::ConnectionReset));
        }
        self.left.read(buf)
    }
}

// Where the reader fails behind any of its bytes, that is told, but a fault before it goes first.
#[test]
fn tells_a_reader_that_fails(rt: HostRuntime) {
    let (alloc, today) = (rt.alloc(), today(&rt));
    for size in 0..=RECEIPTS.len() {
        let left = &RECEIPTS[..size];
        assert!(rt; read_file(alloc, Breaking { left }, today).err() == Some(FileFault::Reader));
    }
    let left = b"delivery,line,gtin,lot,expiry,bin,qty\nD-9,1,,M1,261130,A-01,5\nD-9".as_slice();
    assert!(rt; read_file(alloc, Breaking { left }, today).err() == Some(FileFault::Row(1)));
}
