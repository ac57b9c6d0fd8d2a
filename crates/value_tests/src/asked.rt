//! Requests of others: what a text reads as.

use commands::{decimal_text, spell};
use requests::{Ask, Query, Read, RouteTable, read_request};
use std::alloc::Global;
use std::process::Abort;

const OPEN_A_DAY: &[u8] =
    b"POST /days HTTP/1.1\r\nContent-Length: 32\r\n\r\n{\"key\":\"K-9\",\"day\":\"2026-05-05\"}";

// The length of the head of that request, and of its first two lines.
const DAY_HEAD: usize = 43;

const DAY_LINES: usize = 41;

// A text, and behind it the code of its fault, with `more` where there may be more to come; or what it asks. A bar stands for
// the end of a line, and behind the arrow between the values of a command.
static TEXTS: &str =
    r#"POST /days HTTP/1.1|Content-Length: 33||{"key":"K-9","day":"2026-05-05"} => more W02
POST /days HTTP/1.1|Content-Length: 262145||{"key":"K-9","day":"2026-05-05"} => W08
POST /days HTTP/1.1|Content-Length: ␉ 000000032 ␉||{"key":"K-9","day":"2026-05-05"} => K/K-9 OPENDAY|2026-05-05
POST /days HTTP/1.1|Content-Length: 32||{"key":"K-9","day":"2026-05-05"}more => K/K-9 OPENDAY|2026-05-05
POST /items HTTP/1.1|Content-Length: +56||{"key":"K-9","gtin":"09506000134352","name":"Oat drink"} => W02
POST /items HTTP/1.1|Content-Length: 0000000056||{"key":"K-9","gtin":"09506000134352","name":"Oat drink"} => W02
POST /items HTTP/1.1|Content-Length:|| => W02
POST /items HTTP/1.1|Content-Length: 1|content-length: 1||1 => W02
POST /items HTTP/1.1|Transfer-Encoding: chunked|| => W02
POST /items HTTP/1.1|Content-Length: 262144|| => more W02
POST /items HTTP/1.1|Content-Length: 262145|| => W08
POST /items HTTP/2.0|| => W01
GET /orders/S-1 HTTP/1.1␊␊Host: a|| => W01
GET /items HTTP/1.1|Content-Length: 56||{"key":"K-9","gtin":"09506000134352","name":"Oat drink"} => W07
POST /orders/S-1 HTTP/1.1|| => W07
get /orders/S-1 HTTP/1.1|| => W07
POST /items?x=1 HTTP/1.1|Content-Length: 56||{"key":"K-9","gtin":"09506000134352","name":"Oat drink"} => W06
POST items HTTP/1.1|| => W06
GET /nowhere HTTP/1.1|Host: a|| => W06
GET /orders/S-1 HTTP/1.1|Host: a|| => order S-1
GET /orders/S-1/S-2 HTTP/1.1|Host: a|| => W06
GET /orders/S%2D1 HTTP/1.1|Host: a|| => order S-1
GET /orders/%zz HTTP/1.1|| => W04
GET /picklists/S-1 HTTP/1.1|| => pick list S-1
GET /cards/09506000134352 HTTP/1.1|| => W06
GET /cards/09506000134352/A%2FB HTTP/1.1|| => card 09506000134352 A/B
GET /notices/09506000134352/L2 HTTP/1.1|| => notice 09506000134352 L2
GET /shortages/09506000134352 HTTP/1.1|| => shortages 09506000134352
GET /books HTTP/1.1|| => list
GET /openorders HTTP/1.1|| => list
GET /openorders/S-1 HTTP/1.1|| => open orders S-1
GET /itemnames HTTP/1.1|| => list
GET /itemnames/09506000134352 HTTP/1.1|| => items 09506000134352
GET /expiring/2026-05-31 HTTP/1.1|| => list
GET /expiring/2026-05-31/09506000134352/A%2FB HTTP/1.1|| => expiring 09506000134352 A/B
GET /bins/A-01 HTTP/1.1|| => list
GET /bins/A%2D01/09506000134352/A%2FB HTTP/1.1|| => bin A-01 09506000134352 A/B
GET /bins/A-01/09506000134352 HTTP/1.1|| => W06
GET /bins/A-01/09506000134353/L2 HTTP/1.1|| => W04
GET /bins HTTP/1.1|| => W07
POST /bins/A-01 HTTP/1.1|| => W07
GET /stock HTTP/1.1|| => W06
GET /traces/09506000134352/A%2FB HTTP/1.1|| => trace 09506000134352 A/B
GET /traces/09506000134352 HTTP/1.1|| => W06
GET /traces/09506000134353/L2 HTTP/1.1|| => W04
POST /traces/09506000134352/L2 HTTP/1.1|| => W07
GET /stock/09506000134353 HTTP/1.1|| => W04
GET /stock/%zz HTTP/1.1|| => W04
POST /stock/09506000134352 HTTP/1.1|| => W07
GET /stock/0950600013435%32 HTTP/1.1|| => stock 09506000134352
POST /items HTTP/1.1|| => W03
POST /items HTTP/1.0|CONTENT-LENGTH: ␉000000056 ␉||{"key":"K-9","gtin":"09506000134352","name":"Oat drink"} => K/K-9 ITEM|09506000134352|Oat drink
POST /items HTTP/1.1|Content-Length: 56||{"key":"K-9","gtin":"09506000134352","name":"Oat drink"}more => K/K-9 ITEM|09506000134352|Oat drink
POST /receipts HTTP/1.1|Content-Length: 71||{"delivery":"D-1","line":2,"label":"]C101\u001d","bin":"A-01","qty":10} => D-1/2 ]C101␝ A-01 10
GET /stock/09506000134352 HTTP/1.1|Host: a|| => stock 09506000134352
GET /picks/S-1 HTTP/1.1|| => picks S-1
GET /picks/S%2D1 HTTP/1.1|| => picks S-1
GET /picks/%zz HTTP/1.1|| => W04
GET /picks/S-1/S-2 HTTP/1.1|| => W06
GET /picks HTTP/1.1|| => W07
POST /picks/S-1 HTTP/1.1|| => W07
GET /figures HTTP/1.1|| => figures
GET /figures/ HTTP/1.1|| => W06
POST /figures HTTP/1.1|| => W07"#;

// A path, a body that is posted to it, and the same of the request.
static BODIES: &str =
    r#"/items [[[[[[[[[[[[[[[[[[[[[[[[[[[[[[[[[[[[[[[[[[[[[[[[[[[[[[[[[[[[[[[[[[[[[[[[[[[[[[[[[[[[[[[[[[[[[[[[[[[[[[[[[[[[[[[[[[[[[[[[[[[[[[[[[[[[[[[[[[[[[[[[[[[[[[[[[[[[[[[[[[[[[[[[[[[[[[[[[[[[[[[[[[[[[[[[[[[[ => W03
/items [] => W04
/leasts {"key":"K-1","gtin":"09506000134352","days":"7"} => W04
/leasts {"key":"K-1","gtin":"09506000134352","days":0.5} => W04
/leasts {"key":"K-1","gtin":"09506000134352","days":1.0} => W04
/leasts {"key":"K-1","gtin":"09506000134352","days":-1} => W04
/leasts {"key":"K-1","gtin":"09506000134352","days":3651} => W04
/leasts {"key":"K-1","gtin":"09506000134352"} => W04
/items {"key":"K-9","gtin":"09506000134352","name":"Oat drink","day":1} => W04
/items {"key":"K-9","gtin":"09506000134353","name":"Oat drink"} => W04
/items {"key":"k-9","gtin":"09506000134352","name":"Oat drink"} => W04
/bins {"key":"K-1","bin":"A-01","kind":"Store"} => W04
/receipts {"delivery":"D-1","line":1,"label":"","bin":"A-01","qty":1.0} => W04
/receipts {"delivery":"D-1","line":1,"label":"","bin":"A-01","qty":1e2} => W04
/receipts {"delivery":"D-1","line":0,"label":"","bin":"A-01","qty":1} => W04
/receipts {"delivery":"D-1","line":1,"label":"","bin":"A-01","qty":"1"} => W04
/orders {"key":"K-1","order":"S-1","customer":"Corner Shop","lines":[]} => W04
/urgents {"key":"K-1","order":"S-3","customer":"Mill Inn","lines":[]} => W04
/urgents {"key":"K-1","class":"URGENT","order":"S-3","customer":"Mill Inn","lines":[{"gtin":"09506000134352","qty":10}]} => W04
/orders {"key":"K-1","order":"S-1","customer":"Corner Shop","lines":[{"gtin":"09506000134352","qty":12,"lot":"L1"}]} => W04
/days {"key":"K-1","day":"2026-05-05","more":1} => W04
/days {"key":"K-1","day":"1999-12-31"} => W04
/items {"name":"Oat drink","key":"K-1","gtin":"09506000134352"} => K/K-1 ITEM|09506000134352|Oat drink
/bins {"key":"K-2", "bin":"A-01", "kind":"STORE"} => K/K-2 BIN|A-01|STORE
/orders {"key":"K-8","order":"S-1","customer":"Corner Shop","lines":[{"gtin":"09506000134352","qty":12},{"qty":1,"gtin":"04012345000016"}]} => K/K-8 ORDER|S-1|Corner Shop|09506000134352|12|04012345000016|1
/moves {"key":"K-1","gtin":"09506000134352","lot":"L1","from":"A-01","to":"A-02","qty":3} => K/K-1 MOVE|09506000134352|L1|A-01|A-02|3
/counts {"key":"K-1","gtin":"09506000134352","lot":"L1","bin":"A-01","qty":0} => K/K-1 COUNT|09506000134352|L1|A-01|0
/adjustments {"key":"K-1","gtin":"09506000134352","lot":"L1","bin":"A-01","change":-10} => K/K-1 ADJUST|09506000134352|L1|A-01|-10
/cancels {"key":"K-1","order":"S-1"} => K/K-1 CANCEL|S-1
/shipments {"key":"K-1","order":"S-1"} => K/K-1 SHIP|S-1
/picks {"key":"K-1","order":"S-1","gtin":"09506000134352","lot":"L1","bin":"A-01","qty":8} => K/K-1 PICK|S-1|09506000134352|L1|A-01|8
/unpicks {"key":"K-1","order":"S-1","gtin":"09506000134352","lot":"L1","bin":"A-01","qty":8} => K/K-1 UNPICK|S-1|09506000134352|L1|A-01|8
/holds {"key":"K-1","gtin":"09506000134352","lot":"L1"} => K/K-1 HOLD|09506000134352|L1
/releases {"key":"K-1","gtin":"09506000134352","lot":"L1"} => K/K-1 RELEASE|09506000134352|L1
/recalls {"key":"K-1","gtin":"09506000134352","lot":"L1"} => K/K-1 RECALL|09506000134352|L1
/leasts {"key":"K-1","gtin":"09506000134352","days":0} => K/K-1 LEAST|09506000134352|0
/leasts {"key":"K-1","gtin":"09506000134352","days":3650} => K/K-1 LEAST|09506000134352|3650
/urgents {"key":"K-9","order":"S-3","customer":"Mill Inn","lines":[{"gtin":"09506000134352","qty":10},{"qty":1,"gtin":"04012345000016"}]} => K/K-9 URGENT|S-3|Mill Inn|09506000134352|10|04012345000016|1"#;

fn push(rt: &impl Abort, text: &mut Vec<u8>, more: &[u8]) {
    assert!(rt; text.extend_from_slice(more).is_ok());
}

// What is asked, as the tables write it down.
fn push_ask(rt: &impl Abort, alloc: Global, text: &mut Vec<u8>, ask: &Ask) {
    match ask {
        Ask::Do(key, command) => {
            push(rt, text, key.text().as_bytes());
            push(rt, text, b" ");
            for byte in spell(alloc, command).ok().expect(rt, "memory").as_slice() {
                push(rt, text, &[if *byte == b'\n' { b'|' } else { *byte }]);
            }
        }
        Ask::Scan {
            delivery,
            line,
            label,
            bin,
            qty,
        } => {
            push(rt, text, delivery.as_bytes());
            push(rt, text, b"/");
            push(rt, text, decimal_text(u64::from(line.number())).as_bytes());
            push(rt, text, b" ");
            push_label(rt, text, label.as_slice());
            push(rt, text, b" ");
            push(rt, text, bin.as_bytes());
            push(rt, text, b" ");
            push(rt, text, decimal_text(u64::from(qty.units())).as_bytes());
        }
        Ask::Show(query) => push_query(rt, text, query),
        _ => push(rt, text, b"a file"),
    }
}

// The separator of a label is byte 29.
fn push_label(rt: &impl Abort, text: &mut Vec<u8>, label: &[u8]) {
    for byte in label {
        match *byte {
            29 => push(rt, text, "␝".as_bytes()),
            other => push(rt, text, &[other]),
        }
    }
}

fn push_query(rt: &impl Abort, text: &mut Vec<u8>, query: &Query) {
    let (name, first, lot) = match query {
        Query::Books
        | Query::OpenOrders(None)
        | Query::ItemNames(None)
        | Query::Expiring(_, None)
        | Query::Bin(_, None) => ("list", b"".as_slice(), None),
        Query::OpenOrders(Some(order)) => ("open orders ", order.as_bytes(), None),
        Query::ItemNames(Some(gtin)) => ("items ", gtin.as_bytes(), None),
        Query::Expiring(_, Some(lot)) => ("expiring ", lot.gtin.as_bytes(), Some(lot.lot)),
        Query::Bin(bin, Some(lot)) => {
            push(rt, text, b"bin ");
            push(rt, text, bin.as_bytes());
            (" ", lot.gtin.as_bytes(), Some(lot.lot))
        }
        Query::Stock(gtin) => ("stock ", gtin.as_bytes(), None),
        Query::Order(order) => ("order ", order.as_bytes(), None),
        Query::PickList(order) => ("pick list ", order.as_bytes(), None),
        Query::Shortages(gtin) => ("shortages ", gtin.as_bytes(), None),
        Query::Card(lot) => ("card ", lot.gtin.as_bytes(), Some(lot.lot)),
        Query::Notice(lot) => ("notice ", lot.gtin.as_bytes(), Some(lot.lot)),
        Query::Trace(lot) => ("trace ", lot.gtin.as_bytes(), Some(lot.lot)),
        Query::Picks(order) => ("picks ", order.as_bytes(), None),
        Query::Figures => ("figures", b"".as_slice(), None),
    };
    push(rt, text, name.as_bytes());
    push(rt, text, first);
    if let Some(lot) = lot {
        push(rt, text, b" ");
        push(rt, text, lot.as_bytes());
    }
}

// What a text reads as, in the same way.
fn read_as(rt: &impl Abort, alloc: Global, routes: &mut RouteTable, text: &[u8]) -> Vec<u8> {
    let mut told = Vec::new(alloc);
    match read_request(alloc, routes, text) {
        Read::Need(fault) => {
            push(rt, &mut told, b"more ");
            push(rt, &mut told, fault.code().as_bytes());
        }
        Read::Bad(fault) => push(rt, &mut told, fault.code().as_bytes()),
        Read::Request(ask) => push_ask(rt, alloc, &mut told, &ask),
    }
    told
}

fn reads_as(rt: &impl Abort, alloc: Global, routes: &mut RouteTable, text: &[u8], expected: &str) {
    let told = read_as(rt, alloc, routes, text);
    assert!(rt; told.as_slice() == expected.as_bytes(), "{expected:?}");
}

// The text with the marks of the table for what no line of it can have.
fn unmarked(rt: &impl Abort, alloc: Global, text: &str) -> String {
    let text = text.replace(alloc, '|', "\r\n").ok().expect(rt, "memory");
    let text = text.replace(alloc, '␊', "\n").ok().expect(rt, "memory");
    text.replace(alloc, '␉', "\t").ok().expect(rt, "memory")
}

#[test]
fn texts_read_as_requests(rt: HostRuntime) {
    let (alloc, mut routes) = (rt.alloc(), RouteTable::new());
    for line in TEXTS.lines() {
        let (text, expected) = line.split_once(" => ").expect(&rt, "two parts");
        let text = unmarked(&rt, alloc, text);
        reads_as(&rt, alloc, &mut routes, text.as_bytes(), expected);
    }
    for line in BODIES.lines() {
        let (asked, expected) = line.split_once(" => ").expect(&rt, "two parts");
        let (path, body) = asked.split_once(" ").expect(&rt, "two parts");
        let text = format!(in alloc;
            "POST {path} HTTP/1.1\r\nContent-Length: {}\r\n\r\n{body}",
            body.len()
        );
        let text = text.ok().expect(&rt, "memory");
        reads_as(&rt, alloc, &mut routes, text.as_bytes(), expected);
    }
    let no_text = b"POST /items HTTP/1.1\r\nContent-Length: 1\r\n\r\n\xff";
    reads_as(&rt, alloc, &mut routes, no_text, "W03");
}

// The request with so many bytes of fields between its second line and the end of its head.
fn with_fields(rt: &impl Abort, alloc: Global, fields: &[u8]) -> Vec<u8> {
    let mut text = Vec::new(alloc);
    push(rt, &mut text, &OPEN_A_DAY[..DAY_LINES]);
    push(rt, &mut text, fields);
    push(rt, &mut text, &OPEN_A_DAY[DAY_LINES..]);
    text
}

// Each beginning of a text needs more, of its head and then of its body. A head has at most 32 fields and 8,192 bytes.
#[test]
fn heads_have_an_end(rt: HostRuntime) {
    let (alloc, mut routes) = (rt.alloc(), RouteTable::new());
    for size in 0..OPEN_A_DAY.len() {
        let expected = if size < DAY_HEAD {
            "more W01"
        } else {
            "more W02"
        };
        reads_as(&rt, alloc, &mut routes, &OPEN_A_DAY[..size], expected);
    }
    let fewer = "a:\r\n".repeat(alloc, 31).ok().expect(&rt, "memory");
    let most = with_fields(&rt, alloc, fewer.as_bytes());
    reads_as(
        &rt,
        alloc,
        &mut routes,
        most.as_slice(),
        "K/K-9 OPENDAY|2026-05-05",
    );
    let fields = "a:\r\n".repeat(alloc, 32).ok().expect(&rt, "memory");
    let many = with_fields(&rt, alloc, fields.as_bytes());
    reads_as(&rt, alloc, &mut routes, many.as_slice(), "W01");
    let long = [b'a'; 8_193];
    reads_as(&rt, alloc, &mut routes, &long[..8_192], "more W01");
    reads_as(&rt, alloc, &mut routes, long.as_slice(), "W08");
    reads_as(
        &rt,
        alloc,
        &mut routes,
        with_fields(&rt, alloc, &long[..8_192]).as_slice(),
        "W08",
    );
}
