//! The lines of a log.

use std::process::Abort;
use wire::logging::write_log_line;

const ANSWER: &[u8] =
    b"HTTP/1.1 200 OK\r\ncontent-type: application/json\r\ncontent-length: 9\r\nconnection: close\r\n\r\n{\"act\":1}";

// A text, and the line of it.
static LINES: [(&[u8], &str); 14] = [
    (
        b"POST /bins HTTP/1.1\r\nContent-Length: 41\r\n\r\n{\"key\":\"K-1\",\"bin\":\"A-01\",\"kind\":\"STORE\"}",
        "POST /bins 200 98\n",
    ),
    (
        b"GET /cards/09506000134352/A%2FB HTTP/1.0\r\nAuthorization: Basic c2VjcmV0\r\n\r\n",
        "GET /cards/09506000134352/A%2FB 200 98\n",
    ),
    // Empty lines before the request are skipped.
    (b"\r\n\r\nGET / HTTP/1.1\r\n\r\n", "GET / 200 98\n"),
    // No request, but two words.
    (b"GET / ", "GET / 200 98\n"),
    (b"hello world\n", "hello world 200 98\n"),
    (b"GET  /  HTTP/1.1\r\n\r\n", "GET / 200 98\n"),
    // A byte that is no visible ASCII is shown as such; a control parts words.
    (
        b"GET /a\x7fb\xc3\xa9 HTTP/1.1\r\n\r\n",
        "GET /a?b?? 200 98\n",
    ),
    (b"GET /\x1b[31m HTTP/1.1\r\n\r\n", "GET / 200 98\n"),
    (b"\x16\x03\x01\xff\xff\x00\x80\x00", "?? ? 200 98\n"),
    // The method and the target have not come whole.
    (b"", ""),
    (b"\r\n", ""),
    (b"GET", ""),
    (b"GET ", ""),
    (b"GET /stock/095060001343", ""),
];

// Of a longer word the first 200 bytes stand there; of an answer that was not sent a dash.
#[test]
fn logs_method_target_status_and_bytes(rt: HostRuntime) {
    for (text, line) in LINES.as_slice() {
        let mut log: Vec<u8> = Vec::new(rt.alloc());
        assert!(rt; write_log_line(text, ANSWER, &mut log).is_ok());
        assert!(rt; log.as_slice() == line.as_bytes(), "{line:?}");
    }
    let long = "x".repeat(rt.alloc(), 1_000).ok().expect(&rt, "memory");
    let text = format!(in rt.alloc(); "GET /{long} HTTP/1.1\r\n\r\n")
        .ok()
        .expect(&rt, "memory");
    let front = "x".repeat(rt.alloc(), 199).ok().expect(&rt, "memory");
    let line = format!(in rt.alloc();
        "GET /{front} 200 98
"
    )
    .ok()
    .expect(&rt, "memory");
    let mut log: Vec<u8> = Vec::new(rt.alloc());
    assert!(rt; write_log_line(text.as_bytes(), ANSWER, &mut log).is_ok());
    assert!(rt; log.as_slice() == line.as_bytes());
    log.clear();
    assert!(rt; write_log_line(b"POST /bins HTTP/1.1\r\n\r\n", b"", &mut log).is_ok());
    assert!(rt; log.as_slice() == b"POST /bins - 0\n".as_slice());
}
