ghost use Rattle.std.specs.Prelude.{◌≡◌, ◌≤◌, ◌+◌, ◌<◌, ◌||◌, length, take, map, IfOk, OnErr, IfSome, All, Some, None, Ok, Err, option_map, IsTrue};
ghost use Rattle.std.specs.List.{list_any, find, count_by};
ghost use Rattle.std.specs.Str.{bytes_eq};
ghost use Rattle.httparse.specs.Grammar.{RequestHead};
ghost use Rattle.httparse.specs.Spans.{header_bytes, IsHeaderWithin};
ghost use Rattle.requests.specs.Head.{BLANK_LINE, head_end as head_end_lem, IsHead, fields_of, is_named as is_named_lem, length_value as length_value_lem, body_length as body_length_lem};

use crate::WireFault;
use httparse::Status;
use httparse::spans::{EMPTY_HEADER_SPAN, HeaderSpan, parse_request};
use values::{are_digits, written_number};

/// The longest head, in bytes.
pub(crate) const LONGEST_HEAD: usize = 8_192;

/// The longest body, in bytes.
const LONGEST_BODY: u64 = 262_144;

/// The fields of a head, at most.
const MOST_FIELDS: usize = 32;

/// The parts of a head that are looked at.
#[derive(Clone, Copy)]
pub struct Head<'b> {
    pub method: &'b [u8],
    pub target: &'b [u8],
    pub length: Result<u64, WireFault>,
}

/// The text is no complete head.
#[derive(Clone, Copy)]
pub struct BadHead;

/// How many bytes there are up to the end of the first CR LF CR LF.
pub(crate) fn head_end(text: &[u8]) -> Option<usize>
    ensures value { result ≡ head_end_lem text.now }
    ensures bound { IfSome result (λ n. n ≤ length text.now) }
{
    for i in 0..text.len() {
        let (_, rest) = text.split_at(i);
        if is_blank_line(rest) {
            return Some(i + 4);
        }
    }
    None
}

fn is_blank_line(text: &[u8]) -> bool
    ensures value { result ≡ bytes_eq (take 4 text.now) BLANK_LINE }
    ensures bound { IsTrue result → 4 ≤ length text.now }
{
    if text.len() < 4 {
        return false;
    }
    &text[..4] == b"\r\n\r\n".as_slice()
}

fn is_named(text: &[u8], header: &HeaderSpan, name: &[u8]) -> bool
    requires { IsHeaderWithin (length text.now) header.now }
    ensures { result ≡ is_named_lem name.now (header_bytes text.now header.now) }
{
    header.name.of(text).eq_ignore_ascii_case(name)
}

fn has_field(text: &[u8], headers: &[HeaderSpan], name: &[u8]) -> bool
    requires { All (IsHeaderWithin (length text.now)) headers.now }
    ensures { result ≡ list_any (is_named_lem name.now) (map (header_bytes text.now) headers.now) }
{
    for header in headers {
        if is_named(text, header, name) {
            return true;
        }
    }
    false
}

fn count_fields(text: &[u8], headers: &[HeaderSpan], name: &[u8]) -> usize
    requires { All (IsHeaderWithin (length text.now)) headers.now }
    ensures { result ≡ count_by (is_named_lem name.now) (map (header_bytes text.now) headers.now) }
{
    let mut count = 0;
    for header in headers {
        if is_named(text, header, name) {
            count += 1;
        }
    }
    count
}

fn field<'b>(text: &'b [u8], headers: &[HeaderSpan], name: &[u8]) -> Option<&'b [u8]>
    requires { All (IsHeaderWithin (length text.now)) headers.now }
    ensures { option_map (λ v. v.now) result
        ≡ option_map (λ f. f.1) (find (is_named_lem name.now) (map (header_bytes text.now) headers.now)) }
{
    for header in headers {
        if is_named(text, header, name) {
            return Some(header.value.of(text));
        }
    }
    None
}

fn length_value(text: &[u8]) -> Result<u64, WireFault>
    ensures { result ≡ length_value_lem text.now }
{
    if text.is_empty() || text.len() > 9 || !are_digits(text) {
        return Err(WireFault::Length);
    }
    let n = written_number(text);
    if n > LONGEST_BODY {
        return Err(WireFault::TooLarge);
    }
    Ok(n)
}

fn body_length(text: &[u8], headers: &[HeaderSpan]) -> Result<u64, WireFault>
    requires { All (IsHeaderWithin (length text.now)) headers.now }
    ensures { result ≡ body_length_lem (map (header_bytes text.now) headers.now) }
{
    if has_field(text, headers, b"transfer-encoding") {
        return Err(WireFault::Length);
    }
    if count_fields(text, headers, b"content-length") > 1 {
        return Err(WireFault::Length);
    }
    match field(text, headers, b"content-length") {
        Some(value) => length_value(value),
        None => Ok(0),
    }
}

/// What a text says that is a complete head, with at most 32 fields, and nothing else.
pub(crate) fn read_head<'b>(text: &'b [u8]) -> Result<Head<'b>, BadHead>
    ensures ok { IfOk result (λ r. (h : RequestHead) × IsHead text.now h
        × (r.method.now ≡ h.method) × (r.target.now ≡ h.target) × (r.length ≡ body_length_lem (fields_of h))) }
    ensures err { OnErr result ((h : RequestHead) → ¬ (IsHead text.now h)) }
{
    let mut room = [EMPTY_HEADER_SPAN; MOST_FIELDS];
    match parse_request(text, &mut room) {
        Ok(Status::Complete(head)) => if head.len == text.len() {
            Ok(Head {
                method: head.method.of(text),
                target: head.path.of(text),
                length: body_length(text, &room[..head.headers]),
            })
        } else {
            Err(BadHead)
        },
        _ => Err(BadHead),
    }
}
