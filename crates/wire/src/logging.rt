//! The line of a log for a request that was answered.

ghost use Rattle.std.specs.Prelude.{◌≡◌, ◌+◌, ◌≤◌, ◌++◌, length, take, drop, option_map};
ghost use Rattle.wire.specs.Logging.{is_gap as is_gap_lem, without_gap as without_gap_lem, cut_word as cut_word_lem, next_word as next_word_lem, shown_byte as shown_byte_lem, shown_word, status_shown as status_shown_lem, line_with as line_with_lem, line_behind as line_behind_lem, log_line as log_line_lem};
ghost use Rattle.texts.specs.Writing.{Writes};

use crate::Block;
use std::io::Write;
use texts::{TextFault, put};

/// How many bytes of a method or a target are shown, at most.
const WORD_MAX: usize = 200;

/// Writes the line of a log for a request and its answer: the method, the target, the status, and how many bytes the
/// answer has, parted by a space. An answer that was not sent has no bytes, and `-` in the place of its status. Of the
/// request its first two words are looked at. A byte of them that is no visible ASCII is written `?`, and 200 bytes of each
/// at most are written; where the two have not come whole, no line is. The fault is `TextFault` where the log takes no more,
/// and a beginning of the line, maybe all of it, was then written.
pub fn write_log_line<L: Write>(text: &[u8], answer: &[u8], log: &mut L) -> Result<(), TextFault>
    ensures { Writes result (L.contents log.old) (L.contents log.new) (log_line_lem text.now answer.now) }
{
    put(log_line(text, answer).as_bytes(), log)
}

fn log_line(text: &[u8], answer: &[u8]) -> Block
    ensures { result ≡ log_line_lem text.now answer.now }
{
    match next_word(text) {
        Some((method, rest)) => line_behind(method, rest, answer),
        None => Block::new(),
    }
}

fn line_behind(method: &[u8], rest: &[u8], answer: &[u8]) -> Block
    ensures { result ≡ line_behind_lem method.now rest.now answer.now }
{
    match next_word(rest) {
        Some((target, _)) => line_with(method, target, answer),
        None => Block::new(),
    }
}

fn line_with(method: &[u8], target: &[u8], answer: &[u8]) -> Block
    ensures { result ≡ line_with_lem method.now target.now answer.now }
{
    let mut line = Block::new();
    push_word(&mut line, method);
    line.push_all(b" ");
    push_word(&mut line, target);
    line.push_all(b" ");
    line.push_all(status_shown(answer));
    line.push_all(b" ");
    line.push_decimal(answer.len() as u64);
    line.push_all(b"\n");
    line
}

/// The status of an answer, and `-` where it has no bytes.
fn status_shown(answer: &[u8]) -> &[u8]
    ensures value { result.now ≡ status_shown_lem answer.now }
    ensures size { length result.now ≤ 3 }
{
    if answer.is_empty() {
        b"-"
    } else {
        first(behind(answer, 9), 3)
    }
}

fn push_word(line: &mut Block, word: &[u8])
    requires { length line.old ≤ 201 }
    ensures value { line.new ≡ line.old ++ shown_word word.now }
    ensures size { length line.new ≤ length line.old + 200 }
{
    let shown = first(word, WORD_MAX);
    for byte in shown {
        line.push(shown_byte(*byte));
    }
}

fn shown_byte(byte: u8) -> u8
    ensures { result ≡ shown_byte_lem byte }
{
    if byte < 127 { byte } else { b'?' }
}

/// The next word, once it has come whole, and what follows.
fn next_word(text: &[u8]) -> Option<(&[u8], &[u8])>
    ensures { option_map (λ cut. (cut.0.now, cut.1.now)) result ≡ next_word_lem text.now }
{
    cut_word(without_gap(text))
}

fn without_gap(text: &[u8]) -> &[u8]
    ensures { result.now ≡ without_gap_lem text.now }
{
    for i in 0..text.len() {
        if !is_gap(text[i]) {
            return behind(text, i);
        }
    }
    &[]
}

fn cut_word(text: &[u8]) -> Option<(&[u8], &[u8])>
    ensures { option_map (λ cut. (cut.0.now, cut.1.now)) result ≡ cut_word_lem text.now }
{
    for i in 0..text.len() {
        if is_gap(text[i]) {
            return Some(text.split_at(i));
        }
    }
    None
}

fn is_gap(byte: u8) -> bool
    ensures { result ≡ is_gap_lem byte }
{
    byte < 33
}

/// So many bytes, or all where there are fewer.
fn first(text: &[u8], count: usize) -> &[u8]
    ensures value { result.now ≡ take count text.now }
    ensures size { length result.now ≤ count }
{
    match text.split_at_checked(count) {
        Some((front, _)) => front,
        None => text,
    }
}

/// What stands behind so many bytes.
fn behind(text: &[u8], count: usize) -> &[u8]
    ensures { result.now ≡ drop count text.now }
{
    match text.split_at_checked(count) {
        Some((_, rest)) => rest,
        None => &[],
    }
}
