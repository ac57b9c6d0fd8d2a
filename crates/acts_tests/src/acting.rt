//! The acts of lines.

use commands::{Command, Key};
use std::alloc::Global;
use std::process::Abort;
use texts::{parse, parse_key};

fn parted<'a>(rt: &impl Abort, text: &'a str) -> (&'a str, &'a str) {
    text.split_once("\t").expect(rt, "two fields")
}

fn command(rt: &impl Abort, alloc: Global, fields: &str) -> Command {
    let spelling = fields.replace(alloc, '\t', "\n").ok().expect(rt, "memory");
    let found = parse(alloc, spelling.as_bytes()).expect(rt, "memory");
    found.expect(rt, "a command")
}

fn key(rt: &impl Abort, alloc: Global, text: &str) -> Key {
    let found = parse_key(alloc, text.as_bytes()).expect(rt, "memory");
    found.expect(rt, "a key")
}

/// The key and the command of a line.
fn act_of(rt: &impl Abort, alloc: Global, line: &str) -> (Key, Command) {
    let (_number, rest) = parted(rt, line);
    let (_day, rest) = parted(rt, rest);
    let (text, fields) = parted(rt, rest);
    (key(rt, alloc, text), command(rt, alloc, fields))
}

/// Those of each line of a text.
pub(crate) fn acts_of(rt: &impl Abort, alloc: Global, text: &[u8]) -> Vec<(Key, Command)> {
    let text = std::str::from_utf8(text).ok().expect(rt, "a text");
    let mut acts = Vec::new(alloc);
    for line in text.lines() {
        assert!(rt; acts.push(act_of(rt, alloc, line)).is_ok());
    }
    acts
}
