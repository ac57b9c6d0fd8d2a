//! Requests of every kind at random, behind two items and three bins.

use crate::dice::Dice;
use crate::exchange::text_asked;
use std::alloc::Global;
use std::str::Lines;

// Tasks, with an empty line between two. The requests of a task are asked in turn. Behind each `@` stands what is drawn: for all
// requests of the task (`Subject`), or for this one alone (`drawn`).
static TASKS: &str = r#"
POST /items {"key":"@K","gtin":"@U","name":"Item @Q"}
POST /orders {"key":"@K","order":"@O","customer":"Harbour Cafe","lines":[{"gtin":"@G","qty":@Q},{"gtin":"@U","qty":@Q}]}
GET /shortages/@G

POST /bins {"key":"@K","bin":"B-@Q","kind":"STORE"}
POST /bins {"key":"@K","bin":"@B","kind":"HOLD"}

POST /receipts {"delivery":"D-@N","line":1,"label":"@T","bin":"@S","qty":@Q0}
POST /orders {"key":"@K","order":"@O","customer":"Corner Shop","lines":[{"gtin":"@G","qty":1@Q}]}
POST /picks {"key":"@K","order":"@O","gtin":"@G","lot":"@L","bin":"@S","qty":@P}
POST /picks {"key":"@K","order":"@O","gtin":"@G","lot":"@L","bin":"@S","qty":1}
POST /unpicks {"key":"@K","order":"@O","gtin":"@G","lot":"@L","bin":"@B","qty":1}
POST /shipments {"key":"@K","order":"@O"}
GET /cards/@G/@L

POST /receipts {"delivery":"D-@N","line":2,"label":"@T","bin":"@S","qty":@Q0}
POST /urgents {"key":"@K","order":"@O","customer":"Mill Inn","lines":[{"gtin":"@G","qty":1}]}
POST /moves {"key":"@K","gtin":"@G","lot":"@L","from":"@S","to":"@B","qty":@P}
GET /picklists/@O
POST /picks {"key":"@K","order":"@O","gtin":"@G","lot":"@L","bin":"@S","qty":1}
POST /holds {"key":"@K","gtin":"@G","lot":"@L"}
POST /shipments {"key":"@K","order":"@O"}
POST /releases {"key":"@K","gtin":"@G","lot":"@L"}
POST /picks {"key":"@K","order":"@O","gtin":"@G","lot":"@L","bin":"@B","qty":1}
POST /shipments {"key":"@K","order":"@O"}

POST /goodsin delivery,line,gtin,lot,expiry,bin,qty|F-@N,1,@R|F-@N,2,@R|
POST /urgents {"key":"@K","order":"@O","customer":"Mill Inn","lines":[{"gtin":"04012345000016","qty":@P},{"gtin":"09506000134352","qty":@P}]}
POST /picks {"key":"@K","order":"@O","gtin":"@G","lot":"@L","bin":"@S","qty":1}
POST /leasts {"key":"@K","gtin":"@G","days":@P}

POST /goodsin delivery,line,gtin,lot,expiry,bin,qty|F-@N,1,@R|F-@N,2,@R|F-@N,3,@R|F-@E,1,@R|
POST /orders {"key":"@K","order":"@O","customer":"Harbour Cafe","lines":[{"gtin":"09506000134352","qty":@Q},{"gtin":"04012345000016","qty":@Q}]}
GET /orders/@O
POST /picks {"key":"@K","order":"@O","gtin":"@G","lot":"@L","bin":"@S","qty":1}
POST /unpicks {"key":"@K","order":"@O","gtin":"@G","lot":"@L","bin":"@S","qty":1}
POST /cancels {"key":"@K","order":"@O"}

POST /counts {"key":"@K","gtin":"@G","lot":"@L","bin":"@B","qty":@Q}
POST /adjustments {"key":"@K","gtin":"@G","lot":"@L","bin":"@B","change":@P}
POST /moves {"key":"@K","gtin":"@G","lot":"@L","from":"@B","to":"@S","qty":@P}

POST /receipts {"delivery":"D-@E","line":1,"label":"@T","bin":"@B","qty":@Q}
POST /adjustments {"key":"@K","gtin":"@G","lot":"@L","bin":"@S","change":-@P}
POST /counts {"key":"@K","gtin":"@G","lot":"@L","bin":"@B","qty":0}

POST /holds {"key":"@K","gtin":"@G","lot":"@L"}
GET /stock/@G
POST /releases {"key":"@K","gtin":"@G","lot":"@L"}

POST /days {"key":"@K","day":"@D"}

POST /receipts {"delivery":"D-@N","line":1,"label":"@T","bin":"@S","qty":@Q0}
POST /urgents {"key":"@K","order":"@O","customer":"Mill Inn","lines":[{"gtin":"@G","qty":@P}]}
POST /picks {"key":"@K","order":"@O","gtin":"@G","lot":"@L","bin":"@S","qty":1}
POST /recalls {"key":"@K","gtin":"@G","lot":"@L"}
GET /notices/@G/@L
"#;

/// A text before a number, the least number, and how many there are.
#[derive(Clone, Copy)]
struct Range(&'static str, u64, u64);

impl Range {
    fn drawn(self, alloc: Global, dice: &mut Dice) -> Option<String> {
        let Range(front, least, count) = self;
        let number = least.saturating_add(dice.below(count));
        let text = format!(in alloc; "{front}{number}");
        text.ok()
    }
}

// One item of those that are known, and now and then another.
fn gtin(dice: &mut Dice) -> &'static str {
    match dice.below(20) {
        0 => "00000000000017",
        1..=9 => "04012345000016",
        _ => "09506000134352",
    }
}

// An item that is not known at first.
fn new_gtin(dice: &mut Dice) -> &'static str {
    match dice.below(3) {
        0 => "00000000000017",
        1 => "00000000000024",
        _ => "00000000000031",
    }
}

// One STORE bin of those that are known.
fn store_bin(dice: &mut Dice) -> &'static str {
    match dice.below(2) {
        0 => "A-01",
        _ => "A-02",
    }
}

// One bin of those that are known, and now and then another.
fn bin(dice: &mut Dice) -> &'static str {
    match dice.below(20) {
        0 => "Z-99",
        1 => "RETURNS",
        2..=4 => "Q-01",
        5..=11 => "A-02",
        _ => "A-01",
    }
}

// The lots go on with the requests.
fn lot(dice: &mut Dice, at: u64) -> u64 {
    (at / 40).saturating_add(dice.below(2))
}

/// What the requests of a task are about.
#[derive(Clone, Copy)]
struct Subject {
    gtin: &'static str,
    lot: u64,
    store_bin: &'static str,
    bin: &'static str,
    /// The number of an order. The orders go on with the requests.
    order: u64,
}

impl Subject {
    fn drawn(dice: &mut Dice, at: u64) -> Subject {
        let (gtin, lot) = (gtin(dice), lot(dice, at));
        let (store_bin, bin) = (store_bin(dice), bin(dice));
        let order = (at / 8).saturating_add(dice.below(3));
        Subject {
            gtin,
            lot,
            store_bin,
            bin,
            order,
        }
    }
}

// A lot expires on a day of its own, from 2026-05-12 on; now and then another is told.
fn expiry(dice: &mut Dice, lot: u64) -> u64 {
    match dice.below(25) {
        0 => 260_630,
        _ => lot.saturating_add(260_512),
    }
}

fn label(alloc: Global, dice: &mut Dice, subject: Subject) -> Option<String> {
    let Subject { gtin, lot, .. } = subject;
    let expiry = expiry(dice, lot);
    let text = format!(in alloc; "01{gtin}17{expiry}10L{lot}");
    text.ok()
}

// A row of a goods-in file, behind its delivery and line.
fn row(alloc: Global, dice: &mut Dice, at: u64) -> Option<String> {
    let (gtin, bin, lot) = (gtin(dice), bin(dice), lot(dice, at));
    let (expiry, qty) = (expiry(dice, lot), dice.below(9).saturating_add(1));
    let text = format!(in alloc; "{gtin},L{lot},{expiry},{bin},{qty}");
    text.ok()
}

// The days go on with the requests, from 2026-05-05 on.
fn day(alloc: Global, dice: &mut Dice, at: u64) -> Option<String> {
    let day = (at / 20)
        .saturating_add(5)
        .saturating_add(dice.below(2))
        .min(31);
    let text = format!(in alloc; "2026-05-{day:02}");
    text.ok()
}

// A new key, and now and then one that an earlier request may have had.
fn key(dice: &mut Dice, at: u64) -> Range {
    match dice.is_one_of(15) {
        true => Range("K-", 100, at),
        false => Range("K-", at.saturating_add(100), 1),
    }
}

// What stands for a mark in the request at this place, of a task about this.
fn drawn(alloc: Global, dice: &mut Dice, subject: Subject, mark: &str, at: u64) -> Option<String> {
    match mark {
        "G" => String::from_str(alloc, subject.gtin).ok(),
        "S" => String::from_str(alloc, subject.store_bin).ok(),
        "B" => String::from_str(alloc, subject.bin).ok(),
        "U" => String::from_str(alloc, new_gtin(dice)).ok(),
        "T" => label(alloc, dice, subject),
        "R" => row(alloc, dice, at),
        "D" => day(alloc, dice, at),
        _ => numbers(dice, subject, mark, at)?.drawn(alloc, dice),
    }
}

fn numbers(dice: &mut Dice, subject: Subject, mark: &str, at: u64) -> Option<Range> {
    match mark {
        "L" => Some(Range("L", subject.lot, 1)),
        "O" => Some(Range("S-", subject.order, 1)),
        "K" => Some(key(dice, at)),
        "N" => Some(Range("", at, 1)),
        "E" => Some(Range("", 0, at)),
        "P" => Some(Range("", 1, 3)),
        "Q" => Some(Range("", 1, 9)),
        _ => None,
    }
}

// Adds what is drawn for the mark before a part of a kind, and the part.
fn push_drawn(
    alloc: Global,
    dice: &mut Dice,
    subject: Subject,
    text: &mut String,
    part: &str,
    at: u64,
) -> Option<()> {
    let one = drawn(alloc, dice, subject, part.get(..1)?, at)?;
    text.push_str(one.as_str()).ok()?;
    text.push_str(part.get(1..)?).ok()
}

// The kind with what is drawn in the place of each mark.
fn filled(alloc: Global, dice: &mut Dice, subject: Subject, kind: &str, at: u64) -> Option<String> {
    let (front, parts) = kind.split_once("@")?;
    let mut text = String::from_str(alloc, front).ok()?;
    for part in parts.split("@") {
        push_drawn(alloc, dice, subject, &mut text, part, at)?;
    }
    Some(text)
}

/// The rest of a task.
#[derive(Drop)]
struct Task {
    kinds: Lines<'static>,
    subject: Subject,
}

impl Task {
    fn drawn(dice: &mut Dice, at: u64) -> Option<Task> {
        let tasks = TASKS.trim();
        let count = tasks.split("\n\n").count();
        let task = tasks.split("\n\n").nth(dice.below(count as u64) as usize)?;
        Some(Task {
            kinds: task.lines(),
            subject: Subject::drawn(dice, at),
        })
    }
}

/// The request at this place, from 0 on, as the tests write it down: `METHOD PATH BODY`. It is the next of the task, or else the
/// first of another.
fn asked_at(alloc: Global, dice: &mut Dice, task: &mut Task, at: u64) -> Option<String> {
    let kind = match task.kinds.next() {
        Some(kind) => kind,
        None => {
            *task = Task::drawn(dice, at)?;
            task.kinds.next()?
        }
    };
    filled(alloc, dice, task.subject, kind, at)
}

/// The texts of so many requests. Now and then the one before comes again.
pub fn random_requests(alloc: Global, seed: u64, count: u64) -> Option<Vec<String>> {
    let mut dice = Dice::new(seed);
    let mut task = Task::drawn(&mut dice, 0)?;
    let mut texts: Vec<String> = Vec::new(alloc);
    for at in 0..count {
        let text = match texts.last() {
            Some(last) if dice.is_one_of(12) => last.clone().ok()?,
            _ => text_asked(alloc, asked_at(alloc, &mut dice, &mut task, at)?.as_str())?,
        };
        texts.push(text).ok()?;
    }
    Some(texts)
}
