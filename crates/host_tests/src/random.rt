//! Requests of every kind at random, asked of two houses: one knows what it read, the other forgets it before each request.

use crate::deeds::{Deed, are_alike, books_after, done};
use book_trials::{History, random_requests};
use std::process::Abort;

/// After how many requests more the books of both are closed and all rows compared.
static PARTS: [usize; 3] = [20, 60, 140];

/// What an act of each kind begins with.
static KINDS: &str =
    "POST /items |POST /bins |POST /receipts |POST /goodsin |POST /moves |POST /counts |POST /adjustments |POST /orders |POST /urgents |POST /cancels |POST /picks |POST /unpicks |POST /shipments |POST /holds |POST /releases |POST /recalls |POST /days |POST /leasts ";

/// How many acts of each kind are done, at least.
const LEAST_DONE: u64 = 3;

// Adds how many requests of each kind were answered, and not refused.
fn count_done(counts: &mut [u64], texts: &[String], heard: &[Vec<u8>]) {
    for (kind, count) in KINDS.split("|").zip(counts.iter_mut()) {
        for (text, answer) in texts.iter().zip(heard.iter()) {
            let is_done = answer.as_slice().starts_with(b"HTTP/1.1 200");
            let is_of = text.as_str().starts_with(kind);
            *count = count.saturating_add(u64::from(is_done && is_of));
        }
    }
}

// The houses go on alike.
fn go_alike(host: &HostRuntime, rt: &impl Abort, seed: u64, counts: &mut [u64]) {
    let texts = random_requests(host.alloc(), seed, 220).expect(rt, "memory");
    let goods = History::GoodsAndBins.text();
    let (mut keeping, mut forgetting) = (
        books_after(host, rt, goods),
        books_after(host, rt, goods),
    );
    let mut rest = texts.as_slice();
    for count in PARTS.as_slice() {
        let (part, next) = rest.split_at(rest.len().min(*count));
        let (left, ours) = done(host, rt, &keeping, [Deed::Ask(part), Deed::Rows].as_slice());
        keeping = left;
        let (left, theirs) = done(
            host,
            rt,
            &forgetting,
            [Deed::AskAnew(part), Deed::Rows].as_slice(),
        );
        forgetting = left;
        are_alike(rt, part, ours.as_slice(), theirs.as_slice());
        count_done(counts, part, ours.as_slice());
        rest = next;
    }
}

#[test]
fn random_requests_are_answered_alike(rt: HostRuntime) {
    let mut counts = [0; 18];
    go_alike(&rt, &rt, 1, counts.as_mut_slice());
    go_alike(&rt, &rt, 129, counts.as_mut_slice());
    for (kind, count) in KINDS.split("|").zip(counts.iter()) {
        assert!(&rt; *count >= LEAST_DONE, "{kind}{count}");
    }
}
