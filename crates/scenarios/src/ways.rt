//! A scenario over files in memory, which are closed and opened again where it says `again`, and the ways to take it. Behind
//! `each`, every step is over the files as they stood there.

use crate::inputs::is_input;
use crate::place::Scene;
use crate::script::Step;
use crate::stops::{Failing, are_again, run_stops};
use crate::told::Told;
use crate::trial::{PLAIN, Taking, run_stretch};
use book_trials::Pair;
use std::alloc::{AllocError, Global};
use std::fs;

/// How scenarios are taken.
#[derive(Clone, Copy)]
pub enum Way {
    /// As they stand.
    Plain,
    /// The books are closed and opened again before each request.
    Reopened,
    /// The disks stop after each so many calls.
    Stops(u64),
    /// One call of each so many fails.
    Fails(u64),
}

impl Way {
    /// The way of this word: `plain`, `reopened`, `stops=N` or `fails=N`.
    pub fn of(word: &str) -> Option<Way> {
        let (name, number) = word.split_once("=").unwrap_or((word, "0"));
        let every = number.parse().ok()?;
        match name {
            "plain" => Some(Way::Plain),
            "reopened" => Some(Way::Reopened),
            "stops" => Some(Way::Stops(every)),
            "fails" => Some(Way::Fails(every)),
            _ => None,
        }
    }

    /// Its word.
    pub fn word(self, alloc: Global) -> Result<String, AllocError> {
        match self {
            Way::Plain => format!(in alloc; "plain"),
            Way::Reopened => format!(in alloc; "reopened"),
            Way::Stops(every) => format!(in alloc; "stops={every}"),
            Way::Fails(every) => format!(in alloc; "fails={every}"),
        }
    }

    fn taking(self) -> Taking {
        match self {
            Way::Reopened => Taking {
                is_reopened: true,
                ..PLAIN
            },
            _ => PLAIN,
        }
    }

    // What fails, beside a run of the steps as they stand.
    fn failing(self) -> Option<Failing<'static>> {
        let (every, is_one) = match self {
            Way::Stops(every) => (every, false),
            Way::Fails(every) => (every, true),
            _ => return None,
        };
        Some(Failing {
            every: every.max(1),
            is_one,
            is_of_log: false,
            audit: None,
        })
    }
}

// Steps over one connection, and the files after them.
fn take(
    scene: Scene<'_>,
    steps: &[Step<'_>],
    files: &Pair,
    way: Way,
    told: &mut Told,
) -> Option<Pair> {
    let (left, _) = run_stretch(scene, steps, files, way.taking(), told)?;
    if let Some(failing) = way.failing() {
        if are_again(steps) {
            run_stops(scene, steps, (files, &left), failing, told);
        }
    }
    Some(left)
}

// Whether a step only makes ready what the next one is over.
fn is_before(text: &str) -> bool {
    is_input(text) || text.starts_with("sql ") && !text.contains(" => ")
}

// Each step over the same files, with the inputs and the statements before it.
fn take_each(scene: Scene<'_>, steps: &[Step<'_>], files: &Pair, way: Way, told: &mut Told) {
    let mut from = 0;
    for (at, step) in steps.iter().enumerate() {
        let behind = at.saturating_add(1);
        if !is_before(step.text) || behind == steps.len() {
            let one = steps.get(from..behind).unwrap_or(&[]);
            if run_stretch(scene, one, files, way.taking(), told).is_none() {
                told.fail(step.number, step.text);
            }
            from = behind;
        }
    }
}

// Whether a step ends what is done over one connection.
fn is_end(text: &str) -> bool {
    text == "again" || text == "unchanged" || text == "each" || text.starts_with("file ")
}

// The files of what comes behind the end of a stretch, which left these: `unchanged` wants a database of the same bytes as
// before it, and `file NAME` takes books from a file.
fn files_behind(scene: Scene<'_>, end: &str, before: &Pair, left: Pair) -> Option<Pair> {
    if let Some(name) = end.strip_prefix("file ") {
        let bytes = fs::read(scene.host, name).ok()?;
        return Pair::holding(scene.host.alloc(), bytes);
    }
    match end == "unchanged" && !left.is_same_database(before) {
        true => None,
        false => Some(left),
    }
}

// The steps up to this end, and the files of what comes behind it.
fn take_to(
    scene: Scene<'_>,
    steps: &[Step<'_>],
    end: &Step<'_>,
    files: &Pair,
    way: Way,
    told: &mut Told,
) -> Option<Pair> {
    let left = take(scene, steps, files, way, told)?;
    told.step();
    files_behind(scene, end.text, files, left)
}

fn take_all(scene: Scene<'_>, steps: &[Step<'_>], way: Way, told: &mut Told) -> Result<(), usize> {
    let mut files = Pair::empty(scene.host.alloc());
    let mut from = 0;
    for (at, step) in steps.iter().enumerate() {
        if is_end(step.text) {
            let stretch = steps.get(from..at).unwrap_or(&[]);
            let left = take_to(scene, stretch, step, &files, way, told);
            files = left.ok_or(at)?;
            from = at.saturating_add(1);
        }
        if step.text == "each" {
            let rest = steps.get(from..).unwrap_or(&[]);
            take_each(scene, rest, &files, way, told);
            return Ok(());
        }
    }
    let rest = steps.get(from..).unwrap_or(&[]);
    match take(scene, rest, &files, way, told) {
        Some(_) => Ok(()),
        None => Err(from),
    }
}

/// Takes a scenario so.
pub fn run_scenario(scene: Scene<'_>, steps: &[Step<'_>], way: Way, told: &mut Told) {
    let stops = told.stops();
    if let Err(at) = take_all(scene, steps, way, told) {
        let (number, text) = steps
            .get(at)
            .map_or((0, ""), |step| (step.number, step.text));
        told.fail(number, text);
    }
    if way.failing().is_some() && told.stops() == stops {
        told.pass();
    }
}
