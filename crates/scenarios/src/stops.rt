//! Steps whose disks stop after each so many calls, or of whose calls one fails; what is left of the files is opened and
//! audited, and the scenario goes on from the step that was not done.

use crate::inputs::is_input;
use crate::place::Scene;
use crate::script::Step;
use crate::told::Told;
use crate::trial::{PLAIN, Taking, Trial, after, first_number, is_made_first, run_stretch};
use book_trials::{Failures, Loss, Pair};
use sqlite::Options;
use trial_disk::Failure;

/// How many frames the log has before it is copied into the database, so that this comes within a scenario too.
const LOG_FRAMES: usize = 20;

/// What a stop may lose of the log and of the database.
static LOSSES: [(Loss, Loss); 5] = [
    (Loss::Nothing, Loss::Nothing),
    (Loss::All, Loss::All),
    (Loss::Torn, Loss::Torn),
    (Loss::Nothing, Loss::All),
    (Loss::All, Loss::Nothing),
];

/// More stops than a scenario has.
const MANY: u64 = 100_000;

/// What fails.
#[derive(Clone, Copy)]
pub struct Failing<'a> {
    pub every: u64,
    /// One call, and not each later one.
    pub is_one: bool,
    /// A call of the log, and not of the database.
    pub is_of_log: bool,
    /// What an audit prints in the end, where the books are sound.
    pub audit: Option<&'a [u8]>,
}

impl Failing<'_> {
    fn failures(self, after: u64) -> Failures {
        let failure = match self.is_one {
            true => Failure::once(after),
            false => Failure::stop(after),
        };
        match self.is_of_log {
            true => Failures {
                log: failure,
                db: Failure::NONE,
            },
            false => Failures {
                log: Failure::NONE,
                db: failure,
            },
        }
    }

    // What of what these files have may be lost of the log and of the database: one way where all is synced, and three where
    // that of one of them can be lost.
    fn losses(self, left: &Pair) -> &'static [(Loss, Loss)] {
        match left.unsynced() {
            _ if self.is_one => &LOSSES[..1],
            0 => &LOSSES[..1],
            1 => &LOSSES[..3],
            _ => LOSSES.as_slice(),
        }
    }
}

fn options() -> Options {
    Options {
        checkpoint_frames: LOG_FRAMES,
        ..Options::new(1)
    }
}

// Whether a file is refused, or what it is answered once it was taken in is said too.
fn is_file_again(text: &str) -> bool {
    match text.split_once(" => ") {
        Some((_, told)) => told.contains(" => ") || !told.starts_with("200 "),
        None => false,
    }
}

// Whether a line of the program may be run again.
fn is_line_again(text: &str) -> bool {
    let (first, _) = text.split_once(" ").unwrap_or((text, ""));
    match first {
        "apply" | "import" | "history" | "audit" | "card" | "notice" => true,
        _ => false,
    }
}

// Whether a step may be done again: no statement, and none that has another end then.
fn is_again(step: &Step<'_>) -> bool {
    let text = step.text;
    let (first, rest) = text.split_once(" ").unwrap_or((text, ""));
    match first {
        "POST" => !rest.starts_with("/goodsin") || is_file_again(text),
        "line" => is_line_again(rest),
        "audit" => rest.starts_with("=> "),
        "sql" => rest.starts_with("SELECT "),
        "GET" | "times" | "rows" | "make" | "open" => rest != "none",
        "in" | "with" => true,
        _ => false,
    }
}

/// Whether each of the steps may be done again, and there are some.
pub fn are_again(steps: &[Step<'_>]) -> bool {
    !steps.is_empty() && steps.iter().all(is_again)
}

// The first step of those from which a scenario goes on: what a line reads stands before it.
fn begin_of(steps: &[Step<'_>], done: usize) -> usize {
    let mut from = 0;
    for (at, step) in steps.iter().enumerate().take(done) {
        if !is_input(step.text) {
            from = at.saturating_add(1);
        }
    }
    from
}

// What an audit prints of the files, where they have books that are sound.
fn audit_of(scene: Scene<'_>, files: &Pair) -> Option<Vec<u8>> {
    let taking = Taking {
        is_audited: true,
        ..PLAIN
    };
    let mut told = Told::new(scene.host.alloc());
    let (_, found) = run_stretch(scene, &[], files, taking, &mut told)?;
    match told.has_failed() {
        true => None,
        false => Some(found),
    }
}

fn goes_on(
    scene: Scene<'_>,
    steps: &[Step<'_>],
    left: &Pair,
    failing: Failing<'_>,
    told: &mut Told,
) {
    let taking = Taking {
        goes_on: true,
        is_audited: failing.audit.is_some(),
        ..PLAIN
    };
    for (log, db) in failing.losses(left) {
        let files = left.left(scene.host.alloc(), *log, *db);
        let found = match files {
            Some(files) => run_stretch(scene, steps, &files, taking, told),
            None => None,
        };
        tell_audit(found, failing, first_number(steps), told);
    }
}

// Tells books that are not those which the steps leave where nothing fails.
fn tell_audit(
    found: Option<(Pair, Vec<u8>)>,
    failing: Failing<'_>,
    number: usize,
    told: &mut Told,
) {
    let Some((_, found)) = found else {
        told.fail(number, "the connection is lost");
        return;
    };
    if found.as_slice() != failing.audit.unwrap_or(b"".as_slice()) {
        told.note(found.as_slice());
        told.fail(number, "the last audit");
    }
}

// What the steps leave of files whose disks fail after so many calls, and the step from which the scenario goes on.
fn tried(
    scene: Scene<'_>,
    steps: &[Step<'_>],
    files: &Pair,
    failing: Failing<'_>,
    calls: u64,
    told: &mut Told,
) -> (Option<Pair>, usize) {
    let taking = Taking {
        is_tried: true,
        is_twice: failing.is_one,
        ..PLAIN
    };
    let failures = failing.failures(calls);
    let mut trial = Trial::of(scene, steps, taking, told);
    let left = after(scene.host.alloc(), files, failures, options(), &mut trial);
    let from = begin_of(steps, trial.done());
    (left, from)
}

// The steps with disks that fail after so many calls. Whether any call failed.
fn fails_after(
    scene: Scene<'_>,
    steps: &[Step<'_>],
    files: &Pair,
    failing: Failing<'_>,
    calls: u64,
    told: &mut Told,
) -> bool {
    let (left, from) = tried(scene, steps, files, failing, calls, told);
    let Some(left) = left else {
        told.fail(0, "the connection is lost");
        return false;
    };
    if left.refused() == 0 {
        return false;
    }
    told.stop();
    let rest = steps.get(from..).unwrap_or(&[]);
    goes_on(scene, rest, &left, failing, told);
    true
}

fn fails_at_each(
    scene: Scene<'_>,
    steps: &[Step<'_>],
    files: &Pair,
    failing: Failing<'_>,
    told: &mut Told,
) {
    for stop in 0..MANY {
        let calls = stop.saturating_mul(failing.every);
        if !fails_after(scene, steps, files, failing, calls, told) {
            return;
        }
    }
}

/// Takes steps over these files, each so many calls of the one and of the other disk failing, where plain ones left these.
pub fn run_stops(
    scene: Scene<'_>,
    steps: &[Step<'_>],
    files: (&Pair, &Pair),
    failing: Failing<'_>,
    told: &mut Told,
) {
    let (before, left) = files;
    let is_begun = is_made_first(steps) || audit_of(scene, before).is_some();
    let audit = match is_begun {
        true => audit_of(scene, left),
        false => None,
    };
    for is_of_log in [true, false] {
        let failing = Failing {
            is_of_log,
            audit: audit.as_ref().map(|found| found.as_slice()),
            ..failing
        };
        fails_at_each(scene, steps, before, failing, told);
    }
}
