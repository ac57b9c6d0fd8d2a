//! Steps over one connection to files in memory.

use crate::inputs::{Inputs, is_input};
use crate::place::{At, Beside, End, Scene, closed_at, left_at};
use crate::script::Step;
use crate::steps::{AUDIT, step, whole_line};
use crate::told::Told;
use book_trials::{Failures, Pair, Stopping};
use books_schema::ready_connection::{Leftover, Orderly};
use sqlite::{Connection, Files, Options};
use std::alloc::Global;

/// How steps are taken.
#[derive(Clone, Copy)]
pub struct Taking {
    /// The books are closed and opened again before each request.
    pub is_reopened: bool,
    /// They end at the first step that ends otherwise, which is told only where no disk failed.
    pub is_tried: bool,
    /// A step whose disk failed is taken once more.
    pub is_twice: bool,
    /// The first step may have been done before.
    pub goes_on: bool,
    /// The books are audited at the end, and first too, where they are not to be made first.
    pub is_audited: bool,
}

/// As a scenario stands.
pub const PLAIN: Taking = Taking {
    is_reopened: false,
    is_tried: false,
    is_twice: false,
    goes_on: false,
    is_audited: false,
};

/// Steps over one connection.
#[derive(Drop)]
pub struct Trial<'a> {
    scene: Scene<'a>,
    steps: &'a [Step<'a>],
    taking: Taking,
    told: &'a mut Told,
    inputs: Inputs,
    /// The next step may have been done before.
    is_again: bool,
    /// How many steps ended as they say.
    done: usize,
    is_over: bool,
    /// A connection was opened over the files.
    is_opened: bool,
    /// What the last audit printed.
    audit: Vec<u8>,
}

// Whether what was written stands for `@` in the step.
fn is_filled(text: &str) -> bool {
    text.contains("@") && !text.starts_with("line ") && !text.starts_with("words ")
}

impl<'a> Trial<'a> {
    /// Steps of a scenario, of which none was taken.
    pub fn of(
        scene: Scene<'a>,
        steps: &'a [Step<'a>],
        taking: Taking,
        told: &'a mut Told,
    ) -> Trial<'a> {
        Trial {
            scene,
            steps,
            taking,
            told,
            inputs: Inputs::new(scene.host.alloc()),
            is_again: taking.goes_on,
            done: 0,
            is_over: false,
            is_opened: false,
            audit: Vec::new(scene.host.alloc()),
        }
    }

    /// How many steps ended as they say, from the first on.
    pub fn done(&self) -> usize {
        self.done
    }

    // Tells files over which no connection opens: none of the steps was taken.
    fn tell_opened(&mut self) {
        if !self.is_opened {
            let number = first_number(self.steps);
            self.told.fail(number, "no connection opens over the files");
        }
    }

    fn stepped<S: Orderly + Drop>(&mut self, at: At<S>, text: &str) -> (At<S>, End) {
        let beside = Beside {
            scene: self.scene,
            input: self.inputs.read(),
            room: self.inputs.room(),
            is_again: self.is_again,
        };
        if is_filled(text) {
            return match self.inputs.filled(text) {
                Some(text) => step(beside, at, text.as_str(), self.told),
                None => (at, End::Other),
            };
        }
        step(beside, at, text, self.told)
    }

    fn tell_end(&mut self, end: End, step: &Step<'_>) {
        match end {
            End::So => self.done = self.done.saturating_add(1),
            End::Failed if self.taking.is_tried => self.is_over = true,
            _ => {
                self.is_over = self.taking.is_tried;
                self.done = self.done.saturating_add(1);
                self.told.fail(step.number, step.text);
            }
        }
    }

    fn add(&mut self, step: &Step<'_>) {
        if self.inputs.add(self.scene.script, step.text).is_none() {
            self.told.fail(step.number, step.text);
        }
        self.done = self.done.saturating_add(1);
    }

    // Once, or twice where a call of the disk failed.
    fn tried<S: Orderly + Drop>(&mut self, at: At<S>, text: &str) -> (At<S>, End) {
        let (at, end) = self.stepped(at, text);
        match end {
            End::Failed if self.taking.is_twice => {
                self.is_again = true;
                self.stepped(at, text)
            }
            end => (at, end),
        }
    }

    fn take<S: Orderly + Drop>(&mut self, at: At<S>, step: &Step<'_>) -> At<S> {
        self.told.step();
        if is_input(step.text) {
            self.add(step);
            return at;
        }
        let at = match self.taking.is_reopened {
            true => closed_at(at),
            false => at,
        };
        let (at, end) = self.tried(at, step.text);
        self.is_again = false;
        self.inputs.take();
        self.tell_end(end, step);
        at
    }

    // The books are sound.
    fn audited<S: Orderly + Drop>(&mut self, at: At<S>) -> At<S> {
        let beside = Beside {
            scene: self.scene,
            input: "",
            room: None,
            is_again: false,
        };
        match closed_at(at) {
            At::Left(Leftover::Connection(conn)) => {
                let (at, found) = whole_line(beside, conn, AUDIT, self.told);
                match found {
                    Some(found) => self.audit = found,
                    None => self.told.fail(first_number(self.steps), "the audit"),
                }
                at
            }
            other => other,
        }
    }

    /// Takes the steps, and gives what is left of the connection.
    pub fn run<S: Orderly + Drop>(&mut self, conn: Connection<S>) -> Option<Leftover<S>> {
        let mut at = At::Left(Leftover::Connection(conn));
        let steps = self.steps;
        self.is_opened = true;
        if self.taking.is_audited && !is_made_first(steps) {
            at = self.audited(at);
        }
        for step in steps {
            if self.is_over {
                break;
            }
            at = self.take(at, step);
        }
        if self.taking.is_audited {
            at = self.audited(at);
        }
        left_at(at)
    }
}

/// The number of the line of the first step.
pub fn first_number(steps: &[Step<'_>]) -> usize {
    steps.first().map_or(0, |step| step.number)
}

/// Whether the first step makes books.
pub fn is_made_first(steps: &[Step<'_>]) -> bool {
    steps.first().is_some_and(|step| step.text == "make")
}

// The one function over the connection's own type: each takes long to check.
fn over(
    alloc: Global,
    files: Files<Stopping>,
    options: Options,
    trial: &mut Trial<'_>,
) -> Option<Files<Stopping>> {
    if !files.may_be_used() {
        return Some(files);
    }
    let conn = match Connection::open_files(alloc, files, options) {
        Ok(conn) => conn,
        Err((_, left)) => return Some(left.into_files()),
    };
    let conn = match trial.run(conn)? {
        Leftover::Connection(conn) => conn,
        Leftover::Store(store) => return Some(store.close()),
    };
    match conn.close_files() {
        Ok(files) => Some(files),
        Err((_, store)) => Some(store.close()),
    }
}

/// The files after the steps, over disks of which these calls fail. None where the connection is lost.
pub fn after(
    alloc: Global,
    files: &Pair,
    failures: Failures,
    options: Options,
    trial: &mut Trial<'_>,
) -> Option<Pair> {
    let files = files.disks(alloc, failures)?;
    let files = over(alloc, files, options, trial)?;
    Pair::of(alloc, files)
}

/// The files after the steps, where no call fails, and what the last audit printed. None where the connection is lost.
pub fn run_stretch(
    scene: Scene<'_>,
    steps: &[Step<'_>],
    files: &Pair,
    taking: Taking,
    told: &mut Told,
) -> Option<(Pair, Vec<u8>)> {
    let alloc = scene.host.alloc();
    let mut trial = Trial::of(scene, steps, taking, told);
    let left = after(alloc, files, Failures::NONE, Options::new(1), &mut trial)?;
    trial.tell_opened();
    let Trial { audit, .. } = trial;
    Some((left, audit))
}
