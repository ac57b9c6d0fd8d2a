//! What came of the scenarios.

use std::alloc::{AllocError, Global};
use std::mem;

/// What there was in a file of scenarios.
#[derive(Clone, Copy)]
struct Counts {
    scenarios: u64,
    passed: u64,
    steps: u64,
    stops: u64,
    failed: u64,
}

const NONE: Counts = Counts {
    scenarios: 0,
    passed: 0,
    steps: 0,
    stops: 0,
    failed: 0,
};

/// What is told of them.
#[derive(Drop)]
pub struct Told {
    alloc: Global,
    text: Vec<u8>,
    file: String,
    scenario: String,
    found: Vec<u8>,
    counts: Counts,
    has_failed: bool,
}

impl Told {
    /// Nothing yet.
    pub fn new(alloc: Global) -> Told {
        Told {
            alloc,
            text: Vec::new(alloc),
            file: String::new(alloc),
            scenario: String::new(alloc),
            found: Vec::new(alloc),
            counts: NONE,
            has_failed: false,
        }
    }

    /// What was told since the last time.
    pub fn take(&mut self) -> Vec<u8> {
        mem::replace(&mut self.text, Vec::new(self.alloc))
    }

    /// Whether a line of any file ended otherwise.
    pub fn has_failed(&self) -> bool {
        self.has_failed
    }

    fn push(&mut self, text: Result<String, AllocError>) {
        if let Ok(text) = text {
            let _ = self.text.extend_from_slice(text.as_bytes());
        }
    }

    /// The scenarios of this file follow.
    pub fn open(&mut self, file: &str) {
        self.file = String::new(self.alloc);
        let _ = self.file.push_str(file);
        self.scenario = String::new(self.alloc);
        self.counts = NONE;
    }

    /// How those of the file came out, which were taken so.
    pub fn close(&mut self, way: &str) {
        let Counts {
            scenarios,
            passed,
            steps,
            stops,
            failed,
        } = self.counts;
        let text = format!(in self.alloc;
            "{} {way}: {scenarios} scenarios, {passed} passed over, {steps} steps, {stops} stops, {failed} otherwise\n",
            self.file.as_str()
        );
        self.push(text);
    }

    /// The steps of this scenario follow.
    pub fn begin(&mut self, scenario: &str) {
        self.scenario = String::new(self.alloc);
        let _ = self.scenario.push_str(scenario);
        self.counts.scenarios = self.counts.scenarios.saturating_add(1);
    }

    /// The scenario is taken in no other way.
    pub fn pass(&mut self) {
        self.counts.passed = self.counts.passed.saturating_add(1);
    }

    /// A step more.
    pub fn step(&mut self) {
        self.counts.steps = self.counts.steps.saturating_add(1);
        self.found = Vec::new(self.alloc);
    }

    /// A stop more.
    pub fn stop(&mut self) {
        self.counts.stops = self.counts.stops.saturating_add(1);
    }

    /// How many stops there were in the file.
    pub fn stops(&self) -> u64 {
        self.counts.stops
    }

    /// What a step found.
    pub fn note(&mut self, found: &[u8]) {
        self.found = Vec::new(self.alloc);
        let _ = self.found.extend_from_slice(found);
    }

    /// A line that ended otherwise.
    pub fn fail(&mut self, number: usize, line: &str) {
        self.has_failed = true;
        self.counts.failed = self.counts.failed.saturating_add(1);
        let text = format!(in self.alloc;
            "{}:{number} {}: {line}\n    found: ",
            self.file.as_str(),
            self.scenario.as_str()
        );
        self.push(text);
        let _ = self.text.extend_from_slice(self.found.as_slice());
        let _ = self.text.extend_from_slice(b"\n");
        self.found = Vec::new(self.alloc);
    }
}
