//! What stands before the steps that use it: what a line of the program reads, how much it can print, and what stands for `@` in
//! an exchange.

use crate::place::signs_read;
use crate::script::Script;
use book_trials::of_numbers;
use std::alloc::Global;

/// What the steps so far said of those behind them.
#[derive(Drop)]
pub struct Inputs {
    alloc: Global,
    /// What the next line of the program reads, or the last one has read.
    read: String,
    is_read: bool,
    /// How many bytes the next line can print.
    room: Option<usize>,
    /// What stands for `@`.
    written: String,
}

/// Whether a step only adds to these.
pub fn is_input(text: &str) -> bool {
    let (first, _) = text.split_once(" ").unwrap_or((text, ""));
    match first {
        "in" | "full" | "with" => true,
        _ => false,
    }
}

impl Inputs {
    /// Nothing yet.
    pub fn new(alloc: Global) -> Inputs {
        Inputs {
            alloc,
            read: String::new(alloc),
            is_read: false,
            room: None,
            written: String::new(alloc),
        }
    }

    /// What a line of the program reads.
    pub fn read(&self) -> &str {
        self.read.as_str()
    }

    /// How many bytes it can print, where its output is to be full.
    pub fn room(&self) -> Option<usize> {
        self.room
    }

    /// The text with what stands for `@`.
    pub fn filled(&self, text: &str) -> Option<String> {
        text.replace(self.alloc, '@', self.written.as_str()).ok()
    }

    /// A step was taken: what a line reads begins anew.
    pub fn take(&mut self) {
        self.is_read = true;
        self.room = None;
    }

    // `COUNT BETWEEN WRITTEN`: what is written of each of so many numbers, with a mark between each two.
    fn write(&mut self, text: &str) -> Option<()> {
        let (count, rest) = text.split_once(" ")?;
        let (between, written) = rest.split_once(" ")?;
        let count: u64 = count.parse().ok()?;
        let written = signs_read(self.alloc, written)?;
        self.written = of_numbers(self.alloc, written.as_str(), between, count)?;
        Some(())
    }

    // A line, or lines of a part.
    fn push(&mut self, script: &Script<'_>, text: &str) -> Option<()> {
        if self.is_read {
            self.read = String::new(self.alloc);
            self.is_read = false;
        }
        if let Some(part) = text.strip_prefix("@") {
            let lines = script.part_lines(self.alloc, part)?;
            return self.read.push_str(lines.as_str()).ok();
        }
        let line = self.filled(text)?;
        let line = signs_read(self.alloc, line.as_str())?;
        self.read.push_str(line.as_str()).ok()?;
        self.read.push_str("\n").ok()
    }

    /// Adds what this step says; none where it says nothing.
    pub fn add(&mut self, script: &Script<'_>, text: &str) -> Option<()> {
        let (first, rest) = text.split_once(" ").unwrap_or((text, ""));
        match first {
            "with" => self.write(rest),
            "full" => {
                self.room = Some(rest.parse().ok()?);
                Some(())
            }
            _ => self.push(script, rest),
        }
    }
}
