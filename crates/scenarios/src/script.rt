//! The text of scenarios: parts, each a line `## NAME COUNT` and so many steps behind it. A part whose name begins with `_` is no
//! scenario: other parts take in its lines by a line `> NAME`.

use std::alloc::{AllocError, Global};

/// A step, and the number of its line.
#[derive(Clone, Copy)]
pub struct Step<'a> {
    pub number: usize,
    pub text: &'a str,
}

/// A text of scenarios.
#[derive(Drop)]
pub struct Script<'a> {
    lines: Vec<&'a str>,
}

/// What the line that begins a part says of it.
#[derive(Clone, Copy)]
pub struct Head<'a> {
    pub name: &'a str,
    /// How many steps stand behind the line, where it says so.
    pub said: Option<usize>,
}

/// The part that this line begins.
pub fn begun<'a>(line: &'a str) -> Option<Head<'a>> {
    let rest = line.strip_prefix("## ")?;
    let (name, count) = rest.split_once(" ").unwrap_or((rest, ""));
    Some(Head {
        name,
        said: count.parse().ok(),
    })
}

/// The name of the scenario that this line begins.
pub fn scenario<'a>(line: &'a str) -> Option<&'a str> {
    match begun(line) {
        Some(head) if !head.name.starts_with("_") => Some(head.name),
        _ => None,
    }
}

fn is_step(line: &str) -> bool {
    !line.is_empty() && !line.starts_with("#")
}

impl<'a> Script<'a> {
    /// The lines of the text.
    pub fn of(alloc: Global, text: &'a str) -> Option<Script<'a>> {
        let mut lines = Vec::new(alloc);
        for line in text.lines() {
            lines.push(line).ok()?;
        }
        Some(Script { lines })
    }

    /// All lines.
    pub fn lines(&self) -> &[&'a str] {
        self.lines.as_slice()
    }

    /// How many steps the first line says that there are.
    pub fn said(&self) -> Option<usize> {
        let first = self.lines.as_slice().first()?;
        first.strip_prefix("steps ")?.parse().ok()
    }

    /// How many steps all scenarios have, each with those of the parts that it takes in.
    pub fn count(&self, alloc: Global) -> Option<usize> {
        let mut count: usize = 0;
        for (at, line) in self.lines.as_slice().iter().enumerate() {
            if scenario(line).is_some() {
                let steps = self.steps(alloc, at.saturating_add(1))?;
                count = count.saturating_add(steps.len());
            }
        }
        Some(count)
    }

    /// How many steps stand behind this line, up to the next part.
    pub fn own_count(&self, from: usize) -> usize {
        let mut count: usize = 0;
        for line in self.lines.as_slice().iter().skip(from) {
            if line.starts_with("## ") {
                return count;
            }
            if is_step(line) {
                count = count.saturating_add(1);
            }
        }
        count
    }

    // The lines behind the line that begins the part of this name; none where there is no such part.
    fn part(&self, name: &str) -> Option<usize> {
        for (at, line) in self.lines.as_slice().iter().enumerate() {
            if let Some(head) = begun(line) {
                if head.name == name {
                    return Some(at.saturating_add(1));
                }
            }
        }
        None
    }

    /// Lines of a part, each with its end, from the first to the last of these numbers: `PART 1 5`. None where it has fewer.
    pub fn part_lines(&self, alloc: Global, text: &str) -> Option<String> {
        let (name, numbers) = text.split_once(" ")?;
        let (first, last) = numbers.split_once(" ")?;
        let (first, last): (usize, usize) = (first.parse().ok()?, last.parse().ok()?);
        let from = self.part(name)?.saturating_add(first).saturating_sub(1);
        let count = last.saturating_add(1).saturating_sub(first);
        let part = self.lines.as_slice().get(from..from.saturating_add(count))?;
        let mut lines = String::new(alloc);
        for line in part {
            if line.starts_with("## ") {
                return None;
            }
            lines.push_str(line).ok()?;
            lines.push_str("\n").ok()?;
        }
        Some(lines)
    }

    fn push_part(&self, steps: &mut Vec<Step<'a>>, from: usize) -> Result<(), AllocError> {
        for (at, line) in self.lines.as_slice().iter().enumerate().skip(from) {
            if line.starts_with("## ") {
                return Ok(());
            }
            if is_step(line) {
                let number = at.saturating_add(1);
                steps.push(Step {
                    number,
                    text: *line,
                })?;
            }
        }
        Ok(())
    }

    /// The steps behind this line, with those of the parts that are taken in. A part that is not there stays as a step.
    pub fn steps(&self, alloc: Global, from: usize) -> Option<Vec<Step<'a>>> {
        let mut steps = Vec::new(alloc);
        let mut own = Vec::new(alloc);
        self.push_part(&mut own, from).ok()?;
        for step in own.as_slice() {
            let part = match step.text.strip_prefix("> ") {
                Some(name) => self.part(name),
                None => None,
            };
            match part {
                Some(from) => self.push_part(&mut steps, from).ok()?,
                None => steps.push(*step).ok()?,
            }
        }
        Some(steps)
    }
}
