//! Runs scenarios: texts with a step a line, each with what it ends in. The words of the program are ways to take a scenario
//! (`plain`, `reopened`, `stops=N`, `fails=N`), and behind each the files of scenarios that are taken so.
#![tactic(auto)]

mod exchanges;
mod handed;
mod inputs;
mod lines;
mod place;
mod row_steps;
mod script;
mod steps;
mod stops;
mod told;
mod trial;
mod ways;

use place::Scene;
use script::Script;
use std::alloc::Global;
use std::io::Write;
use std::process::ExitCode;
use std::{env, fs};
use told::Told;
use ways::{Way, run_scenario};

fn tell_count(alloc: Global, number: usize, line: &str, count: usize, told: &mut Told) {
    if let Ok(text) = format!(in alloc; "steps {count}") {
        told.note(text.as_bytes());
    }
    told.fail(number, line);
}

// The first line says how many steps all scenarios have.
fn count_all(alloc: Global, script: &Script<'_>, told: &mut Told) {
    let count = script.count(alloc);
    if count != script.said() || count.is_none() {
        let first = script.lines().first().copied().unwrap_or("");
        tell_count(alloc, 1, first, count.unwrap_or(0), told);
    }
}

// The line that begins a part says how many steps stand behind it.
fn count_parts(alloc: Global, script: &Script<'_>, told: &mut Told) {
    for (at, line) in script.lines().iter().enumerate() {
        if let Some(head) = script::begun(line) {
            let number = at.saturating_add(1);
            let count = script.own_count(number);
            if head.said != Some(count) {
                tell_count(alloc, number, line, count, told);
            }
        }
    }
}

// Each scenario, in turn.
fn run_script(rt: &HostRuntime, script: &Script<'_>, way: Way, told: &mut Told) {
    let scene = Scene { host: rt, script };
    for (at, line) in script.lines().iter().enumerate() {
        if let Some(name) = script::scenario(line) {
            told.begin(name);
            match script.steps(rt.alloc(), at.saturating_add(1)) {
                Some(steps) => run_scenario(scene, steps.as_slice(), way, told),
                None => told.fail(0, "no memory"),
            }
        }
    }
}

fn run_text(rt: &HostRuntime, text: &str, way: Way, told: &mut Told) {
    match Script::of(rt.alloc(), text) {
        Some(script) => {
            count_all(rt.alloc(), &script, told);
            count_parts(rt.alloc(), &script, told);
            run_script(rt, &script, way, told);
        }
        None => told.fail(0, "no memory"),
    }
}

// The scenarios of a file, and how they came out.
fn run_file(rt: &HostRuntime, path: &str, way: Way, told: &mut Told) {
    told.open(path);
    match fs::read_to_string(rt, path) {
        Ok(text) => run_text(rt, text.as_str(), way, told),
        Err(_) => told.fail(0, "cannot be read"),
    }
    match way.word(rt.alloc()) {
        Ok(word) => told.close(word.as_str()),
        Err(_) => told.fail(0, "no memory"),
    }
    let _ = rt.stdout().write_all(told.take().as_slice());
}

fn words(rt: &HostRuntime) -> Option<Vec<String>> {
    let args = env::args(rt).ok()?;
    args.collect(rt.alloc()).ok()
}

fn run_words(rt: &HostRuntime, words: &[String], told: &mut Told) {
    let mut taken = Way::Plain;
    for word in words.iter().skip(1) {
        match Way::of(word.as_str()) {
            Some(way) => taken = way,
            None => run_file(rt, word.as_str(), taken, told),
        }
    }
}

fn main(rt: HostRuntime) -> ExitCode {
    let mut told = Told::new(rt.alloc());
    match words(&rt) {
        Some(words) => run_words(&rt, words.as_slice(), &mut told),
        None => told.fail(0, "no words"),
    }
    let _ = rt.stdout().write_all(told.take().as_slice());
    match told.has_failed() {
        false => ExitCode::SUCCESS,
        true => ExitCode::FAILURE,
    }
}
