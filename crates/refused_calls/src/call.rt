//! The lines around a call.

ghost use Rattle.std.specs.Prelude.{◌≡◌, ◌≢◌, false};

use std::env;

/// What a call told.
#[derive(Clone, Copy, PartialEq, Eq, Debug)]
pub enum Told {
    /// What it always tells.
    Expected,
    /// That there was no memory.
    NoMemory,
    /// Anything else.
    Other,
}

impl Told {
    // The words after a call.
    fn words<'a>(self, expected: &'a str, no_memory: &'a str) -> &'a str
        ensures expected { self ≡ Told.Expected → result.now ≡ expected.now }
        ensures no_memory { self ≡ Told.NoMemory → result.now ≡ no_memory.now }
    {
        match self {
            Told::Expected => expected,
            Told::NoMemory => no_memory,
            Told::Other => "another answer",
        }
    }
}

/// A call that has begun.
#[derive(Clone, Copy)]
pub struct Call<'a> {
    /// What is printed after it where it told what it always tells.
    pub expected: &'a str,
    /// What is printed after it where there was no memory.
    pub no_memory: &'a str,
}

impl<'a> Call<'a> {
    /// Prints the line before a call, and asks for no memory. A line that cannot be printed is passed over.
    pub fn begin(rt: &HostRuntime, name: &str, expected: &'a str, no_memory: &'a str) -> Call<'a>
        ensures expected { result.expected.now ≡ expected.now }
        ensures no_memory { result.no_memory.now ≡ no_memory.now }
    {
        let _ = println!(rt; "> {name}");
        Call {
            expected,
            no_memory,
        }
    }

    /// Prints the line after the call, and hands on what it told. A line that cannot be printed is passed over.
    pub fn end(self, rt: &HostRuntime, told: Told) -> Told
        ensures { result ≡ told }
    {
        let words = told.words(self.expected, self.no_memory);
        let _ = println!(rt; "< {words}");
        told
    }
}

/// Whether a call told that there was no memory where requests for memory are refused: the variable `REFUSE` is set, as
/// `memory.sh` does. Such a call is made again. Elsewhere there is memory for each.
pub fn is_refused(rt: &HostRuntime, told: Told) -> bool
    ensures { told ≢ Told.NoMemory → result ≡ false }
{
    match told {
        Told::NoMemory => env::var(rt, "REFUSE").is_ok(),
        Told::Expected | Told::Other => false,
    }
}
