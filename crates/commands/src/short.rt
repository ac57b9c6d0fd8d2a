ghost use Rattle.std.specs.Prelude.{◌≡◌, ◌≤◌, ◌<◌, length, Some, None};

use crate::Buffer;
use crate::limits::SHORT_MAX;
use std::marker::Model;
use values::Text;

/// The answer to a command: a text of at most 96 bytes, kept in place.
#[derive(Clone, Copy)]
pub struct Short {
    text: Text<SHORT_MAX>,
}

impl Model for Short {
    ghost use Rattle.std.specs.Prelude.{List, ℕ, length, ◌≤◌};
    ghost use Rattle.commands.specs.declared.limits.TheConstants.{SHORT_MAX};

    ghost Value = { List ℕ };

    ghost view = { λ v. v.text };

    ghost invariant = { λ v. length v.text ≤ SHORT_MAX };

    ghost inverse = { λ text. record { text = text } };
}

impl Short {
    /// The text, if it has at most 96 bytes.
    pub fn new(text: &[u8]) -> Option<Short>
        ensures fits { length text.now ≤ SHORT_MAX → result ≡ Some text.now }
        ensures long { SHORT_MAX < length text.now → result ≡ None }
    {
        match Text::new(text) {
            Some(text) => Some(Short { text }),
            None => None,
        }
    }

    /// The text that was written in place, which is short enough.
    pub fn of(text: &Buffer<SHORT_MAX>) -> Short
        ensures { result ≡ text.now }
    {
        Short { text: text.text() }
    }

    /// The bytes.
    pub fn as_bytes(&self) -> &[u8]
        ensures text { result.now ≡ self.now }
        ensures rule { length self.now ≤ SHORT_MAX }
    {
        self.text.as_bytes()
    }
}
