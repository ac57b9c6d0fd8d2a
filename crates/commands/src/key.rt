ghost use Rattle.std.specs.Prelude.{◌≡◌};
ghost use Rattle.commands.specs.Keys.{is_key_of};
ghost use Rattle.commands.specs.Spelling.{key_text};

use crate::Buffer;
use crate::command::Command;
use crate::limits::KEY_TEXT_MAX;
use values::{LineNo, Name, Text};

/// What makes a request the same request when it is sent again.
#[derive(Clone, Copy)]
pub enum Key {
    /// The key that came with the request.
    Plain(Name),
    /// The delivery and its line: a line scanned and the same line imported are one.
    Line(Name, LineNo),
}

impl Key {
    /// `K/` and the name, or `D/`, the delivery, `/` and the line: the text by which a key is kept.
    pub fn text(self) -> Text<KEY_TEXT_MAX>
        ensures { result ≡ key_text self }
    {
        match self {
            Key::Plain(name) => plain_text(&name),
            Key::Line(delivery, line) => line_text(&delivery, line),
        }
    }

    /// Whether the key is of the command's kind: a Receive bears a delivery and a line, and every
    /// other command a plain key.
    pub fn is_of(&self, command: &Command) -> bool
        ensures { result ≡ is_key_of self.now command.now }
    {
        match (self, command) {
            (Key::Line(..), Command::Receive(_)) => true,
            (Key::Line(..), _) => false,
            (Key::Plain(_), Command::Receive(_)) => false,
            (Key::Plain(_), _) => true,
        }
    }
}

fn plain_text(name: &Name) -> Text<KEY_TEXT_MAX>
    ensures { result ≡ key_text (Key.Plain name.now) }
{
    let mut text = Buffer::<KEY_TEXT_MAX>::new();
    text.push_all(b"K/");
    text.push_all(name.as_bytes());
    text.text()
}

// Room for `D/`, a delivery of 20, `/` and any number, which has 20 digits at most.
const LINE_ROOM: usize = 43;

fn line_text(delivery: &Name, line: LineNo) -> Text<KEY_TEXT_MAX>
    ensures { result ≡ key_text (Key.Line delivery.now line) }
{
    let mut text = Buffer::<LINE_ROOM>::new();
    text.push_all(b"D/");
    text.push_all(delivery.as_bytes());
    text.push(b'/');
    text.push_decimal(u64::from(line.number()));
    Text::new(text.as_bytes()).unwrap()
}
