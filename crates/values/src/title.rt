ghost use Rattle.std.specs.Prelude.{◌≡◌, ◌<◌, length, IsTrue};
ghost use Rattle.std.specs.List.{list_all};
ghost use Rattle.values.specs.Values.{checked, is_title, is_between, has_no_edge_space as has_no_edge_space_lem};

use crate::Text;
use std::marker::Model;

/// The longest title, in characters.
pub const TITLE_MAX: usize = 40;

/// The name of an item or a customer: 1 to 40 printable characters of ASCII, with no space at
/// either end.
#[derive(Clone, Copy, PartialEq, Eq, Debug)]
pub struct Title {
    text: Text<40>,
}

impl Model for Title {
    ghost use Rattle.std.specs.Prelude.{List, ℕ, IsTrue};
    ghost use Rattle.values.specs.Values.{is_title};

    ghost Value = { List ℕ };

    ghost view = { λ v. v.text };

    ghost invariant = { λ v. IsTrue (is_title v.text) };

    ghost inverse = { λ text. record { text = text } };
}

impl Title {
    /// The title that a text is, or `None` where it breaks the rule of titles.
    pub fn new(text: &[u8]) -> Option<Title>
        ensures { result ≡ checked is_title text.now }
    {
        if !is_title_text(text) {
            return None;
        }
        match Text::new(text) {
            Some(text) => Some(Title { text }),
            None => None,
        }
    }

    /// The characters of the title, 1 to 40 bytes of ASCII.
    pub fn as_bytes(&self) -> &[u8]
        ensures text { result.now ≡ self.now }
        ensures rule { IsTrue (is_title result.now) }
    {
        self.text.as_bytes()
    }
}

fn is_title_text(text: &[u8]) -> bool
    ensures { result ≡ is_title text.now }
{
    if text.is_empty() || text.len() > TITLE_MAX {
        return false;
    }
    let printed = are_printable(text);
    let apart = has_no_edge_space(text);
    printed && apart
}

fn are_printable(text: &[u8]) -> bool
    ensures { result ≡ list_all (is_between 32 126) text.now }
{
    text.iter().all(|c| is_printable(*c))
}

fn is_printable(c: u8) -> bool
    ensures { result ≡ is_between 32 126 c }
{
    b' ' <= c && c <= b'~'
}

fn has_no_edge_space(text: &[u8]) -> bool
    requires { 0 < length text.now }
    ensures { result ≡ has_no_edge_space_lem text.now }
{
    text[0] != b' ' && text[text.len() - 1] != b' '
}
