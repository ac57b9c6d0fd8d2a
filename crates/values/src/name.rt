ghost use Rattle.std.specs.Prelude.{◌≡◌, IsTrue};
ghost use Rattle.std.specs.List.{list_all};
ghost use Rattle.values.specs.Values.{checked, is_name, is_name_char as is_name_char_lem};

use crate::Text;
use std::marker::Model;

/// The longest name, in characters.
pub const NAME_MAX: usize = 20;

/// The name of an order, a delivery, a bin or a request: 1 to 20 of `A` to `Z`, `0` to `9` and
/// `-`.
#[derive(Clone, Copy, PartialEq, Eq, Debug)]
pub struct Name {
    text: Text<20>,
}

impl Model for Name {
    ghost use Rattle.std.specs.Prelude.{List, ℕ, IsTrue};
    ghost use Rattle.values.specs.Values.{is_name};

    ghost Value = { List ℕ };

    ghost view = { λ v. v.text };

    ghost invariant = { λ v. IsTrue (is_name v.text) };

    ghost inverse = { λ text. record { text = text } };
}

impl Name {
    /// The name that a text is, or `None` where it breaks the rule of names.
    pub fn new(text: &[u8]) -> Option<Name>
        ensures { result ≡ checked is_name text.now }
    {
        if !is_name_text(text) {
            return None;
        }
        match Text::new(text) {
            Some(text) => Some(Name { text }),
            None => None,
        }
    }

    /// The characters of the name, 1 to 20 bytes of ASCII.
    pub fn as_bytes(&self) -> &[u8]
        ensures text { result.now ≡ self.now }
        ensures rule { IsTrue (is_name result.now) }
    {
        self.text.as_bytes()
    }
}

fn is_name_text(text: &[u8]) -> bool
    ensures { result ≡ is_name text.now }
{
    if text.is_empty() || text.len() > NAME_MAX {
        return false;
    }
    are_name_chars(text)
}

fn are_name_chars(text: &[u8]) -> bool
    ensures { result ≡ list_all is_name_char_lem text.now }
{
    text.iter().all(|c| is_name_char(*c))
}

fn is_name_char(c: u8) -> bool
    ensures { result ≡ is_name_char_lem c }
{
    (b'A' <= c && c <= b'Z') || (b'0' <= c && c <= b'9') || c == b'-'
}
