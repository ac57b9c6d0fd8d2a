//! The key of a text of `repeats`.

ghost use Rattle.std.specs.Prelude.{◌≡◌, map, Some, IfOk, IfSome, IsTrue};
ghost use Rattle.commands.specs.Spelling.{key_text};
ghost use Rattle.commands.specs.Sound.{is_sound_key};
ghost use Rattle.commands.specs.declared.key.Key.{Key};
ghost use Rattle.texts.specs.Reading.{own_key, key_read};

use crate::field::{line_no, name};
use crate::pieces::{field, parts};
use commands::Key;
use std::alloc::{AllocError, Global};

/// The key of which this is the text, if it is the text of one: what `Key::text` writes is read again, and nothing else
/// is read.
pub fn parse_key(alloc: Global, text: &[u8]) -> Result<Option<Key>, AllocError>
    ensures written { IfOk result (λ found. IfSome found (λ key. text.now ≡ key_text key)) }
    ensures every { IfOk result (λ found. (key : Key) → IsTrue (is_sound_key key) → text.now ≡ key_text key → found ≡ Some key) }
{
    let parts = parts(alloc, text)?;
    let found = key(&parts);
    // A call: dropped at the end of its scope it is dropped field by field (docs/GATE.md).
    drop(parts);
    match found {
        Some(key) => Ok(own(&key, text)),
        None => Ok(None),
    }
}

// The key, if the text is its own.
fn own(key: &Key, text: &[u8]) -> Option<Key>
    ensures { result ≡ own_key text.now key.now }
{
    if key.text().as_bytes() == text {
        Some(*key)
    } else {
        None
    }
}

#[tactic(auto, unfolding(crate::specs::Reading::key_read))]
fn key(parts: &[&[u8]]) -> Option<Key>
    ensures { result ≡ key_read (map (λ f. f.now) parts.now) }
{
    if field(parts, 0) == "K".as_bytes() {
        return Some(Key::Plain(name(parts, 1)?));
    }
    let delivery = name(parts, 1)?;
    let line = line_no(field(parts, 2))?;
    Some(Key::Line(delivery, line))
}
