//! The fields of a line.

ghost use Rattle.std.specs.Prelude.{◌≡◌, option_map, take, drop, IfOk};
ghost use Rattle.applies.specs.Fields.{cut_at_tab, key_and_spelling as key_and_spelling_lem, untabbed, Reads, ReadsFields};

use commands::{Command, Key};
use std::alloc::{AllocError, Global};
use texts::{parse, parse_key};

/// What stands before the first tab of a text, and behind it.
pub(crate) fn cut(text: &[u8]) -> Option<(&[u8], &[u8])>
    ensures { option_map (λ cut. (cut.0.now, cut.1.now)) result ≡ cut_at_tab text.now }
{
    for i in 0..text.len() {
        if text[i] == b'\t' {
            return Some((front(text, i), behind(text, i + 1)));
        }
    }
    None
}

/// So many bytes, or all where there are fewer.
fn front(text: &[u8], count: usize) -> &[u8]
    ensures { result.now ≡ take count text.now }
{
    match text.split_at_checked(count) {
        Some((front, _)) => front,
        None => text,
    }
}

/// What stands behind so many bytes.
fn behind(text: &[u8], count: usize) -> &[u8]
    ensures { result.now ≡ drop count text.now }
{
    match text.split_at_checked(count) {
        Some((_, rest)) => rest,
        None => &[],
    }
}

/// The text of the key of a line, and the spelling with a tab for each line feed.
fn key_and_spelling(line: &[u8]) -> Option<(&[u8], &[u8])>
    ensures { option_map (λ cut. (cut.0.now, cut.1.now)) result ≡ key_and_spelling_lem line.now }
{
    let (_, dated) = cut(line)?;
    let (_, keyed) = cut(dated)?;
    let (key, spelled) = cut(keyed)?;
    Some((key, front(spelled, spelled.len().saturating_sub(1))))
}

/// The text with a line feed for each tab.
fn with_line_feeds(alloc: Global, text: &[u8]) -> Result<Vec<u8>, AllocError>
    ensures { IfOk result (λ made. made.items ≡ untabbed text.now) }
{
    text.iter()
        .map(|b| if *b == b'\t' { b'\n' } else { *b })
        .collect(alloc)
}

/// The key and the command of a line; none where it has no key or spells no command. The line of an act is read as that act:
/// whether it is the line of what was read is not looked at.
pub(crate) fn read_act(alloc: Global, line: &[u8]) -> Result<Option<(Key, Command)>, AllocError>
    ensures { IfOk result (Reads line.now) }
{
    match key_and_spelling(line) {
        Some((key, spelled)) => read_fields(alloc, key, spelled),
        None => Ok(None),
    }
}

/// The key and the command of these texts, of which the second has a tab for each line feed.
fn read_fields(
    alloc: Global,
    key: &[u8],
    spelled: &[u8],
) -> Result<Option<(Key, Command)>, AllocError>
    ensures { IfOk result (ReadsFields key.now spelled.now) }
{
    let Some(key) = parse_key(alloc, key)? else {
        return Ok(None);
    };
    let spell = with_line_feeds(alloc, spelled)?;
    match parse(alloc, spell.as_slice())? {
        Some(command) => Ok(Some((key, command))),
        None => Ok(None),
    }
}
