// The pieces of a text between two bytes of a kind.

ghost use Rattle.std.specs.Prelude.{◌≡◌, ◌==◌, map, IfOk};
ghost use Rattle.std.specs.List.{slice_split};
ghost use Rattle.texts.specs.Reading.{field_at};

use std::alloc::{AllocError, Global};

/// The pieces of the text, cut at each line feed.
pub(crate) fn lines(alloc: Global, text: &[u8]) -> Result<Vec<&[u8]>, AllocError>
    ensures { IfOk result (λ v. map (λ f. f.now) v.items ≡ slice_split (λ b. b == 10) text.now) }
{
    text.split(|b| *b == b'\n').collect(alloc)
}

/// The pieces of the text, cut at each slash.
pub(crate) fn parts(alloc: Global, text: &[u8]) -> Result<Vec<&[u8]>, AllocError>
    ensures { IfOk result (λ v. map (λ f. f.now) v.items ≡ slice_split (λ b. b == 47) text.now) }
{
    text.split(|b| *b == b'/').collect(alloc)
}

/// The field at a place, and no bytes where there is none.
pub(crate) fn field<'a>(fields: &[&'a [u8]], at: usize) -> &'a [u8]
    ensures { result.now ≡ field_at at (map (λ f. f.now) fields.now) }
{
    match fields.get(at) {
        Some(field) => *field,
        None => &[],
    }
}
