//! The first line of a text.

ghost use Rattle.std.specs.Prelude.{◌≡◌, ◌⊎◌, Ok, length, IfOk, IfErr, OnSome};
ghost use Rattle.std.specs.Io.KnownBytes.{Consumes, IsAtEnd};
ghost use Rattle.histories.specs.Reading.{IsLine, IsPart};
ghost use Rattle.histories.specs.declared.known.Place.TheVariants.{Before, Behind};
ghost use Rattle.applies.specs.Going.{IsOfWant};
ghost use Rattle.applies.specs.declared.applied.NotApplied.TheVariants.{Line};

use crate::applied::NotApplied;
use crate::lines::next_line;
use histories::Place;
use std::io::BufRead;

/// Reads the first line: before it, or behind the text where it has none.
pub(crate) fn first_line<R: BufRead>(
    reader: &mut R,
    line: &mut Vec<u8>,
) -> Result<Place, NotApplied>
    ensures bytes { Consumes (R.remaining reader.old) (R.remaining reader.new) line.new.items }
    ensures whole { result ≡ Ok Before → IsLine line.new.items }
    ensures part { result ≡ Ok Behind → IsPart line.new.items × OnSome (R.remaining reader.old) (IsAtEnd (R.remaining reader.new)) }
    ensures place { IfOk result (λ place. (place ≡ Before) ⊎ (place ≡ Behind)) }
    ensures long { IfErr result (λ fault. IsOfWant fault ⊎ ((fault ≡ Line 1) × IsPart line.new.items × (length line.new.items ≡ 8_192))) }
{
    if next_line(reader, line, 0)? {
        Ok(Place::Before)
    } else {
        Ok(Place::Behind)
    }
}
