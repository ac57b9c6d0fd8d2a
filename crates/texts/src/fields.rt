//! Fields of a fixed width.

ghost use Rattle.std.specs.Prelude.{◌≡◌, ◌+◌, ◌≤◌, ◌++◌, length, replicate, decimal};
ghost use Rattle.std.specs.Fmt.{signed_decimal};
ghost use Rattle.commands.specs.Words.{card_kind_word};
ghost use Rattle.texts.specs.Lines.{set_left as set_left_lem, set_right as set_right_lem};

use commands::limits::CARD_NOTE_MAX;
use commands::{Buffer, CardKind, decimal_text, signed_text};
use values::Text;

/// The width of the act in a card line.
pub const ACT_WIDTH: usize = 13;

/// The width of the kind in a card line.
pub const KIND_WIDTH: usize = 8;

/// The width of the quantity in a card line.
pub const QTY_WIDTH: usize = 12;

/// The width of the units in the house in a card line.
pub const REST_WIDTH: usize = 11;

/// The word of a kind at the left of its field.
pub(crate) fn kind_field(kind: CardKind) -> Buffer<CARD_NOTE_MAX>
    ensures { result ≡ set_left_lem KIND_WIDTH (card_kind_word kind) }
{
    set_left(KIND_WIDTH, kind.word().as_bytes())
}

/// The reference at the left of its field.
pub(crate) fn note_field(note: &Text<CARD_NOTE_MAX>) -> Buffer<CARD_NOTE_MAX>
    ensures { result ≡ set_left_lem CARD_NOTE_MAX note.now }
{
    let _ = note.len();
    set_left(CARD_NOTE_MAX, note.as_bytes())
}

/// A number at the right of its field. One that is wider stays whole.
pub(crate) fn number_field(width: usize, number: u64) -> Buffer<CARD_NOTE_MAX>
    requires { width ≤ CARD_NOTE_MAX }
    ensures { result ≡ set_right_lem width (decimal number) }
{
    set_right(width, decimal_text(number).as_bytes())
}

/// A number with its sign at the right of its field. One that is wider stays whole.
pub(crate) fn signed_field(width: usize, number: i64) -> Buffer<CARD_NOTE_MAX>
    requires { width ≤ CARD_NOTE_MAX }
    ensures { result ≡ set_right_lem width (signed_decimal number) }
{
    set_right(width, signed_text(number).as_bytes())
}

fn set_left(width: usize, text: &[u8]) -> Buffer<CARD_NOTE_MAX>
    requires fits { width ≤ CARD_NOTE_MAX }
    requires room { length text.now ≤ CARD_NOTE_MAX }
    ensures { result ≡ set_left_lem width text.now }
{
    let mut field = Buffer::new();
    field.push_all(text);
    push_spaces(&mut field, width.saturating_sub(text.len()));
    field
}

fn set_right(width: usize, text: &[u8]) -> Buffer<CARD_NOTE_MAX>
    requires fits { width ≤ CARD_NOTE_MAX }
    requires room { length text.now ≤ CARD_NOTE_MAX }
    ensures { result ≡ set_right_lem width text.now }
{
    let mut field = Buffer::new();
    push_spaces(&mut field, width.saturating_sub(text.len()));
    field.push_all(text);
    field
}

fn push_spaces(field: &mut Buffer<CARD_NOTE_MAX>, count: usize)
    requires { length field.old + count ≤ CARD_NOTE_MAX }
    ensures text { field.new ≡ field.old ++ replicate count 32 }
    ensures size { length field.new ≡ length field.old + count }
{
    for _ in 0..count {
        field.push(b' ');
    }
}
