ghost use Rattle.std.specs.Prelude.{◌≡◌, OnOk, IfOk};
ghost use Rattle.serde_json.specs.Written.{compact_text};
ghost use Rattle.wire.specs.Tokens.{Adds, data_tokens};
ghost use Rattle.wire.specs.Lists.{books_data};

use crate::members::{put_count, put_text};
use crate::text::readable;
use commands::limits::SCHEMA_VERSION;
use json::Writer;
use overviews::BooksView;
use std::alloc::{AllocError, Global};

#[tactic(auto, using(crate::proofs::Texts::day_is_utf8))]
fn put_books(out: &mut Writer, shown: &BooksView) -> Result<(), AllocError>
    ensures { OnOk result (Adds out.old out.new (data_tokens (books_data shown.now))) }
{
    let day = shown.day.day().text();
    out.begin_object()?;
    put_count(out, "act", shown.act)?;
    put_text(out, "day", readable(day.as_slice()))?;
    put_count(out, "schema", SCHEMA_VERSION)?;
    out.end_object()
}

/// The books as compact JSON.
pub fn books_json(alloc: Global, shown: &BooksView) -> Result<Vec<u8>, AllocError>
    ensures { IfOk result (λ b. b.items ≡ compact_text (books_data shown.now)) }
{
    let mut out = Writer::new(Vec::new(alloc));
    put_books(&mut out, shown)?;
    Ok(out.into_inner())
}
