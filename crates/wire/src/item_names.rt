ghost use Rattle.std.specs.Prelude.{◌≡◌, OnOk, IfOk};
ghost use Rattle.serde_json.specs.Written.{compact_text};
ghost use Rattle.wire.specs.Tokens.{Adds, data_tokens};
ghost use Rattle.wire.specs.Lists.{item_data, item_names_data};

use crate::members::{Member, put_count, put_flag, put_list, put_text};
use crate::text::{gtin_text, title_text};
use json::Writer;
use overviews::{ItemNamesView, NamedItem};
use std::alloc::{AllocError, Global};

fn put_item(out: &mut Writer, shown: &NamedItem) -> Result<(), AllocError>
    ensures { OnOk result (Adds out.old out.new (data_tokens (item_data shown.now))) }
{
    out.begin_object()?;
    put_text(out, "gtin", gtin_text(&shown.item.gtin))?;
    put_count(out, "least", u64::from(shown.least.days()))?;
    put_text(out, "name", title_text(&shown.item.name))?;
    out.end_object()
}

impl Member for NamedItem {
    ghost use Rattle.wire.specs.Lists.{item_data};

    ghost shown = { item_data };

    fn put(&self, out: &mut Writer) -> Result<(), AllocError> {
        put_item(out, self)
    }
}

fn put_item_names(out: &mut Writer, shown: &ItemNamesView) -> Result<(), AllocError>
    ensures { OnOk result (Adds out.old out.new (data_tokens (item_names_data shown.now))) }
{
    out.begin_object()?;
    put_count(out, "act", shown.act)?;
    put_list(out, "items", shown.items.as_slice())?;
    put_flag(out, "more", shown.more)?;
    out.end_object()
}

/// Items as compact JSON.
pub fn item_names_json(alloc: Global, shown: &ItemNamesView) -> Result<Vec<u8>, AllocError>
    ensures { IfOk result (λ b. b.items ≡ compact_text (item_names_data shown.now)) }
{
    let mut out = Writer::new(Vec::new(alloc));
    put_item_names(&mut out, shown)?;
    Ok(out.into_inner())
}
