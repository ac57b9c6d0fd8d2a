ghost use Rattle.std.specs.Prelude.{◌≡◌, OnOk, IfOk};
ghost use Rattle.serde_json.specs.Written.{compact_text};
ghost use Rattle.wire.specs.Tokens.{Adds, data_tokens};
ghost use Rattle.wire.specs.Lists.{open_data, open_orders_data};

use crate::members::{Member, put_count, put_flag, put_list, put_text};
use crate::text::{name_text, title_text};
use json::Writer;
use overviews::{OpenOrder, OpenOrdersView};
use std::alloc::{AllocError, Global};

fn put_open(out: &mut Writer, order: &OpenOrder) -> Result<(), AllocError>
    ensures { OnOk result (Adds out.old out.new (data_tokens (open_data order.now))) }
{
    out.begin_object()?;
    put_text(out, "class", order.class.word())?;
    put_text(out, "customer", title_text(&order.customer))?;
    put_text(out, "order", name_text(&order.order))?;
    put_count(out, "ordered", order.ordered)?;
    put_count(out, "reserved", order.reserved)?;
    put_count(out, "shipped", order.shipped)?;
    put_count(out, "short", order.short)?;
    put_count(out, "staged", order.staged)?;
    out.end_object()
}

impl Member for OpenOrder {
    ghost use Rattle.wire.specs.Lists.{open_data};

    ghost shown = { open_data };

    fn put(&self, out: &mut Writer) -> Result<(), AllocError> {
        put_open(out, self)
    }
}

fn put_open_orders(out: &mut Writer, shown: &OpenOrdersView) -> Result<(), AllocError>
    ensures { OnOk result (Adds out.old out.new (data_tokens (open_orders_data shown.now))) }
{
    out.begin_object()?;
    put_count(out, "act", shown.act)?;
    put_flag(out, "more", shown.more)?;
    put_list(out, "orders", shown.orders.as_slice())?;
    out.end_object()
}

/// Open orders as compact JSON.
pub fn open_orders_json(alloc: Global, shown: &OpenOrdersView) -> Result<Vec<u8>, AllocError>
    ensures { IfOk result (λ b. b.items ≡ compact_text (open_orders_data shown.now)) }
{
    let mut out = Writer::new(Vec::new(alloc));
    put_open_orders(&mut out, shown)?;
    Ok(out.into_inner())
}
