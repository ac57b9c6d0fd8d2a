ghost use Rattle.std.specs.Prelude.{◌≡◌, ◌≤◌, ◌+◌, ◌++◌, length};
ghost use Rattle.commands.specs.Replies.{field_text, reply_text};

use crate::limits::SHORT_MAX;
use crate::{Buffer, Short};

/// What a reply says beside the number of its act.
#[derive(Clone, Copy)]
pub enum ReplyField {
    /// `change`: by how many units a balance was changed, below 0 where it fell.
    ChangedBy(i64),
    /// `returned`: how many units went from stages to the bin RETURNS.
    Returned(u64),
    /// `shipment`: the number of the shipment.
    ShipmentNumber(u64),
    /// `short`: how many units the order is short of.
    UnitsShort(u64),
}

/// The reply to an act: `{"act":N}`, or `{"act":N,"change":D}` and the like with one field more.
pub fn reply(act: u64, field: Option<ReplyField>) -> Short
    ensures { result ≡ reply_text act field }
{
    let mut text = Buffer::new();
    text.push_all(b"{\"act\":");
    text.push_decimal(act);
    if let Some(field) = field {
        push_field(&mut text, field);
    }
    text.push(b'}');
    Short::of(&text)
}

fn push_field(text: &mut Buffer<SHORT_MAX>, field: ReplyField)
    requires { length text.old ≤ 27 }
    ensures text { text.new ≡ text.old ++ field_text field }
    ensures size { length text.new ≤ 59 }
{
    match field {
        ReplyField::ChangedBy(units) => {
            text.push_all(b",\"change\":");
            text.push_signed(units);
        }
        ReplyField::Returned(units) => {
            text.push_all(b",\"returned\":");
            text.push_decimal(units);
        }
        ReplyField::ShipmentNumber(number) => {
            text.push_all(b",\"shipment\":");
            text.push_decimal(number);
        }
        ReplyField::UnitsShort(units) => {
            text.push_all(b",\"short\":");
            text.push_decimal(units);
        }
    }
}
