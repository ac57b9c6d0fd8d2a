use commands::{Command, Key, Listed};
use label::BusinessDay;
use values::{Gtin, LineNo, LotId, Name, Qty};

/// What a GET shows.
#[derive(Clone, Copy)]
pub enum Query {
    /// The books.
    Books,
    /// The open orders, from their first or behind an order.
    OpenOrders(Option<Name>),
    /// The items, from their first or behind an item.
    ItemNames(Option<Gtin>),
    /// The lots that expire up to a day, from their first or behind a lot.
    Expiring(BusinessDay, Option<LotId>),
    /// The lots in a bin, from their first or behind a lot.
    Bin(Name, Option<LotId>),
    /// The stock of an item.
    Stock(Gtin),
    /// An order.
    Order(Name),
    /// The pick list of an order.
    PickList(Name),
    /// The bookings of an item that are short.
    Shortages(Gtin),
    /// The stock card of a lot.
    Card(LotId),
    /// The recall notice of a lot.
    Notice(LotId),
    /// The trace of a lot.
    Trace(LotId),
    /// The pick list of an order, with the names of its items.
    Picks(Name),
    /// The figures of the house.
    Figures,
}

/// What a request asks.
#[derive(Drop)]
pub enum Ask {
    /// To act on a command.
    Do(Key, Command),
    /// To receive the goods whose label was scanned. The label is not yet read.
    Scan {
        delivery: Name,
        line: LineNo,
        label: Listed<u8>,
        bin: Name,
        qty: Qty,
    },
    /// To receive the goods of a file, which is not yet read.
    GoodsIn(Listed<u8>),
    /// To show something.
    Show(Query),
}
