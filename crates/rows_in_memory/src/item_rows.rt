//! The rows of one item, and those of one order.

ghost use Rattle.std.specs.Prelude.{◌≡◌, []};

use commands::{
    BinRow, LeastRow, LineRow, Listed, LotRow, OrderRow, RecallRow, ReservedRow, StagedRow,
    StockRow, UrgentRow,
};
use row_rules::Rows;
use std::alloc::Global;

// No rows.
fn no_rows(alloc: Global) -> Rows
    ensures { result ≡ record { items = []; bins = []; lots = []; recalls = []; stock = []; orders = []; lines = []; staged = []; reserved = []; least = []; urgents = [] } }
{
    Rows {
        items: Listed::from_vec(Vec::new(alloc)),
        bins: Listed::from_vec(Vec::new(alloc)),
        lots: Listed::from_vec(Vec::new(alloc)),
        recalls: Listed::from_vec(Vec::new(alloc)),
        stock: Listed::from_vec(Vec::new(alloc)),
        orders: Listed::from_vec(Vec::new(alloc)),
        lines: Listed::from_vec(Vec::new(alloc)),
        staged: Listed::from_vec(Vec::new(alloc)),
        reserved: Listed::from_vec(Vec::new(alloc)),
        least: Listed::from_vec(Vec::new(alloc)),
        urgents: Listed::from_vec(Vec::new(alloc)),
    }
}

/// The rows of an item.
pub fn of_item(
    alloc: Global,
    lots: Vec<LotRow>,
    recalls: Vec<RecallRow>,
    stock: Vec<StockRow>,
    staged: Vec<StagedRow>,
    reserved: Vec<ReservedRow>,
    least: Vec<LeastRow>,
) -> Rows
    ensures same_lots { result.lots ≡ lots.items }
    ensures same_recalls { result.recalls ≡ recalls.items }
    ensures same_stock { result.stock ≡ stock.items }
    ensures same_staged { result.staged ≡ staged.items }
    ensures same_reserved { result.reserved ≡ reserved.items }
    ensures same_least { result.least ≡ least.items }
{
    Rows {
        lots: Listed::from_vec(lots),
        recalls: Listed::from_vec(recalls),
        stock: Listed::from_vec(stock),
        staged: Listed::from_vec(staged),
        reserved: Listed::from_vec(reserved),
        least: Listed::from_vec(least),
        ..no_rows(alloc)
    }
}

/// The rows of the demands for an item.
pub fn of_demands(
    alloc: Global,
    orders: Vec<OrderRow>,
    lines: Vec<LineRow>,
    staged: Vec<StagedRow>,
    reserved: Vec<ReservedRow>,
    urgents: Vec<UrgentRow>,
) -> Rows
    ensures same_orders { result.orders ≡ orders.items }
    ensures same_lines { result.lines ≡ lines.items }
    ensures same_staged { result.staged ≡ staged.items }
    ensures same_reserved { result.reserved ≡ reserved.items }
    ensures same_urgents { result.urgents ≡ urgents.items }
{
    Rows {
        orders: Listed::from_vec(orders),
        lines: Listed::from_vec(lines),
        staged: Listed::from_vec(staged),
        reserved: Listed::from_vec(reserved),
        urgents: Listed::from_vec(urgents),
        ..no_rows(alloc)
    }
}

/// The rows of an order.
pub fn of_order(
    alloc: Global,
    lines: Vec<LineRow>,
    staged: Vec<StagedRow>,
    reserved: Vec<ReservedRow>,
    lots: Vec<LotRow>,
    stock: Vec<StockRow>,
    bins: Vec<BinRow>,
    least: Vec<LeastRow>,
    urgents: Vec<UrgentRow>,
) -> Rows
    ensures same_lines { result.lines ≡ lines.items }
    ensures same_staged { result.staged ≡ staged.items }
    ensures same_reserved { result.reserved ≡ reserved.items }
    ensures same_lots { result.lots ≡ lots.items }
    ensures same_stock { result.stock ≡ stock.items }
    ensures same_bins { result.bins ≡ bins.items }
    ensures same_least { result.least ≡ least.items }
    ensures same_urgents { result.urgents ≡ urgents.items }
{
    Rows {
        bins: Listed::from_vec(bins),
        lots: Listed::from_vec(lots),
        stock: Listed::from_vec(stock),
        lines: Listed::from_vec(lines),
        staged: Listed::from_vec(staged),
        reserved: Listed::from_vec(reserved),
        least: Listed::from_vec(least),
        urgents: Listed::from_vec(urgents),
        ..no_rows(alloc)
    }
}

/// The rows of a shipment.
pub fn of_shipment(
    alloc: Global,
    stock: Vec<StockRow>,
    orders: Vec<OrderRow>,
    lines: Vec<LineRow>,
    staged: Vec<StagedRow>,
) -> Rows
    ensures no_items { result.items ≡ [] }
    ensures no_bins { result.bins ≡ [] }
    ensures no_lots { result.lots ≡ [] }
    ensures no_recalls { result.recalls ≡ [] }
    ensures same_stock { result.stock ≡ stock.items }
    ensures same_orders { result.orders ≡ orders.items }
    ensures same_lines { result.lines ≡ lines.items }
    ensures same_staged { result.staged ≡ staged.items }
    ensures no_reserved { result.reserved ≡ [] }
    ensures no_least { result.least ≡ [] }
    ensures no_urgents { result.urgents ≡ [] }
{
    Rows {
        stock: Listed::from_vec(stock),
        orders: Listed::from_vec(orders),
        lines: Listed::from_vec(lines),
        staged: Listed::from_vec(staged),
        ..no_rows(alloc)
    }
}
