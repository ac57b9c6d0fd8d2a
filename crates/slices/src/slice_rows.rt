//! The rows that were read, together.

ghost use Rattle.std.specs.Prelude.{◌≡◌};

use commands::{
    BinRow, ItemRow, LeastRow, LineRow, Listed, LotRow, OrderRow, RecallRow, ReservedRow,
    StagedRow, StockRow, UrgentRow,
};
use rules::Rows;

/// Rows of items, of lots and of bins.
#[derive(Drop)]
pub struct Goods {
    pub items: Vec<ItemRow>,
    pub least: Vec<LeastRow>,
    pub bins: Vec<BinRow>,
    pub lots: Vec<LotRow>,
    pub recalls: Vec<RecallRow>,
    pub stock: Vec<StockRow>,
}

/// Rows of orders.
#[derive(Drop)]
pub struct Ordered {
    pub orders: Vec<OrderRow>,
    pub urgents: Vec<UrgentRow>,
    pub lines: Vec<LineRow>,
}

/// What is staged and what is reserved.
#[derive(Drop)]
pub struct Shares {
    pub staged: Vec<StagedRow>,
    pub reserved: Vec<ReservedRow>,
}

/// All of them.
pub fn rows_read(goods: Goods, ordered: Ordered, shares: Shares) -> Rows
    ensures same_items { result.items ≡ goods.items.items }
    ensures same_least { result.least ≡ goods.least.items }
    ensures same_bins { result.bins ≡ goods.bins.items }
    ensures same_lots { result.lots ≡ goods.lots.items }
    ensures same_recalls { result.recalls ≡ goods.recalls.items }
    ensures same_stock { result.stock ≡ goods.stock.items }
    ensures same_orders { result.orders ≡ ordered.orders.items }
    ensures same_urgents { result.urgents ≡ ordered.urgents.items }
    ensures same_lines { result.lines ≡ ordered.lines.items }
    ensures same_staged { result.staged ≡ shares.staged.items }
    ensures same_reserved { result.reserved ≡ shares.reserved.items }
{
    Rows {
        items: Listed::from_vec(goods.items),
        bins: Listed::from_vec(goods.bins),
        lots: Listed::from_vec(goods.lots),
        recalls: Listed::from_vec(goods.recalls),
        stock: Listed::from_vec(goods.stock),
        orders: Listed::from_vec(ordered.orders),
        lines: Listed::from_vec(ordered.lines),
        staged: Listed::from_vec(shares.staged),
        reserved: Listed::from_vec(shares.reserved),
        least: Listed::from_vec(goods.least),
        urgents: Listed::from_vec(ordered.urgents),
    }
}
