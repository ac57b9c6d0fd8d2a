//! What the rows of a slice tell of units that are picked or put back: each row that the command names, sought once.

ghost use Rattle.std.specs.Prelude.{◌≡◌};
ghost use Rattle.rules.specs.DecidedPick.{units_found, named_found};

use commands::{BinRow, LotRow, OrderRow, Picking, ReservedRow, StagedRow, StockRow};
use row_rules::Slice;
use row_rules::goods_seen::{lot_seen, sees_item};
use row_rules::orders_seen::{order_row_seen, sees_line};
use row_rules::row_search::find_row;

/// The rows of the units that a picking moves: those of its lot in its bin, on the stage of its order, and reserved for it.
#[derive(Clone, Copy)]
pub struct UnitsSeen {
    pub in_bin: Option<StockRow>,
    pub staged: Option<StagedRow>,
    pub reserved: Option<ReservedRow>,
}

/// What is seen of what a picking names, and of its units.
#[derive(Clone, Copy)]
pub struct PickSeen {
    pub item: bool,
    pub bin: Option<BinRow>,
    pub lot: Option<LotRow>,
    pub order: Option<OrderRow>,
    pub line: bool,
    pub units: UnitsSeen,
}

impl UnitsSeen {
    pub fn of(slice: &Slice, p: &Picking) -> Self
        ensures { result ≡ units_found slice.now p.now }
    {
        UnitsSeen {
            in_bin: find_row(slice.rows.stock.as_slice(), &(p.lot, p.bin)),
            staged: find_row(slice.rows.staged.as_slice(), &(p.order, p.lot)),
            reserved: find_row(slice.rows.reserved.as_slice(), &(p.order, p.lot)),
        }
    }
}

impl PickSeen {
    pub fn of(slice: &Slice, p: &Picking) -> Self
        ensures { result ≡ named_found slice.now p.now }
    {
        PickSeen {
            item: sees_item(slice, &p.lot.gtin),
            bin: find_row(slice.rows.bins.as_slice(), &p.bin),
            lot: lot_seen(slice, &p.lot),
            order: order_row_seen(slice, &p.order),
            line: sees_line(slice, &p.order, &p.lot.gtin),
            units: UnitsSeen::of(slice, p),
        }
    }
}
