//! Rows that are known, and that follow what is written.

ghost use Rattle.std.specs.Prelude.{◌≡◌, Some};
ghost use Rattle.slices.specs.Following.{KnowsNoneFollowed, StockFollows, StagedChanges, StageGone, StageLeft, StagedFollows, StageEmptied, StagedForFollows, ReservedFollows, ReservedForFollows, Follows};

use commands::{LineRow, LotRow, MetaRow, OrderRow, ReservedRow, StagedRow, StockRow, UrgentRow};
use rows_in_memory::{KnownRows, LineKey};
use rules::{Change, Dropped, Put};
use std::alloc::Global;
use values::{Gtin, LotId, LotKey, Name, TextKey};

/// Rows that are known, and that follow what is written.
#[derive(Drop)]
pub struct Followed {
    /// Lots by their keys.
    pub lots: KnownRows<LotId, LotKey, LotRow>,
    /// All lots of an item, by its GTIN.
    pub lots_of: KnownRows<Gtin, TextKey, LotRow>,
    /// Orders by their names.
    pub orders: KnownRows<Name, TextKey, OrderRow>,
    /// The rows of urgent orders, by the names of these.
    pub urgents: KnownRows<Name, TextKey, UrgentRow>,
    /// All lines of an order, by its name.
    pub lines: KnownRows<Name, TextKey, LineRow>,
    /// Lines by their orders and items.
    pub lines_at: KnownRows<(Name, Gtin), LineKey, LineRow>,
    /// Stock by the GTINs of its items.
    pub stock: KnownRows<Gtin, TextKey, StockRow>,
    /// What is staged, by the GTINs of its items.
    pub staged: KnownRows<Gtin, TextKey, StagedRow>,
    /// What is staged, by the names of its orders.
    pub staged_for: KnownRows<Name, TextKey, StagedRow>,
    /// What is reserved, by the GTINs of its items.
    pub reserved: KnownRows<Gtin, TextKey, ReservedRow>,
    /// What is reserved, by the names of its orders.
    pub reserved_for: KnownRows<Name, TextKey, ReservedRow>,
    /// The row of `meta`.
    pub meta: Option<MetaRow>,
}

/// With the stock that a change drops and puts.
fn follow_stock(stock: &mut KnownRows<Gtin, TextKey, StockRow>, put: &Put, dropped: &Dropped)
    ensures { StockFollows put.now dropped.now stock.old.rows stock.new.rows }
{
    stock.drop_all(dropped.stock.as_slice());
    stock.put_all(put.stock.as_slice());
}

/// With what a change drops and puts of what is staged, but for a stage that it empties.
fn change_staged(staged: &mut KnownRows<Gtin, TextKey, StagedRow>, put: &Put, dropped: &Dropped)
    ensures { StagedChanges put.now dropped.now staged.old.rows staged.new.rows }
{
    staged.drop_all(dropped.staged.as_slice());
    staged.put_all(put.staged.as_slice());
}

/// Without what was staged for an order: what is known by the order tells these rows. Where nothing is, nothing is known of
/// what is staged any more.
fn empty_stage(
    staged: &mut KnownRows<Gtin, TextKey, StagedRow>,
    stages: &KnownRows<Name, TextKey, StagedRow>,
    order: &Name,
)
    ensures { StageGone order.now stages.now.rows staged.old.rows staged.new.rows }
{
    match stages.rows_of(order) {
        Some(gone) => staged.drop_all(gone),
        None => {
            *staged = KnownRows::new(staged.alloc);
        }
    }
}

/// Without the stage that a change empties, if it empties one.
fn leave_stage(
    staged: &mut KnownRows<Gtin, TextKey, StagedRow>,
    stages: &KnownRows<Name, TextKey, StagedRow>,
    stage: Option<Name>,
)
    ensures { StageLeft stage stages.now.rows staged.old.rows staged.new.rows }
{
    if let Some(order) = stage {
        empty_stage(staged, stages, &order);
    }
}

/// With what a change writes of what is staged.
fn follow_staged(
    staged: &mut KnownRows<Gtin, TextKey, StagedRow>,
    stages: &KnownRows<Name, TextKey, StagedRow>,
    put: &Put,
    dropped: &Dropped,
)
    ensures { StagedFollows put.now dropped.now stages.now.rows staged.old.rows staged.new.rows }
{
    leave_stage(staged, stages, dropped.stage);
    change_staged(staged, put, dropped);
}

/// Without the stage that a change empties, if it empties one, by the order.
fn empty_stage_for(stages: &mut KnownRows<Name, TextKey, StagedRow>, stage: Option<Name>)
    ensures { StageEmptied stage stages.old.rows stages.new.rows }
{
    if let Some(order) = stage {
        stages.empty(&order);
    }
}

/// With what a change writes of what is staged, by the order.
fn follow_staged_for(stages: &mut KnownRows<Name, TextKey, StagedRow>, put: &Put, dropped: &Dropped)
    ensures { StagedForFollows put.now dropped.now stages.old.rows stages.new.rows }
{
    empty_stage_for(stages, dropped.stage);
    stages.drop_all(dropped.staged.as_slice());
    stages.put_all(put.staged.as_slice());
}

/// With what a change drops and puts of what is reserved.
fn follow_reserved(
    reserved: &mut KnownRows<Gtin, TextKey, ReservedRow>,
    put: &Put,
    dropped: &Dropped,
)
    ensures { ReservedFollows put.now dropped.now reserved.old.rows reserved.new.rows }
{
    reserved.drop_all(dropped.reserved.as_slice());
    reserved.put_all(put.reserved.as_slice());
}

/// With what a change drops and puts of what is reserved, by the order.
fn follow_reserved_for(
    reserved: &mut KnownRows<Name, TextKey, ReservedRow>,
    put: &Put,
    dropped: &Dropped,
)
    ensures { ReservedForFollows put.now dropped.now reserved.old.rows reserved.new.rows }
{
    reserved.lose_all(dropped.reserved.as_slice());
    reserved.put_all(put.reserved.as_slice());
}

impl Followed {
    /// Nothing is known.
    pub fn new(alloc: Global) -> Self
        ensures { KnowsNoneFollowed result }
    {
        Followed {
            lots: KnownRows::new(alloc),
            lots_of: KnownRows::new(alloc),
            orders: KnownRows::new(alloc),
            urgents: KnownRows::new(alloc),
            lines: KnownRows::new(alloc),
            lines_at: KnownRows::new(alloc),
            stock: KnownRows::new(alloc),
            staged: KnownRows::new(alloc),
            staged_for: KnownRows::new(alloc),
            reserved: KnownRows::new(alloc),
            reserved_for: KnownRows::new(alloc),
            meta: None,
        }
    }

    /// With the row of `meta`.
    pub fn know_meta(&mut self, row: &MetaRow)
        ensures { self.new ≡ record self.old { meta = Some row.now } }
    {
        self.meta = Some(*row);
    }

    /// With the rows of a change, which has been written.
    pub fn follow(&mut self, change: &Change)
        ensures { Follows change.now self.old self.new }
    {
        self.lots.put_all(change.put.lots.as_slice());
        self.lots_of.put_all(change.put.lots.as_slice());
        self.orders.set_all(change.put.orders.as_slice());
        self.urgents.put_all(change.put.urgents.as_slice());
        self.lines.put_all(change.put.lines.as_slice());
        self.lines_at.put_all(change.put.lines.as_slice());
        follow_stock(&mut self.stock, &change.put, &change.dropped);
        follow_staged(
            &mut self.staged,
            &self.staged_for,
            &change.put,
            &change.dropped,
        );
        follow_staged_for(&mut self.staged_for, &change.put, &change.dropped);
        follow_reserved(&mut self.reserved, &change.put, &change.dropped);
        follow_reserved_for(&mut self.reserved_for, &change.put, &change.dropped);
        self.meta = Some(change.meta);
    }
}
