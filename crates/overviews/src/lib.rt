//! Lists of which one answer shows a page, the trace of a lot, the pick list of an order and the figures of the house: their
//! records, and what they show of the acts.
#![tactic(auto)]

mod figures;
pub mod laws;
mod lists;
mod picks;
mod trace;

pub use figures::{FiguresView, LotFigures, OpenFigures, UnitFigures};
pub use lists::{
    BinLot, BinView, BooksView, ExpiringView, ItemLot, ItemNamesView, NAMES_MAX, NamedItem,
    OpenOrder, OpenOrdersView, PAGE_MAX,
};
pub use picks::{PickLine, PicksView};
pub use trace::{Delivery, StagedUnits, TraceView};
