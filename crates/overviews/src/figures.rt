// The figures of the house at one moment.

use label::BusinessDay;

/// Lots with units in the house, counted by status.
#[derive(Clone, Copy)]
pub struct LotFigures {
    pub expired: u64,
    pub held: u64,
    pub recalled: u64,
}

/// Open orders, counted.
#[derive(Clone, Copy)]
pub struct OpenFigures {
    /// All of them.
    pub orders: u64,
    /// Those that are short of an item.
    pub short: u64,
    /// Those with units staged.
    pub staged: u64,
    pub urgent: u64,
}

/// Units of all lots.
#[derive(Clone, Copy)]
pub struct UnitFigures {
    /// In bins and on stages.
    pub house: u64,
    /// In the bin RETURNS.
    pub returns: u64,
}

/// The figures of the house.
#[derive(Clone, Copy)]
pub struct FiguresView {
    /// The number of the last act.
    pub act: u64,
    /// The business day.
    pub day: BusinessDay,
    pub lots: LotFigures,
    pub open_orders: OpenFigures,
    pub units: UnitFigures,
}
