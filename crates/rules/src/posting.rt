use values::{LotId, Name};

/// Where units of a lot may be.
#[derive(Clone, Copy)]
pub enum Place {
    Supplier,
    InBin(Name),
    Stage(Name),
    /// The shipment's number, and its order.
    Shipped(u64, Name),
    WriteOff,
}

/// Units of a lot that an act brings from one place to another.
#[derive(Clone, Copy)]
pub struct Posting {
    pub lot: LotId,
    pub from: Place,
    pub to: Place,
    pub qty: u64,
}
