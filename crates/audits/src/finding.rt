use commands::Refusal;
use commands::limits::KEY_TEXT_MAX;
use label::BusinessDay;
use values::Text;
use whole_tables::{RowKey, TableName};

/// What was found of books.
#[derive(Clone, Copy, PartialEq, Eq, Debug)]
pub enum Finding {
    /// The tables are those of the acts, of which there are so many, begun on this day.
    Sound { acts: u64, day: BusinessDay },
    /// This row is other than that of the acts, is missing, or is one too many.
    Differs(RowKey),
    /// A row of this table has a value that no row has.
    Untyped(TableName),
    /// The act of this key has the number 0, or one that another act has too.
    Unnumbered(Text<KEY_TEXT_MAX>),
    /// The row of the act of this number has a key or a spelling that is none, or a key of the other kind.
    Unspelled { act: u64 },
    /// The act of this number is not accepted after those before it.
    Refused { act: u64, why: Refusal },
}

/// Why tables were not compared.
#[derive(Clone, Copy, PartialEq, Eq, Debug)]
pub enum Unread {
    /// A row of this table has a value that no row has.
    Untyped(TableName),
    /// Memory, the disk or a size did not suffice.
    Store,
}
