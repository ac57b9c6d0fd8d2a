//! The parts of changes that commands have in common.

ghost use Rattle.std.specs.Prelude.{◌≡◌, [], ◌∷◌, IfOk};
ghost use Rattle.row_rules.specs.Seen.{none_put as none_put_lem, none_dropped as none_dropped_lem, meta_after, number_seen as number_seen_lem, plain_reply as plain_reply_lem};

use crate::{Dropped, Put, Slice};
use commands::{Listed, MetaRow, Short, reply};
use std::alloc::{AllocError, Global};

/// No rows put.
pub fn none_put(alloc: Global) -> Put
    ensures { result ≡ none_put_lem }
{
    Put {
        items: Listed::from_vec(Vec::new(alloc)),
        bins: Listed::from_vec(Vec::new(alloc)),
        lots: Listed::from_vec(Vec::new(alloc)),
        recalls: Listed::from_vec(Vec::new(alloc)),
        stock: Listed::from_vec(Vec::new(alloc)),
        orders: Listed::from_vec(Vec::new(alloc)),
        lines: Listed::from_vec(Vec::new(alloc)),
        staged: Listed::from_vec(Vec::new(alloc)),
        reserved: Listed::from_vec(Vec::new(alloc)),
        shipments: Listed::from_vec(Vec::new(alloc)),
        shiplines: Listed::from_vec(Vec::new(alloc)),
        cards: Listed::from_vec(Vec::new(alloc)),
        least: Listed::from_vec(Vec::new(alloc)),
        urgents: Listed::from_vec(Vec::new(alloc)),
    }
}

/// No rows dropped.
pub fn none_dropped(alloc: Global) -> Dropped
    ensures { result ≡ none_dropped_lem }
{
    Dropped {
        stock: Listed::from_vec(Vec::new(alloc)),
        stage: None,
        staged: Listed::from_vec(Vec::new(alloc)),
        reserved: Listed::from_vec(Vec::new(alloc)),
    }
}

/// A list of one row.
pub fn one<T: Copy>(alloc: Global, row: T) -> Result<Listed<T>, AllocError>
    ensures { IfOk result (λ rows. rows ≡ row ∷ []) }
{
    let mut rows = Vec::new(alloc);
    rows.push(row)?;
    Ok(Listed::from_vec(rows))
}

/// The number of the act that is decided.
pub fn number_seen(slice: &Slice) -> u64
    ensures { result ≡ number_seen_lem slice.now }
{
    slice.meta.acts.saturating_add(1)
}

/// The row of `meta` after a command that neither opens a day nor ships.
pub fn meta_next(slice: &Slice) -> MetaRow
    ensures { result ≡ meta_after slice.now }
{
    MetaRow {
        day: slice.meta.day,
        acts: number_seen(slice),
        shipments: slice.meta.shipments,
    }
}

/// The reply with nothing beside the number.
pub fn plain_reply(slice: &Slice) -> Short
    ensures { result ≡ plain_reply_lem slice.now }
{
    reply(number_seen(slice), None)
}
