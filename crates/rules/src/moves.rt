//! Units that are moved from one bin to another.

ghost use Rattle.std.specs.Prelude.{◌≡◌, nat_lt, IfOk};
ghost use Rattle.machine.specs.Verdict.{first_refusal};
ghost use Rattle.row_rules.specs.SeenLots.{in_bin_seen};
ghost use Rattle.rules.specs.DecidedMove.{move_seen, move_told, move_changes};

use crate::changes::{change_in_bins, no_facts, posted_once, stock_posted};
use crate::posting::{Place, Posting};
use commands::{Movement, Refusal};
use row_rules::first_refusal::first_of;
use row_rules::goods_seen::{sees_bin, sees_item};
use row_rules::stock::{sees_lot, units_in_bin};
use row_rules::{Change, Slice};
use std::alloc::{AllocError, Global};

/// The refusal of a move, if it is refused.
pub fn judge_move(slice: &Slice, m: &Movement) -> Option<Refusal>
    ensures { result ≡ first_refusal (move_seen slice.now m.now) }
{
    let known_item = sees_item(slice, &m.lot.gtin);
    let known_from = sees_bin(slice, &m.from);
    let known_to = sees_bin(slice, &m.to);
    let known_lot = sees_lot(slice, &m.lot);
    let missing = is_missing(slice, m);
    let same_bin = m.from == m.to;
    first_of(&[
        (!known_item, Refusal::UnknownItem),
        (!known_from, Refusal::UnknownBin),
        (!known_to, Refusal::UnknownBin),
        (!known_lot, Refusal::UnknownLot),
        (missing, Refusal::NotInBin),
        (same_bin, Refusal::SameBin),
    ])
}

// Whether the bin does not have that many of the lot.
fn is_missing(slice: &Slice, m: &Movement) -> bool
    ensures { result ≡ nat_lt (in_bin_seen slice.now m.now.from m.now.lot) m.now.qty }
{
    units_in_bin(slice, &m.from, &m.lot) < u64::from(m.qty.units())
}

/// What a move changes.
pub fn change_move(alloc: Global, slice: &Slice, m: &Movement) -> Result<Change, AllocError>
    ensures { IfOk result (λ change. change ≡ move_changes slice.now m.now) }
{
    let posting = move_posted(m);
    let stock = stock_posted(alloc, slice, &posting)?;
    let lots = slice.rows.lots.as_slice();
    let facts = no_facts(alloc, slice);
    let in_bins = stock.as_slice();
    change_in_bins(alloc, slice, &m.lot.gtin, &posting, lots, in_bins, facts)
}

// What a move posts.
fn move_posted(m: &Movement) -> Option<Posting>
    ensures { result ≡ move_told m.now }
{
    let units = u64::from(m.qty.units());
    posted_once(&m.lot, Place::InBin(m.from), Place::InBin(m.to), units)
}
