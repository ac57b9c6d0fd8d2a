//! Items and bins.

ghost use Rattle.std.specs.Prelude.{◌≡◌, IfOk};
ghost use Rattle.machine.specs.Verdict.{first_refusal};
ghost use Rattle.rules.specs.DecidedSetup.{item_seen, item_changes, bin_seen, bin_changes};

use commands::limits::{BINS_MAX, ITEMS_MAX};
use commands::{BinRow, ItemRow, LeastRow, NewBin, NewItem, Refusal};
use row_rules::change_parts::{meta_next, none_dropped, none_put, one, plain_reply};
use row_rules::first_refusal::first_of;
use row_rules::goods_seen::{sees_bin, sees_item};
use row_rules::{Change, Put, Slice};
use std::alloc::{AllocError, Global};
use values::LeastDays;

/// The refusal of a new item, if it is refused.
pub fn judge_item(slice: &Slice, item: &NewItem) -> Option<Refusal>
    ensures { result ≡ first_refusal (item_seen slice.now item.now) }
{
    let known = sees_item(slice, &item.gtin);
    let many = ITEMS_MAX <= slice.items;
    first_of(&[(known || many, Refusal::ItemExists)])
}

/// What a new item changes.
pub fn change_item(alloc: Global, slice: &Slice, item: &NewItem) -> Result<Change, AllocError>
    ensures { IfOk result (λ change. change ≡ item_changes slice.now item.now) }
{
    let row = ItemRow {
        gtin: item.gtin,
        name: item.name,
    };
    let asked = LeastRow {
        gtin: item.gtin,
        days: LeastDays::new(0).unwrap(),
    };
    let items = one(alloc, row)?;
    let least = one(alloc, asked)?;
    Ok(Change {
        meta: meta_next(slice),
        put: Put {
            items,
            least,
            ..none_put(alloc)
        },
        dropped: none_dropped(alloc),
        text: plain_reply(slice),
    })
}

/// The refusal of a new bin, if it is refused.
pub fn judge_bin(slice: &Slice, bin: &NewBin) -> Option<Refusal>
    ensures { result ≡ first_refusal (bin_seen slice.now bin.now) }
{
    let known = sees_bin(slice, &bin.bin);
    let many = BINS_MAX <= slice.bins;
    first_of(&[(known || many, Refusal::BinExists)])
}

/// What a new bin changes.
pub fn change_bin(alloc: Global, slice: &Slice, bin: &NewBin) -> Result<Change, AllocError>
    ensures { IfOk result (λ change. change ≡ bin_changes slice.now bin.now) }
{
    let row = BinRow {
        name: bin.bin,
        kind: bin.kind,
    };
    let bins = one(alloc, row)?;
    Ok(Change {
        meta: meta_next(slice),
        put: Put {
            bins,
            ..none_put(alloc)
        },
        dropped: none_dropped(alloc),
        text: plain_reply(slice),
    })
}
