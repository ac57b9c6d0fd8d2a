//! Lots that are out: they expire before the earliest expiry that ships. What is staged of them goes
//! to RETURNS.

ghost use Rattle.std.specs.Prelude.{◌≡◌, not, filter, flat_map, Some, IfOk};
ghost use Rattle.commands.specs.Lists.{total};
ghost use Rattle.commands.specs.Replies.{reply_text};
ghost use Rattle.commands.specs.declared.replies.ReplyField.TheVariants.{Returned};
ghost use Rattle.row_rules.specs.Seen.{capped, number_seen as number_seen_lem, none_put, none_dropped};
ghost use Rattle.rules.specs.DecidedHold.{row_returned as row_returned_lem};
ghost use Rattle.rules.specs.Expiring.{is_out as is_out_lem, is_out_among, staged_kept_on as staged_kept_on_lem, staged_gone_on as staged_gone_on_lem, stock_returned as stock_returned_lem, stands_in as stands_in_lem, stock_on as stock_on_lem, gtins_seen as gtins_seen_lem, reserved_put_on, reserved_gone_on, changes_on};

use crate::returning::{bins_with_returns, row_returned};
use commands::{LeastRow, Listed, LotRow, MetaRow, ReplyField, Short, StagedRow, StockRow, reply};
use label::BusinessDay;
use row_rules::change_parts::{none_dropped, none_put, number_seen};
use row_rules::loops::{Test, failing, passing};
use row_rules::plans::{DemandRows, ItemRows, SupplyRows, item_rows};
use row_rules::replanning::{Replanned, replan_items};
use row_rules::row_search::values_of;
use row_rules::rows_by_key::{RowsByKey, by_key};
use row_rules::status::{earliest_of, is_past};
use row_rules::{Change, Dropped, Put, Slice};
use std::alloc::{AllocError, Global};
use values::{Gtin, LotId, Name};

// Lots that are out on a day, with the days that these rows ask for

// The rows by which a lot is out.
#[derive(Drop)]
struct Outs<'a> {
    lots: RowsByKey<'a, LotId, LotRow>,
    day: BusinessDay,
    asked: RowsByKey<'a, Gtin, LeastRow>,
}

// The rows, to be found so many times.
fn outs_on<'a>(
    alloc: Global,
    slice: &'a Slice,
    day: BusinessDay,
    least: &'a [LeastRow],
    times: usize,
) -> Result<Outs<'a>, AllocError>
    ensures { IfOk result (λ o. o ≡ record { lots = slice.now.rows.lots; day = day; asked = least.now }) }
{
    let lots = by_key::<LotId, LotRow>(alloc, slice.rows.lots.as_slice(), times)?;
    let asked = by_key::<Gtin, LeastRow>(alloc, least, times)?;
    Ok(Outs { lots, day, asked })
}

impl Outs<'_> {
    fn is_out(&self, lot: &LotId) -> bool
        ensures { result ≡ is_out_among self.now.lots self.now.day self.now.asked lot.now }
    {
        let from = earliest_of(self.day, self.asked.find(&lot.gtin));
        is_past(self.lots.find(lot), from)
    }
}

impl Test<StagedRow> for Outs<'_> {
    ghost use Rattle.rules.specs.Expiring.{is_out_among};

    ghost test = { λ o r. is_out_among o.lots o.day o.asked r.lot };

    fn passes(&self, row: &StagedRow) -> bool {
        self.is_out(&row.lot)
    }
}

impl Test<LotRow> for Outs<'_> {
    ghost use Rattle.rules.specs.Expiring.{is_out_among};

    ghost test = { λ o k. is_out_among o.lots o.day o.asked k.lot };

    fn passes(&self, row: &LotRow) -> bool {
        self.is_out(&row.lot)
    }
}

// Staged rows

fn staged_kept_on(
    alloc: Global,
    slice: &Slice,
    day: BusinessDay,
    least: &[LeastRow],
) -> Result<Vec<StagedRow>, AllocError>
    ensures { IfOk result (λ v. v.items ≡ staged_kept_on_lem slice.now day least.now) }
{
    let rows = slice.rows.staged.as_slice();
    let outs = outs_on(alloc, slice, day, least, rows.len())?;
    failing(alloc, rows, &outs)
}

fn staged_gone_on(
    alloc: Global,
    slice: &Slice,
    day: BusinessDay,
    least: &[LeastRow],
) -> Result<Vec<StagedRow>, AllocError>
    ensures { IfOk result (λ v. v.items ≡ staged_gone_on_lem slice.now day least.now) }
{
    let rows = slice.rows.staged.as_slice();
    let outs = outs_on(alloc, slice, day, least, rows.len())?;
    passing(alloc, rows, &outs)
}

// Stock rows

// The lots that are out.
fn lots_out(
    alloc: Global,
    slice: &Slice,
    day: BusinessDay,
    least: &[LeastRow],
) -> Result<Vec<LotRow>, AllocError>
    ensures { IfOk result (λ v. v.items ≡ filter (λ k. is_out_lem slice.now day least.now k.lot) slice.now.rows.lots) }
{
    let rows = slice.rows.lots.as_slice();
    let outs = outs_on(alloc, slice, day, least, rows.len())?;
    passing(alloc, rows, &outs)
}

// The rows in RETURNS of the lots that are out, where anything comes into it.
fn stock_returned(
    alloc: Global,
    slice: &Slice,
    day: BusinessDay,
    least: &[LeastRow],
) -> Result<Vec<StockRow>, AllocError>
    ensures { IfOk result (λ v. v.items ≡ stock_returned_lem slice.now day least.now) }
{
    let out = lots_out(alloc, slice, day, least)?;
    let rows = &slice.rows;
    let stock = by_key::<(LotId, Name), StockRow>(alloc, rows.stock.as_slice(), out.len())?;
    let staged = by_key::<LotId, StagedRow>(alloc, rows.staged.as_slice(), out.len())?;
    rows_returned(alloc, &stock, &staged, out.as_slice())
}

fn rows_returned(
    alloc: Global,
    stock: &RowsByKey<'_, (LotId, Name), StockRow>,
    staged: &RowsByKey<'_, LotId, StagedRow>,
    lots: &[LotRow],
) -> Result<Vec<StockRow>, AllocError>
    ensures { IfOk result (λ v. v.items ≡ flat_map (λ k. row_returned_lem stock.now staged.now k.lot) lots.now) }
{
    let mut put = Vec::new(alloc);
    for row in lots {
        let own = row_returned(alloc, stock, staged, &row.lot)?;
        put.extend_from_slice(own.as_slice())?;
    }
    Ok(put)
}

// The rows under whose keys none of the others stands.
fn rows_besides(
    alloc: Global,
    rows: &[StockRow],
    others: &[StockRow],
) -> Result<Vec<StockRow>, AllocError>
    ensures { IfOk result (λ v. v.items ≡ filter (λ r. not (stands_in_lem others.now r)) rows.now) }
{
    let by_cell = by_key::<(LotId, Name), StockRow>(alloc, others, rows.len())?;
    failing(alloc, rows, &StandsIn { others: by_cell })
}

// That one of the others stands under the key of a row.
#[derive(Drop)]
struct StandsIn<'a> {
    others: RowsByKey<'a, (LotId, Name), StockRow>,
}

impl Test<StockRow> for StandsIn<'_> {
    ghost use Rattle.rules.specs.Expiring.{stands_in};

    ghost test = { λ t r. stands_in t.others r };

    fn passes(&self, row: &StockRow) -> bool {
        self.others.has(&(row.lot, row.bin))
    }
}

// All stock rows after the act.
fn stock_on(
    alloc: Global,
    slice: &Slice,
    day: BusinessDay,
    least: &[LeastRow],
) -> Result<Vec<StockRow>, AllocError>
    ensures { IfOk result (λ v. v.items ≡ stock_on_lem slice.now day least.now) }
{
    let mut after = stock_returned(alloc, slice, day, least)?;
    let others = rows_besides(alloc, slice.rows.stock.as_slice(), after.as_slice())?;
    after.extend_from_slice(others.as_slice())?;
    Ok(after)
}

// Reserved rows

fn gtins_seen(alloc: Global, slice: &Slice) -> Result<Vec<Gtin>, AllocError>
    ensures { IfOk result (λ v. v.items ≡ gtins_seen_lem slice.now) }
{
    values_of(alloc, slice.rows.items.as_slice())
}

// What the plans of the items reserve then.
fn replan_on(
    alloc: Global,
    slice: &Slice,
    day: BusinessDay,
    least: &[LeastRow],
) -> Result<Replanned, AllocError>
    ensures put { IfOk result (λ r. r.put ≡ reserved_put_on slice.now day least.now) }
    ensures dropped { IfOk result (λ r. r.dropped ≡ reserved_gone_on slice.now day least.now) }
{
    let gtins = gtins_seen(alloc, slice)?;
    let staged = staged_kept_on(alloc, slice, day, least)?;
    let bins = bins_with_returns(alloc, slice)?;
    let stock = stock_on(alloc, slice, day, least)?;
    let before = item_rows(&slice.rows);
    let demands = DemandRows {
        staged: staged.as_slice(),
        ..before.demands
    };
    let supplies = SupplyRows {
        bins: bins.as_slice(),
        stock: stock.as_slice(),
        least,
        ..before.supplies
    };
    let rows = ItemRows { demands, supplies };
    replan_items(alloc, slice, gtins.as_slice(), day, &rows)
}

// The change

/// What an act changes by which lots are out on the day, with the days that these rows ask for, where
/// it puts these rows of `least`.
pub fn change_on(
    alloc: Global,
    slice: &Slice,
    day: BusinessDay,
    least: &[LeastRow],
    asked: Listed<LeastRow>,
) -> Result<Change, AllocError>
    ensures { IfOk result (λ change. change ≡ changes_on slice.now day least.now asked) }
{
    let stock = stock_returned(alloc, slice, day, least)?;
    let staged = staged_gone_on(alloc, slice, day, least)?;
    let units = sum_units(staged.as_slice());
    let reserved = replan_on(alloc, slice, day, least)?;
    let rows = Out {
        stock,
        staged,
        reserved,
    };
    Ok(changed(alloc, meta_on(slice, day), units, rows, asked))
}

fn sum_units(rows: &[StagedRow]) -> u64
    ensures { result ≡ capped (total (λ r. r.qty) rows.now) }
{
    let mut sum = 0_u64;
    for row in rows {
        sum = sum.saturating_add(row.qty);
    }
    sum
}

// The rows that change where lots are out.
#[derive(Drop)]
struct Out {
    // The stock rows put in RETURNS.
    stock: Vec<StockRow>,
    // The staged rows dropped.
    staged: Vec<StagedRow>,
    reserved: Replanned,
}

// The change by these rows, and so many units returned.
fn changed(alloc: Global, meta: MetaRow, units: u64, rows: Out, asked: Listed<LeastRow>) -> Change
    ensures { result ≡ record { meta = meta; put = record none_put { stock = rows.stock.items; reserved = rows.reserved.put; least = asked }; dropped = record none_dropped { staged = rows.staged.items; reserved = rows.reserved.dropped }; text = reply_text meta.acts (Some (Returned units)) } }
{
    let Out {
        stock,
        staged,
        reserved,
    } = rows;
    Change {
        meta,
        put: Put {
            stock: Listed::from_vec(stock),
            reserved: reserved.put,
            least: asked,
            ..none_put(alloc)
        },
        dropped: Dropped {
            staged: Listed::from_vec(staged),
            reserved: reserved.dropped,
            ..none_dropped(alloc)
        },
        text: returned_reply(&meta, units),
    }
}

fn meta_on(slice: &Slice, day: BusinessDay) -> MetaRow
    ensures { result ≡ record { day = day; acts = number_seen_lem slice.now; shipments = slice.now.meta.shipments } }
{
    MetaRow {
        day,
        acts: number_seen(slice),
        shipments: slice.meta.shipments,
    }
}

// The reply says how many units were returned.
fn returned_reply(meta: &MetaRow, units: u64) -> Short
    ensures { result ≡ reply_text meta.now.acts (Some (Returned units)) }
{
    reply(meta.acts, Some(ReplyField::Returned(units)))
}
