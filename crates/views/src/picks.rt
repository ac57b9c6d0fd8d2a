//! What is picked for an order.

ghost use Rattle.std.specs.Prelude.{◌≡◌, ◌++◌, [], option_map, IfOk, OnOk, ℤ, List, Some};
ghost use Rattle.std.specs.List.{cons_option};
ghost use Rattle.machine.specs.Acts.{Act};
ghost use Rattle.machine.specs.Once.{IsHistory};
ghost use Rattle.machine.specs.Standing.{Placed, order_named};
ghost use Rattle.machine.specs.Tables.{order_row, tables_of};
ghost use Rattle.row_rules.specs.Plans.{staged_seen};
ghost use Rattle.row_rules.specs.Seen.{capped};
ghost use Rattle.overviews.specs.Picks.{picks_view as picks_view_lem};
ghost use Rattle.views.specs.GivenExpiring.{all_found};
ghost use Rattle.views.specs.GivenPicks.{with_item as with_item_lem, pick_line_found, pick_line_seen, picks_seen};
ghost use Rattle.views.specs.Shown.{AreShown};
ghost use Rattle.views.specs.ShownPicks.{AreLineItems};

use crate::found_rows::{FoundRows, found_rows};
use crate::lines::lines_of_order;
use crate::order::line_view;
use commands::{ItemRow, LineRow, LineView, Listed, OrderRow};
use overviews::{PickLine, PicksView};
use row_rules::row_search::units_with;
use row_rules::rows_by_key::{RowsByKey, by_key};
use rules::Rows;
use std::alloc::{AllocError, Global};
use values::Gtin;

fn line_staged(found: &FoundRows<'_>, order: &OrderRow, line: &LineRow) -> u64
    ensures { result ≡ capped (staged_seen line.now.gtin order.now.order found.now.staged) }
{
    let staged = found.staged.candidates(&line.gtin);
    units_with(staged, &(order.order, line.gtin))
}

fn with_item(item: ItemRow, staged: u64, line: LineView) -> PickLine
    ensures { result ≡ with_item_lem staged line item }
{
    let LineView {
        gtin: _,
        ordered,
        reserved,
        shipped,
        short,
        staged: _,
        least,
    } = line;
    PickLine {
        item,
        least,
        ordered,
        shipped,
        short,
        staged,
        take: reserved,
    }
}

fn push_line(
    lines: &mut Vec<PickLine>,
    item: Option<ItemRow>,
    staged: u64,
    line: LineView,
) -> Result<(), AllocError>
    ensures { OnOk result (lines.new.items ≡ lines.old.items ++ cons_option (option_map (with_item_lem staged line) item) []) }
{
    if let Some(item) = item {
        lines.push(with_item(item, staged, line))?;
    }
    Ok(())
}

fn add_line(
    alloc: Global,
    found: &FoundRows<'_>,
    items: &RowsByKey<'_, Gtin, ItemRow>,
    order: &OrderRow,
    lines: &mut Vec<PickLine>,
    row: &LineRow,
) -> Result<(), AllocError>
    ensures { OnOk result (lines.new.items ≡ lines.old.items ++ cons_option (pick_line_found found.now items.now order.now row.now) []) }
{
    let line = line_view(alloc, found, order, row)?;
    let staged = line_staged(found, order, row);
    push_line(lines, items.find(&row.gtin), staged, line)
}

fn lines_found(
    alloc: Global,
    found: &FoundRows<'_>,
    items: &RowsByKey<'_, Gtin, ItemRow>,
    order: &OrderRow,
    rows: &[LineRow],
) -> Result<Vec<PickLine>, AllocError>
    ensures { IfOk result (λ v. v.items ≡ all_found (pick_line_found found.now items.now order.now) rows.now) }
{
    let mut lines = Vec::new(alloc);
    for row in rows {
        add_line(alloc, found, items, order, &mut lines, row)?;
    }
    Ok(lines)
}

fn pick_lines(
    alloc: Global,
    rows: &Rows,
    items: &[ItemRow],
    order: &OrderRow,
    lines: &[LineRow],
) -> Result<Vec<PickLine>, AllocError>
    ensures { IfOk result (λ v. v.items ≡ all_found (pick_line_seen rows.now items.now order.now) lines.now) }
{
    let found = found_rows(alloc, rows, lines.len())?;
    let items = by_key::<Gtin, ItemRow>(alloc, items, lines.len())?;
    lines_found(alloc, &found, &items, order, lines)
}

/// What is picked for an order whose row this is. The rows are those by which the order is shown (`order_view`), and those of
/// the items of its lines; others may be among them. It fails for want of memory alone.
pub fn picks_view(
    alloc: Global,
    rows: &Rows,
    items: &[ItemRow],
    order: &OrderRow,
) -> Result<PicksView, AllocError>
    ensures seen { IfOk result (λ view. view ≡ picks_seen rows.now items.now order.now) }
    ensures shown { (first : ℤ) (acts : List Act) (p : Placed) → IsHistory first acts → order_named acts order.now.order ≡ Some p → order_row first acts order.now.order ≡ Some order.now
        → AreShown p (tables_of first acts) rows.now → AreLineItems acts p items.now → IfOk result (λ view. view ≡ picks_view_lem first acts p) }
{
    let lines = lines_of_order(alloc, rows.lines.as_slice(), &order.order)?;
    let shown = pick_lines(alloc, rows, items, order, lines.as_slice())?;
    Ok(PicksView {
        customer: order.customer,
        lines: Listed::from_vec(shown),
        order: order.order,
        state: order.state,
    })
}
