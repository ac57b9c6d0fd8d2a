//! The items, the lots, the orders and the bins that a command names.

ghost use Rattle.std.specs.Prelude.{◌≡◌, [], OnOk, IfOk, option_map};
ghost use Rattle.std.specs.Option.{option_to_list};
ghost use Rattle.commands.specs.Names.{names_of, is_cancelled};
ghost use Rattle.rows_in_memory.specs.Parts.{with_names, with_some, items_named, lots_named, orders_named, bins_named, order_where, whole_orders as whole_orders_lem};
ghost use Rattle.rows_in_memory.specs.NameOrder.{AreNamesKeyed};

use crate::item_list::ItemList;
use crate::name_list::NameList;
use commands::{Command, LineRow, NamedOrder, StockRow};
use std::alloc::{AllocError, Global};
use values::{Gtin, LotId, Name};

/// What is named, where anything is.
fn listed<T: Copy>(alloc: Global, name: Option<T>) -> Result<Vec<T>, AllocError>
    ensures { IfOk result (λ names. names.items ≡ option_to_list name) }
{
    let mut names = Vec::new(alloc);
    if let Some(name) = name {
        names.push(name)?;
    }
    Ok(names)
}

/// The item that is named, where one is.
fn named_item(alloc: Global, item: Option<Gtin>) -> Result<ItemList, AllocError>
    ensures items { IfOk result (λ list. list.values.items ≡ option_to_list item) }
    ensures keyed { IfOk result (λ list. AreNamesKeyed list.keys list.values.items) }
{
    match item {
        Some(gtin) => ItemList::one(alloc, gtin),
        None => Ok(ItemList::new(alloc)),
    }
}

/// The items that a command names, each once.
fn named_items(alloc: Global, command: &Command) -> Result<ItemList, AllocError>
    ensures items { IfOk result (λ list. list.values.items ≡ items_named command.now) }
    ensures keyed { IfOk result (λ list. AreNamesKeyed list.keys list.values.items) }
{
    let names = command.names();
    let mut list = named_item(alloc, names.item)?;
    list.add_all(names.lines)?;
    Ok(list)
}

/// The items, and those of the rows of lines, each once.
fn with_items(mut list: ItemList, lines: &[LineRow]) -> Result<Vec<Gtin>, AllocError>
    ensures { IfOk result (λ all. AreNamesKeyed list.keys list.values.items → all.items ≡ with_names (λ r. r.gtin) lines.now list.values.items) }
{
    list.add_all(lines)?;
    Ok(list.into_values())
}

/// The items that a command names, and those of the rows of lines, each once.
pub fn items_with(
    alloc: Global,
    command: &Command,
    lines: &[LineRow],
) -> Result<Vec<Gtin>, AllocError>
    ensures { IfOk result (λ gtins. gtins.items ≡ with_names (λ r. r.gtin) lines.now (items_named command.now)) }
{
    let list = named_items(alloc, command)?;
    with_items(list, lines)
}

/// The items of rows of lines, each once.
pub fn items_of_rows(alloc: Global, lines: &[LineRow]) -> Result<Vec<Gtin>, AllocError>
    ensures { IfOk result (λ gtins. gtins.items ≡ with_names (λ r. r.gtin) lines.now []) }
{
    with_items(ItemList::new(alloc), lines)
}

/// The lot that a command names, if it names one.
pub fn named_lots(alloc: Global, command: &Command) -> Result<Vec<LotId>, AllocError>
    ensures { IfOk result (λ lots. lots.items ≡ lots_named command.now) }
{
    listed(alloc, command.names().lot)
}

/// The order that a command cancels, if it cancels one.
fn order_cancelled(command: &Command) -> Option<Name>
    ensures { result ≡ order_where is_cancelled (names_of command.now).order }
{
    let named = command.names().order?;
    if named.step.is_cancelled() {
        Some(named.order)
    } else {
        None
    }
}

/// The order that a command takes whole, if it takes one: it touches the items of all its lines.
pub fn whole_orders(alloc: Global, command: &Command) -> Result<Vec<Name>, AllocError>
    ensures { IfOk result (λ names. names.items ≡ whole_orders_lem command.now) }
{
    listed(alloc, order_cancelled(command))
}

/// The name of the order.
fn order_in(named: Option<NamedOrder>) -> Option<Name>
    ensures { result ≡ option_map (λ n. n.order) named }
{
    Some(named?.order)
}

/// The order that a command names, if it names one.
pub fn named_orders(alloc: Global, command: &Command) -> Result<Vec<Name>, AllocError>
    ensures { IfOk result (λ names. names.items ≡ orders_named command.now) }
{
    listed(alloc, order_in(command.names().order))
}

/// One name more, where there is one and it is new.
fn add_some(list: &mut NameList, name: Option<Name>) -> Result<(), AllocError>
    ensures added { OnOk result (AreNamesKeyed list.old.keys list.old.values.items → list.new.values.items ≡ with_some name list.old.values.items) }
    ensures keyed { AreNamesKeyed list.old.keys list.old.values.items → AreNamesKeyed list.new.keys list.new.values.items }
{
    match name {
        Some(name) => list.add(name),
        None => Ok(()),
    }
}

fn named_bins(alloc: Global, command: &Command) -> Result<NameList, AllocError>
    ensures names { IfOk result (λ list. list.values.items ≡ bins_named command.now) }
    ensures keyed { IfOk result (λ list. AreNamesKeyed list.keys list.values.items) }
{
    let names = command.names();
    let mut list = NameList::new(alloc);
    add_some(&mut list, names.bin)?;
    add_some(&mut list, names.other_bin)?;
    Ok(list)
}

/// The names, and those of the bins of the stock, each once.
fn with_bins(mut list: NameList, stock: &[StockRow]) -> Result<Vec<Name>, AllocError>
    ensures { IfOk result (λ all. AreNamesKeyed list.keys list.values.items → all.items ≡ with_names (λ r. r.bin) stock.now list.values.items) }
{
    list.add_all(stock)?;
    Ok(list.into_values())
}

/// The bins that a command names, and those of the stock, each once.
pub fn bins_with(
    alloc: Global,
    command: &Command,
    stock: &[StockRow],
) -> Result<Vec<Name>, AllocError>
    ensures { IfOk result (λ names. names.items ≡ with_names (λ r. r.bin) stock.now (bins_named command.now)) }
{
    let list = named_bins(alloc, command)?;
    with_bins(list, stock)
}

/// The bins of the stock, each once.
pub fn bins_of_stock(alloc: Global, stock: &[StockRow]) -> Result<Vec<Name>, AllocError>
    ensures { IfOk result (λ names. names.items ≡ with_names (λ r. r.bin) stock.now []) }
{
    with_bins(NameList::new(alloc), stock)
}
