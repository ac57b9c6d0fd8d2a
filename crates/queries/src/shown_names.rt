//! The rows by which items are shown.

ghost use Rattle.std.specs.Prelude.{◌≡◌};
ghost use Rattle.sqlite.specs.Held.{state};
ghost use Rattle.slices.specs.Reading.{IsRead};
ghost use Rattle.slices.specs.Remembering.{Learning};
ghost use Rattle.slices.specs.Slicing.{AreLeast};
ghost use Rattle.queries.specs.ShownNames.{gtins_of, IsItemPage, AreNamed};

use crate::query::Query;
use crate::reading::item_row;
use commands::{ItemRow, LeastRow, MetaRow, Refusal};
use keyed_rows::reading::All;
use label::BusinessDay;
use overviews::{ItemNamesView, NAMES_MAX};
use row_rules::row_search::values_of;
use slices::{Known, RowsKnown, known_meta, read_rows, seek_least};
use sqlite::{Alter, Transaction};
use std::alloc::{AllocError, Global};
use table_words::error::TableFault;
use tables::items::Items;
use values::Gtin;
use views::{front_of, item_names_view, items_page};

/// The items behind the one that was seen last: as many as one answer has, and one more where they go on.
fn read_items<S: Alter>(
    alloc: Global,
    tx: &mut Transaction<'_, S>,
    seen: Option<ItemRow>,
) -> Result<Vec<ItemRow>, TableFault>
    ensures same_reference { tx.new.conn.ghost_name ≡ tx.old.conn.ghost_name }
    ensures read { IsRead (λ t page. IsItemPage seen t page.items) (state S.Store tx.old.conn.now) (state S.Store tx.new.conn.now) result }
{
    let items = read_rows::<Items, All, S>(alloc, tx, &All)?;
    let page = items_page(alloc, items.as_slice(), seen)?;
    Ok(page)
}

/// What items ask for, one after another.
fn read_asked<S: Alter>(
    alloc: Global,
    tx: &mut Transaction<'_, S>,
    rows: &mut RowsKnown,
    items: &[ItemRow],
) -> Result<Vec<LeastRow>, TableFault>
    ensures same_reference { tx.new.conn.ghost_name ≡ tx.old.conn.ghost_name }
    ensures read { IsRead (Learning rows.old rows.new (λ t found. AreLeast (gtins_of items.now) t found.items)) (state S.Store tx.old.conn.now) (state S.Store tx.new.conn.now) result }
{
    let gtins = values_of::<Gtin, ItemRow>(alloc, items)?;
    seek_least(alloc, tx, rows, gtins.as_slice())
}

/// The items, what those of the answer ask for, and how many acts the books are of.
fn read_named<S: Alter>(
    alloc: Global,
    tx: &mut Transaction<'_, S>,
    rows: &mut RowsKnown,
    seen: Option<ItemRow>,
) -> Result<(MetaRow, (Vec<ItemRow>, Vec<LeastRow>)), TableFault>
    ensures same_reference { tx.new.conn.ghost_name ≡ tx.old.conn.ghost_name }
    ensures read { IsRead (Learning rows.old rows.new (λ t found. AreNamed seen t found.0 found.1.0.items found.1.1.items)) (state S.Store tx.old.conn.now) (state S.Store tx.new.conn.now) result }
{
    let page = read_items(alloc, tx, seen)?;
    let least = read_asked(alloc, tx, rows, front_of(page.as_slice(), NAMES_MAX))?;
    let meta = known_meta(alloc, tx, rows)?;
    Ok((meta, (page, least)))
}

/// The items, from their first or behind an item.
#[derive(Clone, Copy)]
pub struct ItemNamesQuery {
    pub behind: Option<Gtin>,
}

impl Query for ItemNamesQuery {
    ghost use Rattle.overviews.specs.Shown.{item_names_shown};
    ghost use Rattle.queries.specs.ShownNames.{AreNamesIn, names_refused};

    type Found = (MetaRow, (Vec<ItemRow>, Vec<LeastRow>));

    type View = ItemNamesView;

    ghost is_in = { λ q t found. AreNamesIn q.behind t found };

    ghost shown = { λ first acts q. item_names_shown acts q.behind };

    ghost refused = { λ first acts q why found. names_refused first acts q.behind why found };

    fn read<S: Alter>(
        &self,
        alloc: Global,
        tx: &mut Transaction<'_, S>,
        _known: Option<&Known>,
        rows: &mut RowsKnown,
    ) -> Result<Result<(MetaRow, (Vec<ItemRow>, Vec<LeastRow>)), Refusal>, TableFault> {
        match self.behind {
            None => {
                let found = read_named(alloc, tx, rows, None)?;
                Ok(Ok(found))
            }
            Some(gtin) => {
                let last = item_row(alloc, tx, rows, &gtin)?;
                match last {
                    Some(seen) => {
                        let found = read_named(alloc, tx, rows, Some(seen))?;
                        Ok(Ok(found))
                    }
                    None => Ok(Err(Refusal::UnknownItem)),
                }
            }
        }
    }

    fn view(
        &self,
        alloc: Global,
        _day: BusinessDay,
        found: (MetaRow, (Vec<ItemRow>, Vec<LeastRow>)),
    ) -> Result<ItemNamesView, AllocError> {
        let (meta, named) = found;
        let (page, least) = named;
        item_names_view(alloc, meta.acts, least.as_slice(), page.as_slice())
    }
}
