//! What is shown of items.

ghost use Rattle.std.specs.Prelude.{◌≡◌, ◌+◌, [], map, take, option_map, IfOk, List, Option, length, ℤ};
ghost use Rattle.commands.specs.declared.command.NewItem.{NewItem};
ghost use Rattle.machine.specs.Acts.{Act};
ghost use Rattle.machine.specs.Once.{IsHistory};
ghost use Rattle.row_rules.specs.Plans.{inserted};
ghost use Rattle.overviews.specs.Pages.{items_behind as items_behind_lem, item_names_view as item_names_view_lem};
ghost use Rattle.views.specs.GivenNames.{item_before, items_and_more, named_seen, names_seen};
ghost use Rattle.views.specs.ShownNames.{row_of_item, AreItems, AreAsked};

use crate::least::least_found;
use crate::pages::{front_of, is_behind};
use crate::text_order::is_text_before;
use commands::{ItemRow, LeastRow, Listed};
use overviews::{ItemNamesView, NAMES_MAX, NamedItem};
use row_rules::in_order::Order;
use row_rules::loops::{Make, Test, each_made, passing};
use row_rules::rows_by_key::{RowsByKey, by_key};
use std::alloc::{AllocError, Global};
use values::Gtin;

/// The order of items: by GTIN.
struct ByGtin;

impl Order<ItemRow> for ByGtin {
    ghost use Rattle.views.specs.GivenNames.{item_before};

    ghost before = { item_before };

    fn is_before(first: &ItemRow, second: &ItemRow) -> bool {
        is_text_before(first.gtin.as_bytes(), second.gtin.as_bytes())
    }
}

// Which items

// That an item stands behind the one that was seen last.
#[derive(Clone, Copy)]
struct IsBehind {
    seen: Option<ItemRow>,
}

impl Test<ItemRow> for IsBehind {
    ghost use Rattle.overviews.specs.Pages.{is_behind as is_behind_lem};
    ghost use Rattle.views.specs.GivenNames.{item_before};

    ghost test = { λ t i. is_behind_lem item_before t.seen i };

    fn passes(&self, item: &ItemRow) -> bool {
        is_behind::<ByGtin, ItemRow>(&self.seen, item)
    }
}

// The items by GTIN. Of two that tie, which items of books do not, the later in the list stands first.
fn by_gtin(alloc: Global, items: &[ItemRow]) -> Result<Vec<ItemRow>, AllocError>
    ensures { IfOk result (λ v. v.items ≡ inserted item_before [] items.now) }
{
    let mut ordered = items.to_vec(alloc)?;
    ordered.reverse();
    ordered.sort_by(|a, b| a.gtin.as_bytes().cmp(b.gtin.as_bytes()))?;
    Ok(ordered)
}

/// The items behind the one that was seen last, by GTIN: as many as one answer has, and one more where they go on. The rows
/// are those of all items.
pub fn items_page(
    alloc: Global,
    items: &[ItemRow],
    seen: Option<ItemRow>,
) -> Result<Vec<ItemRow>, AllocError>
    ensures seen { IfOk result (λ v. v.items ≡ items_and_more seen items.now) }
    ensures shown { (first : ℤ) (acts : List Act) (last : Option NewItem) → IsHistory first acts → seen ≡ option_map row_of_item last → AreItems acts items.now
        → IfOk result (λ v. v.items ≡ map row_of_item (take (NAMES_MAX + 1) (items_behind_lem acts last))) }
{
    let behind = passing(alloc, items, &IsBehind { seen })?;
    let mut ordered = by_gtin(alloc, behind.as_slice())?;
    ordered.truncate(NAMES_MAX + 1);
    Ok(ordered)
}

// What is shown of them

// An item with the days that it asks for, by these rows.
#[derive(Drop)]
struct Named<'a> {
    least: RowsByKey<'a, Gtin, LeastRow>,
}

impl Make<ItemRow, NamedItem> for Named<'_> {
    ghost use Rattle.views.specs.GivenNames.{named_seen};

    ghost made = { λ m i. named_seen m.least i };

    fn make(&self, _: Global, item: &ItemRow) -> Result<NamedItem, AllocError> {
        Ok(NamedItem {
            item: *item,
            least: least_found(&self.least, &item.gtin),
        })
    }
}

fn items_shown(
    alloc: Global,
    least: &[LeastRow],
    items: &[ItemRow],
) -> Result<Vec<NamedItem>, AllocError>
    ensures { IfOk result (λ v. v.items ≡ map (named_seen least.now) items.now) }
{
    let least = by_key::<Gtin, LeastRow>(alloc, least, items.len())?;
    each_made(alloc, items, &Named { least })
}

/// What is shown of items, of which there is one more where they go on (`items_page`), after so many acts. The rows are what
/// these items ask for; others may be among them. It fails for want of memory alone.
pub fn item_names_view(
    alloc: Global,
    act: u64,
    least: &[LeastRow],
    found: &[ItemRow],
) -> Result<ItemNamesView, AllocError>
    ensures seen { IfOk result (λ view. view ≡ names_seen act least.now found.now) }
    ensures shown { (first : ℤ) (acts : List Act) (last : Option NewItem) → IsHistory first acts → length acts ≡ act
        → found.now ≡ map row_of_item (take (NAMES_MAX + 1) (items_behind_lem acts last)) → AreAsked acts last least.now
        → IfOk result (λ view. view ≡ item_names_view_lem acts last) }
{
    let items = items_shown(alloc, least, front_of(found, NAMES_MAX))?;
    Ok(ItemNamesView {
        act,
        items: Listed::from_vec(items),
        more: found.len() > NAMES_MAX,
    })
}
