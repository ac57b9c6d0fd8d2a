//! What is shown of the books.

ghost use Rattle.std.specs.Prelude.{◌≡◌, ◌⊎◌, ℤ, List};
ghost use Rattle.machine.specs.Acts.{Act};
ghost use Rattle.machine.specs.Once.{IsHistory};
ghost use Rattle.wire.specs.Answers.{answer_bytes};
ghost use Rattle.store.specs.Books.{IsClean, AreAsBefore};
ghost use Rattle.texts.specs.PickList.{pick_list_text};
ghost use Rattle.texts.specs.Shortages.{shortages_text};
ghost use Rattle.house.specs.Answers.{books_answer, open_orders_answer, item_names_answer, expiring_answer, bin_answer, order_answer, stock_answer, pick_list_answer, shortages_answer, card_answer, notice_answer, picks_answer, figures_answer, trace_answer, no_memory};
ghost use Rattle.house.specs.Asking.{Does, IsTextOf, asked_answer, whole_asked};
ghost use Rattle.wire.specs.declared.answer.Answer.TheVariants.{Trace as TraceAnswer};
ghost use Rattle.house.specs.House.{bytes_of, IsLongIfOk};
ghost use Rattle.house.specs.LotTexts.{text_answer};

use crate::Answered;
use crate::answered::answer_query_fault;
use crate::lot_texts::{write_card, write_notice};
use commands::{Listed, OrderView, ShortView};
use label::BusinessDay;
use overviews::TraceView;
use queries::{FiguresQuery, PicksQuery, TraceQuery};
use requests::WireFault;
use sqlite::Alter;
use std::alloc::Global;
use store::{Books, EachFault, Fault};
use texts::{pick_list, shortages};
use values::{Gtin, LotId, Name};
use wire::short_answers::fault_answer;
use wire::{Answer, write_answer};

/// Shows the books.
pub(crate) fn show_books<S: Alter>(alloc: Global, books: &mut Books<S>) -> Answered
    ensures clean { IsClean S.Store books.new → IsClean S.Store books.old }
    ensures shown { IsClean S.Store books.new → (first : ℤ) (acts : List Act) → IsHistory first acts
        → Does S.Store first acts books.old (books_answer first acts) acts (bytes_of result) books.new }
    ensures as_before { IsClean S.Store books.new → AreAsBefore S.Store books.old books.new }
    ensures in_place { IsLongIfOk result }
{
    let shown = books.summary().map(Answer::Books);
    answer_shown(alloc, shown)
}

/// Shows open orders, from their first or behind an order.
pub(crate) fn show_open_orders<S: Alter>(
    alloc: Global,
    books: &mut Books<S>,
    behind: Option<Name>,
) -> Answered
    ensures clean { IsClean S.Store books.new → IsClean S.Store books.old }
    ensures shown { IsClean S.Store books.new → (first : ℤ) (acts : List Act) → IsHistory first acts
        → Does S.Store first acts books.old (open_orders_answer first acts behind) acts (bytes_of result) books.new }
    ensures as_before { IsClean S.Store books.new → AreAsBefore S.Store books.old books.new }
    ensures in_place { IsLongIfOk result }
{
    let shown = books.open_orders(behind).map(Answer::OpenOrders);
    answer_shown(alloc, shown)
}

/// Shows items, from their first or behind an item.
pub(crate) fn show_item_names<S: Alter>(
    alloc: Global,
    books: &mut Books<S>,
    behind: Option<Gtin>,
) -> Answered
    ensures clean { IsClean S.Store books.new → IsClean S.Store books.old }
    ensures shown { IsClean S.Store books.new → (first : ℤ) (acts : List Act) → IsHistory first acts
        → Does S.Store first acts books.old (item_names_answer acts behind) acts (bytes_of result) books.new }
    ensures as_before { IsClean S.Store books.new → AreAsBefore S.Store books.old books.new }
    ensures in_place { IsLongIfOk result }
{
    let shown = books.item_names(behind).map(Answer::ItemNames);
    answer_shown(alloc, shown)
}

/// Shows lots that expire up to a day, from their first or behind a lot.
pub(crate) fn show_expiring<S: Alter>(
    alloc: Global,
    books: &mut Books<S>,
    day: BusinessDay,
    behind: Option<LotId>,
) -> Answered
    ensures clean { IsClean S.Store books.new → IsClean S.Store books.old }
    ensures shown { IsClean S.Store books.new → (first : ℤ) (acts : List Act) → IsHistory first acts
        → Does S.Store first acts books.old (expiring_answer first acts day behind) acts (bytes_of result) books.new }
    ensures as_before { IsClean S.Store books.new → AreAsBefore S.Store books.old books.new }
    ensures in_place { IsLongIfOk result }
{
    let shown = books.expiring(day, behind).map(Answer::Expiring);
    answer_shown(alloc, shown)
}

/// Shows the lots in a bin, from their first or behind a lot.
pub(crate) fn show_bin<S: Alter>(
    alloc: Global,
    books: &mut Books<S>,
    bin: Name,
    behind: Option<LotId>,
) -> Answered
    ensures clean { IsClean S.Store books.new → IsClean S.Store books.old }
    ensures shown { IsClean S.Store books.new → (first : ℤ) (acts : List Act) → IsHistory first acts
        → Does S.Store first acts books.old (bin_answer first acts bin behind) acts (bytes_of result) books.new }
    ensures as_before { IsClean S.Store books.new → AreAsBefore S.Store books.old books.new }
    ensures in_place { IsLongIfOk result }
{
    let shown = books.bin(bin, behind).map(Answer::Bin);
    answer_shown(alloc, shown)
}

/// Shows an order.
pub(crate) fn show_order<S: Alter>(alloc: Global, books: &mut Books<S>, order: &Name) -> Answered
    ensures clean { IsClean S.Store books.new → IsClean S.Store books.old }
    ensures shown { IsClean S.Store books.new → (first : ℤ) (acts : List Act) → IsHistory first acts
        → Does S.Store first acts books.old (order_answer first acts order.now) acts (bytes_of result) books.new }
    ensures as_before { IsClean S.Store books.new → AreAsBefore S.Store books.old books.new }
    ensures in_place { IsLongIfOk result }
{
    let shown = books.order_rows(order).map(Answer::Order);
    answer_shown(alloc, shown)
}

/// Shows the stock of an item.
pub(crate) fn show_stock<S: Alter>(alloc: Global, books: &mut Books<S>, gtin: &Gtin) -> Answered
    ensures clean { IsClean S.Store books.new → IsClean S.Store books.old }
    ensures shown { IsClean S.Store books.new → (first : ℤ) (acts : List Act) → IsHistory first acts
        → Does S.Store first acts books.old (stock_answer first acts gtin.now) acts (bytes_of result) books.new }
    ensures as_before { IsClean S.Store books.new → AreAsBefore S.Store books.old books.new }
    ensures in_place { IsLongIfOk result }
{
    let shown = books.stock(gtin).map(Answer::Stock);
    answer_shown(alloc, shown)
}

/// Shows the pick list of an order.
pub(crate) fn show_pick_list<S: Alter>(
    alloc: Global,
    books: &mut Books<S>,
    order: &Name,
) -> Answered
    ensures clean { IsClean S.Store books.new → IsClean S.Store books.old }
    ensures shown { IsClean S.Store books.new → (first : ℤ) (acts : List Act) → IsHistory first acts
        → Does S.Store first acts books.old (pick_list_answer first acts order.now) acts (bytes_of result) books.new }
    ensures as_before { IsClean S.Store books.new → AreAsBefore S.Store books.old books.new }
    ensures in_place { IsLongIfOk result }
{
    let shown = books.order_rows(order);
    answer_shown(alloc, pick_list_of(alloc, shown))
}

/// Shows the shortages of an item.
pub(crate) fn show_shortages<S: Alter>(alloc: Global, books: &mut Books<S>, gtin: &Gtin) -> Answered
    ensures clean { IsClean S.Store books.new → IsClean S.Store books.old }
    ensures shown { IsClean S.Store books.new → (first : ℤ) (acts : List Act) → IsHistory first acts
        → Does S.Store first acts books.old (shortages_answer first acts gtin.now) acts (bytes_of result) books.new }
    ensures as_before { IsClean S.Store books.new → AreAsBefore S.Store books.old books.new }
    ensures in_place { IsLongIfOk result }
{
    let shown = books.short_rows(gtin);
    answer_shown(alloc, shortages_of(alloc, shown))
}

/// Shows the stock card of a lot.
pub(crate) fn show_card<S: Alter>(alloc: Global, books: &mut Books<S>, lot: &LotId) -> Answered
    ensures clean { IsClean S.Store books.new → IsClean S.Store books.old }
    ensures shown { IsClean S.Store books.new → (first : ℤ) (acts : List Act) → IsHistory first acts
        → Does S.Store first acts books.old (card_answer first acts lot.now) acts (bytes_of result) books.new }
    ensures as_before { IsClean S.Store books.new → AreAsBefore S.Store books.old books.new }
    ensures in_place { IsLongIfOk result }
{
    let (text, end) = write_card(books, lot, Vec::new(alloc));
    answer_shown(alloc, text_of(text, end))
}

/// Shows the recall notice of a lot.
pub(crate) fn show_notice<S: Alter>(alloc: Global, books: &mut Books<S>, lot: &LotId) -> Answered
    ensures clean { IsClean S.Store books.new → IsClean S.Store books.old }
    ensures shown { IsClean S.Store books.new → (first : ℤ) (acts : List Act) → IsHistory first acts
        → Does S.Store first acts books.old (notice_answer first acts lot.now) acts (bytes_of result) books.new }
    ensures as_before { IsClean S.Store books.new → AreAsBefore S.Store books.old books.new }
    ensures in_place { IsLongIfOk result }
{
    let (text, end) = write_notice(books, lot, Vec::new(alloc));
    answer_shown(alloc, text_of(text, end))
}

/// Shows the pick list of an order, with the names of its items.
pub(crate) fn show_picks<S: Alter>(alloc: Global, books: &mut Books<S>, order: Name) -> Answered
    ensures clean { IsClean S.Store books.new → IsClean S.Store books.old }
    ensures shown { IsClean S.Store books.new → (first : ℤ) (acts : List Act) → IsHistory first acts
        → Does S.Store first acts books.old (picks_answer first acts order) acts (bytes_of result) books.new }
    ensures as_before { IsClean S.Store books.new → AreAsBefore S.Store books.old books.new }
    ensures in_place { IsLongIfOk result }
{
    let shown = books.show(&PicksQuery { order }).map(Answer::Picks);
    answer_shown(alloc, shown)
}

/// Shows the figures of the house.
pub(crate) fn show_figures<S: Alter>(alloc: Global, books: &mut Books<S>) -> Answered
    ensures clean { IsClean S.Store books.new → IsClean S.Store books.old }
    ensures shown { IsClean S.Store books.new → (first : ℤ) (acts : List Act) → IsHistory first acts
        → Does S.Store first acts books.old (figures_answer first acts) acts (bytes_of result) books.new }
    ensures as_before { IsClean S.Store books.new → AreAsBefore S.Store books.old books.new }
    ensures in_place { IsLongIfOk result }
{
    let shown = books.show(&FiguresQuery).map(Answer::Figures);
    answer_shown(alloc, shown)
}

/// Shows the trace of a lot.
pub(crate) fn show_trace<S: Alter>(alloc: Global, books: &mut Books<S>, lot: &LotId) -> Answered
    ensures clean { IsClean S.Store books.new → IsClean S.Store books.old }
    ensures shown { IsClean S.Store books.new → (first : ℤ) (acts : List Act) → IsHistory first acts
        → Does S.Store first acts books.old (trace_answer first acts lot.now) acts (bytes_of result) books.new }
    ensures as_before { IsClean S.Store books.new → AreAsBefore S.Store books.old books.new }
    ensures in_place { IsLongIfOk result }
{
    let query = TraceQuery { lot: *lot };
    let shown = books.show(&query);
    answer_shown(alloc, trace_of(shown))
}

/// The trace, where it is whole.
fn trace_of(shown: Result<Option<TraceView>, Fault>) -> Result<Answer, Fault>
    ensures { result ≡ whole_asked TraceAnswer shown }
{
    match shown {
        Ok(Some(view)) => Ok(Answer::Trace(view)),
        Ok(None) => Err(Fault::Foreign),
        Err(fault) => Err(fault),
    }
}

/// The text that was written, where that is the whole.
fn text_of(text: Vec<u8>, end: Result<(), EachFault>) -> Result<Answer, Fault>
    ensures { result ≡ text_answer text.items end }
{
    match end {
        Ok(()) => Ok(Answer::Text(Listed::from_vec(text))),
        Err(EachFault::Fault(fault)) => Err(fault),
        Err(EachFault::Stopped) => Err(Fault::Store),
    }
}

/// The pick list of what is shown, where there is memory for it.
fn pick_list_of(alloc: Global, shown: Result<OrderView, Fault>) -> Result<Answer, Fault>
    ensures { IsTextOf pick_list_text shown result }
{
    let view = shown?;
    let mut text = Vec::new(alloc);
    match pick_list(&view, &mut text) {
        Ok(()) => Ok(Answer::Text(Listed::from_vec(text))),
        Err(_) => Err(Fault::Store),
    }
}

/// The shortages of what is shown, where there is memory for them.
fn shortages_of(alloc: Global, shown: Result<ShortView, Fault>) -> Result<Answer, Fault>
    ensures { IsTextOf shortages_text shown result }
{
    let view = shown?;
    let mut text = Vec::new(alloc);
    match shortages(&view, &mut text) {
        Ok(()) => Ok(Answer::Text(Listed::from_vec(text))),
        Err(_) => Err(Fault::Store),
    }
}

/// The bytes of what is shown, where there is memory for them, or of why nothing is.
fn answer_shown(alloc: Global, asked: Result<Answer, Fault>) -> Answered
    ensures told { (bytes_of result ≡ asked_answer asked) ⊎ (bytes_of result ≡ no_memory) }
    ensures in_place { IsLongIfOk result }
{
    match asked {
        Ok(answer) => answer_in_bytes(alloc, answer),
        Err(fault) => answer_query_fault(fault),
    }
}

fn answer_in_bytes(alloc: Global, answer: Answer) -> Answered
    ensures told { (bytes_of result ≡ answer_bytes answer) ⊎ (bytes_of result ≡ no_memory) }
    ensures in_place { IsLongIfOk result }
{
    match write_answer(alloc, &answer) {
        Ok(bytes) => Answered::Long(bytes),
        Err(_) => Answered::Short(fault_answer(WireFault::Memory)),
    }
}
