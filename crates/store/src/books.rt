//! The books over a connection.

ghost use Rattle.std.specs.Prelude.{◌≡◌, ◌≢◌, ◌≤◌, ◌⊎◌, ◌↔◌, ℤ, length, None, [], List, false, IsTrue, IsErrOf, IsErrAnd, OnOk, OnErr, IfOk, IfErr};
ghost use Rattle.sqlite.specs.State.{HasCleanDisk, Survives, Opens, IsLive};
ghost use Rattle.sqlite.specs.Held.{state};
ghost use Rattle.label.specs.Days.{is_business_day};
ghost use Rattle.table_words.specs.Schema.{schema_0};
ghost use Rattle.table_words.specs.declared.error.TableFault.TheVariants.{Foreign as ForeignTable};
ghost use Rattle.machine.specs.Acts.{Act};
ghost use Rattle.machine.specs.Once.{IsHistory, is_key_of, acts_after, acts_after_file};
ghost use Rattle.machine.specs.Standing.{today, RETURNS};
ghost use Rattle.store.specs.Acting.{IsActed};
ghost use Rattle.store.specs.Filing.{rows_of, AreKeysOf, IsFiled};
ghost use Rattle.machine.specs.Queries.{order_shown, short_shown, stock_shown, notice_shown};
ghost use Rattle.overviews.specs.Shown.{books_shown, open_orders_shown, item_names_shown, expiring_shown, bin_shown};
ghost use Rattle.queries.specs.ShownActs.{acts_shown};
ghost use Rattle.machine.specs.Views.{card_of_lot};
ghost use Rattle.store.specs.Heads.{card_head_shown};
ghost use Rattle.store.specs.ActRows.{AreActsHanded, AreLaterActsHanded};
ghost use Rattle.store.specs.Handing.{IsHanded, NoBooks};
ghost use Rattle.store.specs.Queries.{IsShown};
ghost use Rattle.store.specs.Books.{AreBooks, KeepsBooks, HoldsBooks, LeavesOnly, IsClean, IsSettled, AreAsBefore};
ghost use Rattle.store.specs.Opening.{Found, HasSchema, IsOfNone, AreRowsAt, AreFoundRows, Tells, HasFoundDay, IsForeignWithin, unlimited, IsLeftUnfilled, IsOpenedFrom, IsLeftOver, IsCleanLeft};

use crate::act_rows::{hand_acts, hand_acts_above};
use crate::acting::act_once;
use crate::card_rows::hand_card;
use crate::day::day_left;
use crate::filing::{every_row_is_sound, file_once};
use crate::notices::show_notice;
use crate::showing::show;
use crate::{EachFault, Fault, Reply, RowFault, Tally};
use books_schema::creation;
use books_schema::ready_connection::{Leftover, Orderly, ready, settle_found};
use commands::{
    BinKind, BinRow, CardRow, Command, ItemRow, Key, MetaRow, NoticeView, OrderView, RepeatRow,
    ShortView, Sink, StockView,
};
use label::{BusinessDay, Day};
use overviews::{BinView, BooksView, ExpiringView, ItemNamesView, OpenOrdersView};
use queries::{
    ActsQuery, BinQuery, BooksQuery, CardHeadQuery, ExpiringQuery, ItemNamesQuery, OpenQuery,
    OrderQuery, Query, ShortQuery, StockQuery,
};
use slices::Known;
use sqlite::{Alter, Connection};
use std::alloc::Global;
use std::marker::Model;
use table_words::error::TableFault;
use values::{Gtin, LotId, Name};

/// The books over a connection, which is outside a transaction between calls and has no limit on steps.
#[derive(Drop)]
pub struct Books<S: Alter> {
    conn: Connection<S>,
    day: BusinessDay,
    // What is known beside the tables; `None` until an act reads it.
    known: Option<Known>,
    alloc: Global,
}

impl<S: Alter> Model for Books<S> {
    ghost use Rattle.sqlite.specs.Held.{state};
    ghost use Rattle.store.specs.Connected.{Connected, connected_code, IsIdle};
    ghost use Rattle.store.specs.Knowing.{IsKnown};

    ghost Value = { Connected S };

    ghost coded = { connected_code S.code };

    ghost view = { λ b. record { conn = b.conn; day = b.day } };

    ghost invariant = { λ b. IsIdle b.conn × IsKnown b.known (state S.Store b.conn) };
}

/// Why no books were made or opened.
#[derive(Drop)]
pub struct OpenFault<S: Alter> {
    /// What is left of the connection.
    pub left: Leftover<S>,
    pub fault: Fault,
}

/// The name of the bin that is there from the start.
fn returns() -> Name
    ensures { result ≡ RETURNS }
{
    Name::new(b"RETURNS").unwrap()
}

/// Makes the tables of books of this day in which nothing has been done.
fn make_tables<S: Alter>(conn: &mut Connection<S>, day: BusinessDay) -> Result<(), TableFault>
    requires outside { conn.old.in_transaction ≡ false }
    ensures foreign { IsErrOf result ForeignTable ↔ ((state S.Store conn.old).now.schema ≢ schema_0) }
    ensures unchanged { IsErrOf result ForeignTable → conn.new ≡ conn.old }
    ensures made { HasCleanDisk (state S.Store conn.new) → OnOk result (KeepsBooks day [] (state S.Store conn.new) × IsTrue (state S.Store conn.new).is_open) }
    ensures failed { HasCleanDisk (state S.Store conn.new) → IsTrue (state S.Store conn.new).is_open
        → OnErr result ((state S.Store conn.new).now ≡ (state S.Store conn.old).now) }
    ensures settled { HasCleanDisk (state S.Store conn.new) → IsTrue (state S.Store conn.new).is_open
        → (state S.Store conn.new).committed ≡ (state S.Store conn.new).now }
    ensures survives { Survives (state S.Store conn.old) (state S.Store conn.new) (AreBooks day []) }
    ensures outside { conn.new.in_transaction ≡ false }
{
    let meta = MetaRow {
        day,
        acts: 0,
        shipments: 0,
    };
    let bin = BinRow {
        name: returns(),
        kind: BinKind::Hold,
    };
    creation::create(conn, &meta, &bin)
}

impl<S: Alter + Drop> Books<S> {
    /// Makes books of this business day, in which nothing has been done. `Foreign` where the database has a table, an
    /// index or a view: the connection is then as it was. `Store` where memory, the disk or a size does not suffice: the
    /// tables are as they were.
    pub fn create(
        alloc: Global,
        conn: Connection<S>,
        day: BusinessDay,
    ) -> Result<Books<S>, OpenFault<S>>
        requires outside { conn.in_transaction ≡ false }
        ensures books { IfOk result (λ b. HasCleanDisk (state S.Store b.conn) → KeepsBooks day [] (state S.Store b.conn) × IsTrue (state S.Store b.conn).is_open) }
        ensures day { IfOk result (λ b. b.day ≡ day) }
        ensures settled { IfOk result (λ b. HasCleanDisk (state S.Store b.conn) → IsSettled (state S.Store b.conn)) }
        ensures survives { IfOk result (λ b. Survives (unlimited (state S.Store conn)) (state S.Store b.conn) (AreBooks day [])) }
        ensures kept { IfOk result (λ b. HasCleanDisk (state S.Store b.conn) → LeavesOnly day [] (state S.Store b.conn)) }
        ensures foreign { IsErrAnd result (λ e. e.fault ≡ Fault.Foreign) ↔ ((state S.Store conn).now.schema ≢ schema_0) }
        ensures unchanged { IfErr result (λ e. e.fault ≡ Fault.Foreign → e.left ≡ Leftover.Connection conn) }
        ensures left { IfErr result (λ e. IsLeftUnfilled S.Store conn day e.left) }
        ensures fault { IfErr result (λ e. (e.fault ≡ Fault.Foreign) ⊎ (e.fault ≡ Fault.Store)) }
    {
        let mut conn = conn;
        match make_tables(&mut conn, day) {
            Ok(()) => {}
            Err(fault) => {
                return Err(OpenFault {
                    left: Leftover::Connection(conn),
                    fault: Fault::from(fault),
                });
            }
        }
        conn.set_step_limit(None);
        Ok(Books {
            conn,
            day,
            known: None,
            alloc,
        })
    }
}

impl<S: Orderly + Drop> Books<S> {
    /// Opens the books that are in the tables. Further tables that refer to none, views and indexes that refuse no row
    /// of the books are passed over. Books of schema 3, which has the same tables, get the newest number. Books of schema 1
    /// or 2, with nothing of another's making beside them, are brought up to the newest, in one transaction: from schema 1
    /// each item asks for 0 days, and no order is urgent. `Foreign` where a table or a column is missing or differs, or
    /// where the row of `meta`, or in books of schema 1 an item, is missing or has a value that no row has; `Store` where
    /// memory or the disk fails. The tables then have the rows that they had.
    pub fn open(alloc: Global, conn: Connection<S>) -> Result<Books<S>, OpenFault<S>>
        requires outside { conn.in_transaction ≡ false }
        ensures books { IfOk result (λ b. HasCleanDisk (state S.Store b.conn) → (first : ℤ) (acts : List Act) → IsHistory first acts → AreFoundRows first acts (state S.Store conn).committed.trees
            → KeepsBooks first acts (state S.Store b.conn)) }
        ensures day { IfOk result (λ b. HasCleanDisk (state S.Store b.conn) → HasFoundDay (state S.Store conn) b.day) }
        ensures today { IfOk result (λ b. HasCleanDisk (state S.Store b.conn) → (first : ℤ) (acts : List Act) → IsHistory first acts → AreFoundRows first acts (state S.Store conn).committed.trees
            → b.day ≡ today first acts) }
        ensures kept { IfOk result (λ b. HasCleanDisk (state S.Store b.conn) → (first : ℤ) (acts : List Act) → IsHistory first acts → AreFoundRows first acts (state S.Store conn).committed.trees
            → LeavesOnly first acts (state S.Store b.conn)) }
        ensures opens { IfOk result (λ b. IsOpenedFrom S.Store conn b.conn) }
        ensures open { IfOk result (λ b. HasCleanDisk (state S.Store b.conn) → IsTrue (state S.Store b.conn).is_open) }
        ensures settled { IfOk result (λ b. HasCleanDisk (state S.Store b.conn) → IsSettled (state S.Store b.conn)) }
        ensures foreign { IfErr result (λ e. IsCleanLeft S.Store e.left → e.fault ≡ Fault.Foreign
            → IsOfNone (state S.Store conn).now.schema ⊎ IsForeignWithin (state S.Store conn)) }
        ensures known { IfErr result (λ e. IsCleanLeft S.Store e.left → (found : Found) → HasSchema found (state S.Store conn).now.schema → (first : ℤ) (acts : List Act) → IsHistory first acts
            → AreRowsAt found first acts (state S.Store conn).committed.trees → e.fault ≡ Fault.Store) }
        ensures again { IfErr result (λ e. IsCleanLeft S.Store e.left → Opens (state S.Store conn) → IsLive (state S.Store conn) → (found : Found) → Tells found (state S.Store conn).committed.trees
            → (first : ℤ) (acts : List Act) → IsHistory first acts → AreRowsAt found first acts (state S.Store conn).committed.trees → e.fault ≡ Fault.Store) }
        ensures other { IsOfNone (state S.Store conn).now.schema
            → IsErrAnd result (λ e. (e.left ≡ Leftover.Connection conn) × ((e.fault ≡ Fault.Foreign) ⊎ (e.fault ≡ Fault.Store))) }
        ensures left { IfErr result (λ e. IsLeftOver S.Store conn e.left) }
        ensures fault { IfErr result (λ e. (e.fault ≡ Fault.Foreign) ⊎ (e.fault ≡ Fault.Store)) }
    {
        let (mut checked, found) = match ready(alloc, conn) {
            Ok(opened) => opened,
            Err((left, fault)) => {
                return Err(OpenFault {
                    left,
                    fault: Fault::from(fault),
                });
            }
        };
        match settle_found(alloc, &mut checked, found) {
            Ok(day) => Ok(Books {
                conn: checked,
                day,
                known: None,
                alloc,
            }),
            Err(fault) => Err(OpenFault {
                left: Leftover::Connection(checked),
                fault: Fault::from(fault),
            }),
        }
    }
}

impl<S: Alter> Books<S> {
    /// The connection of the books, outside a transaction.
    pub fn close(self) -> Connection<S>
        ensures same { result ≡ self.conn }
        ensures outside { result.in_transaction ≡ false }
        ensures settled { HasCleanDisk (state S.Store result) → IsSettled (state S.Store result) }
    {
        let Books {
            conn,
            day: _,
            known: _,
            alloc: _,
        } = self;
        conn
    }

    /// The business day.
    pub fn day(&self) -> Day
        ensures value { result ≡ self.now.day }
        ensures business { IsTrue (is_business_day result) }
    {
        self.day.day()
    }

    /// Acts on the command under its key. An act is one transaction: a stop leaves the books without it or with the whole
    /// of it, its row of `repeats` too.
    ///
    /// A key that an earlier act bears is looked at before every other rule: the same command gets that act's answer
    /// again, and another is refused (K01). Under a new key the rules decide. What is answered is kept: whatever a stop
    /// leaves from then on has the act. What is refused leaves the books as they were, and so does `Store`, where memory,
    /// the disk or a size did not suffice, unless the disk has shut the connection: the file then has the books before
    /// or with the whole act. `Foreign` is never answered on books of a history. On other tables, too, nothing is
    /// committed where there is no answer.
    pub fn act(&mut self, key: &Key, command: &Command) -> Result<Reply, Fault>
        ensures clean { IsClean S.Store self.new → IsClean S.Store self.old }
        ensures acted { IsClean S.Store self.new → IsTrue (is_key_of key.now command.now)
            → (first : ℤ) (acts : List Act) → IsHistory first acts → HoldsBooks S.Store first acts self.old
            → IsActed S.Store first acts (record { key = key.now; command = command.now }) result self.new }
        ensures kept { IsClean S.Store self.new → IsTrue (is_key_of key.now command.now)
            → (first : ℤ) (acts : List Act) → IsHistory first acts → HoldsBooks S.Store first acts self.old
            → OnOk result (LeavesOnly first (acts_after first acts (record { key = key.now; command = command.now })) (state S.Store self.new.conn)) }
        ensures as_before { IsClean S.Store self.new → OnErr result (AreAsBefore S.Store self.old self.new) }
        ensures stays { IsClean S.Store self.new → IsSettled (state S.Store self.new.conn) }
        ensures survives { Survives (state S.Store self.old.conn) (state S.Store self.new.conn) (λ trees. IsTrue (is_key_of key.now command.now)
            → (first : ℤ) (acts : List Act) → IsHistory first acts → KeepsBooks first acts (state S.Store self.old.conn)
            → AreBooks first (acts_after first acts (record { key = key.now; command = command.now })) trees) }
    {
        match act_once(self.alloc, &mut self.conn, &mut self.known, key, command) {
            Ok(reply) => {
                let day = day_left(self.day, command, reply.repeated);
                self.day = day;
                Ok(reply)
            }
            Err(fault) => Err(fault),
        }
    }

    /// Acts on the rows of a file in order, on all of them or on none, in one transaction: a stop leaves the books without
    /// the file or with the whole of it, its rows of `repeats` too. At most 1,000 rows.
    ///
    /// Each row is judged as [`Books::act`] judges a command, on the books that the rows before it lead to; so a key that
    /// stands twice with one command is accepted once and then repeated. The first row that is refused ends the file and
    /// is named, and the books are left as they were. So they are by `Store`, where memory, the disk or a size did not
    /// suffice, unless the disk has shut the connection: the file then has the books before or with every row. What is
    /// answered is kept: whatever a stop leaves from then on has every row. `Foreign` is never answered on books of a
    /// history.
    pub fn act_all(&mut self, rows: &[(Key, Command)]) -> Result<Tally, RowFault>
        requires few { length rows.now ≤ 1000 }
        ensures clean { IsClean S.Store self.new → IsClean S.Store self.old }
        ensures filed { IsClean S.Store self.new → AreKeysOf rows.now
            → (first : ℤ) (acts : List Act) → IsHistory first acts → HoldsBooks S.Store first acts self.old
            → IsFiled S.Store first acts (rows_of rows.now) result self.new }
        ensures kept { IsClean S.Store self.new → AreKeysOf rows.now
            → (first : ℤ) (acts : List Act) → IsHistory first acts → HoldsBooks S.Store first acts self.old
            → OnOk result (LeavesOnly first (acts_after_file first acts (rows_of rows.now)) (state S.Store self.new.conn)) }
        ensures history { AreKeysOf rows.now → (first : ℤ) (acts : List Act) → IsHistory first acts → IsHistory first (acts_after_file first acts (rows_of rows.now)) }
        ensures as_before { IsClean S.Store self.new → OnErr result (AreAsBefore S.Store self.old self.new) }
        ensures stays { IsClean S.Store self.new → IsSettled (state S.Store self.new.conn) }
        ensures survives { Survives (state S.Store self.old.conn) (state S.Store self.new.conn) (λ trees. AreKeysOf rows.now
            → (first : ℤ) (acts : List Act) → IsHistory first acts → KeepsBooks first acts (state S.Store self.old.conn)
            → AreBooks first (acts_after_file first acts (rows_of rows.now)) trees) }
    {
        every_row_is_sound(rows);
        match file_once(self.alloc, &mut self.conn, &mut self.known, self.day, rows) {
            Ok(filed) => {
                self.day = filed.day;
                Ok(filed.tally)
            }
            Err(why) => {
                // What the rows before it closed is open again.
                self.known = None;
                Err(why)
            }
        }
    }

    /// Shows an order as it stands: its lines by GTIN, what is reserved and staged for them by lot, and what is short. An
    /// order that is not known is refused (U04). Nothing is changed; `Store` where memory or the disk did not suffice, and
    /// `Foreign` never on books of a history.
    pub fn order_rows(&mut self, order: &Name) -> Result<OrderView, Fault>
        ensures clean { IsClean S.Store self.new → IsClean S.Store self.old }
        ensures shown { IsClean S.Store self.new → (first : ℤ) (acts : List Act) → IsHistory first acts → HoldsBooks S.Store first acts self.old
            → IsShown S.Store first acts (order_shown first acts order.now) result self.new }
        ensures as_before { IsClean S.Store self.new → AreAsBefore S.Store self.old self.new }
        ensures stays { IsClean S.Store self.new → IsSettled (state S.Store self.new.conn) }
        ensures survives { Survives (state S.Store self.old.conn) (state S.Store self.new.conn) (λ _. ⊥) }
    {
        let query = OrderQuery { order: *order };
        show(
            self.alloc,
            &mut self.conn,
            self.day,
            &mut self.known,
            &query,
        )
    }

    /// Shows the stock of an item as it stands: its lots by expiry and first receipt, each with the units in its bins,
    /// what is reserved and staged of it for all orders together, and its status. An item that is not known is refused
    /// (U01). Nothing is changed; `Store` where memory or the disk did not suffice, and `Foreign` never on books of a
    /// history.
    pub fn stock(&mut self, gtin: &Gtin) -> Result<StockView, Fault>
        ensures clean { IsClean S.Store self.new → IsClean S.Store self.old }
        ensures shown { IsClean S.Store self.new → (first : ℤ) (acts : List Act) → IsHistory first acts → HoldsBooks S.Store first acts self.old
            → IsShown S.Store first acts (stock_shown first acts gtin.now) result self.new }
        ensures as_before { IsClean S.Store self.new → AreAsBefore S.Store self.old self.new }
        ensures stays { IsClean S.Store self.new → IsSettled (state S.Store self.new.conn) }
        ensures survives { Survives (state S.Store self.old.conn) (state S.Store self.new.conn) (λ _. ⊥) }
    {
        let query = StockQuery { gtin: *gtin };
        show(
            self.alloc,
            &mut self.conn,
            self.day,
            &mut self.known,
            &query,
        )
    }

    /// Shows the bookings of an item that are short, in the order of service. An item that is not known is refused (U01).
    /// Nothing is changed; `Store` where memory or the disk did not suffice, and `Foreign` never on books of a history.
    pub fn short_rows(&mut self, gtin: &Gtin) -> Result<ShortView, Fault>
        ensures clean { IsClean S.Store self.new → IsClean S.Store self.old }
        ensures shown { IsClean S.Store self.new → (first : ℤ) (acts : List Act) → IsHistory first acts → HoldsBooks S.Store first acts self.old
            → IsShown S.Store first acts (short_shown first acts gtin.now) result self.new }
        ensures as_before { IsClean S.Store self.new → AreAsBefore S.Store self.old self.new }
        ensures stays { IsClean S.Store self.new → IsSettled (state S.Store self.new.conn) }
        ensures survives { Survives (state S.Store self.old.conn) (state S.Store self.new.conn) (λ _. ⊥) }
    {
        let query = ShortQuery { gtin: *gtin };
        show(
            self.alloc,
            &mut self.conn,
            self.day,
            &mut self.known,
            &query,
        )
    }

    /// Shows the number of the last act and the business day. Nothing is refused, and nothing is changed; `Store` where memory
    /// or the disk did not suffice, and `Foreign` never on books of a history.
    pub fn summary(&mut self) -> Result<BooksView, Fault>
        ensures clean { IsClean S.Store self.new → IsClean S.Store self.old }
        ensures shown { IsClean S.Store self.new → (first : ℤ) (acts : List Act) → IsHistory first acts → HoldsBooks S.Store first acts self.old
            → IsShown S.Store first acts (books_shown first acts) result self.new }
        ensures as_before { IsClean S.Store self.new → AreAsBefore S.Store self.old self.new }
        ensures stays { IsClean S.Store self.new → IsSettled (state S.Store self.new.conn) }
        ensures survives { Survives (state S.Store self.old.conn) (state S.Store self.new.conn) (λ _. ⊥) }
    {
        let query = BooksQuery;
        show(
            self.alloc,
            &mut self.conn,
            self.day,
            &mut self.known,
            &query,
        )
    }

    /// Shows a page of the open orders in the order of service, from their first or behind an order, each with the units of all
    /// its lines together. The order has to be known, or it is refused (U04); it may be closed. Nothing is changed; `Store`
    /// where memory or the disk did not suffice, and `Foreign` never on books of a history.
    pub fn open_orders(&mut self, behind: Option<Name>) -> Result<OpenOrdersView, Fault>
        ensures clean { IsClean S.Store self.new → IsClean S.Store self.old }
        ensures shown { IsClean S.Store self.new → (first : ℤ) (acts : List Act) → IsHistory first acts → HoldsBooks S.Store first acts self.old
            → IsShown S.Store first acts (open_orders_shown first acts behind) result self.new }
        ensures as_before { IsClean S.Store self.new → AreAsBefore S.Store self.old self.new }
        ensures stays { IsClean S.Store self.new → IsSettled (state S.Store self.new.conn) }
        ensures survives { Survives (state S.Store self.old.conn) (state S.Store self.new.conn) (λ _. ⊥) }
    {
        let query = OpenQuery { behind };
        show(
            self.alloc,
            &mut self.conn,
            self.day,
            &mut self.known,
            &query,
        )
    }

    /// Shows the items by GTIN, from their first or behind an item, with the days that they ask for: at most 1,000. The item has
    /// to be known, or it is refused (U01). Nothing is changed; `Store` where memory or the disk did not suffice, and `Foreign`
    /// never on books of a history.
    pub fn item_names(&mut self, behind: Option<Gtin>) -> Result<ItemNamesView, Fault>
        ensures clean { IsClean S.Store self.new → IsClean S.Store self.old }
        ensures shown { IsClean S.Store self.new → (first : ℤ) (acts : List Act) → IsHistory first acts → HoldsBooks S.Store first acts self.old
            → IsShown S.Store first acts (item_names_shown acts behind) result self.new }
        ensures as_before { IsClean S.Store self.new → AreAsBefore S.Store self.old self.new }
        ensures stays { IsClean S.Store self.new → IsSettled (state S.Store self.new.conn) }
        ensures survives { Survives (state S.Store self.old.conn) (state S.Store self.new.conn) (λ _. ⊥) }
    {
        let query = ItemNamesQuery { behind };
        show(
            self.alloc,
            &mut self.conn,
            self.day,
            &mut self.known,
            &query,
        )
    }

    /// Shows a page of the lots with units in the house that expire on the day or before, by expiry and first receipt, from
    /// their first or behind a lot. The lot has to be known, or it is refused (U03); it may have no units. Nothing is changed;
    /// `Store` where memory or the disk did not suffice, and `Foreign` never on books of a history.
    pub fn expiring(
        &mut self,
        day: BusinessDay,
        behind: Option<LotId>,
    ) -> Result<ExpiringView, Fault>
        ensures clean { IsClean S.Store self.new → IsClean S.Store self.old }
        ensures shown { IsClean S.Store self.new → (first : ℤ) (acts : List Act) → IsHistory first acts → HoldsBooks S.Store first acts self.old
            → IsShown S.Store first acts (expiring_shown first acts day behind) result self.new }
        ensures as_before { IsClean S.Store self.new → AreAsBefore S.Store self.old self.new }
        ensures stays { IsClean S.Store self.new → IsSettled (state S.Store self.new.conn) }
        ensures survives { Survives (state S.Store self.old.conn) (state S.Store self.new.conn) (λ _. ⊥) }
    {
        let query = ExpiringQuery { day, behind };
        show(
            self.alloc,
            &mut self.conn,
            self.day,
            &mut self.known,
            &query,
        )
    }

    /// Shows a page of the lots with units in the bin, by item, expiry and first receipt, from their first or behind a lot. A
    /// bin that is not known is refused (U02), and then a lot that never came (U03); it may have no units there. Nothing is
    /// changed; `Store` where memory or the disk did not suffice, and `Foreign` never on books of a history.
    pub fn bin(&mut self, bin: Name, behind: Option<LotId>) -> Result<BinView, Fault>
        ensures clean { IsClean S.Store self.new → IsClean S.Store self.old }
        ensures shown { IsClean S.Store self.new → (first : ℤ) (acts : List Act) → IsHistory first acts → HoldsBooks S.Store first acts self.old
            → IsShown S.Store first acts (bin_shown first acts bin behind) result self.new }
        ensures as_before { IsClean S.Store self.new → AreAsBefore S.Store self.old self.new }
        ensures stays { IsClean S.Store self.new → IsSettled (state S.Store self.new.conn) }
        ensures survives { Survives (state S.Store self.old.conn) (state S.Store self.new.conn) (λ _. ⊥) }
    {
        let query = BinQuery { bin, behind };
        show(
            self.alloc,
            &mut self.conn,
            self.day,
            &mut self.known,
            &query,
        )
    }

    /// The item of a lot's stock card and the day on which the lot expires. An item that is not known is refused (U01), and
    /// then a lot that never came (U03). Nothing is changed; `Store` where memory or the disk did not suffice, and `Foreign`
    /// never on books of a history.
    pub fn card_head(&mut self, lot: &LotId) -> Result<(ItemRow, Day), Fault>
        ensures clean { IsClean S.Store self.new → IsClean S.Store self.old }
        ensures shown { IsClean S.Store self.new → (first : ℤ) (acts : List Act) → IsHistory first acts → HoldsBooks S.Store first acts self.old
            → IsShown S.Store first acts (card_head_shown first acts lot.now) result self.new }
        ensures as_before { IsClean S.Store self.new → AreAsBefore S.Store self.old self.new }
        ensures stays { IsClean S.Store self.new → IsSettled (state S.Store self.new.conn) }
        ensures survives { Survives (state S.Store self.old.conn) (state S.Store self.new.conn) (λ _. ⊥) }
    {
        let query = CardHeadQuery { lot: *lot };
        show(
            self.alloc,
            &mut self.conn,
            self.day,
            &mut self.known,
            &query,
        )
    }

    /// The recall notice of a lot: its item, the day on which it expires, `None` for a lot that never came, the bins with
    /// units of it by name, and the shipments by number, all of one moment. An item that is not known is refused (U01), and
    /// then a lot that is not recalled (N01). Nothing is changed; `Store` where memory or the disk did not suffice, and
    /// `Foreign` never on books of a history.
    pub fn notice(&mut self, lot: &LotId) -> Result<NoticeView, Fault>
        ensures clean { IsClean S.Store self.new → IsClean S.Store self.old }
        ensures shown { IsClean S.Store self.new → (first : ℤ) (acts : List Act) → IsHistory first acts → HoldsBooks S.Store first acts self.old
            → IsShown S.Store first acts (notice_shown first acts lot.now) result self.new }
        ensures as_before { IsClean S.Store self.new → AreAsBefore S.Store self.old self.new }
        ensures stays { IsClean S.Store self.new → IsSettled (state S.Store self.new.conn) }
        ensures survives { Survives (state S.Store self.old.conn) (state S.Store self.new.conn) (λ _. ⊥) }
    {
        show_notice(self.alloc, &mut self.conn, self.day, &mut self.known, lot)
    }

    /// Shows what any query asks, as it stands: the view, or the refusal. Nothing is changed; `Store` where memory or the disk
    /// did not suffice, and `Foreign` never on books of a history.
    pub fn show<Q: Query>(&mut self, query: &Q) -> Result<Q::View, Fault>
        ensures clean { IsClean S.Store self.new → IsClean S.Store self.old }
        ensures shown { IsClean S.Store self.new → (first : ℤ) (acts : List Act) → IsHistory first acts → HoldsBooks S.Store first acts self.old
            → IsShown S.Store first acts (Q.shown first acts query.now) result self.new }
        ensures as_before { IsClean S.Store self.new → AreAsBefore S.Store self.old self.new }
        ensures stays { IsClean S.Store self.new → IsSettled (state S.Store self.new.conn) }
        ensures survives { Survives (state S.Store self.old.conn) (state S.Store self.new.conn) (λ _. ⊥) }
    {
        show(self.alloc, &mut self.conn, self.day, &mut self.known, query)
    }

    /// Hands the lines of a lot's stock card to the sink, by act, one at a time, until it stops. It is outside every
    /// transaction, and nothing is changed; `Store` where memory or the disk did not suffice, and `Foreign` and a refusal
    /// never on books of a history.
    pub fn each_card<K: Sink<CardRow>>(
        &mut self,
        lot: &LotId,
        sink: &mut K,
    ) -> Result<(), EachFault>
        ensures clean { IsClean S.Store self.new → IsClean S.Store self.old }
        ensures handed { IsClean S.Store self.new → (first : ℤ) (acts : List Act) → IsHistory first acts → HoldsBooks S.Store first acts self.old
            → IsHanded S.Store first acts K.takes K.stops (card_of_lot first acts lot.now) sink.old sink.new result self.new }
        ensures as_before { IsClean S.Store self.new → AreAsBefore S.Store self.old self.new }
        ensures stays { IsClean S.Store self.new → IsSettled (state S.Store self.new.conn) }
        ensures survives { Survives (state S.Store self.old.conn) (state S.Store self.new.conn) (NoBooks (state S.Store self.old.conn)) }
    {
        hand_card(self.alloc, &mut self.conn, lot, sink)
    }

    /// Hands the rows of the acts to the sink, in the order in which they are stored, one at a time, until it stops. It is
    /// outside every transaction, and nothing is changed; `Store` where memory or the disk did not suffice, and `Foreign`
    /// and a refusal never on books of a history.
    pub fn each_act<K: Sink<RepeatRow>>(&mut self, sink: &mut K) -> Result<(), EachFault>
        ensures clean { IsClean S.Store self.new → IsClean S.Store self.old }
        ensures handed { IsClean S.Store self.new → (first : ℤ) (acts : List Act) → IsHistory first acts → HoldsBooks S.Store first acts self.old
            → AreActsHanded first acts (state S.Store self.old.conn) (state S.Store self.new.conn) K.takes K.stops sink.old sink.new result × HoldsBooks S.Store first acts self.new }
        ensures as_before { IsClean S.Store self.new → AreAsBefore S.Store self.old self.new }
        ensures stays { IsClean S.Store self.new → IsSettled (state S.Store self.new.conn) }
        ensures survives { Survives (state S.Store self.old.conn) (state S.Store self.new.conn) (NoBooks (state S.Store self.old.conn)) }
    {
        hand_acts(self.alloc, &mut self.conn, sink)
    }

    /// Hands the rows that are stored behind this number to the sink, as [`Books::each_act`] hands all. The row of an act is
    /// stored at its number; that all later acts were handed over is known where the last one is that of the newest act
    /// ([`Books::acts_done`]).
    pub fn each_act_above<K: Sink<RepeatRow>>(
        &mut self,
        number: u64,
        sink: &mut K,
    ) -> Result<(), EachFault>
        ensures clean { IsClean S.Store self.new → IsClean S.Store self.old }
        ensures handed { IsClean S.Store self.new → (first : ℤ) (acts : List Act) → IsHistory first acts → HoldsBooks S.Store first acts self.old
            → AreLaterActsHanded first acts number (state S.Store self.old.conn) (state S.Store self.new.conn) K.takes K.stops sink.old sink.new result × HoldsBooks S.Store first acts self.new }
        ensures as_before { IsClean S.Store self.new → AreAsBefore S.Store self.old self.new }
        ensures stays { IsClean S.Store self.new → IsSettled (state S.Store self.new.conn) }
        ensures survives { Survives (state S.Store self.old.conn) (state S.Store self.new.conn) (NoBooks (state S.Store self.old.conn)) }
    {
        hand_acts_above(self.alloc, &mut self.conn, number, sink)
    }

    /// How many acts the books are of. Nothing is changed; `Store` where memory or the disk did not suffice, and `Foreign`
    /// and a refusal never on books of a history.
    pub fn acts_done(&mut self) -> Result<u64, Fault>
        ensures clean { IsClean S.Store self.new → IsClean S.Store self.old }
        ensures shown { IsClean S.Store self.new → (first : ℤ) (acts : List Act) → IsHistory first acts → HoldsBooks S.Store first acts self.old
            → IsShown S.Store first acts (acts_shown acts) result self.new }
        ensures as_before { IsClean S.Store self.new → AreAsBefore S.Store self.old self.new }
        ensures stays { IsClean S.Store self.new → IsSettled (state S.Store self.new.conn) }
        ensures survives { Survives (state S.Store self.old.conn) (state S.Store self.new.conn) (λ _. ⊥) }
    {
        show(
            self.alloc,
            &mut self.conn,
            self.day,
            &mut self.known,
            &ActsQuery,
        )
    }
}
