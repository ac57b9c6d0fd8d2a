//! What is known of the books, with what a change brings.

ghost use Rattle.std.specs.Prelude.{◌≡◌, OnOk, OnErr, IfOk, IsTrue};
ghost use Rattle.sqlite.specs.State.{HasCleanDisk};
ghost use Rattle.sqlite.specs.Held.{state};
ghost use Rattle.table_words.specs.Steps.{IsReady};
ghost use Rattle.table_words.specs.Typed.{tables_in};
ghost use Rattle.rows_in_memory.specs.OpenLines.{Gains, Keeps, has_line_row};
ghost use Rattle.slices.specs.Bounding.{IsRaised};
ghost use Rattle.slices.specs.Reading.{IsRead, Knowing};
ghost use Rattle.slices.specs.Following.{KnowsLines, KnowsUrgents, KnowsFollowed, KnowsNoneFollowed};
ghost use Rattle.slices.specs.Remembering.{ForgetsPut};
ghost use Rattle.rows_in_memory.specs.Parts.{urgent_lines as urgent_lines_lem};
ghost use Rattle.slices.specs.Slicing.{Knows, opened_by, AreLinesPut, AreUrgentsPut};

use crate::followed::Followed;
use crate::knowing::Known;
use crate::known_lists::urgents_among;
use crate::seek_all_known;
use commands::{LineRow, UrgentRow};
use rows_in_memory::KnownRows;
use rows_in_memory::order_names::{open_rows, orders_of, orders_of_lines, other_names};
use rows_in_memory::urgent_rows::{urgent_lines, urgent_names};
use rules::Put;
use sqlite::{Alter, Transaction};
use std::alloc::{AllocError, Global};
use table_words::error::TableFault;
use tables::lines::Lines;
use values::{Name, TextKey};

/// The orders that the change opens, and those that it puts as urgent ones.
fn orders_opened_by(alloc: Global, put: &Put) -> Result<Vec<Name>, AllocError>
    ensures { IfOk result (λ names. names.items ≡ opened_by put.now) }
{
    let open = open_rows(alloc, put.orders.as_slice())?;
    let mut names = orders_of(alloc, open.as_slice())?;
    let urgent = urgent_names(alloc, put.urgents.as_slice())?;
    let others = other_names(alloc, urgent.as_slice(), names.as_slice())?;
    names.extend_from_slice(others.as_slice())?;
    Ok(names)
}

/// The lines that these orders have, and those that the change puts.
fn read_opened_lines<S: Alter>(
    alloc: Global,
    tx: &mut Transaction<'_, S>,
    known: &mut KnownRows<Name, TextKey, LineRow>,
    put: &Put,
) -> Result<Vec<LineRow>, TableFault>
    ensures same_reference { tx.new.conn.ghost_name ≡ tx.old.conn.ghost_name }
    ensures read { IsRead (Knowing (λ t. KnowsLines t known.old.rows) (λ t. KnowsLines t known.new.rows) (λ t rows. AreLinesPut put.now t rows.items)) (state S.Store tx.old.conn.now) (state S.Store tx.new.conn.now) result }
{
    let names = orders_opened_by(alloc, put)?;
    let mut lines = seek_all_known::<Lines, Name, TextKey, S>(alloc, tx, known, names.as_slice())?;
    lines.extend_from_slice(put.lines.as_slice())?;
    Ok(lines)
}

/// The rows of the urgent ones among the orders of these lines, and those that the change puts.
fn read_urgent_orders<S: Alter>(
    alloc: Global,
    tx: &mut Transaction<'_, S>,
    known: &mut KnownRows<Name, TextKey, UrgentRow>,
    put: &Put,
    lines: &[LineRow],
) -> Result<Vec<UrgentRow>, TableFault>
    ensures same_reference { tx.new.conn.ghost_name ≡ tx.old.conn.ghost_name }
    ensures read { IsRead (Knowing (λ t. KnowsUrgents t known.old.rows) (λ t. KnowsUrgents t known.new.rows) (λ t rows. AreUrgentsPut put.now lines.now t rows.items)) (state S.Store tx.old.conn.now) (state S.Store tx.new.conn.now) result }
{
    let names = orders_of_lines(alloc, lines)?;
    let mut urgents = urgents_among(alloc, tx, known, names.as_slice())?;
    urgents.extend_from_slice(put.urgents.as_slice())?;
    Ok(urgents)
}

impl Known {
    /// The orders of these lines, and the urgent ones of them.
    fn add_lines(
        &mut self,
        alloc: Global,
        lines: &[LineRow],
        urgents: &[UrgentRow],
    ) -> Result<(), AllocError>
        ensures keeps { Keeps self.old.lines self.new.lines }
        ensures keeps_urgent { Keeps self.old.urgent self.new.urgent }
        ensures bounds { self.new.bounds ≡ self.old.bounds }
        ensures rows { self.new.rows ≡ self.old.rows }
        ensures added { OnOk result (Gains (has_line_row lines.now) self.old.lines self.new.lines) }
        ensures added_urgent { OnOk result (Gains (has_line_row (urgent_lines_lem urgents.now lines.now)) self.old.urgent self.new.urgent) }
    {
        self.lines.add_rows(lines)?;
        let own = urgent_lines(alloc, lines, urgents)?;
        self.urgent.add_rows(own.as_slice())
    }

    /// What is known of the books, with what the change puts.
    fn read_change<S: Alter>(
        &mut self,
        alloc: Global,
        tx: &mut Transaction<'_, S>,
        put: &Put,
    ) -> Result<(), TableFault>
        ensures same_reference { tx.new.conn.ghost_name ≡ tx.old.conn.ghost_name }
        ensures keeps { Keeps self.old.lines self.new.lines }
        ensures keeps_urgent { Keeps self.old.urgent self.new.urgent }
        ensures bounds { self.new.bounds ≡ self.old.bounds }
        ensures rows { self.new.rows ≡ record self.old.rows { followed = self.new.rows.followed } }
        ensures read { IsRead (Knowing (λ t. KnowsFollowed t self.old.rows.followed) (λ t. KnowsFollowed t self.new.rows.followed) (λ t _. Knows put.now t self.new)) (state S.Store tx.old.conn.now) (state S.Store tx.new.conn.now) result }
    {
        let lines = read_opened_lines(alloc, tx, &mut self.rows.followed.lines, put)?;
        let of_urgents = &mut self.rows.followed.urgents;
        let urgents = read_urgent_orders(alloc, tx, of_urgents, put, lines.as_slice())?;
        Ok(self.add_lines(alloc, lines.as_slice(), urgents.as_slice())?)
    }

    // After a read that failed, no row is known of those that follow what is written.
    fn forget_unread(&mut self, alloc: Global, read: &Result<(), TableFault>)
        ensures same { self.new ≡ record self.old { rows = record self.old.rows { followed = self.new.rows.followed } } }
        ensures read { OnOk read.now (self.new.rows.followed ≡ self.old.rows.followed) }
        ensures unread { OnErr read.now (KnowsNoneFollowed self.new.rows.followed) }
    {
        if read.is_err() {
            self.rows.followed = Followed::new(alloc);
        }
    }

    /// With what a change puts, which is about to be written, what is known of the books; the rows that are sought with one that it
    /// puts are forgotten, but for what follows what is written. It changes nothing of the tables, and reads only what is not known of
    /// the orders that it opens or whose lines it puts. For want of memory some of the orders are known.
    pub fn add_change<S: Alter>(
        &mut self,
        alloc: Global,
        tx: &mut Transaction<'_, S>,
        put: &Put,
    ) -> Result<(), TableFault>
        ensures same_reference { tx.new.conn.ghost_name ≡ tx.old.conn.ghost_name }
        ensures keeps { Keeps self.old.lines self.new.lines }
        ensures keeps_urgent { Keeps self.old.urgent self.new.urgent }
        ensures raised { IsRaised put.now self.old.bounds self.new.bounds }
        ensures forgets { ForgetsPut put.now self.old.rows self.new.rows }
        ensures followed { HasCleanDisk (state S.Store tx.new.conn.now) → IsReady (state S.Store tx.old.conn.now).now → IsTrue (state S.Store tx.old.conn.now).is_open
            → KnowsFollowed (tables_in (state S.Store tx.old.conn.now).now.trees) self.old.rows.followed → KnowsFollowed (tables_in (state S.Store tx.old.conn.now).now.trees) self.new.rows.followed }
        ensures read { IsRead (λ t _. KnowsFollowed t self.old.rows.followed → Knows put.now t self.new) (state S.Store tx.old.conn.now) (state S.Store tx.new.conn.now) result }
    {
        self.bounds = self.bounds.raised(put);
        self.rows.forget_put(put);
        let added = self.read_change(alloc, tx, put);
        self.forget_unread(alloc, &added);
        added
    }
}
