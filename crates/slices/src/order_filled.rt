//! An order whose lines a change puts, all of them and each with all its units shipped.

ghost use Rattle.std.specs.Prelude.{◌≡◌, IfSome, IsTrue, map};
ghost use Rattle.commands.specs.Tables.{Tables};
ghost use Rattle.tables.specs.Lines.{filled_line};
ghost use Rattle.slices.specs.Filling.{is_filled as is_filled_lem, FillsLines};
ghost use Rattle.slices.specs.Following.{KnowsLines};

use crate::followed::Followed;
use commands::LineRow;
use values::Name;

/// Whether the row put is the line with all its units shipped.
fn is_filled(line: &LineRow, put: &LineRow) -> bool
    ensures { result ≡ is_filled_lem line.now put.now }
{
    put.order == line.order
        && put.gtin == line.gtin
        && put.ordered == line.ordered
        && put.shipped == line.ordered
}

/// Whether the rows put are the lines, each with all its units shipped.
fn are_filled(lines: &[LineRow], put: &[LineRow]) -> bool
    ensures { IsTrue result → put.now ≡ map filled_line lines.now }
{
    if put.len() != lines.len() {
        return false;
    }
    for at in 0..put.len() {
        if !is_filled(&lines[at], &put[at]) {
            return false;
        }
    }
    true
}

impl Followed {
    /// The order that these lines fill, where all its lines are known: so one statement can write them.
    pub fn order_filled(&self, put: &[LineRow]) -> Option<Name>
        ensures { IfSome result (λ order. (t : Tables) → KnowsLines t self.now.lines.rows → FillsLines order put.now t) }
    {
        let Some(first) = put.first() else {
            return None;
        };
        let Some(lines) = self.lines.rows_of(&first.order) else {
            return None;
        };
        if !are_filled(lines, put) {
            return None;
        }
        Some(first.order)
    }
}
