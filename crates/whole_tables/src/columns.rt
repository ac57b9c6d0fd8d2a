//! Rows compared column by column.

ghost use Rattle.std.specs.Prelude.{◌≡◌, ◌↔◌, IsTrue};

use keyed_rows::mapped::Mapped;
use table_words::chain::Chain;

/// Whether two rows are the same in every column.
pub(crate) fn same_columns<M: Mapped>(a: &M::Row, b: &M::Row) -> bool
    ensures { IsTrue result ↔ (a.now ≡ b.now) }
{
    M::parts(a).are_same(&M::parts(b))
}
