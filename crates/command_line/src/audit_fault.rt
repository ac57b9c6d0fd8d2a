ghost use Rattle.std.specs.Prelude.{◌≡◌, ◌≤◌, ◌+◌, ◌++◌, length};
ghost use Rattle.command_line.specs.Audits.{audit_code, audit_place, row_place, spaced};

use crate::fault::{Told, push_act};
use commands::Refusal;
use values::Text;

/// The bytes of a table's name, at most.
pub const TABLE_NAME_MAX: usize = 9;

/// The bytes of a row's key, at most: an order of 20, a GTIN, a lot of 20, and a space before each but the first.
pub const ROW_KEY_MAX: usize = 56;

/// Why the rows of books are not those of the acts that they keep.
#[derive(Clone, Copy)]
pub enum AuditFault {
    /// A row of this table is another than that of the acts, is missing, or is one too many. The key is the columns of
    /// its primary key, parted by a space.
    Row {
        table: Text<TABLE_NAME_MAX>,
        key: Text<ROW_KEY_MAX>,
    },
    /// A row of this table has a value that no row has.
    Table {
        table: Text<TABLE_NAME_MAX>,
    },
    /// The row of the act of this number spells no command or no key, or a key of the other kind.
    Spelling {
        act: u64,
    },
    /// The act of this number is refused after those before it.
    Act {
        act: u64,
        refusal: Refusal,
    },
}

impl AuditFault {
    /// What is told of it first.
    pub(crate) fn code(&self) -> &'static str
        ensures { result.now ≡ audit_code self.now }
    {
        match self {
            AuditFault::Row { .. } | AuditFault::Table { .. } => "differs",
            AuditFault::Spelling { .. } => "spelling",
            AuditFault::Act { act: _, refusal } => refusal.code(),
        }
    }

    /// Adds what it is about: the table, the table and the key, or the act.
    pub(crate) fn push_place(&self, told: &mut Told)
        requires { length told.old ≤ 19 }
        ensures text { told.new ≡ told.old ++ audit_place self.now }
        ensures size { length told.new ≤ length told.old + 67 }
    {
        match self {
            AuditFault::Row { table, key } => push_row(table, key, told),
            AuditFault::Table { table } => push_word(table, told),
            AuditFault::Spelling { act } => push_act(*act, told),
            AuditFault::Act { act, refusal: _ } => push_act(*act, told),
        }
    }
}

fn push_row(table: &Text<TABLE_NAME_MAX>, key: &Text<ROW_KEY_MAX>, told: &mut Told)
    requires { length told.old ≤ 19 }
    ensures text { told.new ≡ told.old ++ row_place table.now key.now }
    ensures size { length told.new ≤ length told.old + 67 }
{
    push_word(table, told);
    push_word(key, told);
}

/// A space and a word.
fn push_word<const N: usize>(word: &Text<N>, told: &mut Told)
    requires { length told.old + N ≤ 85 }
    ensures text { told.new ≡ told.old ++ spaced word.now }
    ensures size { length told.new ≤ length told.old + N + 1 }
{
    let _ = word.len();
    told.push_all(b" ");
    told.push_all(word.as_bytes());
}
