ghost use Rattle.std.specs.Prelude.{◌≡◌, true, IsErr, IsErrAnd, IfOk, IfErr, OnOk};
ghost use Rattle.std.specs.Io.KnownBytes.{Appends};
ghost use Rattle.sqlite.specs.Held.{state};
ghost use Rattle.sqlite.specs.State.{HasCleanDisk};
ghost use Rattle.store.specs.Opening.{IsOfNone};
ghost use Rattle.line_work.specs.Auditing.{IsAuditTold, IsFindingTold, IsLeftAs, IsUnaudited, row_fault as row_fault_lem, sound_line};

use crate::row_text::{place_text, table_text};
use crate::shown::Shown;
use audits::{Finding, audit};
use books_schema::ready_connection::{Leftover, Orderly};
use command_line::{AuditFault, Fault};
use label::BusinessDay;
use service::{AfterWork, NotBegun, fault_of_books};
use sqlite::Connection;
use std::io::{self, Write};
use whole_tables::RowKey;

/// Holds the books against their acts, begun on the given day or else on the one that their rows tell, and prints how many
/// acts there are, where every row is that of the acts. No row is changed. On a terminal it shows how far it is.
pub fn audit_books<S: Orderly + Drop, W: Write>(
    rt: &HostRuntime,
    conn: Connection<S>,
    given: Option<BusinessDay>,
    out: &mut W,
) -> Result<AfterWork<S>, NotBegun<S>>
    ensures clean { IfOk result (λ w. HasCleanDisk (state S.Store w.0) → HasCleanDisk (state S.Store conn)) }
    ensures left { IfOk result (λ w. IsLeftAs S.Store conn w.0) }
    ensures told { IfOk result (λ w. HasCleanDisk (state S.Store w.0) → IsAuditTold given (state S.Store conn) (W.contents out.old) (W.contents out.new) w.1) }
    ensures other { IsOfNone (state S.Store conn).now.schema → IsErr result }
    ensures within { conn.in_transaction ≡ true → IsErrAnd result (λ e. (e.0 ≡ Leftover.Connection conn) × (e.1 ≡ Fault.Store)) }
    ensures failed { IfErr result (λ e. IsUnaudited S.Store conn e.0 e.1) }
    ensures silent { IsErr result → out.new ≡ out.old }
{
    if !conn.is_autocommit() {
        return Err((Leftover::Connection(conn), Fault::Store));
    }
    let mut shown = Shown::new(rt);
    let (left, found) = audit(rt.alloc(), conn, given, &mut shown);
    shown.clear();
    match found {
        Ok(finding) => match left {
            Leftover::Connection(conn) => Ok((conn, tell_finding(&finding, out))),
            left => Err((left, Fault::Store)),
        },
        Err(fault) => Err((left, fault_of_books(fault))),
    }
}

/// What is printed of a finding, or the fault that it is.
fn tell_finding<W: Write>(finding: &Finding, out: &mut W) -> Result<(), Fault>
    ensures { IsFindingTold finding.now (W.contents out.old) (W.contents out.new) result }
{
    match finding {
        Finding::Sound { acts, day } => {
            print_sound(*acts, *day, out)?;
            Ok(())
        }
        Finding::Differs(row) => Err(Fault::Audit(row_fault(row))),
        Finding::Untyped(table) => {
            let table = table_text(*table);
            Err(Fault::Audit(AuditFault::Table { table }))
        }
        Finding::Unnumbered(key) => Err(Fault::Audit(row_fault(&RowKey::Repeat(*key)))),
        Finding::Unspelled { act } => Err(Fault::Audit(AuditFault::Spelling { act: *act })),
        Finding::Refused { act, why } => Err(Fault::Audit(AuditFault::Act {
            act: *act,
            refusal: *why,
        })),
    }
}

/// The fault of a row that is not that of the acts.
fn row_fault(row: &RowKey) -> AuditFault
    ensures { result ≡ row_fault_lem row.now }
{
    let (table, key) = place_text(row);
    AuditFault::Row {
        table: table_text(table),
        key,
    }
}

/// Prints how many acts the books are of, and the day on which they began.
fn print_sound<W: Write>(acts: u64, day: BusinessDay, out: &mut W) -> io::Result<()>
    ensures { OnOk result (Appends (W.contents out.old) (W.contents out.new) (sound_line acts day)) }
{
    write!(out, "audited {acts} acts from ")?;
    out.write_all(&day.day().text())?;
    out.write_all(b"\n")
}
