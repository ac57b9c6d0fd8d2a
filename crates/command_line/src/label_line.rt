ghost use Rattle.std.specs.Prelude.{◌≡◌, OnOk, IfOk, IfErr, IsTrue, Some};
ghost use Rattle.std.specs.Io.KnownBytes.{Appends};
ghost use Rattle.label.specs.Days.{is_business_day, parsed_day};
ghost use Rattle.command_line.specs.Lines.{label_lines, IsPrinted, IsRefused, IsNoBusinessDay};

use crate::fault::Fault;
use label::{BusinessDay, Day, Label, read};
use std::io;
use std::io::Write;

/// Prints what a label says on a business day. The day is judged first, then the label.
pub(crate) fn print_label<W: Write>(day: &str, text: &str, out: &mut W) -> Result<(), Fault>
    ensures printed { OnOk result (IsPrinted day.now text.now (W.contents out.old) (W.contents out.new)) }
    ensures refused { IfErr result (IsRefused day.now text.now (W.contents out.old) (W.contents out.new)) }
{
    let today = business_day(day)?;
    let label = match read(text.as_bytes(), today) {
        Ok(label) => label,
        Err(fault) => return Err(Fault::Label(fault)),
    };
    match write_label(&label, out) {
        Ok(()) => Ok(()),
        Err(_) => Err(Fault::Io),
    }
}

/// The business day that a DATE is.
pub(crate) fn business_day(text: &str) -> Result<Day, Fault>
    ensures day { IfOk result (λ day. parsed_day text.now ≡ Some day) }
    ensures business { IfOk result (λ day. IsTrue (is_business_day day)) }
    ensures none { IfErr result (λ fault. IsNoBusinessDay text.now) }
    ensures value { IfErr result (λ fault. fault ≡ Fault.Value) }
{
    match Day::parse(text.as_bytes()) {
        Some(day) if day.is_business() => Ok(day),
        _ => Err(Fault::Value),
    }
}

/// The first day of new books: the business day that a DATE is.
pub(crate) fn first_day(text: &str) -> Result<BusinessDay, Fault>
    ensures day { IfOk result (λ day. parsed_day text.now ≡ Some day) }
    ensures business { IfOk result (λ day. IsTrue (is_business_day day)) }
    ensures none { IfErr result (λ fault. IsNoBusinessDay text.now) }
    ensures value { IfErr result (λ fault. fault ≡ Fault.Value) }
{
    match BusinessDay::new(business_day(text)?) {
        Some(day) => Ok(day),
        None => Err(Fault::Value),
    }
}

fn write_label<W: Write>(label: &Label, out: &mut W) -> io::Result<()>
    ensures { OnOk result (Appends (W.contents out.old) (W.contents out.new) (label_lines label.now)) }
{
    out.write_all(b"GTIN ")?;
    out.write_all(label.gtin.as_bytes())?;
    out.write_all(b"\nLOT ")?;
    out.write_all(label.lot.as_bytes())?;
    out.write_all(b"\nEXPIRY ")?;
    out.write_all(&label.expiry.text())?;
    out.write_all(b"\n")
}
