ghost use Rattle.std.specs.Prelude.{◌≡◌, ◌↔◌, ◌+◌, ◌==◌, ◌<◌, ◌≤◌, length, take, drop, IsTrue, IfOk, IfErr, Ok, Err, Some};
ghost use Rattle.std.specs.List.{position, position_or_len};
ghost use Rattle.label.specs.Days.{is_business_day};
ghost use Rattle.values.specs.Faults.{sound_or};
ghost use Rattle.label.specs.Labels.{lot_fault, up_to_separator, after_separator, label_fault, label_read, IsLabelOf};
ghost use Rattle.label.specs.declared.gs1.Label.{Label as LabelSaid};
ghost use Rattle.values.specs.declared.fault.LabelFault.{LabelFault as Fault};
ghost use Rattle.label.specs.Reading.{identifier_at, has_found, nothing_found, element_read, field_read, label_found, body_of, body_read, IsStep};

use crate::gs1::SEPARATOR;
use crate::{Day, Label, expiry_of};
use values::{Gtin, LabelFault, Lot};

/// The Application Identifiers of the profile.
#[derive(Clone, Copy)]
enum Identifier {
    /// `01`
    ForGtin,
    /// `10`
    ForLot,
    /// `17`
    ForExpiry,
}

/// What the elements read so far have said.
#[derive(Clone, Copy)]
struct Found {
    gtin: Option<Gtin>,
    lot: Option<Lot>,
    expiry: Option<Day>,
}

/// Reads a label: a symbology identifier of GS1-128 (`]C1`), GS1 DataMatrix (`]d2`), GS1 QR Code
/// (`]Q3`) or none, and then the elements 01, 10 and 17, each once and in any order, with byte 29
/// after a lot that is not last and nowhere else. The year of the expiration date is told by the
/// business day `today`.
///
/// A text that is no label has the first fault in the order of the text: `L01` for its beginning;
/// at the start of an element `L13`, `L03`, `L02`, `L11`; in its data field those of
/// [`Gtin::new`], [`Lot::new`] and [`expiry_of`], and `L13` for a separator that ends the text; at
/// the end `L12`.
pub fn read(text: &[u8], today: Day) -> Result<Label, LabelFault>
    requires { IsTrue (is_business_day today) }
    ensures value { result ≡ label_read today text.now }
    ensures label { (label : LabelSaid) → (result ≡ Ok label) ↔ IsLabelOf today text.now label }
    ensures fault { (fault : Fault) → (result ≡ Err fault) ↔ (label_fault today text.now ≡ Some fault) }
{
    read_text(text, today)
}

fn read_text(text: &[u8], today: Day) -> Result<Label, LabelFault>
    requires { IsTrue (is_business_day today) }
    ensures { result ≡ label_read today text.now }
{
    match without_prefix(text) {
        Ok(body) => read_elements(body, today),
        Err(fault) => Err(fault),
    }
}

// The text without its symbology identifier.
fn without_prefix(text: &[u8]) -> Result<&[u8], LabelFault>
    ensures ok { IfOk result (λ body. body_of text.now ≡ Ok body.now) }
    ensures err { IfErr result (λ fault. body_of text.now ≡ Err fault) }
{
    match text {
        [b']', b'C', b'1', ..] | [b']', b'd', b'2', ..] | [b']', b'Q', b'3', ..] => Ok(&text[3..]),
        [b']', ..] => Err(LabelFault::BadPrefix),
        _ => Ok(text),
    }
}

// The label of these elements, without a symbology identifier before them.
fn read_elements(body: &[u8], today: Day) -> Result<Label, LabelFault>
    requires { IsTrue (is_business_day today) }
    ensures { result ≡ body_read today body.now }
{
    let mut found = Found::nothing();
    let mut rest = body;
    while !rest.is_empty() {
        rest = found.take_element(rest, today)?;
    }
    found.label()
}

impl Found {
    fn nothing() -> Found
        ensures { result ≡ nothing_found }
    {
        Found {
            gtin: None,
            lot: None,
            expiry: None,
        }
    }

    fn has(&self, identifier: Identifier) -> bool
        ensures { result ≡ has_found self.now identifier }
    {
        match identifier {
            Identifier::ForGtin => self.gtin.is_some(),
            Identifier::ForLot => self.lot.is_some(),
            Identifier::ForExpiry => self.expiry.is_some(),
        }
    }

    // Reads the element that begins the text, and gives what follows it.
    fn take_element<'a>(&mut self, text: &'a [u8], today: Day) -> Result<&'a [u8], LabelFault>
        requires some { 0 < length text.now }
        requires business { IsTrue (is_business_day today) }
        ensures ok { IfOk result (λ rest. IsStep (element_read today self.old text.now) self.new rest.now) }
        ensures shorter { IfOk result (λ rest. length rest.now < length text.now) }
        ensures err { IfErr result (λ fault. element_read today self.old text.now ≡ Err fault) }
    {
        let identifier = identifier_of(text)?;
        if self.has(identifier) {
            return Err(LabelFault::IdentifierRepeated);
        }
        self.take_field(identifier, after(text, 2), today)
    }

    // Reads the data field that begins the text, and gives what follows it.
    fn take_field<'a>(
        &mut self,
        identifier: Identifier,
        text: &'a [u8],
        today: Day,
    ) -> Result<&'a [u8], LabelFault>
        requires { IsTrue (is_business_day today) }
        ensures ok { IfOk result (λ rest. IsStep (field_read today self.old identifier text.now) self.new rest.now) }
        ensures shorter { IfOk result (λ rest. length rest.now ≤ length text.now) }
        ensures err { IfErr result (λ fault. field_read today self.old identifier text.now ≡ Err fault) }
    {
        match identifier {
            Identifier::ForGtin => {
                self.gtin = Some(Gtin::new(front(text, 14))?);
                Ok(after(text, 14))
            }
            Identifier::ForLot => {
                self.lot = Some(lot_at(text)?);
                Ok(after_lot(text))
            }
            Identifier::ForExpiry => {
                self.expiry = Some(expiry_of(front(text, 6), today)?);
                Ok(after(text, 6))
            }
        }
    }

    fn label(&self) -> Result<Label, LabelFault>
        ensures { result ≡ label_found self.now }
    {
        match (self.gtin, self.lot, self.expiry) {
            (Some(gtin), Some(lot), Some(expiry)) => Ok(Label { gtin, lot, expiry }),
            _ => Err(LabelFault::IdentifierMissing),
        }
    }
}

fn identifier_of(text: &[u8]) -> Result<Identifier, LabelFault>
    requires { 0 < length text.now }
    ensures { result ≡ identifier_at (take 2 text.now) }
{
    match text {
        [SEPARATOR, ..] => Err(LabelFault::SeparatorMisplaced),
        [_] => Err(LabelFault::CutShort),
        [b'0', b'1', ..] => Ok(Identifier::ForGtin),
        [b'1', b'0', ..] => Ok(Identifier::ForLot),
        [b'1', b'7', ..] => Ok(Identifier::ForExpiry),
        _ => Err(LabelFault::UnknownIdentifier),
    }
}

// The first n bytes of the text, or all where it has fewer.
fn front(text: &[u8], n: usize) -> &[u8]
    ensures { result.now ≡ take n text.now }
{
    if n < text.len() { &text[..n] } else { text }
}

// What follows the first n bytes of the text.
fn after(text: &[u8], n: usize) -> &[u8]
    ensures rest { result.now ≡ drop n text.now }
    ensures shorter { length result.now ≤ length text.now }
{
    if n < text.len() { &text[n..] } else { &[] }
}

fn lot_at(text: &[u8]) -> Result<Lot, LabelFault>
    ensures { result ≡ sound_or (lot_fault text.now) (up_to_separator text.now) }
{
    let end = lot_end(text);
    let lot = Lot::new(&text[..end])?;
    if text.len() == end + 1 {
        return Err(LabelFault::SeparatorMisplaced);
    }
    Ok(lot)
}

// What follows the lot and its separator.
fn after_lot(text: &[u8]) -> &[u8]
    ensures rest { result.now ≡ after_separator text.now }
    ensures shorter { length result.now ≤ length text.now }
{
    let end = lot_end(text);
    if end < text.len() {
        &text[end + 1..]
    } else {
        &[]
    }
}

// Where the lot that begins the text ends: at the first separator, or with the text.
fn lot_end(text: &[u8]) -> usize
    ensures first { result ≡ position_or_len (λ c. c == SEPARATOR) text.now }
    ensures within { result ≤ length text.now }
{
    separator_at(text).unwrap_or(text.len())
}

fn separator_at(text: &[u8]) -> Option<usize>
    ensures { result ≡ position (λ c. c == SEPARATOR) text.now }
{
    text.iter().position(|c| *c == SEPARATOR)
}
