ghost use Rattle.std.specs.Prelude.{◌≡◌, ℤ, IsTrue, IfOk, IfErr, Ok};
ghost use Rattle.label.specs.Days.{is_business_day};
ghost use Rattle.label.specs.Labels.{label_text, label_read};
ghost use Rattle.label.specs.Expiry.{expiry_text, IsWithinCentury};
ghost use Rattle.values.specs.declared.fault.LabelFault.TheVariants.{OutOfMemory};

use crate::Label;
use crate::expiry::expiry_digits;
use std::alloc::{AllocError, Global};
use values::LabelFault;

/// The text of a label: no symbology identifier, the GTIN, the expiration date with its day of the
/// month written out, and the lot last, so that no separator is needed. Refused with `L90` for want
/// of memory alone.
pub fn write(alloc: Global, label: &Label) -> Result<Vec<u8>, LabelFault>
    ensures text { IfOk result (λ text. text.items ≡ label_text label.now.gtin label.now.lot (expiry_text label.now.expiry)) }
    ensures reads_back { IfOk result (λ text. (today : ℤ) → IsTrue (is_business_day today) → IsWithinCentury today label.now.expiry →
        label_read today text.items ≡ Ok label.now) }
    ensures memory { IfErr result (λ fault. fault ≡ OutOfMemory) }
{
    let yymmdd = expiry_digits(label.expiry);
    match elements(alloc, label.gtin.as_bytes(), &yymmdd, label.lot.as_bytes()) {
        Ok(text) => Ok(text),
        Err(_) => Err(LabelFault::OutOfMemory),
    }
}

fn elements(alloc: Global, gtin: &[u8], yymmdd: &[u8], lot: &[u8]) -> Result<Vec<u8>, AllocError>
    ensures { IfOk result (λ text. text.items ≡ label_text gtin.now lot.now yymmdd.now) }
{
    let mut text = Vec::with_capacity(alloc, 44)?;
    text.extend_from_slice(b"01")?;
    text.extend_from_slice(gtin)?;
    text.extend_from_slice(b"17")?;
    text.extend_from_slice(yymmdd)?;
    text.extend_from_slice(b"10")?;
    text.extend_from_slice(lot)?;
    Ok(text)
}
