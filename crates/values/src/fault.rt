ghost use Rattle.std.specs.Prelude.{◌≡◌};
ghost use Rattle.values.specs.Faults.{fault_code};

/// Why a text is no label, or no GTIN, lot or expiry date. Each form has a code of three characters.
#[derive(Clone, Copy, PartialEq, Eq, Debug)]
pub enum LabelFault {
    /// `L01`: the text begins with `]` and with no symbology identifier of the profile.
    BadPrefix,
    /// `L02`: two characters that are no Application Identifier of the profile.
    UnknownIdentifier,
    /// `L03`: the text ends within an element.
    CutShort,
    /// `L04`: a character that should be a digit and is none.
    NotADigit,
    /// `L05`: the check digit of the GTIN does not fit its other digits.
    CheckDigit,
    /// `L06`: a GTIN whose first digit is 9, for goods of variable measure.
    VariableMeasure,
    /// `L07`: a lot without a character.
    LotEmpty,
    /// `L08`: a lot of more than 20 characters.
    LotTooLong,
    /// `L09`: a lot with a character outside character set 82.
    LotCharacter,
    /// `L10`: six digits that name no day of the calendar.
    NoSuchDate,
    /// `L11`: an Application Identifier that stands before already.
    IdentifierRepeated,
    /// `L12`: the text ends, and an Application Identifier is missing.
    IdentifierMissing,
    /// `L13`: a separator where none may stand.
    SeparatorMisplaced,
    /// `L90`: there was no memory for the text. Only `write` meets it.
    OutOfMemory,
}

impl LabelFault {
    /// The code of the fault: `L01` to `L13`, or `L90`.
    pub fn code(self) -> &'static str
        ensures { result.now ≡ fault_code self }
    {
        match self {
            LabelFault::BadPrefix => "L01",
            LabelFault::UnknownIdentifier => "L02",
            LabelFault::CutShort => "L03",
            LabelFault::NotADigit => "L04",
            LabelFault::CheckDigit => "L05",
            LabelFault::VariableMeasure => "L06",
            LabelFault::LotEmpty => "L07",
            LabelFault::LotTooLong => "L08",
            LabelFault::LotCharacter => "L09",
            LabelFault::NoSuchDate => "L10",
            LabelFault::IdentifierRepeated => "L11",
            LabelFault::IdentifierMissing => "L12",
            LabelFault::SeparatorMisplaced => "L13",
            LabelFault::OutOfMemory => "L90",
        }
    }
}
