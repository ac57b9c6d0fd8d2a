ghost use Rattle.std.specs.Prelude.{◌≡◌, IsTrue};
ghost use Rattle.values.specs.Values.{is_name};
ghost use Rattle.goodsin.specs.Faults.{file_fault_code};

/// Why a goods-in file is refused. Each form has a code of three characters.
#[derive(Clone, Copy, PartialEq, Eq, Debug)]
pub enum FileFault {
    /// `G01`: the first record is not the header, or there is none.
    Header,
    /// `G02`: a field of this row breaks its rule. Rows count from 1, after the header.
    Row(u16),
    /// `G03`: there are more than 1,000 rows.
    TooManyRows,
    /// `G04`: a record has another number of fields than the header.
    Length,
    /// `G04`: the reader failed.
    Reader,
    /// `G90`: there was no memory for the rows.
    Memory,
}

impl FileFault {
    /// The code of the fault: `G01` to `G04`, or `G90`.
    pub fn code(self) -> &'static str
        ensures value { result.now ≡ file_fault_code self }
        ensures name { IsTrue (is_name result.now) }
    {
        match self {
            FileFault::Header => "G01",
            FileFault::Row(_) => "G02",
            FileFault::TooManyRows => "G03",
            FileFault::Length | FileFault::Reader => "G04",
            FileFault::Memory => "G90",
        }
    }
}
