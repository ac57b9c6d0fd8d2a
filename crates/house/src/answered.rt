//! The bytes of an answer.

ghost use Rattle.std.specs.Prelude.{◌≡◌, ◌↔◌, true, false, codes, IsTrue};
ghost use Rattle.house.specs.Answers.{status_of};
ghost use Rattle.house.specs.Asking.{fault_shown};
ghost use Rattle.house.specs.House.{bytes_of, IsLongIfOk};
ghost use Rattle.house.specs.Keeping.{TellsNoAct};

use requests::WireFault;
use store::Fault;
use wire::Block;
use wire::short_answers::{fault_answer, foreign_books, not_found};

/// How an answer of status 200 begins.
const OK_STATUS: &[u8] = b"HTTP/1.1 200";

/// The bytes of an answer.
#[derive(Drop)]
pub enum Answered {
    /// Written in place: the answer to every POST, to what is no request, and where there was no memory.
    Short(Block),
    /// What a GET shows, with status 200.
    Long(Vec<u8>),
}

impl Answered {
    ghost use Rattle.house.specs.House.{bytes_of};

    /// The bytes.
    pub fn as_bytes(&self) -> &[u8]
        ensures { result.now ≡ bytes_of self.now }
    {
        match self {
            Answered::Short(block) => block.as_bytes(),
            Answered::Long(bytes) => bytes.as_slice(),
        }
    }

    /// Whether its status is 200.
    pub(crate) fn is_ok(&self) -> bool
        ensures { IsTrue result ↔ (status_of (bytes_of self.now) ≡ codes "HTTP/1.1 200") }
    {
        self.as_bytes().starts_with(OK_STATUS)
    }

    /// Whether it may tell of an act that is new: it is written in place, with status 200.
    pub(crate) fn may_tell_of_acts(&self) -> bool
        ensures yes { result ≡ true → status_of (bytes_of self.now) ≡ codes "HTTP/1.1 200" }
        ensures no { result ≡ false → TellsNoAct self.now }
    {
        match self {
            Answered::Short(block) => block.as_bytes().starts_with(OK_STATUS),
            Answered::Long(_) => false,
        }
    }
}

/// The answer to a query that is refused, or that failed.
pub(crate) fn answer_query_fault(fault: Fault) -> Answered
    ensures told { bytes_of result ≡ fault_shown fault }
    ensures in_place { IsLongIfOk result }
{
    match fault {
        Fault::Refused(why) => Answered::Short(not_found(why)),
        Fault::Store => Answered::Short(fault_answer(WireFault::Memory)),
        Fault::Foreign => Answered::Short(foreign_books()),
    }
}
