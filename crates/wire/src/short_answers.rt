//! Short answers: a status and a text of JSON, written in place. None of them takes memory.

ghost use Rattle.std.specs.Prelude.{◌≡◌, IsTrue};
ghost use Rattle.values.specs.Values.{is_name};
ghost use Rattle.commands.specs.Refusals.{refusal_code};
ghost use Rattle.wire.specs.Shorts.{code_text as code_text_lem};
ghost use Rattle.wire.specs.ShortAnswers.{fault_answer as fault_answer_lem, label_answer as label_answer_lem, tally_answer as tally_answer_lem, row_conflict as row_conflict_lem, cause_answer as cause_answer_lem, cause_row_answer as cause_row_answer_lem, short_answer, foreign_books as foreign_books_lem};

use crate::answer::{Block, write_short};
use crate::short::{
    cause_row_text, cause_text, code_text, fault_text, label_fault_text, refusal_row_text,
    refusal_text, tally_text,
};
use commands::{Refusal, Short};
use http::StatusCode;
use requests::WireFault;
use values::LabelFault;

/// The answer to a text that is no request.
pub fn fault_answer(fault: WireFault) -> Block
    ensures { result ≡ fault_answer_lem fault }
{
    write_short(fault.status(), fault.allow(), &fault_text(fault))
}

/// The answer to a label that is refused.
pub fn label_answer(fault: LabelFault) -> Block
    ensures { result ≡ label_answer_lem fault }
{
    write_short(StatusCode::BAD_REQUEST, None, &label_fault_text(fault))
}

/// The answer with the reply of an act.
pub fn reply_answer(text: &Short) -> Block
    ensures { result ≡ short_answer 200 text.now }
{
    write_short(StatusCode::OK, None, text)
}

/// The answer to a command that is refused.
pub fn conflict(why: Refusal) -> Block
    ensures { result ≡ short_answer 409 (code_text_lem (refusal_code why)) }
{
    write_short(StatusCode::CONFLICT, None, &refusal_text(why))
}

/// The answer to a file whose rows were accepted, so many, or came again.
pub fn tally_answer(accepted: u16, repeated: u16) -> Block
    ensures { result ≡ tally_answer_lem accepted repeated }
{
    write_short(StatusCode::OK, None, &tally_text(accepted, repeated))
}

/// The answer to a file of which this row, counted from 1, is refused.
pub fn row_conflict(row: u16, why: Refusal) -> Block
    ensures { result ≡ row_conflict_lem row why }
{
    write_short(StatusCode::CONFLICT, None, &refusal_row_text(why, row))
}

/// The answer to a file that does not read as one, by the code of its fault.
pub fn cause_answer(cause: &str) -> Block
    requires { IsTrue (is_name cause.now) }
    ensures { result ≡ cause_answer_lem cause.now }
{
    write_short(StatusCode::BAD_REQUEST, None, &cause_text(cause))
}

/// The answer to a file that does not read as one, by the code of its fault and the row that has it, counted from 1.
pub fn cause_row_answer(cause: &str, row: u16) -> Block
    requires { IsTrue (is_name cause.now) }
    ensures { result ≡ cause_row_answer_lem cause.now row }
{
    write_short(StatusCode::BAD_REQUEST, None, &cause_row_text(cause, row))
}

/// The answer to a query on what is not known.
pub fn not_found(why: Refusal) -> Block
    ensures { result ≡ short_answer 404 (code_text_lem (refusal_code why)) }
{
    write_short(StatusCode::NOT_FOUND, None, &refusal_text(why))
}

/// The answer where the books hold rows that no list of acts leaves.
pub fn foreign_books() -> Block
    ensures { result ≡ foreign_books_lem }
{
    write_short(StatusCode::SERVICE_UNAVAILABLE, None, &code_text("W91"))
}
