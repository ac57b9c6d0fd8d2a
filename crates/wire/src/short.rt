ghost use Rattle.std.specs.Prelude.{◌≡◌, IsTrue};
ghost use Rattle.values.specs.Values.{is_name};
ghost use Rattle.values.specs.Faults.{fault_code};
ghost use Rattle.commands.specs.Refusals.{refusal_code};
ghost use Rattle.serde_json.specs.Written.{compact_text};
ghost use Rattle.requests.specs.Faults.{wire_code};
ghost use Rattle.wire.specs.Shorts.{code_text as code_text_lem, code_data, code_row_text as code_row_text_lem, code_row_data, cause_text as cause_text_lem, cause_data, cause_row_text as cause_row_text_lem, cause_row_data, tally_text as tally_text_lem, tally_data};

use commands::limits::SHORT_MAX;
use commands::{Buffer, Refusal, Short};
use requests::WireFault;
use values::LabelFault;

/// `{"code":"CODE"}`, for a code that is a name.
#[tactic(auto, using(crate::proofs::ShortTexts::code_is_json))]
pub fn code_text(code: &str) -> Short
    requires { IsTrue (is_name code.now) }
    ensures text { result ≡ code_text_lem code.now }
    ensures json { result ≡ compact_text (code_data code.now) }
{
    let mut text = Buffer::<SHORT_MAX>::new();
    text.push_all(b"{\"code\":\"");
    text.push_all(code.as_bytes());
    text.push_all(b"\"}");
    Short::of(&text)
}

/// `{"code":"CODE","row":N}`, for a code that is a name.
#[tactic(auto, using(crate::proofs::ShortTexts::code_row_is_json))]
fn code_row_text(code: &str, row: u16) -> Short
    requires { IsTrue (is_name code.now) }
    ensures text { result ≡ code_row_text_lem code.now row }
    ensures json { result ≡ compact_text (code_row_data code.now row) }
{
    let mut text = Buffer::<SHORT_MAX>::new();
    text.push_all(b"{\"code\":\"");
    text.push_all(code.as_bytes());
    text.push_all(b"\",\"row\":");
    text.push_decimal(u64::from(row));
    text.push_all(b"}");
    Short::of(&text)
}

/// `{"cause":"CODE","code":"W05"}`, for a code that is a name.
#[tactic(auto, using(crate::proofs::ShortTexts::cause_is_json))]
pub fn cause_text(cause: &str) -> Short
    requires { IsTrue (is_name cause.now) }
    ensures text { result ≡ cause_text_lem cause.now }
    ensures json { result ≡ compact_text (cause_data cause.now) }
{
    let mut text = Buffer::<SHORT_MAX>::new();
    text.push_all(b"{\"cause\":\"");
    text.push_all(cause.as_bytes());
    text.push_all(b"\",\"code\":\"W05\"}");
    Short::of(&text)
}

/// `{"cause":"CODE","code":"W05","row":N}`, for a code that is a name.
#[tactic(auto, using(crate::proofs::ShortTexts::cause_row_is_json))]
pub fn cause_row_text(cause: &str, row: u16) -> Short
    requires { IsTrue (is_name cause.now) }
    ensures text { result ≡ cause_row_text_lem cause.now row }
    ensures json { result ≡ compact_text (cause_row_data cause.now row) }
{
    let mut text = Buffer::<SHORT_MAX>::new();
    text.push_all(b"{\"cause\":\"");
    text.push_all(cause.as_bytes());
    text.push_all(b"\",\"code\":\"W05\",\"row\":");
    text.push_decimal(u64::from(row));
    text.push_all(b"}");
    Short::of(&text)
}

/// `{"accepted":A,"repeated":B}`: the rows of a file that were accepted, and those repeated.
#[tactic(auto, using(crate::proofs::ShortTexts::tally_is_json))]
pub fn tally_text(accepted: u16, repeated: u16) -> Short
    ensures text { result ≡ tally_text_lem accepted repeated }
    ensures json { result ≡ compact_text (tally_data accepted repeated) }
{
    let mut text = Buffer::<SHORT_MAX>::new();
    text.push_all(b"{\"accepted\":");
    text.push_decimal(u64::from(accepted));
    text.push_all(b",\"repeated\":");
    text.push_decimal(u64::from(repeated));
    text.push_all(b"}");
    Short::of(&text)
}

/// `{"code":"CODE"}` of a text that is no request.
#[tactic(auto, using(crate::proofs::Codes::wire_fault_is_name))]
pub fn fault_text(fault: WireFault) -> Short
    ensures text { result ≡ code_text_lem (wire_code fault) }
    ensures json { result ≡ compact_text (code_data (wire_code fault)) }
{
    code_text(fault.code())
}

/// `{"code":"CODE"}` of a refused command or query.
#[tactic(auto, using(crate::proofs::Codes::refusal_is_name))]
pub fn refusal_text(refusal: Refusal) -> Short
    ensures text { result ≡ code_text_lem (refusal_code refusal) }
    ensures json { result ≡ compact_text (code_data (refusal_code refusal)) }
{
    code_text(refusal.code())
}

/// `{"code":"CODE","row":N}` of a refused row of a file, which counts from 1.
#[tactic(auto, using(crate::proofs::Codes::refusal_is_name))]
pub fn refusal_row_text(refusal: Refusal, row: u16) -> Short
    ensures text { result ≡ code_row_text_lem (refusal_code refusal) row }
    ensures json { result ≡ compact_text (code_row_data (refusal_code refusal) row) }
{
    code_row_text(refusal.code(), row)
}

/// `{"cause":"CODE","code":"W05"}` of a label that is refused.
#[tactic(auto, using(crate::proofs::Codes::label_fault_is_name))]
pub fn label_fault_text(fault: LabelFault) -> Short
    ensures text { result ≡ cause_text_lem (fault_code fault) }
    ensures json { result ≡ compact_text (cause_data (fault_code fault)) }
{
    cause_text(fault.code())
}
