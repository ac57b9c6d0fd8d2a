ghost use Rattle.std.specs.Prelude.{◌≡◌, length};
ghost use Rattle.requests.specs.Faults.{wire_code, wire_status, wire_allow};

use crate::Method;
use http::StatusCode;

/// Why a text is no request. Each form has a code of three characters.
#[derive(Clone, Copy, PartialEq, Eq, Debug)]
pub enum WireFault {
    /// `W01`: the head is no complete head of at most 32 fields.
    Head,
    /// `W02`: the length of the body is not told, or the body is not there.
    Length,
    /// `W03`: the body is no JSON.
    Json,
    /// `W04`: a field of the body or a value of the path breaks its rule.
    Field,
    /// `W06`: no such path.
    Path,
    /// `W07`: the route has another method, this one.
    Method(Method),
    /// `W08`: the head or the body is too large.
    TooLarge,
    /// `W90`: there was no memory.
    Memory,
}

impl WireFault {
    /// The code of the fault.
    pub fn code(self) -> &'static str
        ensures code { result.now ≡ wire_code self }
        ensures length { length result.now ≡ 3 }
    {
        match self {
            WireFault::Head => "W01",
            WireFault::Length => "W02",
            WireFault::Json => "W03",
            WireFault::Field => "W04",
            WireFault::Path => "W06",
            WireFault::Method(_) => "W07",
            WireFault::TooLarge => "W08",
            WireFault::Memory => "W90",
        }
    }

    /// The status of the answer: 400, 404, 405, 413 or 503.
    pub fn status(self) -> StatusCode
        ensures { result ≡ wire_status self }
    {
        match self {
            WireFault::Head | WireFault::Length | WireFault::Json | WireFault::Field =>
                StatusCode::BAD_REQUEST,
            WireFault::Path => StatusCode::NOT_FOUND,
            WireFault::Method(_) => StatusCode::METHOD_NOT_ALLOWED,
            WireFault::TooLarge => StatusCode::PAYLOAD_TOO_LARGE,
            WireFault::Memory => StatusCode::SERVICE_UNAVAILABLE,
        }
    }

    /// The method that the answer names: that of the route, if the request has another.
    pub fn allow(self) -> Option<Method>
        ensures { result ≡ wire_allow self }
    {
        match self {
            WireFault::Method(method) => Some(method),
            _ => None,
        }
    }
}
