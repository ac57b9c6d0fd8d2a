ghost use Rattle.std.specs.Prelude.{◌≡◌, ◌≤◌, length};
ghost use Rattle.requests.specs.Routes.{method_name};

/// A method that a route may have.
#[derive(Clone, Copy, PartialEq, Eq, Debug)]
pub enum Method {
    Get,
    Post,
}

impl Method {
    /// The method as it stands in a request: `GET` or `POST`.
    pub fn name(self) -> &'static str
        ensures name { result.now ≡ method_name self }
        ensures length { length result.now ≤ 4 }
    {
        match self {
            Method::Get => "GET",
            Method::Post => "POST",
        }
    }
}
