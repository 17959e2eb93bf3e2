//! Why a request is refused before it reaches the agent.
ghost use Rattle.std.specs.Prelude.{◌≡◌};
ghost use Rattle.http_request.specs.RequestMeaning.{method_text};

/// A request's method.
#[derive(Clone, Copy, Debug, PartialEq, Eq)]
pub enum Method {
    Get,
    Post,
    Put,
}

impl Method {
    /// Its text.
    pub fn as_str(self) -> &'static str
        ensures { result.now ≡ method_text self }
    {
        match self {
            Method::Get => "GET",
            Method::Post => "POST",
            Method::Put => "PUT",
        }
    }
}

/// Why a request is refused: the first of these, in this order, that stands.
#[derive(Clone, Copy, Debug, PartialEq, Eq)]
pub enum RequestFault {
    /// There is no head of at most 8,192 bytes and 32 fields.
    Head,
    /// The target has a byte that is none of `A-Z a-z 0-9 / - _ .`.
    Target,
    /// No route has the path.
    NoRoute,
    /// The route has another method.
    Method(Method),
    /// The body has a transfer coding.
    TransferCoding,
    /// The length of the body is not told.
    NoLength,
    /// The length is told more than once, or is not 1 to 10 digits.
    Length,
    /// The body is longer than the route takes.
    TooLong,
    /// The input ends within the body.
    BodyShort,
    /// A parameter or the body is out of form.
    Form,
}
