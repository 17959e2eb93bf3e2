//! Laws of requests.
ghost use Rattle.http_request.specs.RequestMeaning.{RequestsMeanOne};

/// An input asks one thing at most: no two commands, nor a command where it has a fault.
pub fn law_asked()
    ensures { RequestsMeanOne }
{}
