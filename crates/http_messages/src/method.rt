//! Methods of requests.

ghost use Rattle.std.specs.Prelude.{◌≡◌};
ghost use Rattle.http_messages.specs.Methods.{method_of};

/// The method of a request, as far as methods are told apart.
#[derive(Clone, Copy, PartialEq, Eq)]
pub enum Method {
    /// GET.
    Get,
    /// POST.
    Post,
    /// Any other, HEAD included.
    Other,
}

/// The method of this name. Letters of either case differ.
///
/// Source: RFC 9110, section 9.1.
pub fn method_of(name: &[u8]) -> Method
    ensures { result ≡ method_of name.now }
{
    if name == b"GET".as_slice() {
        Method::Get
    } else if name == b"POST".as_slice() {
        Method::Post
    } else {
        Method::Other
    }
}
