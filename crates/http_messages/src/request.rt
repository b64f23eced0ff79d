//! Complete requests.

/// A complete request, as it stands in the bytes of a connection.
#[derive(Clone, Copy)]
pub struct Request<'a> {
    /// The method, as `GET`.
    pub method: &'a [u8],
    /// The target: the path, and what stands after it.
    pub target: &'a [u8],
    /// The body, which may be empty.
    pub body: &'a [u8],
    /// By HTTP/1.0 or by a field it asks for the end of the connection.
    pub closes: bool,
}
