//! Refusals of requests that aren't looked at further.

ghost use Rattle.std.specs.Prelude.{◌≡◌};
ghost use Rattle.http_messages.specs.Refusals.{refusal_status, refusal_text};

use http::StatusCode;

/// Why a request is refused before its target is looked at. The connection is closed after each.
#[derive(Clone, Copy)]
pub enum Refusal {
    /// No complete head within the limit of its bytes, or more lines than it may have.
    HeadTooLarge,
    /// httparse doesn't read it as a head.
    BadHead,
    /// A field `Transfer-Encoding`.
    TransferCoding,
    /// Two fields `Content-Length`, or one whose value isn't a number of 1 to 19 digits.
    BadLength,
    /// POST without a `Content-Length`.
    LengthRequired,
    /// A body above the limit.
    TooLarge,
}

impl Refusal {
    /// The status of its response.
    pub fn status(self) -> StatusCode
        ensures { result ≡ refusal_status self }
    {
        match self {
            Refusal::HeadTooLarge => StatusCode::REQUEST_HEADER_FIELDS_TOO_LARGE,
            Refusal::BadHead => StatusCode::BAD_REQUEST,
            Refusal::TransferCoding => StatusCode::NOT_IMPLEMENTED,
            Refusal::BadLength => StatusCode::BAD_REQUEST,
            Refusal::LengthRequired => StatusCode::LENGTH_REQUIRED,
            Refusal::TooLarge => StatusCode::PAYLOAD_TOO_LARGE,
        }
    }

    /// The body of its response, without its line feed.
    pub fn text(self) -> &'static str
        ensures { result.now ≡ refusal_text self }
    {
        match self {
            Refusal::HeadTooLarge => "head too large",
            Refusal::BadHead => "bad head",
            Refusal::TransferCoding => "transfer coding",
            Refusal::BadLength => "bad length",
            Refusal::LengthRequired => "length required",
            Refusal::TooLarge => "too large",
        }
    }
}
