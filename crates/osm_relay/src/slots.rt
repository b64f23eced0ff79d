//! What the path `/api/status` tells.

ghost use Rattle.std.specs.Prelude.{◌≡◌, IfOk};
ghost use Rattle.osm_relay.specs.Pages.{slots_response};
ghost use Rattle.http_messages.specs.ResponseTexts.{response_text};

use crate::response::make_response;
use http::StatusCode;
use http_messages::ResponseHead;
use std::alloc::{AllocError, Global};

/// What it tells, whenever it is asked. Clients read the fifth line, and ask at once where its first word is a number.
pub(crate) const SLOTS: &[u8] =
    b"Connected as: 0\nCurrent time: 1970-01-01T00:00:00Z\nAnnounced endpoint: none\nRate limit: 1\n1 slots available now.\nCurrently running queries (pid, space limit, time limit, start time):\n";

/// The response that says that a slot is free.
pub(crate) fn slots_response(alloc: Global) -> Result<Vec<u8>, AllocError>
    ensures { IfOk result (λ response. response.items ≡ response_text slots_response) }
{
    let head = ResponseHead {
        status: StatusCode::OK,
        content_type: "text/plain; charset=utf-8",
        root: None,
        allow: None,
        closes: true,
    };
    make_response(alloc, &head, &[SLOTS])
}
