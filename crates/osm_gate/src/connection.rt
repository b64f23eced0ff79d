//! A connection, as the loop sees it that serves one.

ghost use Rattle.std.specs.Prelude.{◌≡◌, IfOk, OnOk};
ghost use Rattle.osm_keys.specs.Publications.{Publication};
ghost use Rattle.osm_gate.specs.Connections.{Responds, Rest, requests_next};

use std::alloc::AllocError;

/// A connection that takes its bytes in pieces and gives the responses to its requests.
pub trait Connection {
    /// Whether it is closed, and the bytes after the last complete request.
    ghost rest: { Self → Rest };

    /// It responds over this publication.
    ghost over: { Self → Publication → Type 0 };

    /// The same connection at a later moment: only what is left of it has changed.
    ghost later: { Self → Self → Type 0 };

    /// Takes the next piece, and gives the responses to the requests that it completes. None once the connection is
    /// closed. Refused only where memory runs out.
    fn feed(&mut self, piece: &[u8]) -> Result<Vec<u8>, AllocError>
        ensures responses { (p : Publication) → over self.old p
            → IfOk result (λ responses.
            Responds p (requests_next (rest self.old) piece.now).complete responses.items) }
        ensures rest { OnOk result (
            rest self.new ≡ (requests_next (rest self.old) piece.now).rest) }
        ensures later { later self.old self.new };

    /// Whether the connection has ended: no further bytes have a response.
    fn closed(&self) -> bool
        ensures { result ≡ (rest self.now).is_closed };

    ghost itself: { (s : Self) → later s s };

    ghost chained: { (s t u : Self) → later s t → later t u → later s u };

    ghost same_over: { (s t : Self) (p : Publication) → later s t → over s p → over t p };
}
