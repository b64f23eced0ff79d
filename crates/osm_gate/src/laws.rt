//! Laws of connections, and of their limits.

ghost use Rattle.std.specs.Prelude.{◌≡◌, ◌++◌, ◌∷◌, ◌+◌, ◌*◌, ◌^◌, ◌<◌, ℕ, List, Option, [], length, true};
ghost use Rattle.osm_keys.specs.Publications.{IsPublication, Publication};
ghost use Rattle.osm_gate.specs.Connections.{Responds, RespondsWithin, Rest, closed_rest, requests_in, requests_next, joined_requests};
ghost use Rattle.http_messages.specs.Requests.{Request};
ghost use Rattle.http_messages.specs.declared.limits.TheConstants.{BODY_LIMIT, HEAD_LIMIT};
ghost use Rattle.osm_gate.specs.declared.limits.TheConstants.{LARGE_ANSWER, PIECE_LIMIT, READ_LIMIT};
ghost use Rattle.osm_gate.specs.Pieces.{CompletesOne, IsCut};
ghost use Rattle.osm_gate.specs.Serving.{longest_piece, most_reads};

/// A law: some bytes and then others ask what the first ask, and then what is left of them and the others ask. So
/// pieces may be cut anywhere.
pub fn pieces_ask_the_same()
    ensures { (a b : List ℕ) → requests_in (a ++ b)
        ≡ joined_requests (requests_in a).complete (requests_next (requests_in a).rest b) }
{}

/// A law: after the end of a connection no bytes ask anything, and nothing is left of them.
pub fn nothing_after_the_end()
    ensures { (rest : Rest) (piece : List ℕ) → rest.is_closed ≡ true
        → ((requests_next rest piece).complete ≡ [])
        × ((requests_next rest piece).rest ≡ closed_rest) }
{}

/// A law: a piece completes one request at most, if no empty line ends in what was left and in the piece but at their end;
pub fn pieces_complete_one()
    ensures cut { (rest : Rest) (piece : List ℕ) → IsCut (rest.bytes ++ piece) → CompletesOne rest piece }
    // and so does a byte more than a piece that completes none.
    ensures more { (rest : Rest) (piece : List ℕ) (byte : ℕ) → (requests_next rest piece).complete ≡ []
        → CompletesOne rest (piece ++ byte ∷ []) }
{}

/// A law: what responds to some requests and then to others is what responds to the first, and then what responds
/// to the others.
pub fn responses_stand_in_order()
    ensures { (p : Publication) (first second : List Request) (text : List ℕ)
        → Responds p (first ++ second) text
        → (a : List ℕ) × (b : List ℕ) × Responds p first a × Responds p second b × (text ≡ a ++ b) }
{}

/// A law: requests have one text of responses at most over a publication.
pub fn one_response()
    ensures { (p : Publication) (requests : List Request) (first second : List ℕ) → IsPublication p
        → Responds p requests first → Responds p requests second → first ≡ second }
{}

/// A law: the same with a budget for each query, so all mirrors of a set that have the same budget give the same
/// responses.
pub fn one_response_within()
    ensures { (most : Option ℕ) (p : Publication) (requests : List Request) (first second : List ℕ)
        → IsPublication p → RespondsWithin most p requests first
        → RespondsWithin most p requests second → first ≡ second }
{}

/// A law: what is left of a connection is shorter than the longest head and the longest body together.
pub fn rests_are_short()
    ensures { (bytes : List ℕ) → length (requests_in bytes).rest.bytes < HEAD_LIMIT + BODY_LIMIT }
{}

/// A law: the limits of a connection, as numbers: the bytes of a piece, the reads, and the bytes of an answer that is
/// still copied.
pub fn limits_law()
    ensures pieces { (PIECE_LIMIT ≡ 8192) × (longest_piece ≡ 8192) }
    ensures reads { (READ_LIMIT ≡ 2 ^ 20) × (most_reads ≡ 2 ^ 20) }
    ensures copies { LARGE_ANSWER ≡ 64 * 2 ^ 20 }
{}
