//! Laws of limits. There is nothing to do when they run.

ghost use Rattle.std.specs.Prelude.{◌≡◌, ◌^◌};
ghost use Rattle.http_ranges.specs.declared.limits.TheConstants.{DEPTH_LIMIT, FIELD_LIMIT, FRONT_LEN, GAP_LIMIT, HEAD_LIMIT, INTERIM_LIMIT, PIECE_LIMIT, REQUESTS_LIMIT, SPAN_LIMIT, TRIES, WIRES};

/// A law: the limits of what is asked and taken, as numbers.
pub fn limits_law()
    // There are six connections at most.
    ensures wires { WIRES ≡ 6 }
    // Over each of them 128 requests, of 16,384 bytes together, are sent at most before the first answer is read.
    ensures depth { DEPTH_LIMIT ≡ 128 }
    ensures requests { REQUESTS_LIMIT ≡ 2 ^ 14 }
    // The first request is for 65,536 bytes.
    ensures front { FRONT_LEN ≡ 2 ^ 16 }
    // Places are asked for together over gaps of 4,096 bytes at most, as long as the range has 262,144 bytes at most,
    ensures gap { GAP_LIMIT ≡ 2 ^ 12 }
    ensures span { SPAN_LIMIT ≡ 2 ^ 18 }
    // and three times at most.
    ensures tries { TRIES ≡ 3 }
    // The head of a response has 8,192 bytes and 64 fields at most, and four interim responses may come before it.
    ensures head { HEAD_LIMIT ≡ 2 ^ 13 }
    ensures fields { FIELD_LIMIT ≡ 64 }
    ensures interim { INTERIM_LIMIT ≡ 4 }
    // A read gives 65,536 bytes at most.
    ensures piece { PIECE_LIMIT ≡ 2 ^ 16 }
{}
