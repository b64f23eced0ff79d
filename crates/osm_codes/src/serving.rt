//! Codes: how a connection of a server ended badly, and what a desk refuses.

use crate::explanation::Explanation;

/// How a connection of a server ended badly, and what a desk refuses. `serve` prints G1 to G3 and goes on.
pub(crate) const SERVING: [Explanation; 8] = [
    Explanation {
        code: "G1",
        meaning: "a connection broke while a request was read",
        place: "nothing else, by serve, which goes on",
        advice: "The client went away, or was silent too long.",
    },
    Explanation {
        code: "G2",
        meaning: "a connection broke while an answer was written",
        place: "nothing else, by serve, which goes on",
        advice: "The client went away, or took nothing for too long.",
    },
    Explanation {
        code: "G3",
        meaning: "memory ran out for a request",
        place: "nothing else, by serve, which goes on",
        advice: "The client was told with status 503. Give the mirror more memory, or run more mirrors.",
    },
    Explanation {
        code: "G4",
        meaning: "2^20 reads of a connection found no end",
        place: "never printed: serve doesn't count the reads of a connection",
        advice: "The client opens a new connection and goes on.",
    },
    Explanation {
        code: "D1",
        meaning: "a connection's number is open already",
        place: "never printed",
        advice: "It can't come from a client.",
    },
    Explanation {
        code: "D2",
        meaning: "a connection's number isn't open",
        place: "never printed",
        advice: "It can't come from a client.",
    },
    Explanation {
        code: "D3",
        meaning: "64 connections are open",
        place: "never printed",
        advice: "The next one waits.",
    },
    Explanation {
        code: "D4",
        meaning: "a change file is refused",
        place: "printed as its I code",
        advice: "Explain that code.",
    },
];
