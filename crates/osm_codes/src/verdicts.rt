//! Codes: why an answer isn't accepted; `check` prints `no` and the code.

use crate::explanation::Explanation;

/// Why an answer isn't accepted; `check` prints `no` and the code.
pub(crate) const VERDICTS: [Explanation; 9] = [
    Explanation {
        code: "C1",
        meaning: "the query doesn't read",
        place: "the query's own code and byte, as no C1 Q7 5",
        advice: "Explain the code after it.",
    },
    Explanation {
        code: "C2",
        meaning: "the proof doesn't have the form of a proof",
        place: "nothing else",
        advice: "Is it the proof's file, and was it fetched whole?",
    },
    Explanation {
        code: "C3",
        meaning: "the digests of the proof's nodes don't rise",
        place: "nothing else",
        advice: "The proof was changed, or written by another program.",
    },
    Explanation {
        code: "C4",
        meaning: "a node that the query needs isn't in the proof",
        place: "nothing else",
        advice: "The mirror answers under another root than yours, or it left something out. Ask it for /api/root, and the publisher for the newest root.",
    },
    Explanation {
        code: "C5",
        meaning: "a node or the manifest is malformed",
        place: "nothing else",
        advice: "The proof was made up, or the root isn't of an honestly built set.",
    },
    Explanation {
        code: "C6",
        meaning: "the proof's nodes disagree with each other",
        place: "nothing else",
        advice: "The proof was made up, or the root isn't of an honestly built set.",
    },
    Explanation {
        code: "C7",
        meaning: "entries of the trees disagree with each other",
        place: "nothing else",
        advice: "The root isn't of an honestly built set.",
    },
    Explanation {
        code: "C8",
        meaning: "a node of the proof isn't needed",
        place: "nothing else",
        advice: "The proof belongs to another query, or something was added.",
    },
    Explanation {
        code: "C9",
        meaning: "the answer differs from what the proof shows",
        place: "the first byte that differs, as no C9 19",
        advice: "The answer was changed. Ask another mirror.",
    },
];
