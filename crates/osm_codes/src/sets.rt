//! Codes: why a set or its changes are refused.

use crate::explanation::Explanation;

/// Why a set or its changes are refused.
pub(crate) const SETS: [Explanation; 6] = [
    Explanation {
        code: "I1",
        meaning: "two different nodes of the set's trees share a SHA-256 digest",
        place: "nothing else",
        advice: "A SHA-256 collision: please report it.",
    },
    Explanation {
        code: "I2",
        meaning: "a change deletes an object that isn't there",
        place: "the object, as I2 w10",
        advice: "The change file was made for another set or another sequence number.",
    },
    Explanation {
        code: "I3",
        meaning: "two changes of one object in one change file",
        place: "the object, as I3 n5",
        advice: "Keep the last of them: a change file names an object once.",
    },
    Explanation {
        code: "I4",
        meaning: "a tree of the set would have more than 2^29 entries",
        place: "nothing else",
        advice: "Publish the data in parts, as regions.",
    },
    Explanation {
        code: "I5",
        meaning: "no sequence number comes after that of the set: it is 2^64 - 1, or the set is of edition 1, which has none",
        place: "nothing else, and only by changes: serve looks for no change file then",
        advice: "Serve the set in edition 2, from a smaller sequence number on.",
    },
    Explanation {
        code: "I6",
        meaning: "a change file gives another root than the one that its last line announces, or announces none where it has to",
        place: "nothing else; by serve, which goes on with the old set",
        advice: "Fetch the file again. If it stays the same, it was made for another set or another sequence number, or it doesn't end with its root: the publisher makes it anew by changes FILE SEQUENCE CHANGEFILE.",
    },
];
