//! Codes: what is wrong with nodes of trees. The program prints E1 to E4 alone, by `query`.

use crate::explanation::Explanation;

/// What is wrong with nodes of trees. The program prints E1 to E4 alone, by `query`.
pub(crate) const TREES: [Explanation; 17] = [
    Explanation {
        code: "N1",
        meaning: "a node is cut short",
        place: "in a proof it makes a check say C5",
        advice: "The proof was damaged or made up.",
    },
    Explanation {
        code: "N2",
        meaning: "bytes follow a node",
        place: "in a proof it makes a check say C5",
        advice: "The proof was damaged or made up.",
    },
    Explanation {
        code: "N3",
        meaning: "a node has a bad number of items or entries",
        place: "in a proof it makes a check say C5",
        advice: "The proof was damaged or made up.",
    },
    Explanation {
        code: "N4",
        meaning: "the keys of a node don't rise",
        place: "in a proof it makes a check say C5",
        advice: "The proof was damaged or made up.",
    },
    Explanation {
        code: "N5",
        meaning: "a node has a bad tree number or level",
        place: "in a proof it makes a check say C5",
        advice: "The proof was damaged or made up.",
    },
    Explanation {
        code: "N6",
        meaning: "another node has this digest",
        place: "of a set it is I1",
        advice: "A SHA-256 collision: please report it.",
    },
    Explanation {
        code: "N7",
        meaning: "no node with this digest is held",
        place: "in a check it is C4",
        advice: "The proof lacks a node.",
    },
    Explanation {
        code: "V1",
        meaning: "a walk needs a node that isn't there",
        place: "in a check it is C4",
        advice: "The proof lacks a node.",
    },
    Explanation {
        code: "V2",
        meaning: "a node isn't of a node's form",
        place: "in a check it is C5",
        advice: "The proof was damaged or made up.",
    },
    Explanation {
        code: "V3",
        meaning: "a node is of another tree or level than its parent says",
        place: "in a check it is C6",
        advice: "The proof was made up.",
    },
    Explanation {
        code: "V4",
        meaning: "a node isn't as its parent states",
        place: "in a check it is C6",
        advice: "The proof was made up.",
    },
    Explanation {
        code: "E1",
        meaning: "a walk over a tree was refused",
        place: "nothing else, by query; in a check it is C4, C5 or C6",
        advice: "Of query: the root isn't of an honestly built set. Of a check: the proof lacks a node, or was made up.",
    },
    Explanation {
        code: "E2",
        meaning: "an entry isn't of the form of its tree's entries",
        place: "nothing else, by query; in a check it is C7",
        advice: "The root isn't of an honestly built set.",
    },
    Explanation {
        code: "E3",
        meaning: "an index names an object that isn't there",
        place: "nothing else, by query; in a check it is C7",
        advice: "The root isn't of an honestly built set.",
    },
    Explanation {
        code: "E4",
        meaning: "the manifest is missing or malformed",
        place: "nothing else, by query; in a check it is C4 or C5",
        advice: "Of query: the root isn't that of a set. Of a check: the proof isn't under this root.",
    },
    Explanation {
        code: "P1",
        meaning: "the bytes don't have the form of a proof",
        place: "in a check it is C2",
        advice: "Is it the proof's file, and whole?",
    },
    Explanation {
        code: "P2",
        meaning: "the digests of a proof's nodes don't rise",
        place: "in a check it is C3",
        advice: "The proof was changed.",
    },
];
