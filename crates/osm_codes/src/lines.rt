//! Codes: lines that are no codes.

use crate::explanation::Explanation;

/// Lines that are no codes.
pub(crate) const LINES: [Explanation; 7] = [
    Explanation {
        code: "bad root",
        meaning: "ROOT isn't 64 hexadecimal digits",
        place: "standard error, status 2",
        advice: "Copy the whole root from the publisher: 64 digits 0 to 9 and a to f.",
    },
    Explanation {
        code: "bad form",
        meaning: "the word after --form is none of opl, json and xml",
        place: "standard error, status 2",
        advice: "Leave --form out for OPL, or give opl, json or xml, in lower case.",
    },
    Explanation {
        code: "bad edition",
        meaning: "the word after --edition is neither 1 nor 2, or it is 1 together with --changes",
        place: "standard error, status 2",
        advice: "Leave --edition out, or give 2.",
    },
    Explanation {
        code: "no memory",
        meaning: "an allocation was refused",
        place: "standard error, status 3",
        advice: "Give the program more memory: some five times the size of the OPL file while it builds.",
    },
    Explanation {
        code: "too large",
        meaning: "the answer or the proof to check has more bytes than --max-size allows, or a pack would have more than 2^48",
        place: "standard error, status 3",
        advice: "Nothing was checked or written. If an answer may be that large, give a greater --max-size.",
    },
    Explanation {
        code: "no work",
        meaning: "the query takes more work than --max-work allows",
        place: "standard error, status 3",
        advice: "Nothing was decided. If a query may take that much, give a greater --max-work.",
    },
    Explanation {
        code: "device",
        meaning: "a file or a port can't be used, or reading or writing failed",
        place: "standard error, status 3",
        advice: "Is there such a file, may it be read or written, is the disk full, is the port taken?",
    },
];
