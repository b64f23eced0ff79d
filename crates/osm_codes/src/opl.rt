//! Codes: why an OPL file is refused.

use crate::explanation::Explanation;

/// Why an OPL file is refused.
pub(crate) const OPL: [Explanation; 15] = [
    Explanation {
        code: "O1",
        meaning: "the line begins with no object's letter",
        place: "line, byte 0",
        advice: "A line begins with n, w or r and an id. Is the file OPL at all? osmium cat -f opl turns PBF and XML into it.",
    },
    Explanation {
        code: "O2",
        meaning: "the object's id is missing or out of range",
        place: "line, byte 1",
        advice: "An id is a whole number of 64 bits right after the object's letter: n17, w-3.",
    },
    Explanation {
        code: "O3",
        meaning: "a field begins with a letter that no field has",
        place: "line, byte of the field",
        advice: "Fields are parted by blanks. A blank inside a text is written %20%.",
    },
    Explanation {
        code: "O4",
        meaning: "a field stands twice in a line",
        place: "line, byte of the second one",
        advice: "Keep one of them.",
    },
    Explanation {
        code: "O5",
        meaning: "a field of another kind of object",
        place: "line, byte of the field",
        advice: "x and y belong to nodes, N to ways, M to relations.",
    },
    Explanation {
        code: "O6",
        meaning: "a value that its field doesn't allow",
        place: "line, byte of the field",
        advice: "Look at the field's form: v, c and i are whole numbers, t a time as 2020-01-02T03:04:05Z, x and y degrees, T tags as key=value.",
    },
    Explanation {
        code: "O7",
        meaning: "a % that begins no escape",
        place: "line, byte of the %",
        advice: "An escape is %, one to eight hexadecimal digits and %. A % itself is written %25%.",
    },
    Explanation {
        code: "O8",
        meaning: "a byte that isn't UTF-8",
        place: "line, its byte",
        advice: "Convert the file to UTF-8.",
    },
    Explanation {
        code: "O9",
        meaning: "a node without a location",
        place: "line, its length",
        advice: "A node needs both x and y. An extract with its locations left out can't be published.",
    },
    Explanation {
        code: "O10",
        meaning: "a deleted object in a file of a set",
        place: "line, byte 0",
        advice: "Deletions (dD) belong into change files. osmium cat of a history file isn't a set: filter it by time first.",
    },
    Explanation {
        code: "O11",
        meaning: "a location inside the list of a way's nodes",
        place: "line, byte of the field",
        advice: "The file was written with locations_on_ways. Write it anew without that option.",
    },
    Explanation {
        code: "O12",
        meaning: "a line of more than 33,554,432 bytes",
        place: "line, byte 33554432",
        advice: "No object is that long: does the file have line ends?",
    },
    Explanation {
        code: "O13",
        meaning: "a value, or an object, over a limit; a key twice; an object twice",
        place: "line, byte of the field, or 0 for the whole line",
        advice: "Degrees out of range, a text over 4,096 bytes, a list over 65,535 items, two tags with one key, or an object that an earlier line holds.",
    },
    Explanation {
        code: "O14",
        meaning: "the file couldn't be read",
        place: "printed as `device`",
        advice: "See `osm_mirror explain device`.",
    },
    Explanation {
        code: "O15",
        meaning: "2^32 reads of a file found no end",
        place: "line, byte 0; nothing for a query, an answer or a proof",
        advice: "The input never ends: is it a device in place of a file?",
    },
];
