//! Codes: why a query is refused.

use crate::explanation::Explanation;

/// Why a query is refused.
pub(crate) const QUERY: [Explanation; 11] = [
    Explanation {
        code: "Q1",
        meaning: "the query isn't UTF-8",
        place: "byte",
        advice: "Send the query as UTF-8.",
    },
    Explanation {
        code: "Q2",
        meaning: "a character that can't come here",
        place: "byte",
        advice: "Compare what stands before it with the grammar. {{bbox}} and other templates of overpass turbo have to be replaced by their values.",
    },
    Explanation {
        code: "Q3",
        meaning: "a text or a comment that isn't closed",
        place: "byte where it begins",
        advice: "Close it with the quote that opened it, or with */.",
    },
    Explanation {
        code: "Q4",
        meaning: "a backslash that begins no escape",
        place: "byte of the backslash",
        advice: "Inside a text the escapes are \\\\ \\\" \\' \\n \\t and \\uXXXX.",
    },
    Explanation {
        code: "Q5",
        meaning: "a word that can't come here",
        place: "byte of the word",
        advice: "Statements are node, way, rel, nwr, out, recursions, unions and differences; keys with other characters than letters, digits and _ need quotes.",
    },
    Explanation {
        code: "Q6",
        meaning: "a number out of range, or with a point where none may be",
        place: "byte of the number",
        advice: "Ids and limits are whole numbers of 64 bits.",
    },
    Explanation {
        code: "Q7",
        meaning: "a part of Overpass QL that this server leaves out",
        place: "byte",
        advice: "Left out are regular expressions, around, areas, foreach, evaluators, out count, geom, center and bb, and boxes on ways and relations. Ask for the nodes in the box and go up: node(..);<;",
    },
    Explanation {
        code: "Q8",
        meaning: "unions and differences nested more than 32 deep",
        place: "byte of the 33rd (",
        advice: "Write the inner ones as statements of their own, with -> and the name of a set.",
    },
    Explanation {
        code: "Q9",
        meaning: "the query has more than 65,536 bytes",
        place: "byte 65536",
        advice: "Split it into several queries.",
    },
    Explanation {
        code: "Q10",
        meaning: "a box that isn't valid",
        place: "byte of its first number",
        advice: "A box is (south,west,north,east): latitudes from -90 to 90, longitudes from -180 to 180, south not above north.",
    },
    Explanation {
        code: "Q11",
        meaning: "the query ends too early",
        place: "its length",
        advice: "A statement ends with ;. Is a bracket or the last ; missing?",
    },
];
