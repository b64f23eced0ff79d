//! Codes: what an object may hold.

use crate::explanation::Explanation;

/// What an object may hold.
pub(crate) const MODEL: [Explanation; 9] = [
    Explanation {
        code: "M1",
        meaning: "a number without any text",
        place: "in a line of OPL it is O9",
        advice: "Give the number, or leave the whole field out.",
    },
    Explanation {
        code: "M2",
        meaning: "a text that isn't a decimal number",
        place: "in a line of OPL it is O6",
        advice: "Write an optional `-`, digits, and optionally a point and more digits: 13.4, -0.5.",
    },
    Explanation {
        code: "M3",
        meaning: "degrees with more than seven decimals",
        place: "in a line of OPL it is O6",
        advice: "Round to seven decimals, the precision of OpenStreetMap.",
    },
    Explanation {
        code: "M4",
        meaning: "degrees outside the range of their axis",
        place: "in a line of OPL it is O13, in a query Q10",
        advice: "Longitudes go from -180 to 180, latitudes from -90 to 90. Are the two swapped?",
    },
    Explanation {
        code: "M5",
        meaning: "a box whose south is above its north",
        place: "in a query it is Q10",
        advice: "A box is (south,west,north,east), in this order.",
    },
    Explanation {
        code: "M6",
        meaning: "two objects of one kind with the same id in a set",
        place: "in a file it is O13",
        advice: "Keep one of them: a set has one version of an object.",
    },
    Explanation {
        code: "M7",
        meaning: "two tags with the same key in one object",
        place: "in a line of OPL it is O13",
        advice: "Keep one of them.",
    },
    Explanation {
        code: "M8",
        meaning: "a text, a list or a line over its limit",
        place: "in a line of OPL it is O13",
        advice: "Texts have at most 4,096 bytes, lists 65,535 items, an object's canonical line 2^24 bytes.",
    },
    Explanation {
        code: "M9",
        meaning: "a NUL character in a text",
        place: "it can't come from a file",
        advice: "Take it out of the text.",
    },
];
