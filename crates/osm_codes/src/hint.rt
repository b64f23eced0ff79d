//! What a refused input looks like, in words.

/// How something begins, and what that tells.
struct Hint {
    /// Its first bytes.
    front: &'static [u8],
    /// What they tell.
    text: &'static str,
}

/// Files that are no OPL, by their first bytes.
const FILES: [Hint; 9] = [
    Hint {
        front: b"\x1f\x8b",
        text: "a gzip file: unpack it with gunzip, and if it isn't OPL then, osmium cat -f opl turns it into OPL",
    },
    Hint {
        front: b"BZh",
        text: "a bzip2 file: osmium cat -f opl turns an .osm.bz2 into OPL",
    },
    Hint {
        front: b"\xfd7zXZ",
        text: "an xz file: unpack it first",
    },
    Hint {
        front: b"PK\x03\x04",
        text: "a zip file: unpack it first",
    },
    Hint {
        front: b"\x28\xb5\x2f\xfd",
        text: "a zstd file: unpack it first",
    },
    Hint {
        front: b"<",
        text: "XML and not OPL: osmium cat -f opl turns it into OPL",
    },
    Hint {
        front: b"{",
        text: "JSON and not OPL: ask for XML or PBF, which osmium cat -f opl turns into OPL",
    },
    Hint {
        front: b"\xef\xbb\xbf",
        text: "a byte order mark comes before the first line: save the file without it",
    },
    Hint {
        front: b"PGDMP",
        text: "a dump of a database and not OPL",
    },
];

/// What stands in a `.pbf` file after the four bytes that tell its first length.
const PBF: &[u8] = b"\x0a\x09OSMHeader";

/// What a file is that isn't OPL, by its first bytes: fifteen of them tell each kind that is known.
pub fn file_hint(front: &[u8]) -> Option<&'static str> {
    if front.len() >= 4 && front[4..].starts_with(PBF) {
        return Some("a PBF file and not OPL: osmium cat -f opl turns it into OPL");
    }
    hint_of(&FILES, front)
}

/// What a query asks for that this server leaves out, or what stands there by mistake, by the bytes at the place of its
/// fault.
const QUERIES: [Hint; 20] = [
    Hint {
        front: b"{{",
        text: "a template of overpass turbo: put in numbers",
    },
    Hint {
        front: b"~",
        text: "regular expressions are left out: ask for the key, or for each value by itself in a union",
    },
    Hint {
        front: b"!~",
        text: "regular expressions are left out: ask for the key, or for each value by itself in a union",
    },
    Hint {
        front: b"around",
        text: "distances are left out: ask for a box",
    },
    Hint {
        front: b"poly",
        text: "polygons are left out: ask for a box",
    },
    Hint {
        front: b"area",
        text: "areas are left out: ask for a box, or for a relation's members with (r)",
    },
    Hint {
        front: b"is_in",
        text: "areas are left out",
    },
    Hint {
        front: b"foreach",
        text: "loops are left out: ask for the whole set",
    },
    Hint {
        front: b"for",
        text: "loops are left out: ask for the whole set",
    },
    Hint {
        front: b"if",
        text: "evaluators are left out",
    },
    Hint {
        front: b"count",
        text: "out count is left out: out ids and count the lines",
    },
    Hint {
        front: b"geom",
        text: "out geom is left out: add the nodes with (._;>;); and print them",
    },
    Hint {
        front: b"center",
        text: "out center is left out: add the nodes with (._;>;); and print them",
    },
    Hint {
        front: b"bb",
        text: "bounding boxes are left out: put the box into the statement for nodes",
    },
    Hint {
        front: b"date",
        text: "past states are left out: ask under a root of that time",
    },
    Hint {
        front: b"changed",
        text: "filters by time are left out",
    },
    Hint {
        front: b"newer",
        text: "filters by time are left out",
    },
    Hint {
        front: b"user",
        text: "filters by user are left out",
    },
    Hint {
        front: b"uid",
        text: "filters by user are left out",
    },
    Hint {
        front: b"csv",
        text: "CSV is left out",
    },
];

/// The hint at a number where no box may stand.
const BOX: &str =
    "boxes on ways and relations are left out: ask for the nodes in the box, and go up with <";

/// What a refused query asks for: by the code of its fault, and what stands from the place of the fault on.
pub fn query_hint(code: &str, rest: &[u8]) -> Option<&'static str> {
    match (code, rest.first()) {
        ("Q7", Some(b'0'..=b'9' | b'-')) => Some(BOX),
        ("Q2" | "Q5" | "Q7", Some(_)) => hint_of(&QUERIES, rest),
        _ => None,
    }
}

/// The text of the first hint with whose bytes this begins.
fn hint_of(hints: &[Hint], bytes: &[u8]) -> Option<&'static str> {
    let hint = hints.iter().find(|hint| bytes.starts_with(hint.front))?;
    Some(hint.text)
}
