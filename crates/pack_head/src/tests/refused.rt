//! Texts that are no head's, and their first wrong lines.

use super::read::TOWN;
use crate::{HeadFault, read_head};
use std::alloc::{AllocError, Global};
use std::test::Fail;

/// Right lines, each in its place.
const RIGHT: [&str; 6] = [
    "osm_mirror head 1",
    "root 61ff9625d85d5300d6770161600478b84dcd5a866e3afedd315066fa05670cef",
    "sequence 7",
    "manifest 281474976710716 193",
    "file 419 town.pack",
    "file 312 town.pack.1",
];

/// Wrong lines, each after its number.
const WRONG: [(usize, &str); 36] = [
    (1, ""),
    (1, "osm_mirror head 2"),
    (1, "osm_mirror head 1 "),
    (1, "osm_mirror head 1\r"),
    (
        2,
        "root 61FF9625d85d5300d6770161600478b84dcd5a866e3afedd315066fa05670cef",
    ),
    (
        2,
        "root 61ff9625d85d5300d6770161600478b84dcd5a866e3afedd315066fa05670ce",
    ),
    (
        2,
        "root 61ff9625d85d5300d6770161600478b84dcd5a866e3afedd315066fa05670c",
    ),
    (
        2,
        "root 61ff9625d85d5300d6770161600478b84dcd5a866e3afedd315066fa05670cef0",
    ),
    (
        2,
        "root  61ff9625d85d5300d6770161600478b84dcd5a866e3afedd315066fa05670ce",
    ),
    (
        2,
        "root 61ff9625d85d5300d6770161600478b84dcd5a866e3afedd315066fa05670cef\r",
    ),
    (2, "sequence 7"),
    (3, "sequence 07"),
    (3, "sequence 18446744073709551616"),
    (3, "sequence "),
    (3, "sequence +7"),
    (3, "sequence -7"),
    (3, "sequence  7"),
    (3, "sequence 7\r"),
    (3, "Sequence 7"),
    (4, "manifest 18446744073709551616 193"),
    (4, "manifest 281474976710716 4294967296"),
    (4, "manifest 281474976710716"),
    (4, "manifest 281474976710716  193"),
    (4, "manifest 281474976710716 0193"),
    (4, "manifest 00 193"),
    (5, "file 281474976710657 town.pack"),
    (5, "file 0419 town.pack"),
    (5, "file 419 town/pack"),
    (5, "file 419 .."),
    (5, "file 419 "),
    (5, "file 419"),
    (5, "file 419  town.pack"),
    (5, "file  419 town.pack"),
    (5, ""),
    (6, "file 312 town.pack.1\r"),
    (6, "more"),
];

/// Other right lines, each after its number.
const RIGHT_TOO: [(usize, &str); 6] = [
    (3, "sequence 0"),
    (3, "sequence 18446744073709551615"),
    (4, "manifest 0 0"),
    (4, "manifest 18446744073709551615 4294967295"),
    (5, "file 0 a"),
    (5, "file 281474976710656 town.pack"),
];

/// How many bytes are left of the worked head, and which line of them is wrong, if any is.
const CUTS: [(usize, usize); 15] = [
    (0, 1),
    (1, 1),
    (17, 2),
    (18, 2),
    (86, 2),
    (87, 3),
    (88, 3),
    (99, 4),
    (128, 5),
    (146, 6),
    (147, 0),
    (148, 6),
    (166, 7),
    (167, 7),
    (168, 0),
];

/// What comes after the worked head, and which line is wrong then.
const MORE: [(&str, usize); 4] = [("\n", 7), ("file 1 a", 8), ("more\n", 7), ("\r", 7)];

/// The text of the right lines, of which the one with this number is another one.
fn with_line(alloc: Global, number: usize, other: &str) -> Result<Vec<u8>, AllocError> {
    let mut text = Vec::new(alloc);
    for (before, line) in RIGHT.iter().enumerate() {
        let chosen = if before + 1 == number { other } else { *line };
        text.extend_from_slice(chosen.as_bytes())?;
        text.push(b'\n')?;
    }
    Ok(text)
}

/// The number of the first wrong line of a text; 0 where it is a head's.
fn wrong_line(alloc: Global, text: &[u8]) -> Result<usize, HeadFault> {
    match read_head(alloc, text) {
        Ok(_) => Ok(0),
        Err(HeadFault::Line(number)) => Ok(number as usize),
        Err(fault) => Err(fault),
    }
}

/// The number of the first wrong line of the right lines, of which the one with this number is another one.
fn wrong_with(alloc: Global, number: usize, other: &str) -> Result<usize, HeadFault> {
    let text = with_line(alloc, number, other)?;
    wrong_line(alloc, &text)
}

#[test]
fn wrong_lines(rt: HostRuntime) -> Result<(), Fail> {
    for (number, line) in WRONG {
        assert!(rt; wrong_with(rt.alloc(), number, line)? == number, "{line}");
    }
    Ok(())
}

#[test]
fn right_lines(rt: HostRuntime) -> Result<(), Fail> {
    for (number, line) in RIGHT_TOO {
        assert!(rt; wrong_with(rt.alloc(), number, line)? == 0, "{line}");
    }
    Ok(())
}

/// The line of a file whose name has so many bytes.
fn long_name(alloc: Global, len: usize) -> Result<String, AllocError> {
    let mut line = String::new(alloc);
    line.push_str("file 0 ")?;
    for _ in 0..len {
        line.push('n')?;
    }
    Ok(line)
}

#[test]
fn long_names(rt: HostRuntime) -> Result<(), Fail> {
    for (len, wrong) in [(255, 0), (256, 5)] {
        let line = long_name(rt.alloc(), len)?;
        assert!(rt; wrong_with(rt.alloc(), 5, line.as_str())? == wrong);
    }
    Ok(())
}

#[test]
fn what_is_left_of_a_head(rt: HostRuntime) -> Result<(), Fail> {
    for (len, wrong) in CUTS {
        let text = TOWN.get(..len).unwrap_or(b"");
        assert!(rt; wrong_line(rt.alloc(), text)? == wrong, "{len}");
    }
    Ok(())
}

#[test]
fn what_comes_after_a_head(rt: HostRuntime) -> Result<(), Fail> {
    for (more, wrong) in MORE {
        let mut text = TOWN.to_vec(rt.alloc())?;
        text.extend_from_slice(more.as_bytes())?;
        assert!(rt; wrong_line(rt.alloc(), &text)? == wrong, "{more}");
    }
    Ok(())
}
