//! Texts, codes, degrees and moments. Rows of degrees and moments are read by the program, in tests/system.

use super::made::text;
use byte_io::digits_len;
use osm_model::{
    Axis, ModelFault, Stamp, Text, hex_places, is_literal, read_degrees, write_degrees,
};
use std::alloc::AllocError;
use std::process::Abort;
use std::test::Fail;

/// Under refused allocations: the whole text, or out of memory.
#[test]
fn texts_are_copied_within_memory(rt: HostRuntime) -> Result<(), Fail> {
    for content in ["", "motorway", "motorway_junction"] {
        if let Ok(copy) = Text::from_str(rt.alloc(), content) {
            assert_eq!(rt; copy.as_str(), content);
        }
        let copy = text(rt.alloc(), content)?;
        assert_eq!(rt; copy.as_str(), content);
    }
    Ok(())
}

const CODES: [(ModelFault, &str); 9] = [
    (ModelFault::EmptyNumber, "M1"),
    (ModelFault::NotDecimal, "M2"),
    (ModelFault::TooManyDecimals, "M3"),
    (ModelFault::OutOfRange, "M4"),
    (ModelFault::SouthAboveNorth, "M5"),
    (ModelFault::ObjectTwice, "M6"),
    (ModelFault::KeyTwice, "M7"),
    (ModelFault::LimitPassed, "M8"),
    (ModelFault::NulInText, "M9"),
];

#[test]
fn faults_print_their_codes(rt: HostRuntime) -> Result<(), AllocError> {
    for (fault, code) in &CODES {
        assert_eq!(rt; fault.to_string(rt.alloc())?.as_str(), *code);
    }
    Ok(())
}

/// The least degree that isn't 0, and one that no axis has.
#[test]
fn degrees_are_read_and_written(rt: HostRuntime) {
    assert!(rt; read_degrees(b"-0.0000001", Axis::Lon) == Ok(-1));
    assert!(rt; read_degrees(b"999.12345678", Axis::Lon) == Err(ModelFault::TooManyDecimals));
    assert!(rt; write_degrees(-1).as_bytes() == b"-0.0000001".as_slice());
    assert!(rt; write_degrees(i32::MIN).as_bytes() == b"-214.7483648".as_slice());
}

#[test]
fn moments_keep_their_ranges(rt: HostRuntime) -> Result<(), Fail> {
    let moment = Stamp::new(2020, 2, 31, 23, 59, 60).ok_or("a moment was expected")?;
    assert!(rt; moment.year() == 2020 && moment.month() == 2 && moment.day() == 31);
    assert!(rt; moment.hour() == 23 && moment.minute() == 59 && moment.second() == 60);
    assert!(rt; Stamp::new(2020, 13, 1, 0, 0, 0).is_none());
    assert!(rt; Stamp::new(2020, 2, 31, 23, 59, 60) == Some(moment));
    Ok(())
}

/// The three texts are `Zug`, `Zug` and `a`.
fn are_ordered(rt: &impl Abort, short: &Text, same: &Text, later: &Text) {
    assert!(rt; short.as_str() == "Zug" && short.len() == 3);
    assert!(rt; short == same && short < later);
}

#[test]
fn texts_are_ordered_by_bytes(rt: HostRuntime) -> Result<(), Fail> {
    let alloc = rt.alloc();
    let short = text(alloc, "Zug")?;
    let same = text(alloc, "Zug")?;
    let later = text(alloc, "a")?;
    are_ordered(&rt, &short, &same, &later);
    Ok(())
}

#[test]
fn characters_are_told_apart(rt: HostRuntime) {
    assert!(rt; digits_len(b"0129.5") == 4);
    assert!(rt; is_literal(0x7e) && !is_literal(0x25) && !is_literal(0xe9));
    assert!(rt; hex_places(0xe9) == 2 && hex_places(0x1f600) == 5);
}
