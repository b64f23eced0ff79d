//! Rows of keys, values, manifests and ranges, reckoned by hand.

use light_keys::{
    FineCell, FineRanges, LightManifest, append_light_manifest, fine_cell_key, fine_cell_value,
    line_digest, line_value, read_fine_cell, read_light_manifest, read_line_value,
};
use opl_codec::{Change, read_line};
use osm_model::{Axis, BoxArea, Coord, Edge, ModelFault};
use std::process::Abort;
use std::test::Fail;
use tree_node::Digest;

/// The digests are those that `sha256sum` gives for the canonical lines, which `tests/vectors/lines.tsv` shows.
#[test]
fn lines_have_these_digests_also_where_memory_was_refused(rt: HostRuntime) -> Result<(), Fail> {
    let rows: [(&[u8], [u8; 32]); 2] = [
        // This line is canonical.
        (
            b"n1 v1 dV c5 t2020-01-02T03:04:05Z i7 uAnn Thighway=crossing x13.4 y52.5",
            *b"\x62\x1b\xbb\x2f\xb9\x32\xfd\xdd\x55\xfc\xd6\x27\xd5\x68\x93\x77\xbe\x62\x5b\x91\x21\x7f\x82\xf7\x9b\x33\x2f\x87\x6d\x4b\x5b\x46",
        ),
        // n2 v0 dV c0 t i0 u T x13.4000001 y52.5
        (
            b"n2 x13.4000001 y52.5",
            *b"\x70\x98\x81\xf6\x3d\x4a\x44\xf8\xb1\x71\xe6\x19\x53\x50\x82\xf7\x37\xeb\x64\xd3\x94\xc9\xba\xea\xd7\xf1\x72\x2c\x1e\xa2\xe8\x6c",
        ),
    ];
    for (line, digest) in rows {
        let Some(Change::Put(object)) = read_line(rt.alloc(), line)? else {
            return Err(Fail::from("the line puts no object"));
        };
        if let Ok(found) = line_digest(rt.alloc(), &object) {
            assert_eq!(rt; found, Digest(digest));
        }
        assert_eq!(rt; line_digest(rt.alloc(), &object)?, Digest(digest));
    }
    Ok(())
}

#[test]
fn values_of_lines_have_32_bytes(rt: HostRuntime) {
    let line = Digest([7; 32]);
    assert_eq!(rt; line_value(line), [7; 32]);
    assert_eq!(rt; read_line_value(&[7; 32]), Some(line));
    assert_eq!(rt; read_line_value(&[7; 31]), None);
    assert_eq!(rt; read_line_value(&[7; 33]), None);
}

/// Whether an entry is written so, and read again.
fn check_entry(rt: &impl Abort, cell: FineCell, key: &[u8], latitude: &[u8]) {
    let written = fine_cell_key(cell.place, cell.id);
    assert_eq!(rt; &written[..], key);
    let value = fine_cell_value(cell.place.lat(), &cell.line);
    assert_eq!(rt; &value[..4], latitude);
    assert_eq!(rt; &value[4..], &cell.line.0[..]);
    assert_eq!(rt; read_fine_cell(key, &value), Some(cell));
}

#[test]
fn fine_cells_have_these_keys_and_values(rt: HostRuntime) {
    let line = Digest([7; 32]);
    // The south pole at longitude -180, and the least id: nothing is below them. -900,000,000 is ca5b1700.
    let cell = FineCell {
        row: 0,
        place: Coord::new(-1_800_000_000, -900_000_000),
        id: i64::MIN,
        line,
    };
    check_entry(
        &rt,
        cell,
        b"\0\0\0\0\0\0\0\0\0\0\0\0\0\0",
        b"\xca\x5b\x17\0",
    );
    // The north pole at longitude 180, and the greatest id: 18000 is 4650, 3,600,000,000 is d693a400, 900,000,000 is
    // 35a4e900.
    let cell = FineCell {
        row: 18_000,
        place: Coord::new(1_800_000_000, 900_000_000),
        id: i64::MAX,
        line,
    };
    check_entry(
        &rt,
        cell,
        b"\x46\x50\xd6\x93\xa4\0\xff\xff\xff\xff\xff\xff\xff\xff",
        b"\x35\xa4\xe9\0",
    );
    // One unit southwest of 0, 0: 899,999,999 / 100,000 is 8999 and more, which is 2327; 1,799,999,999 is 6b49d1ff. The id
    // 1 is 2^63 + 1.
    let cell = FineCell {
        row: 8_999,
        place: Coord::new(-1, -1),
        id: 1,
        line,
    };
    check_entry(
        &rt,
        cell,
        b"\x23\x27\x6b\x49\xd1\xff\x80\0\0\0\0\0\0\x01",
        b"\xff\xff\xff\xff",
    );
}

#[test]
fn other_bytes_are_no_fine_cell(rt: HostRuntime) {
    let pole = b"\x46\x50\xd6\x93\xa4\0\x80\0\0\0\0\0\0\x01";
    let value = fine_cell_value(900_000_000, &Digest([7; 32]));
    // The row isn't compared with the latitude.
    let found = read_fine_cell(b"\0\0\xd6\x93\xa4\0\x80\0\0\0\0\0\0\x01", &value);
    assert_eq!(rt; found.map(|cell| cell.row), Some(0));
    assert!(rt; read_fine_cell(pole, &value).is_some());
    let keys: [&[u8]; 4] = [
        b"\x46\x50\xd6\x93\xa4\0\x80\0\0\0\0\0\0",
        b"\x46\x50\xd6\x93\xa4\0\x80\0\0\0\0\0\0\x01\0",
        // Row 18001, and a column more than the last.
        b"\x46\x51\xd6\x93\xa4\0\x80\0\0\0\0\0\0\x01",
        b"\x46\x50\xd6\x93\xa4\x01\x80\0\0\0\0\0\0\x01",
    ];
    for key in keys {
        assert_eq!(rt; read_fine_cell(key, &value), None);
    }
    // The latitude 117,901,063 (07070707) and a digest, and other lengths.
    assert!(rt; read_fine_cell(pole, &[7; 36]).is_some());
    assert_eq!(rt; read_fine_cell(pole, &[7; 35]), None);
    assert_eq!(rt; read_fine_cell(pole, &[7; 37]), None);
    assert_eq!(rt;
        read_fine_cell(pole, &fine_cell_value(900_000_001, &Digest([7; 32]))),
        None
    );
}

#[test]
fn manifests_have_141_bytes_also_where_memory_was_refused(rt: HostRuntime) -> Result<(), Fail> {
    let manifest = LightManifest {
        sequence: 258,
        tops: [
            Digest([1; 32]),
            Digest([2; 32]),
            Digest([3; 32]),
            Digest([4; 32]),
        ],
    };
    let mut bytes = Vec::new(rt.alloc());
    if append_light_manifest(&manifest, &mut bytes).is_err() {
        assert_eq!(rt; bytes.len(), 0);
        append_light_manifest(&manifest, &mut bytes)?;
    }
    assert_eq!(rt; bytes.len(), 141);
    assert_eq!(rt; &bytes[..13], &b"OSMM\x03\0\0\0\0\0\0\x01\x02"[..]);
    assert_eq!(rt; bytes[13], 1);
    assert_eq!(rt; bytes[140], 4);
    assert_eq!(rt; read_light_manifest(&bytes), Some(manifest));
    bytes[4] = 2;
    assert_eq!(rt; read_light_manifest(&bytes), None);
    bytes[4] = 3;
    bytes.pop();
    assert_eq!(rt; read_light_manifest(&bytes), None);
    Ok(())
}

/// The box of these edges: south, west, north, east.
fn box_of([south, west, north, east]: [&str; 4]) -> Result<BoxArea<'_>, ModelFault> {
    let south = Edge::read(south.as_bytes(), Axis::Lat)?;
    let west = Edge::read(west.as_bytes(), Axis::Lon)?;
    let north = Edge::read(north.as_bytes(), Axis::Lat)?;
    let east = Edge::read(east.as_bytes(), Axis::Lon)?;
    BoxArea::new(south, west, north, east)
}

/// Whether a box has these ranges and no others.
fn check_ranges(
    rt: &impl Abort,
    edges: [&str; 4],
    wanted: &[(&[u8], &[u8])],
) -> Result<(), ModelFault> {
    let mut found = FineRanges::of(&box_of(edges)?);
    for (lo, hi) in wanted {
        if let Some(range) = found.next() {
            let range = range.as_range();
            assert_eq!(rt; range.lo, *lo);
            assert_eq!(rt; range.hi, *hi);
            assert!(rt; range.under);
        } else {
            assert!(rt; false, "a range is missing");
        }
    }
    assert!(rt; found.next().is_none());
    Ok(())
}

#[test]
fn boxes_have_these_ranges(rt: HostRuntime) -> Result<(), Fail> {
    // From 899,950,000 / 100,000 to 900,050,000 / 100,000, which are rows 8999 (2327) and 9000 (2328), and from
    // 1,799,999,900 (6b49d19c) to 1,800,000,100 (6b49d264).
    check_ranges(
        &rt,
        ["-0.005", "-0.00001", "0.005", "0.00001"],
        &[
            (b"\x23\x27\x6b\x49\xd1\x9c", b"\x23\x27\x6b\x49\xd2\x64"),
            (b"\x23\x28\x6b\x49\xd1\x9c", b"\x23\x28\x6b\x49\xd2\x64"),
        ],
    )?;
    // Across the 180th meridian: from 3,599,999,999 (d693a3ff) to 3,600,000,000, and from 0 to 1.
    check_ranges(
        &rt,
        ["0", "179.9999999", "0", "-179.9999999"],
        &[
            (b"\x23\x28\xd6\x93\xa3\xff", b"\x23\x28\xd6\x93\xa4\0"),
            (b"\x23\x28\0\0\0\0", b"\x23\x28\0\0\0\x01"),
        ],
    )?;
    // Between two units.
    check_ranges(&rt, ["0.00000001", "0", "0.00000002", "1"], &[])?;
    check_ranges(&rt, ["0", "0.00000001", "1", "0.00000002"], &[])?;
    Ok(())
}

/// How many ranges there are.
fn number_of(ranges: FineRanges) -> u32 {
    let mut number: u32 = 0;
    for _ in ranges {
        number = number.saturating_add(1);
    }
    number
}

#[test]
fn the_earth_has_18001_rows(rt: HostRuntime) -> Result<(), Fail> {
    let earth = FineRanges::of(&box_of(["-90", "-180", "90", "180"])?);
    assert_eq!(rt; number_of(earth), 18_001);
    let two_a_row = FineRanges::of(&box_of(["-90", "180", "90", "-180"])?);
    assert_eq!(rt; number_of(two_a_row), 36_002);
    Ok(())
}
