//! What is read from pieces, and what is noted of what is missing.

use crate::pieces::{NotRead, Pieces};
use crate::reader::PieceReader;
use crate::span::Span;
use node_pack::{Place, ReadAt, ReadFault};
use std::cell::Cell;
use std::test::Fail;

/// Of a pack of 100 bytes those from 10 to 29, and those from 40 to 49.
const TABLE: &[u8] = b"\x0a\0\0\0\0\0\0\0\x14\0\0\0\0\0\0\0\x28\0\0\0\0\0\0\0\x0a\0\0\0\0\0\0\0";

const BYTES: &[u8] = b"abcdefghijklmnopqrst0123456789";

/// What no piece has, and the pack has: the first place isn't in one piece, and the last but one ends beyond the pack.
#[test]
fn what_is_missing_is_noted(rt: HostRuntime) -> Result<(), Fail> {
    let alloc = rt.alloc();
    let pieces = match Pieces::read(alloc, 100, TABLE, BYTES) {
        Ok(pieces) => pieces,
        Err(why) => {
            assert_eq!(rt; why, NotRead::Memory);
            return Ok(());
        }
    };
    let missed = Cell::new(Vec::new(alloc));
    let mut reader = PieceReader {
        alloc,
        pieces: &pieces,
        missed: &missed,
    };
    let mut bytes = Vec::new(alloc);
    for (offset, len) in [(10, 20), (12, 3), (49, 1), (100, 0)] {
        reader.read_at(offset, len, &mut bytes)?;
    }
    assert_eq!(rt; bytes.as_slice(), b"abcdefghijklmnopqrstcde9".as_slice());
    assert_eq!(rt; reader.read_at(99, 1, &mut bytes), Err(ReadFault::Device));
    reader.expect(&[
        Place { at: 29, len: 12 },
        Place { at: 12, len: 5 },
        Place { at: 9, len: 2 },
        Place { at: 99, len: 2 },
        Place { at: 50, len: 0 },
    ]);
    let noted = missed.into_inner();
    let wanted = [
        Span { start: 99, len: 1 },
        Span { start: 29, len: 12 },
        Span { start: 9, len: 2 },
    ];
    assert_eq!(rt; noted.as_slice(), wanted.as_slice());
    Ok(())
}
