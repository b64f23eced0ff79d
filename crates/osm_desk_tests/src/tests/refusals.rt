//! Events that are refused.

use super::{
    ALL_KINDS, arrival, desk_of, found, gives_nothing, hears, publication, refusal_of, root_of,
    snapshot_of,
};
use opl_codec::read_set;
use osm_desk::{Desk, DeskFault, Event};
use osm_index::{ApplyFault, Edition, Snapshot};
use osm_model::{Kind, Ref};
use std::alloc::Global;
use std::process::Abort;
use std::test::Fail;

/// Whether this event is refused with this text.
fn is_refused(
    rt: &(impl Abort + AllocGlobal),
    desk: &mut Desk<Snapshot>,
    event: Event,
    text: &str,
) -> Result<(), Fail> {
    let Some(fault) = refusal_of(desk, event) else {
        return Err(Fail::new("it is refused"));
    };
    let found = format!(in rt.alloc(); "{fault}")?;
    assert_eq!(rt; found.as_str(), text);
    Ok(())
}

/// Opens the connections of these numbers.
fn opens(rt: &impl Abort, desk: &mut Desk<Snapshot>, first: u32, after: u32) {
    for number in first..after {
        assert!(rt; gives_nothing(desk, Event::Open(number)));
    }
}

#[test]
fn connections_are_open_or_not(rt: HostRuntime) -> Result<(), Fail> {
    let mut desk = desk_of(rt.alloc(), "")?;
    opens(&rt, &mut desk, 1, 2);
    is_refused(&rt, &mut desk, Event::Open(1), "D1")?;
    let piece = arrival(rt.alloc(), 2, b"GET")?;
    is_refused(&rt, &mut desk, piece, "D2")?;
    is_refused(&rt, &mut desk, Event::End(2), "D2")?;
    assert!(rt; desk.is_open(1));
    assert!(rt; !desk.is_open(2));
    Ok(())
}

#[test]
fn sixty_four_are_open_at_most(rt: HostRuntime) -> Result<(), Fail> {
    let mut desk = desk_of(rt.alloc(), "")?;
    opens(&rt, &mut desk, 0, 63);
    assert!(rt; !desk.is_full());
    opens(&rt, &mut desk, 63, 64);
    assert!(rt; desk.is_full());
    is_refused(&rt, &mut desk, Event::Open(64), "D3")?;
    is_refused(&rt, &mut desk, Event::Open(3), "D1")?;
    assert!(rt; gives_nothing(&mut desk, Event::End(5)));
    opens(&rt, &mut desk, 64, 65);
    is_refused(&rt, &mut desk, Event::Open(5), "D3")?;
    Ok(())
}

/// The response that tells the root of the set of all kinds of objects.
fn root_response(alloc: Global) -> Result<String, Fail> {
    let snapshot = snapshot_of(alloc, ALL_KINDS, 0)?;
    let root = root_of(alloc, &snapshot)?;
    let body = format!(in alloc; "{root}\n")?;
    found(alloc, &snapshot, body.as_str())
}

#[test]
fn refused_changes_change_nothing(rt: HostRuntime) -> Result<(), Fail> {
    let want = root_response(rt.alloc())?;
    let mut desk = desk_of(rt.alloc(), ALL_KINDS)?;
    opens(&rt, &mut desk, 1, 2);
    let changes = publication(rt.alloc(), "n2 dD\nn99 dD\n")?;
    is_refused(&rt, &mut desk, changes, "D4 I2 n99")?;
    assert!(rt;
        hears(
            rt.alloc(),
            &mut desk,
            1,
            b"GET /api/root HTTP/1.1\r\n\r\n",
            want.as_bytes()
        )?
    );
    Ok(())
}

#[test]
fn the_first_edition_takes_no_changes(rt: HostRuntime) -> Result<(), Fail> {
    let alloc = rt.alloc();
    let set = read_set(alloc, &mut ALL_KINDS.as_bytes())?;
    let mut desk = Desk::new(alloc, Snapshot::build(alloc, set, Edition::One)?);
    let changes = publication(alloc, "n2 dD\n")?;
    is_refused(&rt, &mut desk, changes, "D4 I5")
}

#[test]
fn refusals_show_their_codes(rt: HostRuntime) -> Result<(), Fail> {
    let alloc = rt.alloc();
    let way = Ref {
        kind: Kind::Way,
        id: 10,
    };
    let rows = [
        (DeskFault::AlreadyOpen, "D1"),
        (DeskFault::NotOpen, "D2"),
        (DeskFault::NoRoom, "D3"),
        (DeskFault::Refused(ApplyFault::LastSequence), "D4 I5"),
        (
            DeskFault::Refused(ApplyFault::ChangedTwice(way)),
            "D4 I3 w10",
        ),
        (DeskFault::Refused(ApplyFault::Clash), "D4 I1"),
        (DeskFault::Memory, "no memory"),
    ];
    for (fault, text) in rows {
        let found = format!(in alloc; "{fault}")?;
        assert_eq!(rt; found.as_str(), text);
    }
    Ok(())
}
