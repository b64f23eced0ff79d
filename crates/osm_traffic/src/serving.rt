//! The loop.

ghost use Rattle.std.specs.FinMap.{empty, len};
ghost use Rattle.std.specs.Prelude.{◌≡◌, ◌<◌, ◌↔◌, ◌+◌, ◌++◌, IfOk, IsTrue, List, OnErr, OnOk, Option, Some, true, if◌then◌else◌};
ghost use Rattle.osm_desk.specs.Contents.{StandsFor};
ghost use Rattle.osm_desk.specs.Desks.{fresh_desk};
ghost use Rattle.osm_keys.specs.Publications.{Publication};
ghost use Rattle.osm_gate.specs.Terms.{terms_of};
ghost use Rattle.osm_traffic.specs.Deeds.{Deed, Serves, arrivals, desk_after, log_of};
ghost use Rattle.osm_traffic.specs.Entries.{Entry};
ghost use Rattle.osm_desk.specs.Published.{TakesFound};
ghost use Rattle.osm_traffic.specs.internal.Standing.{Moves, Stops};

use crate::hearing::listen;
use crate::leaving::let_go;
use crate::outputs::Outputs;
use crate::traffic::{News, Room, Traffic};
use crate::traffic_fault::TrafficFault;
use crate::welcome::welcome;
use crate::writing::hand;
use osm_desk::{CONNECTION_LIMIT, Desk, Lookout};
use osm_gate::Mirror;
use std::alloc::Global;
use std::io::Write;

/// How many bytes one read takes at most.
const PIECE_LIMIT: usize = 8192;

/// Serves this number of connections on the desk, up to 64 at a time, numbered from 0 as they come. Each is read only
/// where it has nothing coming any more, a piece at a time, and gets the responses to the requests that the piece
/// completes. The lookout is asked at each connection that comes, before its bytes are read, and whenever the traffic says
/// that it is time. A connection that ends badly is told in `errors`, and leaves the others: in one line (`G1` to `G3`), or in
/// two, `G3` and then `G2`, where memory runs out for a request and what is to be answered then can't be written.
///
/// A query that passes the budget, where there is one, is answered with 503 `too much work`, and its connection goes on
/// as after an answer. What is counted says `ql_eval::evaluate_within`. Where the nodes of the desk's mirror are read from a
/// device, a query that reads may be answered with 500 `device`, and its connection goes on, too.
///
/// # Errors
///
/// `Device` where the traffic can't be waited at, or gives no further connection. `Memory` where memory runs out for a
/// connection that comes, or at the traffic. `Endless` after 2^64 happenings. The connections that are open then get
/// nothing more.
pub fn serve_many<M: Mirror, L: Lookout<M>, T: Traffic, E: Write>(
    alloc: Global,
    desk: &mut Desk<M>,
    lookout: &mut L,
    traffic: &mut T,
    connections: u32,
    most: Option<u64>,
    errors: &mut E,
) -> Result<(), TrafficFault>
    requires { desk.old.connections ≡ empty }
    // Whatever happens, in whatever order, what went in and out is what a run of the desk says.
    ensures served { (p : Publication) (base : List Entry) → M.holds desk.old.mirror p
        → T.log traffic.old ≡ Some base
        → (deeds : List Deed) × (T.log traffic.new ≡ Some (log_of deeds ++ base))
        × Serves (terms_of most M.may_fail) connections (fresh_desk p) deeds
        × StandsFor M.holds desk.new (desk_after (fresh_desk p) deeds)
        × OnOk result (arrivals deeds ≡ connections) }
    // What is in force has been made by what the lookout found, one after the other, but what was refused.
    ensures found { TakesFound (L.found lookout.old) (L.found lookout.new)
        (M.holds desk.old.mirror) (M.holds desk.new.mirror) }
    ensures none_open { OnOk result (desk.new.connections ≡ empty) }
{
    let mut outputs = Outputs::new(alloc);
    let mut piece = [0; PIECE_LIMIT];
    let mut taken = 0;
    for _ in 0..u64::MAX {
        if taken == connections && outputs.is_empty() && desk.is_empty() {
            return Ok(());
        }
        let room = room_for(desk, &outputs, taken, connections);
        let news = traffic.next(room)?;
        if turn(
            desk,
            lookout,
            &mut outputs,
            traffic,
            errors,
            &mut piece,
            news,
            taken,
            room,
            most,
        )? {
            taken += 1;
        }
    }
    Err(TrafficFault::Endless)
}

/// Whether a further connection may be taken: where one is wanted, and fewer than 64 are open.
fn room_for<M: Mirror>(desk: &Desk<M>, outputs: &Outputs, taken: u32, connections: u32) -> Room
    ensures { (result ≡ Room.Free)
        ↔ ((taken < connections) × (len outputs.now < CONNECTION_LIMIT)
        × (len desk.now.connections < CONNECTION_LIMIT)) }
{
    if taken >= connections {
        Room::Closed
    } else if has_room(desk, outputs) {
        Room::Free
    } else {
        Room::Full
    }
}

/// Whether fewer than 64 connections are open.
fn has_room<M: Mirror>(desk: &Desk<M>, outputs: &Outputs) -> bool
    ensures { IsTrue result ↔ ((len outputs.now < CONNECTION_LIMIT)
        × (len desk.now.connections < CONNECTION_LIMIT)) }
{
    outputs.count() < CONNECTION_LIMIT && !desk.is_full()
}

/// Does what is next, and tells whether a connection has come.
fn turn<M: Mirror, L: Lookout<M>, T: Traffic, E: Write>(
    desk: &mut Desk<M>,
    lookout: &mut L,
    outputs: &mut Outputs,
    traffic: &mut T,
    errors: &mut E,
    piece: &mut [u8],
    news: News,
    number: u32,
    room: Room,
    most: Option<u64>,
) -> Result<bool, TrafficFault>
    requires room { room ≡ Room.Free → len desk.old.connections < CONNECTION_LIMIT }
    ensures stands { IfOk result
        (λ is. Moves M.holds (terms_of most M.may_fail)
        (T.log traffic.old) (T.log traffic.new) outputs.old outputs.new desk.old desk.new
        number (if is then number + 1 else number)) }
    ensures refused { OnErr result (Stops M.holds (terms_of most M.may_fail)
        (T.log traffic.old) (T.log traffic.new) outputs.old outputs.new desk.old desk.new number) }
    ensures only_room { IfOk result (λ is. is ≡ true → room ≡ Room.Free) }
    ensures found { TakesFound (L.found lookout.old) (L.found lookout.new)
        (M.holds desk.old.mirror) (M.holds desk.new.mirror) }
{
    match news {
        News::Waiting => match room {
            Room::Free => return welcome(desk, lookout, outputs, traffic, errors, number),
            Room::Full | Room::Closed => {}
        },
        News::Readable(number) => listen(desk, outputs, traffic, errors, number, piece, most),
        News::Writable(number) => hand(desk, outputs, traffic, errors, number),
        News::Silent(number) => let_go(desk, outputs, traffic, errors, number),
        News::Look => lookout.look(desk, errors),
    }
    Ok(false)
}
