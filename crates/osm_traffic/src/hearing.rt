//! What comes in.

ghost use Rattle.std.specs.FinMap.{get};
ghost use Rattle.std.specs.Prelude.{◌≡◌, ◌≤◌, ℕ, IsSome, IsTrue, List, Option, Some, [], length};
ghost use Rattle.osm_desk.specs.OneConnection.{rest_of};
ghost use Rattle.osm_gate.specs.Pieces.{CompletesOne, IsCut, IsWanted};
ghost use Rattle.osm_gate.specs.Terms.{terms_of};
ghost use Rattle.osm_traffic.specs.Entries.{Entry, noted, brought};
ghost use Rattle.osm_traffic.specs.internal.Standing.{Keeps};

use crate::leaving::{break_off, part, tell};
use crate::output::Output;
use crate::outputs::Outputs;
use crate::traffic::{Reading, Traffic};
use crate::writing::hand;
use osm_desk::Desk;
use osm_gate::{GateFault, Mirror};
use std::io::Write;

/// Reads a piece of a connection that has nothing coming any more, and answers it, where each query has the budget, or none.
/// No more is read than is wanted, so the piece completes one request at most.
pub(crate) fn listen<M: Mirror, T: Traffic, E: Write>(
    desk: &mut Desk<M>,
    outputs: &mut Outputs,
    traffic: &mut T,
    errors: &mut E,
    number: u32,
    piece: &mut [u8],
    most: Option<u64>,
)
    ensures kept { Keeps M.holds (terms_of most M.may_fail)
        (T.log traffic.old) (T.log traffic.new) outputs.old outputs.new desk.old desk.new }
    ensures mirror { desk.new.mirror ≡ desk.old.mirror }
{
    if !may_read(desk, outputs, number) {
        return;
    }
    let room = room_for(desk.wanted(number), piece.len());
    let front = &mut piece[..room];
    match traffic.read(number, front) {
        Reading::Got(count) => {
            hear(desk, outputs, errors, number, &front[..count], most);
            hand(desk, outputs, traffic, errors, number);
        }
        Reading::Later => {}
        Reading::Ended => part(desk, outputs, traffic, number, true),
        Reading::Gone => {
            break_off(desk, outputs, traffic, errors, number, GateFault::Reader);
        }
    }
}

/// How much of a piece is read, where so much is wanted.
fn room_for(wanted: usize, room: usize) -> usize
    ensures within { result ≤ room }
    ensures wanted { (piece : List ℕ) → length piece ≤ result → IsCut piece → IsWanted wanted piece }
{
    if wanted == 0 { room } else { wanted.min(room) }
}

/// Whether the connection is open and has nothing coming.
fn may_read<M: Mirror>(desk: &Desk<M>, outputs: &Outputs, number: u32) -> bool
    ensures idle { IsTrue result → get outputs.now number ≡ Some [] }
    ensures open { IsTrue result → IsSome (get desk.now.connections number) }
{
    match outputs.output(number) {
        Some(output) => output.is_empty() && desk.is_open(number),
        None => false,
    }
}

/// Takes a piece that was read.
fn hear<M: Mirror, E: Write>(
    desk: &mut Desk<M>,
    outputs: &mut Outputs,
    errors: &mut E,
    number: u32,
    piece: &[u8],
    most: Option<u64>,
)
    requires idle { get outputs.old number ≡ Some [] }
    requires open { IsSome (get desk.old.connections number) }
    requires cut { IsCut piece.now }
    requires single { CompletesOne (rest_of desk.old number) piece.now }
    ensures kept { (log : Option (List Entry))
        → Keeps M.holds (terms_of most M.may_fail) log (noted (brought number piece.now) log)
        outputs.old outputs.new desk.old desk.new }
    ensures mirror { desk.new.mirror ≡ desk.old.mirror }
{
    let Ok(text) = desk.hear_within(number, piece, most) else {
        tell(errors, GateFault::Memory);
        // Nothing more of it is heard.
        desk.forget(number);
        outputs.put(number, Output::apology());
        return;
    };
    let is_last = desk.is_closed(number);
    outputs.put(number, Output::answers(text, is_last));
}
