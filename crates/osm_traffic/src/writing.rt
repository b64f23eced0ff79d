//! What goes out.

ghost use Rattle.std.specs.FinMap.{get};
ghost use Rattle.std.specs.Prelude.{◌≡◌, ◌<◌, IsTrue, length};
ghost use Rattle.osm_gate.specs.Terms.{Terms};
ghost use Rattle.osm_traffic.specs.internal.Standing.{Keeps};
ghost use Rattle.osm_traffic.specs.internal.Texts.{coming};

use crate::leaving::{break_off, part};
use crate::outputs::Outputs;
use crate::traffic::{Traffic, Writing};
use osm_desk::Desk;
use osm_gate::{GateFault, Mirror};
use std::io::Write;

/// Gives a connection what it has coming, a chunk after the other, as far as its socket takes it. The connection ends
/// where that was its last and all is taken, or where it is broken.
pub(crate) fn hand<M: Mirror, T: Traffic, E: Write>(
    desk: &mut Desk<M>,
    outputs: &mut Outputs,
    traffic: &mut T,
    errors: &mut E,
    number: u32,
)
    ensures kept { (terms : Terms) → Keeps M.holds terms (T.log traffic.old) (T.log traffic.new)
        outputs.old outputs.new desk.old desk.new }
    ensures mirror { desk.new.mirror ≡ desk.old.mirror }
{
    'chunks: while hand_chunk(desk, outputs, traffic, errors, number) {}
}

/// Gives a connection the first chunk of what it has coming, and tells whether its socket took all of the chunk, so that
/// it may take another. Where nothing is left and that was its last, the connection ends.
fn hand_chunk<M: Mirror, T: Traffic, E: Write>(
    desk: &mut Desk<M>,
    outputs: &mut Outputs,
    traffic: &mut T,
    errors: &mut E,
    number: u32,
) -> bool
    ensures kept { (terms : Terms) → Keeps M.holds terms (T.log traffic.old) (T.log traffic.new)
        outputs.old outputs.new desk.old desk.new }
    ensures mirror { desk.new.mirror ≡ desk.old.mirror }
    ensures fewer { IsTrue result → length (coming (get outputs.new number))
        < length (coming (get outputs.old number)) }
{
    let Some(output) = outputs.output(number) else {
        return false;
    };
    if output.is_empty() {
        if output.is_last() {
            part(desk, outputs, traffic, number, true);
        }
        return false;
    }
    let bytes = output.bytes();
    let length = bytes.len();
    let Writing::Took(count) = traffic.write(number, bytes) else {
        break_off(desk, outputs, traffic, errors, number, GateFault::Writer);
        return false;
    };
    outputs.advance(number, count);
    count == length
}
